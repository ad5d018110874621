ghost use Rattle.std.specs.Prelude.{◌≡◌, ◌<◌, ◌+◌, ◌^◌, IfOk, IsTrue, IsFalse, true};
ghost use Rattle.std.specs.Borrow.{sem};
ghost use Rattle.lmn_store_heap.specs.Sound.{Forest, IsTree, flat};
ghost use Rattle.lmn_schedule_strategy.specs.Choosing.{NoneIn};
ghost use Rattle.lmn_schedule_strategy.specs.Counting.{CountsAsked};
ghost use Rattle.lmn_schedule_strategy.specs.Turns.{IsAwakeTurn};
ghost use Rattle.lmn_schedule.specs.Turning.{KeepsHeap, counted};
ghost use Rattle.lmn_verify_coded.specs.Runs.{CodedTurn};
ghost use Rattle.lmn_verify_coded.specs.Turning.{CodedCanTurn, SomeIn};
ghost use Rattle.lmn_verify_coded.specs.Lending.{coded_lends_store};

use lmn_base::{NoMemory, Rows};
use lmn_instr_code::Code;
use lmn_instr_pool::Codes;
use lmn_machine::{Machine, Steps};
use lmn_schedule_strategy::{Turn, membranes, search, take_turn};
use lmn_store_trait::LinkStore;
use std::alloc::Global;
use std::sync::ledger::Ledger;

/// A process in a store, with codes that make it react: the code with a number is run where the rule with this number stands.
#[derive(Drop)]
pub struct Coded<S: LinkStore> {
    codes: Codes,
    machine: Machine<S>,
    /// The most items that a commit may leave.
    size: u64,
    commits: u64,
}

impl<S: LinkStore + Drop> Coded<S> {
    /// Codes over a store, where a commit may leave at most `size` items. No commit is done. Which rules the codes are of isn't
    /// asked: each can be run, a membrane in which it has failed may sleep, and the rules in the store have codes.
    ///
    /// # Errors
    ///
    /// `NoMemory` at want of memory.
    pub fn new(alloc: Global, store: S, codes: Rows<Code>, size: u64) -> Result<Coded<S>, NoMemory>
        requires run { CodedCanTurn (S.heap store) codes size }
        ensures run { IfOk result (λ c. CodedCanTurn (S.heap c.machine.store) c.codes c.size) }
        ensures keeps { IfOk result (λ c. (c.machine.store ≡ store) × (c.codes ≡ codes) × (c.size ≡ size) × (c.commits ≡ 0)) }
    {
        Ok(Coded {
            codes: Codes::from_rows(alloc, codes)?,
            machine: Machine::new(alloc, store)?,
            size,
            commits: 0,
        })
    }
}

impl<S: LinkStore> Coded<S> {
    /// One turn, in which the root is asked first: the first rule whose code succeeds fires, at the first success, unless more items
    /// would be left than are allowed. Membranes that sleep aren't asked, and one that is asked in vain falls asleep, until something in it
    /// or below it is made, removed, moved or joined otherwise. With another answer than `Committed` the store is else as it was, but for
    /// room for rules at `NoMemory`. The steps rise by the rules of the awake membranes asked at most.
    pub fn turn<L: Ledger>(&mut self, alloc: Global, steps: &mut Steps<L>) -> Turn
        requires run { CodedCanTurn (S.heap self.old.machine.store) self.old.codes self.old.size }
        requires commits { self.old.commits < 2 ^ 63 }
        ensures turned { CodedTurn self.old.codes self.old.size (S.heap self.old.machine.store) result (S.heap self.new.machine.store) }
        ensures flags { (f : Forest) → IsTree (S.heap self.old.machine.store) f → IsAwakeTurn true (S.heap self.old.machine.store) self.old.codes f 0 self.old.size result (S.heap self.new.machine.store) }
        ensures kept { KeepsHeap result (S.heap self.old.machine.store) (S.heap self.new.machine.store) }
        ensures again { CodedCanTurn (S.heap self.new.machine.store) self.old.codes self.old.size }
        ensures steps { CountsAsked (S.heap self.old.machine.store) self.old.codes 0 steps.old steps.new }
        ensures keeps { self.new ≡ record self.old { machine = self.new.machine; commits = self.old.commits + counted result } }
    {
        let many = membranes(self.machine.store());
        let answer = take_turn(
            alloc,
            &mut self.machine,
            &self.codes,
            0,
            many,
            self.size,
            true,
            steps,
        );
        if answer == Turn::Committed {
            self.commits += 1;
        }
        answer
    }

    /// Whether some rule of some membrane has a code that succeeds. Membranes that sleep aren't asked. It takes no memory and changes
    /// nothing. The steps rise by the rules of the awake membranes asked at most, the root first.
    pub fn reducible<L: Ledger>(&mut self, steps: &mut Steps<L>) -> bool
        requires run { CodedCanTurn (S.heap self.old.machine.store) self.old.codes self.old.size }
        ensures yes { IsTrue result → (f : Forest) → IsTree (S.heap self.old.machine.store) f → SomeIn (S.heap self.old.machine.store) self.old.codes (flat f) }
        ensures no { IsFalse result → (f : Forest) → IsTree (S.heap self.old.machine.store) f → NoneIn (S.heap self.old.machine.store) self.old.codes (flat f) }
        ensures same { S.heap self.new.machine.store ≡ S.heap self.old.machine.store }
        ensures keeps { self.new ≡ record self.old { machine = self.new.machine } }
        ensures steps { CountsAsked (S.heap self.old.machine.store) self.old.codes 0 steps.old steps.new }
    {
        let many = membranes(self.machine.store());
        match search(&mut self.machine, &self.codes, 0, many, false, steps) {
            Some(_) => true,
            None => false,
        }
    }

    /// How many commits were done.
    pub fn commits(&self) -> u64
        ensures { result ≡ self.now.commits }
    {
        self.commits
    }

    /// The store, to be changed. The codes then have it as it was left.
    pub fn store(&mut self) -> &mut S
        ensures* writes_back { sem 𝓛 (coded_lends_store S.row S.Atom.row S.Mem.row self.entry result) }
        ensures value { result.now ≡ self.old.machine.store }
    {
        self.machine.store_mut()
    }
}
