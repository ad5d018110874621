ghost use Rattle.std.specs.Prelude.{◌≡◌, ◌+◌, IfOk, OnErr, OnOk};
ghost use Rattle.lmn_store_heap.specs.Heap.{IsMem, Unmarked};
ghost use Rattle.lmn_store_heap.specs.Sound.{Valid};
ghost use Rattle.lmn_solid_bodies.specs.Stopping.{SameButSpares};
ghost use Rattle.lmn_machine_commit.specs.Preparing.{Prepared};
ghost use Rattle.lmn_machine_commit.specs.Matched.{IsPrepared};
ghost use Rattle.lmn_machine.specs.Searching.{HeadInOrder, Looked};
ghost use Rattle.lmn_machine.specs.Firing.{FiresPrepared, HoldsMatch};
ghost use Rattle.std.specs.Borrow.{sem};
ghost use Rattle.lmn_machine.specs.Lending.{lends_store};

use crate::counting::Steps;
use crate::finding;
use crate::reasons::Reasons;
use lmn_base::NoMemory;
use lmn_ground::Found;
use lmn_instr_pool::CodeView;
use lmn_machine_commit::{commit, prepare};
use lmn_machine_registers::SetRegisters;
use lmn_store_trait::LinkStore;
use std::alloc::Global;
use std::sync::ledger::Ledger;

/// How many atoms of a part the room of walks holds.
const WALK_ROOM: usize = 4096;

/// A store, and the registers that hold the match that was found last.
pub struct Machine<S: LinkStore> {
    pub(crate) store: S,
    pub(crate) set: SetRegisters<S::Atom, S::Mem>,
    pub(crate) trail: Found<S::Atom>,
    reasons: Reasons,
}

// By hand, so that no crate above proves anew how a machine is freed.
impl<S: LinkStore + Drop> Drop for Machine<S> {
    fn drop(self) {
        let Machine {
            store: _,
            set: _,
            trail: _,
            reasons: _,
        } = self;
    }
}

impl<S: LinkStore + Drop> Machine<S> {
    /// A machine over a store. It takes the memory of all registers, and room for walks.
    pub fn new(alloc: Global, store: S) -> Result<Machine<S>, NoMemory>
        ensures { IfOk result (λ m. m.store ≡ store) }
    {
        let set = SetRegisters::new(alloc)?;
        let trail = Found::with_room(alloc, WALK_ROOM)?;
        let reasons = Reasons::new(alloc)?;
        Ok(Machine {
            store,
            set,
            trail,
            reasons,
        })
    }
}

impl<S: LinkStore> Machine<S> {
    /// The store.
    pub fn store(&self) -> &S
        ensures { result.now ≡ self.now.store }
    {
        &self.store
    }

    /// The store, to be changed. The machine then holds it as it was left, and the registers as they were.
    pub fn store_mut(&mut self) -> &mut S
        ensures* writes_back { sem 𝓛 (lends_store S.row S.Atom.row S.Mem.row self.entry result) }
        ensures value { result.now ≡ self.old.store }
    {
        &mut self.store
    }

    /// The store, with its solid and its marks as they are. It takes no memory.
    pub fn into_store(self) -> S
        ensures { result ≡ self.store }
    {
        let Machine {
            store,
            set: _,
            trail: _,
            reasons: _,
        } = self;
        store
    }

    /// The registers that are set.
    pub fn registers(&self) -> &SetRegisters<S::Atom, S::Mem>
        ensures { result.now ≡ self.now.set }
    {
        &self.set
    }

    /// Looks for the first success of the head of a code in a membrane, and counts one step. True says that the registers hold
    /// it, and false that there is none. It takes no memory, and the store is left as it was.
    /// The store is changed and put back: the walk through a part sets marks, which each ISGROUND takes back, so
    /// every way out leaves the store by one clause of one function. What is said of the registers `prepare`, `commit` and
    /// `cost` ask.
    #[inline(always)]
    pub fn find<L: Ledger>(
        &mut self,
        code: &CodeView<'_>,
        membrane: S::Mem,
        steps: &mut Steps<L>,
    ) -> bool
        requires valid { Valid (S.heap self.old.store) }
        requires unmarked { Unmarked (S.heap self.old.store) }
        requires membrane { IsMem (S.heap self.old.store) (S.mem_id membrane) }
        requires order { HeadInOrder 0 1 0 0 code.now.head }
        ensures steps { steps.new ≡ steps.old + 1 }
        ensures same { S.heap self.new.store ≡ S.heap self.old.store }
        ensures looked { Looked S.atom_id S.mem_id (S.heap self.old.store) code.now.head (S.mem_id membrane) self.new.set result }
    {
        steps.tick();
        finding::find(
            &mut self.store,
            code.head(),
            membrane,
            &mut self.set,
            &mut self.reasons,
            &mut self.trail,
        )
    }

    /// Makes all that the body of a code makes, detached, after the head was found: then `commit` can't fail. Want of
    /// memory leaves the store as it was, but for room for rules.
    pub fn prepare(&mut self, alloc: Global, code: &CodeView<'_>) -> Result<(), NoMemory>
        requires valid { Valid (S.heap self.old.store) }
        requires unmarked { Unmarked (S.heap self.old.store) }
        requires matched { HoldsMatch S.atom_id S.mem_id (S.heap self.old.store) self.old.set code.now.body }
        ensures ok { OnOk result (Prepared S.atom_id S.mem_id (S.heap self.old.store) (S.heap self.new.store) self.old.set self.new.set code.now.body) }
        ensures err { OnErr result (SameButSpares (S.heap self.old.store) (S.heap self.new.store)) }
        ensures valid { OnErr result (Valid (S.heap self.new.store)) }
        ensures unmarked { Unmarked (S.heap self.new.store) }
    {
        let _root = self.store.root();
        prepare(
            alloc,
            &mut self.store,
            code.body(),
            &mut self.set,
            &mut self.trail,
        )
    }

    /// Does what the body of a code does, after it was prepared: the rule is fired. What the code rouses is awake then, with all
    /// that is round it, and each other membrane keeps its mark. It takes no memory and can't fail.
    pub fn commit(&mut self, code: &CodeView<'_>)
        requires { IsPrepared S.atom_id S.mem_id (S.heap self.old.store) self.old.set code.now.body }
        ensures fires { FiresPrepared S.atom_id S.mem_id (S.heap self.old.store) self.old.set code.now.body (S.heap self.new.store) }
        ensures valid { Valid (S.heap self.new.store) }
        ensures unmarked { Unmarked (S.heap self.new.store) }
        ensures registers { self.new.set ≡ self.old.set }
    {
        commit(&mut self.store, code.body(), &self.set, &mut self.trail);
    }
}
