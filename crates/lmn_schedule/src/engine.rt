ghost use Rattle.std.specs.Prelude.{[], ◌≡◌, ◌<◌, ◌≤◌, ◌+◌, ◌-◌, ◌^◌, List, length, IfOk, IfErr, OnOk, IsTrue, IsFalse};
ghost use Rattle.std.specs.Borrow.{sem};
ghost use mir.Syntax.{named};
ghost use Rattle.lmn_base.specs.declared.solid.Solid.{Solid};
ghost use Rattle.lmn_base.specs.Solids.{item_count};
ghost use Rattle.lmn_congruence.specs.Rules.{Name};
ghost use Rattle.lmn_congruence.specs.SolidsOfPlains.{IsSolidOf};
ghost use Rattle.lmn_store_heap.specs.Sound.{Forest, IsTree, AllInPlace, flat, item_count_in};
ghost use Rattle.lmn_schedule_loading.specs.Loaded.{IsEmpty, IsLoaded, LoadCauses};
ghost use Rattle.lmn_schedule_strategy.specs.Quieting.{AllAwake};
ghost use Rattle.lmn_schedule.specs.Held.{AreNames, CanBeLoaded, EngineCanTurn, HoldsRegion, HoldsSolid};
ghost use Rattle.lmn_schedule.specs.Turning.{Gives, IsDone, IsTurned, IsTurnedByAnswer, KeepsHeap, counted};
ghost use Rattle.lmn_schedule_strategy.specs.Counting.{CountsAsked};
ghost use Rattle.lmn_adequacy.specs.Embedding.{HasEmbedding};
ghost use Rattle.lmn_adequacy.specs.Runs.{Chooser as Choosing};
ghost use Rattle.lmn_order.specs.Answers.{AnswersBelow};
ghost use Rattle.lmn_congruence.specs.Regions.{Region};
ghost use Rattle.lmn_schedule.specs.Lending.{engine_lends_store};

use crate::rousing::rouse_all;
use lmn_adequacy_choices::{
    marks_are_not_read, membranes_are_numbered_alike, nothing_embeds, spares_are_not_read,
    turns_are_alike, turns_are_of_chooser,
};
use lmn_adequacy_heaps::solids_are_regions;
use lmn_adequacy_turns::plains_are_tables;
use lmn_base::{NoMemory, Plain};
use lmn_compile_rules::stored;
use lmn_guards::GuardPlan;
use lmn_instr_pool::Codes;
use lmn_machine::{Machine, Steps};
use lmn_order::Chooser;
use lmn_schedule_loading::{LoadFault, load, loading_settles};
use lmn_schedule_strategy::{
    Turn, membranes, search, tables_are_quiet, tables_are_runnable, take_turn,
};
use lmn_store_trait::LinkStore;
use std::alloc::Global;
use std::sync::ledger::Ledger;

/// A process in a store, with the rules that make it react.
pub struct Engine<'p, S: LinkStore, F> {
    plain: &'p Plain,
    codes: Codes,
    machine: Machine<S>,
    chooser: Chooser<F>,
    /// The most items that a commit may leave.
    size: u64,
    commits: u64,
}

// By hand, so that no crate above proves anew how an engine is freed.
impl<'p, S: LinkStore + Drop, F: Drop> Drop for Engine<'p, S, F> {
    fn drop(self) {
        let Engine {
            plain: _,
            codes: _,
            machine: _,
            chooser: _,
            size: _,
            commits: _,
        } = self;
    }
}

impl<'p, S: LinkStore + Drop, F: Fn(u64, u64) -> u64 + Drop> Engine<'p, S, F> {
    /// Loads the process of an accepted plain into a new store, where at most `size` items are allowed. `plans` has the plan of
    /// each rule, by its number. The chooser says which membrane is asked first in each turn. Every membrane is awake.
    /// It takes no names: what is said of them holds for each list that has those of the plain.
    ///
    /// # Errors
    ///
    /// `Size` with the number of items, exactly where it is more than `size`; `NoMemory` at want of memory.
    pub fn load(
        alloc: Global,
        plain: &'p Plain,
        plans: &[GuardPlan],
        store: S,
        chooser: Chooser<F>,
        size: u64,
    ) -> Result<Engine<'p, S, F>, LoadFault>
        requires plain { CanBeLoaded plain.now plans.now }
        requires store { IsEmpty (S.heap store) }
        requires size { size < 2 ^ 64 - 1 }
        ensures holds { IfOk result (λ e. (names : List Name) → AreNames names plain.now → HoldsSolid names plain.now (S.heap e.machine.store)) }
        ensures run { IfOk result (λ e. EngineCanTurn (S.heap e.machine.store) plain.now.rules e.codes e.size × AllAwake (S.heap e.machine.store)) }
        ensures keeps { IfOk result (λ e. (e.plain.now ≡ plain.now) × (e.chooser ≡ chooser) × (e.size ≡ size) × (e.commits ≡ 0)) }
        ensures fits { OnOk result ((s : Solid) → IsSolidOf plain.now s → item_count s ≤ size) }
        ensures fault { IfErr result (λ fault. LoadCauses plain.now size fault) }
    {
        loading_settles();
        plains_are_tables();
        solids_are_regions();
        let mut store = store;
        load(alloc, plain, &mut store, size)?;
        rouse_all(&mut store);
        match Engine::over(alloc, plain, plans, store, chooser, size) {
            Ok(engine) => Ok(engine),
            Err(NoMemory) => Err(LoadFault::NoMemory),
        }
    }

    /// An engine over a store in which the process of the plain is.
    fn over(
        alloc: Global,
        plain: &'p Plain,
        plans: &[GuardPlan],
        store: S,
        chooser: Chooser<F>,
        size: u64,
    ) -> Result<Engine<'p, S, F>, NoMemory>
        requires plain { CanBeLoaded plain.now plans.now }
        requires store { IsLoaded plain.now (S.heap store) }
        requires awake { AllAwake (S.heap store) }
        requires size { size < 2 ^ 64 - 1 }
        ensures store { IfOk result (λ e. e.machine.store ≡ store) }
        ensures run { IfOk result (λ e. EngineCanTurn (S.heap e.machine.store) plain.now.rules e.codes e.size) }
        ensures keeps { IfOk result (λ e. (e.plain.now ≡ plain.now) × (e.chooser ≡ chooser) × (e.size ≡ size) × (e.commits ≡ 0)) }
    {
        loading_settles();
        Ok(Engine {
            plain,
            codes: stored(alloc, plain, plans)?,
            machine: Machine::new(alloc, store)?,
            chooser,
            size,
            commits: 0,
        })
    }
}

impl<'p, S: LinkStore, F: Fn(u64, u64) -> u64> Engine<'p, S, F> {
    /// One turn: the rule that the strategy chooses fires, at its least match, unless more items would be left than are allowed.
    /// With another answer than `Committed` the solid is as it was. Membranes that sleep aren't asked, and one that is asked in vain falls
    /// asleep, until something in it or below it is made, removed, moved or joined otherwise. The steps rise by the rules of the awake
    /// membranes asked at most.
    pub fn turn<L: Ledger>(&mut self, alloc: Global, steps: &mut Steps<L>) -> Turn
        requires run { EngineCanTurn (S.heap self.old.machine.store) self.old.plain.now.rules self.old.codes self.old.size }
        requires chooser { AnswersBelow F.pre F.post self.old.chooser.f }
        requires commits { self.old.commits < 2 ^ 63 }
        ensures turned { (c : Choosing) → Gives F.post self.old.chooser.f c → (names : List Name) (x : Region) → HoldsRegion names self.old.plain.now.rules (S.heap self.old.machine.store) x →
            IsTurned names self.old.plain.now.rules c self.old.size self.old.commits x result (S.heap self.new.machine.store) }
        ensures chosen { IsTurnedByAnswer (F.post self.old.chooser.f) self.old.plain.now.rules self.old.codes self.old.size self.old.commits (S.heap self.old.machine.store) result (S.heap self.new.machine.store) steps.old steps.new }
        ensures kept { KeepsHeap result (S.heap self.old.machine.store) (S.heap self.new.machine.store) }
        ensures again { EngineCanTurn (S.heap self.new.machine.store) self.old.plain.now.rules self.old.codes self.old.size }
        ensures keeps { self.new ≡ record self.old { machine = self.new.machine; commits = self.old.commits + counted result } }
    {
        tables_are_runnable();
        tables_are_quiet();
        membranes_are_numbered_alike();
        turns_are_alike();
        turns_are_of_chooser();
        spares_are_not_read();
        marks_are_not_read();
        let many = membranes(self.machine.store());
        let from = self.chooser.pick(self.commits, many);
        let answer = take_turn(
            alloc,
            &mut self.machine,
            &self.codes,
            from,
            many,
            self.size,
            true,
            steps,
        );
        if answer == Turn::Committed {
            self.commits += 1;
        }
        answer
    }

    /// Whether some rule of some membrane has a match. Membranes that sleep aren't asked. It takes no memory and changes nothing. The steps
    /// rise by the rules of the awake membranes asked at most, the root first.
    pub fn reducible<L: Ledger>(&mut self, steps: &mut Steps<L>) -> bool
        requires run { EngineCanTurn (S.heap self.old.machine.store) self.old.plain.now.rules self.old.codes self.old.size }
        ensures yes { IsTrue result → (names : List Name) (solid : Region) → HoldsRegion names self.old.plain.now.rules (S.heap self.old.machine.store) solid → HasEmbedding solid }
        ensures no { IsFalse result → (names : List Name) (solid : Region) → HoldsRegion names self.old.plain.now.rules (S.heap self.old.machine.store) solid → IsDone solid }
        ensures same { S.heap self.new.machine.store ≡ S.heap self.old.machine.store }
        ensures keeps { self.new ≡ record self.old { machine = self.new.machine } }
        ensures steps { CountsAsked (S.heap self.old.machine.store) self.old.codes 0 steps.old steps.new }
    {
        tables_are_runnable();
        nothing_embeds();
        turns_are_alike();
        let many = membranes(self.machine.store());
        match search(&mut self.machine, &self.codes, 0, many, false, steps) {
            Some(_) => true,
            None => false,
        }
    }

    /// How many commits were done.
    pub fn commits(&self) -> u64
        ensures { result ≡ self.now.commits }
    {
        self.commits
    }

    /// How many items there are: atoms, membranes without the root, and rules that stand in membranes.
    pub fn items(&self) -> u64
        requires { AllInPlace (S.heap self.now.machine.store) }
        ensures { (f : Forest) → IsTree (S.heap self.now.machine.store) f → result + 1 ≡ item_count_in (S.heap self.now.machine.store) (flat f) }
    {
        self.machine.store().items()
    }

    /// The store, with its solid and its marks as they are. It takes no memory.
    pub fn into_store(self) -> S
        ensures { result ≡ self.entry.machine.store }
    {
        let Engine {
            plain: _,
            codes: _,
            machine,
            chooser: _,
            size: _,
            commits: _,
        } = self;
        machine.into_store()
    }

    /// The store, to be changed. The engine then holds it as it was left.
    pub fn store(&mut self) -> &mut S
        ensures* writes_back { sem 𝓛 (engine_lends_store (record { mir = named 0; lft = [] }) S.row F.row S.Atom.row S.Mem.row self.entry result) }
        ensures value { result.now ≡ self.old.machine.store }
    {
        self.machine.store_mut()
    }
}
