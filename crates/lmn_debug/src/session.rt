ghost use Rattle.std.specs.Prelude.{◌≡◌, ◌<◌, ◌≤◌, ◌+◌, ◌-◌, ◌^◌, false, ℕ, List, Some, IsTrue, IsFalse, OnOk, OnErr};
ghost use Rattle.lmn_base.specs.Names.{HasNames, label_names};
ghost use Rattle.lmn_congruence.specs.Regions.{Region};
ghost use Rattle.lmn_congruence.specs.Rules.{Name};
ghost use Rattle.lmn_adequacy.specs.Runs.{Chooser as Choosing};
ghost use Rattle.lmn_order.specs.Answers.{AnswersBelow};
ghost use Rattle.lmn_print.specs.Lines.{IsHeapLine};
ghost use Rattle.lmn_io.specs.Writing.{Writes};
ghost use Rattle.lmn_schedule.specs.Held.{EngineCanTurn, HoldsRegion};
ghost use Rattle.lmn_schedule.specs.Turning.{Gives};
ghost use Rattle.lmn_debug.specs.Breaks.{AnswersSo};
ghost use Rattle.lmn_debug.specs.Counts.{IsCount};
ghost use Rattle.lmn_debug.specs.Courses.{Meets, course, most_turns, wish};
ghost use Rattle.lmn_debug.specs.Sessions.{AlongEachCourse, LacksToGoBack, StandsAt, StepsFrom, WaitsFrom};
ghost use Rattle.lmn_debug.specs.Turning.{TurnsTo, Waits, WaitsOn, counted};

use crate::Break;
use lmn_base::{Functor, Names, NoMemory, Plain};
use lmn_debug_counting::CountingStore;
use lmn_io::{Failed, Sink};
use lmn_machine::Steps;
use lmn_print::print;
use lmn_schedule::{Engine, Turn};
use lmn_store_trait::LinkStore;
use std::alloc::Global;
use std::sync::ledger::Ledger;

/// The most turns of one `until`.
const MOST_TURNS: u64 = 1_000_000;

/// Why a command of a session stopped.
#[derive(Clone, Copy)]
pub enum Stop {
    /// All its turns committed.
    Done,
    /// No rule has a match.
    Irreducible,
    /// The next commit would leave more items than the engine allows.
    Full,
    /// The condition holds.
    Met,
    /// The condition doesn't hold after as many turns as may be taken.
    Limit,
    /// Memory was wanting for the next commit. Those before it stand.
    NoMemory,
}

/// An engine that is led by commands. Its store counts, so that an order to wait doesn't count anew at each turn.
pub struct Session<'p, S: LinkStore, F> {
    engine: Engine<'p, CountingStore<S>, F>,
}

// By hand, so that each function that drops a session holds one call for it.
impl<'p, S: LinkStore + Drop, F: Drop> Drop for Session<'p, S, F> {
    fn drop(self) {
        let Session { engine: _ } = self;
    }
}

impl<'p, S: LinkStore + Drop, F: Fn(u64, u64) -> u64 + Drop> Session<'p, S, F> {
    /// A session over an engine that has made no commit.
    pub fn start(engine: Engine<'p, CountingStore<S>, F>) -> Session<'p, S, F>
        requires run { EngineCanTurn (S.heap engine.machine.store) engine.plain.now.rules engine.codes engine.size }
        requires commits { engine.commits ≡ 0 }
        ensures { result.engine ≡ engine.entry }
    {
        Session { engine }
    }

    /// Goes back by `n` commits, or to the first process. `fresh` holds that process. It is turned on to where the session is to
    /// stand, and then kept.
    ///
    /// # Errors
    ///
    /// `NoMemory` at want of memory. The session is as it was.
    pub fn back<L: Ledger>(
        &mut self,
        alloc: Global,
        fresh: Engine<'p, CountingStore<S>, F>,
        n: u64,
        steps: &mut Steps<L>,
    ) -> Result<(), NoMemory>
        requires run { EngineCanTurn (S.heap fresh.machine.store) fresh.plain.now.rules fresh.codes fresh.size }
        requires chooser { AnswersBelow F.pre F.post fresh.chooser.f }
        requires same { (fresh.plain.now ≡ self.old.engine.plain.now) × (fresh.size ≡ self.old.engine.size) }
        requires commits { (fresh.commits ≡ 0) × (self.old.engine.commits < 2 ^ 62) }
        ensures back { OnOk result (let e = fresh.entry in let e' = self.new.engine in AlongEachCourse F.post e.chooser.f e.size (λ names g. HoldsRegion names e.plain.now.rules (S.heap e.machine.store) g.first →
            StandsAt names e.plain.now.rules g e'.commits (S.heap e'.machine.store))) }
        ensures engine { OnOk result (let e' = self.new.engine in (e'.commits ≡ self.old.engine.commits - n) × EngineCanTurn (S.heap e'.machine.store) e'.plain.now.rules e'.codes e'.size
            × (e' ≡ record fresh.entry { machine = e'.machine; commits = e'.commits })) }
        ensures same { OnErr result (self.new ≡ self.old) }
        ensures lacks { OnErr result (let e = fresh.entry in let was = self.old.engine in AlongEachCourse F.post e.chooser.f e.size (λ names g. HoldsRegion names e.plain.now.rules (S.heap e.machine.store) g.first →
            LacksToGoBack names e.plain.now.rules g was.commits (S.heap was.machine.store) n)) }
    {
        let mut replay = Session::start(fresh);
        let number = self.engine.commits().saturating_sub(n);
        match replay.step(alloc, number, steps) {
            Stop::Done => {
                *self = replay;
                Ok(())
            }
            // The trace has as many commits as the session has made, so memory was wanting.
            _ => Err(NoMemory),
        }
    }
}

impl<'p, S: LinkStore, F: Fn(u64, u64) -> u64> Session<'p, S, F> {
    /// The engine, to be changed. The session then holds it as it was left.
    pub fn engine(&mut self) -> &mut Engine<'p, CountingStore<S>, F>
        ensures value { result.now ≡ self.old.engine }
    {
        &mut self.engine
    }

    /// How many commits stand.
    pub fn commits(&self) -> u64
        ensures { result ≡ self.now.engine.commits }
    {
        self.engine.commits()
    }

    /// Writes the plain line of the process, with its line feed. `plain` is that of the engine. It takes no memory.
    /// No engine is lent for it: a loan would get no clause of what the session is afterwards.
    ///
    /// # Errors
    ///
    /// `Failed` where the sink failed; it then took a prefix of the line.
    pub fn show<O: Sink>(&mut self, plain: &Plain, names: &Names, out: &mut O) -> Result<(), Failed>
        requires run { EngineCanTurn (S.heap self.old.engine.machine.store) self.old.engine.plain.now.rules self.old.engine.codes self.old.engine.size }
        requires same { self.old.engine.plain.now ≡ plain.now }
        ensures writes { Writes (IsHeapLine false names.now plain.now.rules (S.heap self.old.engine.machine.store)) result (O.told out.old) (O.faults out.old) (O.told out.new) (O.faults out.new) }
        ensures kept { S.heap self.new.engine.machine.store ≡ S.heap self.old.engine.machine.store }
        ensures keeps { self.new.engine ≡ record self.old.engine { machine = self.new.engine.machine } }
    {
        print(self.engine.store(), plain, names, false, out)
    }

    /// How many atoms have the functor, at every depth. They are gone through once; the number is then kept, whatever turns are made.
    pub fn count(&mut self, functor: Functor) -> u64
        requires run { EngineCanTurn (S.heap self.old.engine.machine.store) self.old.engine.plain.now.rules self.old.engine.codes self.old.engine.size }
        ensures counts { (names : List Name) (solid : Region) → HoldsRegion names self.old.engine.plain.now.rules (S.heap self.old.engine.machine.store) solid → HasNames names (label_names functor.label) → IsCount names functor solid result }
        ensures kept { S.heap self.new.engine.machine.store ≡ S.heap self.old.engine.machine.store }
        ensures keeps { self.new.engine ≡ record self.old.engine { machine = self.new.engine.machine } }
    {
        self.engine.store().count(functor)
    }

    /// At most `n` turns, up to the first that doesn't commit.
    pub fn step<L: Ledger>(&mut self, alloc: Global, n: u64, steps: &mut Steps<L>) -> Stop
        requires run { EngineCanTurn (S.heap self.old.engine.machine.store) self.old.engine.plain.now.rules self.old.engine.codes self.old.engine.size }
        requires chooser { AnswersBelow F.pre F.post self.old.engine.chooser.f }
        requires few { (self.old.engine.commits < 2 ^ 62) × (n ≤ 2 ^ 62) }
        ensures stepped { let e = self.old.engine in let e' = self.new.engine in AlongEachCourse F.post e.chooser.f e.size
            (λ names g. StepsFrom names e.plain.now.rules g e.commits (S.heap e.machine.store) n result e'.commits (S.heap e'.machine.store)) }
        ensures again { EngineCanTurn (S.heap self.new.engine.machine.store) self.new.engine.plain.now.rules self.new.engine.codes self.new.engine.size }
        ensures keeps { self.new.engine ≡ record self.old.engine { machine = self.new.engine.machine; commits = self.new.engine.commits } }
        ensures all { result ≡ Stop.Done → self.new.engine.commits ≡ self.old.engine.commits + n }
        ensures most { self.new.engine.commits ≤ self.old.engine.commits + n }
    {
        for _ in 0..n {
            if let Some(stop) = self.turn(alloc, steps) {
                return stop;
            }
        }
        Stop::Done
    }

    /// Turns until the number of atoms with the functor is as the break asks, which is tested before each turn. At most 1,000,000
    /// turns.
    pub fn until<G: Fn(u64) -> bool, L: Ledger>(
        &mut self,
        alloc: Global,
        functor: Functor,
        stop: &Break<G>,
        steps: &mut Steps<L>,
    ) -> Stop
        requires run { EngineCanTurn (S.heap self.old.engine.machine.store) self.old.engine.plain.now.rules self.old.engine.codes self.old.engine.size }
        requires chooser { AnswersBelow F.pre F.post self.old.engine.chooser.f }
        requires stop { AnswersSo G.pre G.post stop.now.f stop.now.op stop.now.n }
        requires commits { self.old.engine.commits < 2 ^ 62 }
        ensures waited { let e = self.old.engine in let e' = self.new.engine in AlongEachCourse F.post e.chooser.f e.size
            (λ names g. WaitsFrom names e.plain.now.rules g (wish functor stop.now.op stop.now.n) e.commits (S.heap e.machine.store) result e'.commits (S.heap e'.machine.store)) }
        ensures again { EngineCanTurn (S.heap self.new.engine.machine.store) self.new.engine.plain.now.rules self.new.engine.codes self.new.engine.size }
        ensures keeps { self.new.engine ≡ record self.old.engine { machine = self.new.engine.machine; commits = self.new.engine.commits } }
        ensures most { self.new.engine.commits ≤ self.old.engine.commits + most_turns }
    {
        for _ in 0..MOST_TURNS {
            if let Some(why) = self.wait(alloc, functor, stop, steps) {
                return why;
            }
        }
        let met = self.is_met(functor, stop);
        if met { Stop::Met } else { Stop::Limit }
    }

    /// A turn of `until`: nothing where the number of atoms isn't as the break asks and the turn commits, and else why it stops.
    fn wait<G: Fn(u64) -> bool, L: Ledger>(
        &mut self,
        alloc: Global,
        functor: Functor,
        stop: &Break<G>,
        steps: &mut Steps<L>,
    ) -> Option<Stop>
        requires run { EngineCanTurn (S.heap self.old.engine.machine.store) self.old.engine.plain.now.rules self.old.engine.codes self.old.engine.size }
        requires chooser { AnswersBelow F.pre F.post self.old.engine.chooser.f }
        requires stop { AnswersSo G.pre G.post stop.now.f stop.now.op stop.now.n }
        requires commits { self.old.engine.commits < 2 ^ 63 - 1 }
        ensures waits { (c : Choosing) → Gives F.post self.old.engine.chooser.f c → (names : List Name) → HasNames names (label_names functor.label) → (first : Region) (t : ℕ) → let table = self.old.engine.plain.now.rules in let g = course c self.old.engine.size first in
            let w = wish functor stop.now.op stop.now.n in Waits names table g w t self.old.engine.commits (S.heap self.old.engine.machine.store) → t ≤ self.old.engine.commits → self.old.engine.commits < t + most_turns → WaitsOn names table g w t result self.new.engine.commits (S.heap self.new.engine.machine.store) }
        ensures again { EngineCanTurn (S.heap self.new.engine.machine.store) self.new.engine.plain.now.rules self.new.engine.codes self.new.engine.size }
        ensures keeps { self.new.engine ≡ record self.old.engine { machine = self.new.engine.machine; commits = self.new.engine.commits } }
        ensures counts { self.new.engine.commits ≡ self.old.engine.commits + counted result }
    {
        if self.is_met(functor, stop) {
            Some(Stop::Met)
        } else {
            self.turn(alloc, steps)
        }
    }

    /// Whether the number of atoms with the functor is as the break asks.
    fn is_met<G: Fn(u64) -> bool>(&mut self, functor: Functor, stop: &Break<G>) -> bool
        requires run { EngineCanTurn (S.heap self.old.engine.machine.store) self.old.engine.plain.now.rules self.old.engine.codes self.old.engine.size }
        requires stop { AnswersSo G.pre G.post stop.now.f stop.now.op stop.now.n }
        ensures met { IsTrue result → (names : List Name) (solid : Region) → HoldsRegion names self.old.engine.plain.now.rules (S.heap self.old.engine.machine.store) solid → HasNames names (label_names functor.label) → Meets names (wish functor stop.now.op stop.now.n) solid }
        ensures unmet { IsFalse result → (names : List Name) (solid : Region) → HoldsRegion names self.old.engine.plain.now.rules (S.heap self.old.engine.machine.store) solid → HasNames names (label_names functor.label) → ¬ (Meets names (wish functor stop.now.op stop.now.n) solid) }
        ensures kept { S.heap self.new.engine.machine.store ≡ S.heap self.old.engine.machine.store }
        ensures again { EngineCanTurn (S.heap self.new.engine.machine.store) self.new.engine.plain.now.rules self.new.engine.codes self.new.engine.size }
        ensures keeps { self.new.engine ≡ record self.old.engine { machine = self.new.engine.machine } }
    {
        stop.met(self.count(functor))
    }

    /// One turn: nothing where it commits, and else why it doesn't.
    fn turn<L: Ledger>(&mut self, alloc: Global, steps: &mut Steps<L>) -> Option<Stop>
        requires run { EngineCanTurn (S.heap self.old.engine.machine.store) self.old.engine.plain.now.rules self.old.engine.codes self.old.engine.size }
        requires chooser { AnswersBelow F.pre F.post self.old.engine.chooser.f }
        requires commits { self.old.engine.commits < 2 ^ 63 - 1 }
        ensures turned { (c : Choosing) → Gives F.post self.old.engine.chooser.f c → (names : List Name) (first : Region) → let table = self.old.engine.plain.now.rules in let g = course c self.old.engine.size first in
            (s : StandsAt names table g self.old.engine.commits (S.heap self.old.engine.machine.store)) → TurnsTo names table g s.solid s.is.before result self.new.engine.commits (S.heap self.new.engine.machine.store) }
        ensures again { EngineCanTurn (S.heap self.new.engine.machine.store) self.new.engine.plain.now.rules self.new.engine.codes self.new.engine.size }
        ensures keeps { self.new.engine ≡ record self.old.engine { machine = self.new.engine.machine; commits = self.new.engine.commits } }
        ensures counts { self.new.engine.commits ≡ self.old.engine.commits + counted result }
        ensures refuses { ¬ (result ≡ Some Stop.Done) }
    {
        match self.engine.turn(alloc, steps) {
            Turn::Committed => None,
            Turn::Irreducible => Some(Stop::Irreducible),
            Turn::Full => Some(Stop::Full),
            Turn::NoMemory => Some(Stop::NoMemory),
        }
    }
}
