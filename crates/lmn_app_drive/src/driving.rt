ghost use Rattle.std.specs.Prelude.{◌≡◌, ◌<◌, ◌≤◌, ◌-◌, ◌^◌, ℕ, List, Option, IfOk, OnOk, OnErr, MatchResult};
ghost use Rattle.lmn_congruence.specs.Regions.{Region};
ghost use Rattle.lmn_store_heap.specs.Heap.{Heap};
ghost use Rattle.lmn_io.specs.Counts.{FailedLast, NoneFailed};
ghost use Rattle.lmn_io.specs.Writing.{Writes, WritesText};
ghost use Rattle.lmn_adequacy.specs.Runs.{Chooser};
ghost use Rattle.lmn_order.specs.Answers.{AnswersBelow};
ghost use Rattle.lmn_schedule.specs.Held.{EngineCanTurn, HoldsRegion};
ghost use Rattle.lmn_schedule.specs.Turning.{Gives};
ghost use Rattle.lmn_print.specs.Lines.{IsHeapLine};
ghost use Rattle.lmn_app_runs.specs.Runs.{end_line, word_of_stop};
ghost use Rattle.lmn_app_drive.specs.Answers.{BrokeByAnswers, DroveByAnswers, GoingByAnswers, StepsOnByAnswers, StoppedByAnswers};
ghost use Rattle.lmn_app_drive.specs.Asking.{AsksFew};
ghost use Rattle.lmn_app_drive.specs.AskingOn.{AskedSoFar, AsksOn};
ghost use Rattle.lmn_app_drive.specs.Driving.{Broke, Concludes, CountsCommit, Drove, Going, IsRestOf, IsTracedLineOf, OfEachInput, StepsOn, Stopped, given_by_engine};

use itoa::Buffer;
use lmn_app_runs::Stop;
use lmn_base::{Names, Plain};
use lmn_io::{Failed, Sink, put_all};
use lmn_machine::Steps;
use lmn_print::print;
use lmn_schedule::{Engine, Turn, counts_are_alike};
use lmn_store_trait::LinkStore;
use std::alloc::Global;
use std::sync::ledger::Ledger;

/// What a run writes, and how far it may go.
#[derive(Clone, Copy)]
pub struct RunOptions {
    /// Whether the process is written after loading and after each commit, and not the last one alone.
    pub trace: bool,
    /// Whether lines are written in the folded form, and not in the plain one.
    pub folded: bool,
    /// The most commits, at most 2^63 - 1.
    pub budget: u64,
}

/// How a run ended.
#[derive(Clone, Copy, Debug, PartialEq, Eq)]
pub enum RunEnd {
    /// No rule has a match.
    Irreducible,
    /// As many commits as the budget allows are done, and a rule has a match.
    Budget,
    /// The next commit would leave more items than the engine allows.
    Full,
    /// Memory was wanting for the next commit.
    NoMemory,
    /// The sink failed.
    Failed,
}

impl From<Stop> for RunEnd {
    ghost use Rattle.std.specs.Prelude.{◌≡◌};
    ghost use Rattle.lmn_app_drive.specs.Driving.{stop_end};

    ghost from_gives = { λ stop end. end ≡ stop_end stop };

    fn from(stop: Stop) -> RunEnd {
        match stop {
            Stop::Irreducible => RunEnd::Irreducible,
            Stop::Budget => RunEnd::Budget,
            Stop::Full => RunEnd::Full,
            Stop::NoMemory => RunEnd::NoMemory,
        }
    }
}

/// Turns an engine that has made no commit until nothing more is to be done, and writes its process lines and the end line:
/// with a trace the line of each process, else that of the last one, and then why it stopped and after how many commits.
/// `plain` is that of the engine.
///
/// With every answer but `Failed` all of this was written, and with `Failed` a prefix of it, and nothing more was put. No more rules are
/// asked than stand, in all processes of the run together, in membranes that are awake.
pub fn drive<S: LinkStore, F: Fn(u64, u64) -> u64, O: Sink, L: Ledger>(
    alloc: Global,
    engine: &mut Engine<'_, S, F>,
    plain: &Plain,
    names: &Names,
    options: &RunOptions,
    out: &mut O,
    steps: &mut Steps<L>,
) -> RunEnd
    requires run { EngineCanTurn (S.heap engine.old.machine.store) plain.now.rules engine.old.codes engine.old.size × (engine.old.plain.now ≡ plain.now) × (engine.old.commits ≡ 0) }
    requires chooser { AnswersBelow F.pre F.post engine.old.chooser.f }
    requires budget { options.now.budget ≤ 2 ^ 63 - 1 }
    ensures drove { let e = engine.old in (c : Chooser) → Gives F.post e.chooser.f c → OfEachInput names.now plain.now.rules (S.heap e.machine.store) e.size options.now
        (λ g. Drove (g c) engine.new.commits (S.heap engine.new.machine.store) result (O.told out.old) (O.told out.new)) }
    ensures answered { let e = engine.old in OfEachInput names.now plain.now.rules (S.heap e.machine.store) e.size options.now
        (λ g. DroveByAnswers (F.post e.chooser.f) g engine.new.commits (S.heap engine.new.machine.store) result (O.told out.old) (O.told out.new) steps.old steps.new) }
    ensures asks { AsksFew (F.post engine.old.chooser.f) plain.now.rules engine.old.codes engine.old.size (S.heap engine.old.machine.store) engine.new.commits (S.heap engine.new.machine.store) steps.old steps.new }
    ensures engine { EngineCanTurn (S.heap engine.new.machine.store) plain.now.rules engine.old.codes engine.old.size × (engine.new ≡ record engine.old { machine = engine.new.machine; commits = engine.new.commits }) }
    ensures faults { (¬ (result ≡ RunEnd.Failed) → NoneFailed (O.faults out.old) (O.faults out.new)) × (result ≡ RunEnd.Failed → FailedLast (O.faults out.old) (O.faults out.new)) }
{
    match run(alloc, engine, plain, names, options, out, steps) {
        Ok(stop) => conclude(engine, plain, names, options, stop, out),
        Err(Failed) => RunEnd::Failed,
    }
}

/// Turns the engine until it stops. With a trace the line of each process is written.
fn run<S: LinkStore, F: Fn(u64, u64) -> u64, O: Sink, L: Ledger>(
    alloc: Global,
    engine: &mut Engine<'_, S, F>,
    plain: &Plain,
    names: &Names,
    options: &RunOptions,
    out: &mut O,
    steps: &mut Steps<L>,
) -> Result<Stop, Failed>
    requires run { EngineCanTurn (S.heap engine.old.machine.store) plain.now.rules engine.old.codes engine.old.size }
    requires plain { engine.old.plain.now ≡ plain.now }
    requires chooser { AnswersBelow F.pre F.post engine.old.chooser.f }
    requires commits { engine.old.commits ≡ 0 }
    requires budget { options.now.budget ≤ 2 ^ 63 - 1 }
    ensures stops { (c : Chooser) → Gives F.post engine.old.chooser.f c → (solid : Region) → HoldsRegion names.now plain.now.rules (S.heap engine.old.machine.store) solid →
        let g = given_by_engine names.now plain.now.rules engine.old.size options.now c solid in MatchResult result
        (λ stop. Stopped g engine.new.commits (S.heap engine.new.machine.store) stop (O.told out.old) (O.told out.new))
        (λ failed. Broke g engine.new.commits (S.heap engine.new.machine.store) (O.told out.old) (O.told out.new)) }
    ensures answered { (solid : Region) → HoldsRegion names.now plain.now.rules (S.heap engine.old.machine.store) solid → MatchResult result
        (λ stop. StoppedByAnswers (F.post engine.old.chooser.f) (λ c. given_by_engine names.now plain.now.rules engine.old.size options.now c solid) engine.new.commits (S.heap engine.new.machine.store) stop (O.told out.old) (O.told out.new) steps.old steps.new)
        (λ failed. BrokeByAnswers (F.post engine.old.chooser.f) (λ c. given_by_engine names.now plain.now.rules engine.old.size options.now c solid) engine.new.commits (S.heap engine.new.machine.store) (O.told out.old) (O.told out.new) steps.old steps.new) }
    ensures asks { AsksFew (F.post engine.old.chooser.f) plain.now.rules engine.old.codes engine.old.size (S.heap engine.old.machine.store) engine.new.commits (S.heap engine.new.machine.store) steps.old steps.new }
    ensures again { EngineCanTurn (S.heap engine.new.machine.store) plain.now.rules engine.old.codes engine.old.size }
    ensures keeps { engine.new ≡ record engine.old { machine = engine.new.machine; commits = engine.new.commits } }
    ensures same { OnOk result (NoneFailed (O.faults out.old) (O.faults out.new)) }
    ensures rose { OnErr result (FailedLast (O.faults out.old) (O.faults out.new)) }
{
    counts_are_alike();
    write_traced(engine, plain, names, options.trace, options.folded, out)?;
    for _ in 0..options.budget {
        if let Some(stop) = step(alloc, engine, plain, names, options, out, steps)? {
            return Ok(stop);
        }
    }
    if engine.reducible(steps) {
        Ok(Stop::Budget)
    } else {
        Ok(Stop::Irreducible)
    }
}

/// One turn, and with a trace the line of the process that it leaves.
fn step<S: LinkStore, F: Fn(u64, u64) -> u64, O: Sink, L: Ledger>(
    alloc: Global,
    engine: &mut Engine<'_, S, F>,
    plain: &Plain,
    names: &Names,
    options: &RunOptions,
    out: &mut O,
    steps: &mut Steps<L>,
) -> Result<Option<Stop>, Failed>
    requires run { EngineCanTurn (S.heap engine.old.machine.store) plain.now.rules engine.old.codes engine.old.size }
    requires plain { engine.old.plain.now ≡ plain.now }
    requires chooser { AnswersBelow F.pre F.post engine.old.chooser.f }
    requires commits { engine.old.commits < 2 ^ 63 }
    ensures goes { (c : Chooser) → Gives F.post engine.old.chooser.f c → (solid : Region) (told : Option (List ℕ)) → engine.old.commits < options.now.budget →
        let g = given_by_engine names.now plain.now.rules engine.old.size options.now c solid in
        Going g engine.old.commits (S.heap engine.old.machine.store) told (O.told out.old) → MatchResult result
        (StepsOn g engine.new.commits (S.heap engine.new.machine.store) told (O.told out.new))
        (λ failed. Broke g engine.new.commits (S.heap engine.new.machine.store) told (O.told out.new)) }
    ensures answered { (solid : Region) (told : Option (List ℕ)) (begun : ℕ) → engine.old.commits < options.now.budget →
        GoingByAnswers (F.post engine.old.chooser.f) (λ c. given_by_engine names.now plain.now.rules engine.old.size options.now c solid) engine.old.commits (S.heap engine.old.machine.store) told (O.told out.old) begun steps.old → MatchResult result
        (StepsOnByAnswers (F.post engine.old.chooser.f) (λ c. given_by_engine names.now plain.now.rules engine.old.size options.now c solid) engine.new.commits (S.heap engine.new.machine.store) told (O.told out.new) begun steps.new)
        (λ failed. BrokeByAnswers (F.post engine.old.chooser.f) (λ c. given_by_engine names.now plain.now.rules engine.old.size options.now c solid) engine.new.commits (S.heap engine.new.machine.store) told (O.told out.new) begun steps.new) }
    ensures asks { (h0 : Heap) (begun : ℕ) →
        AskedSoFar (F.post engine.old.chooser.f) plain.now.rules engine.old.codes engine.old.size h0 engine.old.commits (S.heap engine.old.machine.store) begun steps.old → MatchResult result
        (AsksOn (F.post engine.old.chooser.f) plain.now.rules engine.old.codes engine.old.size h0 engine.new.commits (S.heap engine.new.machine.store) begun steps.new)
        (λ failed. AsksFew (F.post engine.old.chooser.f) plain.now.rules engine.old.codes engine.old.size h0 engine.new.commits (S.heap engine.new.machine.store) begun steps.new) }
    ensures again { EngineCanTurn (S.heap engine.new.machine.store) plain.now.rules engine.old.codes engine.old.size }
    ensures keeps { engine.new ≡ record engine.old { machine = engine.new.machine; commits = engine.new.commits } }
    ensures counts { IfOk result (λ stop. CountsCommit stop engine.old.commits engine.new.commits) }
    ensures same { OnOk result (NoneFailed (O.faults out.old) (O.faults out.new)) }
    ensures rose { OnErr result (FailedLast (O.faults out.old) (O.faults out.new)) }
{
    counts_are_alike();
    match engine.turn(alloc, steps) {
        Turn::Committed => {
            write_traced(engine, plain, names, options.trace, options.folded, out)?;
            Ok(None)
        }
        Turn::Irreducible => Ok(Some(Stop::Irreducible)),
        Turn::Full => Ok(Some(Stop::Full)),
        Turn::NoMemory => Ok(Some(Stop::NoMemory)),
    }
}

/// Writes the line of the process where there is a trace.
fn write_traced<S: LinkStore, F: Fn(u64, u64) -> u64, O: Sink>(
    engine: &mut Engine<'_, S, F>,
    plain: &Plain,
    names: &Names,
    trace: bool,
    folded: bool,
    out: &mut O,
) -> Result<(), Failed>
    requires run { EngineCanTurn (S.heap engine.old.machine.store) plain.now.rules engine.old.codes engine.old.size }
    ensures writes { Writes (IsTracedLineOf trace folded names.now plain.now.rules (S.heap engine.old.machine.store)) result (O.told out.old) (O.faults out.old) (O.told out.new) (O.faults out.new) }
    ensures kept { S.heap engine.new.machine.store ≡ S.heap engine.old.machine.store }
    ensures keeps { engine.new ≡ record engine.old { machine = engine.new.machine } }
{
    if trace {
        write_process(engine, plain, names, folded, out)
    } else {
        Ok(())
    }
}

/// Writes the line of the process.
fn write_process<S: LinkStore, F: Fn(u64, u64) -> u64, O: Sink>(
    engine: &mut Engine<'_, S, F>,
    plain: &Plain,
    names: &Names,
    folded: bool,
    out: &mut O,
) -> Result<(), Failed>
    requires run { EngineCanTurn (S.heap engine.old.machine.store) plain.now.rules engine.old.codes engine.old.size }
    ensures writes { Writes (IsHeapLine folded names.now plain.now.rules (S.heap engine.old.machine.store)) result (O.told out.old) (O.faults out.old) (O.told out.new) (O.faults out.new) }
    ensures kept { S.heap engine.new.machine.store ≡ S.heap engine.old.machine.store }
    ensures keeps { engine.new ≡ record engine.old { machine = engine.new.machine } }
{
    print(engine.store(), plain, names, folded, out)
}

/// Writes the last line, where it isn't written, and the end line.
fn conclude<S: LinkStore, F: Fn(u64, u64) -> u64, O: Sink>(
    engine: &mut Engine<'_, S, F>,
    plain: &Plain,
    names: &Names,
    options: &RunOptions,
    stop: Stop,
    out: &mut O,
) -> RunEnd
    requires run { EngineCanTurn (S.heap engine.old.machine.store) plain.now.rules engine.old.codes engine.old.size }
    ensures drove { (c : Chooser) (solid : Region) (told : Option (List ℕ)) →
        let g = given_by_engine names.now plain.now.rules engine.old.size options.now c solid in
        (s : Stopped g engine.old.commits (S.heap engine.old.machine.store) stop told (O.told out.old)) → Concludes s (S.heap engine.new.machine.store) result (O.told out.new) }
    ensures kept { S.heap engine.new.machine.store ≡ S.heap engine.old.machine.store }
    ensures keeps { engine.new ≡ record engine.old { machine = engine.new.machine } }
    ensures same { ¬ (result ≡ RunEnd.Failed) → NoneFailed (O.faults out.old) (O.faults out.new) }
    ensures rose { result ≡ RunEnd.Failed → FailedLast (O.faults out.old) (O.faults out.new) }
{
    match write_rest(engine, plain, names, options, stop, out) {
        Ok(()) => RunEnd::from(stop),
        Err(Failed) => RunEnd::Failed,
    }
}

/// Writes the line of the process where there is no trace, and the end line.
fn write_rest<S: LinkStore, F: Fn(u64, u64) -> u64, O: Sink>(
    engine: &mut Engine<'_, S, F>,
    plain: &Plain,
    names: &Names,
    options: &RunOptions,
    stop: Stop,
    out: &mut O,
) -> Result<(), Failed>
    requires run { EngineCanTurn (S.heap engine.old.machine.store) plain.now.rules engine.old.codes engine.old.size }
    ensures writes { Writes (IsRestOf options.now.trace options.now.folded names.now plain.now.rules (S.heap engine.old.machine.store) (word_of_stop stop) engine.old.commits) result (O.told out.old) (O.faults out.old) (O.told out.new) (O.faults out.new) }
    ensures kept { S.heap engine.new.machine.store ≡ S.heap engine.old.machine.store }
    ensures keeps { engine.new ≡ record engine.old { machine = engine.new.machine } }
{
    write_traced(engine, plain, names, !options.trace, options.folded, out)?;
    write_end(stop, engine.commits(), out)
}

/// Writes the end line.
///
/// # Errors
///
/// `Failed` where the sink failed; it then took a prefix of the line.
pub fn write_end<O: Sink>(stop: Stop, commits: u64, out: &mut O) -> Result<(), Failed>
    ensures { WritesText (end_line (word_of_stop stop) commits) result (O.told out.old) (O.faults out.old) (O.told out.new) (O.faults out.new) }
{
    put_all(
        out,
        &[
            b"% ".as_slice(),
            stop.word(),
            b" after ".as_slice(),
            Buffer::new().format(commits).as_bytes(),
            b"\n".as_slice(),
        ],
    )
}
