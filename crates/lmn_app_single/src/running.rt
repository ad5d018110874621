ghost use Rattle.std.specs.Prelude.{◌≡◌, ◌≤◌, ◌<◌, ◌-◌, ◌^◌, ℕ, List, Some};
ghost use Rattle.lmn_schedule_loading.specs.Loaded.{IsEmpty};
ghost use Rattle.lmn_adequacy.specs.Runs.{Chooser as Choices};
ghost use Rattle.lmn_app_drive.specs.Driving.{Drove, OfEachInput};
ghost use Rattle.lmn_io.specs.Counts.{FailedLast, NoneFailed};
ghost use Rattle.lmn_order.specs.Answers.{AnswersBelow};
ghost use Rattle.lmn_order.specs.Orders.{chosen};
ghost use Rattle.lmn_schedule.specs.Held.{EngineCanTurn};
ghost use Rattle.lmn_schedule.specs.Turning.{Gives};
ghost use Rattle.lmn_store_heap.specs.Heap.{Heap};
ghost use Rattle.lmn_app_single.specs.Outcomes.{Ended};
ghost use Rattle.lmn_app_single.specs.Runnings.{ended_as};
ghost use Rattle.lmn_app_single.specs.Texts.{Accepts};
ghost use Rattle.lmn_app_single.specs.declared.task.Task.{Task};

use crate::ending::Ending;
use crate::task::Task;
use lmn_app_accepted::accepted_texts;
use lmn_app_drive::{RunEnd, RunOptions, drive};
use lmn_app_reading::Accepted;
use lmn_app_runs::{plains_are_printable, traces_are_runs};
use lmn_app_words::RunSettings;
use lmn_base::{Names, NoMemory, Plain, Pos, Refusal, RefusalCode};
use lmn_io::Sink;
use lmn_machine::Steps;
use lmn_order::Chooser;
use lmn_schedule::{Engine, LoadFault};
use lmn_schedule_loading::loading_settles;
use lmn_store_trait::LinkStore;
use lmn_store_web::WebStore;
use std::alloc::Global;
use std::marker::Brand;
use std::sync::ledger::{Blank, Ledger};

/// The refusal of a text whose process has too many items.
pub const TOO_LARGE: Refusal = Refusal {
    code: RefusalCode::ProcessTooLarge as u8,
    pos: Pos { line: 1, column: 1 },
};

/// Runs an accepted text, and writes what is to be written of its run.
pub(crate) fn run<O: Sink>(
    alloc: Global,
    accepted: &Accepted,
    names: &Names,
    settings: &RunSettings,
    out: &mut O,
) -> Ending
    requires accepted { (text : List ℕ) × Accepts text names.now accepted.now.plain accepted.now.plans }
    requires size { settings.now.size < 2 ^ 32 }
    requires budget { settings.now.budget ≤ 2 ^ 63 - 1 }
    ensures { (text : List ℕ) (before after : ℕ) → Accepts text names.now accepted.now.plain accepted.now.plans →
        Ended (Task.Run settings.now) result (Some (Some text)) (O.told out.old) (O.told out.new) (O.faults out.old) (O.faults out.new) before after }
{
    loading_settles();
    match WebStore::for_rules(alloc, accepted.plain.rules.as_slice()) {
        Ok(store) => run_in::<_, _, Brand>(
            alloc,
            accepted,
            names,
            settings,
            store,
            out,
            Blank::new(1),
        ),
        Err(NoMemory) => Ending::NoMemory,
    }
}

/// Runs an accepted text in a new store.
fn run_in<S: LinkStore + Drop, O: Sink, L: Ledger>(
    alloc: Global,
    accepted: &Accepted,
    names: &Names,
    settings: &RunSettings,
    store: S,
    out: &mut O,
    blank: Blank,
) -> Ending
    requires accepted { (text : List ℕ) × Accepts text names.now accepted.now.plain accepted.now.plans }
    requires size { settings.now.size < 2 ^ 32 }
    requires budget { settings.now.budget ≤ 2 ^ 63 - 1 }
    requires store { IsEmpty (S.heap store) }
    requires name { blank.name ≡ L.name }
    requires parts { blank.parts ≡ L.parts }
    requires some { 0 < blank.parts }
    ensures { (text : List ℕ) (before after : ℕ) → Accepts text names.now accepted.now.plain accepted.now.plans →
        Ended (Task.Run settings.now) result (Some (Some text)) (O.told out.old) (O.told out.new) (O.faults out.old) (O.faults out.new) before after }
{
    accepted_texts();
    plains_are_printable();
    traces_are_runs();
    let order = settings.order;
    let chooser = Chooser::new(
        |t: u64, m: u64| -> u64
            requires { 0 < m }
            ensures chosen { result ≡ chosen order t m }
            ensures below { result < m }
        { order.choose(t, m) },
    );
    match Engine::load(
        alloc,
        &accepted.plain,
        accepted.plans.as_slice(),
        store,
        chooser,
        settings.size,
    ) {
        Ok(engine) => {
            let options = RunOptions {
                trace: settings.trace,
                folded: settings.folded,
                budget: settings.budget,
            };
            let end = drive_whole::<_, _, _, L>(
                alloc,
                engine,
                &accepted.plain,
                names,
                &options,
                out,
                blank,
            );
            ending_of(end)
        }
        Err(LoadFault::Size(_)) => Ending::Refused(TOO_LARGE),
        Err(LoadFault::NoMemory) => Ending::NoMemory,
    }
}

/// Drives an engine until it stops, and lets it go.
fn drive_whole<S: LinkStore + Drop, F: Fn(u64, u64) -> u64 + Drop, O: Sink, L: Ledger>(
    alloc: Global,
    mut engine: Engine<'_, S, F>,
    plain: &Plain,
    names: &Names,
    options: &RunOptions,
    out: &mut O,
    blank: Blank,
) -> RunEnd
    requires run { EngineCanTurn (S.heap engine.machine.store) plain.now.rules engine.codes engine.size × (engine.plain.now ≡ plain.now) × (engine.commits ≡ 0) }
    requires chooser { AnswersBelow F.pre F.post engine.chooser.f }
    requires budget { options.now.budget ≤ 2 ^ 63 - 1 }
    requires name { blank.name ≡ L.name }
    requires parts { blank.parts ≡ L.parts }
    requires some { 0 < blank.parts }
    ensures drove { let e = engine.entry in (c : Choices) → Gives F.post e.chooser.f c → (n : ℕ) × (h : Heap)
        × OfEachInput names.now plain.now.rules (S.heap e.machine.store) e.size options.now (λ g. Drove (g c) n h result (O.told out.old) (O.told out.new)) }
    ensures faults { (¬ (result ≡ RunEnd.Failed) → NoneFailed (O.faults out.old) (O.faults out.new)) × (result ≡ RunEnd.Failed → FailedLast (O.faults out.old) (O.faults out.new)) }
{
    let mut steps = Steps::<L>::new(blank);
    drive(alloc, &mut engine, plain, names, options, out, &mut steps)
}

/// How a call ends whose run ended so.
pub fn ending_of(end: RunEnd) -> Ending
    ensures { result ≡ ended_as end }
{
    match end {
        RunEnd::Irreducible => Ending::Done,
        RunEnd::Budget => Ending::Budget,
        RunEnd::Full => Ending::Full,
        RunEnd::NoMemory => Ending::NoMemory,
        RunEnd::Failed => Ending::WriteFault,
    }
}
