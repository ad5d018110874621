ghost use Rattle.std.specs.Prelude.{◌≡◌, ◌≤◌, ◌<◌, ◌+◌, ◌^◌, ℕ, List, length};
ghost use Rattle.lmn_base.specs.Solids.{item_count};
ghost use Rattle.lmn_base.specs.declared.solid.Solid.{Solid};
ghost use Rattle.lmn_congruence.specs.Rules.{Name};
ghost use Rattle.lmn_congruence.specs.SolidsOfPlains.{IsSolidOf};
ghost use Rattle.lmn_schedule_loading.specs.Loaded.{IsEmpty};
ghost use Rattle.lmn_order.specs.Answers.{AnswersBelow};
ghost use Rattle.lmn_order.specs.Orders.{chosen};
ghost use Rattle.lmn_schedule.specs.Held.{AreNames, EngineCanTurn, HoldsSolid};
ghost use Rattle.lmn_schedule.specs.Turning.{Gives};
ghost use Rattle.lmn_store_web.specs.WebHeaps.{heap_of};
ghost use Rattle.lmn_app_words.specs.Forms.{pair_of, to_pair};
ghost use Rattle.lmn_app.specs.Debugs.{session_size};
ghost use Rattle.lmn_app.specs.Fetched.{AcceptsTold};
ghost use Rattle.lmn_app.specs.Outcomes.{RequestEnded};
ghost use Rattle.lmn_app.specs.Requests.{FetchesSecond};
ghost use Rattle.lmn_app.specs.Runnings.{EndsDebugged, obeyed_as};
ghost use Rattle.lmn_app_single.specs.Texts.{Accepts};

use crate::pairing::fetch_second;
use lmn_app_accepted::accepted_texts_can_be_loaded;
use lmn_app_reading::Accepted;
use lmn_app_single::{Ending, TOO_LARGE};
use lmn_app_words::{PairKind, PairWords};
use lmn_base::{Names, NoMemory, TextFault};
use lmn_debug::{DebugFault, debug};
use lmn_debug_counting::CountingStore;
use lmn_debug_script::read_script;
use lmn_io::{Shelf, Sink};
use lmn_machine::Steps;
use lmn_order::{Chooser, Order};
use lmn_schedule::{Engine, LoadFault};
use lmn_schedule_loading::loading_settles;
use lmn_store_web::WebStore;
use std::alloc::Global;
use std::marker::Brand;
use std::sync::ledger::{Blank, Ledger};

/// The most items of a process of a session.
const SIZE: u64 = 16_777_216;

/// Goes through an accepted program as a script orders. The program is loaded before the script is fetched.
pub(crate) fn debug_by<F: Shelf, O: Sink>(
    alloc: Global,
    words: PairWords<'_>,
    accepted: &Accepted,
    names: &mut Names,
    shelf: &mut F,
    out: &mut O,
) -> Ending
    requires kind { words.kind ≡ PairKind.Debug }
    requires accepted { AcceptsTold (pair_of words) (F.told shelf.old) names.old accepted.now.plain accepted.now.plans }
    requires room { length names.old ≤ 2 ^ 31 }
    ensures asked { FetchesSecond (pair_of words.entry) result (F.told shelf.old) (F.asked shelf.old) (F.asked shelf.new) }
    ensures ended { RequestEnded (to_pair (pair_of words.entry)) result (F.told shelf.old) (O.told out.old) (O.told out.new) (O.faults out.old) (O.faults out.new) (F.faults shelf.old) (F.faults shelf.new) }
{
    loading_settles();
    match WebStore::for_rules(alloc, accepted.plain.rules.as_slice()) {
        Ok(store) => {
            let counting = CountingStore::new(store);
            debug_in::<_, _, Brand>(
                alloc,
                words,
                accepted,
                names,
                counting,
                shelf,
                out,
                Blank::new(1),
            )
        }
        Err(NoMemory) => Ending::NoMemory,
    }
}

/// Goes through an accepted program in a new store, as a script orders that is fetched.
fn debug_in<F: Shelf, O: Sink, L: Ledger>(
    alloc: Global,
    words: PairWords<'_>,
    accepted: &Accepted,
    names: &mut Names,
    store: CountingStore<WebStore>,
    shelf: &mut F,
    out: &mut O,
    blank: Blank,
) -> Ending
    requires kind { words.kind ≡ PairKind.Debug }
    requires accepted { AcceptsTold (pair_of words) (F.told shelf.old) names.old accepted.now.plain accepted.now.plans }
    requires room { length names.old ≤ 2 ^ 31 }
    requires store { IsEmpty (heap_of store) }
    requires name { blank.name ≡ L.name }
    requires parts { blank.parts ≡ L.parts }
    requires some { 0 < blank.parts }
    ensures asked { FetchesSecond (pair_of words.entry) result (F.told shelf.old) (F.asked shelf.old) (F.asked shelf.new) }
    ensures ended { RequestEnded (to_pair (pair_of words.entry)) result (F.told shelf.old) (O.told out.old) (O.told out.new) (O.faults out.old) (O.faults out.new) (F.faults shelf.old) (F.faults shelf.new) }
{
    accepted_texts_can_be_loaded();
    let choose = |t: u64, m: u64| -> u64
        requires { 0 < m }
        ensures chosen { result ≡ chosen Order.First t m }
        ensures below { result < m }
    { Order::First.choose(t, m) };
    match Engine::load(
        alloc,
        &accepted.plain,
        accepted.plans.as_slice(),
        store,
        Chooser::new(choose),
        SIZE,
    ) {
        Ok(engine) => match fetch_second(alloc, words, shelf) {
            Ok(script) => obey::<_, _, L>(
                alloc,
                engine,
                accepted,
                choose,
                names,
                script.as_slice(),
                out,
                blank,
            ),
            Err(ending) => ending,
        },
        Err(LoadFault::Size(_)) => Ending::Refused(TOO_LARGE),
        Err(LoadFault::NoMemory) => Ending::NoMemory,
    }
}

/// Reads a script, and carries its orders out over an engine that holds the process of an accepted program.
fn obey<'p, C: Fn(u64, u64) -> u64 + Copy + Drop, O: Sink, L: Ledger>(
    alloc: Global,
    engine: Engine<'p, CountingStore<WebStore>, C>,
    accepted: &'p Accepted,
    choose: C,
    names: &mut Names,
    script: &[u8],
    out: &mut O,
    blank: Blank,
) -> Ending
    requires accepted { (program : List ℕ) × Accepts program names.old accepted.now.plain accepted.now.plans }
    requires room { length names.old + length script.now < 2 ^ 32 }
    requires short { length script.now < 2 ^ 32 }
    requires chooser { AnswersBelow C.pre C.post choose }
    requires gives { Gives C.post choose (chosen Order.First) }
    requires engine { (engine.plain.now ≡ accepted.now.plain) × (engine.chooser.f ≡ choose) × (engine.size ≡ session_size) × (engine.commits ≡ 0) }
    requires run { EngineCanTurn (heap_of engine.machine.store) accepted.now.plain.rules engine.codes session_size }
    requires holds { (names : List Name) → AreNames names accepted.now.plain → HoldsSolid names accepted.now.plain (heap_of engine.machine.store) }
    requires fits { (s : Solid) → IsSolidOf accepted.now.plain s → item_count s ≤ session_size }
    requires name { blank.name ≡ L.name }
    requires parts { blank.parts ≡ L.parts }
    requires some { 0 < blank.parts }
    ensures { (program : List ℕ) → Accepts program names.old accepted.now.plain accepted.now.plans →
        EndsDebugged program script.now result (O.told out.old) (O.told out.new) (O.faults out.old) (O.faults out.new) }
{
    accepted_texts_can_be_loaded();
    match read_script(alloc, script, names) {
        Ok(orders) => {
            names.len();
            let mut steps = Steps::<L>::new(blank);
            let end = debug(
                alloc,
                engine,
                &accepted.plain,
                accepted.plans.as_slice(),
                choose,
                SIZE,
                names,
                orders.as_slice(),
                out,
                &mut steps,
            );
            ending_of(end)
        }
        Err(TextFault::Refused(refusal)) => Ending::SecondRefused(PairKind::Debug, refusal),
        Err(TextFault::NoMemory) => Ending::NoMemory,
    }
}

/// How a call ends whose orders ended so.
fn ending_of(end: Result<(), DebugFault>) -> Ending
    ensures { result ≡ obeyed_as end }
{
    match end {
        Ok(()) => Ending::Done,
        Err(DebugFault::NoMemory) => Ending::NoMemory,
        Err(DebugFault::Failed) => Ending::WriteFault,
    }
}
