ghost use Rattle.std.specs.Prelude.{◌≡◌, ◌≤◌, ◌<◌, ◌^◌, ℕ, IfErr, List, OnOk, length};
ghost use Rattle.lmn_base.specs.Levels.{links_of};
ghost use Rattle.lmn_base.specs.Links.{EachTwice};
ghost use Rattle.lmn_base.specs.WellMade.{IsWellMade};
ghost use Rattle.lmn_base.specs.Solids.{item_count};
ghost use Rattle.lmn_base.specs.declared.solid.Solid.{Solid};
ghost use Rattle.lmn_congruence.specs.SolidsOfPlains.{IsSolidOf};
ghost use Rattle.lmn_schedule_loading.specs.Loaded.{IsEmpty, IsLoaded, LoadCauses};
ghost use Rattle.lmn_schedule_strategy.specs.Quieting.{AllAwake};
ghost use Rattle.lmn_app_words.specs.Forms.{pair_of, to_pair};
ghost use Rattle.lmn_verify_coded.specs.Turning.{CodedCanTurn};
ghost use Rattle.lmn_app.specs.Executions.{executed_size};
ghost use Rattle.lmn_app.specs.Outcomes.{RequestEnded};
ghost use Rattle.lmn_app.specs.Requests.{FetchesSecond};
ghost use Rattle.lmn_app.specs.Runnings.{CodesRun, EndsExecuted, coded_input};
ghost use Rattle.lmn_app_single.specs.Texts.{Accepts};
ghost use Rattle.lmn_app_single.specs.Writing.{IsToldAnd, told_under};

use crate::bounding::stand_once;
use crate::laws::heaps_are_executed;
use crate::pairing::fetch_second;
use lmn_app_accepted::accepted_texts_can_be_loaded;
use lmn_app_reading::Accepted;
use lmn_app_single::{Ending, TOO_LARGE, ending_of};
use lmn_app_words::{PairKind, PairWords};
use lmn_base::{Names, NoMemory, Plain, Rows, TextFault};
use lmn_instr_code::Code;
use lmn_io::{Shelf, Sink};
use lmn_machine::Steps;
use lmn_schedule::rouse_all;
use lmn_schedule_loading::{LoadFault, load, loading_settles};
use lmn_store_trait::LinkStore;
use lmn_store_web::WebStore;
use lmn_verify_coded::{Coded, execute};
use lmn_verify_laws::{verified_is_quiet, verified_is_runnable};
use lmn_verify_listing::read;
use std::alloc::Global;
use std::marker::Brand;
use std::sync::ledger::{Blank, Ledger};

/// The most items of a process.
const SIZE: u64 = 16_777_216;

/// The most commits.
const BUDGET: u64 = 1_000_000;

/// Runs an accepted program by the codes of a listing. The program is loaded before the listing is fetched.
pub(crate) fn exec_by<F: Shelf, O: Sink>(
    alloc: Global,
    words: PairWords<'_>,
    accepted: &Accepted,
    names: &mut Names,
    shelf: &mut F,
    out: &mut O,
) -> Ending
    requires kind { words.kind ≡ PairKind.Exec }
    requires accepted { (program : List ℕ) × Accepts program names.old accepted.now.plain accepted.now.plans
        × IsToldAnd (told_under (F.told shelf.old) (pair_of words).file) (λ found. found ≡ program) }
    requires room { length names.old ≤ 2 ^ 31 }
    ensures asked { FetchesSecond (pair_of words.entry) result (F.told shelf.old) (F.asked shelf.old) (F.asked shelf.new) }
    ensures ended { RequestEnded (to_pair (pair_of words.entry)) result (F.told shelf.old) (O.told out.old) (O.told out.new) (O.faults out.old) (O.faults out.new) (F.faults shelf.old) (F.faults shelf.new) }
{
    loading_settles();
    match WebStore::for_rules(alloc, accepted.plain.rules.as_slice()) {
        Ok(store) => exec_in(alloc, words, accepted, names, store, shelf, out),
        Err(NoMemory) => Ending::NoMemory,
    }
}

/// Runs an accepted program in a new store, by the codes of a listing that is fetched.
fn exec_in<S: LinkStore + Drop, F: Shelf, O: Sink>(
    alloc: Global,
    words: PairWords<'_>,
    accepted: &Accepted,
    names: &mut Names,
    store: S,
    shelf: &mut F,
    out: &mut O,
) -> Ending
    requires kind { words.kind ≡ PairKind.Exec }
    requires accepted { (program : List ℕ) × Accepts program names.old accepted.now.plain accepted.now.plans
        × IsToldAnd (told_under (F.told shelf.old) (pair_of words).file) (λ found. found ≡ program) }
    requires room { length names.old ≤ 2 ^ 31 }
    requires store { IsEmpty (S.heap store) }
    ensures asked { FetchesSecond (pair_of words.entry) result (F.told shelf.old) (F.asked shelf.old) (F.asked shelf.new) }
    ensures ended { RequestEnded (to_pair (pair_of words.entry)) result (F.told shelf.old) (O.told out.old) (O.told out.new) (O.faults out.old) (O.faults out.new) (F.faults shelf.old) (F.faults shelf.new) }
{
    accepted_texts_can_be_loaded();
    let mut store = store;
    match load_awake(alloc, &accepted.plain, &mut store) {
        Ok(()) => match fetch_second(alloc, words, shelf) {
            Ok(listing) => exec_listing(alloc, accepted, names, store, listing.as_slice(), out),
            Err(ending) => ending,
        },
        Err(LoadFault::Size(_)) => Ending::Refused(TOO_LARGE),
        Err(LoadFault::NoMemory) => Ending::NoMemory,
    }
}

/// Puts the process of a plain into an empty store, each of whose membranes is awake then.
fn load_awake<S: LinkStore>(alloc: Global, plain: &Plain, store: &mut S) -> Result<(), LoadFault>
    requires plain { IsWellMade plain.now }
    requires closed { EachTwice (links_of plain.now.top) }
    requires store { IsEmpty (S.heap store.old) }
    ensures loaded { OnOk result (IsLoaded plain.now (S.heap store.new)) }
    ensures awake { OnOk result (AllAwake (S.heap store.new)) }
    ensures fits { OnOk result ((s : Solid) → IsSolidOf plain.now s → item_count s ≤ executed_size) }
    ensures fault { IfErr result (λ fault. LoadCauses plain.now executed_size fault) }
{
    load(alloc, plain, store, SIZE)?;
    rouse_all(store);
    Ok(())
}

/// Reads the codes of a listing, and runs a store by them that holds the process of an accepted program.
/// So many rules that 32 bits don't count them would stand in no memory.
fn exec_listing<S: LinkStore + Drop, O: Sink>(
    alloc: Global,
    accepted: &Accepted,
    names: &mut Names,
    store: S,
    listing: &[u8],
    out: &mut O,
) -> Ending
    requires accepted { (program : List ℕ) × Accepts program names.old accepted.now.plain accepted.now.plans }
    requires room { length names.old ≤ 2 ^ 31 }
    requires short { length listing.now ≤ 67108864 }
    requires loaded { IsLoaded accepted.now.plain (S.heap store) }
    requires awake { AllAwake (S.heap store) }
    requires fits { (s : Solid) → IsSolidOf accepted.now.plain s → item_count s ≤ executed_size }
    ensures { (program : List ℕ) → Accepts program names.old accepted.now.plain accepted.now.plans →
        EndsExecuted program listing.now result (O.told out.old) (O.told out.new) (O.faults out.old) (O.faults out.new) }
{
    accepted_texts_can_be_loaded();
    loading_settles();
    verified_is_runnable();
    verified_is_quiet();
    heaps_are_executed();
    let rules = accepted.plain.rules.len();
    if rules >= 1 << 32 {
        return Ending::NoMemory;
    }
    match read(alloc, listing, rules as u32, names) {
        Ok(codes) => {
            stand_once(names);
            exec_codes::<_, _, Brand>(alloc, accepted, names, store, codes, out, Blank::new(1))
        }
        Err(TextFault::Refused(refusal)) => {
            stand_once(names);
            Ending::SecondRefused(PairKind::Exec, refusal)
        }
        Err(TextFault::NoMemory) => Ending::NoMemory,
    }
}

/// Runs a store by codes, and writes what is to be written of the run. The names are those of the codes too.
fn exec_codes<S: LinkStore + Drop, O: Sink, L: Ledger>(
    alloc: Global,
    accepted: &Accepted,
    names: &Names,
    store: S,
    codes: Rows<Code>,
    out: &mut O,
    blank: Blank,
) -> Ending
    requires run { CodedCanTurn (S.heap store) codes executed_size }
    requires name { blank.name ≡ L.name }
    requires parts { blank.parts ≡ L.parts }
    requires some { 0 < blank.parts }
    ensures { CodesRun (coded_input names.now accepted.now.plain codes (S.heap store)) result (O.told out.old) (O.told out.new) (O.faults out.old) (O.faults out.new) }
{
    match Coded::new(alloc, store, codes, SIZE) {
        Ok(coded) => {
            let mut coded = coded;
            let mut steps = Steps::<L>::new(blank);
            let end = execute(
                alloc,
                &mut coded,
                &accepted.plain,
                names,
                BUDGET,
                out,
                &mut steps,
            );
            ending_of(end)
        }
        Err(NoMemory) => Ending::NoMemory,
    }
}
