ghost use Rattle.std.specs.Prelude.{◌≡◌, ◌≤◌, ◌^◌, ℕ, List, Option, IfErr, IfOk, Some, length};
ghost use Rattle.lmn_io.specs.Counts.{Faults};
ghost use Rattle.lmn_io.specs.Texts.{IsMeasured};
ghost use Rattle.lmn_io.specs.declared.shelf.Measured.{Measured};
ghost use Rattle.lmn_app_words.specs.Forms.{pair_of, to_pair};
ghost use Rattle.lmn_app.specs.Fetched.{AcceptsTold};
ghost use Rattle.lmn_app.specs.Outcomes.{RequestEnded};
ghost use Rattle.lmn_app.specs.Pairs.{HasProgram};
ghost use Rattle.lmn_app.specs.Requests.{FetchesSecond, asked_second};
ghost use Rattle.lmn_app.specs.SecondTexts.{long_code, second_bytes};
ghost use Rattle.lmn_app_single.specs.Texts.{at_start};
ghost use Rattle.lmn_app_single.specs.Writing.{IsToldAnd, told_under};

use crate::bounding::bound_by;
use crate::checking::check_by;
use crate::debugging::debug_by;
use crate::executing::exec_by;
use lmn_app_reading::Accepted;
use lmn_app_single::Ending;
use lmn_app_words::{PairKind, PairWords};
use lmn_base::{Names, Pos, Refusal, RefusalCode, Rows};
use lmn_io::{FetchFault, Fetched, Measured, Shelf, Sink};
use std::alloc::Global;

/// Does what a command does with an accepted program and a second text, which it fetches.
pub(crate) fn act_on_pair<F: Shelf, O: Sink>(
    alloc: Global,
    words: PairWords<'_>,
    accepted: &Accepted,
    names: &mut Names,
    shelf: &mut F,
    out: &mut O,
) -> Ending
    requires accepted { AcceptsTold (pair_of words) (F.told shelf.old) names.old accepted.now.plain accepted.now.plans }
    requires room { length names.old ≤ 2 ^ 31 }
    ensures asked { FetchesSecond (pair_of words.entry) result (F.told shelf.old) (F.asked shelf.old) (F.asked shelf.new) }
    ensures ended { RequestEnded (to_pair (pair_of words.entry)) result (F.told shelf.old) (O.told out.old) (O.told out.new) (O.faults out.old) (O.faults out.new) (F.faults shelf.old) (F.faults shelf.new) }
{
    match words.kind {
        PairKind::Check => check_on(alloc, words, accepted, names, shelf, out),
        PairKind::Debug => debug_by(alloc, words, accepted, names, shelf, out),
        PairKind::Exec => exec_by(alloc, words, accepted, names, shelf, out),
        PairKind::Bound => bound_on(alloc, words, accepted, names, shelf, out),
    }
}

/// Checks a trace, which it measures and reads in parts, against an accepted program.
fn check_on<F: Shelf, O: Sink>(
    alloc: Global,
    words: PairWords<'_>,
    accepted: &Accepted,
    names: &Names,
    shelf: &mut F,
    out: &mut O,
) -> Ending
    requires kind { words.kind ≡ PairKind.Check }
    requires accepted { AcceptsTold (pair_of words) (F.told shelf.old) names.now accepted.now.plain accepted.now.plans }
    ensures asked { FetchesSecond (pair_of words.entry) result (F.told shelf.old) (F.asked shelf.old) (F.asked shelf.new) }
    ensures ended { RequestEnded (to_pair (pair_of words.entry)) result (F.told shelf.old) (O.told out.old) (O.told out.new) (O.faults out.old) (O.faults out.new) (F.faults shelf.old) (F.faults shelf.new) }
{
    match measure_second(alloc, words, shelf) {
        Ok(length) => check_by(alloc, accepted, names, shelf, words.second, length, out),
        Err(ending) => ending,
    }
}

/// Bounds an accepted program by weights, which it fetches.
fn bound_on<F: Shelf, O: Sink>(
    alloc: Global,
    words: PairWords<'_>,
    accepted: &Accepted,
    names: &mut Names,
    shelf: &mut F,
    out: &mut O,
) -> Ending
    requires kind { words.kind ≡ PairKind.Bound }
    requires accepted { AcceptsTold (pair_of words) (F.told shelf.old) names.old accepted.now.plain accepted.now.plans }
    requires room { length names.old ≤ 2 ^ 31 }
    ensures asked { FetchesSecond (pair_of words.entry) result (F.told shelf.old) (F.asked shelf.old) (F.asked shelf.new) }
    ensures ended { RequestEnded (to_pair (pair_of words.entry)) result (F.told shelf.old) (O.told out.old) (O.told out.new) (O.faults out.old) (O.faults out.new) (F.faults shelf.old) (F.faults shelf.new) }
{
    match fetch_second(alloc, words, shelf) {
        Ok(second) => bound_by(alloc, accepted, names, second.as_slice(), out),
        Err(ending) => ending,
    }
}

/// The second text of a command, or how a call ends without one. The program is accepted.
pub(crate) fn fetch_second<F: Shelf>(
    alloc: Global,
    words: PairWords<'_>,
    shelf: &mut F,
) -> Result<Rows<u8>, Ending>
    ensures asked { F.asked shelf.new ≡ asked_second (pair_of words.entry) (F.asked shelf.old) }
    ensures fetched { IfErr result (λ ending. HasProgram (pair_of words.entry) (F.told shelf.old) →
        FetchesSecond (pair_of words.entry) ending (F.told shelf.old) (F.asked shelf.old) (F.asked shelf.new)) }
    ensures short { IfOk result (λ text. length text ≤ second_bytes (pair_of words.entry).kind) }
    ensures told { IfOk result (λ text. IsToldAnd (told_under (F.told shelf.old) (pair_of words.entry).second) (λ found. found ≡ text)) }
    ensures fault { IfErr result (λ ending. (took : Option (List ℕ)) (count : Faults) → HasProgram (pair_of words.entry) (F.told shelf.old) →
        RequestEnded (to_pair (pair_of words.entry)) ending (F.told shelf.old) took took count count (F.faults shelf.old) (F.faults shelf.new)) }
{
    match shelf.fetch(alloc, words.second, second_bytes(words.kind)) {
        Ok(Fetched::Whole(text)) => Ok(text),
        Ok(Fetched::TooLong) => Err(Ending::SecondRefused(words.kind, too_long(words.kind))),
        Err(FetchFault::Failed) => Err(Ending::ReadFault),
        Err(FetchFault::NoMemory) => Err(Ending::NoMemory),
    }
}

/// The length of the second text of a command, or how a call ends without one. The program is accepted.
fn measure_second<F: Shelf>(
    alloc: Global,
    words: PairWords<'_>,
    shelf: &mut F,
) -> Result<u64, Ending>
    ensures same { F.told shelf.new ≡ F.told shelf.old }
    ensures later { (name : List ℕ) → F.faults shelf.old name ≤ F.faults shelf.new name }
    ensures asked { F.asked shelf.new ≡ asked_second (pair_of words.entry) (F.asked shelf.old) }
    ensures fetched { IfErr result (λ ending. HasProgram (pair_of words.entry) (F.told shelf.old) →
        FetchesSecond (pair_of words.entry) ending (F.told shelf.old) (F.asked shelf.old) (F.asked shelf.new)) }
    ensures measured { IfOk result (λ length. IsMeasured (F.told shelf.old) (pair_of words.entry).second (second_bytes (pair_of words.entry).kind) (Measured.Length length)) }
    ensures fault { IfErr result (λ ending. (took : Option (List ℕ)) (count : Faults) → HasProgram (pair_of words.entry) (F.told shelf.old) →
        RequestEnded (to_pair (pair_of words.entry)) ending (F.told shelf.old) took took count count (F.faults shelf.old) (F.faults shelf.new)) }
{
    match shelf.measure(alloc, words.second, second_bytes(words.kind)) {
        Ok(Measured::Length(length)) => Ok(length),
        Ok(Measured::TooLong) => Err(Ending::SecondRefused(words.kind, too_long(words.kind))),
        Err(FetchFault::Failed) => Err(Ending::ReadFault),
        Err(FetchFault::NoMemory) => Err(Ending::NoMemory),
    }
}

/// The most bytes of a second text.
fn second_bytes(kind: PairKind) -> u64
    ensures { result ≡ second_bytes kind }
{
    match kind {
        PairKind::Check => 67_108_864,
        PairKind::Debug => 65_536,
        PairKind::Exec => 67_108_864,
        PairKind::Bound => 65_536,
    }
}

/// The refusal of one that is longer.
fn too_long(kind: PairKind) -> Refusal
    ensures { result ≡ at_start (long_code kind) }
{
    let code = match kind {
        PairKind::Check => RefusalCode::TraceTooLong,
        PairKind::Debug => RefusalCode::ScriptTooLong,
        PairKind::Exec => RefusalCode::ListingTooLong,
        PairKind::Bound => RefusalCode::WeightsTooLong,
    };
    code.at(Pos { line: 1, column: 1 })
}
