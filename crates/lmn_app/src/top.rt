ghost use Rattle.std.specs.Prelude.{◌≡◌, ◌≤◌, length};
ghost use Rattle.lmn_app.specs.Requests.{FetchesSecond};
ghost use Rattle.lmn_app_words.specs.Forms.{pair_of, to_pair};
ghost use Rattle.lmn_app.specs.Outcomes.{RequestEnded};
ghost use Rattle.lmn_app.specs.Calls.{EndedSo, IsAnswered};
ghost use Rattle.lmn_app_single.specs.Requests.{asked_program};
ghost use Rattle.lmn_app_single.specs.Seen.{shelf_seen, sink_seen};
ghost use Rattle.lmn_app_single.specs.Texts.{text_bytes};
ghost use Rattle.lmn_app_single.specs.Writing.{IsToldAnd, told_under};

use crate::pairing::act_on_pair;
use lmn_app_reading::read;
use lmn_app_single::{Acted, Ending, act_single, conclude, fetch};
use lmn_app_words::PairWords;
use lmn_base::{Names, TextFault};
use lmn_io::{Shelf, Sink};
use sha2::{Digest, Sha256};
use std::alloc::Global;

/// All that the program does, for the words of its command line after its own name.
/// The answer is its status, as `Ending::status` tells. What it leaves behind is `IsAnswered`; what follows of it for each status is
/// `KeepsPromises` (`laws::answers_keep_promises`).
pub fn lmn_main<F: Shelf, O: Sink, E: Sink>(
    alloc: Global,
    words: &[String],
    shelf: &mut F,
    out: &mut O,
    err: &mut E,
) -> u8
    ensures { IsAnswered words.now result (shelf_seen F.told F.asked F.faults shelf.old) (shelf_seen F.told F.asked F.faults shelf.new)
        (sink_seen O.told O.faults out.old) (sink_seen O.told O.faults out.new) (sink_seen E.told E.faults err.old) (sink_seen E.told E.faults err.new) }
{
    let ending = act(alloc, words, shelf, out);
    conclude(err, ending)
}

/// Does what the words ask for, and says how it ended.
fn act<F: Shelf, O: Sink>(alloc: Global, words: &[String], shelf: &mut F, out: &mut O) -> Ending
    ensures { EndedSo words.now result (shelf_seen F.told F.asked F.faults shelf.old) (shelf_seen F.told F.asked F.faults shelf.new)
        (sink_seen O.told O.faults out.old) (sink_seen O.told O.faults out.new) }
{
    match act_single(alloc, words, shelf, out) {
        Acted::Ended(ending) => ending,
        Acted::Pair(pair) => perform_pair(alloc, pair, shelf, out),
    }
}

/// Fetches a program, and does with it and a second text what is to be done.
fn perform_pair<F: Shelf, O: Sink>(
    alloc: Global,
    words: PairWords<'_>,
    shelf: &mut F,
    out: &mut O,
) -> Ending
    ensures asked { FetchesSecond (pair_of words.entry) result (F.told shelf.old) (asked_program (pair_of words.entry).file (F.asked shelf.old)) (F.asked shelf.new) }
    ensures ended { RequestEnded (to_pair (pair_of words.entry)) result (F.told shelf.old) (O.told out.old) (O.told out.new) (O.faults out.old) (O.faults out.new) (F.faults shelf.old) (F.faults shelf.new) }
{
    match fetch(alloc, words.file, shelf) {
        Ok(text) => perform_pair_on(alloc, words, text.as_slice(), shelf, out),
        Err(ending) => ending,
    }
}

/// Reads a program, and does with it and a second text what is to be done.
fn perform_pair_on<F: Shelf, O: Sink>(
    alloc: Global,
    words: PairWords<'_>,
    text: &[u8],
    shelf: &mut F,
    out: &mut O,
) -> Ending
    requires short { length text.now ≤ text_bytes }
    requires told { IsToldAnd (told_under (F.told shelf.old) (pair_of words).file) (λ found. found ≡ text.now) }
    ensures asked { FetchesSecond (pair_of words.entry) result (F.told shelf.old) (F.asked shelf.old) (F.asked shelf.new) }
    ensures ended { RequestEnded (to_pair (pair_of words.entry)) result (F.told shelf.old) (O.told out.old) (O.told out.new) (O.faults out.old) (O.faults out.new) (F.faults shelf.old) (F.faults shelf.new) }
{
    let mut names = Names::with_key(alloc, &Sha256::digest(text));
    match read(alloc, text, &mut names) {
        Ok(accepted) => act_on_pair(alloc, words, &accepted, &mut names, shelf, out),
        Err(TextFault::Refused(refusal)) => Ending::Refused(refusal),
        Err(TextFault::NoMemory) => Ending::NoMemory,
    }
}
