ghost use Rattle.std.specs.Prelude.{◌≡◌, ◌≤◌, ℕ, IfErr, IfOk, List, Some, length};
ghost use Rattle.std.specs.declared.alloc.Global.{Global};
ghost use Rattle.std.specs.declared.string.String.{String};
ghost use Rattle.lmn_app_single.specs.Demos.{demo_text};
ghost use Rattle.lmn_app_single.specs.Outcomes.{Ended};
ghost use Rattle.lmn_app_single.specs.Requests.{IsInRange, asked_program, folded_run};
ghost use Rattle.lmn_app_single.specs.Runnings.{EndsUnread};
ghost use Rattle.lmn_app_single.specs.Seen.{shelf_seen, sink_seen};
ghost use Rattle.lmn_app_single.specs.Singles.{ActedSo, IsAnsweredSingle};
ghost use Rattle.lmn_app_single.specs.Texts.{Accepts, text_bytes};
ghost use Rattle.lmn_app_single.specs.Writing.{IsTextOf, told_under};
ghost use Rattle.lmn_app_single.specs.declared.task.Task.{Task};
ghost use Rattle.lmn_app_words.specs.Forms.{Asks, IsInRanges, request_of};

use crate::compiling::compile;
use crate::conclusion::conclude;
use crate::demo::demo_text;
use crate::ending::Ending;
use crate::running::run;
use crate::task::{DEMO, Task};
use lmn_app_reading::{Accepted, read};
use lmn_app_words::{Command, PairWords};
use lmn_base::{Names, Pos, Refusal, RefusalCode, Rows, TextFault};
use lmn_io::{FetchFault, Fetched, Shelf, Sink};
use sha2::{Digest, Sha256};
use std::alloc::{AllocError, Global};

/// The most bytes of a text.
const TEXT_BYTES: u64 = 4_194_304;

/// The refusal of a text that is longer.
const TOO_LONG: Refusal = Refusal {
    code: RefusalCode::TextTooLong as u8,
    pos: Pos { line: 1, column: 1 },
};

/// The status for words that ask for a program and a second text, which the whole program answers.
const HANDED_ON: u8 = 12;

/// How words were acted on.
#[derive(Clone, Copy)]
pub enum Acted<'w> {
    /// What they ask for was done with one text, or wasn't, and ended so.
    Ended(Ending),
    /// They ask for a program and a second text, and nothing was done.
    Pair(PairWords<'w>),
}

/// All that the program of requests with one text does, for the words of its command line after its own name. The answer is its
/// status: as `Ending::status` tells, and 12 for words that ask for a program and a second text, with which it does nothing.
pub fn answer_single<F: Shelf, O: Sink, E: Sink>(
    alloc: Global,
    words: &[String],
    shelf: &mut F,
    out: &mut O,
    err: &mut E,
) -> u8
    ensures { IsAnsweredSingle words.now result (shelf_seen F.told F.asked F.faults shelf.old) (shelf_seen F.told F.asked F.faults shelf.new)
        (sink_seen O.told O.faults out.old) (sink_seen O.told O.faults out.new) (sink_seen E.told E.faults err.old) (sink_seen E.told E.faults err.new) }
{
    match act_single(alloc, words, shelf, out) {
        Acted::Ended(ending) => conclude(err, ending),
        Acted::Pair(_) => HANDED_ON,
    }
}

/// Does what the words ask for, if that is something with one text, and says how it ended.
pub fn act_single<'w, F: Shelf, O: Sink>(
    alloc: Global,
    words: &'w [String],
    shelf: &mut F,
    out: &mut O,
) -> Acted<'w>
    ensures { ActedSo words.now result (shelf_seen F.told F.asked F.faults shelf.old) (shelf_seen F.told F.asked F.faults shelf.new)
        (sink_seen O.told O.faults out.old) (sink_seen O.told O.faults out.new) }
{
    match Command::from_words(alloc, words) {
        Ok(Some(command)) => perform(alloc, command, shelf, out),
        Ok(None) => Acted::Ended(Ending::Words),
        Err(AllocError) => Acted::Ended(Ending::NoMemory),
    }
}

/// Does what a command asks for, if that is something with one text.
fn perform<'w, F: Shelf, O: Sink>(
    alloc: Global,
    command: Command<'w>,
    shelf: &mut F,
    out: &mut O,
) -> Acted<'w>
    requires { IsInRanges (request_of command) }
    ensures { (args : List (String Global)) → Asks args (request_of command.entry) → ActedSo args result
        (shelf_seen F.told F.asked F.faults shelf.old) (shelf_seen F.told F.asked F.faults shelf.new) (sink_seen O.told O.faults out.old) (sink_seen O.told O.faults out.new) }
{
    match command {
        Command::Run(words) => Acted::Ended(perform_file(
            alloc,
            words.file,
            Task::Run(words.settings),
            shelf,
            out,
        )),
        Command::Compile(file) => Acted::Ended(perform_file(alloc, file, Task::List, shelf, out)),
        Command::Demo(n) => Acted::Ended(perform_demo(alloc, n, out)),
        Command::Pair(words) => Acted::Pair(words),
    }
}

/// Fetches a program, and does with it what is to be done.
fn perform_file<F: Shelf, O: Sink>(
    alloc: Global,
    name: &str,
    task: Task,
    shelf: &mut F,
    out: &mut O,
) -> Ending
    requires range { IsInRange task }
    ensures asked { F.asked shelf.new ≡ asked_program name.now (F.asked shelf.old) }
    ensures ended { Ended task result (told_under (F.told shelf.old) name.now) (O.told out.old) (O.told out.new) (O.faults out.old) (O.faults out.new) (F.faults shelf.old name.now) (F.faults shelf.new name.now) }
{
    match fetch(alloc, name, shelf) {
        Ok(text) => perform_on(alloc, task, text.as_slice(), out),
        Err(ending) => ending,
    }
}

/// Runs the text that is made of a number.
fn perform_demo<O: Sink>(alloc: Global, n: u64, out: &mut O) -> Ending
    requires few { n ≤ 100000 }
    ensures { Ended (Task.Run folded_run) result (Some (Some (demo_text n))) (O.told out.old) (O.told out.new) (O.faults out.old) (O.faults out.new) 0 0 }
{
    match demo_text(alloc, n) {
        Ok(text) => perform_on(alloc, Task::Run(DEMO), text.as_slice(), out),
        Err(AllocError) => Ending::NoMemory,
    }
}

/// The text of the file with a name.
///
/// # Errors
///
/// How a call ends without it: `Refused` by `E01` where it has more than 4,194,304 bytes, `ReadFault` where the shelf
/// failed, `NoMemory` where there is no memory for it.
pub fn fetch<F: Shelf>(alloc: Global, name: &str, shelf: &mut F) -> Result<Rows<u8>, Ending>
    ensures asked { F.asked shelf.new ≡ asked_program name.now (F.asked shelf.old) }
    ensures same { F.told shelf.new ≡ F.told shelf.old }
    ensures later { (other : List ℕ) → F.faults shelf.old other ≤ F.faults shelf.new other }
    ensures text { IfOk result (λ text. IsTextOf (told_under (F.told shelf.old) name.now) text) }
    ensures fault { IfErr result (λ ending. EndsUnread ending (told_under (F.told shelf.old) name.now) (F.faults shelf.old name.now) (F.faults shelf.new name.now)) }
{
    match shelf.fetch(alloc, name, TEXT_BYTES) {
        Ok(Fetched::Whole(text)) => Ok(text),
        Ok(Fetched::TooLong) => Err(Ending::Refused(TOO_LONG)),
        Err(FetchFault::Failed) => Err(Ending::ReadFault),
        Err(FetchFault::NoMemory) => Err(Ending::NoMemory),
    }
}

/// Reads a text, and does with it what is to be done.
fn perform_on<O: Sink>(alloc: Global, task: Task, text: &[u8], out: &mut O) -> Ending
    requires short { length text.now ≤ text_bytes }
    requires range { IsInRange task }
    ensures { (before after : ℕ) → Ended task result (Some (Some text.now)) (O.told out.old) (O.told out.new) (O.faults out.old) (O.faults out.new) before after }
{
    let mut names = Names::with_key(alloc, &Sha256::digest(text));
    match read(alloc, text, &mut names) {
        Ok(accepted) => perform_accepted(alloc, task, &accepted, &names, out),
        Err(TextFault::Refused(refusal)) => Ending::Refused(refusal),
        Err(TextFault::NoMemory) => Ending::NoMemory,
    }
}

/// Does with an accepted text what is to be done.
fn perform_accepted<O: Sink>(
    alloc: Global,
    task: Task,
    accepted: &Accepted,
    names: &Names,
    out: &mut O,
) -> Ending
    requires accepted { (text : List ℕ) × Accepts text names.now accepted.now.plain accepted.now.plans }
    requires range { IsInRange task }
    ensures { (text : List ℕ) (before after : ℕ) → Accepts text names.now accepted.now.plain accepted.now.plans →
        Ended task result (Some (Some text)) (O.told out.old) (O.told out.new) (O.faults out.old) (O.faults out.new) before after }
{
    match task {
        Task::Run(settings) => run(alloc, accepted, names, &settings, out),
        Task::List => compile(alloc, accepted, names, out),
    }
}
