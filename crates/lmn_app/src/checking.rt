ghost use Rattle.std.specs.Prelude.{◌≡◌, ◌≤◌, ℕ, List, IfErr, IfOk, IsErrOf};
ghost use Rattle.lmn_io.specs.Counts.{Rose};
ghost use Rattle.lmn_io.specs.Texts.{IsMeasured};
ghost use Rattle.lmn_io.specs.Writing.{WritesText};
ghost use Rattle.lmn_io.specs.declared.shelf.Measured.{Measured};
ghost use Rattle.lmn_receipt_chain.specs.Faults.{IfTraceRefused};
ghost use Rattle.lmn_receipt_reading.specs.Readings.{IsMeasuredRight, IsOfSame, IsRest, ReadFailed};
ghost use Rattle.lmn_receipt_reading.specs.Seen.{seen};
ghost use Rattle.lmn_app.specs.Checks.{checked_line};
ghost use Rattle.lmn_app.specs.Traces.{EndsChecked, HasChain, HasWrong, IsTextUnder};
ghost use Rattle.lmn_app_single.specs.Texts.{Accepts};

use itoa::Buffer;
use lmn_app_accepted::accepted_texts;
use lmn_app_reading::Accepted;
use lmn_app_runs::plains_are_printable;
use lmn_app_single::Ending;
use lmn_app_words::PairKind;
use lmn_base::Names;
use lmn_io::{Failed, FetchFault, Shelf, Sink, put_all};
use lmn_receipt_chain::{TraceFault, chains_are_commits};
use lmn_receipt_reading::{ShelfLines, Window};
use lmn_receipt_search::check_lines;
use std::alloc::Global;

/// Writes how many commits a trace has that is one of an accepted text: a text of a shelf, which is read in parts. It is checked over lists:
/// no store, machine or code has a part in it.
pub(crate) fn check_by<F: Shelf, O: Sink>(
    alloc: Global,
    accepted: &Accepted,
    names: &Names,
    shelf: &mut F,
    trace: &str,
    length: u64,
    out: &mut O,
) -> Ending
    requires accepted { (program : List ℕ) × Accepts program names.now accepted.now.plain accepted.now.plans }
    requires measured { (most : ℕ) × IsMeasured (F.told shelf.old) trace.now most (Measured.Length length) }
    ensures asked { F.asked shelf.new ≡ F.asked shelf.old }
    ensures ended { (program : List ℕ) → Accepts program names.now accepted.now.plain accepted.now.plans →
        EndsChecked program (IsTextUnder (F.told shelf.old) trace.now length) (Rose (F.faults shelf.old trace.now) (F.faults shelf.new trace.now)) result (O.told out.old) (O.told out.new) (O.faults out.old) (O.faults out.new) }
{
    accepted_texts();
    plains_are_printable();
    chains_are_commits();
    match count_commits(alloc, accepted, names, shelf, trace, length) {
        Ok(commits) => match write_checked(commits, out) {
            Ok(()) => Ending::Done,
            Err(Failed) => Ending::WriteFault,
        },
        Err(TraceFault::Refused(refusal)) => Ending::SecondRefused(PairKind::Check, refusal),
        Err(TraceFault::Failed) => Ending::ReadFault,
        Err(TraceFault::NoMemory) => Ending::NoMemory,
    }
}

/// The number of commits of a trace of an accepted text that has so many bytes.
fn count_commits<F: Shelf>(
    alloc: Global,
    accepted: &Accepted,
    names: &Names,
    shelf: &mut F,
    trace: &str,
    length: u64,
) -> Result<u64, TraceFault>
    requires accepted { (program : List ℕ) × Accepts program names.now accepted.now.plain accepted.now.plans }
    requires measured { (most : ℕ) × IsMeasured (F.told shelf.old) trace.now most (Measured.Length length) }
    ensures asked { F.asked shelf.new ≡ F.asked shelf.old }
    ensures failed { IsErrOf result TraceFault.Failed → Rose (F.faults shelf.old trace.now) (F.faults shelf.new trace.now) }
    ensures chain { IfOk result (λ n. (text : List ℕ) × IsTextUnder (F.told shelf.old) trace.now length text × HasChain names.now accepted.now.plain text n) }
    ensures wrong { IfErr result (λ fault. IfTraceRefused fault (λ refusal. (text : List ℕ) × IsTextUnder (F.told shelf.old) trace.now length text × HasWrong names.now accepted.now.plain text refusal)) }
{
    let mut window = Window::new(alloc);
    let mut lines = ShelfLines::new(shelf, trace, length, &mut window);
    count_lines(alloc, accepted, names, &mut lines)
}

/// The same, by the lines of a trace of which nothing was met.
fn count_lines<F: Shelf>(
    alloc: Global,
    accepted: &Accepted,
    names: &Names,
    lines: &mut ShelfLines<'_, F>,
) -> Result<u64, TraceFault>
    requires accepted { (program : List ℕ) × Accepts program names.now accepted.now.plain accepted.now.plans }
    requires right { IsMeasuredRight (seen F.told F.asked F.faults lines.old) }
    ensures same_reference { lines.new.shelf.ghost_name ≡ lines.old.shelf.ghost_name }
    ensures same { IsOfSame (seen F.told F.asked F.faults lines.old) (seen F.told F.asked F.faults lines.new) }
    ensures failed { IsErrOf result TraceFault.Failed → ReadFailed (seen F.told F.asked F.faults lines.old) (seen F.told F.asked F.faults lines.new) }
    ensures chain { IfOk result (λ n. (text : List ℕ) × IsRest (seen F.told F.asked F.faults lines.old) text × HasChain names.now accepted.now.plain text n) }
    ensures wrong { IfErr result (λ fault. IfTraceRefused fault (λ refusal. (text : List ℕ) × IsRest (seen F.told F.asked F.faults lines.old) text × HasWrong names.now accepted.now.plain text refusal)) }
{
    accepted_texts();
    plains_are_printable();
    match lines.fill(alloc) {
        Ok(()) => check_lines(alloc, &accepted.plain, names, lines),
        Err(FetchFault::Failed) => Err(TraceFault::Failed),
        Err(FetchFault::NoMemory) => Err(TraceFault::NoMemory),
    }
}

/// Writes the line of a trace that is one of a program.
fn write_checked<O: Sink>(commits: u64, out: &mut O) -> Result<(), Failed>
    ensures { WritesText (checked_line commits) result (O.told out.old) (O.faults out.old) (O.told out.new) (O.faults out.new) }
{
    let mut digits = Buffer::new();
    put_all(
        out,
        &[
            b"% checked ".as_slice(),
            digits.format(commits).as_bytes(),
            b"\n".as_slice(),
        ],
    )
}
