ghost use Rattle.std.specs.Prelude.{◌≡◌, ◌≢◌, [], OnErr, codes, if◌then◌else◌, nat_lt};
ghost use Rattle.lmn_io.specs.Writing.{WritesText};
ghost use Rattle.lmn_app_single.specs.Endings.{Concludes, line_of_ending, refusal_line};

use crate::ending::Ending;
use itoa::Buffer;
use lmn_base::{Refusal, words_of_number};
use lmn_io::{Failed, Sink, put_all};

/// Puts the line of an ending into `err`, if it has one, and answers its status, or 5 where `err` fails.
pub fn conclude<E: Sink>(err: &mut E, ending: Ending) -> u8
    ensures { Concludes ending result (E.told err.old) (E.told err.new) (E.faults err.old) (E.faults err.new) }
{
    match report(err, ending) {
        Ok(()) => ending.status(),
        Err(_) => Ending::WriteFault.status(),
    }
}

/// Puts the line of an ending, if it has one.
#[tactic(auto, using(lmn_io::proofs::TakingLemmas::taking))]
fn report<E: Sink>(err: &mut E, ending: Ending) -> Result<(), Failed>
    ensures line { OnErr result (line_of_ending ending ≢ []) }
    ensures writes { WritesText (line_of_ending ending) result (E.told err.old) (E.faults err.old) (E.told err.new) (E.faults err.new) }
{
    match ending {
        Ending::Done | Ending::Budget | Ending::Full => Ok(()),
        Ending::Refused(refusal) => report_refusal(err, refusal),
        Ending::SecondRefused(_, refusal) => report_refusal(err, refusal),
        Ending::Words => err.put(b"lmn: words not understood\n"),
        Ending::ReadFault => err.put(b"lmn: read failed\n"),
        Ending::WriteFault => err.put(b"lmn: write failed\n"),
        Ending::NoMemory => err.put(b"lmn: out of memory\n"),
    }
}

/// Puts the line of a refusal: its code, its place and its words.
fn report_refusal<E: Sink>(err: &mut E, refusal: Refusal) -> Result<(), Failed>
    ensures { WritesText (refusal_line refusal) result (E.told err.old) (E.faults err.old) (E.told err.new) (E.faults err.new) }
{
    let (mut code, mut line, mut column) = (Buffer::new(), Buffer::new(), Buffer::new());
    put_all(
        err,
        &[
            code_letters(refusal.code),
            code.format(refusal.code).as_bytes(),
            b" ".as_slice(),
            line.format(refusal.pos.line).as_bytes(),
            b":".as_slice(),
            column.format(refusal.pos.column).as_bytes(),
            b" ".as_slice(),
            words_of_number(refusal.code),
            b"\n".as_slice(),
        ],
    )
}

/// What stands before the number of a code, which has two digits.
fn code_letters(code: u8) -> &'static [u8]
    ensures { result.now ≡ (if nat_lt code 10 then codes "E0" else codes "E") }
{
    if code < 10 { b"E0" } else { b"E" }
}
