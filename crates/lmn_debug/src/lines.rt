ghost use Rattle.std.specs.Prelude.{◌≡◌};
ghost use Rattle.lmn_io.specs.Writing.{WritesText};
ghost use Rattle.lmn_debug.specs.Debugged.{CountsObeyed};
ghost use Rattle.lmn_debug.specs.Obeying.{LineTold};
ghost use Rattle.lmn_debug.specs.Orders.{line_at, stop_mark};

use crate::Stop;
use crate::debugging::DebugFault;
use itoa::Buffer;
use lmn_io::{Failed, Sink, put_all};

/// Writes the line of an order that stopped so, where memory wasn't wanting.
///
/// # Errors
///
/// `NoMemory` where memory was wanting for it, and `Failed` where the sink failed.
pub(crate) fn tell<O: Sink>(stop: Stop, commits: u64, out: &mut O) -> Result<(), DebugFault>
    ensures told { LineTold commits stop (O.told out.old) (O.told out.new) result }
    ensures counts { CountsObeyed result (O.faults out.old) (O.faults out.new) }
{
    if stop == Stop::NoMemory {
        return Err(DebugFault::NoMemory);
    }
    match write_line(stop, commits, out) {
        Ok(()) => Ok(()),
        Err(Failed) => Err(DebugFault::Failed),
    }
}

/// Writes the line of an order that stopped so.
fn write_line<O: Sink>(stop: Stop, commits: u64, out: &mut O) -> Result<(), Failed>
    ensures { WritesText (line_at commits stop) result (O.told out.old) (O.faults out.old) (O.told out.new) (O.faults out.new) }
{
    put_all(
        out,
        &[
            b"% at ".as_slice(),
            Buffer::new().format(commits).as_bytes(),
            word(stop),
            b"\n".as_slice(),
        ],
    )
}

/// What the line has behind the number of commits.
fn word(stop: Stop) -> &'static [u8]
    ensures { result.now ≡ stop_mark stop }
{
    match stop {
        Stop::Done => b"",
        Stop::Irreducible => b" irreducible",
        Stop::Full => b" full",
        Stop::Met => b" met",
        Stop::Limit => b" limit",
        Stop::NoMemory => b"",
    }
}
