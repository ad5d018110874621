ghost use Rattle.std.specs.Prelude.{◌≡◌, ◌≤◌, ◌++◌, ℕ, List, Option, OnOk, OnErr};
ghost use Rattle.lmn_io.specs.Counts.{FailedLast, Faults, NoneFailed};
ghost use Rattle.lmn_io.specs.Taking.{TakesPrefix, Gathers};
ghost use Rattle.lmn_io.specs.Gathering.{Adds, all_of, nothing_pending, output};
ghost use Rattle.lmn_io.specs.Writing.{WritesText};

use crate::kept::Kept;
use crate::sink::{Failed, Sink};
use std::marker::Model;

/// Output that is gathered, so that a sink sees one put a line, or one each 4 KiB of a longer line;
/// a piece of more than 4 KiB is put by itself.
/// It takes no memory. Once a put has failed nothing more is put, and `finish` answers it.
#[derive(Drop)]
pub struct LineBuffer {
    kept: Kept,
    failed: bool,
}

impl Model for LineBuffer {
    ghost use Rattle.lmn_io.specs.Gathering.{Pending};

    ghost Value = { Pending };

    ghost view = { λ b. record { kept = b.kept; failed = b.failed } };
}

/// Keeps a piece back, or puts into the sink what there is no room for.
#[tactic(auto, using(crate::proofs::TakingLemmas::taking))]
fn keep_or_put<O: Sink>(kept: &mut Kept, sink: &mut O, piece: &[u8]) -> Result<(), Failed>
    ensures later { (O.faults sink.old).count ≤ (O.faults sink.new).count }
    ensures took { OnOk result (Gathers (kept.old ++ piece.now) (O.told sink.old) kept.new (O.told sink.new)) }
    ensures prefix { OnErr result (TakesPrefix (kept.old ++ piece.now) (O.told sink.old) (O.told sink.new)) }
    ensures same { OnOk result (NoneFailed (O.faults sink.old) (O.faults sink.new)) }
    ensures rose { OnErr result (FailedLast (O.faults sink.old) (O.faults sink.new)) }
{
    if kept.has_room(piece.len()) {
        kept.keep(piece);
        return Ok(());
    }
    sink.put(kept.as_slice())?;
    kept.clear();
    if kept.has_room(piece.len()) {
        kept.keep(piece);
        return Ok(());
    }
    sink.put(piece)
}

impl LineBuffer {
    /// Nothing is pending.
    pub fn new() -> LineBuffer
        ensures { result ≡ nothing_pending }
    {
        LineBuffer {
            kept: Kept::new(),
            failed: false,
        }
    }

    /// Adds a piece.
    pub fn add<O: Sink>(&mut self, sink: &mut O, piece: &[u8])
        ensures { Adds piece.now (output self.old (O.told sink.old) (O.faults sink.old)) (output self.new (O.told sink.new) (O.faults sink.new)) }
    {
        if self.failed {
            return;
        }
        self.failed = keep_or_put(&mut self.kept, sink, piece).is_err();
    }

    /// Adds pieces, one behind the other.
    #[tactic(auto, using(crate::proofs::TakingLemmas::adding))]
    pub fn add_all<O: Sink>(&mut self, sink: &mut O, pieces: &[&[u8]])
        ensures { Adds (all_of pieces.now) (output self.old (O.told sink.old) (O.faults sink.old)) (output self.new (O.told sink.new) (O.faults sink.new)) }
    {
        for piece in pieces {
            self.add(sink, piece);
        }
    }

    /// Puts what is kept back, and answers whether all was put.
    ///
    /// # Errors
    ///
    /// `Failed` where a put has failed; the sink then took a prefix of all that was added.
    #[tactic(auto, using(crate::proofs::TakingLemmas::taking))]
    pub fn finish<O: Sink>(self, sink: &mut O) -> Result<(), Failed>
        ensures { (text : List ℕ) (told : Option (List ℕ)) (faults : Faults) → Adds text (output nothing_pending told faults) (output self (O.told sink.old) (O.faults sink.old)) → WritesText text result told faults (O.told sink.new) (O.faults sink.new) }
    {
        if !self.failed {
            return sink.put(self.kept.as_slice());
        }
        Err(Failed)
    }
}

/// Puts pieces, one behind the other, in as few puts as the buffer allows.
///
/// # Errors
///
/// `Failed` where a put failed; the sink then took a prefix of the pieces.
pub fn put_all<O: Sink>(sink: &mut O, pieces: &[&[u8]]) -> Result<(), Failed>
    ensures { WritesText (all_of pieces.now) result (O.told sink.old) (O.faults sink.old) (O.told sink.new) (O.faults sink.new) }
{
    let mut buffer = LineBuffer::new();
    buffer.add_all(sink, pieces);
    buffer.finish(sink)
}
