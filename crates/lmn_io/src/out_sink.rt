ghost use Rattle.std.specs.Prelude.{◌≡◌, ◌≤◌, ℕ, [], Some, length, take, OnOk};
ghost use Rattle.std.specs.Io.KnownBytes.{Appends};
ghost use Rattle.lmn_io.specs.Counts.{one_more_put};
ghost use Rattle.lmn_io.specs.Taking.{TellsWritten};
ghost use Rattle.lmn_io.specs.Writing.{WritesText};

use crate::sink::{Failed, Sink};
use crate::taken::Taken;
use std::io::{self, Write};

/// How often in a row a write is tried that is interrupted each time, before it counts as failed.
const TRIES: usize = 1000;

/// A sink over a writer. It tells the bytes that the writer said it took. Each error of the writer counts, and so does a write that takes
/// nothing; a write that is interrupted is tried again.
#[derive(Drop)]
pub struct OutSink<W: Write + Drop> {
    writer: W,
    taken: Taken,
    failures: u64,
    since: u64,
}

impl<W: Write + Drop> OutSink<W> {
    /// A sink over a writer, which has taken no byte and counted no fault.
    pub fn new(writer: W) -> OutSink<W>
        ensures told { ⟦<OutSink<W> as Sink>⟧.told result ≡ Some [] }
        ensures faults { ⟦<OutSink<W> as Sink>⟧.faults result ≡ record { count = 0; since = 0 } }
    {
        OutSink {
            writer,
            taken: Taken::new(),
            failures: 0,
            since: 0,
        }
    }
}

/// How many bytes a writer took, 0 where it failed.
fn write_some<W: Write>(writer: &mut W, rest: &[u8]) -> usize
    ensures bound { result ≤ length rest.now }
    ensures written { Appends (W.contents writer.old) (W.contents writer.new) (take result rest.now) }
{
    for _ in 0..TRIES {
        match writer.write(rest) {
            Ok(count) => return count,
            Err(error) if error.kind() == io::ErrorKind::Interrupted => {}
            Err(_) => return 0,
        }
    }
    0
}

impl<W: Write + Drop> Sink for OutSink<W> {
    ghost told = { λ s. Some s.taken.bytes };

    ghost faults = { λ s. record { count = s.failures; since = s.since } };

    /// What it tells more is what its writer took.
    fn put(&mut self, piece: &[u8]) -> Result<(), Failed>
        ensures writes { WritesText piece.now result (Some self.old.taken.bytes) (record { count = self.old.failures; since = self.old.since }) (Some self.new.taken.bytes) (record { count = self.new.failures; since = self.new.since }) }
        ensures counts { OnOk result (record { count = self.new.failures; since = self.new.since } ≡ one_more_put (record { count = self.old.failures; since = self.old.since })) }
        ensures written { TellsWritten self.old.taken.bytes self.new.taken.bytes (W.contents self.old.writer) (W.contents self.new.writer) }
    {
        let mut rest = piece;
        while !rest.is_empty() {
            let count = write_some(&mut self.writer, rest);
            if count == 0 {
                self.failures = self.failures.saturating_add(1);
                self.since = 0;
                return Err(Failed);
            }
            self.taken.note(&rest[..count]);
            rest = &rest[count..];
        }
        self.since = self.since.saturating_add(1);
        Ok(())
    }
}
