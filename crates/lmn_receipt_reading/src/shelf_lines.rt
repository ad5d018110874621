ghost use Rattle.std.specs.Prelude.{◌≡◌, ◌<◌, ◌≤◌, ◌-◌, [], IfOk, IsErrOf, OnOk};
ghost use Rattle.lmn_receipt_reading.specs.Readings.{IsMeasuredRight, IsOfSame, IsReady, ReadFailed, ReadsOn};
ghost use Rattle.lmn_receipt_reading.specs.Seen.{seen};

use crate::trace_lines::TraceLines;
use crate::window::Window;
use lmn_io::{FetchFault, Shelf};
use std::alloc::Global;

/// The fewest bytes that are read at a time.
const BLOCK: u64 = 65_536;

/// The lines of a text of a shelf, which is read in parts into a window that is lent. At hand are the line that was met last and what was
/// read behind it: a few times as many bytes as the longest line has, or as a block.
#[derive(Drop)]
pub struct ShelfLines<'s, F: Shelf> {
    shelf: &'s mut F,
    name: &'s str,
    /// How many bytes were read.
    read: u64,
    /// How many there are: as many as were measured, or fewer where the text ends before.
    length: u64,
    window: &'s mut Window,
}

impl<'s, F: Shelf> ShelfLines<'s, F> {
    /// Before the beginning of a text that was measured. Nothing is read yet; what was in the window goes.
    pub fn new(
        shelf: &'s mut F,
        name: &'s str,
        length: u64,
        window: &'s mut Window,
    ) -> ShelfLines<'s, F>
        ensures same_reference { result.shelf.ghost_name ≡ shelf.entry.ghost_name }
        ensures seen { seen F.told F.asked F.faults result ≡ record { told = F.told shelf.old; asked = F.asked shelf.old; faults = F.faults shelf.old; name = name.now; read = 0; length = length; at_hand = record { last = []; ahead = [] } } }
    {
        window.clear();
        ShelfLines {
            shelf,
            name,
            read: 0,
            length,
            window,
        }
    }

    /// Reads on until a line with a byte behind it is ahead, or all.
    ///
    /// # Errors
    ///
    /// `Failed` where it can't be read. `NoMemory` at any time.
    pub fn fill(&mut self, alloc: Global) -> Result<(), FetchFault>
        requires right { IsMeasuredRight (seen F.told F.asked F.faults self.old) }
        ensures same_reference { self.new.shelf.ghost_name ≡ self.old.shelf.ghost_name }
        ensures same { IsOfSame (seen F.told F.asked F.faults self.old) (seen F.told F.asked F.faults self.new) }
        ensures failed { IsErrOf result FetchFault.Failed → ReadFailed (seen F.told F.asked F.faults self.old) (seen F.told F.asked F.faults self.new) }
        ensures on { OnOk result (ReadsOn (seen F.told F.asked F.faults self.old) (seen F.told F.asked F.faults self.new)) }
        ensures ready { OnOk result (IsReady (seen F.told F.asked F.faults self.new)) }
    {
        while self.read < self.length {
            if self.window.has_line() {
                return Ok(());
            }
            self.read_block(alloc)?;
        }
        Ok(())
    }

    /// Reads a block more: as many bytes as are at hand, so that a long line is read in few blocks.
    fn read_block(&mut self, alloc: Global) -> Result<(), FetchFault>
        requires right { IsMeasuredRight (seen F.told F.asked F.faults self.old) }
        requires more { self.old.read < self.old.length }
        ensures same_reference { self.new.shelf.ghost_name ≡ self.old.shelf.ghost_name }
        ensures same { IsOfSame (seen F.told F.asked F.faults self.old) (seen F.told F.asked F.faults self.new) }
        ensures failed { IsErrOf result FetchFault.Failed → ReadFailed (seen F.told F.asked F.faults self.old) (seen F.told F.asked F.faults self.new) }
        ensures on { OnOk result (ReadsOn (seen F.told F.asked F.faults self.old) (seen F.told F.asked F.faults self.new)) }
        ensures less { OnOk result (self.new.length - self.new.read < self.old.length - self.old.read) }
    {
        let most = block(self.window.len(), self.length - self.read);
        let part = self.shelf.part(alloc, self.name, self.read, most)?;
        let count = part.len() as u64;
        let Ok(()) = self.window.add(alloc, part.as_slice()) else {
            return Err(FetchFault::NoMemory);
        };
        self.read += count;
        self.length = end_of(self.length, self.read, most - count);
        Ok(())
    }
}

impl<F: Shelf> TraceLines for ShelfLines<'_, F> {
    ghost use Rattle.std.specs.Prelude.{◌≡◌};
    ghost use Rattle.lmn_receipt_reading.specs.Readings.{IsOfSame, IsReady, IsRest, ReadFailed, left_of};
    ghost use Rattle.lmn_receipt_reading.specs.Seen.{seen};

    ghost cuts = { Unit {0} };

    ghost is_ready = { λ s. IsReady (seen F.told F.asked F.faults s) };

    ghost is_rest = { λ s rest. IsRest (seen F.told F.asked F.faults s) rest };

    ghost last = { λ s. s.window.now.last };

    ghost window = { λ s. s.window.now.ahead };

    ghost left = { λ s. left_of (seen F.told F.asked F.faults s) };

    ghost reads = { λ s t. (t.shelf.ghost_name ≡ s.shelf.ghost_name) × IsOfSame (seen F.told F.asked F.faults s) (seen F.told F.asked F.faults t) };

    ghost fails = { λ s t. ReadFailed (seen F.told F.asked F.faults s) (seen F.told F.asked F.faults t) };

    fn met(&self) -> &[u8] {
        self.window.last()
    }

    fn ahead(&self) -> &[u8] {
        self.window.ahead()
    }

    fn meet(&mut self, alloc: Global, len: usize) -> Result<(), FetchFault> {
        self.window.pass(len);
        self.fill(alloc)
    }
}

/// How many bytes to read, by how many are at hand, and how many are left.
fn block(kept: usize, left: u64) -> u64
    ensures within { result ≤ left }
    ensures some { 0 < left → 0 < result }
{
    BLOCK.max(kept as u64).min(left)
}

/// Where a text ends that was held for so long, by how much of it was read, and how many bytes were wanting in the last block.
fn end_of(length: u64, read: u64, wanting: u64) -> u64
    ensures none { wanting ≡ 0 → result ≡ length }
    ensures some { 0 < wanting → result ≡ read }
{
    if wanting > 0 { read } else { length }
}
