ghost use Rattle.std.specs.Prelude.{◌≡◌, ◌≤◌, ◌↔◌, ◌++◌, List, [], Some, length, IfOk, IsErr, OnErr, OnOk};
ghost use Rattle.lmn_io.specs.Counts.{one_more, one_more_fault, one_more_put};
ghost use Rattle.lmn_io.specs.Memory.{MemorySink, PutFails};
ghost use Rattle.lmn_io.specs.Writing.{WritesText};

use crate::sink::{Failed, Sink};
use lmn_base::{NoMemory, Rows};
use std::alloc::Global;
use std::marker::Model;

/// A sink in memory, with room for so many bytes, of which the puts with some numbers fail.
/// Contracts see the bytes, the numbers and the counts.
#[derive(Drop)]
pub struct MemSink {
    room: usize,
    bytes: Vec<u8>,
    failing: Rows<u64>,
    calls: u64,
    failures: u64,
    since: u64,
}

impl Model for MemSink {
    ghost use Rattle.std.specs.Prelude.{vec_len, vec_capacity, ◌≤◌};
    ghost use Rattle.lmn_io.specs.Memory.{MemorySink};

    ghost Value = { MemorySink };

    ghost view = { λ s. record { room = s.room; bytes = s.bytes.items; failing = s.failing; calls = s.calls; faults = record { count = s.failures; since = s.since } } };

    ghost invariant = { λ s. (vec_len s.bytes ≤ s.room) × (s.room ≤ vec_capacity s.bytes) };
}

impl MemSink {
    /// A sink that has taken nothing. All memory that it will need is taken here.
    ///
    /// # Errors
    ///
    /// `NoMemory` where there isn't memory for `room` bytes.
    pub fn new(alloc: Global, room: usize, failing: Rows<u64>) -> Result<MemSink, NoMemory>
        ensures { IfOk result (λ s. s ≡ record { room = room; bytes = []; failing = failing; calls = 0; faults = record { count = 0; since = 0 } }) }
    {
        Ok(MemSink {
            room,
            bytes: Vec::with_capacity(alloc, room)?,
            failing,
            calls: 0,
            failures: 0,
            since: 0,
        })
    }

    /// The bytes that were taken.
    pub fn taken(&self) -> &[u8]
        ensures { result.now ≡ self.now.bytes }
    {
        self.bytes.as_slice()
    }
}

impl Sink for MemSink {
    ghost told = { λ s. Some s.bytes };

    ghost faults = { λ s. s.faults };

    /// A put fails exactly where its number is listed or there is no room for the whole piece; then nothing is taken.
    fn put(&mut self, piece: &[u8]) -> Result<(), Failed>
        ensures writes { WritesText piece.now result (Some self.old.bytes) self.old.faults (Some self.new.bytes) self.new.faults }
        ensures counts { OnOk result (self.new.faults ≡ one_more_put self.old.faults) }
        ensures fails { IsErr result ↔ PutFails self.old piece.now }
        ensures refused { OnErr result (self.new ≡ record self.old { calls = one_more self.old.calls; faults = one_more_fault self.old.faults }) }
        ensures accepted { OnOk result (self.new ≡ record self.old { bytes = self.old.bytes ++ piece.now; calls = one_more self.old.calls; faults = one_more_put self.old.faults }) }
    {
        let call = self.calls;
        self.calls = call.saturating_add(1);
        if self.failing.as_slice().contains(&call) || piece.len() > self.room - self.bytes.len() {
            self.failures = self.failures.saturating_add(1);
            self.since = 0;
            return Err(Failed);
        }
        self.bytes.extend_from_slice(piece).unwrap();
        self.since = self.since.saturating_add(1);
        Ok(())
    }
}
