ghost use Rattle.std.specs.Prelude.{◌≡◌, ◌<◌, ◌≤◌, ◌++◌, [], drop, length, take, IsTrue, OnErr, OnOk};
ghost use Rattle.lmn_receipt_reading.specs.Windows.{HasLine};

use lmn_base::NoMemory;
use std::alloc::Global;
use std::marker::Model;

/// What is at hand of a text: what was met last, and what is ahead. Contracts see the two.
#[derive(Drop)]
pub struct Window {
    bytes: Vec<u8>,
    /// Where what was met last begins.
    start: usize,
    /// Where it ends, and what is ahead begins.
    end: usize,
}

impl Model for Window {
    ghost use Rattle.std.specs.Prelude.{◌≤◌, ◌-◌, drop, take, vec_len};
    ghost use Rattle.lmn_receipt_reading.specs.Windows.{AtHand};

    ghost Value = { AtHand };

    ghost view = { λ w. record { last = take (w.end - w.start) (drop w.start w.bytes.items); ahead = drop w.end w.bytes.items } };

    ghost invariant = { λ w. (w.start ≤ w.end) × (w.end ≤ vec_len w.bytes) };
}

impl Window {
    /// Nothing.
    pub fn new(alloc: Global) -> Window
        ensures { result ≡ record { last = []; ahead = [] } }
    {
        Window {
            bytes: Vec::new(alloc),
            start: 0,
            end: 0,
        }
    }

    /// Lets all go.
    pub(crate) fn clear(&mut self)
        ensures { self.new ≡ record { last = []; ahead = [] } }
    {
        self.bytes.clear();
        self.start = 0;
        self.end = 0;
    }

    /// What was met last.
    pub(crate) fn last(&self) -> &[u8]
        ensures { result.now ≡ self.now.last }
    {
        &self.bytes[self.start..self.end]
    }

    /// What is ahead.
    pub(crate) fn ahead(&self) -> &[u8]
        ensures { result.now ≡ self.now.ahead }
    {
        &self.bytes[self.end..]
    }

    /// The number of bytes that are kept when more are added: of what was met last, and of what is ahead.
    pub(crate) fn len(&self) -> usize {
        self.bytes.len() - self.start
    }

    /// Goes behind so many bytes of what is ahead: they were met last.
    pub(crate) fn pass(&mut self, len: usize)
        requires { len ≤ length self.old.ahead }
        ensures { self.new ≡ record { last = take len self.old.ahead; ahead = drop len self.old.ahead } }
    {
        self.start = self.end;
        self.end += len;
    }

    /// Adds bytes behind what is ahead. What stands before what was met last goes.
    ///
    /// # Errors
    ///
    /// `NoMemory` at want of memory; all stays then.
    pub(crate) fn add(&mut self, alloc: Global, piece: &[u8]) -> Result<(), NoMemory>
        ensures ok { OnOk result (self.new ≡ record self.old { ahead = self.old.ahead ++ piece.now }) }
        ensures err { OnErr result (self.new ≡ self.old) }
    {
        let kept = &self.bytes[self.start..];
        let mut bytes = Vec::with_capacity(alloc, kept.len().saturating_add(piece.len()))?;
        bytes.extend_from_slice(kept)?;
        bytes.extend_from_slice(piece)?;
        self.bytes = bytes;
        self.end -= self.start;
        self.start = 0;
        Ok(())
    }

    /// Whether the first line feed that is ahead has a byte behind it.
    pub(crate) fn has_line(&self) -> bool
        ensures { IsTrue result → HasLine self.now.ahead }
    {
        has_line(self.ahead())
    }
}

/// Whether the first line feed of a text has a byte behind it.
fn has_line(text: &[u8]) -> bool
    ensures { IsTrue result → HasLine text.now }
{
    for at in 0..text.len() {
        if text[at] == b'\n' {
            return at + 1 < text.len();
        }
    }
    false
}
