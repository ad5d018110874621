ghost use Rattle.std.specs.Prelude.{◌≡◌, ◌≤◌, ◌+◌, ◌++◌, [], length, IsTrue};

use std::marker::Model;

/// The number of bytes that are kept back at most.
const ROOM: usize = 4096;

/// Bytes that are kept back, in room of their own. Contracts see the bytes.
#[derive(Drop)]
pub(crate) struct Kept {
    bytes: [u8; ROOM],
    length: usize,
}

impl Model for Kept {
    ghost use Rattle.std.specs.Prelude.{ℕ, List, take, ◌≤◌};

    ghost Value = { List ℕ };

    ghost view = { λ b. take b.length b.bytes };

    ghost invariant = { λ b. b.length ≤ 4096 };
}

impl Kept {
    /// No bytes.
    pub(crate) fn new() -> Kept
        ensures { result ≡ [] }
    {
        Kept {
            bytes: [0; ROOM],
            length: 0,
        }
    }

    /// Whether there is room for so many bytes more.
    pub(crate) fn has_room(&self, count: usize) -> bool
        ensures { IsTrue result → length self.now + count ≤ 4096 }
    {
        count <= ROOM - self.length
    }

    /// Keeps a piece behind the other bytes.
    pub(crate) fn keep(&mut self, piece: &[u8])
        requires { length self.old + length piece.now ≤ 4096 }
        ensures { self.new ≡ self.old ++ piece.now }
    {
        let end = self.length + piece.len();
        self.bytes[self.length..end].copy_from_slice(piece);
        self.length = end;
    }

    /// Lets all bytes go.
    pub(crate) fn clear(&mut self)
        ensures { self.new ≡ [] }
    {
        self.length = 0;
    }

    /// The bytes.
    pub(crate) fn as_slice(&self) -> &[u8]
        ensures { result.now ≡ self.now }
    {
        &self.bytes[..self.length]
    }
}
