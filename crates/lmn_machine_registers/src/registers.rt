ghost use Rattle.std.specs.Prelude.{◌≡◌, [], take, IfOk};

use crate::stack::Stack;
use lmn_base::NoMemory;
use lmn_ground::PartList;
use std::alloc::Global;

/// A copy of a typed context.
#[derive(Clone, Copy, Drop)]
pub struct PartCopy<A> {
    /// The port at which the copy is entered.
    pub root: (A, u8),
    /// How many atoms it has.
    pub atoms: u64,
}

/// How many atoms a list of a part has room for at first.
const LIST_ROOM: usize = 4096;

/// The registers that are set so far, each kind from number 0 on. The code of a head sets those of what it finds; the
/// code of a body goes on from there, and sets those of what it makes.
#[derive(Drop)]
pub struct SetRegisters<A, M> {
    /// Atoms.
    pub atoms: Stack<A>,
    /// Membranes; the first one is that in which the rule stands.
    pub membranes: Stack<M>,
    /// Typed contexts, each by the port at which it is entered.
    pub parts: Stack<(A, u8)>,
    /// Integers.
    pub integers: Stack<i64>,
    /// Copies of typed contexts, which bodies alone make.
    pub copies: Stack<PartCopy<A>>,
    /// The atoms of the typed context that was walked last.
    pub listed: PartList<A>,
}

impl<A: Copy, M: Copy> SetRegisters<A, M> {
    /// No register set, with the memory of all.
    pub fn new(alloc: Global) -> Result<SetRegisters<A, M>, NoMemory>
        ensures { IfOk result (λ s. s ≡ record { atoms = []; membranes = []; parts = []; integers = []; copies = []; listed = record { port = 0; atoms = [] } }) }
    {
        Ok(SetRegisters {
            atoms: Stack::new(alloc)?,
            membranes: Stack::new(alloc)?,
            parts: Stack::new(alloc)?,
            integers: Stack::new(alloc)?,
            copies: Stack::new(alloc)?,
            listed: PartList::with_room(alloc, LIST_ROOM)?,
        })
    }

    /// Sets no register any more, and lists no part.
    pub fn clear(&mut self)
        ensures { self.new ≡ record { atoms = []; membranes = []; parts = []; integers = []; copies = []; listed = record { port = 0; atoms = [] } } }
    {
        self.atoms.truncate(0);
        self.membranes.truncate(0);
        self.parts.truncate(0);
        self.integers.truncate(0);
        self.copies.truncate(0);
        self.listed.forget();
    }

    /// Keeps so many registers of each kind that heads set. No part is listed then.
    pub fn keep(&mut self, atoms: usize, membranes: usize, parts: usize, integers: usize)
        ensures { self.new ≡ record { atoms = take atoms self.old.atoms; membranes = take membranes self.old.membranes; parts = take parts self.old.parts; integers = take integers self.old.integers; copies = self.old.copies; listed = record { port = 0; atoms = [] } } }
    {
        self.atoms.truncate(atoms);
        self.membranes.truncate(membranes);
        self.parts.truncate(parts);
        self.integers.truncate(integers);
        self.listed.forget();
    }
}
