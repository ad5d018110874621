//! The list of a part's atoms, which is kept from one call to the next.
ghost use Rattle.std.specs.Prelude.{◌≡◌, [], ℕ, length, IfOk, IsTrue};
ghost use Rattle.lmn_store_heap.specs.Heap.{IsAtom};
ghost use Rattle.lmn_ground.specs.Listed.{IsListed, ListsPart};

use crate::equality::is_same_port;
use crate::found::Found;
use lmn_base::NoMemory;
use lmn_store_trait::LinkStore;
use std::alloc::Global;

/// The atoms of one part, in the order in which a walk finds them. Where there are none, it says nothing.
#[derive(Drop)]
pub struct PartList<A> {
    /// The port at which the first of them is entered.
    pub port: u8,
    /// The atoms.
    pub atoms: Found<A>,
}

impl<A: Copy> PartList<A> {
    /// A list that says nothing, with the memory for n atoms taken at once.
    pub fn with_room(alloc: Global, n: usize) -> Result<PartList<A>, NoMemory>
        ensures { IfOk result (λ l. l ≡ record { port = 0; atoms = [] }) }
    {
        Ok(PartList {
            port: 0,
            atoms: Found::with_room(alloc, n)?,
        })
    }

    /// Says nothing any more.
    #[inline(always)]
    pub fn forget(&mut self)
        ensures { self.new ≡ record { port = 0; atoms = [] } }
    {
        self.port = 0;
        self.atoms.clear();
    }

    /// Names the port of a part that was walked, if so many atoms are listed; else the list says nothing.
    pub fn keep(&mut self, port: u8, count: u64)
        ensures whole { length self.old.atoms ≡ count → self.new ≡ record { port = port; atoms = self.old.atoms } }
        ensures other { (length self.old.atoms ≡ count → ⊥) → self.new.atoms ≡ [] }
    {
        if self.atoms.len() as u64 == count {
            self.port = port;
        } else {
            self.forget();
        }
    }
}

/// Whether the part with this root is listed.
pub fn is_listed<S: LinkStore>(store: &S, list: &PartList<S::Atom>, root: (S::Atom, u8)) -> bool
    requires listed { IsListed S.atom_id (S.heap store.now) list.now }
    requires root { IsAtom (S.heap store.now) (S.atom_id root.0) }
    ensures { IsTrue result → ListsPart S.atom_id (S.heap store.now) list.now.atoms root }
{
    if list.atoms.len() == 0 {
        return false;
    }
    let first = *list.atoms.at(0);
    is_same_port(store, (first, list.port), root)
}
