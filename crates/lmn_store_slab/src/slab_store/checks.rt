//! The conditions of calls, looked up, for a caller that can't show them otherwise, as a test.
ghost use Rattle.std.specs.Prelude.{◌≡◌, ◌≢◌, ◌<◌, ℕ, Some, IsTrue, []};
ghost use Rattle.lmn_store_heap.specs.Heap.{gone, arity_of, mem_place_of, atoms_in, mems_in, spare_of, IsAtom, IsMem, IsInPlace, IsMemInPlace};
ghost use Rattle.lmn_store_heap.specs.Conditions.{Alone, Ready, IsOutside};
ghost use Rattle.lmn_store_heap.specs.Sound.{AllInPlace};
ghost use Rattle.lmn_store_slab.specs.Kept.{heap_of};
ghost use Rattle.lmn_store_slab.specs.Checks.{IsJoined};

use crate::slab_store::SlabStore;
use lmn_store_trait::LinkStore;

impl SlabStore {
    /// Whether there is the atom and it has the port.
    pub fn has_port(&self, a: usize, i: u8) -> bool
        ensures atom { IsTrue result → IsAtom (heap_of self.now) a }
        ensures port { IsTrue result → i < arity_of (heap_of self.now) a }
    {
        match self.atoms.get(a) {
            None => false,
            Some(cell) => {
                if (i as usize) < cell.ports.len() {
                    return true;
                }
                false
            }
        }
    }

    /// Whether there is the atom.
    pub fn has_atom(&self, a: usize) -> bool
        ensures { IsTrue result → IsAtom (heap_of self.now) a }
    {
        self.atoms.contains(a)
    }

    /// Whether there is the membrane.
    pub fn has_mem(&self, m: usize) -> bool
        ensures { IsTrue result → IsMem (heap_of self.now) m }
    {
        self.mems.contains(m)
    }

    /// Whether the membrane is the root or in a list.
    pub fn stands(&self, m: usize) -> bool
        ensures { IsTrue result → IsMemInPlace (heap_of self.now) m }
    {
        match self.mems.get(m) {
            None => false,
            Some(cell) => match cell.list {
                None => true,
                Some(list) => list >= 2,
            },
        }
    }

    /// Whether an atom waits.
    pub fn waits(&self) -> bool
        ensures { IsTrue result → (heap_of self.now).new_atoms ≢ [] }
    {
        self.atom_lists.count(0) > 0
    }

    /// Whether a membrane waits.
    pub fn mem_waits(&self) -> bool
        ensures { IsTrue result → (heap_of self.now).new_mems ≢ [] }
    {
        self.mem_lists.count(0) > 0
    }

    /// Whether the membrane is taken.
    pub fn is_taken(&self, m: usize) -> bool
        ensures { IsTrue result → mem_place_of (heap_of self.now) m ≡ Some gone }
    {
        match self.mems.get(m) {
            None => false,
            Some(cell) => match cell.list {
                None => false,
                Some(list) => list == 1,
            },
        }
    }

    /// Whether no atom is detached. If some are, it isn't looked for whether they are joined.
    pub fn is_alone(&self) -> bool
        ensures { IsTrue result → Alone (heap_of self.now) }
    {
        if self.atom_lists.count(0) != 0 {
            return false;
        }
        true
    }

    /// Whether nothing is detached or taken.
    pub fn is_settled(&self) -> bool
        ensures { IsTrue result → AllInPlace (heap_of self.now) }
    {
        if self.atom_lists.count(0) != 0 {
            return false;
        }
        if self.atom_lists.count(1) != 0 {
            return false;
        }
        if self.mem_lists.count(0) != 0 {
            return false;
        }
        self.mem_lists.count(1) == 0
    }

    /// The spare of a membrane.
    pub fn spare(&self, m: usize) -> u64
        requires { IsMem (heap_of self.now) m }
        ensures { result ≡ spare_of (heap_of self.now) m }
    {
        self.mems[m].rules.spare()
    }

    /// Whether the first membrane is the root and the second another one. What is outside otherwise isn't looked for.
    pub fn is_outside(&self, n: usize, m: usize) -> bool
        ensures { IsTrue result → IsOutside (heap_of self.now) n m }
    {
        let _ = &self.atom_count;
        n == 0 && m != 0
    }

    /// A taken membrane holds nothing.
    fn is_empty_if_taken(&self, m: usize) -> bool
        ensures { IsTrue result → mem_place_of (heap_of self.now) m ≡ Some gone → (atoms_in (heap_of self.now) m ≡ []) × (mems_in (heap_of self.now) m ≡ []) }
    {
        match self.mems.get(m) {
            None => true,
            Some(cell) => match cell.list {
                None => true,
                Some(list) => {
                    list != 1
                        || (self.atom_lists.count(m + 2) == 0 && self.mem_lists.count(m + 2) == 0)
                }
            },
        }
    }

    /// A port has a partner, which isn't at a taken atom.
    fn is_joined(&self, a: usize, i: u8) -> bool
        requires atom { IsAtom (heap_of self.now) a }
        requires port { i < arity_of (heap_of self.now) a }
        ensures { IsTrue result → IsJoined (heap_of self.now) a i }
    {
        match self.partner(a, i) {
            None => false,
            Some((b, _)) => self.atoms[b].list != 1,
        }
    }

    /// All ports are joined so.
    fn are_joined(&self, a: usize, arity: u8) -> bool
        requires atom { IsAtom (heap_of self.now) a }
        requires arity { arity ≡ arity_of (heap_of self.now) a }
        ensures { IsTrue result → (i : ℕ) → i < arity_of (heap_of self.now) a → IsJoined (heap_of self.now) a i }
    {
        for i in 0..arity {
            if !self.is_joined(a, i) {
                return false;
            }
        }
        true
    }

    /// Each port of an atom in place is joined so.
    fn are_joined_if_in_place(&self, a: usize) -> bool
        ensures { IsTrue result → IsInPlace (heap_of self.now) a → (i : ℕ) → i < arity_of (heap_of self.now) a → IsJoined (heap_of self.now) a i }
    {
        match self.atoms.get(a) {
            None => true,
            Some(cell) => cell.list < 2 || self.are_joined(a, cell.functor.arity),
        }
    }

    /// Each port of each atom in place is joined so.
    fn are_all_joined(&self) -> bool
        ensures { IsTrue result → (a : ℕ) → IsInPlace (heap_of self.now) a → (i : ℕ) → i < arity_of (heap_of self.now) a → IsJoined (heap_of self.now) a i }
    {
        let size = self.atom_lists.size();
        for a in 0..size {
            if !self.are_joined_if_in_place(a) {
                return false;
            }
        }
        true
    }

    /// Each taken membrane holds nothing.
    fn are_all_empty(&self) -> bool
        ensures { IsTrue result → (m : ℕ) → mem_place_of (heap_of self.now) m ≡ Some gone → (atoms_in (heap_of self.now) m ≡ []) × (mems_in (heap_of self.now) m ≡ []) }
    {
        let size = self.mem_lists.size();
        for m in 0..size {
            if !self.is_empty_if_taken(m) {
                return false;
            }
        }
        true
    }

    /// What is taken may be freed.
    pub fn is_ready(&self) -> bool
        ensures { IsTrue result → Ready (heap_of self.now) }
    {
        if self.atom_lists.count(0) != 0 {
            return false;
        }
        if self.mem_lists.count(0) != 0 {
            return false;
        }
        if !self.are_all_joined() {
            return false;
        }
        self.are_all_empty()
    }
}
