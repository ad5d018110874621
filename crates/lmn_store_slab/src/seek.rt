ghost use Rattle.std.specs.Prelude.{◌≡◌, ◌<◌, ◌↔◌, ℕ, Some, IfSome, IsSome, IsTrue, length};
ghost use Rattle.lmn_store_heap.specs.Lists.{from};
ghost use Rattle.lmn_store_heap.specs.Heap.{Heap, functor_of};
ghost use Rattle.lmn_store_heap.specs.Functors.{with_functor};
ghost use Rattle.lmn_store_slab.specs.Lines.{list_at};
ghost use Rattle.lmn_store_slab.specs.Cells.{atoms_in_cells};
ghost use Rattle.lmn_base.specs.Lists.{In};

use crate::Lists;
use crate::cell::AtomCell;
use lmn_base::Functor;
use slab::Slab;

/// Whether two functors are one.
pub fn same_functor(f: Functor, g: Functor) -> bool
    ensures { IsTrue result ↔ (f ≡ g) }
{
    f == g
}

/// The first atom with the functor in a list, from an atom of it on.
pub fn seek(
    atoms: &Slab<AtomCell>,
    lists: &Lists,
    list: usize,
    start: Option<usize>,
    f: Functor,
) -> Option<usize>
    requires list { list < length lists.now.lists }
    requires start { IfSome start (λ a. In a (list_at lists.now list)) }
    requires atoms { (a : ℕ) → In a (list_at lists.now list) → IsSome (atoms_in_cells atoms.now.slots a) }
    ensures first { (h : Heap) → h.atoms ≡ atoms_in_cells atoms.now.slots →
        from result (with_functor h f (list_at lists.now list)) ≡ with_functor h f (from start (list_at lists.now list)) }
    ensures functor { (h : Heap) → h.atoms ≡ atoms_in_cells atoms.now.slots → IfSome result (λ a. functor_of h a ≡ Some f) }
    ensures there { IfSome result (λ a. In a (list_at lists.now list)) }
{
    let mut at = start;
    while let Some(a) = at {
        if same_functor(atoms[a].functor, f) {
            return Some(a);
        }
        at = lists.next(list, a);
    }
    None
}
