//! What is in a list is freed.
ghost use Rattle.std.specs.Prelude.{◌≡◌, ◌<◌, ◌≤◌, Option, length, []};
ghost use Rattle.std.specs.Option.{option_and_then};
ghost use Rattle.lmn_store_heap.specs.Heap.{HeapAtom, HeapMem, alter};
ghost use Rattle.lmn_store_slab.specs.Lines.{SameSize, list_at};
ghost use Rattle.lmn_store_slab.specs.Cells.{atoms_in_cells, mems_in_cells, place_by};
ghost use Rattle.lmn_store_slab.specs.Moves.{AtomsAreCounted, MemsAreCounted};
ghost use Rattle.lmn_store_counts.specs.Counts.{Removes};

use crate::Lists;
use crate::cell::{AtomCell, MemCell};
use crate::cells::{remove_atom, remove_mem};
use slab::Slab;

/// The atoms in a list are freed.
pub fn free_atoms(atoms: &mut Slab<AtomCell>, lists: &mut Lists, list: usize, count: &mut u64)
    requires list { list < length lists.old.lists }
    requires counted { AtomsAreCounted (atoms_in_cells atoms.old.slots) lists.old count.old }
    ensures counted { AtomsAreCounted (atoms_in_cells atoms.new.slots) lists.new count.new }
    ensures fewer { count.new ≤ count.old }
    ensures freed { (u : HeapAtom → Option HeapAtom) → Removes (λ x. x.place) u (place_by list) →
        atoms_in_cells atoms.new.slots ≡ (λ a. option_and_then u (atoms_in_cells atoms.old.slots a)) }
    ensures lists { list_at lists.new ≡ alter (list_at lists.old) list (λ _. []) }
    ensures sizes { SameSize lists.old lists.new }
{
    while let Some(a) = lists.first(list) {
        lists.unlink(list, a);
        remove_atom(atoms, a);
        *count -= 1;
    }
}

/// The membranes in a list are freed, with their rules.
pub fn free_mems(
    mems: &mut Slab<MemCell>,
    lists: &mut Lists,
    list: usize,
    count: &mut u64,
    spare: &mut u64,
)
    requires list { list < length lists.old.lists }
    requires counted { MemsAreCounted (mems_in_cells mems.old.slots) lists.old count.old spare.old }
    ensures counted { MemsAreCounted (mems_in_cells mems.new.slots) lists.new count.new spare.new }
    ensures fewer { count.new ≤ count.old }
    ensures less_spare { spare.new ≤ spare.old }
    ensures freed { (u : HeapMem → Option HeapMem) → Removes (λ x. x.place) u (place_by list) →
        mems_in_cells mems.new.slots ≡ (λ m. option_and_then u (mems_in_cells mems.old.slots m)) }
    ensures lists { list_at lists.new ≡ alter (list_at lists.old) list (λ _. []) }
    ensures sizes { SameSize lists.old lists.new }
{
    while let Some(m) = lists.first(list) {
        lists.unlink(list, m);
        let freed = remove_mem(mems, m);
        *count = *count - 1 - freed.0;
        *spare -= freed.1;
    }
}
