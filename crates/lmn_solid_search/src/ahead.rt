//! Whether a membrane has as many atoms with a functor as a head asks of it, seen before a search.
ghost use Rattle.std.specs.Prelude.{◌≡◌, ◌≤◌, ◌↔◌, ℕ, IsTrue, if◌then◌else◌, length};
ghost use Rattle.lmn_base.specs.Lists.{In};
ghost use Rattle.lmn_store_heap.specs.Functors.{with_functor};
ghost use Rattle.lmn_store_heap.specs.Heap.{IsAtom, IsMem};
ghost use Rattle.lmn_store_heap.specs.Sound.{Valid};
ghost use Rattle.lmn_solid_heads.specs.Heads.{atom_of, atoms_of};
ghost use Rattle.lmn_solid_tables.specs.Flats.{heap_of};
ghost use Rattle.lmn_solid_search.specs.Ahead.{HoldsItem, HoldsFunctors, asked_in};

use crate::pairs::is_same_functor;
use lmn_base::Functor;
use lmn_solid_heads::HeadItem;
use lmn_solid_tables::Flat;

/// Whether an item is an atom with a functor, in the membrane with this number.
fn asks(item: &HeadItem, number: usize, wanted: Functor) -> bool
    ensures { asked_in number wanted (atom_of item.now) ≡ (if result then 1 else 0) }
{
    match item {
        HeadItem::Atom {
            functor,
            inside,
            ..
        } => *inside as usize == number && is_same_functor(*functor, wanted),
        HeadItem::Typed { .. } => false,
        HeadItem::Membrane { .. } => false,
    }
}

/// How many items are.
fn count_asked(items: &[HeadItem], number: usize, functor: Functor) -> usize
    ensures { result ≡ asked_in number functor (atoms_of items.now) }
{
    let mut count = 0;
    for item in items {
        if asks(item, number, functor) {
            count += 1;
        }
    }
    count
}

/// Whether so many of these atoms have a functor.
fn are_enough(flat: &Flat, atoms: &[usize], functor: Functor, count: usize) -> bool
    requires { (a : ℕ) → In a atoms.now → IsAtom (heap_of flat.now) a }
    ensures { IsTrue result ↔ (count ≤ length (with_functor (heap_of flat.now) functor atoms.now)) }
{
    let mut missing = count;
    for atom in atoms {
        if missing == 0 {
            return true;
        }
        if is_same_functor(flat.functor(*atom), functor) {
            missing -= 1;
        }
    }
    missing == 0
}

/// Whether a membrane holds as many atoms with the functor of an item as the head asks for there, where that is an atom in the membrane with this number.
fn holds_item(
    flat: &Flat,
    number: usize,
    membrane: usize,
    items: &[HeadItem],
    item: &HeadItem,
) -> bool
    requires valid { Valid (heap_of flat.now) }
    requires membrane { IsMem (heap_of flat.now) membrane }
    ensures { IsTrue result ↔ HoldsItem (heap_of flat.now) number membrane items.now item.now }
{
    match item {
        HeadItem::Atom {
            functor,
            inside,
            ..
        } => {
            if *inside as usize != number {
                return true;
            }
            are_enough(
                flat,
                flat.atoms(membrane),
                *functor,
                count_asked(items, number, *functor),
            )
        }
        HeadItem::Typed { .. } => true,
        HeadItem::Membrane { .. } => true,
    }
}

/// Whether a membrane holds, for each functor of a head in the membrane with this number, as many atoms as the head has there.
/// One that doesn't is no image of that membrane.
pub(crate) fn holds_functors(
    flat: &Flat,
    number: usize,
    membrane: usize,
    items: &[HeadItem],
) -> bool
    requires valid { Valid (heap_of flat.now) }
    requires membrane { IsMem (heap_of flat.now) membrane }
    ensures { IsTrue result ↔ HoldsFunctors (heap_of flat.now) number membrane items.now }
{
    for item in items {
        if !holds_item(flat, number, membrane, items, item) {
            return false;
        }
    }
    true
}
