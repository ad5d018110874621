//! Whether what is reached stands whole.
ghost use Rattle.std.specs.Prelude.{◌≡◌, ◌↔◌, ◌⊎◌, ℕ, List, Option, IsTrue};
ghost use Rattle.lmn_base.specs.Graphs.{Reached, StandsWhole};
ghost use Rattle.lmn_base.specs.Lists.{In};
ghost use Rattle.lmn_store_heap.specs.Graphs.{atom_map};
ghost use Rattle.lmn_store_heap.specs.Heap.{IsAtom, home_of};
ghost use Rattle.lmn_store_heap.specs.Sound.{Valid};
ghost use Rattle.lmn_solid_tables.specs.Flats.{heap_of};
ghost use Rattle.lmn_solid_search.specs.Walking.{IsGathered, StandsApart};

use lmn_solid_tables::Flat;

/// Whether a number is in a list.
pub(crate) fn has(list: &[usize], number: usize) -> bool
    ensures { IsTrue result ↔ In number list.now }
{
    for other in list {
        if *other == number {
            return true;
        }
    }
    false
}

/// Whether the part with these atoms stands whole in a membrane, and has no atom that is an image.
pub(crate) fn stands_apart(flat: &Flat, atoms: &[usize], home: usize, images: &[usize]) -> bool
    requires valid { Valid (heap_of flat.now) }
    requires atoms { (a : ℕ) → In a atoms.now → IsAtom (heap_of flat.now) a }
    ensures { (marks : List (Option ℕ)) (root : ℕ × ℕ) → IsGathered (heap_of flat.now) root marks atoms.now →
        (IsTrue result ↔ StandsApart (heap_of flat.now) root home images.now) }
{
    for atom in atoms {
        if flat.home(*atom) != home {
            return false;
        }
        if has(images, *atom) {
            return false;
        }
    }
    true
}
