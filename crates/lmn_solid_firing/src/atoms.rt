//! Atoms of the solid, their links written.
ghost use Rattle.std.specs.Prelude.{◌≡◌, ◌++◌, ◌∷◌, [], ℕ, IfOk, OnOk};
ghost use Rattle.lmn_base.specs.Lists.{In};
ghost use Rattle.lmn_store_heap.specs.Heap.{IsAtom};
ghost use Rattle.lmn_store_heap.specs.Sound.{Valid};
ghost use Rattle.lmn_ground_parts.specs.Walks.{is_in};
ghost use Rattle.lmn_solid_tables.specs.Flats.{heap_of};
ghost use Rattle.lmn_solid_firing.specs.Making.{left_of, written_atoms};

use crate::writing::Writing;
use lmn_base::{NoMemory, Rows, SolidAtom};
use lmn_solid_tables::{Flat, Port};
use std::alloc::Global;

/// An atom, its links written.
fn written_atom(
    alloc: Global,
    flat: &Flat,
    atom: usize,
    writing: &Writing,
) -> Result<SolidAtom, NoMemory>
    requires valid { Valid (heap_of flat.now) }
    requires atom { IsAtom (heap_of flat.now) atom }
    ensures { IfOk result (λ made. written_atoms flat.now writing.now (atom ∷ []) ≡ made ∷ []) }
{
    let functor = flat.functor(atom);
    let mut links = Rows::new(alloc);
    for index in 0..functor.arity as usize {
        links.push(writing.link(flat.link(Port { atom, index }))?)?;
    }
    Ok(SolidAtom { functor, links })
}

/// Adds an atom.
fn add_atom(
    alloc: Global,
    flat: &Flat,
    atom: usize,
    writing: &Writing,
    atoms: &mut Rows<SolidAtom>,
) -> Result<(), NoMemory>
    requires valid { Valid (heap_of flat.now) }
    requires atom { IsAtom (heap_of flat.now) atom }
    ensures { OnOk result (atoms.new ≡ atoms.old ++ written_atoms flat.now writing.now (atom ∷ [])) }
{
    atoms.push(written_atom(alloc, flat, atom, writing)?)?;
    Ok(())
}

/// Adds atoms, in their order.
pub(crate) fn add_atoms(
    alloc: Global,
    flat: &Flat,
    numbers: &[usize],
    writing: &Writing,
    atoms: &mut Rows<SolidAtom>,
) -> Result<(), NoMemory>
    requires valid { Valid (heap_of flat.now) }
    requires numbers { (a : ℕ) → In a numbers.now → IsAtom (heap_of flat.now) a }
    ensures { OnOk result (atoms.new ≡ atoms.old ++ written_atoms flat.now writing.now numbers.now) }
{
    for atom in numbers {
        add_atom(alloc, flat, *atom, writing, atoms)?;
    }
    Ok(())
}

/// Whether a number is in a list.
fn has(numbers: &[usize], number: usize) -> bool
    ensures { result ≡ is_in numbers.now number }
{
    for other in numbers {
        if *other == number {
            return true;
        }
    }
    false
}

/// The numbers of a list that aren't in another one, in their order.
pub(crate) fn left(
    alloc: Global,
    taken: &[usize],
    numbers: &[usize],
) -> Result<Rows<usize>, NoMemory>
    ensures { IfOk result (λ rows. rows ≡ left_of taken.now numbers.now) }
{
    let mut rows = Rows::new(alloc);
    for number in numbers {
        if !has(taken, *number) {
            rows.push(*number)?;
        }
    }
    Ok(rows)
}
