//! The parts of the typed contexts of a head.
ghost use Rattle.std.specs.Prelude.{◌≡◌, ◌+◌, ◌<◌, ◌++◌, ℕ, IfOk, OnOk, flat_map, length, map};
ghost use Rattle.lmn_store_heap.specs.Heap.{arity_of};
ghost use Rattle.lmn_store_heap.specs.Sound.{Valid};
ghost use Rattle.lmn_solid_heads.specs.Heads.{typed_contexts_of};
ghost use Rattle.lmn_solid_tables.specs.Flats.{heap_of, port_by};
ghost use Rattle.lmn_solid_search.specs.Finding.{port_at};
ghost use Rattle.lmn_solid_firing.specs.Matched.{IsPartAt};
ghost use Rattle.lmn_solid_firing.specs.Pieces.{AreParts, Before, IsPort};

use crate::Part;
use crate::images::entry;
use crate::names::typed_names;
use crate::numbers::after;
use crate::walk::in_depth;
use lmn_base::{NoMemory, Rows};
use lmn_solid_heads::HeadItem;
use lmn_solid_tables::{Flat, Port};
use std::alloc::Global;

/// The part that is entered at a port. Its atoms are marked with the number of the round.
fn part_at(
    alloc: Global,
    flat: &Flat,
    name: u32,
    root: Port,
    round: usize,
    marks: &mut [usize],
) -> Result<Part, NoMemory>
    requires valid { Valid (heap_of flat.now) }
    requires root { IsPort (heap_of flat.now) root }
    requires before { Before (heap_of flat.now) round marks.old }
    ensures marks { OnOk result (Before (heap_of flat.now) (round + 1) marks.new) }
    ensures name { IfOk result (λ part. part.name ≡ name) }
    ensures part { IfOk result (IsPartAt flat.now (port_by root)) }
{
    let atoms = in_depth(alloc, flat, root, round, marks)?;
    Ok(Part {
        name,
        link: flat.link(root),
        atoms,
    })
}

/// The parts of typed contexts with these names, which are entered at these ports.
fn parts_named(
    alloc: Global,
    flat: &Flat,
    names: &[u32],
    ports: &[Port],
) -> Result<Rows<Part>, NoMemory>
    requires valid { Valid (heap_of flat.now) }
    requires ports { (g : ℕ) → g < length names.now → (port_at ports.now g).1 < arity_of (heap_of flat.now) (port_at ports.now g).0 }
    ensures { IfOk result (AreParts flat.now (port_at ports.now) 0 names.now) }
{
    let mut parts = Rows::new(alloc);
    // Most heads have none, and need no table of all atoms.
    if names.is_empty() {
        return Ok(parts);
    }
    let mut marks = vec![in alloc; 0; flat.atom_count()]?;
    for (number, name) in names.iter().enumerate() {
        let round = after(number)?;
        parts.push(part_at(
            alloc,
            flat,
            *name,
            entry(ports, number),
            round,
            marks.as_mut_slice(),
        )?)?;
    }
    Ok(parts)
}

/// The parts of the typed contexts of a head, which are entered at these ports.
pub(crate) fn parts_of(
    alloc: Global,
    flat: &Flat,
    items: &[HeadItem],
    ports: &[Port],
) -> Result<Rows<Part>, NoMemory>
    requires valid { Valid (heap_of flat.now) }
    requires ports { (g : ℕ) → g < length (map (λ t. t.name) (typed_contexts_of items.now)) → (port_at ports.now g).1 < arity_of (heap_of flat.now) (port_at ports.now g).0 }
    ensures { IfOk result (AreParts flat.now (port_at ports.now) 0 (map (λ t. t.name) (typed_contexts_of items.now))) }
{
    let names = typed_names(alloc, items)?;
    parts_named(alloc, flat, names.as_slice(), ports)
}

/// Adds the atoms of parts.
pub(crate) fn add_atoms(parts: &[Part], atoms: &mut Rows<usize>) -> Result<(), NoMemory>
    ensures { OnOk result (atoms.new ≡ atoms.old ++ flat_map (λ p. p.atoms) parts.now) }
{
    for part in parts {
        atoms.add_all(part.atoms.as_slice())?;
    }
    Ok(())
}
