//! Whether what is left of a membrane is closed.
ghost use Rattle.std.specs.Prelude.{◌≡◌, ◌<◌, ◌↔◌, ◌⊎◌, ◌∷◌, [], ℕ, List, Option, IfOk, OnOk, IsTrue, Some, length};
ghost use Rattle.lmn_base.specs.Lists.{In};
ghost use Rattle.lmn_store_heap.specs.Heap.{IsAtom, IsMem, atoms_in, home_of, link_of};
ghost use Rattle.lmn_store_heap.specs.Sound.{Valid};
ghost use Rattle.lmn_solid_tables.specs.Flats.{heap_of};
ghost use Rattle.lmn_solid_search.specs.Closing.{AreRest, IsClosedAt, IsRestAt, PortsStay};
ghost use Rattle.lmn_solid_search.specs.Walking.{HasMembranes, HasPlaces, IsMarked};

use crate::below::below;
use crate::filled::mark_all;
use crate::fits::partner;
use crate::marks::Marks;
use crate::walk::arity;
use crate::whole::has;
use lmn_base::{NoMemory, Rows};
use lmn_solid_tables::{Flat, Port};
use std::alloc::Global;

/// Adds a number that isn't in a list.
fn add_other(list: &mut Rows<usize>, others: &[usize], number: usize) -> Result<(), NoMemory>
    ensures { OnOk result ((a : ℕ) → In a list.new ↔ (In a list.old ⊎ ((number ≡ a) × (In a others.now → ⊥)))) }
{
    if has(others, number) {
        return Ok(());
    }
    list.push(number)
}

/// The numbers that aren't in another list.
fn others_of(alloc: Global, numbers: &[usize], others: &[usize]) -> Result<Rows<usize>, NoMemory>
    ensures { IfOk result (λ list. (a : ℕ) → In a list ↔ (In a numbers.now × (In a others.now → ⊥))) }
{
    let mut list = Rows::new(alloc);
    for number in numbers {
        add_other(&mut list, others, *number)?;
    }
    Ok(list)
}

/// Adds a number that isn't marked.
fn add_unmarked(list: &mut Rows<usize>, seen: &Marks, number: usize) -> Result<(), NoMemory>
    requires { number < length seen.now }
    ensures { OnOk result ((a : ℕ) → In a list.new ↔ (In a list.old ⊎ ((number ≡ a) × (IsMarked seen.now a → ⊥)))) }
{
    if seen.has(number) {
        return Ok(());
    }
    list.push(number)
}

/// The numbers that aren't marked.
fn unmarked_of(alloc: Global, numbers: &[usize], seen: &Marks) -> Result<Rows<usize>, NoMemory>
    requires { (a : ℕ) → In a numbers.now → a < length seen.now }
    ensures { IfOk result (λ list. (a : ℕ) → In a list ↔ (In a numbers.now × (IsMarked seen.now a → ⊥))) }
{
    let mut list = Rows::new(alloc);
    for number in numbers {
        add_unmarked(&mut list, seen, *number)?;
    }
    Ok(list)
}

/// Adds all of these numbers.
fn add_all(list: &mut Rows<usize>, numbers: &[usize]) -> Result<(), NoMemory>
    ensures { OnOk result ((a : ℕ) → In a list.new ↔ (In a list.old ⊎ In a numbers.now)) }
{
    for number in numbers {
        list.push(*number)?;
    }
    Ok(())
}

/// Adds the atoms of membranes.
fn add_atoms(flat: &Flat, membranes: &[usize], list: &mut Rows<usize>) -> Result<(), NoMemory>
    requires valid { Valid (heap_of flat.now) }
    requires membranes { (m : ℕ) → In m membranes.now → IsMem (heap_of flat.now) m }
    ensures { OnOk result ((a : ℕ) → In a list.new ↔ (In a list.old ⊎ ((m : ℕ) × In m membranes.now × In a (atoms_in (heap_of flat.now) m)))) }
{
    for membrane in membranes {
        add_all(list, flat.atoms(*membrane))?;
    }
    Ok(())
}

/// The atoms of the rest of a membrane, at every depth.
fn rest_of(
    alloc: Global,
    flat: &Flat,
    membrane: usize,
    images: &[usize],
    mine: &Marks,
    room: &mut Marks,
) -> Result<Rows<usize>, NoMemory>
    requires valid { Valid (heap_of flat.now) }
    requires membrane { IsMem (heap_of flat.now) membrane }
    requires mine { HasPlaces (heap_of flat.now) mine.now }
    requires places { HasMembranes (heap_of flat.now) room.old }
    ensures length { length room.new ≡ length room.old }
    ensures rest { IfOk result (AreRest (heap_of flat.now) membrane images.now mine.now) }
{
    let starts = others_of(alloc, flat.membranes(membrane), images)?;
    let inner = below(alloc, flat, starts.as_slice(), room)?;
    let mut rest = unmarked_of(alloc, flat.atoms(membrane), mine)?;
    add_atoms(flat, inner.as_slice(), &mut rest)?;
    Ok(rest)
}

/// Whether a port is joined to no atom but to one that is marked.
fn port_stays(flat: &Flat, within: &Marks, port: Port) -> bool
    requires valid { Valid (heap_of flat.now) }
    requires atom { IsAtom (heap_of flat.now) port.atom }
    requires places { HasPlaces (heap_of flat.now) within.now }
    ensures { IsTrue result ↔ ((p : ℕ × ℕ) → link_of (heap_of flat.now) port.atom port.index ≡ Some p → IsMarked within.now p.0) }
{
    match partner(flat, port) {
        Some(end) => within.has(end.atom),
        None => true,
    }
}

/// Whether each port of an atom is.
fn ports_stay(flat: &Flat, within: &Marks, atom: usize) -> bool
    requires valid { Valid (heap_of flat.now) }
    requires atom { IsAtom (heap_of flat.now) atom }
    requires places { HasPlaces (heap_of flat.now) within.now }
    ensures { IsTrue result ↔ PortsStay (heap_of flat.now) within.now atom }
{
    for index in 0..arity(flat, atom) {
        if !port_stays(flat, within, Port { atom, index }) {
            return false;
        }
    }
    true
}

/// Whether each port of each of these atoms is.
fn all_stay(flat: &Flat, within: &Marks, atoms: &[usize]) -> bool
    requires valid { Valid (heap_of flat.now) }
    requires atoms { (a : ℕ) → In a atoms.now → IsAtom (heap_of flat.now) a }
    requires places { HasPlaces (heap_of flat.now) within.now }
    ensures { IsTrue result ↔ ((a : ℕ) → In a atoms.now → PortsStay (heap_of flat.now) within.now a) }
{
    for atom in atoms {
        if !ports_stay(flat, within, *atom) {
            return false;
        }
    }
    true
}

/// Whether no link leaves the rest of a membrane.
pub(crate) fn is_closed(
    alloc: Global,
    flat: &Flat,
    membrane: usize,
    images: &[usize],
    mine: &Marks,
    room: &mut Marks,
    within: &mut Marks,
) -> Result<bool, NoMemory>
    requires valid { Valid (heap_of flat.now) }
    requires membrane { IsMem (heap_of flat.now) membrane }
    requires mine { HasPlaces (heap_of flat.now) mine.now }
    requires places { HasMembranes (heap_of flat.now) room.old }
    requires within { HasPlaces (heap_of flat.now) within.old }
    ensures length { length room.new ≡ length room.old }
    ensures within { length within.new ≡ length within.old }
    ensures closed { IfOk result (λ closed. IsTrue closed ↔ IsClosedAt (heap_of flat.now) membrane images.now mine.now) }
{
    let rest = rest_of(alloc, flat, membrane, images, mine, room)?;
    within.clear();
    mark_all(within, rest.as_slice());
    Ok(all_stay(flat, within, rest.as_slice()))
}
