//! What is reached through a port.
ghost use Rattle.std.specs.Prelude.{◌≡◌, ◌<◌, ◌↔◌, ◌+◌, ℕ, IfOk, OnOk, IsTrue, Some, length, slice_get};
ghost use Rattle.lmn_store_heap.specs.Heap.{IsAtom, arity_of};
ghost use Rattle.lmn_store_heap.specs.Sound.{Valid};
ghost use Rattle.lmn_solid_tables.specs.Flats.{heap_of, port_by};
ghost use Rattle.lmn_solid_search.specs.Walking.{Gathering, GatheringAt, HasPlaces, IsGathered, Notes};

use crate::marks::Marks;
use lmn_base::{NoMemory, Rows};
use lmn_solid_tables::{Flat, Port};
use std::alloc::Global;

/// Whether two ports are the same.
pub(crate) fn is_same(left: Port, right: Port) -> bool
    ensures { IsTrue result ↔ (port_by left ≡ port_by right) }
{
    left.atom == right.atom && left.index == right.index
}

/// Adds a number to a list, unless it is in it. The marks tell what is.
pub(crate) fn note(seen: &mut Marks, list: &mut Rows<usize>, number: usize) -> Result<(), NoMemory>
    requires { number < length seen.old }
    ensures length { length seen.new ≡ length seen.old }
    ensures noted { OnOk result (Notes seen.old list.old number seen.new list.new) }
{
    if seen.has(number) {
        return Ok(());
    }
    list.push(number)?;
    seen.set(number, 0);
    Ok(())
}

/// Goes on by a port, unless it is the entry.
fn follow(
    flat: &Flat,
    entry: Port,
    port: Port,
    seen: &mut Marks,
    list: &mut Rows<usize>,
) -> Result<(), NoMemory>
    requires valid { Valid (heap_of flat.now) }
    requires port { port.index < arity_of (heap_of flat.now) port.atom }
    requires places { HasPlaces (heap_of flat.now) seen.old }
    ensures length { length seen.new ≡ length seen.old }
    ensures on { (k : ℕ) → GatheringAt (heap_of flat.now) (port_by entry) seen.old list.old k port.atom port.index →
        OnOk result (GatheringAt (heap_of flat.now) (port_by entry) seen.new list.new k port.atom (port.index + 1)) }
{
    if is_same(port, entry) {
        return Ok(());
    }
    note(seen, list, flat.other(port).atom)
}

/// How many ports an atom has.
pub(crate) fn arity(flat: &Flat, atom: usize) -> usize
    requires valid { Valid (heap_of flat.now) }
    requires atom { IsAtom (heap_of flat.now) atom }
    ensures { result ≡ arity_of (heap_of flat.now) atom }
{
    flat.functor(atom).arity as usize
}

/// Goes on by each port of an atom.
fn follow_all(
    flat: &Flat,
    entry: Port,
    atom: usize,
    seen: &mut Marks,
    list: &mut Rows<usize>,
) -> Result<(), NoMemory>
    requires valid { Valid (heap_of flat.now) }
    requires atom { IsAtom (heap_of flat.now) atom }
    requires places { HasPlaces (heap_of flat.now) seen.old }
    ensures length { length seen.new ≡ length seen.old }
    ensures on { (k : ℕ) → slice_get list.old k ≡ Some atom → Gathering (heap_of flat.now) (port_by entry) seen.old list.old k →
        OnOk result (Gathering (heap_of flat.now) (port_by entry) seen.new list.new (k + 1)) }
{
    for index in 0..arity(flat, atom) {
        follow(flat, entry, Port { atom, index }, seen, list)?;
    }
    Ok(())
}

/// The atoms of the part that is entered at a port, each once. They alone are marked.
pub(crate) fn reach(
    alloc: Global,
    flat: &Flat,
    entry: Port,
    seen: &mut Marks,
) -> Result<Rows<usize>, NoMemory>
    requires valid { Valid (heap_of flat.now) }
    requires entry { IsAtom (heap_of flat.now) entry.atom }
    requires places { HasPlaces (heap_of flat.now) seen.old }
    ensures length { length seen.new ≡ length seen.old }
    ensures all { IfOk result (λ atoms. IsGathered (heap_of flat.now) (port_by entry) seen.new atoms) }
{
    seen.clear();
    let mut list = Rows::new(alloc);
    note(seen, &mut list, entry.atom)?;
    let mut next = 0;
    while next < list.len() {
        let atom = *list.at(next);
        follow_all(flat, entry, atom, seen, &mut list)?;
        next += 1;
    }
    Ok(list)
}
