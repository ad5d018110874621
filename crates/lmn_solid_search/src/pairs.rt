//! Whether two parts are equal.
ghost use Rattle.std.specs.Prelude.{◌≡◌, ◌<◌, ◌↔◌, ◌+◌, ℕ, Bool, true, false, IfOk, OnOk, IsTrue, Some, length, slice_get};
ghost use Rattle.lmn_base.specs.Graphs.{SameGraph};
ghost use Rattle.lmn_store_heap.specs.Graphs.{atom_map};
ghost use Rattle.lmn_store_heap.specs.Heap.{IsAtom, arity_of, functor_of};
ghost use Rattle.lmn_store_heap.specs.Sound.{Valid};
ghost use Rattle.lmn_solid_tables.specs.Flats.{heap_of, port_by};
ghost use Rattle.lmn_solid_search.specs.Pairing.{Adds, AreTwins, Comparing, ComparingAt, HavePlaces, IsPair, Joins, SameLengths, Tells};

use crate::marks::Marks;
use crate::walk::{arity, is_same};
use lmn_base::{Functor, NoMemory, Rows};
use lmn_solid_tables::{Flat, Port};
use std::alloc::Global;

/// Pairs of atoms, with the number of the pair beside each atom.
#[derive(Drop)]
pub(crate) struct Pairs {
    lefts: Rows<usize>,
    rights: Rows<usize>,
    forth: Marks,
    back: Marks,
}

impl Pairs {
    /// No pairs, with room for numbers of so many atoms.
    pub(crate) fn new(alloc: Global, atoms: usize) -> Result<Pairs, NoMemory>
        ensures { IfOk result (λ pairs. (length pairs.forth ≡ atoms) × (length pairs.back ≡ atoms)) }
    {
        Ok(Pairs {
            lefts: Rows::new(alloc),
            rights: Rows::new(alloc),
            forth: Marks::new(alloc, atoms)?,
            back: Marks::new(alloc, atoms)?,
        })
    }

    /// The first pair alone.
    fn begin(&mut self, alloc: Global, left: usize, right: usize) -> Result<(), NoMemory>
        requires left { left < length self.old.forth }
        requires right { right < length self.old.back }
        ensures lengths { SameLengths self.old self.new }
        ensures twins { OnOk result (AreTwins self.new) }
        ensures first { OnOk result (IsPair self.new 0 left right) }
        ensures only { OnOk result ((n a b : ℕ) → IsPair self.new n a b → (a ≡ left) × (b ≡ right)) }
    {
        self.forth.clear();
        self.back.clear();
        self.lefts = Rows::new(alloc);
        self.rights = Rows::new(alloc);
        self.add(left, right)
    }

    /// Adds a pair.
    fn add(&mut self, left: usize, right: usize) -> Result<(), NoMemory>
        requires left { left < length self.old.forth }
        requires right { right < length self.old.back }
        ensures lengths { SameLengths self.old self.new }
        ensures added { OnOk result (Adds self.old left right self.new) }
    {
        let number = self.lefts.len();
        self.lefts.push(left)?;
        self.rights.push(right)?;
        self.forth.set(left, number);
        self.back.set(right, number);
        Ok(())
    }

    /// Makes two atoms a pair, unless they are one. It answers whether none of them is in another one.
    fn join(&mut self, left: usize, right: usize) -> Result<bool, NoMemory>
        requires left { left < length self.old.forth }
        requires right { right < length self.old.back }
        ensures lengths { SameLengths self.old self.new }
        ensures joined { IfOk result (λ made. AreTwins self.old → Joins self.old left right self.new made) }
    {
        match self.forth.at(left) {
            Some(number) => match self.back.at(right) {
                Some(other) => Ok(number == other),
                None => Ok(false),
            },
            None => match self.back.at(right) {
                Some(_) => Ok(false),
                None => {
                    self.add(left, right)?;
                    Ok(true)
                }
            },
        }
    }
}

/// Whether two functors are the same.
pub(crate) fn is_same_functor(left: Functor, right: Functor) -> bool
    ensures { IsTrue result ↔ (left ≡ right) }
{
    left == right
}

/// Compares two ports with the same index, of atoms in a pair: both are the roots, or they lead to atoms that can be a pair.
fn compare_ports(
    flat: &Flat,
    left: Port,
    right: Port,
    port: Port,
    other: Port,
    pairs: &mut Pairs,
) -> Result<bool, NoMemory>
    requires valid { Valid (heap_of flat.now) }
    requires port { port.index < arity_of (heap_of flat.now) port.atom }
    requires other { other.index < arity_of (heap_of flat.now) other.atom }
    requires places { HavePlaces (heap_of flat.now) pairs.old }
    ensures lengths { SameLengths pairs.old pairs.new }
    ensures compared { IfOk result (λ same. (k : ℕ) → port.index ≡ other.index → ComparingAt (heap_of flat.now) (port_by left) (port_by right) pairs.old k port.atom other.atom port.index →
        Tells same (ComparingAt (heap_of flat.now) (port_by left) (port_by right) pairs.new k port.atom other.atom (port.index + 1))
        (SameGraph (atom_map (heap_of flat.now)) (port_by left) (atom_map (heap_of flat.now)) (port_by right))) }
{
    if is_same(port, left) {
        return Ok(is_same(other, right));
    }
    if is_same(other, right) {
        return Ok(false);
    }
    let to = flat.other(port);
    let from = flat.other(other);
    if to.index != from.index {
        return Ok(false);
    }
    pairs.join(to.atom, from.atom)
}

/// Compares the atoms of a pair.
fn compare_atoms(
    flat: &Flat,
    left: Port,
    right: Port,
    atom: usize,
    other: usize,
    pairs: &mut Pairs,
) -> Result<bool, NoMemory>
    requires valid { Valid (heap_of flat.now) }
    requires atom { IsAtom (heap_of flat.now) atom }
    requires other { IsAtom (heap_of flat.now) other }
    requires places { HavePlaces (heap_of flat.now) pairs.old }
    ensures lengths { SameLengths pairs.old pairs.new }
    ensures compared { IfOk result (λ same. (k : ℕ) → IsPair pairs.old k atom other → Comparing (heap_of flat.now) (port_by left) (port_by right) pairs.old k →
        Tells same (Comparing (heap_of flat.now) (port_by left) (port_by right) pairs.new (k + 1))
        (SameGraph (atom_map (heap_of flat.now)) (port_by left) (atom_map (heap_of flat.now)) (port_by right))) }
{
    if !is_same_functor(flat.functor(atom), flat.functor(other)) {
        return Ok(false);
    }
    for index in 0..arity(flat, atom) {
        if !compare_ports(
            flat,
            left,
            right,
            Port { atom, index },
            Port { atom: other, index },
            pairs,
        )? {
            return Ok(false);
        }
    }
    Ok(true)
}

/// Whether two parts are equal as rooted graphs.
pub(crate) fn are_equal(
    alloc: Global,
    flat: &Flat,
    left: Port,
    right: Port,
    pairs: &mut Pairs,
) -> Result<bool, NoMemory>
    requires valid { Valid (heap_of flat.now) }
    requires left { IsAtom (heap_of flat.now) left.atom }
    requires right { IsAtom (heap_of flat.now) right.atom }
    requires places { HavePlaces (heap_of flat.now) pairs.old }
    ensures lengths { SameLengths pairs.old pairs.new }
    ensures equal { IfOk result (λ equal. IsTrue equal ↔ SameGraph (atom_map (heap_of flat.now)) (port_by left) (atom_map (heap_of flat.now)) (port_by right)) }
{
    if left.index != right.index {
        return Ok(false);
    }
    pairs.begin(alloc, left.atom, right.atom)?;
    let mut next = 0;
    while next < pairs.lefts.len() {
        let atom = *pairs.lefts.at(next);
        let other = *pairs.rights.at(next);
        if !compare_atoms(flat, left, right, atom, other, pairs)? {
            return Ok(false);
        }
        next += 1;
    }
    Ok(true)
}
