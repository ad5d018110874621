//! The parts of the typed contexts of a head.
ghost use Rattle.std.specs.Prelude.{◌≡◌, ◌<◌, ◌≤◌, ◌↔◌, ◌⊎◌, ℕ, List, Option, IfOk, IfSome, IsTrue, MatchOption, None, Some, length, slice_get, slice_index_or};
ghost use Rattle.lmn_base.specs.Graphs.{Port as PortOf};
ghost use Rattle.lmn_base.specs.Lists.{In};
ghost use Rattle.lmn_store_heap.specs.Heap.{IsAtom, link_of};
ghost use Rattle.lmn_store_heap.specs.Sound.{Valid};
ghost use Rattle.lmn_solid_tables.specs.Flats.{heap_of, port_by};
ghost use Rattle.lmn_solid_search.specs.declared.head.AtomItem.{AtomItem as Item};
ghost use Rattle.lmn_solid_search.specs.Parting.{AllHold, AreTaken, AtomsAre, HoldsAt, IsEntry, IsPart, IsTaken, LeadsTo, TellMine};
ghost use Rattle.lmn_solid_search.specs.Placing.{ArePlaced};
ghost use Rattle.lmn_solid_search.specs.Taking.{StandsAt};
ghost use Rattle.lmn_solid_search.specs.declared.head.TypedItem.{TypedItem as Typed};
ghost use Rattle.lmn_solid_search.specs.declared.parts.Part.{Part as PartOf};
ghost use Rattle.lmn_solid_search.specs.Walking.{HasPlaces, IsMarked, StandsApart};

use crate::filled::mark_all;
use crate::fits::{leads, partner};
use crate::head::{AtomItem, Head, TypedItem};
use crate::known::is_of_kind;
use crate::marks::Marks;
use crate::placed::Placed;
use crate::walk::reach;
use crate::whole::stands_apart;
use lmn_base::{NoMemory, Rows};
use lmn_solid_tables::{Flat, Port};
use std::alloc::Global;

/// What a typed context stands for.
#[derive(Drop)]
pub(crate) struct Part {
    /// The port at which it is entered.
    pub entry: Port,
    /// Its atoms, each once.
    pub atoms: Rows<usize>,
}

/// Whether a port is joined to another one, where the link at it is this.
fn holds_if(flat: &Flat, link: u32, at: u32, port: Port, entry: Port) -> bool
    requires valid { Valid (heap_of flat.now) }
    requires atom { IsAtom (heap_of flat.now) port.atom }
    ensures { IsTrue result ↔ (at ≡ link → link_of (heap_of flat.now) port.atom port.index ≡ Some (port_by entry)) }
{
    if at != link {
        return true;
    }
    leads(flat, port, entry)
}

/// Whether each port of an atom at which a link stands is joined to a port.
fn holds_at(flat: &Flat, links: &[u32], link: u32, image: usize, entry: Port) -> bool
    requires valid { Valid (heap_of flat.now) }
    requires atom { IsAtom (heap_of flat.now) image }
    ensures { IsTrue result ↔ HoldsAt (heap_of flat.now) links.now link image (port_by entry) }
{
    for index in 0..links.len() {
        if !holds_if(flat, link, links[index], Port { atom: image, index }, entry) {
            return false;
        }
    }
    true
}

/// Whether the ports of all atoms are.
fn all_hold(flat: &Flat, atoms: &[AtomItem], images: &[usize], link: u32, entry: Port) -> bool
    requires valid { Valid (heap_of flat.now) }
    requires images { (a : ℕ) → In a images.now → IsAtom (heap_of flat.now) a }
    requires all { length images.now ≡ length atoms.now }
    ensures { IsTrue result ↔ AllHold (heap_of flat.now) atoms.now images.now link (port_by entry) }
{
    for number in 0..atoms.len() {
        if !holds_at(
            flat,
            atoms[number].links.as_slice(),
            link,
            images[number],
            entry,
        ) {
            return false;
        }
    }
    true
}

/// The port to which a port of an atom is joined at which a link stands.
pub(crate) fn entry_at(flat: &Flat, links: &[u32], link: u32, image: usize) -> Option<Port>
    requires valid { Valid (heap_of flat.now) }
    requires atom { IsAtom (heap_of flat.now) image }
    ensures some { IfSome result (λ entry. LeadsTo (heap_of flat.now) links.now link image (port_by entry)) }
    ensures none { result ≡ None → (q : PortOf) → LeadsTo (heap_of flat.now) links.now link image q → ⊥ }
{
    for index in 0..links.len() {
        if links[index] == link {
            match partner(flat, Port { atom: image, index }) {
                Some(entry) => return Some(entry),
                None => {}
            }
        }
    }
    None
}

/// The same of all atoms.
fn entry_of(flat: &Flat, atoms: &[AtomItem], images: &[usize], link: u32) -> Option<Port>
    requires valid { Valid (heap_of flat.now) }
    requires images { (a : ℕ) → In a images.now → IsAtom (heap_of flat.now) a }
    requires all { length images.now ≡ length atoms.now }
    ensures some { IfSome result (λ entry. (n : ℕ) × (a : Item) × (slice_get atoms.now n ≡ Some a) × LeadsTo (heap_of flat.now) a.links link (slice_index_or images.now n 0) (port_by entry)) }
    ensures none { result ≡ None → (n : ℕ) (a : Item) → slice_get atoms.now n ≡ Some a → (q : PortOf) → LeadsTo (heap_of flat.now) a.links link (slice_index_or images.now n 0) q → ⊥ }
{
    for number in 0..atoms.len() {
        match entry_at(flat, atoms[number].links.as_slice(), link, images[number]) {
            Some(entry) => return Some(entry),
            None => {}
        }
    }
    None
}

/// Whether a port is the entry of a part of the kind of a typed context.
fn is_entry(flat: &Flat, head: &Head, placed: &Placed, item: &TypedItem, entry: Port) -> bool
    requires valid { Valid (heap_of flat.now) }
    requires placed { ArePlaced (heap_of flat.now) placed.now }
    requires all { length placed.now.atoms ≡ length head.now.atoms }
    requires entry { IsAtom (heap_of flat.now) entry.atom }
    ensures { IsTrue result ↔ IsEntry (heap_of flat.now) head.now.atoms placed.now.atoms item.now (port_by entry) }
{
    if !all_hold(
        flat,
        head.atoms.as_slice(),
        placed.atoms.as_slice(),
        item.link,
        entry,
    ) {
        return false;
    }
    is_of_kind(flat, item.kind, entry)
}

/// The part that is entered at a port, where it stands whole and has no image.
fn part_at(
    alloc: Global,
    flat: &Flat,
    placed: &Placed,
    home: usize,
    entry: Port,
    seen: &mut Marks,
) -> Result<Option<Part>, NoMemory>
    requires valid { Valid (heap_of flat.now) }
    requires entry { IsAtom (heap_of flat.now) entry.atom }
    requires places { HasPlaces (heap_of flat.now) seen.old }
    ensures length { length seen.new ≡ length seen.old }
    ensures some { IfOk result (λ o. IfSome o (λ part. StandsApart (heap_of flat.now) (port_by entry) home placed.now.atoms × (part.entry ≡ entry) × AtomsAre (heap_of flat.now) part)) }
    ensures none { IfOk result (λ o. o ≡ None → StandsApart (heap_of flat.now) (port_by entry) home placed.now.atoms → ⊥) }
{
    let atoms = reach(alloc, flat, entry, seen)?;
    if !stands_apart(flat, atoms.as_slice(), home, placed.atoms.as_slice()) {
        return Ok(None);
    }
    Ok(Some(Part { entry, atoms }))
}

/// What a typed context stands for, if anything.
fn take_part(
    alloc: Global,
    flat: &Flat,
    head: &Head,
    placed: &Placed,
    item: &TypedItem,
    seen: &mut Marks,
) -> Result<Option<Part>, NoMemory>
    requires valid { Valid (heap_of flat.now) }
    requires placed { ArePlaced (heap_of flat.now) placed.now }
    requires all { length placed.now.atoms ≡ length head.now.atoms }
    requires inside { item.now.inside ≤ length placed.now.membranes }
    requires held { (p : PortOf) × StandsAt head.now.atoms item.now.link p }
    requires places { HasPlaces (heap_of flat.now) seen.old }
    ensures length { length seen.new ≡ length seen.old }
    ensures some { IfOk result (λ o. IfSome o (IsTaken (heap_of flat.now) head.now.atoms placed.now item.now)) }
    ensures none { IfOk result (λ o. o ≡ None → (q : PortOf) → IsPart (heap_of flat.now) head.now.atoms placed.now item.now q → ⊥) }
{
    match entry_of(
        flat,
        head.atoms.as_slice(),
        placed.atoms.as_slice(),
        item.link,
    ) {
        Some(entry) => {
            if !is_entry(flat, head, placed, item, entry) {
                return Ok(None);
            }
            part_at(
                alloc,
                flat,
                placed,
                placed.membrane(item.inside as usize),
                entry,
                seen,
            )
        }
        None => Ok(None),
    }
}

/// What the typed contexts of a head stand for, if each stands for a part.
pub(crate) fn take_parts(
    alloc: Global,
    flat: &Flat,
    head: &Head,
    placed: &Placed,
    seen: &mut Marks,
) -> Result<Option<Rows<Part>>, NoMemory>
    requires valid { Valid (heap_of flat.now) }
    requires placed { ArePlaced (heap_of flat.now) placed.now }
    requires all { length placed.now.atoms ≡ length head.now.atoms }
    requires inside { (n : ℕ) (t : Typed) → slice_get head.now.typed n ≡ Some t → t.inside ≤ length placed.now.membranes }
    requires held { (n : ℕ) (t : Typed) → slice_get head.now.typed n ≡ Some t → (p : PortOf) × StandsAt head.now.atoms t.link p }
    requires places { HasPlaces (heap_of flat.now) seen.old }
    ensures length { length seen.new ≡ length seen.old }
    ensures some { IfOk result (λ o. IfSome o (λ parts. AreTaken (heap_of flat.now) head.now.atoms placed.now head.now.typed parts (length head.now.typed))) }
    ensures none { IfOk result (λ o. o ≡ None → (qs : ℕ → PortOf) → ((n : ℕ) (t : Typed) → slice_get head.now.typed n ≡ Some t → IsPart (heap_of flat.now) head.now.atoms placed.now t (qs n)) → ⊥) }
{
    let mut parts = Rows::new(alloc);
    for number in 0..head.typed.len() {
        match take_part(alloc, flat, head, placed, head.typed.at(number), seen)? {
            Some(part) => parts.push(part)?,
            None => return Ok(None),
        }
    }
    Ok(Some(parts))
}

/// Marks the atoms of a part, where its context is written in a membrane.
fn mark_part(seen: &mut Marks, inside: usize, part: &Part, membrane: usize)
    requires { (a : ℕ) → In a part.now.atoms → a < length seen.old }
    ensures length { length seen.new ≡ length seen.old }
    ensures marked { (a : ℕ) → IsMarked seen.new a ↔ (IsMarked seen.old a ⊎ ((inside ≡ membrane) × In a part.now.atoms)) }
{
    if inside == membrane {
        mark_all(seen, part.atoms.as_slice());
    }
}

/// Marks the images of atoms, and the atoms of the parts that are written in a membrane.
pub(crate) fn mark_mine(
    seen: &mut Marks,
    images: &[usize],
    typed: &[TypedItem],
    parts: &[Part],
    membrane: usize,
)
    requires images { (a : ℕ) → In a images.now → a < length seen.old }
    requires parts { (n a : ℕ) (part : PartOf) → slice_get parts.now n ≡ Some part → In a part.atoms → a < length seen.old }
    requires all { length parts.now ≡ length typed.now }
    ensures length { length seen.new ≡ length seen.old }
    ensures mine { TellMine images.now typed.now parts.now membrane (length typed.now) seen.new }
{
    seen.clear();
    mark_all(seen, images);
    for number in 0..typed.len() {
        let item = &typed[number];
        mark_part(seen, item.inside as usize, &parts[number], membrane);
    }
}
