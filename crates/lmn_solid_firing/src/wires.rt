//! The connectors of a head.
ghost use Rattle.std.specs.Prelude.{◌≡◌, ◌<◌, ◌≤◌, ◌+◌, ◌++◌, ℕ, List, IfOk, OnOk, Some, length, map, slice_get, slice_index_or};
ghost use Rattle.lmn_store_heap.specs.Heap.{IsAtom};
ghost use Rattle.lmn_solid_heads.specs.Heads.{HeadAtom, atoms_of, times, typed_contexts_of};
ghost use Rattle.lmn_solid_bodies.specs.Flattening.{membrane_named};
ghost use Rattle.lmn_solid_tables.specs.Flats.{heap_of, link_at};
ghost use Rattle.lmn_solid_firing.specs.Pieces.{ends_at, ends_from, links_at, wire, wires};

use crate::images::image;
use crate::numbers::{after, short, sum};
use lmn_base::{NoMemory, Rows};
use lmn_solid_heads::HeadItem;
use lmn_solid_search::count;
use lmn_solid_tables::{Flat, Port};
use std::alloc::Global;

/// The number of the link at a port, 0 where there is no such port.
fn link(flat: &Flat, port: Port) -> u64
    requires { IsAtom (heap_of flat.now) port.atom }
    ensures { result ≡ link_at flat.now port.atom port.index }
{
    if port.index < flat.arity(port.atom) {
        flat.link(port)
    } else {
        0
    }
}

/// Adds the links of an atom of a head, each with the number of that of the solid at the same port of its image.
fn add_ends(
    flat: &Flat,
    atom: usize,
    links: &[u32],
    ends: &mut Rows<(u32, u64)>,
) -> Result<(), NoMemory>
    requires { IsAtom (heap_of flat.now) atom }
    ensures { OnOk result (ends.new ≡ ends.old ++ ends_at flat.now atom 0 links.now) }
{
    for index in 0..links.len() {
        ends.push((links[index], link(flat, Port { atom, index })))?;
    }
    Ok(())
}

/// The links at the ports of the atoms of a head, each with the number of that of the solid.
fn ends_of(
    alloc: Global,
    flat: &Flat,
    items: &[HeadItem],
    images: &[usize],
) -> Result<Rows<(u32, u64)>, NoMemory>
    requires { (n : ℕ) → n < length (atoms_of items.now) → IsAtom (heap_of flat.now) (slice_index_or images.now n 0) }
    ensures { IfOk result (λ ends. ends ≡ ends_from flat.now images.now 0 (atoms_of items.now)) }
{
    let mut ends = Rows::new(alloc);
    let mut number = 0;
    for item in items {
        match item {
            HeadItem::Atom { links, .. } => {
                add_ends(flat, image(images, number), links.as_slice(), &mut ends)?;
                number = after(number)?;
            }
            HeadItem::Typed { .. } => {}
            HeadItem::Membrane { .. } => {}
        }
    }
    Ok(ends)
}

/// The links that hold typed contexts.
fn typed_links(alloc: Global, items: &[HeadItem]) -> Result<Rows<u32>, NoMemory>
    ensures { IfOk result (λ links. links ≡ map (λ t. t.link) (typed_contexts_of items.now)) }
{
    let mut links = Rows::new(alloc);
    for item in items {
        match item {
            HeadItem::Atom { .. } => {}
            HeadItem::Typed { link, .. } => links.push(*link)?,
            HeadItem::Membrane { .. } => {}
        }
    }
    Ok(links)
}

/// How often a link stands at the ends.
fn count_at_ends(ends: &[(u32, u64)], link: u32) -> usize
    requires { times link (links_at ends.now) ≤ 2 }
    ensures { result ≡ times link (links_at ends.now) }
{
    let mut found = 0;
    for end in ends {
        if end.0 == link {
            found += 1;
        }
    }
    found
}

/// The number of a link of the solid by that of the head, or 0.
fn number_of(ends: &[(u32, u64)], link: u32) -> u64
    ensures { result ≡ membrane_named ends.now link }
{
    for end in ends {
        if end.0 == link {
            return end.1;
        }
    }
    0
}

/// Adds the connector of a link that stands once in the head.
fn add_wire(
    first: u64,
    ends: &[(u32, u64)],
    typed: &[u32],
    link: u32,
    connectors: &mut Rows<(u32, u32)>,
) -> Result<(), NoMemory>
    requires { times link (links_at ends.now) + times link typed.now ≤ 2 }
    ensures { OnOk result (connectors.new ≡ connectors.old ++ wire first ends.now typed.now link) }
{
    if count_at_ends(ends, link) + count(typed, link) == 1 {
        connectors.push((sum(first, link as u64)?, short(number_of(ends, link))?))?;
    }
    Ok(())
}

/// Adds the connectors of a head of which a rule has so many links: those of the links of the head have numbers from `first` on.
pub(crate) fn add_wires(
    alloc: Global,
    flat: &Flat,
    items: &[HeadItem],
    images: &[usize],
    first: u64,
    links: usize,
    connectors: &mut Rows<(u32, u32)>,
) -> Result<(), NoMemory>
    requires images { (n : ℕ) → n < length (atoms_of items.now) → IsAtom (heap_of flat.now) (slice_index_or images.now n 0) }
    requires twice { (x : ℕ) → times x (links_at (ends_from flat.now images.now 0 (atoms_of items.now))) + times x (map (λ t. t.link) (typed_contexts_of items.now)) ≤ 2 }
    ensures { OnOk result (connectors.new ≡ connectors.old ++ wires first (ends_from flat.now images.now 0 (atoms_of items.now)) (map (λ t. t.link) (typed_contexts_of items.now)) links) }
{
    let ends = ends_of(alloc, flat, items, images)?;
    let typed = typed_links(alloc, items)?;
    for link in (0..links).rev() {
        add_wire(
            first,
            ends.as_slice(),
            typed.as_slice(),
            short(link as u64)?,
            connectors,
        )?;
    }
    Ok(())
}
