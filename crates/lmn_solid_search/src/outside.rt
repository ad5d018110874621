//! Whether links lead out of head membranes.
ghost use Rattle.std.specs.Prelude.{◌≡◌, ◌≢◌, ◌<◌, ◌≤◌, ◌↔◌, ◌++◌, ◌∷◌, [], ℕ, List, IfOk, IsTrue, Some, length, map};
ghost use Rattle.lmn_base.specs.Lists.{In};
ghost use Rattle.lmn_store_heap.specs.Heap.{IsAtom, IsMem, link_of};
ghost use Rattle.lmn_store_heap.specs.Sound.{Valid};
ghost use Rattle.lmn_solid_heads.specs.Embeddings.{StandsWithin};
ghost use Rattle.lmn_solid_heads.specs.Heads.{times};
ghost use Rattle.lmn_solid_tables.specs.Flats.{heap_of, port_by};
ghost use Rattle.std.specs.Prelude.{slice_get};
ghost use Rattle.lmn_solid_search.specs.declared.head.AtomItem.{AtomItem as Item};
ghost use Rattle.lmn_solid_search.specs.Placing.{AllLeadOut, ArePlaced, AtomLeadsOut, LeadsOut, LinkLeadsOut, inside_in, links_in, outermost_in, times_in};
ghost use Rattle.lmn_solid_search.specs.Walking.{AreBelow, HasMembranes};

use crate::below::below;
use crate::fits::partner;
use crate::head::{AtomItem, Head, MembraneItem, TypedItem};
use crate::marks::Marks;
use crate::placed::Placed;
use lmn_base::NoMemory;
use lmn_solid_tables::{Flat, Port};
use std::alloc::Global;

/// How often a link stands in a list, where it stands there at most twice.
pub fn count(links: &[u32], link: u32) -> usize
    requires { times link links.now ≤ 2 }
    ensures { result ≡ times link links.now }
{
    let mut found = 0;
    for other in links {
        if *other == link {
            found += 1;
        }
    }
    found
}

/// How often a link stands at atoms.
fn count_at_atoms(atoms: &[AtomItem], link: u32) -> usize
    requires { times link (links_in atoms.now) ≤ 2 }
    ensures { result ≡ times link (links_in atoms.now) }
{
    let mut found = 0;
    for atom in atoms {
        found += count(atom.links.as_slice(), link);
    }
    found
}

/// How often a link holds a typed context.
fn count_at_typed(typed: &[TypedItem], link: u32) -> usize
    requires { times link (map (λ t. t.link) typed.now) ≤ 2 }
    ensures { result ≡ times link (map (λ t. t.link) typed.now) }
{
    let mut found = 0;
    for context in typed {
        if context.link == link {
            found += 1;
        }
    }
    found
}

/// Whether a link stands once in a head.
fn stands_once(head: &Head, link: u32) -> bool
    requires { times_in link head.now ≤ 2 }
    ensures { IsTrue result ↔ (times_in link head.now ≡ 1) }
{
    let at_atoms = count_at_atoms(head.atoms.as_slice(), link);
    let at_typed = count_at_typed(head.typed.as_slice(), link);
    at_atoms + at_typed == 1
}

/// The membrane in which a membrane stands.
fn inside_of(membranes: &[MembraneItem], membrane: u16) -> u16
    ensures { result ≡ inside_in membranes.now membrane }
{
    if membrane == 0 {
        return 0;
    }
    let place = membrane as usize - 1;
    if place >= membranes.len() {
        return 0;
    }
    membranes[place].inside
}

/// The outermost head membrane round a membrane.
fn outermost_of(membranes: &[MembraneItem], membrane: u16) -> u16
    ensures { result ≡ outermost_in membranes.now membrane }
{
    let mut outer = membrane;
    for step in 0..membranes.len() {
        let around = inside_of(membranes, outer);
        if around == 0 {
            return outer;
        }
        outer = around;
    }
    outer
}

/// Whether a port isn't joined to an atom in membranes that are marked.
fn port_leads_out(flat: &Flat, seen: &Marks, port: Port) -> bool
    requires valid { Valid (heap_of flat.now) }
    requires atom { IsAtom (heap_of flat.now) port.atom }
    requires places { HasMembranes (heap_of flat.now) seen.now }
    ensures { (outer : ℕ) (membranes : List ℕ) → AreBelow (heap_of flat.now) (outer ∷ []) seen.now membranes →
        (IsTrue result ↔ ((p : ℕ × ℕ) → link_of (heap_of flat.now) port.atom port.index ≡ Some p → StandsWithin (heap_of flat.now) p.0 outer → ⊥)) }
{
    match partner(flat, port) {
        Some(end) => !seen.has(flat.home(end.atom)),
        None => true,
    }
}

/// Whether a port does so, where its link stands once in a head.
fn link_leads_out(flat: &Flat, head: &Head, seen: &Marks, link: u32, port: Port) -> bool
    requires valid { Valid (heap_of flat.now) }
    requires atom { IsAtom (heap_of flat.now) port.atom }
    requires few { times_in link head.now ≤ 2 }
    requires places { HasMembranes (heap_of flat.now) seen.now }
    ensures { (outer : ℕ) (membranes : List ℕ) → AreBelow (heap_of flat.now) (outer ∷ []) seen.now membranes →
        (IsTrue result ↔ LinkLeadsOut (heap_of flat.now) head.now link (port_by port) outer) }
{
    if !stands_once(head, link) {
        return true;
    }
    port_leads_out(flat, seen, port)
}

/// Whether each link of an atom that stands once in a head does so.
fn links_lead_out(flat: &Flat, head: &Head, seen: &Marks, links: &[u32], image: usize) -> bool
    requires valid { Valid (heap_of flat.now) }
    requires image { IsAtom (heap_of flat.now) image }
    requires few { (x : ℕ) → times_in x head.now ≤ 2 }
    requires places { HasMembranes (heap_of flat.now) seen.now }
    ensures { (outer : ℕ) (membranes : List ℕ) → AreBelow (heap_of flat.now) (outer ∷ []) seen.now membranes →
        (IsTrue result ↔ LeadsOut (heap_of flat.now) head.now links.now image outer) }
{
    for index in 0..links.len() {
        if !link_leads_out(flat, head, seen, links[index], Port { atom: image, index }) {
            return false;
        }
    }
    true
}

/// The same of an atom, where it stands inside head membranes.
fn atom_leads_out(
    alloc: Global,
    flat: &Flat,
    head: &Head,
    atom: &AtomItem,
    placed: &Placed,
    image: usize,
    seen: &mut Marks,
) -> Result<bool, NoMemory>
    requires valid { Valid (heap_of flat.now) }
    requires placed { ArePlaced (heap_of flat.now) placed.now }
    requires image { IsAtom (heap_of flat.now) image }
    requires outermost { outermost_in head.now.membranes atom.now.inside ≤ length placed.now.membranes }
    requires few { (x : ℕ) → times_in x head.now ≤ 2 }
    requires places { HasMembranes (heap_of flat.now) seen.old }
    ensures length { length seen.new ≡ length seen.old }
    ensures leads { IfOk result (λ leads. IsTrue leads ↔ AtomLeadsOut (heap_of flat.now) head.now atom.now image placed.now) }
{
    if atom.inside == 0 {
        return Ok(true);
    }
    let outer = placed.membrane(outermost_of(head.membranes.as_slice(), atom.inside) as usize);
    below(alloc, flat, &[outer], seen)?;
    Ok(links_lead_out(flat, head, seen, atom.links.as_slice(), image))
}

/// Whether each link that stands once in a head, at an atom inside head membranes, leads out of the outermost one.
pub(crate) fn all_lead_out(
    alloc: Global,
    flat: &Flat,
    head: &Head,
    placed: &Placed,
    seen: &mut Marks,
) -> Result<bool, NoMemory>
    requires valid { Valid (heap_of flat.now) }
    requires placed { ArePlaced (heap_of flat.now) placed.now }
    requires atoms { length placed.now.atoms ≡ length head.now.atoms }
    requires outermost { (n : ℕ) (a : Item) → slice_get head.now.atoms n ≡ Some a → outermost_in head.now.membranes a.inside ≤ length placed.now.membranes }
    requires few { (x : ℕ) → times_in x head.now ≤ 2 }
    requires places { HasMembranes (heap_of flat.now) seen.old }
    ensures length { length seen.new ≡ length seen.old }
    ensures all { IfOk result (λ all. IsTrue all ↔ AllLeadOut (heap_of flat.now) head.now placed.now) }
{
    for number in 0..head.atoms.len() {
        if !atom_leads_out(
            alloc,
            flat,
            head,
            head.atoms.at(number),
            placed,
            *placed.atoms.at(number),
            seen,
        )? {
            return Ok(false);
        }
    }
    Ok(true)
}
