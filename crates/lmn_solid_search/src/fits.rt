//! Whether the links of an atom lead to those of earlier ones as the head says.
ghost use Rattle.std.specs.Prelude.{◌≡◌, ◌≢◌, ◌<◌, ◌≤◌, ◌↔◌, ℕ, IfSome, IsTrue, None, Some, length, slice_get};
ghost use Rattle.std.specs.Option.{option_map};
ghost use Rattle.lmn_base.specs.Lists.{In};
ghost use Rattle.lmn_store_heap.specs.Heap.{IsAtom, link_of};
ghost use Rattle.lmn_store_heap.specs.Sound.{Valid};
ghost use Rattle.lmn_solid_tables.specs.Flats.{heap_of, port_by};
ghost use Rattle.lmn_solid_search.specs.Taking.{LinksFit, LinksFitTo, PortFits, PortFitsTo};

use crate::head::AtomItem;
use crate::walk::{arity, is_same};
use lmn_solid_tables::{Flat, Port};

/// The port to which a port is joined, if there is such a port.
pub(crate) fn partner(flat: &Flat, port: Port) -> Option<Port>
    requires valid { Valid (heap_of flat.now) }
    requires atom { IsAtom (heap_of flat.now) port.atom }
    ensures { link_of (heap_of flat.now) port.atom port.index ≡ option_map port_by result }
{
    if port.index < arity(flat, port.atom) {
        Some(flat.other(port))
    } else {
        None
    }
}

/// Whether a port is joined to another one.
pub(crate) fn leads(flat: &Flat, port: Port, to: Port) -> bool
    requires valid { Valid (heap_of flat.now) }
    requires atom { IsAtom (heap_of flat.now) port.atom }
    ensures { IsTrue result ↔ (link_of (heap_of flat.now) port.atom port.index ≡ Some (port_by to)) }
{
    match partner(flat, port) {
        Some(end) => is_same(end, to),
        None => false,
    }
}

/// Whether a port is joined to each port of an atom at which the link stands, but to the one where it stands itself.
fn leads_to_all(
    flat: &Flat,
    port: Port,
    place: Port,
    link: u32,
    number: usize,
    links: &[u32],
    image: usize,
) -> bool
    requires valid { Valid (heap_of flat.now) }
    requires atom { IsAtom (heap_of flat.now) port.atom }
    ensures { IsTrue result ↔ ((j : ℕ) → slice_get links.now j ≡ Some link → (number, j) ≢ port_by place → link_of (heap_of flat.now) port.atom port.index ≡ Some (image, j)) }
{
    for j in 0..links.len() {
        if links[j] == link
            && !is_same(
                Port {
                    atom: number,
                    index: j,
                },
                place,
            )
        {
            if !leads(
                flat,
                port,
                Port {
                    atom: image,
                    index: j,
                },
            ) {
                return false;
            }
        }
    }
    true
}

/// The number of the first atom with an image that has a port at which a link stands, and to which a port isn't joined at which
/// the link stands too.
fn port_misfit(
    flat: &Flat,
    atoms: &[AtomItem],
    images: &[usize],
    place: Port,
    link: u32,
) -> Option<usize>
    requires valid { Valid (heap_of flat.now) }
    requires images { (a : ℕ) → In a images.now → IsAtom (heap_of flat.now) a }
    requires few { length images.now ≤ length atoms.now }
    requires place { place.atom < length images.now }
    ensures none { result ≡ None → PortFits (heap_of flat.now) atoms.now images.now (port_by place) link }
    ensures some { IfSome result (λ m. (m < length images.now) × (PortFitsTo (heap_of flat.now) atoms.now images.now (port_by place) link m → ⊥)) }
{
    let port = Port {
        atom: images[place.atom],
        index: place.index,
    };
    for number in 0..images.len() {
        if !leads_to_all(
            flat,
            port,
            place,
            link,
            number,
            atoms[number].links.as_slice(),
            images[number],
        ) {
            return Some(number);
        }
    }
    None
}

/// The same of all links of an atom.
pub(crate) fn misfit(
    flat: &Flat,
    atoms: &[AtomItem],
    images: &[usize],
    number: usize,
) -> Option<usize>
    requires valid { Valid (heap_of flat.now) }
    requires images { (a : ℕ) → In a images.now → IsAtom (heap_of flat.now) a }
    requires few { length images.now ≤ length atoms.now }
    requires number { number < length images.now }
    ensures none { result ≡ None → LinksFit (heap_of flat.now) atoms.now images.now number }
    ensures some { IfSome result (λ m. (m < length images.now) × (LinksFitTo (heap_of flat.now) atoms.now images.now number m → ⊥)) }
{
    let links = atoms[number].links.as_slice();
    for index in 0..links.len() {
        match port_misfit(
            flat,
            atoms,
            images,
            Port {
                atom: number,
                index,
            },
            links[index],
        ) {
            Some(other) => return Some(other),
            None => {}
        }
    }
    None
}
