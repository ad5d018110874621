//! The atoms of a body, and what its typed contexts stand for.
ghost use Rattle.std.specs.Prelude.{◌≡◌, ◌+◌, ◌++◌, ◌∷◌, [], ℕ, OnOk, IfOk, map};
ghost use Rattle.lmn_base.specs.Solids.{connector};
ghost use Rattle.lmn_store_heap.specs.Functors.{same_functor};
ghost use Rattle.lmn_store_heap.specs.Sound.{Valid};
ghost use Rattle.std.specs.List.{AllByRecursion};
ghost use Rattle.lmn_solid_tables.specs.Flats.{heap_of};
ghost use Rattle.lmn_solid_firing.specs.declared.writing.Writing.TheVariants.{Rooted};
ghost use Rattle.lmn_solid_firing.specs.Making.{HasAtoms, body_atom, integer_atoms, leaf_atoms, leaf_next, leaf_pairs, leaves_atoms, leaves_next, pair_of, pairs_of, typed_atoms, typed_next, written_atoms};

use crate::atoms::add_atoms;
use crate::match_::{Match, Part};
use crate::writing::{Writing, sum};
use lmn_base::{CONNECTOR_NAME, Functor, Label, Leaf, NoMemory, Occ, Rows, SolidAtom};
use lmn_solid_tables::Flat;
use std::alloc::Global;

/// Whether a functor is that of connectors.
fn is_connector(functor: Functor) -> bool
    ensures { result ≡ same_functor functor connector }
{
    match functor.label {
        Label::Name(name) => name == CONNECTOR_NAME && functor.arity == 2,
        Label::Int(_) => false,
    }
}

/// The links of a rule, behind those of the solid.
fn links_of(alloc: Global, taken: &Match, links: &[Occ]) -> Result<Rows<u64>, NoMemory>
    ensures { IfOk result (λ rows. rows ≡ map (λ o. taken.now.links + o.link) links.now) }
{
    let mut rows = Rows::new(alloc);
    for occurrence in links {
        rows.push(sum(taken.links, occurrence.link as u64)?)?;
    }
    Ok(rows)
}

/// Adds an atom of a body, unless it is a connector.
fn add_made(
    alloc: Global,
    taken: &Match,
    functor: Functor,
    links: &[Occ],
    atoms: &mut Rows<SolidAtom>,
) -> Result<(), NoMemory>
    ensures { OnOk result (atoms.new ≡ atoms.old ++ body_atom (same_functor functor connector) functor (map (λ o. taken.now.links + o.link) links.now)) }
{
    if is_connector(functor) && links.len() == 2 {
        return Ok(());
    }
    let links = links_of(alloc, taken, links)?;
    atoms.push(SolidAtom { functor, links })?;
    Ok(())
}

/// Adds a copy of a part, which a link of the rule holds.
fn add_part(
    alloc: Global,
    flat: &Flat,
    links: u64,
    part: &Part,
    link: u64,
    next: &mut u64,
    atoms: &mut Rows<SolidAtom>,
) -> Result<(), NoMemory>
    requires valid { Valid (heap_of flat.now) }
    requires there { HasAtoms (heap_of flat.now) part.now }
    ensures next { OnOk result (next.new ≡ next.old + links) }
    ensures atoms { OnOk result (atoms.new ≡ atoms.old ++ written_atoms flat.now (Rooted part.now.link link next.old) part.now.atoms) }
{
    let writing = Writing::Rooted {
        root: part.link,
        link,
        by: *next,
    };
    add_atoms(alloc, flat, part.atoms.as_slice(), &writing, atoms)?;
    *next = sum(*next, links)?;
    Ok(())
}

/// Adds the integer to which a name is bound.
fn add_integer(
    alloc: Global,
    integers: &[(u32, i64)],
    name: u32,
    link: u64,
    atoms: &mut Rows<SolidAtom>,
) -> Result<(), NoMemory>
    ensures { OnOk result (atoms.new ≡ atoms.old ++ integer_atoms integers.now name link) }
{
    for (other, value) in integers {
        if *other == name {
            let mut links = Rows::new(alloc);
            links.push(link)?;
            let functor = Functor {
                label: Label::Int(*value),
                arity: 1,
            };
            atoms.push(SolidAtom { functor, links })?;
            return Ok(());
        }
    }
    Ok(())
}

/// Adds what a typed context stands for.
fn add_typed(
    alloc: Global,
    flat: &Flat,
    taken: &Match,
    name: u32,
    link: u64,
    next: &mut u64,
    atoms: &mut Rows<SolidAtom>,
) -> Result<(), NoMemory>
    requires valid { Valid (heap_of flat.now) }
    requires there { AllByRecursion (HasAtoms (heap_of flat.now)) taken.now.parts }
    ensures next { OnOk result (next.new ≡ typed_next taken.now.links taken.now.parts name next.old) }
    ensures atoms { OnOk result (atoms.new ≡ atoms.old ++ typed_atoms flat.now taken.now.parts taken.now.integers name link next.old) }
{
    for part in taken.parts.as_slice() {
        if part.name == name {
            return add_part(alloc, flat, taken.links, part, link, next, atoms);
        }
    }
    add_integer(alloc, taken.integers.as_slice(), name, link, atoms)
}

/// Adds what a leaf makes, where the next copy has its links from `next` on.
fn add_leaf(
    alloc: Global,
    flat: &Flat,
    taken: &Match,
    leaf: &Leaf,
    next: &mut u64,
    atoms: &mut Rows<SolidAtom>,
) -> Result<(), NoMemory>
    requires valid { Valid (heap_of flat.now) }
    requires there { AllByRecursion (HasAtoms (heap_of flat.now)) taken.now.parts }
    ensures next { OnOk result (next.new ≡ leaf_next taken.now leaf.now next.old) }
    ensures atoms { OnOk result (atoms.new ≡ atoms.old ++ leaf_atoms flat.now taken.now next.old leaf.now) }
{
    match leaf {
        Leaf::Atom { functor, links, .. } => {
            add_made(alloc, taken, *functor, links.as_slice(), atoms)
        }
        Leaf::Typed { name, link, .. } => {
            let link = sum(taken.links, link.link as u64)?;
            add_typed(alloc, flat, taken, *name, link, next, atoms)
        }
    }
}

/// Adds what leaves make, where the next copy has its links from `next` on.
pub(crate) fn add_leaves(
    alloc: Global,
    flat: &Flat,
    taken: &Match,
    leaves: &[Leaf],
    next: &mut u64,
    atoms: &mut Rows<SolidAtom>,
) -> Result<(), NoMemory>
    requires valid { Valid (heap_of flat.now) }
    requires there { AllByRecursion (HasAtoms (heap_of flat.now)) taken.now.parts }
    ensures next { OnOk result (next.new ≡ leaves_next taken.now leaves.now next.old) }
    ensures atoms { OnOk result (atoms.new ≡ atoms.old ++ leaves_atoms flat.now taken.now next.old leaves.now) }
{
    for leaf in leaves {
        add_leaf(alloc, flat, taken, leaf, next, atoms)?;
    }
    Ok(())
}

/// A pair of links as numbers of 32 bits.
///
/// # Errors
///
/// `NoMemory` where one has more.
pub(crate) fn pair(left: u64, right: u64) -> Result<(u32, u32), NoMemory>
    ensures { IfOk result (λ both. both ≡ (left, right)) }
{
    if left < 1 << 32 && right < 1 << 32 {
        Ok((left as u32, right as u32))
    } else {
        Err(NoMemory)
    }
}

/// Adds the connector that an atom of a body is, if it is one.
fn add_pair(
    taken: &Match,
    functor: Functor,
    links: &[Occ],
    connectors: &mut Rows<(u32, u32)>,
) -> Result<(), NoMemory>
    ensures { OnOk result (connectors.new ≡ connectors.old ++ pair_of (same_functor functor connector) (map (λ o. taken.now.links + o.link) links.now)) }
{
    if is_connector(functor) && links.len() == 2 {
        let left = sum(taken.links, links[0].link as u64)?;
        let right = sum(taken.links, links[1].link as u64)?;
        connectors.push(pair(left, right)?)?;
    }
    Ok(())
}

/// Adds the connector that a leaf is, if it is one.
fn add_leaf_pair(
    taken: &Match,
    leaf: &Leaf,
    connectors: &mut Rows<(u32, u32)>,
) -> Result<(), NoMemory>
    ensures { OnOk result (connectors.new ≡ connectors.old ++ leaf_pairs taken.now leaf.now) }
{
    match leaf {
        Leaf::Atom { functor, links, .. } => {
            add_pair(taken, *functor, links.as_slice(), connectors)
        }
        Leaf::Typed { .. } => Ok(()),
    }
}

/// Adds the connectors among leaves.
pub(crate) fn add_pairs(
    taken: &Match,
    leaves: &[Leaf],
    connectors: &mut Rows<(u32, u32)>,
) -> Result<(), NoMemory>
    ensures { OnOk result (connectors.new ≡ connectors.old ++ pairs_of taken.now leaves.now) }
{
    for leaf in leaves {
        add_leaf_pair(taken, leaf, connectors)?;
    }
    Ok(())
}
