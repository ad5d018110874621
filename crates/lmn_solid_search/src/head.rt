//! The items of a head by their sorts.
ghost use Rattle.std.specs.Prelude.{◌≡◌, ◌++◌, ◌∷◌, [], IfOk, map};
ghost use Rattle.lmn_solid_heads.specs.Heads.{atoms_of, membranes_of, typed_contexts_of};
ghost use Rattle.lmn_solid_search.specs.Taking.{IsTakenApart, kept_atom, kept_membrane, kept_typed};

use lmn_base::{Functor, NoMemory, Rows};
use lmn_guards::TypeKind;
use lmn_solid_heads::HeadItem;
use std::alloc::Global;

/// An atom of a head.
#[derive(Drop)]
pub(crate) struct AtomItem {
    pub functor: Functor,
    /// The numbers of its links, by index of the argument.
    pub links: Rows<u32>,
    /// The number of the membrane in which it stands.
    pub inside: u16,
}

/// A typed context of a head.
#[derive(Drop)]
pub(crate) struct TypedItem {
    /// The number of its name.
    pub name: u32,
    pub kind: TypeKind,
    /// The number of the link that holds it.
    pub link: u32,
    /// The number of the membrane in which it stands.
    pub inside: u16,
}

/// A membrane of a head.
#[derive(Drop)]
pub(crate) struct MembraneItem {
    /// The number of the membrane in which it stands.
    pub inside: u16,
    pub has_context: bool,
    pub has_closed_context: bool,
    pub has_rule_context: bool,
}

/// The items of a head, of each sort in their order.
#[derive(Drop)]
pub(crate) struct Head {
    pub atoms: Rows<AtomItem>,
    pub typed: Rows<TypedItem>,
    pub membranes: Rows<MembraneItem>,
}

/// The atoms of a head.
fn atoms_in_head(alloc: Global, items: &[HeadItem]) -> Result<Rows<AtomItem>, NoMemory>
    ensures { IfOk result (λ atoms. atoms ≡ map kept_atom (atoms_of items.now)) }
{
    let mut atoms = Rows::new(alloc);
    for item in items {
        match item {
            HeadItem::Atom {
                functor,
                links,
                inside,
            } => atoms.push(AtomItem {
                functor: *functor,
                links: Rows::copied(alloc, links.as_slice())?,
                inside: *inside,
            })?,
            HeadItem::Typed { .. } => {}
            HeadItem::Membrane { .. } => {}
        }
    }
    Ok(atoms)
}

/// The typed contexts of a head.
fn typed_in_head(alloc: Global, items: &[HeadItem]) -> Result<Rows<TypedItem>, NoMemory>
    ensures { IfOk result (λ typed. typed ≡ map kept_typed (typed_contexts_of items.now)) }
{
    let mut typed = Rows::new(alloc);
    for item in items {
        match item {
            HeadItem::Atom { .. } => {}
            HeadItem::Typed {
                name,
                kind,
                link,
                inside,
            } => typed.push(TypedItem {
                name: *name,
                kind: *kind,
                link: *link,
                inside: *inside,
            })?,
            HeadItem::Membrane { .. } => {}
        }
    }
    Ok(typed)
}

/// The membranes of a head.
fn membranes_in_head(alloc: Global, items: &[HeadItem]) -> Result<Rows<MembraneItem>, NoMemory>
    ensures { IfOk result (λ membranes. membranes ≡ map kept_membrane (membranes_of items.now)) }
{
    let mut membranes = Rows::new(alloc);
    for item in items {
        match item {
            HeadItem::Atom { .. } => {}
            HeadItem::Typed { .. } => {}
            HeadItem::Membrane {
                inside,
                has_context,
                has_closed_context,
                has_rule_context,
            } => membranes.push(MembraneItem {
                inside: *inside,
                has_context: *has_context,
                has_closed_context: *has_closed_context,
                has_rule_context: *has_rule_context,
            })?,
        }
    }
    Ok(membranes)
}

impl Head {
    /// The items of a head by their sorts.
    pub(crate) fn of(alloc: Global, items: &[HeadItem]) -> Result<Head, NoMemory>
        ensures { IfOk result (IsTakenApart items.now) }
    {
        Ok(Head {
            atoms: atoms_in_head(alloc, items)?,
            typed: typed_in_head(alloc, items)?,
            membranes: membranes_in_head(alloc, items)?,
        })
    }
}
