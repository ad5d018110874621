//! Puts what stands in a level into a membrane. No port is joined yet.
ghost use Rattle.std.specs.Prelude.{◌≡◌, ◌≤◌, ◌++◌, [], ◌∷◌, length, All, None, IfOk, OnOk};
ghost use Rattle.lmn_base.specs.declared.level.Level.{out-Level};
ghost use Rattle.lmn_base.specs.Levels.{leaves_of};
ghost use Rattle.lmn_base.specs.Limits.{most_links};
ghost use Rattle.lmn_base.specs.WellMade.{FitsArity};
ghost use Rattle.lmn_schedule_loading.specs.Adding.{CanBeFilled, AddsToMembrane, Fills, AtomIsAdded, with_atom, with_mem, ports_with_links};

use lmn_base::{Functor, Leaf, Level, NoMemory, Occ, Rows};
use lmn_store_trait::LinkStore;
use std::alloc::Global;

/// An atom at the end of a membrane's atoms.
fn add_atom<S: LinkStore>(
    alloc: Global,
    store: &mut S,
    m: S::Mem,
    functor: Functor,
) -> Result<S::Atom, NoMemory>
    requires { CanBeFilled (S.heap store.old) (S.mem_id m) }
    ensures fresh { IfOk result (λ a. (S.heap store.old).atoms (S.atom_id a) ≡ None) }
    ensures ok { IfOk result (λ a. S.heap store.new ≡ with_atom (S.heap store.old) (S.mem_id m) (S.atom_id a) functor) }
{
    let atom = store.make_atom(alloc, functor)?;
    let _placed = store.place_atom(m);
    Ok(atom)
}

/// An empty membrane at the end of a membrane's membranes.
fn add_membrane<S: LinkStore>(alloc: Global, store: &mut S, m: S::Mem) -> Result<S::Mem, NoMemory>
    requires { CanBeFilled (S.heap store.old) (S.mem_id m) }
    ensures fresh { IfOk result (λ n. (S.heap store.old).mems (S.mem_id n) ≡ None) }
    ensures ok { IfOk result (λ n. S.heap store.new ≡ with_mem (S.heap store.old) (S.mem_id m) (S.mem_id n)) }
{
    let membrane = store.make_mem(alloc)?;
    let _placed = store.place_mem(m);
    Ok(membrane)
}

/// Adds the ports of an atom, each with its link.
fn add_ports<A: Copy>(
    ports: &mut Rows<((A, u8), u32)>,
    atom: A,
    links: &[Occ],
) -> Result<(), NoMemory>
    requires { length links.now ≤ most_links }
    ensures { OnOk result (ports.new ≡ ports.old ++ ports_with_links atom 0 links.now) }
{
    for (i, occurrence) in links.iter().enumerate() {
        ports.push(((atom, i as u8), occurrence.link))?;
    }
    Ok(())
}

/// An atom of a plain and its ports.
fn add_linked_atom<S: LinkStore>(
    alloc: Global,
    store: &mut S,
    m: S::Mem,
    functor: Functor,
    links: &[Occ],
    ports: &mut Rows<((S::Atom, u8), u32)>,
) -> Result<(), NoMemory>
    requires ready { CanBeFilled (S.heap store.old) (S.mem_id m) }
    requires arity { length links.now ≡ functor.arity }
    ensures fills { OnOk result (AtomIsAdded S.atom_id (S.heap store.old) (S.heap store.new) (S.mem_id m) functor links.now ports.old ports.new) }
{
    let atom = add_atom(alloc, store, m, functor)?;
    add_ports(ports, atom, links)
}

/// A leaf: a connector and a typed context leave nothing.
fn add_leaf<S: LinkStore>(
    alloc: Global,
    store: &mut S,
    m: S::Mem,
    leaf: &Leaf,
    ports: &mut Rows<((S::Atom, u8), u32)>,
) -> Result<(), NoMemory>
    requires ready { CanBeFilled (S.heap store.old) (S.mem_id m) }
    requires arity { FitsArity leaf.now }
    ensures { OnOk result (Fills S.atom_id (S.heap store.old) (S.heap store.new) (S.mem_id m) (leaf.now ∷ []) [] [] ports.old ports.new) }
{
    match leaf {
        Leaf::Atom { functor, links, .. } => {
            if functor.is_connector() {
                Ok(())
            } else {
                add_linked_atom(alloc, store, m, *functor, links.as_slice(), ports)
            }
        }
        Leaf::Typed { .. } => Ok(()),
    }
}

/// The leaves of a level.
fn add_leaves<S: LinkStore>(
    alloc: Global,
    store: &mut S,
    m: S::Mem,
    leaves: &[Leaf],
    ports: &mut Rows<((S::Atom, u8), u32)>,
) -> Result<(), NoMemory>
    requires ready { CanBeFilled (S.heap store.old) (S.mem_id m) }
    requires arities { All FitsArity leaves.now }
    ensures { OnOk result (Fills S.atom_id (S.heap store.old) (S.heap store.new) (S.mem_id m) leaves.now [] [] ports.old ports.new) }
{
    for leaf in leaves {
        add_leaf(alloc, store, m, leaf, ports)?;
    }
    Ok(())
}

/// Rules at the end of a membrane's rules.
fn add_rules<S: LinkStore>(
    alloc: Global,
    store: &mut S,
    m: S::Mem,
    rules: &[u32],
) -> Result<(), NoMemory>
    requires { CanBeFilled (S.heap store.old) (S.mem_id m) }
    ensures { OnOk result (AddsToMembrane (S.heap store.old) (S.heap store.new) (S.mem_id m) [] [] rules.now []) }
{
    store.reserve_rules(alloc, m, rules.len() as u64)?;
    for rule in rules {
        store.add_rule(m, *rule);
    }
    Ok(())
}

/// What stands in a level goes into an empty membrane.
pub fn fill<S: LinkStore>(
    alloc: Global,
    store: &mut S,
    m: S::Mem,
    level: &Level,
    ports: &mut Rows<((S::Atom, u8), u32)>,
) -> Result<(), NoMemory>
    requires ready { CanBeFilled (S.heap store.old) (S.mem_id m) }
    requires arities { All FitsArity (leaves_of level.now) }
    ensures { OnOk result (Fills S.atom_id (S.heap store.old) (S.heap store.new) (S.mem_id m) (out-Level level.now).leaves (out-Level level.now).membranes (out-Level level.now).rules ports.old ports.new) }
{
    add_leaves(alloc, store, m, level.leaves.as_slice(), ports)?;
    for inner in level.membranes.as_slice() {
        let membrane = add_membrane(alloc, store, m)?;
        fill(alloc, store, membrane, inner, ports)?;
    }
    add_rules(alloc, store, m, level.rules.as_slice())
}
