//! Joins the ports of each class of links.
ghost use Rattle.std.specs.Prelude.{◌≡◌, ◌<◌, ◌++◌, ℕ, length, slice_index_or, None, OnOk, IfOk};
ghost use Rattle.lmn_store_heap.specs.Heap.{port_id};
ghost use Rattle.lmn_congruence_splice.specs.Splice.{TwiceOrNever, both_links, links};
ghost use Rattle.lmn_congruence_splice.specs.Classes.{class_of};
ghost use Rattle.lmn_congruence_classes.specs.Tables.{PairsBelow, LinksBelow};
ghost use Rattle.lmn_schedule_loading.specs.Adding.{by_id};
ghost use Rattle.lmn_schedule_loading.specs.Joining.{AreFree, AreJoined, MayMeet, held_at, held_after, met};

use lmn_base::{NoMemory, Rows};
use lmn_congruence_classes::{classes_of, find};
use lmn_store_trait::LinkStore;
use std::alloc::Global;

/// A port meets the one that is held for its class, or is held for it.
fn meet<S: LinkStore>(
    store: &mut S,
    held: &mut Rows<Option<(S::Atom, u8)>>,
    class: usize,
    port: (S::Atom, u8),
)
    requires class { class < length held.old }
    requires may { MayMeet (S.heap store.old) (held_at S.atom_id held.old class) (port_id S.atom_id port) }
    ensures size { length held.new ≡ length held.old }
    ensures heap { S.heap store.new ≡ met (S.heap store.old) (held_at S.atom_id held.old class) (port_id S.atom_id port) }
    ensures held { (z : ℕ) → held_at S.atom_id held.new z ≡ held_after (held_at S.atom_id held.old) class (port_id S.atom_id port) z }
{
    match *held.at(class) {
        Some(other) => {
            store.join(other.0, other.1, port.0, port.1);
            held.set(class, None);
        }
        None => held.set(class, Some(port)),
    }
}

/// A table in which no port is held for any class.
fn nothing_held<A: Copy>(alloc: Global, size: usize) -> Result<Rows<Option<(A, u8)>>, NoMemory>
    ensures { IfOk result (λ table. (length table ≡ size) × ((z : ℕ) → z < size → slice_index_or table z None ≡ None)) }
{
    let mut table = Rows::new(alloc);
    for class in 0..size {
        table.push(None)?;
    }
    Ok(table)
}

/// Joins the ports of each class: two ports are joined where a chain of links and connectors leads from one to the
/// other. Links are below `size`.
pub fn join_all<S: LinkStore>(
    alloc: Global,
    store: &mut S,
    ports: &[((S::Atom, u8), u32)],
    connectors: &[(u32, u32)],
    size: usize,
) -> Result<(), NoMemory>
    requires connectors { PairsBelow size connectors.now }
    requires ports { LinksBelow size ports.now }
    requires free { AreFree (S.heap store.old) (by_id S.atom_id ports.now) }
    requires twice { TwiceOrNever (both_links connectors.now ++ links (by_id S.atom_id ports.now)) }
    ensures { OnOk result (AreJoined (class_of connectors.now) (by_id S.atom_id ports.now) (S.heap store.old) (S.heap store.new)) }
{
    let mut classes = classes_of(alloc, connectors, size)?;
    let mut held = nothing_held(alloc, size)?;
    for linked in ports {
        let (port, link) = *linked;
        let class = find(&mut classes, link as usize);
        meet(store, &mut held, class, port);
    }
    Ok(())
}
