//! Loads the process of a plain.
ghost use Rattle.std.specs.Prelude.{◌≡◌, ◌<◌, ◌≤◌, ◌-◌, ◌^◌, ℕ, OnOk, IfErr};
ghost use Rattle.lmn_base.specs.declared.solid.Solid.{Solid};
ghost use Rattle.lmn_base.specs.Levels.{links_of};
ghost use Rattle.lmn_base.specs.Links.{EachTwice};
ghost use Rattle.lmn_base.specs.Solids.{item_count};
ghost use Rattle.lmn_base.specs.WellMade.{IsWellMade};
ghost use Rattle.lmn_congruence.specs.SolidsOfPlains.{IsSolidOf};
ghost use Rattle.lmn_schedule_loading.specs.Loaded.{IsEmpty, IsLoaded, LoadCauses};

use crate::filling::fill;
use crate::joining::join_all;
use crate::leaves::{add_connectors, number_of_items};
use lmn_base::{NoMemory, Plain, Rows};
use lmn_store_trait::LinkStore;
use std::alloc::Global;

/// Why a process isn't loaded.
#[derive(Clone, Copy, Debug, PartialEq, Eq)]
pub enum LoadFault {
    /// It has so many items, and that is too many. 2^64 - 1 stands for any greater number too.
    Size(u64),
    /// Memory was wanting.
    NoMemory,
}

/// Puts the process of a plain into an empty store. Meanwhile the ports of the whole plain stand in one row: no port is
/// joined before all connectors are known.
fn put<S: LinkStore>(alloc: Global, plain: &Plain, store: &mut S) -> Result<(), NoMemory>
    requires plain { IsWellMade plain.now }
    requires closed { EachTwice (links_of plain.now.top) }
    requires store { IsEmpty (S.heap store.old) }
    ensures { OnOk result (IsLoaded plain.now (S.heap store.new)) }
{
    let root = store.root();
    let mut ports = Rows::new(alloc);
    fill(alloc, store, root, &plain.top, &mut ports)?;
    let mut connectors = Rows::new(alloc);
    add_connectors(&mut connectors, &plain.top)?;
    join_all(
        alloc,
        store,
        ports.as_slice(),
        connectors.as_slice(),
        plain.links.len(),
    )?;
    let _root = store.root();
    Ok(())
}

/// Puts the process of a plain into an empty store, if it has at most `size` items: atoms, membranes without the root, and
/// rules that stand in membranes, connectors not counted. Connectors are fused through any membranes, and a loop of
/// connectors vanishes.
/// It recurses on the nesting of the plain, which a text has no deeper than 200 brackets; its derived drop does too.
/// Nothing that runs on a store recurses on the depth of membranes.
///
/// # Errors
///
/// `Size` exactly where the process has more items; nothing was changed then. `NoMemory` where there is no memory for the
/// process; the store may hold a part of it then, and is to be let go.
pub fn load<S: LinkStore>(
    alloc: Global,
    plain: &Plain,
    store: &mut S,
    size: u64,
) -> Result<(), LoadFault>
    requires plain { IsWellMade plain.now }
    requires closed { EachTwice (links_of plain.now.top) }
    requires store { IsEmpty (S.heap store.old) }
    requires size { size < 2 ^ 64 - 1 }
    ensures loaded { OnOk result (IsLoaded plain.now (S.heap store.new)) }
    ensures fits { OnOk result ((s : Solid) → IsSolidOf plain.now s → item_count s ≤ size) }
    ensures fault { IfErr result (λ fault. LoadCauses plain.now size fault) }
    ensures same { IfErr result (λ fault. (k : ℕ) → fault ≡ LoadFault.Size k → S.heap store.new ≡ S.heap store.old) }
{
    let items = number_of_items(&plain.top);
    if items > size {
        return Err(LoadFault::Size(items));
    }
    match put(alloc, plain, store) {
        Ok(()) => Ok(()),
        Err(NoMemory) => Err(LoadFault::NoMemory),
    }
}
