//! What a walk has marked is taken back.
ghost use Rattle.std.specs.Prelude.{◌≡◌, ◌<◌, Bool, map};
ghost use Rattle.lmn_store_heap.specs.Heap.{Distinct, Heap};
ghost use Rattle.lmn_store_heap.specs.Splice.{IsPort};
ghost use Rattle.lmn_ground.specs.Deeds.{CanDo, all_done};
ghost use Rattle.lmn_ground.specs.Spread.{Spread};
ghost use Rattle.lmn_ground.specs.Stands.{IsTrail};
ghost use Rattle.lmn_ground_parts.specs.Copies.{AllAtoms};

use crate::found::Found;
use crate::gather::clear;
use crate::wipe::{Deed, act, wipe};
use lmn_store_trait::LinkStore;

/// Does a deed to each of these atoms.
#[inline(always)]
pub fn act_all<S: LinkStore>(store: &mut S, atoms: &Found<S::Atom>, deed: Deed)
    requires there { AllAtoms (S.heap store.old) (map S.atom_id atoms.now) }
    requires once { Distinct (map S.atom_id atoms.now) }
    requires can { CanDo deed (map S.atom_id atoms.now) (S.heap store.old) }
    ensures { S.heap store.new ≡ all_done deed (map S.atom_id atoms.now) (S.heap store.old) }
{
    for i in 0..atoms.len() {
        act(store, *atoms.at(i), deed);
    }
}

/// Takes back the marks of a walk, and does a deed to each of its atoms: along their list, where that is whole.
#[inline(always)]
pub fn undo<S: LinkStore>(
    store: &mut S,
    root: (S::Atom, u8),
    count: u64,
    trail: &Found<S::Atom>,
    deed: Deed,
)
    requires root { IsPort (S.heap store.old) (S.atom_id root.0) root.1 }
    requires spread { (before : Heap) × (all : Bool) × (t : Spread before (S.heap store.old) (S.atom_id root.0, root.1) count all) × IsTrail S.atom_id trail.now count t.seen × CanDo deed t.seen before }
    ensures { (before : Heap) (all : Bool) (t : Spread before (S.heap store.old) (S.atom_id root.0, root.1) count all) → IsTrail S.atom_id trail.now count t.seen → S.heap store.new ≡ all_done deed t.seen before }
{
    if trail.len() as u64 != count {
        wipe(store, root, count, deed);
        return;
    }
    clear(store, trail);
    act_all(store, trail, deed);
}
