//! What can be asked of a part.
ghost use Rattle.std.specs.Prelude.{◌≡◌, ◌<◌, ◌≢◌, ◌↔◌, ℕ, List, [], None, IsTrue, length, map};
ghost use Rattle.lmn_base.specs.Graphs.{Reached};
ghost use Rattle.lmn_store_heap.specs.Graphs.{atom_map};
ghost use Rattle.lmn_store_heap.specs.Heap.{IsInPlace, IsMem, PortsUnmarked, taken_all};
ghost use Rattle.lmn_store_heap.specs.Splice.{IsPort};
ghost use Rattle.lmn_ground.specs.Listed.{IsListed};
ghost use Rattle.lmn_ground.specs.Spread.{AreAtoms, IsWhole, IsGroundIn};
ghost use Rattle.lmn_ground_parts.specs.Walks.{IsPartInDepth};

use crate::found::Found;
use crate::listing::{PartList, is_listed};
use crate::seek::arity;
use crate::spread::{fits, spread};
use crate::undo::{act_all, undo};
use crate::wipe::Deed;
use lmn_store_trait::LinkStore;

/// Whether the part with this root stands whole in the membrane, and none of its atoms has the own mark 1. Where it does, its atoms are
/// listed then, as far as there is room for all. The walk uses the room of `list`, whatever it holds.
pub fn is_ground<S: LinkStore>(
    store: &mut S,
    root: (S::Atom, u8),
    mem: S::Mem,
    list: &mut PartList<S::Atom>,
) -> bool
    requires root { IsPort (S.heap store.old) (S.atom_id root.0) root.1 }
    requires mem { IsMem (S.heap store.old) (S.mem_id mem) }
    requires clean { PortsUnmarked (S.heap store.old) }
    ensures ground { IsTrue result ↔ IsGroundIn (S.heap store.old) (S.atom_id root.0, root.1) (S.mem_id mem) }
    ensures listed { IsListed S.atom_id (S.heap store.old) list.new }
    ensures same { S.heap store.new ≡ S.heap store.old }
{
    let ports = arity(store, root.0);
    list.forget();
    if !fits(store, Some(mem), root.0) {
        return false;
    }
    if ports == 1 {
        return true;
    }
    let found = spread(store, root, Some(mem), &mut list.atoms);
    undo(store, root, found.0, &list.atoms, Deed::Leave);
    if !found.1 {
        list.forget();
        return false;
    }
    list.keep(root.1, found.0);
    true
}

/// The number of atoms of the part with this root. The walk uses the room of `trail`, whatever it holds.
pub fn size_of<S: LinkStore>(store: &mut S, root: (S::Atom, u8), trail: &mut Found<S::Atom>) -> u64
    requires root { IsPort (S.heap store.old) (S.atom_id root.0) root.1 }
    requires clean { PortsUnmarked (S.heap store.old) }
    requires ground { IsWhole (S.heap store.old) (S.atom_id root.0, root.1) None }
    ensures size { (xs : List ℕ) → AreAtoms (S.heap store.old) (S.atom_id root.0, root.1) xs → result ≡ length xs }
    ensures part { (all : List ℕ) × IsPartInDepth (S.heap store.old) (S.atom_id root.0, root.1) all × (length all ≡ result) }
    ensures same { S.heap store.new ≡ S.heap store.old }
{
    let ports = arity(store, root.0);
    if ports == 1 {
        return 1;
    }
    let found = spread(store, root, None, trail);
    undo(store, root, found.0, trail, Deed::Leave);
    found.0
}

/// Walks a part, and takes its atoms.
#[inline(never)]
fn take_walked<S: LinkStore>(store: &mut S, root: (S::Atom, u8), trail: &mut Found<S::Atom>)
    requires root { IsPort (S.heap store.old) (S.atom_id root.0) root.1 }
    requires clean { PortsUnmarked (S.heap store.old) }
    requires ground { IsWhole (S.heap store.old) (S.atom_id root.0, root.1) None }
    requires placed { (a : ℕ) → Reached (atom_map (S.heap store.old)) (S.atom_id root.0, root.1) a → IsInPlace (S.heap store.old) a }
    ensures { (all : List ℕ) × IsPartInDepth (S.heap store.old) (S.atom_id root.0, root.1) all × (S.heap store.new ≡ taken_all (S.heap store.old) all) }
{
    let _arity = arity(store, root.0);
    let found = spread(store, root, None, trail);
    undo(store, root, found.0, trail, Deed::Take);
}

/// Takes every atom of the part with this root; partners stay as they are. The walk uses the room of `trail`, whatever it holds.
#[inline(always)]
pub fn take_part<S: LinkStore>(store: &mut S, root: (S::Atom, u8), trail: &mut Found<S::Atom>)
    requires root { IsPort (S.heap store.old) (S.atom_id root.0) root.1 }
    requires clean { PortsUnmarked (S.heap store.old) }
    requires ground { IsWhole (S.heap store.old) (S.atom_id root.0, root.1) None }
    requires placed { (a : ℕ) → Reached (atom_map (S.heap store.old)) (S.atom_id root.0, root.1) a → IsInPlace (S.heap store.old) a }
    ensures { (all : List ℕ) × IsPartInDepth (S.heap store.old) (S.atom_id root.0, root.1) all × (S.heap store.new ≡ taken_all (S.heap store.old) all) }
{
    let ports = arity(store, root.0);
    if ports == 1 {
        store.take_atom(root.0);
        return;
    }
    take_walked(store, root, trail);
}

/// Takes the atoms of a part along their list, if it is the one that is listed.
#[inline(never)]
fn take_atoms<S: LinkStore>(
    store: &mut S,
    root: (S::Atom, u8),
    list: &PartList<S::Atom>,
    trail: &mut Found<S::Atom>,
)
    requires root { IsPort (S.heap store.old) (S.atom_id root.0) root.1 }
    requires clean { PortsUnmarked (S.heap store.old) }
    requires ground { IsWhole (S.heap store.old) (S.atom_id root.0, root.1) None }
    requires placed { (a : ℕ) → Reached (atom_map (S.heap store.old)) (S.atom_id root.0, root.1) a → IsInPlace (S.heap store.old) a }
    requires listed { IsListed S.atom_id (S.heap store.old) list.now }
    ensures { (all : List ℕ) × IsPartInDepth (S.heap store.old) (S.atom_id root.0, root.1) all × (S.heap store.new ≡ taken_all (S.heap store.old) all) }
{
    if is_listed(store, list, root) {
        act_all(store, &list.atoms, Deed::Take);
        return;
    }
    take_walked(store, root, trail);
}

/// Takes every atom of the part with this root, as `take_part` does. If it is the part that is listed, it isn't walked.
#[inline(always)]
pub fn take_listed<S: LinkStore>(
    store: &mut S,
    root: (S::Atom, u8),
    list: &PartList<S::Atom>,
    trail: &mut Found<S::Atom>,
)
    requires root { IsPort (S.heap store.old) (S.atom_id root.0) root.1 }
    requires clean { PortsUnmarked (S.heap store.old) }
    requires ground { IsWhole (S.heap store.old) (S.atom_id root.0, root.1) None }
    requires placed { (a : ℕ) → Reached (atom_map (S.heap store.old)) (S.atom_id root.0, root.1) a → IsInPlace (S.heap store.old) a }
    requires listed { IsListed S.atom_id (S.heap store.old) list.now }
    ensures { (all : List ℕ) × IsPartInDepth (S.heap store.old) (S.atom_id root.0, root.1) all × (S.heap store.new ≡ taken_all (S.heap store.old) all) }
{
    let ports = arity(store, root.0);
    if ports == 1 {
        store.take_atom(root.0);
        return;
    }
    take_atoms(store, root, list, trail);
}
