//! The own marks of a part.
ghost use Rattle.std.specs.Prelude.{◌≡◌, ◌<◌, ◌^◌, ℕ, List, None};
ghost use Rattle.lmn_store_heap.specs.Heap.{PortsUnmarked};
ghost use Rattle.lmn_store_heap.specs.Splice.{IsPort};
ghost use Rattle.lmn_ground.specs.Rests.{own_marked};
ghost use Rattle.lmn_ground.specs.Spread.{IsWhole};
ghost use Rattle.lmn_ground_parts.specs.Walks.{IsPartInDepth};

use crate::found::Found;
use crate::seek::arity;
use crate::spread::spread;
use crate::undo::undo;
use crate::wipe::Deed;
use lmn_store_trait::LinkStore;

/// Sets the own mark of each atom of the part with this root, to a number below 2^56. All other marks are as they were. The walk
/// uses the room of `trail`, whatever it holds.
pub fn paint<S: LinkStore>(store: &mut S, root: (S::Atom, u8), v: u64, trail: &mut Found<S::Atom>)
    requires root { IsPort (S.heap store.old) (S.atom_id root.0) root.1 }
    requires clean { PortsUnmarked (S.heap store.old) }
    requires ground { IsWhole (S.heap store.old) (S.atom_id root.0, root.1) None }
    requires small { v < 2 ^ 56 }
    ensures { (all : List ℕ) × IsPartInDepth (S.heap store.old) (S.atom_id root.0, root.1) all × (S.heap store.new ≡ own_marked v all (S.heap store.old)) }
{
    let _arity = arity(store, root.0);
    let found = spread(store, root, None, trail);
    undo(store, root, found.0, trail, Deed::SetOwn(v));
}
