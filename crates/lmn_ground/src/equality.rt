//! Two parts are equal as rooted graphs.
ghost use Rattle.std.specs.Prelude.{◌≡◌, ◌⊎◌, ◌<◌, ◌↔◌, ℕ, List, None, IsTrue, length};
ghost use Rattle.lmn_base.specs.Graphs.{Reached, SameGraph};
ghost use Rattle.lmn_store_heap.specs.Graphs.{atom_map};
ghost use Rattle.lmn_store_heap.specs.Heap.{IsAtom, functor_of, PortsUnmarked};
ghost use Rattle.lmn_store_heap.specs.Splice.{IsPort};
ghost use Rattle.lmn_ground.specs.Marks.{first_marks};
ghost use Rattle.lmn_ground.specs.Spread.{CleanPart, IsWhole, Numbered};
ghost use Rattle.lmn_ground.specs.Follow.{Two};
ghost use Rattle.lmn_ground_parts.specs.Walks.{IsPartInDepth};

use crate::compare::{are_alike, compare};
use crate::found::Found;
use crate::parts::size_of;
use crate::seek::arity;
use crate::spread::spread;
use crate::undo::undo;
use crate::wipe::{Deed, wipe};
use lmn_store_trait::LinkStore;

/// Whether two ports are one.
pub fn is_same_port<S: LinkStore>(store: &S, x: (S::Atom, u8), y: (S::Atom, u8)) -> bool
    requires x { IsAtom (S.heap store.now) (S.atom_id x.0) }
    requires y { IsAtom (S.heap store.now) (S.atom_id y.0) }
    ensures { IsTrue result ↔ (S.atom_id x.0 ≡ S.atom_id y.0) × (x.1 ≡ y.1) }
{
    x.1 == y.1 && store.same_atom(x.0, y.0)
}

/// Whether two parts are equal, where the atoms of y's part have numbers.
fn equals_numbered<S: LinkStore>(store: &mut S, x: (S::Atom, u8), y: (S::Atom, u8)) -> bool
    requires x { IsPort (S.heap store.old) (S.atom_id x.0) x.1 }
    requires y { IsAtom (S.heap store.old) (S.atom_id y.0) }
    requires clean { CleanPart (S.heap store.old) (S.atom_id x.0, x.1) }
    requires alike { functor_of (S.heap store.old) (S.atom_id y.0) ≡ functor_of (S.heap store.old) (S.atom_id x.0) }
    requires two { (xs : List ℕ) × (ys : List ℕ) × Two (S.heap store.old) (S.atom_id x.0, x.1) (S.atom_id y.0, y.1) xs ys × Numbered (first_marks (S.heap store.old)) 2 ys }
    ensures equal { IsTrue result ↔ SameGraph (atom_map (S.heap store.old)) (S.atom_id x.0, x.1) (atom_map (S.heap store.old)) (S.atom_id y.0, y.1) }
    ensures same { S.heap store.new ≡ S.heap store.old }
{
    let found = compare(store, x, y);
    wipe(store, x, found.0, Deed::Leave);
    found.1
}

/// Whether two parts with no common atom are equal, where x's part has `size` atoms.
fn equals_apart<S: LinkStore>(
    store: &mut S,
    x: (S::Atom, u8),
    y: (S::Atom, u8),
    size: u64,
    trail: &mut Found<S::Atom>,
) -> bool
    requires x { IsPort (S.heap store.old) (S.atom_id x.0) x.1 }
    requires y { IsPort (S.heap store.old) (S.atom_id y.0) y.1 }
    requires clean { PortsUnmarked (S.heap store.old) }
    requires ground { IsWhole (S.heap store.old) (S.atom_id x.0, x.1) None }
    requires other { IsWhole (S.heap store.old) (S.atom_id y.0, y.1) None }
    requires alike { functor_of (S.heap store.old) (S.atom_id y.0) ≡ functor_of (S.heap store.old) (S.atom_id x.0) }
    requires ports { x.1 ≡ y.1 }
    requires apart { (a : ℕ) → Reached (atom_map (S.heap store.old)) (S.atom_id x.0, x.1) a → Reached (atom_map (S.heap store.old)) (S.atom_id y.0, y.1) a → ⊥ }
    requires size { (xs : List ℕ) × IsPartInDepth (S.heap store.old) (S.atom_id x.0, x.1) xs × (length xs ≡ size) }
    ensures equal { IsTrue result ↔ SameGraph (atom_map (S.heap store.old)) (S.atom_id x.0, x.1) (atom_map (S.heap store.old)) (S.atom_id y.0, y.1) }
    ensures same { S.heap store.new ≡ S.heap store.old }
{
    let _arity = arity(store, y.0);
    let found = spread(store, y, None, trail);
    let _marked = arity(store, y.0);
    if size != found.0 {
        undo(store, y, found.0, trail, Deed::Leave);
        return false;
    }
    let same = equals_numbered(store, x, y);
    undo(store, y, found.0, trail, Deed::Leave);
    same
}

/// Whether two parts are equal as rooted graphs. They have one root port, or no atom in common. The walks use the room of `trail`,
/// whatever it holds.
pub fn equal<S: LinkStore>(
    store: &mut S,
    x: (S::Atom, u8),
    y: (S::Atom, u8),
    trail: &mut Found<S::Atom>,
) -> bool
    requires x { IsPort (S.heap store.old) (S.atom_id x.0) x.1 }
    requires y { IsPort (S.heap store.old) (S.atom_id y.0) y.1 }
    requires clean { PortsUnmarked (S.heap store.old) }
    requires ground { IsWhole (S.heap store.old) (S.atom_id x.0, x.1) None }
    requires other { IsWhole (S.heap store.old) (S.atom_id y.0, y.1) None }
    requires apart { ((S.atom_id x.0 ≡ S.atom_id y.0) × (x.1 ≡ y.1))
        ⊎ ((a : ℕ) → Reached (atom_map (S.heap store.old)) (S.atom_id x.0, x.1) a → Reached (atom_map (S.heap store.old)) (S.atom_id y.0, y.1) a → ⊥) }
    ensures equal { IsTrue result ↔ SameGraph (atom_map (S.heap store.old)) (S.atom_id x.0, x.1) (atom_map (S.heap store.old)) (S.atom_id y.0, y.1) }
    ensures same { S.heap store.new ≡ S.heap store.old }
{
    if is_same_port(store, x, y) {
        return true;
    }
    if x.1 != y.1 {
        return false;
    }
    if !are_alike(store, x.0, y.0) {
        return false;
    }
    let _arity = arity(store, x.0);
    let size = size_of(store, x, trail);
    equals_apart(store, x, y, size, trail)
}
