//! The walk that takes the marks back, and does something to each atom.
ghost use Rattle.std.specs.Prelude.{◌≡◌, ◌<◌, ◌^◌, ℕ, Bool, [], ◌∷◌, false, Some, IfSome};
ghost use Rattle.lmn_store_heap.specs.Heap.{Heap, IsAtom, arity_of, link_of, marked};
ghost use Rattle.lmn_store_heap.specs.Sound.{Sound};
ghost use Rattle.lmn_store_heap.specs.Splice.{IsPort};
ghost use Rattle.lmn_ground_parts.specs.Walks.{is_port, net};
ghost use Rattle.lmn_ground.specs.Deeds.{CanDo, all_done, done};
ghost use Rattle.lmn_ground.specs.Marks.{OnWay, anew_mark, first_marks, least_found};
ghost use Rattle.lmn_ground.specs.Spread.{Spread};
ghost use Rattle.lmn_ground.specs.Stands.{HasEntered, IsMarkedEnd, WentBack, WipesOn};

use crate::marks::{ANEW, FOUND};
use crate::seek::{Stand, arity, go_back, is_root};
use lmn_store_trait::LinkStore;

/// What a walk back does to an atom, besides taking its mark back.
#[derive(Clone, Copy, Drop)]
pub enum Deed {
    /// Nothing.
    Leave,
    /// Takes it out of its list.
    Take,
    /// Sets its own mark, to a number below 2^56.
    SetOwn(u64),
}

/// Sets the own mark of an atom.
fn set_own<S: LinkStore>(store: &mut S, a: S::Atom, v: u64)
    requires atom { IsAtom (S.heap store.old) (S.atom_id a) }
    requires small { v < 2 ^ 56 }
    ensures { S.heap store.new ≡ marked (S.heap store.old) (S.atom_id a) (arity_of (S.heap store.old) (S.atom_id a)) v }
{
    let own = arity(store, a);
    store.set_mark(a, own, v);
}

/// Does a deed to an atom.
#[inline(always)]
pub fn act<S: LinkStore>(store: &mut S, a: S::Atom, deed: Deed)
    requires atom { IsAtom (S.heap store.old) (S.atom_id a) }
    requires can { CanDo deed (S.atom_id a ∷ []) (S.heap store.old) }
    ensures { S.heap store.new ≡ done deed (S.atom_id a) (S.heap store.old) }
{
    match deed {
        Deed::Leave => {}
        Deed::Take => store.take_atom(a),
        Deed::SetOwn(v) => set_own(store, a, v),
    }
}

/// The other end of a port, where the port isn't the root and the mark there is still that of the first walk.
pub fn marked_end<S: LinkStore>(
    store: &S,
    root: (S::Atom, u8),
    at: Stand<S::Atom>,
) -> Option<(S::Atom, u8)>
    requires port { IsPort (S.heap store.now) (S.atom_id at.atom) at.port }
    requires way { OnWay (net (S.heap store.now)) (first_marks (S.heap store.now)) (S.atom_id root.0, root.1) at.depth (S.atom_id at.atom) }
    ensures end { IfSome result (λ p. IsMarkedEnd (S.heap store.now) (S.atom_id root.0, root.1) (S.atom_id at.atom, at.port) (S.atom_id p.0, p.1)) }
    ensures low { result ≡ None → (b j : ℕ) → link_of (S.heap store.now) (S.atom_id at.atom) at.port ≡ Some (b, j)
        → is_port (S.atom_id at.atom, at.port) (S.atom_id root.0, root.1) ≡ false → first_marks (S.heap store.now) b < least_found }
{
    if is_root(at.depth, at.port, root.1) {
        return None;
    }
    match store.partner(at.atom, at.port) {
        Some((b, j)) => {
            let _small = arity(store, b);
            if store.mark(b, 0) < FOUND {
                return None;
            }
            Some((b, j))
        }
        None => None,
    }
}

/// Enters an atom anew.
pub fn enter<S: LinkStore>(store: &mut S, a: S::Atom, port: u8)
    requires { IsAtom (S.heap store.old) (S.atom_id a) }
    ensures marked { S.heap store.new ≡ marked (S.heap store.old) (S.atom_id a) 0 (anew_mark port) }
    ensures small { port < 256 }
{
    store.set_mark(a, 0, ANEW + port as u64);
}

/// Goes back from an atom and takes its mark back.
pub fn leave<S: LinkStore>(store: &mut S, root: (S::Atom, u8), at: Stand<S::Atom>) -> Stand<S::Atom>
    requires atom { IsAtom (S.heap store.old) (S.atom_id at.atom) }
    requires deep { 0 < at.depth }
    requires way { OnWay (net (S.heap store.old)) (first_marks (S.heap store.old)) (S.atom_id root.0, root.1) at.depth (S.atom_id at.atom) }
    ensures atom { IsAtom (S.heap store.new) (S.atom_id result.atom) }
    ensures back { WentBack (S.heap store.old) at.depth (S.atom_id at.atom) result.depth (S.atom_id result.atom) result.port }
    ensures marked { S.heap store.new ≡ marked (S.heap store.old) (S.atom_id at.atom) 0 0 }
    ensures sound { Sound (S.heap store.old) }
{
    let _arity = arity(store, at.atom);
    let to = go_back(store, root, at);
    store.set_mark(at.atom, 0, 0);
    to
}

/// Where a second walk goes on that stood at `from` and has entered the atom of `down` anew from there: at the first port of the
/// atom, or behind `from`, where the atom has no port but that by which it was entered. Then its mark is taken back.
#[inline(always)]
pub fn leave_leaf<S: LinkStore>(
    store: &mut S,
    root: (S::Atom, u8),
    from: Stand<S::Atom>,
    down: Stand<S::Atom>,
) -> Stand<S::Atom>
    requires from { IsPort (S.heap store.old) (S.atom_id from.atom) from.port }
    requires atom { IsAtom (S.heap store.old) (S.atom_id down.atom) }
    requires entered { HasEntered (S.heap store.old) from.depth (S.atom_id from.atom) from.port down.depth (S.atom_id down.atom) down.port }
    ensures atom { IsAtom (S.heap store.new) (S.atom_id result.atom) }
    ensures on { WipesOn (S.heap store.old) (S.heap store.new) (S.atom_id root.0, root.1) down.depth (S.atom_id down.atom) down.port result.depth (S.atom_id result.atom) result.port }
{
    let _arity = arity(store, from.atom);
    if arity(store, down.atom) == 1 {
        store.set_mark(down.atom, 0, 0);
        Stand {
            port: from.port + 1,
            ..from
        }
    } else {
        down
    }
}

/// Takes back the marks of a walk, and does a deed to each of its atoms, as a second walk finds them.
pub fn wipe<S: LinkStore>(store: &mut S, root: (S::Atom, u8), count: u64, deed: Deed)
    requires root { IsPort (S.heap store.old) (S.atom_id root.0) root.1 }
    requires spread { (before : Heap) × (all : Bool) × (t : Spread before (S.heap store.old) (S.atom_id root.0, root.1) count all) × CanDo deed t.seen before }
    ensures { (before : Heap) (all : Bool) (t : Spread before (S.heap store.old) (S.atom_id root.0, root.1) count all) → S.heap store.new ≡ all_done deed t.seen before }
{
    let _arity = arity(store, root.0);
    enter(store, root.0, root.1);
    act(store, root.0, deed);
    let mut left = count - 1;
    let mut at = Stand {
        atom: root.0,
        port: 0,
        depth: 0,
    };
    loop {
        if at.port == arity(store, at.atom) {
            if at.depth == 0 {
                break;
            }
            at = leave(store, root, at);
        } else {
            match marked_end(store, root, at) {
                Some((b, j)) => {
                    enter(store, b, j);
                    act(store, b, deed);
                    left -= 1;
                    let down = Stand {
                        atom: b,
                        port: 0,
                        depth: at.depth + 1,
                    };
                    at = leave_leaf(store, root, at, down);
                }
                None => at = Stand {
                    port: at.port + 1,
                    ..at
                },
            }
        }
    }
    store.set_mark(at.atom, 0, 0);
}
