//! A walk goes on to the next port that has to be looked at.
ghost use Rattle.std.specs.Prelude.{◌≡◌, ◌≢◌, ◌<◌, ◌≤◌, ◌↔◌, ◌^◌, IsTrue};
ghost use Rattle.lmn_store_heap.specs.Heap.{IsAtom, arity_of};
ghost use Rattle.lmn_store_heap.specs.Sound.{Sound, AtMost};
ghost use Rattle.lmn_store_heap.specs.Splice.{IsPort};
ghost use Rattle.lmn_ground_parts.specs.Walks.{net};
ghost use Rattle.lmn_ground.specs.Marks.{first_marks, OnWay, Sought, Halts};
ghost use Rattle.lmn_ground.specs.Stands.{HasEntered, WentBack};

use crate::marks::PORTS;
use lmn_store_trait::LinkStore;

/// Where a walk stands: at a port of an atom, so many atoms away from the root.
#[derive(Clone, Copy, Drop)]
pub struct Stand<A> {
    pub atom: A,
    pub port: u8,
    pub depth: u64,
}

/// How many ports an atom has.
#[inline(always)]
pub fn arity<S: LinkStore>(store: &S, a: S::Atom) -> u8
    requires { IsAtom (S.heap store.now) (S.atom_id a) }
    ensures arity { result ≡ arity_of (S.heap store.now) (S.atom_id a) }
    ensures sound { Sound (S.heap store.now) }
    ensures few { AtMost (2 ^ 48) (S.heap store.now) }
{
    let _root = store.root();
    store.functor(a).arity
}

/// The port behind the one from which the atom was entered.
#[inline(always)]
pub fn go_back<S: LinkStore>(store: &S, root: (S::Atom, u8), at: Stand<S::Atom>) -> Stand<S::Atom>
    requires atom { IsAtom (S.heap store.now) (S.atom_id at.atom) }
    requires deep { 0 < at.depth }
    requires way { OnWay (net (S.heap store.now)) (first_marks (S.heap store.now)) (S.atom_id root.0, root.1) at.depth (S.atom_id at.atom) }
    ensures atom { IsAtom (S.heap store.now) (S.atom_id result.atom) }
    ensures back { WentBack (S.heap store.now) at.depth (S.atom_id at.atom) result.depth (S.atom_id result.atom) result.port }
{
    let _arity = arity(store, at.atom);
    let entry = (store.mark(at.atom, 0) % PORTS) as u8;
    match store.partner(at.atom, entry) {
        Some((atom, port)) => {
            let _there = arity(store, atom);
            Stand {
                atom,
                port: port + 1,
                depth: at.depth - 1,
            }
        }
        None => unreachable!(),
    }
}

/// Whether a port is the root: that of the root's atom, which is no step away.
pub fn is_root(depth: u64, port: u8, root: u8) -> bool
    ensures { IsTrue result ↔ (depth ≡ 0) × (port ≡ root) }
{
    depth == 0 && port == root
}

/// The next port that has to be looked at.
#[inline(always)]
pub fn seek<S: LinkStore>(store: &S, root: (S::Atom, u8), from: Stand<S::Atom>) -> Stand<S::Atom>
    requires atom { IsAtom (S.heap store.now) (S.atom_id from.atom) }
    requires port { from.port ≤ arity_of (S.heap store.now) (S.atom_id from.atom) }
    requires way { OnWay (net (S.heap store.now)) (first_marks (S.heap store.now)) (S.atom_id root.0, root.1) from.depth (S.atom_id from.atom) }
    ensures atom { IsAtom (S.heap store.now) (S.atom_id result.atom) }
    ensures sought { Sought (net (S.heap store.now)) (first_marks (S.heap store.now)) (S.atom_id root.0, root.1) from.depth (S.atom_id from.atom) from.port result.depth (S.atom_id result.atom) result.port }
    ensures halts { Halts (net (S.heap store.now)) (first_marks (S.heap store.now)) (S.atom_id root.0, root.1) result.depth (S.atom_id result.atom) result.port }
{
    let mut at = from;
    loop {
        if at.port == arity(store, at.atom) {
            if at.depth == 0 {
                return at;
            }
            at = go_back(store, root, at);
        } else if is_root(at.depth, at.port, root.1) {
            at = Stand {
                port: at.port + 1,
                ..at
            };
        } else {
            match store.partner(at.atom, at.port) {
                Some((b, _)) => {
                    if store.mark(b, 0) == 0 {
                        return at;
                    }
                    at = Stand {
                        port: at.port + 1,
                        ..at
                    };
                }
                None => return at,
            }
        }
    }
}

/// Where a walk goes on that stood at `from` and has entered the atom of `down` from there: at the first port of the atom, or
/// behind `from`, where the atom has no port but that by which it was entered.
#[inline(always)]
pub fn go_down<S: LinkStore>(
    store: &S,
    root: (S::Atom, u8),
    from: Stand<S::Atom>,
    down: Stand<S::Atom>,
) -> Stand<S::Atom>
    requires from { IsPort (S.heap store.now) (S.atom_id from.atom) from.port }
    requires marked { first_marks (S.heap store.now) (S.atom_id from.atom) ≢ 0 }
    requires atom { IsAtom (S.heap store.now) (S.atom_id down.atom) }
    requires way { OnWay (net (S.heap store.now)) (first_marks (S.heap store.now)) (S.atom_id root.0, root.1) down.depth (S.atom_id down.atom) }
    requires entered { HasEntered (S.heap store.now) from.depth (S.atom_id from.atom) from.port down.depth (S.atom_id down.atom) down.port }
    ensures atom { IsAtom (S.heap store.now) (S.atom_id result.atom) }
    ensures inside { result.port ≤ arity_of (S.heap store.now) (S.atom_id result.atom) }
    ensures sought { Sought (net (S.heap store.now)) (first_marks (S.heap store.now)) (S.atom_id root.0, root.1) down.depth (S.atom_id down.atom) down.port result.depth (S.atom_id result.atom) result.port }
{
    let _arity = arity(store, from.atom);
    if arity(store, down.atom) == 1 {
        Stand {
            port: from.port + 1,
            ..from
        }
    } else {
        down
    }
}
