//! The walk over the ports of an item and of the terms in it, in printed order.
ghost use Rattle.std.specs.Prelude.{◌≡◌, ◌<◌, ◌+◌, ◌-◌, ℕ, Some};
ghost use Rattle.lmn_store_heap.specs.Heap.{IsAtom, arity_of, link_of};
ghost use Rattle.lmn_store_heap.specs.Sound.{Valid};

use crate::family::arity;
use lmn_store_trait::LinkStore;

/// A port of an atom, or the end of its ports.
#[derive(Clone, Copy)]
pub struct Stand<A> {
    pub atom: A,
    pub port: u8,
}

/// Behind the port at which a term stands.
pub fn behind_term<S: LinkStore>(store: &S, term: S::Atom) -> Stand<S::Atom>
    requires valid { Valid (S.heap store.now) }
    requires atom { IsAtom (S.heap store.now) (S.atom_id term) }
    requires ports { 0 < arity_of (S.heap store.now) (S.atom_id term) }
    ensures atom { IsAtom (S.heap store.now) (S.atom_id result.atom) }
    ensures small { result.port < 256 }
    ensures port { (j : ℕ) × (result.port ≡ j + 1) × (link_of (S.heap store.now) (S.atom_id term) (arity_of (S.heap store.now) (S.atom_id term) - 1) ≡ Some (S.atom_id result.atom, j)) }
{
    let last = arity(store, term) - 1;
    match store.partner(term, last) {
        Some((atom, port)) => {
            let _ports = arity(store, atom);
            Stand {
                atom,
                port: port + 1,
            }
        }
        None => unreachable!(),
    }
}
