//! Atoms that are children of others, and own marks that are set.
ghost use Rattle.std.specs.Prelude.{◌≡◌, ◌+◌, ◌-◌, ◌<◌, ◌↔◌, ◌⊎◌, ◌^◌, IsTrue, true, false, Some};
ghost use Rattle.lmn_store_heap.specs.Heap.{IsAtom, arity_of, link_of, own_mark};
ghost use Rattle.lmn_store_heap.specs.Sound.{Valid};
ghost use Rattle.lmn_print_folding.specs.Marking.{AreBeside, IsChildNowhere, IsChildSomewhere, SetsOwnMark, TellsBefore};

use crate::{FIRST_ITEM, arity, own_mark};
use lmn_store_trait::LinkStore;

/// Changes the own mark of an atom, to a number below 2^56.
pub(crate) fn set_own_mark<S: LinkStore>(store: &mut S, atom: S::Atom, mark: u64)
    requires valid { Valid (S.heap store.old) }
    requires atom { IsAtom (S.heap store.old) (S.atom_id atom) }
    requires small { mark < 2 ^ 56 }
    ensures valid { Valid (S.heap store.new) }
    ensures set { SetsOwnMark (S.heap store.old) (S.heap store.new) (S.atom_id atom) mark }
{
    let slot = arity(store, atom);
    store.set_mark(atom, slot, mark);
    let _root = store.root();
}

/// Whether two atoms stand in one membrane.
fn are_beside<S: LinkStore>(store: &S, a: S::Atom, b: S::Atom) -> bool
    requires a { IsAtom (S.heap store.now) (S.atom_id a) }
    requires b { IsAtom (S.heap store.now) (S.atom_id b) }
    ensures { IsTrue result ↔ AreBeside (S.heap store.now) (S.atom_id a) (S.atom_id b) }
{
    let _root = store.root();
    match store.home(a) {
        Some(m) => match store.home(b) {
            Some(n) => store.same_mem(m, n),
            None => false,
        },
        None => false,
    }
}

/// Whether an atom has a child at a port to which the last port of another atom is joined: where it is the last one, the mark 1
/// tells that it stands before the other.
fn has_child<S: LinkStore>(store: &S, parent: S::Atom, port: u8) -> bool
    requires atom { IsAtom (S.heap store.now) (S.atom_id parent) }
    requires port { port < arity_of (S.heap store.now) (S.atom_id parent) }
    ensures { IsTrue result ↔ ((port + 1 < arity_of (S.heap store.now) (S.atom_id parent)) ⊎ (own_mark (S.heap store.now) (S.atom_id parent) ≡ 1)) }
{
    let ports = arity(store, parent);
    port + 1 < ports || own_mark(store, parent) == FIRST_ITEM
}

/// Whether an atom is a child, where the mark 1 tells which atoms stand before it.
pub(crate) fn is_child<S: LinkStore>(store: &S, atom: S::Atom) -> bool
    requires valid { Valid (S.heap store.now) }
    requires atom { IsAtom (S.heap store.now) (S.atom_id atom) }
    requires before { TellsBefore (S.heap store.now) (S.atom_id atom) }
    ensures child { result ≡ true → IsChildSomewhere (S.heap store.now) (S.atom_id atom) }
    ensures none { result ≡ false → IsChildNowhere (S.heap store.now) (S.atom_id atom) }
{
    let ports = arity(store, atom);
    if ports == 0 {
        return false;
    }
    match store.partner(atom, ports - 1) {
        Some((parent, port)) => is_child_at(store, atom, parent, port),
        None => false,
    }
}

/// Whether an atom is a child at the port to which its last one is joined, where the mark 1 tells which atoms stand before it.
fn is_child_at<S: LinkStore>(store: &S, atom: S::Atom, parent: S::Atom, port: u8) -> bool
    requires valid { Valid (S.heap store.now) }
    requires atom { IsAtom (S.heap store.now) (S.atom_id atom) }
    requires ports { 0 < arity_of (S.heap store.now) (S.atom_id atom) }
    requires joined { link_of (S.heap store.now) (S.atom_id atom) (arity_of (S.heap store.now) (S.atom_id atom) - 1) ≡ Some (S.atom_id parent, port) }
    requires parent { IsAtom (S.heap store.now) (S.atom_id parent) }
    requires port { port < arity_of (S.heap store.now) (S.atom_id parent) }
    requires before { TellsBefore (S.heap store.now) (S.atom_id atom) }
    ensures child { result ≡ true → IsChildSomewhere (S.heap store.now) (S.atom_id atom) }
    ensures none { result ≡ false → IsChildNowhere (S.heap store.now) (S.atom_id atom) }
{
    if store.same_atom(atom, parent) {
        return false;
    }
    if are_beside(store, atom, parent) {
        return has_child(store, parent, port);
    }
    false
}
