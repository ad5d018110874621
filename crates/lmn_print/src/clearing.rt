//! All marks of all atoms are set to 0.
ghost use Rattle.std.specs.Prelude.{◌≡◌, ℕ, List};
ghost use Rattle.lmn_store_heap.specs.Heap.{IsAtom, mark_of, Unmarked};
ghost use Rattle.lmn_store_heap.specs.Sound.{Valid};
ghost use Rattle.lmn_print_plain.specs.Numbers.{remarked};

use lmn_print_plain::{first_printed, next_printed};
use lmn_store_trait::LinkStore;

/// Sets all marks of all atoms to 0, those of their ports and their own.
pub(crate) fn clear_all<S: LinkStore>(store: &mut S)
    requires { Valid (S.heap store.old) }
    ensures marks { (marks : ℕ → List ℕ) × (S.heap store.new ≡ remarked (S.heap store.old) marks) }
    ensures none { Unmarked (S.heap store.new) }
{
    let _root = store.root();
    let mut next = first_printed(store);
    while let Some(atom) = next {
        clear_atom(store, atom);
        next = next_printed(store, atom);
    }
}

/// Sets the marks of an atom to 0.
fn clear_atom<S: LinkStore>(store: &mut S, atom: S::Atom)
    requires { IsAtom (S.heap store.old) (S.atom_id atom) }
    ensures marks { (marks : ℕ → List ℕ) × (S.heap store.new ≡ remarked (S.heap store.old) marks) }
    ensures here { (i : ℕ) → mark_of (S.heap store.new) (S.atom_id atom) i ≡ 0 }
    ensures others { (a i : ℕ) → mark_of (S.heap store.old) a i ≡ 0 → mark_of (S.heap store.new) a i ≡ 0 }
{
    let _root = store.root();
    for slot in 0..=store.functor(atom).arity {
        store.set_mark(atom, slot, 0);
    }
}
