//! Which atoms are items: those that are no child, and then, in list order, each above which there is no item so far.
ghost use Rattle.std.specs.Prelude.{◌≡◌, ℕ};
ghost use Rattle.lmn_store_heap.specs.Heap.{IsAtom, IsMem, own_mark, Unmarked};
ghost use Rattle.lmn_store_heap.specs.Sound.{Valid};
ghost use Rattle.lmn_print_folding.specs.Chosen.{AreChosen, ChangesOwnMarks};
ghost use Rattle.lmn_print_folding.specs.Children.{IsMarkedIn};
ghost use Rattle.lmn_print_folding.specs.Marking.{AreFirsts, AreShown, MarksFirst, MarksLater, MarksTermsIfFirst, TellsBefore};

use crate::items_family::{is_child, set_own_mark};
use crate::items_walk::mark_below;
use crate::{FIRST_ITEM, LATER_ITEM, own_mark};
use lmn_print_plain::{first_printed, next_printed};
use lmn_store_trait::LinkStore;

/// Chooses the items of each membrane: the own mark of an atom is 1 where it is no child, 2 where it is an item after those, and
/// 3 where it is a term in one. It takes no memory and changes nothing else.
pub fn choose_items<S: LinkStore>(store: &mut S)
    requires valid { Valid (S.heap store.old) }
    requires unmarked { Unmarked (S.heap store.old) }
    ensures marks { ChangesOwnMarks (S.heap store.old) (S.heap store.new) }
    ensures marked { (m : ℕ) → IsMem (S.heap store.new) m → IsMarkedIn (S.heap store.new) m }
    ensures chosen { AreChosen (S.heap store.new) }
{
    mark_firsts(store);
    mark_terms(store);
    mark_later_items(store);
}

/// Marks each atom that is no child.
fn mark_firsts<S: LinkStore>(store: &mut S)
    requires valid { Valid (S.heap store.old) }
    requires unmarked { Unmarked (S.heap store.old) }
    ensures valid { Valid (S.heap store.new) }
    ensures marks { ChangesOwnMarks (S.heap store.old) (S.heap store.new) }
    ensures firsts { AreFirsts (S.heap store.new) }
{
    let _root = store.root();
    let mut next = first_printed(store);
    while let Some(atom) = next {
        mark_if_first(store, atom);
        next = next_printed(store, atom);
    }
}

/// Marks an atom that is no child, where the mark 1 tells which atoms stand before it.
fn mark_if_first<S: LinkStore>(store: &mut S, atom: S::Atom)
    requires valid { Valid (S.heap store.old) }
    requires atom { IsAtom (S.heap store.old) (S.atom_id atom) }
    requires unmarked { own_mark (S.heap store.old) (S.atom_id atom) ≡ 0 }
    requires before { TellsBefore (S.heap store.old) (S.atom_id atom) }
    ensures valid { Valid (S.heap store.new) }
    ensures first { MarksFirst (S.heap store.old) (S.heap store.new) (S.atom_id atom) }
{
    if is_child(store, atom) {
        return;
    }
    set_own_mark(store, atom, FIRST_ITEM);
}

/// Marks what stands below the items so far.
fn mark_terms<S: LinkStore>(store: &mut S)
    requires valid { Valid (S.heap store.old) }
    requires firsts { AreFirsts (S.heap store.old) }
    ensures valid { Valid (S.heap store.new) }
    ensures marks { ChangesOwnMarks (S.heap store.old) (S.heap store.new) }
    ensures shown { AreShown (S.heap store.new) }
{
    let _root = store.root();
    let mut next = first_printed(store);
    while let Some(atom) = next {
        mark_below_first(store, atom);
        next = next_printed(store, atom);
    }
}

/// Marks what stands below an atom, if it is no child.
fn mark_below_first<S: LinkStore>(store: &mut S, atom: S::Atom)
    requires valid { Valid (S.heap store.old) }
    requires atom { IsAtom (S.heap store.old) (S.atom_id atom) }
    ensures valid { Valid (S.heap store.new) }
    ensures terms { MarksTermsIfFirst (S.heap store.old) (S.heap store.new) (S.atom_id atom) }
{
    if own_mark(store, atom) != FIRST_ITEM {
        return;
    }
    mark_below(store, atom);
}

/// Makes each atom that isn't marked an item, and marks what stands below it.
fn mark_later_items<S: LinkStore>(store: &mut S)
    requires valid { Valid (S.heap store.old) }
    requires shown { AreShown (S.heap store.old) }
    ensures valid { Valid (S.heap store.new) }
    ensures marks { ChangesOwnMarks (S.heap store.old) (S.heap store.new) }
    ensures marked { (m : ℕ) → IsMem (S.heap store.new) m → IsMarkedIn (S.heap store.new) m }
{
    let _root = store.root();
    let mut next = first_printed(store);
    while let Some(atom) = next {
        mark_if_later(store, atom);
        next = next_printed(store, atom);
    }
}

/// Makes an atom that isn't marked an item, and marks what stands below it.
fn mark_if_later<S: LinkStore>(store: &mut S, atom: S::Atom)
    requires valid { Valid (S.heap store.old) }
    requires atom { IsAtom (S.heap store.old) (S.atom_id atom) }
    ensures valid { Valid (S.heap store.new) }
    ensures later { MarksLater (S.heap store.old) (S.heap store.new) (S.atom_id atom) }
{
    if own_mark(store, atom) != 0 {
        return;
    }
    set_own_mark(store, atom, LATER_ITEM);
    mark_below(store, atom);
}
