//! The terms in an item are marked.
ghost use Rattle.std.specs.Prelude.{◌≡◌, true};
ghost use Rattle.lmn_print_folding.specs.Marks.{is_item};
ghost use Rattle.lmn_store_heap.specs.Heap.{IsAtom};
ghost use Rattle.lmn_store_heap.specs.Sound.{Valid};
ghost use Rattle.lmn_print_folding.specs.Marking.{MarksTerms};

use crate::items_family::set_own_mark;
use crate::{Stand, TERM, arguments, behind_term, is_item, term_at};
use lmn_store_trait::LinkStore;

/// Marks each term in an item, and in the terms in it.
pub(crate) fn mark_below<S: LinkStore>(store: &mut S, item: S::Atom)
    requires valid { Valid (S.heap store.old) }
    requires atom { IsAtom (S.heap store.old) (S.atom_id item) }
    requires item { is_item (S.heap store.old) (S.atom_id item) ≡ true }
    ensures valid { Valid (S.heap store.new) }
    ensures terms { MarksTerms (S.heap store.old) (S.heap store.new) (S.atom_id item) }
{
    let _root = store.root();
    let mut at = Stand {
        atom: item,
        port: 0,
    };
    let mut turns: u64 = 0;
    loop {
        if at.port < arguments(store, at.atom) {
            match term_at(store, at.atom, at.port) {
                Some(term) => {
                    set_own_mark(store, term, TERM);
                    turns += 1;
                    at = Stand {
                        atom: term,
                        port: 0,
                    };
                }
                None => {
                    at = Stand {
                        port: at.port + 1,
                        ..at
                    };
                }
            }
        } else {
            if is_item(store, at.atom) {
                return;
            }
            turns += 1;
            at = behind_term(store, at.atom);
        }
    }
}
