//! The numbers of printed links, in the marks of their ports: each mark is greater by one.
ghost use Rattle.std.specs.Prelude.{◌<◌, ◌≤◌, ◌+◌, ◌*◌, ◌^◌, List, length};
ghost use Rattle.lmn_base.specs.Limits.{most_links};
ghost use Rattle.lmn_store_heap.specs.Heap.{IsAtom};
ghost use Rattle.lmn_store_heap.specs.Sound.{Valid};
ghost use Rattle.lmn_print_plain.specs.Numbers.{GoOn, Remarks};
ghost use Rattle.lmn_print_folding.specs.Marks.{Event, WalkMeets, atoms_left, links_met};

use crate::family::{arguments, is_item, term_at};
use crate::walk::{Stand, behind_term};
use lmn_print_plain::number_port;
use lmn_store_trait::LinkStore;

/// Gives the printed links of an item, and of the terms in it, that have none their numbers, where so many links have one.
/// Answers how many have one then.
/// Room for the numbers is counted by the atoms that the walk leaves and not by what it meets, since a heap doesn't bound
/// arities: an atom has at most 255 ports.
pub fn number_item<S: LinkStore>(store: &mut S, item: S::Atom, count: u64) -> u64
    requires valid { Valid (S.heap store.old) }
    requires atom { IsAtom (S.heap store.old) (S.atom_id item) }
    requires walk { (es : List Event) × WalkMeets (S.heap store.old) (S.atom_id item) 0 es × (count + most_links * length (atoms_left es) < 2 ^ 56) }
    ensures marks { Remarks (S.heap store.old) (S.heap store.new) }
    ensures numbers { (es : List Event) → WalkMeets (S.heap store.old) (S.atom_id item) 0 es → GoOn (S.heap store.old) (S.heap store.new) count result (links_met es) }
    ensures few { (es : List Event) → WalkMeets (S.heap store.old) (S.atom_id item) 0 es → result ≤ count + most_links * length (atoms_left es) }
{
    let _root = store.root();
    let mut numbered = count;
    let mut at = Stand {
        atom: item,
        port: 0,
    };
    let mut turns: u64 = 0;
    loop {
        let _sound = store.root();
        if at.port < arguments(store, at.atom) {
            match term_at(store, at.atom, at.port) {
                Some(term) => {
                    turns += 1;
                    at = Stand {
                        atom: term,
                        port: 0,
                    };
                }
                None => {
                    numbered = number_port(store, at.atom, at.port, numbered);
                    at = Stand {
                        port: at.port + 1,
                        ..at
                    };
                }
            }
        } else {
            if is_item(store, at.atom) {
                return numbered;
            }
            turns += 1;
            at = behind_term(store, at.atom);
        }
    }
}
