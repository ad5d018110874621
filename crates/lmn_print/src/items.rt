//! The items of a membrane in printed order: those with the own mark of a first item, and then those with that of a later one.
ghost use Rattle.std.specs.Prelude.{◌≡◌, true, Some, IfSome, filter, ◌==◌};
ghost use Rattle.std.specs.Option.{option_map};
ghost use Rattle.lmn_print_folding.specs.Marks.{is_item};
ghost use Rattle.lmn_store_heap.specs.Heap.{IsMem, atoms_in, home_of, own_mark};
ghost use Rattle.lmn_store_heap.specs.Lists.{after, from};
ghost use Rattle.lmn_print_folding.specs.Chosen.{items_in, marked_in};

use lmn_print_folding::{FIRST_ITEM, LATER_ITEM, own_mark};
use lmn_store_trait::LinkStore;

/// The first item of a membrane.
pub(crate) fn first_item<S: LinkStore>(store: &S, mem: S::Mem) -> Option<S::Atom>
    requires { IsMem (S.heap store.now) (S.mem_id mem) }
    ensures list { let all = items_in (S.heap store.now) (S.mem_id mem) in from (option_map S.atom_id result) all ≡ all }
    ensures home { IfSome result (λ a. home_of (S.heap store.now) (S.atom_id a) ≡ Some (S.mem_id mem)) }
    ensures item { IfSome result (λ a. is_item (S.heap store.now) (S.atom_id a) ≡ true) }
{
    match with_mark(store, mem, store.first_atom(mem), FIRST_ITEM) {
        Some(item) => Some(item),
        None => with_mark(store, mem, store.first_atom(mem), LATER_ITEM),
    }
}

/// The item of a membrane behind this one.
pub(crate) fn next_item<S: LinkStore>(store: &S, mem: S::Mem, item: S::Atom) -> Option<S::Atom>
    requires mem { IsMem (S.heap store.now) (S.mem_id mem) }
    requires home { home_of (S.heap store.now) (S.atom_id item) ≡ Some (S.mem_id mem) }
    requires item { is_item (S.heap store.now) (S.atom_id item) ≡ true }
    ensures list { let all = items_in (S.heap store.now) (S.mem_id mem) in from (option_map S.atom_id result) all ≡ after (S.atom_id item) all }
    ensures home { IfSome result (λ a. home_of (S.heap store.now) (S.atom_id a) ≡ Some (S.mem_id mem)) }
    ensures item { IfSome result (λ a. is_item (S.heap store.now) (S.atom_id a) ≡ true) }
{
    let _root = store.root();
    let mark = own_mark(store, item);
    match with_mark(store, mem, store.next_atom(item), mark) {
        Some(next) => Some(next),
        None => {
            if mark == FIRST_ITEM {
                with_mark(store, mem, store.first_atom(mem), LATER_ITEM)
            } else {
                None
            }
        }
    }
}

/// The first atom of a membrane with an own mark, from one on.
fn with_mark<S: LinkStore>(
    store: &S,
    mem: S::Mem,
    first: Option<S::Atom>,
    mark: u64,
) -> Option<S::Atom>
    requires { IfSome first (λ a. home_of (S.heap store.now) (S.atom_id a) ≡ Some (S.mem_id mem)) }
    ensures list { from (option_map S.atom_id result) (marked_in (S.heap store.now) mark (S.mem_id mem))
        ≡ filter (λ a. own_mark (S.heap store.now) a == mark) (from (option_map S.atom_id first) (atoms_in (S.heap store.now) (S.mem_id mem))) }
    ensures home { IfSome result (λ a. home_of (S.heap store.now) (S.atom_id a) ≡ Some (S.mem_id mem)) }
    ensures mark { IfSome result (λ a. own_mark (S.heap store.now) (S.atom_id a) ≡ mark) }
{
    let _root = store.root();
    let mut next = first;
    while let Some(atom) = next {
        if own_mark(store, atom) == mark {
            return Some(atom);
        }
        next = store.next_atom(atom);
    }
    None
}
