//! The atoms of a store in printed order: those of a membrane, and then those of each membrane in it.
ghost use Rattle.std.specs.Prelude.{◌≡◌, Some, IfSome, []};
ghost use Rattle.std.specs.Option.{option_map};
ghost use Rattle.lmn_store_heap.specs.Heap.{IsMem, IsInPlace, mems_in};
ghost use Rattle.lmn_store_heap.specs.Lists.{from, after};
ghost use Rattle.lmn_store_heap.specs.Sound.{Forest, IsTree, flat};
ghost use Rattle.lmn_print_plain.specs.Numbers.{printed_atoms};

use lmn_store_trait::LinkStore;

/// The first atom.
pub fn first_printed<S: LinkStore>(store: &S) -> Option<S::Atom>
    requires { (f : Forest) × IsTree (S.heap store.now) f }
    ensures list { (f : Forest) → IsTree (S.heap store.now) f → let all = printed_atoms (S.heap store.now) (flat f) in from (option_map S.atom_id result) all ≡ all }
    ensures place { IfSome result (λ a. IsInPlace (S.heap store.now) (S.atom_id a)) }
{
    first_from(store, store.root())
}

/// The atom behind this one.
pub fn next_printed<S: LinkStore>(store: &S, atom: S::Atom) -> Option<S::Atom>
    requires tree { (f : Forest) × IsTree (S.heap store.now) f }
    requires place { IsInPlace (S.heap store.now) (S.atom_id atom) }
    ensures list { (f : Forest) → IsTree (S.heap store.now) f → let all = printed_atoms (S.heap store.now) (flat f) in from (option_map S.atom_id result) all ≡ after (S.atom_id atom) all }
    ensures place { IfSome result (λ a. IsInPlace (S.heap store.now) (S.atom_id a)) }
{
    let _root = store.root();
    match store.next_atom(atom) {
        Some(next) => Some(next),
        None => match store.home(atom) {
            Some(mem) => match next_mem_printed(store, mem) {
                Some(inner) => first_from(store, inner),
                None => None,
            },
            None => None,
        },
    }
}

/// The first atom in a membrane, or in those behind it.
fn first_from<S: LinkStore>(store: &S, mem: S::Mem) -> Option<S::Atom>
    requires tree { (f : Forest) × IsTree (S.heap store.now) f }
    requires mem { IsMem (S.heap store.now) (S.mem_id mem) }
    ensures list { (f : Forest) → IsTree (S.heap store.now) f → let all = printed_atoms (S.heap store.now) (from (Some (S.mem_id mem)) (flat f)) in from (option_map S.atom_id result) all ≡ all }
    ensures place { IfSome result (λ a. IsInPlace (S.heap store.now) (S.atom_id a)) }
{
    let _root = store.root();
    let mut at = mem;
    loop {
        if let Some(atom) = store.first_atom(at) {
            return Some(atom);
        }
        match next_mem_printed(store, at) {
            Some(next) => at = next,
            None => return None,
        }
    }
}

/// The membrane behind this one in preorder: the first in it, the one beside it, or the one beside a membrane round it.
pub fn next_mem_printed<S: LinkStore>(store: &S, mem: S::Mem) -> Option<S::Mem>
    requires tree { (f : Forest) × IsTree (S.heap store.now) f }
    requires mem { IsMem (S.heap store.now) (S.mem_id mem) }
    ensures list { (f : Forest) → IsTree (S.heap store.now) f → from (option_map S.mem_id result) (flat f) ≡ after (S.mem_id mem) (flat f) }
    ensures there { IfSome result (λ n. IsMem (S.heap store.now) (S.mem_id n)) }
{
    let _root = store.root();
    match store.first_mem(mem) {
        Some(inner) => Some(inner),
        None => next_beside(store, mem),
    }
}

/// The membrane behind one in which there is none.
fn next_beside<S: LinkStore>(store: &S, mem: S::Mem) -> Option<S::Mem>
    requires tree { (f : Forest) × IsTree (S.heap store.now) f }
    requires mem { IsMem (S.heap store.now) (S.mem_id mem) }
    requires none { mems_in (S.heap store.now) (S.mem_id mem) ≡ [] }
    ensures list { (f : Forest) → IsTree (S.heap store.now) f → from (option_map S.mem_id result) (flat f) ≡ after (S.mem_id mem) (flat f) }
    ensures there { IfSome result (λ n. IsMem (S.heap store.now) (S.mem_id n)) }
{
    let _root = store.root();
    let mut at = mem;
    loop {
        match store.parent(at) {
            Some(parent) => match store.next_mem(at) {
                Some(next) => return Some(next),
                None => at = parent,
            },
            None => return None,
        }
    }
}
