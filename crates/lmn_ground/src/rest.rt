//! The atoms and membranes of a rest in their order, one after the other. Nothing here takes memory, and no stack is taken
//! for the depth of a store.
ghost use Rattle.std.specs.Prelude.{◌≡◌, ◌==◌, not, ℕ, List, [], map, Some, IfSome};
ghost use Rattle.std.specs.Option.{option_map};
ghost use Rattle.lmn_base.specs.Lists.{In};
ghost use Rattle.lmn_store_heap.specs.Heap.{IsAtom, IsMem, IsInPlace, home_of, parent_of, atoms_in, mems_in, from, after, own_mark};
ghost use Rattle.lmn_ground_parts.specs.Walks.{is_in};
ghost use Rattle.lmn_ground_parts.specs.Rests.{atoms_of_all, keep};
ghost use Rattle.lmn_ground.specs.Rests.{AreMembranes, IsLeft};

use crate::seek::arity;
use lmn_store_trait::LinkStore;

/// Whether a membrane is among these.
fn is_among<S: LinkStore>(store: &S, m: S::Mem, out: &[S::Mem]) -> bool
    requires there { IsMem (S.heap store.now) (S.mem_id m) }
    requires all { AreMembranes (S.heap store.now) (map S.mem_id out.now) }
    ensures { result ≡ is_in (map S.mem_id out.now) (S.mem_id m) }
{
    for other in out {
        if store.same_mem(*other, m) {
            return true;
        }
    }
    false
}

/// The first membrane, from one on in the list of a membrane, that isn't among these.
fn first_left<S: LinkStore>(
    store: &S,
    mem: S::Mem,
    first: Option<S::Mem>,
    out: &[S::Mem],
) -> Option<S::Mem>
    requires inside { IfSome first (λ n. parent_of (S.heap store.now) (S.mem_id n) ≡ Some (S.mem_id mem)) }
    requires out { AreMembranes (S.heap store.now) (map S.mem_id out.now) }
    ensures list { let all = keep (λ n. not (is_in (map S.mem_id out.now) n)) (from (option_map S.mem_id first) (mems_in (S.heap store.now) (S.mem_id mem))) in from (option_map S.mem_id result) all ≡ all }
    ensures inside { IfSome result (λ n. parent_of (S.heap store.now) (S.mem_id n) ≡ Some (S.mem_id mem)) }
    ensures there { IfSome result (λ n. IsMem (S.heap store.now) (S.mem_id n)) }
{
    let _root = store.root();
    let mut next = first;
    while let Some(m) = next {
        if !is_among(store, m, out) {
            return Some(m);
        }
        next = store.next_mem(m);
    }
    None
}

/// The membrane of a rest behind this one in preorder.
pub fn next_membrane<S: LinkStore>(
    store: &S,
    mem: S::Mem,
    out: &[S::Mem],
    at: S::Mem,
) -> Option<S::Mem>
    requires mem { IsMem (S.heap store.now) (S.mem_id mem) }
    requires out { AreMembranes (S.heap store.now) (map S.mem_id out.now) }
    requires rest { (atoms membranes : List ℕ) × IsLeft (S.heap store.now) (S.mem_id mem) (map S.mem_id out.now) atoms membranes }
    requires at { (atoms membranes : List ℕ) → IsLeft (S.heap store.now) (S.mem_id mem) (map S.mem_id out.now) atoms membranes → In (S.mem_id at) membranes }
    requires there { IsMem (S.heap store.now) (S.mem_id at) }
    ensures list { (atoms membranes : List ℕ) → IsLeft (S.heap store.now) (S.mem_id mem) (map S.mem_id out.now) atoms membranes → from (option_map S.mem_id result) membranes ≡ after (S.mem_id at) membranes }
    ensures there { IfSome result (λ n. IsMem (S.heap store.now) (S.mem_id n)) }
{
    let _root = store.root();
    match store.first_mem(at) {
        Some(inner) => Some(inner),
        None => behind(store, mem, out, at),
    }
}

/// The membrane of a rest behind an empty one in preorder.
fn behind<S: LinkStore>(store: &S, mem: S::Mem, out: &[S::Mem], start: S::Mem) -> Option<S::Mem>
    requires mem { IsMem (S.heap store.now) (S.mem_id mem) }
    requires out { AreMembranes (S.heap store.now) (map S.mem_id out.now) }
    requires rest { (atoms membranes : List ℕ) × IsLeft (S.heap store.now) (S.mem_id mem) (map S.mem_id out.now) atoms membranes }
    requires at { (atoms membranes : List ℕ) → IsLeft (S.heap store.now) (S.mem_id mem) (map S.mem_id out.now) atoms membranes → In (S.mem_id start) membranes }
    requires there { IsMem (S.heap store.now) (S.mem_id start) }
    requires empty { mems_in (S.heap store.now) (S.mem_id start) ≡ [] }
    ensures list { (atoms membranes : List ℕ) → IsLeft (S.heap store.now) (S.mem_id mem) (map S.mem_id out.now) atoms membranes → from (option_map S.mem_id result) membranes ≡ after (S.mem_id start) membranes }
    ensures there { IfSome result (λ n. IsMem (S.heap store.now) (S.mem_id n)) }
{
    let _root = store.root();
    let mut at = start;
    loop {
        match store.parent(at) {
            Some(round) => {
                if store.same_mem(round, mem) {
                    return first_left(store, mem, store.next_mem(at), out);
                }
                match store.next_mem(at) {
                    Some(next) => return Some(next),
                    None => at = round,
                }
            }
            None => return None,
        }
    }
}

/// The first membrane of a rest.
pub fn first_membrane<S: LinkStore>(store: &S, mem: S::Mem, out: &[S::Mem]) -> Option<S::Mem>
    requires mem { IsMem (S.heap store.now) (S.mem_id mem) }
    requires out { AreMembranes (S.heap store.now) (map S.mem_id out.now) }
    ensures list { (atoms membranes : List ℕ) → IsLeft (S.heap store.now) (S.mem_id mem) (map S.mem_id out.now) atoms membranes → from (option_map S.mem_id result) membranes ≡ membranes }
    ensures there { IfSome result (λ n. IsMem (S.heap store.now) (S.mem_id n)) }
{
    let _root = store.root();
    first_left(store, mem, store.first_mem(mem), out)
}

/// Whether the own mark of an atom is 0.
fn is_left<S: LinkStore>(store: &S, a: S::Atom) -> bool
    requires { IsAtom (S.heap store.now) (S.atom_id a) }
    ensures { result ≡ (own_mark (S.heap store.now) (S.atom_id a) == 0) }
{
    let own = arity(store, a);
    store.mark(a, own) == 0
}

/// The first atom, from one on in the list of a membrane, whose own mark is 0.
fn first_unmatched<S: LinkStore>(store: &S, mem: S::Mem, first: Option<S::Atom>) -> Option<S::Atom>
    requires inside { IfSome first (λ a. home_of (S.heap store.now) (S.atom_id a) ≡ Some (S.mem_id mem)) }
    ensures list { let all = keep (λ a. own_mark (S.heap store.now) a == 0) (from (option_map S.atom_id first) (atoms_in (S.heap store.now) (S.mem_id mem))) in from (option_map S.atom_id result) all ≡ all }
    ensures inside { IfSome result (λ a. home_of (S.heap store.now) (S.atom_id a) ≡ Some (S.mem_id mem)) }
{
    let _root = store.root();
    let mut next = first;
    while let Some(a) = next {
        if is_left(store, a) {
            return Some(a);
        }
        next = store.next_atom(a);
    }
    None
}

/// The first atom in a membrane of a rest, or in those behind it.
fn first_inside<S: LinkStore>(
    store: &S,
    mem: S::Mem,
    out: &[S::Mem],
    start: Option<S::Mem>,
) -> Option<S::Atom>
    requires mem { IsMem (S.heap store.now) (S.mem_id mem) }
    requires out { AreMembranes (S.heap store.now) (map S.mem_id out.now) }
    requires rest { (atoms membranes : List ℕ) × IsLeft (S.heap store.now) (S.mem_id mem) (map S.mem_id out.now) atoms membranes }
    requires there { IfSome start (λ m. IsMem (S.heap store.now) (S.mem_id m)) }
    requires at { IfSome start (λ m. (atoms membranes : List ℕ) → IsLeft (S.heap store.now) (S.mem_id mem) (map S.mem_id out.now) atoms membranes → In (S.mem_id m) membranes) }
    ensures list { (atoms membranes : List ℕ) → IsLeft (S.heap store.now) (S.mem_id mem) (map S.mem_id out.now) atoms membranes →
        let all = atoms_of_all (S.heap store.now) (from (option_map S.mem_id start) membranes) in from (option_map S.atom_id result) all ≡ all }
    ensures place { IfSome result (λ a. IsInPlace (S.heap store.now) (S.atom_id a)) }
{
    let _root = store.root();
    let mut next = start;
    while let Some(m) = next {
        if let Some(a) = store.first_atom(m) {
            return Some(a);
        }
        next = next_membrane(store, mem, out, m);
    }
    None
}

/// The first atom of a rest.
pub fn first_rest<S: LinkStore>(store: &S, mem: S::Mem, out: &[S::Mem]) -> Option<S::Atom>
    requires mem { IsMem (S.heap store.now) (S.mem_id mem) }
    requires out { AreMembranes (S.heap store.now) (map S.mem_id out.now) }
    requires rest { (atoms membranes : List ℕ) × IsLeft (S.heap store.now) (S.mem_id mem) (map S.mem_id out.now) atoms membranes }
    ensures list { (atoms membranes : List ℕ) → IsLeft (S.heap store.now) (S.mem_id mem) (map S.mem_id out.now) atoms membranes → from (option_map S.atom_id result) atoms ≡ atoms }
    ensures place { IfSome result (λ a. IsInPlace (S.heap store.now) (S.atom_id a)) }
{
    let _root = store.root();
    match first_unmatched(store, mem, store.first_atom(mem)) {
        Some(a) => Some(a),
        None => first_inside(store, mem, out, first_membrane(store, mem, out)),
    }
}

/// The atom of a rest behind this one.
pub fn next_rest<S: LinkStore>(
    store: &S,
    mem: S::Mem,
    out: &[S::Mem],
    a: S::Atom,
) -> Option<S::Atom>
    requires mem { IsMem (S.heap store.now) (S.mem_id mem) }
    requires out { AreMembranes (S.heap store.now) (map S.mem_id out.now) }
    requires rest { (atoms membranes : List ℕ) × IsLeft (S.heap store.now) (S.mem_id mem) (map S.mem_id out.now) atoms membranes }
    requires place { IsInPlace (S.heap store.now) (S.atom_id a) }
    requires at { (atoms membranes : List ℕ) → IsLeft (S.heap store.now) (S.mem_id mem) (map S.mem_id out.now) atoms membranes → In (S.atom_id a) atoms }
    ensures list { (atoms membranes : List ℕ) → IsLeft (S.heap store.now) (S.mem_id mem) (map S.mem_id out.now) atoms membranes → from (option_map S.atom_id result) atoms ≡ after (S.atom_id a) atoms }
    ensures place { IfSome result (λ b. IsInPlace (S.heap store.now) (S.atom_id b)) }
{
    let _root = store.root();
    match store.home(a) {
        Some(home) => {
            if store.same_mem(home, mem) {
                match first_unmatched(store, mem, store.next_atom(a)) {
                    Some(b) => Some(b),
                    None => first_inside(store, mem, out, first_membrane(store, mem, out)),
                }
            } else {
                match store.next_atom(a) {
                    Some(b) => Some(b),
                    None => first_inside(store, mem, out, next_membrane(store, mem, out, home)),
                }
            }
        }
        None => None,
    }
}
