//! How many items a rest has.
ghost use Rattle.std.specs.Prelude.{◌≡◌, ◌+◌, ℕ, List, length, map, sum};
ghost use Rattle.lmn_store_heap.specs.Heap.{IsMem, rules_in};
ghost use Rattle.lmn_ground.specs.Rests.{AreMembranes, IsLeft};

use crate::rest::{first_membrane, first_rest, next_membrane, next_rest};
use lmn_store_trait::LinkStore;

/// How many atoms a rest has.
fn atoms_left<S: LinkStore>(store: &S, mem: S::Mem, out: &[S::Mem]) -> u64
    requires mem { IsMem (S.heap store.now) (S.mem_id mem) }
    requires out { AreMembranes (S.heap store.now) (map S.mem_id out.now) }
    requires rest { (atoms membranes : List ℕ) × IsLeft (S.heap store.now) (S.mem_id mem) (map S.mem_id out.now) atoms membranes }
    ensures { (atoms membranes : List ℕ) → IsLeft (S.heap store.now) (S.mem_id mem) (map S.mem_id out.now) atoms membranes → result ≡ length atoms }
{
    let _root = store.root();
    let mut count = 0;
    let mut next = first_rest(store, mem, out);
    while let Some(a) = next {
        count += 1;
        next = next_rest(store, mem, out, a);
    }
    count
}

/// How many membranes a rest has, with their rules.
fn membranes_left<S: LinkStore>(store: &S, mem: S::Mem, out: &[S::Mem]) -> u64
    requires mem { IsMem (S.heap store.now) (S.mem_id mem) }
    requires out { AreMembranes (S.heap store.now) (map S.mem_id out.now) }
    requires rest { (atoms membranes : List ℕ) × IsLeft (S.heap store.now) (S.mem_id mem) (map S.mem_id out.now) atoms membranes }
    ensures { (atoms membranes : List ℕ) → IsLeft (S.heap store.now) (S.mem_id mem) (map S.mem_id out.now) atoms membranes →
        result ≡ sum (map (λ n. 1 + length (rules_in (S.heap store.now) n)) membranes) }
{
    let _root = store.root();
    let mut count = 0;
    let mut next = first_membrane(store, mem, out);
    while let Some(m) = next {
        count += 1 + store.rules(m);
        next = next_membrane(store, mem, out, m);
    }
    count
}

/// How many items the rest of a membrane has: its atoms, its membranes, and the rules in these.
pub fn items_left<S: LinkStore>(store: &S, mem: S::Mem, out: &[S::Mem]) -> u64
    requires mem { IsMem (S.heap store.now) (S.mem_id mem) }
    requires out { AreMembranes (S.heap store.now) (map S.mem_id out.now) }
    requires rest { (atoms membranes : List ℕ) × IsLeft (S.heap store.now) (S.mem_id mem) (map S.mem_id out.now) atoms membranes }
    ensures { (atoms membranes : List ℕ) → IsLeft (S.heap store.now) (S.mem_id mem) (map S.mem_id out.now) atoms membranes →
        result ≡ length atoms + sum (map (λ n. 1 + length (rules_in (S.heap store.now) n)) membranes) }
{
    let _root = store.root();
    atoms_left(store, mem, out) + membranes_left(store, mem, out)
}
