//! Whether a link leaves a rest.
ghost use Rattle.std.specs.Prelude.{◌≡◌, ◌≢◌, ◌<◌, ◌↔◌, ℕ, List, Some, IsTrue, map};
ghost use Rattle.lmn_base.specs.Lists.{In};
ghost use Rattle.lmn_store_heap.specs.Heap.{IsAtom, IsMem, PortsUnmarked, arity_of, link_of};
ghost use Rattle.lmn_ground_parts.specs.Rests.{NoneLeaves};
ghost use Rattle.lmn_ground.specs.Marks.{first_marks};
ghost use Rattle.lmn_ground.specs.Rests.{AreMembranes, IsLeft, port_marked, ports_marked};

use crate::rest::{first_rest, next_rest};
use crate::seek::arity;
use lmn_store_trait::LinkStore;

/// Sets the first mark of an atom that has a port.
fn mark_port<S: LinkStore>(store: &mut S, a: S::Atom, v: u64)
    requires { IsAtom (S.heap store.old) (S.atom_id a) }
    ensures { S.heap store.new ≡ port_marked (arity_of (S.heap store.old) (S.atom_id a)) v (S.atom_id a) (S.heap store.old) }
{
    if arity(store, a) > 0 {
        store.set_mark(a, 0, v);
    }
}

/// Sets the first marks of the atoms of a rest.
fn mark_rest<S: LinkStore>(store: &mut S, mem: S::Mem, out: &[S::Mem], v: u64)
    requires mem { IsMem (S.heap store.old) (S.mem_id mem) }
    requires out { AreMembranes (S.heap store.old) (map S.mem_id out.now) }
    requires rest { (atoms membranes : List ℕ) × IsLeft (S.heap store.old) (S.mem_id mem) (map S.mem_id out.now) atoms membranes }
    ensures { (atoms membranes : List ℕ) → IsLeft (S.heap store.old) (S.mem_id mem) (map S.mem_id out.now) atoms membranes → S.heap store.new ≡ ports_marked v atoms (S.heap store.old) }
{
    let _root = store.root();
    let mut next = first_rest(store, mem, out);
    while let Some(a) = next {
        mark_port(store, a, v);
        next = next_rest(store, mem, out, a);
    }
}

/// Whether a port isn't joined, or leads to an atom whose first mark isn't 0.
fn stays<S: LinkStore>(store: &S, a: S::Atom, i: u8) -> bool
    requires atom { IsAtom (S.heap store.now) (S.atom_id a) }
    requires port { i < arity_of (S.heap store.now) (S.atom_id a) }
    ensures { IsTrue result ↔ ((b j : ℕ) → link_of (S.heap store.now) (S.atom_id a) i ≡ Some (b, j) → first_marks (S.heap store.now) b ≢ 0) }
{
    match store.partner(a, i) {
        Some((b, _)) => store.mark(b, 0) != 0,
        None => true,
    }
}

/// Whether each port of an atom stays.
fn all_stay<S: LinkStore>(store: &S, a: S::Atom) -> bool
    requires { IsAtom (S.heap store.now) (S.atom_id a) }
    ensures { IsTrue result ↔ ((i b j : ℕ) → link_of (S.heap store.now) (S.atom_id a) i ≡ Some (b, j) → first_marks (S.heap store.now) b ≢ 0) }
{
    for i in 0..arity(store, a) {
        if !stays(store, a, i) {
            return false;
        }
    }
    true
}

/// Whether each port of each atom of a rest stays.
fn rest_stays<S: LinkStore>(store: &S, mem: S::Mem, out: &[S::Mem]) -> bool
    requires mem { IsMem (S.heap store.now) (S.mem_id mem) }
    requires out { AreMembranes (S.heap store.now) (map S.mem_id out.now) }
    requires rest { (atoms membranes : List ℕ) × IsLeft (S.heap store.now) (S.mem_id mem) (map S.mem_id out.now) atoms membranes }
    ensures { (atoms membranes : List ℕ) → IsLeft (S.heap store.now) (S.mem_id mem) (map S.mem_id out.now) atoms membranes →
        (IsTrue result ↔ ((a i b j : ℕ) → In a atoms → link_of (S.heap store.now) a i ≡ Some (b, j) → first_marks (S.heap store.now) b ≢ 0)) }
{
    let _root = store.root();
    let mut next = first_rest(store, mem, out);
    while let Some(a) = next {
        if all_stay(store, a) {
            next = next_rest(store, mem, out, a);
        } else {
            return false;
        }
    }
    true
}

/// Whether no link leaves the rest of a membrane: its atoms whose own mark is 0, and its membranes but those of `out`, with
/// all that is in them.
pub fn closed<S: LinkStore>(store: &mut S, mem: S::Mem, out: &[S::Mem]) -> bool
    requires mem { IsMem (S.heap store.old) (S.mem_id mem) }
    requires out { AreMembranes (S.heap store.old) (map S.mem_id out.now) }
    requires rest { (atoms membranes : List ℕ) × IsLeft (S.heap store.old) (S.mem_id mem) (map S.mem_id out.now) atoms membranes }
    requires clean { PortsUnmarked (S.heap store.old) }
    ensures closed { (atoms membranes : List ℕ) → IsLeft (S.heap store.old) (S.mem_id mem) (map S.mem_id out.now) atoms membranes → (IsTrue result ↔ NoneLeaves (S.heap store.old) atoms) }
    ensures same { S.heap store.new ≡ S.heap store.old }
{
    let _root = store.root();
    mark_rest(store, mem, out, 1);
    let stays = rest_stays(store, mem, out);
    mark_rest(store, mem, out, 0);
    stays
}
