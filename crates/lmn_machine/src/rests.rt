//! What a membrane holds besides the registers: whether a link leaves it, and how many items it has.
ghost use Rattle.std.specs.Prelude.{◌≡◌, ◌<◌, ◌+◌, ◌↔◌, ◌^◌, ℕ, List, IsSome, IsTrue, length, map, sum};
ghost use Rattle.std.specs.List.{AllByRecursion};
ghost use Rattle.lmn_base.specs.Lists.{In};
ghost use Rattle.lmn_store_heap.specs.Heap.{Heap, IsMem, Unmarked, arity_of, link_of, rules_in};
ghost use Rattle.lmn_store_heap.specs.Sound.{Valid};
ghost use Rattle.lmn_instr_code.specs.Running.{HeadRegisters, HeadSize, IsClosedRest, IsInSome};
ghost use Rattle.lmn_ground.specs.Rests.{own_marked};
ghost use Rattle.lmn_solid_bodies.specs.Running.{Registers};
ghost use Rattle.lmn_machine_registers.specs.Agreeing.{Agrees};
ghost use Rattle.lmn_machine_commit.specs.OwnMarks.{own_painted};
ghost use Rattle.lmn_machine_commit.specs.Registers.{HasRests};
ghost use Rattle.lmn_machine.specs.Searching.{AreHeldWhole, AreRootPorts};

use crate::whole::mark_all;
use lmn_ground::{Found, MATCHED, closed, items_left, paint};
use lmn_machine_commit::mark_taken;
use lmn_machine_registers::SetRegisters;
use lmn_store_trait::LinkStore;

/// Sets the own marks of the atoms of the listed parts.
fn paint_parts<S: LinkStore>(
    store: &mut S,
    set: &SetRegisters<S::Atom, S::Mem>,
    listed: &[u16],
    mark: u64,
    trail: &mut Found<S::Atom>,
)
    requires marked { (h : Heap) × (marks : ℕ → ℕ) × Unmarked h × (S.heap store.old ≡ own_painted h marks) }
    requires full { (a i : ℕ) → i < arity_of (S.heap store.old) a → IsSome (link_of (S.heap store.old) a i) }
    requires parts { AreRootPorts S.atom_id (S.heap store.old) set.now.parts }
    requires listed { AllByRecursion (λ k. k < length set.now.parts) listed.now }
    requires small { mark < 2 ^ 56 }
    ensures { (all : List ℕ) × ((s : HeadRegisters) → Agrees S.atom_id S.mem_id set.now s → (a : ℕ) → In a all ↔ IsInSome (S.heap store.old) s listed.now a) × (S.heap store.new ≡ own_marked mark all (S.heap store.old)) }
{
    for i in 0..listed.len() {
        paint(store, set.parts.at(listed[i] as usize), mark, trail);
    }
}

/// Whether no link leaves the rest of a membrane: what it holds besides the atoms and membranes in registers and the listed
/// parts. While it is asked, the atoms in registers and those of the parts have the own mark 1.
pub fn is_closed<S: LinkStore>(
    store: &mut S,
    set: &SetRegisters<S::Atom, S::Mem>,
    m: S::Mem,
    listed: &[u16],
    trail: &mut Found<S::Atom>,
) -> bool
    requires valid { Valid (S.heap store.old) }
    requires unmarked { Unmarked (S.heap store.old) }
    requires membrane { IsMem (S.heap store.old) (S.mem_id m) }
    requires held { AreHeldWhole S.atom_id S.mem_id (S.heap store.old) set.now }
    requires listed { AllByRecursion (λ k. k < length set.now.parts) listed.now }
    ensures same { S.heap store.new ≡ S.heap store.old }
    ensures closed { (c : HeadSize) (s : HeadRegisters) (x : ℕ) → c.atoms ≡ length set.now.atoms → c.membranes ≡ length set.now.membranes → Agrees S.atom_id S.mem_id set.now s → s.images.membrane x ≡ S.mem_id m →
        (IsTrue result ↔ IsClosedRest (S.heap store.old) c s x listed.now) }
{
    let _root = store.root();
    mark_all(store, &set.atoms, MATCHED);
    paint_parts(store, set, listed, MATCHED, trail);
    let stays = closed(store, m, set.membranes.as_slice());
    paint_parts(store, set, listed, 0, trail);
    mark_all(store, &set.atoms, 0);
    stays
}

/// How many items are left in the membrane of a register besides all registers: atoms, membranes, and the rules in these.
/// While they are counted, those of the registers and of the parts in them that stand in the membrane have the own mark 1.
pub fn rest_items<S: LinkStore>(
    store: &mut S,
    set: &SetRegisters<S::Atom, S::Mem>,
    membrane: u16,
    trail: &mut Found<S::Atom>,
) -> u64
    requires valid { Valid (S.heap store.old) }
    requires unmarked { Unmarked (S.heap store.old) }
    requires held { AreHeldWhole S.atom_id S.mem_id (S.heap store.old) set.now }
    requires membrane { membrane < length set.now.membranes }
    ensures same { S.heap store.new ≡ S.heap store.old }
    ensures items { (r : Registers) → HasRests S.atom_id S.mem_id (S.heap store.old) set.now r →
        result ≡ length (r.left_atoms membrane) + sum (map (λ n. 1 + length (rules_in (S.heap store.old) n)) (r.left_membranes membrane)) }
{
    let _root = store.root();
    let place = set.membranes.at(membrane as usize);
    mark_taken(store, set, place, MATCHED, trail);
    let items = items_left(store, place, set.membranes.as_slice());
    mark_taken(store, set, place, 0, trail);
    items
}
