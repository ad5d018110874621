//! How many items a commit leaves.
ghost use Rattle.std.specs.Prelude.{◌≡◌, ◌<◌, ◌≤◌, ◌+◌, ◌-◌, ◌^◌, ℕ, length, min, IfSome, IsSomeAnd};
ghost use Rattle.std.specs.List.{AllByRecursion};
ghost use Rattle.lmn_store_heap.specs.Heap.{rules_in, Unmarked};
ghost use Rattle.lmn_store_heap.specs.Sound.{Valid};
ghost use Rattle.lmn_instr_code.specs.Running.{HeadRegisters};
ghost use Rattle.lmn_solid_bodies.specs.Running.{Registers};
ghost use Rattle.lmn_machine_commit.specs.Registers.{HasRests};
ghost use Rattle.lmn_machine_registers.specs.Agreeing.{Agrees};
ghost use Rattle.lmn_machine.specs.Searching.{AreHeldWhole};
ghost use Rattle.lmn_machine.specs.Costs.{AddsItems, IsSize, IsTold, Leaves, TakesItems};

use crate::machine::Machine;
use crate::rests::rest_items;
use lmn_ground::{Found, size_of};
use lmn_instr_code::Instr;
use lmn_instr_pool::{Body, CodeView};
use lmn_machine_registers::SetRegisters;
use lmn_store_trait::LinkStore;

/// How many atoms a typed context has.
#[derive(Clone, Copy, Drop)]
struct Counted {
    part: u16,
    atoms: u64,
}

/// The number of atoms that is kept, where it is that of this typed context.
fn kept_size(kept: &Option<Counted>, part: u16) -> Option<u64>
    ensures { IfSome result (λ n. IsSomeAnd kept.now (λ k. (k.part ≡ part) × (k.atoms ≡ n))) }
{
    match kept {
        Some(counted) => {
            if counted.part == part {
                Some(counted.atoms)
            } else {
                None
            }
        }
        None => None,
    }
}

/// The number of atoms of a typed context that was found. Of the last one that has more than one atom it is kept.
fn part_size<S: LinkStore>(
    store: &mut S,
    set: &SetRegisters<S::Atom, S::Mem>,
    part: u16,
    kept: &mut Option<Counted>,
    trail: &mut Found<S::Atom>,
) -> u64
    requires unmarked { Unmarked (S.heap store.old) }
    requires held { AreHeldWhole S.atom_id S.mem_id (S.heap store.old) set.now }
    requires part { part < length set.now.parts }
    requires kept { IfSome kept.old (λ k. (s : HeadRegisters) → Agrees S.atom_id S.mem_id set.now s → IsSize (S.heap store.old) (s.images.part k.part) k.atoms) }
    ensures same { S.heap store.new ≡ S.heap store.old }
    ensures size { (s : HeadRegisters) → Agrees S.atom_id S.mem_id set.now s → IsSize (S.heap store.old) (s.images.part part) result }
    ensures kept { IfSome kept.new (λ k. (s : HeadRegisters) → Agrees S.atom_id S.mem_id set.now s → IsSize (S.heap store.old) (s.images.part k.part) k.atoms) }
{
    if let Some(atoms) = kept_size(kept, part) {
        return atoms;
    }
    let _root = store.root();
    let root = set.parts.at(part as usize);
    let atoms = size_of(store, root, trail);
    if atoms == 1 {
        return atoms;
    }
    *kept = Some(Counted { part, atoms });
    atoms
}

/// The number of rules of a membrane that was found.
fn rules_of<S: LinkStore>(store: &S, set: &SetRegisters<S::Atom, S::Mem>, membrane: u16) -> u64
    requires held { AreHeldWhole S.atom_id S.mem_id (S.heap store.now) set.now }
    requires membrane { membrane < length set.now.membranes }
    ensures { (s : HeadRegisters) → Agrees S.atom_id S.mem_id set.now s → result ≡ length (rules_in (S.heap store.now) (s.images.membrane membrane)) }
{
    let _root = store.root();
    store.rules(set.membranes.at(membrane as usize))
}

/// How many items an instruction of a body adds.
fn added<S: LinkStore>(
    store: &mut S,
    set: &SetRegisters<S::Atom, S::Mem>,
    instr: &Instr,
    kept: &mut Option<Counted>,
    trail: &mut Found<S::Atom>,
) -> u64
    requires valid { Valid (S.heap store.old) }
    requires unmarked { Unmarked (S.heap store.old) }
    requires held { AreHeldWhole S.atom_id S.mem_id (S.heap store.old) set.now }
    requires told { IsTold (length set.now.membranes) (length set.now.parts) instr.now }
    requires kept { IfSome kept.old (λ k. (s : HeadRegisters) → Agrees S.atom_id S.mem_id set.now s → IsSize (S.heap store.old) (s.images.part k.part) k.atoms) }
    ensures same { S.heap store.new ≡ S.heap store.old }
    ensures adds { (r : Registers) → Agrees S.atom_id S.mem_id set.now r.head → HasRests S.atom_id S.mem_id (S.heap store.old) set.now r → AddsItems (S.heap store.old) r instr.now result }
    ensures kept { IfSome kept.new (λ k. (s : HeadRegisters) → Agrees S.atom_id S.mem_id set.now s → IsSize (S.heap store.old) (s.images.part k.part) k.atoms) }
{
    match instr {
        Instr::NewAtom { .. } => 1,
        Instr::NewInt { .. } => 1,
        Instr::NewMem { .. } => 1,
        Instr::CopyGround { part, .. } => part_size(store, set, *part, kept, trail),
        Instr::LoadRule { .. } => 1,
        Instr::CopyCells { from, .. } => rest_items(store, set, *from, trail),
        Instr::CopyRules { from, .. } => rules_of(store, set, *from),
        _ => 0,
    }
}

/// How many items an instruction of a body takes.
fn taken<S: LinkStore>(
    store: &mut S,
    set: &SetRegisters<S::Atom, S::Mem>,
    instr: &Instr,
    kept: &mut Option<Counted>,
    trail: &mut Found<S::Atom>,
) -> u128
    requires valid { Valid (S.heap store.old) }
    requires unmarked { Unmarked (S.heap store.old) }
    requires held { AreHeldWhole S.atom_id S.mem_id (S.heap store.old) set.now }
    requires told { IsTold (length set.now.membranes) (length set.now.parts) instr.now }
    requires kept { IfSome kept.old (λ k. (s : HeadRegisters) → Agrees S.atom_id S.mem_id set.now s → IsSize (S.heap store.old) (s.images.part k.part) k.atoms) }
    ensures same { S.heap store.new ≡ S.heap store.old }
    ensures few { result ≤ 2 ^ 64 }
    ensures takes { (r : Registers) → Agrees S.atom_id S.mem_id set.now r.head → HasRests S.atom_id S.mem_id (S.heap store.old) set.now r → TakesItems (S.heap store.old) r instr.now result }
    ensures kept { IfSome kept.new (λ k. (s : HeadRegisters) → Agrees S.atom_id S.mem_id set.now s → IsSize (S.heap store.old) (s.images.part k.part) k.atoms) }
{
    match instr {
        Instr::RemoveAtom { .. } => 1,
        Instr::RemovePart { part } => u128::from(part_size(store, set, *part, kept, trail)),
        Instr::RemoveMem { membrane } => 1 + u128::from(rules_of(store, set, *membrane)),
        Instr::DropCells { membrane } => u128::from(rest_items(store, set, *membrane, trail)),
        _ => 0,
    }
}

/// The number of items that are left by a commit with the code of a body, or 2^64 - 1 where it is more.
fn items_left<S: LinkStore>(
    store: &mut S,
    set: &SetRegisters<S::Atom, S::Mem>,
    body: &Body<'_>,
    trail: &mut Found<S::Atom>,
) -> u64
    requires valid { Valid (S.heap store.old) }
    requires unmarked { Unmarked (S.heap store.old) }
    requires held { AreHeldWhole S.atom_id S.mem_id (S.heap store.old) set.now }
    requires told { AllByRecursion (IsTold (length set.now.membranes) (length set.now.parts)) body.now }
    ensures same { S.heap store.new ≡ S.heap store.old }
    ensures left { (r : Registers) (n : ℕ) → Agrees S.atom_id S.mem_id set.now r.head → HasRests S.atom_id S.mem_id (S.heap store.old) set.now r → Leaves (S.heap store.old) r body.now n → result ≡ min n (2 ^ 64 - 1) }
{
    let mut all_added: u128 = 0;
    let mut all_taken: u128 = 0;
    let mut kept: Option<Counted> = None;
    for i in 0..body.len() {
        all_added += u128::from(added(store, set, body.at(i), &mut kept, trail));
        all_taken += taken(store, set, body.at(i), &mut kept, trail);
    }
    capped(store.items(), all_added, all_taken)
}

/// A sum less a number, or 2^64 - 1 where it is more.
fn capped(items: u64, added: u128, taken: u128) -> u64
    requires { items + added < 2 ^ 128 }
    ensures { (n : ℕ) → n + taken ≡ items + added → result ≡ min n (2 ^ 64 - 1) }
{
    let left = (u128::from(items) + added).saturating_sub(taken);
    if left < u128::from(u64::MAX) {
        left as u64
    } else {
        u64::MAX
    }
}

impl<S: LinkStore> Machine<S> {
    /// The number of items that the commit with a code leaves, or 2^64 - 1 where that is more. The registers hold a match
    /// of its head. It takes no memory, and the store is left as it was.
    /// The size of the part that was counted last is kept, so a part that is copied several times in turn is walked once.
    pub fn cost(&mut self, code: &CodeView<'_>) -> u64
        requires valid { Valid (S.heap self.old.store) }
        requires unmarked { Unmarked (S.heap self.old.store) }
        requires held { AreHeldWhole S.atom_id S.mem_id (S.heap self.old.store) self.old.set }
        requires told { AllByRecursion (IsTold (length self.old.set.membranes) (length self.old.set.parts)) code.now.body }
        ensures same { S.heap self.new.store ≡ S.heap self.old.store }
        ensures registers { self.new.set ≡ self.old.set }
        ensures left { (r : Registers) (n : ℕ) → Agrees S.atom_id S.mem_id self.old.set r.head → HasRests S.atom_id S.mem_id (S.heap self.old.store) self.old.set r → Leaves (S.heap self.old.store) r code.now.body n → result ≡ min n (2 ^ 64 - 1) }
    {
        items_left(&mut self.store, &self.set, code.body(), &mut self.trail)
    }
}
