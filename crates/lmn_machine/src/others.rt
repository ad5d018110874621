//! How many atoms a membrane holds besides those of typed contexts.
ghost use Rattle.std.specs.Prelude.{◌≡◌, ◌≢◌, ◌<◌, ◌≤◌, ◌+◌, ◌-◌, ◌↔◌, ℕ, Some, IsTrue, IsFalse, length, slice_get, take};
ghost use Rattle.std.specs.List.{AllByRecursion};
ghost use Rattle.lmn_store_heap.specs.Heap.{IsAtom, IsMem, atoms_in, port_id, Unmarked};
ghost use Rattle.lmn_instr_code.specs.Running.{HeadRegisters, HasOthers, IsInSome};
ghost use Rattle.lmn_machine_registers.specs.Agreeing.{Agrees};
ghost use Rattle.lmn_machine.specs.Searching.{AreHeldWhole};

use crate::checks;
use lmn_ground::{Found, is_same_port, size_of};
use lmn_machine_registers::{SetRegisters, Stack};
use lmn_store_trait::LinkStore;

/// Whether one of the first n parts that are listed is entered at a port.
fn is_listed<S: LinkStore>(
    store: &S,
    parts: &Stack<(S::Atom, u8)>,
    listed: &[u16],
    n: usize,
    root: (S::Atom, u8),
) -> bool
    requires parts { (k : ℕ) (p : _) → slice_get parts.now k ≡ Some p → IsAtom (S.heap store.now) (S.atom_id p.0) }
    requires listed { AllByRecursion (λ k. k < length parts.now) listed.now }
    requires n { n ≤ length listed.now }
    requires root { IsAtom (S.heap store.now) (S.atom_id root.0) }
    ensures found { IsTrue result → (j k : ℕ) × ((p : _) × (j < n) × (slice_get listed.now j ≡ Some k) × (slice_get parts.now k ≡ Some p) × (port_id S.atom_id p ≡ port_id S.atom_id root)) }
    ensures none { IsFalse result → (j k : ℕ) (p : _) → j < n → slice_get listed.now j ≡ Some k → slice_get parts.now k ≡ Some p → port_id S.atom_id p ≢ port_id S.atom_id root }
{
    for j in 0..n {
        if is_same_port(store, parts.at(listed[j] as usize), root) {
            return true;
        }
    }
    false
}

/// The number of atoms of a membrane that the listed part number i has and no earlier one.
fn atoms_more<S: LinkStore>(
    store: &mut S,
    set: &SetRegisters<S::Atom, S::Mem>,
    m: S::Mem,
    listed: &[u16],
    i: usize,
    trail: &mut Found<S::Atom>,
) -> u64
    requires unmarked { Unmarked (S.heap store.old) }
    requires membrane { IsMem (S.heap store.old) (S.mem_id m) }
    requires held { AreHeldWhole S.atom_id S.mem_id (S.heap store.old) set.now }
    requires listed { AllByRecursion (λ k. k < length set.now.parts) listed.now }
    requires i { i < length listed.now }
    ensures same { S.heap store.new ≡ S.heap store.old }
    ensures fewer { (s : HeadRegisters) (n : ℕ) → Agrees S.atom_id S.mem_id set.now s → HasOthers (IsInSome (S.heap store.old) s (take i listed.now)) n (atoms_in (S.heap store.old) (S.mem_id m)) →
        (result ≤ n) × HasOthers (IsInSome (S.heap store.old) s (take (i + 1) listed.now)) (n - result) (atoms_in (S.heap store.old) (S.mem_id m)) }
{
    let _root = store.root();
    let part = set.parts.at(listed[i] as usize);
    if !checks::stands_in(store, part.0, m) {
        return 0;
    }
    if is_listed(store, &set.parts, listed, i, part) {
        return 0;
    }
    size_of(store, part, trail)
}

/// The number of atoms of a membrane that are in none of the listed parts.
/// It counts down from the atoms of the membrane, so no atom is gone through but those of the parts; a part whose
/// root stands elsewhere counts nothing, and one that an earlier part is entered at too counts once, so nothing is
/// asked of the parts but that they are set.
fn atoms_besides<S: LinkStore>(
    store: &mut S,
    set: &SetRegisters<S::Atom, S::Mem>,
    m: S::Mem,
    listed: &[u16],
    trail: &mut Found<S::Atom>,
) -> u64
    requires unmarked { Unmarked (S.heap store.old) }
    requires membrane { IsMem (S.heap store.old) (S.mem_id m) }
    requires held { AreHeldWhole S.atom_id S.mem_id (S.heap store.old) set.now }
    requires listed { AllByRecursion (λ k. k < length set.now.parts) listed.now }
    ensures same { S.heap store.new ≡ S.heap store.old }
    ensures others { (s : HeadRegisters) → Agrees S.atom_id S.mem_id set.now s → HasOthers (IsInSome (S.heap store.old) s listed.now) result (atoms_in (S.heap store.old) (S.mem_id m)) }
{
    let _root = store.root();
    let mut left = store.atoms(m);
    for i in 0..listed.len() {
        left -= atoms_more(store, set, m, listed, i, trail);
    }
    left
}

/// Whether a membrane holds so many atoms besides those of the listed parts.
pub fn has_others<S: LinkStore>(
    store: &mut S,
    set: &SetRegisters<S::Atom, S::Mem>,
    m: S::Mem,
    listed: &[u16],
    count: u64,
    trail: &mut Found<S::Atom>,
) -> bool
    requires unmarked { Unmarked (S.heap store.old) }
    requires membrane { IsMem (S.heap store.old) (S.mem_id m) }
    requires held { AreHeldWhole S.atom_id S.mem_id (S.heap store.old) set.now }
    requires listed { AllByRecursion (λ k. k < length set.now.parts) listed.now }
    ensures same { S.heap store.new ≡ S.heap store.old }
    ensures others { (s : HeadRegisters) → Agrees S.atom_id S.mem_id set.now s → (IsTrue result ↔ HasOthers (IsInSome (S.heap store.old) s listed.now) count (atoms_in (S.heap store.old) (S.mem_id m))) }
{
    atoms_besides(store, set, m, listed, trail) == count
}
