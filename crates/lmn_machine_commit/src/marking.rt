//! Own marks, below 2^56, of what is in registers and stands in a membrane.
ghost use Rattle.std.specs.Prelude.{◌≡◌, ◌<◌, ◌↔◌, ◌^◌, ℕ, List, None, Some, IsTrue};
ghost use Rattle.lmn_base.specs.Graphs.{Reached};
ghost use Rattle.lmn_base.specs.Lists.{In};
ghost use Rattle.lmn_store_heap.specs.Graphs.{atom_map};
ghost use Rattle.lmn_store_heap.specs.Heap.{IsAtom, IsMem, arity_of, home_of, marked};
ghost use Rattle.lmn_ground.specs.Rests.{own_marked};
ghost use Rattle.lmn_ground.specs.Spread.{IsWhole};
ghost use Rattle.lmn_machine_commit.specs.OwnMarks.{AreWholeParts, HasOwnMarks, IsInPartInside, IsOneInside, IsTakenInside};
ghost use Rattle.lmn_machine_commit.specs.Registers.{AreAtomHandles};

use lmn_ground::{Found, paint};
use lmn_machine_registers::{SetRegisters, Stack};
use lmn_store_trait::LinkStore;

/// Sets the own mark of an atom.
pub fn set_own<S: LinkStore>(store: &mut S, a: S::Atom, mark: u64)
    requires atom { IsAtom (S.heap store.old) (S.atom_id a) }
    requires small { mark < 2 ^ 56 }
    ensures { S.heap store.new ≡ marked (S.heap store.old) (S.atom_id a) (arity_of (S.heap store.old) (S.atom_id a)) mark }
{
    let _root = store.root();
    let own = store.functor(a).arity;
    store.set_mark(a, own, mark);
}

/// Whether a membrane is the home of an atom.
pub fn has_home<S: LinkStore>(store: &S, a: S::Atom, m: S::Mem) -> bool
    requires atom { IsAtom (S.heap store.now) (S.atom_id a) }
    requires membrane { IsMem (S.heap store.now) (S.mem_id m) }
    ensures { IsTrue result ↔ (home_of (S.heap store.now) (S.atom_id a) ≡ Some (S.mem_id m)) }
{
    store.stands_in(a, m)
}

/// Sets the own mark of an atom, where it stands in a membrane.
fn mark_inside<S: LinkStore>(store: &mut S, a: S::Atom, m: S::Mem, mark: u64)
    requires atom { IsAtom (S.heap store.old) (S.atom_id a) }
    requires membrane { IsMem (S.heap store.old) (S.mem_id m) }
    requires small { mark < 2 ^ 56 }
    ensures { (all : List ℕ) × ((b : ℕ) → In b all ↔ ((S.atom_id a ≡ b) × (home_of (S.heap store.old) b ≡ Some (S.mem_id m)))) × (S.heap store.new ≡ own_marked mark all (S.heap store.old)) }
{
    if has_home(store, a, m) {
        set_own(store, a, mark);
    }
}

/// Sets the own marks of those atoms that stand in a membrane.
fn mark_atoms<S: LinkStore>(store: &mut S, atoms: &Stack<S::Atom>, m: S::Mem, mark: u64)
    requires marked { HasOwnMarks (S.heap store.old) }
    requires held { AreAtomHandles S.atom_id (S.heap store.old) atoms.now }
    requires membrane { IsMem (S.heap store.old) (S.mem_id m) }
    requires small { mark < 2 ^ 56 }
    ensures { (all : List ℕ) × ((b : ℕ) → In b all ↔ IsOneInside S.atom_id (S.heap store.old) atoms.now (S.mem_id m) b) × (S.heap store.new ≡ own_marked mark all (S.heap store.old)) }
{
    for i in 0..atoms.len() {
        mark_inside(store, atoms.at(i), m, mark);
    }
}

/// Sets the own marks of the atoms of a part, where its root stands in a membrane.
fn paint_inside<S: LinkStore>(
    store: &mut S,
    part: (S::Atom, u8),
    m: S::Mem,
    mark: u64,
    trail: &mut Found<S::Atom>,
)
    requires marked { HasOwnMarks (S.heap store.old) }
    requires atom { IsAtom (S.heap store.old) (S.atom_id part.0) }
    requires port { part.1 < arity_of (S.heap store.old) (S.atom_id part.0) }
    requires whole { IsWhole (S.heap store.old) (S.atom_id part.0, part.1) None }
    requires membrane { IsMem (S.heap store.old) (S.mem_id m) }
    requires small { mark < 2 ^ 56 }
    ensures { (all : List ℕ) × ((b : ℕ) → In b all ↔ ((home_of (S.heap store.old) (S.atom_id part.0) ≡ Some (S.mem_id m)) × Reached (atom_map (S.heap store.old)) (S.atom_id part.0, part.1) b)) × (S.heap store.new ≡ own_marked mark all (S.heap store.old)) }
{
    if has_home(store, part.0, m) {
        paint(store, part, mark, trail);
    }
}

/// Sets the own marks of the atoms of those parts whose roots stand in a membrane.
fn paint_parts<S: LinkStore>(
    store: &mut S,
    parts: &Stack<(S::Atom, u8)>,
    m: S::Mem,
    mark: u64,
    trail: &mut Found<S::Atom>,
)
    requires marked { HasOwnMarks (S.heap store.old) }
    requires parts { AreWholeParts S.atom_id (S.heap store.old) parts.now }
    requires membrane { IsMem (S.heap store.old) (S.mem_id m) }
    requires small { mark < 2 ^ 56 }
    ensures { (all : List ℕ) × ((b : ℕ) → In b all ↔ IsInPartInside S.atom_id (S.heap store.old) parts.now (S.mem_id m) b) × (S.heap store.new ≡ own_marked mark all (S.heap store.old)) }
{
    for i in 0..parts.len() {
        paint_inside(store, parts.at(i), m, mark, trail);
    }
}

/// Sets the own marks of the atoms that are in registers or in parts in registers and stand in a membrane. Walks use the room of
/// `trail`, whatever it holds.
pub fn mark_taken<S: LinkStore>(
    store: &mut S,
    set: &SetRegisters<S::Atom, S::Mem>,
    m: S::Mem,
    mark: u64,
    trail: &mut Found<S::Atom>,
)
    requires marked { HasOwnMarks (S.heap store.old) }
    requires held { AreAtomHandles S.atom_id (S.heap store.old) set.now.atoms }
    requires parts { AreWholeParts S.atom_id (S.heap store.old) set.now.parts }
    requires membrane { IsMem (S.heap store.old) (S.mem_id m) }
    requires small { mark < 2 ^ 56 }
    ensures { (all : List ℕ) × ((b : ℕ) → In b all ↔ IsTakenInside S.atom_id (S.heap store.old) set.now (S.mem_id m) b) × (S.heap store.new ≡ own_marked mark all (S.heap store.old)) }
{
    mark_atoms(store, &set.atoms, m, mark);
    paint_parts(store, &set.parts, m, mark, trail);
}
