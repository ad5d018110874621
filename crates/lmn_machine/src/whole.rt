//! Parts of any number of atoms.
ghost use Rattle.std.specs.Prelude.{◌≡◌, ◌<◌, ◌↔◌, ◌^◌, List, IsTrue, map};
ghost use Rattle.lmn_store_heap.specs.Heap.{IsAtom, IsMem, arity_of, Unmarked};
ghost use Rattle.lmn_base.specs.Graphs.{SameGraph};
ghost use Rattle.lmn_store_heap.specs.Graphs.{atom_map};
ghost use Rattle.lmn_ground.specs.Listed.{IsListed};
ghost use Rattle.lmn_ground.specs.Rests.{own_marked};
ghost use Rattle.lmn_machine.specs.Searching.{IsHeldPart, IsWholeApart};
ghost use Rattle.lmn_machine.specs.Outcomes.{IsEndWith};
ghost use Rattle.lmn_machine_commit.specs.Registers.{AreAtomHandles};

use crate::checks;
use lmn_ground::{Found, MATCHED, PartList, equal, is_ground};
use lmn_machine_commit::set_own;
use lmn_machine_registers::Stack;
use lmn_store_trait::LinkStore;

/// Sets the own marks of the atoms in registers, to a number below 2^56.
pub fn mark_all<S: LinkStore>(store: &mut S, atoms: &Stack<S::Atom>, mark: u64)
    requires held { AreAtomHandles S.atom_id (S.heap store.old) atoms.now }
    requires small { mark < 2 ^ 56 }
    ensures { S.heap store.new ≡ own_marked mark (map S.atom_id atoms.now) (S.heap store.old) }
{
    for i in 0..atoms.len() {
        set_own(store, atoms.at(i), mark);
    }
}

/// Whether the part entered at a port stands whole in a membrane, and none of its atoms is in registers. While it is asked
/// the atoms in registers have the own mark 1.
fn is_whole<S: LinkStore>(
    store: &mut S,
    root: (S::Atom, u8),
    m: S::Mem,
    atoms: &Stack<S::Atom>,
    list: &mut PartList<S::Atom>,
) -> bool
    requires unmarked { Unmarked (S.heap store.old) }
    requires atom { IsAtom (S.heap store.old) (S.atom_id root.0) }
    requires port { root.1 < arity_of (S.heap store.old) (S.atom_id root.0) }
    requires membrane { IsMem (S.heap store.old) (S.mem_id m) }
    requires held { AreAtomHandles S.atom_id (S.heap store.old) atoms.now }
    ensures listed { IsListed S.atom_id (S.heap store.old) list.new }
    ensures whole { IsTrue result ↔ IsWholeApart S.atom_id (S.heap store.old) atoms.now (S.mem_id m) (S.atom_id root.0, root.1) }
    ensures same { S.heap store.new ≡ S.heap store.old }
{
    let _root = store.root();
    mark_all(store, atoms, MATCHED);
    let whole = is_ground(store, root, m, list);
    mark_all(store, atoms, 0);
    whole
}

/// The other end of a port, where the part entered there stands whole and apart. Its atoms are listed then, as far as there is room for all.
pub fn whole_end<S: LinkStore>(
    store: &mut S,
    from: S::Atom,
    port: u8,
    m: S::Mem,
    atoms: &Stack<S::Atom>,
    list: &mut PartList<S::Atom>,
) -> Option<(S::Atom, u8)>
    requires unmarked { Unmarked (S.heap store.old) }
    requires atom { IsAtom (S.heap store.old) (S.atom_id from) }
    requires membrane { IsMem (S.heap store.old) (S.mem_id m) }
    requires held { AreAtomHandles S.atom_id (S.heap store.old) atoms.now }
    requires listed { IsListed S.atom_id (S.heap store.old) list.old }
    ensures same { S.heap store.new ≡ S.heap store.old }
    ensures listed { IsListed S.atom_id (S.heap store.old) list.new }
    ensures end { IsEndWith S.atom_id (S.heap store.old) (IsWholeApart S.atom_id (S.heap store.old) atoms.now (S.mem_id m)) (S.atom_id from) port result }
{
    match checks::end(store, from, port) {
        Some(root) => {
            if is_whole(store, root, m, atoms, list) {
                Some(root)
            } else {
                None
            }
        }
        None => None,
    }
}

/// Whether two parts that were found are equal as rooted graphs.
pub fn are_equal<S: LinkStore>(
    store: &mut S,
    x: (S::Atom, u8),
    y: (S::Atom, u8),
    trail: &mut Found<S::Atom>,
) -> bool
    requires unmarked { Unmarked (S.heap store.old) }
    requires x { IsAtom (S.heap store.old) (S.atom_id x.0) }
    requires y { IsAtom (S.heap store.old) (S.atom_id y.0) }
    requires held { (handles : List _) × IsHeldPart S.atom_id (S.heap store.old) handles x × IsHeldPart S.atom_id (S.heap store.old) handles y }
    ensures same { S.heap store.new ≡ S.heap store.old }
    ensures equal { IsTrue result ↔ SameGraph (atom_map (S.heap store.old)) (S.atom_id x.0, x.1) (atom_map (S.heap store.old)) (S.atom_id y.0, y.1) }
{
    let _root = store.root();
    equal(store, x, y, trail)
}

/// Whether two parts that were found differ as rooted graphs.
pub fn are_different<S: LinkStore>(
    store: &mut S,
    x: (S::Atom, u8),
    y: (S::Atom, u8),
    trail: &mut Found<S::Atom>,
) -> bool
    requires unmarked { Unmarked (S.heap store.old) }
    requires x { IsAtom (S.heap store.old) (S.atom_id x.0) }
    requires y { IsAtom (S.heap store.old) (S.atom_id y.0) }
    requires held { (handles : List _) × IsHeldPart S.atom_id (S.heap store.old) handles x × IsHeldPart S.atom_id (S.heap store.old) handles y }
    ensures same { S.heap store.new ≡ S.heap store.old }
    ensures different { IsTrue result ↔ (SameGraph (atom_map (S.heap store.old)) (S.atom_id x.0, x.1) (atom_map (S.heap store.old)) (S.atom_id y.0, y.1) → ⊥) }
{
    !are_equal(store, x, y, trail)
}
