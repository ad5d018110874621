//! The walk that lists the atoms of a part.
ghost use Rattle.std.specs.Prelude.{◌≡◌, ◌<◌, ℕ, [], map, length, None, OnOk, IsTrue};
ghost use Rattle.lmn_base.specs.Lists.{In};
ghost use Rattle.lmn_store_heap.specs.Heap.{Distinct, marks_of};
ghost use Rattle.lmn_ground.specs.Marks.{first_marks};
ghost use Rattle.lmn_store_heap.specs.Splice.{IsPort};
ghost use Rattle.lmn_ground.specs.Spread.{CleanPart, IsWhole, Numbered};
ghost use Rattle.lmn_ground.specs.Copies.{NumbersAtoms, Gathered, unmarked_all};
ghost use Rattle.lmn_ground_parts.specs.Copies.{AllAtoms};
ghost use Rattle.lmn_ground_parts.specs.Walks.{IsPartInDepth};

use crate::found::Found;
use crate::marks::{FOUND, PORTS};
use crate::seek::{Stand, arity, go_down, seek};
use crate::spread::mark_entry;
use lmn_base::NoMemory;
use lmn_store_trait::LinkStore;

/// Lists the atoms of a part as a walk finds them, and marks each with its number.
pub fn gather<S: LinkStore>(
    store: &mut S,
    root: (S::Atom, u8),
    atoms: &mut Found<S::Atom>,
) -> Result<(), NoMemory>
    requires root { IsPort (S.heap store.old) (S.atom_id root.0) root.1 }
    requires clean { CleanPart (S.heap store.old) (S.atom_id root.0, root.1) }
    requires ground { IsWhole (S.heap store.old) (S.atom_id root.0, root.1) None }
    requires empty { atoms.old ≡ [] }
    ensures marked { NumbersAtoms (S.heap store.old) (S.heap store.new) (map S.atom_id atoms.new) }
    ensures ok { OnOk result (Gathered (S.heap store.old) (S.heap store.new) (S.atom_id root.0, root.1) (map S.atom_id atoms.new)) }
{
    let _arity = arity(store, root.0);
    atoms.push(root.0)?;
    mark_entry(store, root.0, root.1, 0);
    let mut count = 1;
    let mut at = Stand {
        atom: root.0,
        port: 0,
        depth: 0,
    };
    loop {
        let stand = seek(store, root, at);
        if stand.port == arity(store, stand.atom) {
            return Ok(());
        }
        match store.partner(stand.atom, stand.port) {
            Some((b, j)) => {
                atoms.push(b)?;
                mark_entry(store, b, j, count);
                let down = Stand {
                    atom: b,
                    port: 0,
                    depth: stand.depth + 1,
                };
                at = go_down(store, root, stand, down);
                count += 1;
            }
            None => unreachable!(),
        }
    }
}

/// Marks atoms with their numbers.
pub fn number<S: LinkStore>(store: &mut S, atoms: &Found<S::Atom>)
    requires there { AllAtoms (S.heap store.old) (map S.atom_id atoms.now) }
    requires once { Distinct (map S.atom_id atoms.now) }
    requires clean { (x : ℕ) → In x (map S.atom_id atoms.now) → first_marks (S.heap store.old) x ≡ 0 }
    requires ports { (x : ℕ) → In x (map S.atom_id atoms.now) → 0 < length (marks_of ((S.heap store.old).atoms x)) }
    ensures marked { NumbersAtoms (S.heap store.old) (S.heap store.new) (map S.atom_id atoms.now) }
    ensures numbers { Numbered (first_marks (S.heap store.new)) 2 (map S.atom_id atoms.now) }
{
    let _root = store.root();
    for i in 0..atoms.len() {
        store.set_mark(*atoms.at(i), 0, FOUND + PORTS * i as u64);
    }
}

/// Lists the atoms of a part, where they aren't listed yet, and marks each with its number.
pub fn list_part<S: LinkStore>(
    store: &mut S,
    root: (S::Atom, u8),
    atoms: &mut Found<S::Atom>,
    listed: bool,
) -> Result<(), NoMemory>
    requires root { IsPort (S.heap store.old) (S.atom_id root.0) root.1 }
    requires clean { CleanPart (S.heap store.old) (S.atom_id root.0, root.1) }
    requires ground { IsWhole (S.heap store.old) (S.atom_id root.0, root.1) None }
    requires listed { IsTrue listed → IsPartInDepth (S.heap store.old) (S.atom_id root.0, root.1) (map S.atom_id atoms.old) }
    ensures marked { NumbersAtoms (S.heap store.old) (S.heap store.new) (map S.atom_id atoms.new) }
    ensures ok { OnOk result (Gathered (S.heap store.old) (S.heap store.new) (S.atom_id root.0, root.1) (map S.atom_id atoms.new)) }
{
    let _arity = arity(store, root.0);
    if listed {
        number(store, atoms);
        return Ok(());
    }
    atoms.clear();
    gather(store, root, atoms)
}

/// Takes back the first marks of these atoms.
pub fn clear<S: LinkStore>(store: &mut S, atoms: &Found<S::Atom>)
    requires there { AllAtoms (S.heap store.old) (map S.atom_id atoms.now) }
    ensures { S.heap store.new ≡ unmarked_all (S.heap store.old) (map S.atom_id atoms.now) }
{
    for i in 0..atoms.len() {
        store.set_mark(*atoms.at(i), 0, 0);
    }
}
