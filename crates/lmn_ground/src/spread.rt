//! The walk that marks the atoms of a part.
ghost use Rattle.std.specs.Prelude.{◌≡◌, ◌≢◌, ◌<◌, ◌≤◌, ◌+◌, ◌*◌, ◌^◌, ◌↔◌, IsTrue, IfSome};
ghost use Rattle.std.specs.Option.{option_map};
ghost use Rattle.lmn_store_heap.specs.Heap.{IsAtom, IsMem, marked, own_mark};
ghost use Rattle.lmn_store_heap.specs.Splice.{IsPort};
ghost use Rattle.lmn_ground.specs.Marks.{found_mark};
ghost use Rattle.lmn_ground.specs.Spread.{AtomFits, CleanPart, IsWhole, Spread};
ghost use Rattle.lmn_ground.specs.Stands.{IsTrail};

use crate::found::Found;
use crate::marks::{FOUND, MATCHED, PORTS};
use crate::seek::{Stand, arity, go_down, seek};
use lmn_store_trait::LinkStore;

/// Whether no register names an atom.
fn is_unmatched<S: LinkStore>(store: &S, a: S::Atom) -> bool
    requires { IsAtom (S.heap store.now) (S.atom_id a) }
    ensures { IsTrue result ↔ (own_mark (S.heap store.now) (S.atom_id a) ≢ MATCHED) }
{
    let own = arity(store, a);
    store.mark(a, own) != MATCHED
}

/// Whether an atom stands in the membrane, where one is asked for, and isn't matched.
pub fn fits<S: LinkStore>(store: &S, home: Option<S::Mem>, a: S::Atom) -> bool
    requires atom { IsAtom (S.heap store.now) (S.atom_id a) }
    requires mem { IfSome home (λ m. IsMem (S.heap store.now) (S.mem_id m)) }
    ensures { IsTrue result ↔ AtomFits (S.heap store.now) (option_map S.mem_id home) (S.atom_id a) }
{
    match home {
        Some(m) => store.stands_in(a, m) && is_unmatched(store, a),
        None => true,
    }
}

/// Marks an atom as found, with the port by which it is entered and its number in the walk.
pub fn mark_entry<S: LinkStore>(store: &mut S, a: S::Atom, port: u8, number: u64)
    requires atom { IsAtom (S.heap store.old) (S.atom_id a) }
    requires number { number ≤ 2 ^ 48 }
    ensures marked { S.heap store.new ≡ marked (S.heap store.old) (S.atom_id a) 0 (found_mark number port) }
    ensures small { port < 256 }
{
    store.set_mark(a, 0, FOUND + PORTS * number + port as u64);
}

/// Marks the atoms of a part up to the first that doesn't fit, and lists them as long as there is room. Answers how many are marked,
/// and whether that is the part.
pub fn spread<S: LinkStore>(
    store: &mut S,
    root: (S::Atom, u8),
    home: Option<S::Mem>,
    trail: &mut Found<S::Atom>,
) -> (u64, bool)
    requires root { IsPort (S.heap store.old) (S.atom_id root.0) root.1 }
    requires mem { IfSome home (λ m. IsMem (S.heap store.old) (S.mem_id m)) }
    requires clean { CleanPart (S.heap store.old) (S.atom_id root.0, root.1) }
    requires first { AtomFits (S.heap store.old) (option_map S.mem_id home) (S.atom_id root.0) }
    ensures spread { (t : Spread (S.heap store.old) (S.heap store.new) (S.atom_id root.0, root.1) result.0 result.1) × IsTrail S.atom_id trail.new result.0 t.seen }
    ensures fits { IsTrue result.1 ↔ IsWhole (S.heap store.old) (S.atom_id root.0, root.1) (option_map S.mem_id home) }
{
    let _arity = arity(store, root.0);
    trail.clear();
    store.set_mark(root.0, 0, FOUND + root.1 as u64);
    let _ = trail.push_if_room(root.0);
    let mut count = 1;
    let mut at = Stand {
        atom: root.0,
        port: 0,
        depth: 0,
    };
    loop {
        let stand = seek(store, root, at);
        if stand.port == arity(store, stand.atom) {
            return (count, true);
        }
        match store.partner(stand.atom, stand.port) {
            Some((b, j)) => {
                if !fits(store, home, b) {
                    return (count, false);
                }
                mark_entry(store, b, j, count);
                let _ = trail.push_if_room(b);
                let down = Stand {
                    atom: b,
                    port: 0,
                    depth: stand.depth + 1,
                };
                at = go_down(store, root, stand, down);
                count += 1;
            }
            None => return (count, false),
        }
    }
}
