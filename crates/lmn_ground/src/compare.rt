//! Two parts are compared, walked in step.
ghost use Rattle.std.specs.Prelude.{◌≡◌, ◌<◌, ◌/◌, ◌↔◌, ℕ, List, Some, None, false, IsTrue, IfSome};
ghost use Rattle.lmn_base.specs.Graphs.{SameGraph};
ghost use Rattle.lmn_store_heap.specs.Graphs.{atom_map};
ghost use Rattle.lmn_store_heap.specs.Heap.{IsAtom, arity_of, functor_of, link_of};
ghost use Rattle.lmn_store_heap.specs.Splice.{IsPort};
ghost use Rattle.lmn_ground.specs.Marks.{first_marks};
ghost use Rattle.lmn_ground.specs.Spread.{CleanPart, Numbered, Spread};
ghost use Rattle.lmn_ground.specs.Follow.{Two};

use crate::marks::{FIRST_NUMBER, PORTS};
use crate::seek::{Stand, arity, is_root};
use crate::spread::mark_entry;
use lmn_base::Functor;
use lmn_store_trait::LinkStore;

/// Whether two functors are one.
fn same_functor(f: Functor, g: Functor) -> bool
    ensures { IsTrue result ↔ (f ≡ g) }
{
    f == g
}

/// Whether two atoms have one functor.
pub fn are_alike<S: LinkStore>(store: &S, a: S::Atom, b: S::Atom) -> bool
    requires a { IsAtom (S.heap store.now) (S.atom_id a) }
    requires b { IsAtom (S.heap store.now) (S.atom_id b) }
    ensures { IsTrue result ↔ (functor_of (S.heap store.now) (S.atom_id b) ≡ functor_of (S.heap store.now) (S.atom_id a)) }
{
    same_functor(store.functor(b), store.functor(a))
}

/// Whether the marks of two atoms tell one number.
fn same_number<S: LinkStore>(store: &S, a: S::Atom, b: S::Atom) -> bool
    requires a { IsAtom (S.heap store.now) (S.atom_id a) }
    requires b { IsAtom (S.heap store.now) (S.atom_id b) }
    ensures { IsTrue result ↔ (first_marks (S.heap store.now) (S.atom_id a) / PORTS ≡ first_marks (S.heap store.now) (S.atom_id b) / PORTS) }
{
    store.mark(a, 0) / PORTS == store.mark(b, 0) / PORTS
}

/// The other ends of one port of two atoms, where both are there and have one index.
fn both_ends<S: LinkStore>(
    store: &S,
    a: S::Atom,
    c: S::Atom,
    i: u8,
) -> Option<(S::Atom, u8, S::Atom)>
    requires a { IsAtom (S.heap store.now) (S.atom_id a) }
    requires c { IsAtom (S.heap store.now) (S.atom_id c) }
    requires port { i < arity_of (S.heap store.now) (S.atom_id a) }
    requires end { i < arity_of (S.heap store.now) (S.atom_id c) }
    ensures link { IfSome result (λ t. link_of (S.heap store.now) (S.atom_id a) i ≡ Some (S.atom_id t.0, t.1)) }
    ensures back { IfSome result (λ t. link_of (S.heap store.now) (S.atom_id t.0) t.1 ≡ Some (S.atom_id a, i)) }
    ensures atom { IfSome result (λ t. IsAtom (S.heap store.now) (S.atom_id t.0)) }
    ensures there { IfSome result (λ t. t.1 < arity_of (S.heap store.now) (S.atom_id t.0)) }
    ensures small { IfSome result (λ t. arity_of (S.heap store.now) (S.atom_id t.0) < 256) }
    ensures end { IfSome result (λ t. link_of (S.heap store.now) (S.atom_id c) i ≡ Some (S.atom_id t.2, t.1)) }
    ensures end_atom { IfSome result (λ t. IsAtom (S.heap store.now) (S.atom_id t.2)) }
    ensures none { result ≡ None → (b j d : ℕ) → link_of (S.heap store.now) (S.atom_id a) i ≡ Some (b, j) → link_of (S.heap store.now) (S.atom_id c) i ≡ Some (d, j) → ⊥ }
{
    match store.partner(a, i) {
        Some((b, j)) => match store.partner(c, i) {
            Some((d, k)) => {
                let _small = arity(store, b);
                if j != k {
                    return None;
                }
                Some((b, j, d))
            }
            None => None,
        },
        None => None,
    }
}

/// Walks through x's part, whose atoms have no marks, with y's part, whose atoms have numbers, in step. Answers how many
/// atoms are marked, and whether the parts are equal.
pub fn compare<S: LinkStore>(store: &mut S, x: (S::Atom, u8), y: (S::Atom, u8)) -> (u64, bool)
    requires x { IsPort (S.heap store.old) (S.atom_id x.0) x.1 }
    requires y { IsAtom (S.heap store.old) (S.atom_id y.0) }
    requires clean { CleanPart (S.heap store.old) (S.atom_id x.0, x.1) }
    requires alike { functor_of (S.heap store.old) (S.atom_id y.0) ≡ functor_of (S.heap store.old) (S.atom_id x.0) }
    requires two { (xs : List ℕ) × (ys : List ℕ) × Two (S.heap store.old) (S.atom_id x.0, x.1) (S.atom_id y.0, y.1) xs ys × Numbered (first_marks (S.heap store.old)) 2 ys }
    ensures spread { Spread (S.heap store.old) (S.heap store.new) (S.atom_id x.0, x.1) result.0 false }
    ensures equal { IsTrue result.1 ↔ SameGraph (atom_map (S.heap store.old)) (S.atom_id x.0, x.1) (atom_map (S.heap store.old)) (S.atom_id y.0, y.1) }
{
    mark_entry(store, x.0, x.1, 0);
    let mut count = 1;
    let mut c = y.0;
    let mut at = Stand {
        atom: x.0,
        port: 0,
        depth: 0,
    };
    loop {
        if at.port == arity(store, at.atom) {
            if at.depth == 0 {
                return (count, true);
            }
            let entry = (store.mark(at.atom, 0) % PORTS) as u8;
            match both_ends(store, at.atom, c, entry) {
                Some((p, k, q)) => {
                    if !same_number(store, p, q) {
                        return (count, false);
                    }
                    at = Stand {
                        atom: p,
                        port: k + 1,
                        depth: at.depth - 1,
                    };
                    c = q;
                }
                None => return (count, false),
            }
        } else if is_root(at.depth, at.port, x.1) {
            at = Stand {
                port: at.port + 1,
                ..at
            };
        } else {
            match both_ends(store, at.atom, c, at.port) {
                Some((b, j, d)) => {
                    if store.mark(b, 0) == 0 {
                        if store.mark(d, 0) / PORTS != FIRST_NUMBER + count {
                            return (count, false);
                        }
                        if !are_alike(store, b, d) {
                            return (count, false);
                        }
                        mark_entry(store, b, j, count);
                        at = Stand {
                            atom: b,
                            port: 0,
                            depth: at.depth + 1,
                        };
                        c = d;
                        count += 1;
                    } else {
                        if !same_number(store, b, d) {
                            return (count, false);
                        }
                        at = Stand {
                            port: at.port + 1,
                            ..at
                        };
                    }
                }
                None => return (count, false),
            }
        }
    }
}
