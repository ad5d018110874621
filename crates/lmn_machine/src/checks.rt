ghost use Rattle.std.specs.Prelude.{◌≡◌, ◌≢◌, ◌<◌, ◌↔◌, ℕ, Some, [], length, IfSome, IsTrue};
ghost use Rattle.std.specs.Option.{option_map};
ghost use Rattle.lmn_store_heap.specs.Heap.{IsAtom, IsMem, functor_of, link_of, arity_of, port_id, atoms_in, mems_in, rules_in};
ghost use Rattle.lmn_store_heap.specs.Sound.{Valid};
ghost use Rattle.lmn_solid_heads.specs.Embeddings.{StandsWithin};
ghost use Rattle.lmn_base.specs.Lists.{In};

use lmn_base::Functor;
use lmn_store_trait::LinkStore;

/// Whether two functors are one. The arities are looked at first, which costs less than the labels.
fn same_functor(f: Functor, g: Functor) -> bool
    ensures { IsTrue result ↔ (f ≡ g) }
{
    f.arity == g.arity && f.label == g.label
}

/// The other end of a port; none too where the atom has no such port.
pub fn end<S: LinkStore>(store: &S, a: S::Atom, port: u8) -> Option<(S::Atom, u8)>
    requires { IsAtom (S.heap store.now) (S.atom_id a) }
    ensures link { link_of (S.heap store.now) (S.atom_id a) port ≡ option_map (port_id S.atom_id) result }
    ensures there { IfSome result (λ p. IsAtom (S.heap store.now) (S.atom_id p.0)) }
    ensures port { IfSome result (λ p. p.1 < arity_of (S.heap store.now) (S.atom_id p.0)) }
{
    let _root = store.root();
    if port < store.functor(a).arity {
        store.partner(a, port)
    } else {
        None
    }
}

/// Whether an atom has a functor.
#[inline(always)]
pub fn has_functor<S: LinkStore>(store: &S, a: S::Atom, functor: Functor) -> bool
    requires { IsAtom (S.heap store.now) (S.atom_id a) }
    ensures { IsTrue result ↔ (functor_of (S.heap store.now) (S.atom_id a) ≡ Some functor) }
{
    same_functor(store.functor(a), functor)
}

/// Whether an atom stands in a membrane itself.
pub fn stands_in<S: LinkStore>(store: &S, a: S::Atom, m: S::Mem) -> bool
    requires atom { IsAtom (S.heap store.now) (S.atom_id a) }
    requires membrane { IsMem (S.heap store.now) (S.mem_id m) }
    ensures { IsTrue result ↔ In (S.atom_id a) (atoms_in (S.heap store.now) (S.mem_id m)) }
{
    let _root = store.root();
    store.stands_in(a, m)
}

/// Whether two ports are partners.
pub fn are_joined<S: LinkStore>(store: &S, a: S::Atom, i: u8, b: S::Atom, j: u8) -> bool
    requires a { IsAtom (S.heap store.now) (S.atom_id a) }
    requires b { IsAtom (S.heap store.now) (S.atom_id b) }
    ensures { IsTrue result ↔ (link_of (S.heap store.now) (S.atom_id a) i ≡ Some (S.atom_id b, j)) }
{
    match end(store, a, i) {
        Some((c, k)) => store.same_atom(c, b) && k == j,
        None => false,
    }
}

/// Whether two atoms differ.
pub fn atoms_differ<S: LinkStore>(store: &S, a: S::Atom, b: S::Atom) -> bool
    requires a { IsAtom (S.heap store.now) (S.atom_id a) }
    requires b { IsAtom (S.heap store.now) (S.atom_id b) }
    ensures { IsTrue result ↔ (S.atom_id a ≢ S.atom_id b) }
{
    !store.same_atom(a, b)
}

/// Whether two membranes differ.
pub fn membranes_differ<S: LinkStore>(store: &S, m: S::Mem, n: S::Mem) -> bool
    requires m { IsMem (S.heap store.now) (S.mem_id m) }
    requires n { IsMem (S.heap store.now) (S.mem_id n) }
    ensures { IsTrue result ↔ (S.mem_id m ≢ S.mem_id n) }
{
    !store.same_mem(m, n)
}

/// Whether a membrane holds so many membranes.
pub fn has_membranes<S: LinkStore>(store: &S, m: S::Mem, n: u64) -> bool
    requires { IsMem (S.heap store.now) (S.mem_id m) }
    ensures { IsTrue result ↔ (length (mems_in (S.heap store.now) (S.mem_id m)) ≡ n) }
{
    store.mems(m) == n
}

/// Whether a membrane holds no rule.
pub fn has_no_rule<S: LinkStore>(store: &S, m: S::Mem) -> bool
    requires { IsMem (S.heap store.now) (S.mem_id m) }
    ensures { IsTrue result ↔ (rules_in (S.heap store.now) (S.mem_id m) ≡ []) }
{
    store.rules(m) == 0
}

/// Whether an atom stands in a membrane or below it.
pub fn is_within<S: LinkStore>(store: &S, a: S::Atom, m: S::Mem) -> bool
    requires valid { Valid (S.heap store.now) }
    requires atom { IsAtom (S.heap store.now) (S.atom_id a) }
    requires membrane { IsMem (S.heap store.now) (S.mem_id m) }
    ensures { IsTrue result ↔ StandsWithin (S.heap store.now) (S.atom_id a) (S.mem_id m) }
{
    // Fewer membranes than that are round an atom, so the loop ends at a return.
    let _root = store.root();
    let mut at = store.home(a);
    for step in 0..u64::MAX {
        match at {
            None => return false,
            Some(n) => {
                if store.same_mem(n, m) {
                    return true;
                }
                at = store.parent(n);
            }
        }
    }
    false
}

/// Whether the other end of a port is neither in a membrane nor below it.
pub fn is_outside<S: LinkStore>(store: &S, a: S::Atom, port: u8, m: S::Mem) -> bool
    requires valid { Valid (S.heap store.now) }
    requires atom { IsAtom (S.heap store.now) (S.atom_id a) }
    requires membrane { IsMem (S.heap store.now) (S.mem_id m) }
    ensures { IsTrue result ↔ ((q : ℕ × ℕ) → link_of (S.heap store.now) (S.atom_id a) port ≡ Some q → StandsWithin (S.heap store.now) q.0 (S.mem_id m) → ⊥) }
{
    match end(store, a, port) {
        Some((b, _)) => !is_within(store, b, m),
        None => true,
    }
}
