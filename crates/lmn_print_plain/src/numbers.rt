//! The numbers of links, in the marks of their ports: each mark is greater by one. They are below 2^56.
ghost use Rattle.std.specs.Prelude.{◌≡◌, ◌<◌, ◌≤◌, ◌+◌, ◌^◌, ℕ, [], ◌∷◌};
ghost use Rattle.lmn_base.specs.Limits.{most_links};
ghost use Rattle.lmn_base.specs.declared.solid.Solid.{Solid};
ghost use Rattle.lmn_store_heap.specs.Heap.{IsAtom, arity_of, mark_of, PortsUnmarked};
ghost use Rattle.lmn_store_heap.specs.Solid.{HasSolid};
ghost use Rattle.lmn_store_heap.specs.Sound.{Valid};
ghost use Rattle.lmn_print_plain.specs.Numbers.{GoOn, Remarks, links_at_ports};
ghost use Rattle.lmn_print_plain.specs.Stored.{TellsNumbers};

use crate::order::{first_printed, next_printed};
use lmn_store_trait::LinkStore;

/// Gives each link its number, in printed order, in the marks of its two ports.
pub(crate) fn number_links<S: LinkStore>(store: &mut S)
    requires { Valid (S.heap store.old) }
    ensures marks { Remarks (S.heap store.old) (S.heap store.new) }
    ensures numbers { PortsUnmarked (S.heap store.old) → (x : Solid) (of : HasSolid (S.heap store.old) x) → TellsNumbers (S.heap store.new) of.name }
{
    let _root = store.root();
    let mut count: u64 = 0;
    let mut next = first_printed(store);
    while let Some(atom) = next {
        count = number_ports(store, atom, count);
        next = next_printed(store, atom);
    }
}

/// Gives the links of an atom that have none their numbers, where so many have one. Answers how many have one then.
fn number_ports<S: LinkStore>(store: &mut S, atom: S::Atom, count: u64) -> u64
    requires atom { IsAtom (S.heap store.old) (S.atom_id atom) }
    requires count { count + most_links < 2 ^ 56 }
    ensures marks { Remarks (S.heap store.old) (S.heap store.new) }
    ensures numbers { GoOn (S.heap store.old) (S.heap store.new) count result (links_at_ports (S.heap store.old) (S.atom_id atom)) }
    ensures few { result ≤ count + most_links }
{
    let _root = store.root();
    let arity = store.functor(atom).arity;
    let mut numbered = count;
    for port in 0..arity {
        numbered = number_port(store, atom, port, numbered);
    }
    numbered
}

/// Gives the link at a port its number, where it has none and so many have one. Answers how many have one then.
pub fn number_port<S: LinkStore>(store: &mut S, atom: S::Atom, port: u8, count: u64) -> u64
    requires atom { IsAtom (S.heap store.old) (S.atom_id atom) }
    requires port { port < arity_of (S.heap store.old) (S.atom_id atom) }
    requires count { count + 1 < 2 ^ 56 }
    ensures marks { Remarks (S.heap store.old) (S.heap store.new) }
    ensures numbers { GoOn (S.heap store.old) (S.heap store.new) count result (λ name. name (S.atom_id atom) port ∷ []) }
    ensures few { result ≤ count + 1 }
{
    let _root = store.root();
    if store.mark(atom, port) > 0 {
        return count;
    }
    let number = count + 1;
    if let Some((other, at)) = store.partner(atom, port) {
        store.set_mark(other, at, number);
    }
    store.set_mark(atom, port, number);
    number
}

/// Takes all numbers of links back.
pub(crate) fn clear_numbers<S: LinkStore>(store: &mut S)
    requires { Valid (S.heap store.old) }
    ensures marks { Remarks (S.heap store.old) (S.heap store.new) }
    ensures none { PortsUnmarked (S.heap store.new) }
{
    let _root = store.root();
    let mut next = first_printed(store);
    while let Some(atom) = next {
        clear_ports(store, atom);
        next = next_printed(store, atom);
    }
}

/// Takes the numbers of an atom's links back.
fn clear_ports<S: LinkStore>(store: &mut S, atom: S::Atom)
    requires { IsAtom (S.heap store.old) (S.atom_id atom) }
    ensures marks { Remarks (S.heap store.old) (S.heap store.new) }
    ensures here { (i : ℕ) → i < arity_of (S.heap store.old) (S.atom_id atom) → mark_of (S.heap store.new) (S.atom_id atom) i ≡ 0 }
    ensures others { (a i : ℕ) → i < arity_of (S.heap store.old) a → mark_of (S.heap store.old) a i ≡ 0 → mark_of (S.heap store.new) a i ≡ 0 }
{
    let _root = store.root();
    for port in 0..store.functor(atom).arity {
        store.set_mark(atom, port, 0);
    }
}
