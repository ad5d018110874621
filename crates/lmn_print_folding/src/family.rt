//! Items and terms: how an atom is printed stands in its own mark.
ghost use Rattle.std.specs.Prelude.{◌≡◌, ◌<◌, IfSome};
ghost use Rattle.std.specs.Option.{option_map};
ghost use Rattle.lmn_store_heap.specs.Heap.{IsAtom, arity_of, own_mark};
ghost use Rattle.lmn_store_heap.specs.Sound.{Sound};
ghost use Rattle.lmn_print_folding.specs.Marks.{argument_count, is_end_of_term, is_item, term_at};

use lmn_store_trait::LinkStore;

/// The own mark of an atom that is printed as an item and is no child of another.
pub const FIRST_ITEM: u64 = 1;

/// The own mark of an atom that is printed as an item and is a child of another.
pub const LATER_ITEM: u64 = 2;

/// The own mark of an atom that is printed as a term.
pub const TERM: u64 = 3;

/// How many ports an atom has.
pub fn arity<S: LinkStore>(store: &S, atom: S::Atom) -> u8
    requires { IsAtom (S.heap store.now) (S.atom_id atom) }
    ensures arity { result ≡ arity_of (S.heap store.now) (S.atom_id atom) }
    ensures sound { Sound (S.heap store.now) }
{
    let _root = store.root();
    store.functor(atom).arity
}

/// The own mark of an atom.
pub fn own_mark<S: LinkStore>(store: &S, atom: S::Atom) -> u64
    requires { IsAtom (S.heap store.now) (S.atom_id atom) }
    ensures { result ≡ own_mark (S.heap store.now) (S.atom_id atom) }
{
    store.mark(atom, arity(store, atom))
}

/// Whether an atom is printed as an item.
pub fn is_item<S: LinkStore>(store: &S, atom: S::Atom) -> bool
    requires { IsAtom (S.heap store.now) (S.atom_id atom) }
    ensures { result ≡ is_item (S.heap store.now) (S.atom_id atom) }
{
    let mark = own_mark(store, atom);
    mark == FIRST_ITEM || mark == LATER_ITEM
}

/// How many arguments of an atom are printed: a term doesn't print its last.
pub fn arguments<S: LinkStore>(store: &S, atom: S::Atom) -> u8
    requires { IsAtom (S.heap store.now) (S.atom_id atom) }
    ensures { result ≡ argument_count (S.heap store.now) (S.atom_id atom) }
{
    let ports = arity(store, atom);
    if is_item(store, atom) {
        ports
    } else {
        ports.saturating_sub(1)
    }
}

/// Whether a port is the last of an atom that is printed as a term.
fn is_end_of_term<S: LinkStore>(store: &S, atom: S::Atom, port: u8) -> bool
    requires atom { IsAtom (S.heap store.now) (S.atom_id atom) }
    requires port { port < arity_of (S.heap store.now) (S.atom_id atom) }
    ensures { result ≡ is_end_of_term (S.heap store.now) (S.atom_id atom, port) }
{
    let ports = arity(store, atom);
    port + 1 == ports && !is_item(store, atom)
}

/// The atom that is printed as a term at a port, if one is.
pub fn term_at<S: LinkStore>(store: &S, atom: S::Atom, port: u8) -> Option<S::Atom>
    requires atom { IsAtom (S.heap store.now) (S.atom_id atom) }
    requires port { port < arity_of (S.heap store.now) (S.atom_id atom) }
    ensures term { option_map S.atom_id result ≡ term_at (S.heap store.now) (S.atom_id atom) port }
    ensures atom { IfSome result (λ c. IsAtom (S.heap store.now) (S.atom_id c)) }
{
    match store.partner(atom, port) {
        Some((child, last)) => {
            if is_end_of_term(store, child, last) {
                Some(child)
            } else {
                None
            }
        }
        None => None,
    }
}
