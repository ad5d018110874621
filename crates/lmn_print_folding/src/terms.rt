//! An item is written, with the terms in it.
ghost use Rattle.std.specs.Prelude.{◌≡◌, ◌<◌, true, codes, if◌then◌else◌, ◌==◌};
ghost use Rattle.lmn_congruence.specs.Translation.{label_of};
ghost use Rattle.lmn_print_folded.specs.Terms.{FoldedItem};
ghost use Rattle.lmn_print_folded.specs.Words.{is_named, item_pieces};
ghost use Rattle.lmn_flatten_plain.specs.Words.{text_of};
ghost use Rattle.lmn_store_heap.specs.Heap.{IsAtom, arity_of};
ghost use Rattle.lmn_store_heap.specs.Sound.{Valid};
ghost use Rattle.lmn_io.specs.Gathering.{Adds, output};
ghost use Rattle.lmn_print_plain.specs.Stored.{number_by_mark};
ghost use Rattle.lmn_print_folding.specs.Events.{before_argument, behind_arguments, prints_as_cell, is_listed, is_nil, is_rest, opening};
ghost use Rattle.lmn_print_folding.specs.Marks.{is_item, term_at};
ghost use Rattle.lmn_print_folding.specs.Printed.{PrintsItem};

use crate::family::{arguments, arity, is_item, term_at};
use crate::walk::{Stand, behind_term};
use lmn_base::{Label, Names};
use lmn_io::{LineBuffer, Sink};
use lmn_print_plain::{add_label, add_link, name_of};
use lmn_store_trait::LinkStore;

/// Adds an item with the terms in it, where own marks tell the items and the marks of printed ports the numbers of links.
/// It asks for a derivation of what is printed, since by some marks a walk would go round for ever.
pub fn add_item<S: LinkStore, O: Sink>(
    buffer: &mut LineBuffer,
    out: &mut O,
    names: &Names,
    store: &S,
    item: S::Atom,
)
    requires valid { Valid (S.heap store.now) }
    requires atom { IsAtom (S.heap store.now) (S.atom_id item) }
    requires item { is_item (S.heap store.now) (S.atom_id item) ≡ true }
    requires printed { (i : FoldedItem) × PrintsItem names.now (S.heap store.now) (number_by_mark (S.heap store.now)) (S.atom_id item) i }
    ensures { (i : FoldedItem) → PrintsItem names.now (S.heap store.now) (number_by_mark (S.heap store.now)) (S.atom_id item) i →
        Adds (text_of (item_pieces i)) (output buffer.old (O.told out.old) (O.faults out.old)) (output buffer.new (O.told out.new) (O.faults out.new)) }
{
    let _root = store.root();
    add_opening(buffer, out, names, store, item);
    let mut at = Stand {
        atom: item,
        port: 0,
    };
    let mut turns: u64 = 0;
    loop {
        if at.port < arguments(store, at.atom) {
            add_before(buffer, out, names, store, at);
            match term_at(store, at.atom, at.port) {
                Some(term) => {
                    add_opening(buffer, out, names, store, term);
                    turns += 1;
                    at = Stand {
                        atom: term,
                        port: 0,
                    };
                }
                None => {
                    add_link(buffer, out, store.mark(at.atom, at.port).saturating_sub(1));
                    at = Stand {
                        port: at.port + 1,
                        ..at
                    };
                }
            }
        } else {
            add_closing(buffer, out, names, store, at.atom);
            if is_item(store, at.atom) {
                return;
            }
            turns += 1;
            at = behind_term(store, at.atom);
        }
    }
}

/// Adds what stands before the arguments of an atom and is no bracket.
fn add_opening<S: LinkStore, O: Sink>(
    buffer: &mut LineBuffer,
    out: &mut O,
    names: &Names,
    store: &S,
    atom: S::Atom,
)
    requires { IsAtom (S.heap store.now) (S.atom_id atom) }
    ensures { Adds (opening names.now (S.heap store.now) (S.atom_id atom)) (output buffer.old (O.told out.old) (O.faults out.old)) (output buffer.new (O.told out.new) (O.faults out.new)) }
{
    if is_cell(store, names, atom) {
        return;
    }
    if !is_nil(store, names, atom) {
        add_label(buffer, out, names, store.functor(atom).label);
    } else if !is_rest(store, names, atom) {
        buffer.add(out, b"[]");
    }
}

/// Adds what stands before an argument.
fn add_before<S: LinkStore, O: Sink>(
    buffer: &mut LineBuffer,
    out: &mut O,
    names: &Names,
    store: &S,
    at: Stand<S::Atom>,
)
    requires atom { IsAtom (S.heap store.now) (S.atom_id at.atom) }
    requires port { at.port < arity_of (S.heap store.now) (S.atom_id at.atom) }
    ensures { Adds (before_argument names.now (S.heap store.now) (S.atom_id at.atom) at.port) (output buffer.old (O.told out.old) (O.faults out.old)) (output buffer.new (O.told out.new) (O.faults out.new)) }
{
    if !is_cell(store, names, at.atom) {
        buffer.add(out, between_arguments(at.port));
    } else if at.port == 0 {
        buffer.add(out, before_element(is_rest(store, names, at.atom)));
    } else if !goes_on(store, names, at) {
        buffer.add(out, b" | ");
    }
}

/// What stands before an argument in parentheses.
fn between_arguments(port: u8) -> &'static [u8]
    ensures { result.now ≡ (if port == 0 then codes "(" else codes ", ") }
{
    if port == 0 { b"(" } else { b", " }
}

/// What stands before the element of a cell, which is the rest of another or not.
fn before_element(rest: bool) -> &'static [u8]
    ensures { result.now ≡ (if rest then codes ", " else codes "[") }
{
    if rest { b", " } else { b"[" }
}

/// Adds what stands behind the arguments of an atom.
fn add_closing<S: LinkStore, O: Sink>(
    buffer: &mut LineBuffer,
    out: &mut O,
    names: &Names,
    store: &S,
    atom: S::Atom,
)
    requires { IsAtom (S.heap store.now) (S.atom_id atom) }
    ensures { Adds (behind_arguments names.now (S.heap store.now) (S.atom_id atom)) (output buffer.old (O.told out.old) (O.faults out.old)) (output buffer.new (O.told out.new) (O.faults out.new)) }
{
    if is_cell(store, names, atom) {
        if !is_rest(store, names, atom) {
            buffer.add(out, b"]");
        }
    } else if arguments(store, atom) != 0 {
        buffer.add(out, b")");
    }
}

/// Whether a label is a name with these bytes.
fn is_named(names: &Names, label: Label, name: &[u8]) -> bool
    ensures { result ≡ is_named name.now (label_of names.now label) }
{
    match label {
        Label::Name(number) => name_of(names, number) == name,
        Label::Int(_) => false,
    }
}

/// Whether an atom is printed as a term and is a cell of a list.
fn is_cell<S: LinkStore>(store: &S, names: &Names, atom: S::Atom) -> bool
    requires { IsAtom (S.heap store.now) (S.atom_id atom) }
    ensures { result ≡ prints_as_cell names.now (S.heap store.now) (S.atom_id atom) }
{
    !is_item(store, atom)
        && arity(store, atom) == 3
        && is_named(names, store.functor(atom).label, b".")
}

/// Whether an atom is printed as a term and is the end of a list.
fn is_nil<S: LinkStore>(store: &S, names: &Names, atom: S::Atom) -> bool
    requires { IsAtom (S.heap store.now) (S.atom_id atom) }
    ensures { result ≡ is_nil names.now (S.heap store.now) (S.atom_id atom) }
{
    !is_item(store, atom)
        && arity(store, atom) == 1
        && is_named(names, store.functor(atom).label, b"[]")
}

/// Whether a term stands as the rest of a cell that is printed as a term.
fn is_rest<S: LinkStore>(store: &S, names: &Names, term: S::Atom) -> bool
    requires atom { IsAtom (S.heap store.now) (S.atom_id term) }
    requires ports { 0 < arity_of (S.heap store.now) (S.atom_id term) }
    ensures { result ≡ is_rest names.now (S.heap store.now) (S.atom_id term) }
{
    let last = arity(store, term) - 1;
    match store.partner(term, last) {
        Some((parent, port)) => port == 1 && is_cell(store, names, parent),
        None => false,
    }
}

/// Whether a list goes on, or ends, with the term that stands at a port.
fn goes_on<S: LinkStore>(store: &S, names: &Names, at: Stand<S::Atom>) -> bool
    requires atom { IsAtom (S.heap store.now) (S.atom_id at.atom) }
    requires port { at.port < arity_of (S.heap store.now) (S.atom_id at.atom) }
    ensures { result ≡ is_listed names.now (S.heap store.now) (term_at (S.heap store.now) (S.atom_id at.atom) at.port) }
{
    match term_at(store, at.atom, at.port) {
        Some(rest) => is_cell(store, names, rest) || is_nil(store, names, rest),
        None => false,
    }
}
