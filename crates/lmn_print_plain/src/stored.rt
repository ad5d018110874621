//! What stands in a membrane of a store: an atom, and its rules.
ghost use Rattle.std.specs.Prelude.{◌≡◌};
ghost use Rattle.lmn_store_heap.specs.Heap.{IsAtom, IsMem, arity_of};
ghost use Rattle.lmn_store_heap.specs.Solid.{links_from};
ghost use Rattle.lmn_io.specs.Gathering.{Adds, output};
ghost use Rattle.lmn_flatten_plain.specs.Words.{links_pieces, text_of};
ghost use Rattle.lmn_print_plain.specs.Rows.{in_row};
ghost use Rattle.lmn_print_plain.specs.Stored.{atom_text, number_by_mark, rule_texts};

use crate::labels::{add_label, add_link};
use crate::leaves::add_between;
use crate::rules::add_rule;
use lmn_base::{Names, RuleTree};
use lmn_io::{LineBuffer, Sink};
use lmn_store_trait::LinkStore;

/// Adds an atom. The marks of its ports tell the numbers of links.
pub(crate) fn add_atom<S: LinkStore, O: Sink>(
    buffer: &mut LineBuffer,
    out: &mut O,
    names: &Names,
    store: &S,
    atom: S::Atom,
)
    requires { IsAtom (S.heap store.now) (S.atom_id atom) }
    ensures { Adds (atom_text names.now (S.heap store.now) (S.atom_id atom)) (output buffer.old (O.told out.old) (O.faults out.old)) (output buffer.new (O.told out.new) (O.faults out.new)) }
{
    let _root = store.root();
    let functor = store.functor(atom);
    add_label(buffer, out, names, functor.label);
    add_ports(buffer, out, store, atom, functor.arity);
}

/// Adds the links of an atom in parentheses, and nothing where there are none.
fn add_ports<S: LinkStore, O: Sink>(
    buffer: &mut LineBuffer,
    out: &mut O,
    store: &S,
    atom: S::Atom,
    arity: u8,
)
    requires atom { IsAtom (S.heap store.now) (S.atom_id atom) }
    requires arity { arity ≡ arity_of (S.heap store.now) (S.atom_id atom) }
    ensures { Adds (text_of (links_pieces (links_from (number_by_mark (S.heap store.now)) (S.atom_id atom) 0 arity))) (output buffer.old (O.told out.old) (O.faults out.old)) (output buffer.new (O.told out.new) (O.faults out.new)) }
{
    if arity == 0 {
        return;
    }
    buffer.add(out, b"(");
    let mut any = false;
    for port in 0..arity {
        add_between(buffer, out, any, b", ");
        add_link(buffer, out, store.mark(atom, port).saturating_sub(1));
        any = true;
    }
    buffer.add(out, b")");
}

/// Adds the rules of a membrane behind other items, of which there are some or not.
pub fn add_rules<S: LinkStore, O: Sink>(
    buffer: &mut LineBuffer,
    out: &mut O,
    names: &Names,
    table: &[RuleTree],
    store: &S,
    mem: S::Mem,
    before: bool,
    between: &[u8],
)
    requires { IsMem (S.heap store.now) (S.mem_id mem) }
    ensures { Adds (in_row between.now before (rule_texts names.now table.now (S.heap store.now) (S.mem_id mem))) (output buffer.old (O.told out.old) (O.faults out.old)) (output buffer.new (O.told out.new) (O.faults out.new)) }
{
    let mut any = before;
    for i in 0..store.rules(mem) {
        add_between(buffer, out, any, between);
        add_rule(buffer, out, names, table, store.rule(mem, i));
        any = true;
    }
}
