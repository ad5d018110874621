//! The atoms of a region and its rules, one behind the other.
ghost use Rattle.std.specs.Prelude.{false, map};
ghost use Rattle.lmn_io.specs.Gathering.{Adds, output};
ghost use Rattle.lmn_flatten_plain.specs.Words.{links_pieces, text_of};
ghost use Rattle.lmn_print_plain.specs.Rows.{in_row};
ghost use Rattle.lmn_print_plain.specs.Stored.{solid_atom_text};
ghost use Rattle.lmn_receipt_line.specs.Walking.{rule_text};

use lmn_base::{Names, RuleTree, SolidAtom};
use lmn_io::{LineBuffer, Sink};
use lmn_print_plain::{add_between, add_label, add_link, add_rule};

/// Adds atoms.
pub(crate) fn add_atoms<O: Sink>(
    buffer: &mut LineBuffer,
    out: &mut O,
    names: &Names,
    between: &[u8],
    atoms: &[SolidAtom],
)
    ensures { Adds (in_row between.now false (map (solid_atom_text names.now) atoms.now)) (output buffer.old (O.told out.old) (O.faults out.old)) (output buffer.new (O.told out.new) (O.faults out.new)) }
{
    let mut any = false;
    for atom in atoms {
        add_between(buffer, out, any, between);
        add_atom(buffer, out, names, atom);
        any = true;
    }
}

/// Adds an atom.
fn add_atom<O: Sink>(buffer: &mut LineBuffer, out: &mut O, names: &Names, atom: &SolidAtom)
    ensures { Adds (solid_atom_text names.now atom.now) (output buffer.old (O.told out.old) (O.faults out.old)) (output buffer.new (O.told out.new) (O.faults out.new)) }
{
    add_label(buffer, out, names, atom.functor.label);
    add_links(buffer, out, atom.links.as_slice());
}

/// Adds the links of an atom in parentheses, and nothing where there are none.
fn add_links<O: Sink>(buffer: &mut LineBuffer, out: &mut O, links: &[u64])
    ensures { Adds (text_of (links_pieces links.now)) (output buffer.old (O.told out.old) (O.faults out.old)) (output buffer.new (O.told out.new) (O.faults out.new)) }
{
    if links.is_empty() {
        return;
    }
    buffer.add(out, b"(");
    let mut any = false;
    for link in links {
        add_between(buffer, out, any, b", ");
        add_link(buffer, out, *link);
        any = true;
    }
    buffer.add(out, b")");
}

/// Adds rules by their numbers, behind other items, of which there are some or not.
pub(crate) fn add_rules<O: Sink>(
    buffer: &mut LineBuffer,
    out: &mut O,
    names: &Names,
    table: &[RuleTree],
    between: &[u8],
    before: bool,
    rules: &[u32],
)
    ensures { Adds (in_row between.now before (map (rule_text names.now table.now) rules.now)) (output buffer.old (O.told out.old) (O.faults out.old)) (output buffer.new (O.told out.new) (O.faults out.new)) }
{
    let mut any = before;
    for rule in rules {
        add_between(buffer, out, any, between);
        add_rule(buffer, out, names, table, *rule);
        any = true;
    }
}
