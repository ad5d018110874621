//! Leaves and contexts, and rows of them.
ghost use Rattle.std.specs.Prelude.{◌≡◌, false, map, codes};
ghost use Rattle.lmn_io.specs.Gathering.{Adds, output};
ghost use Rattle.lmn_congruence.specs.Translation.{atom_or_connector, names_of};
ghost use Rattle.lmn_flatten_plain.specs.Words.{contexts_pieces, leaf_pieces, links_pieces, text_of};
ghost use Rattle.lmn_print_plain.specs.Parts.{context_text, makes_connector, leaf_text, untyped_text};
ghost use Rattle.lmn_print_plain.specs.Rows.{any_behind, between_if, in_row};
ghost use Rattle.lmn_base.specs.Levels.{link_numbers};

use crate::labels::{add_context, add_label, add_link};
use lmn_base::{CONNECTOR_NAME, CtxUse, Label, Leaf, Names, Occ};
use lmn_io::{LineBuffer, Sink};

/// Adds what stands between two items, where an item stands before.
pub fn add_between<O: Sink>(buffer: &mut LineBuffer, out: &mut O, any: bool, between: &[u8])
    ensures { Adds (between_if between.now any) (output buffer.old (O.told out.old) (O.faults out.old)) (output buffer.new (O.told out.new) (O.faults out.new)) }
{
    if any {
        buffer.add(out, between);
    }
}

/// Adds leaves, with commas between them, and answers whether there is one.
pub(crate) fn add_leaves<O: Sink>(
    buffer: &mut LineBuffer,
    out: &mut O,
    names: &Names,
    leaves: &[Leaf],
) -> bool
    ensures text { Adds (in_row (codes ", ") false (map (leaf_text names.now) leaves.now)) (output buffer.old (O.told out.old) (O.faults out.old)) (output buffer.new (O.told out.new) (O.faults out.new)) }
    ensures any { result ≡ any_behind false leaves.now }
{
    let mut any = false;
    for leaf in leaves {
        add_between(buffer, out, any, b", ");
        add_leaf(buffer, out, names, leaf);
        any = true;
    }
    any
}

/// Adds an atom, a connector or a typed context.
fn add_leaf<O: Sink>(buffer: &mut LineBuffer, out: &mut O, names: &Names, leaf: &Leaf)
    ensures { Adds (leaf_text names.now leaf.now) (output buffer.old (O.told out.old) (O.faults out.old)) (output buffer.new (O.told out.new) (O.faults out.new)) }
{
    match leaf {
        Leaf::Atom { functor, links, .. } => {
            add_atom(buffer, out, names, functor.label, links.as_slice());
        }
        Leaf::Typed { name, link, .. } => {
            add_context(buffer, out, names, b"$", *name);
            buffer.add(out, b"[");
            add_link(buffer, out, link.link as u64);
            buffer.add(out, b"]");
        }
    }
}

/// Adds an atom, or a connector.
fn add_atom<O: Sink>(
    buffer: &mut LineBuffer,
    out: &mut O,
    names: &Names,
    label: Label,
    links: &[Occ],
)
    ensures { Adds (text_of (leaf_pieces (atom_or_connector names.now label (link_numbers links.now)))) (output buffer.old (O.told out.old) (O.faults out.old)) (output buffer.new (O.told out.new) (O.faults out.new)) }
{
    if is_connector(label, links.len()) {
        add_link(buffer, out, links[0].link as u64);
        buffer.add(out, b" = ");
        add_link(buffer, out, links[1].link as u64);
    } else {
        add_label(buffer, out, names, label);
        add_links(buffer, out, links);
    }
}

/// Whether an atom of this label with so many links is a connector.
fn is_connector(label: Label, arity: usize) -> bool
    ensures { result ≡ makes_connector label arity }
{
    match label {
        Label::Name(name) => name == CONNECTOR_NAME && arity == 2,
        Label::Int(_) => false,
    }
}

/// Adds the links of an atom in parentheses, and nothing where there are none.
fn add_links<O: Sink>(buffer: &mut LineBuffer, out: &mut O, links: &[Occ])
    ensures { Adds (text_of (links_pieces (link_numbers links.now))) (output buffer.old (O.told out.old) (O.faults out.old)) (output buffer.new (O.told out.new) (O.faults out.new)) }
{
    if links.is_empty() {
        return;
    }
    buffer.add(out, b"(");
    let mut any = false;
    for link in links {
        add_between(buffer, out, any, b", ");
        add_link(buffer, out, link.link as u64);
        any = true;
    }
    buffer.add(out, b")");
}

/// Adds the contexts of a condition in parentheses, and nothing where there are none.
pub(crate) fn add_arguments<O: Sink>(
    buffer: &mut LineBuffer,
    out: &mut O,
    names: &Names,
    args: &[CtxUse],
)
    ensures { Adds (text_of (contexts_pieces (names_of names.now args.now))) (output buffer.old (O.told out.old) (O.faults out.old)) (output buffer.new (O.told out.new) (O.faults out.new)) }
{
    if args.is_empty() {
        return;
    }
    buffer.add(out, b"(");
    let _ = add_contexts(buffer, out, names, false, b"$", args);
    buffer.add(out, b")");
}

/// Adds contexts, or rule contexts, behind other items, of which there are some or not, and answers whether an item
/// stands now.
pub(crate) fn add_contexts<O: Sink>(
    buffer: &mut LineBuffer,
    out: &mut O,
    names: &Names,
    before: bool,
    sign: &[u8],
    uses: &[CtxUse],
) -> bool
    ensures text { Adds (in_row (codes ", ") before (map (context_text names.now sign.now) uses.now)) (output buffer.old (O.told out.old) (O.faults out.old)) (output buffer.new (O.told out.new) (O.faults out.new)) }
    ensures any { result ≡ any_behind before uses.now }
{
    let mut any = before;
    for use_ in uses {
        add_between(buffer, out, any, b", ");
        add_context(buffer, out, names, sign, use_.name);
        any = true;
    }
    any
}

/// Adds contexts, open and closed, behind other items, of which there are some or not, and answers whether an item
/// stands now.
pub(crate) fn add_untyped<O: Sink>(
    buffer: &mut LineBuffer,
    out: &mut O,
    names: &Names,
    before: bool,
    uses: &[CtxUse],
) -> bool
    ensures text { Adds (in_row (codes ", ") before (map (untyped_text names.now) uses.now)) (output buffer.old (O.told out.old) (O.faults out.old)) (output buffer.new (O.told out.new) (O.faults out.new)) }
    ensures any { result ≡ any_behind before uses.now }
{
    let mut any = before;
    for use_ in uses {
        add_between(buffer, out, any, b", ");
        add_open_or_closed(buffer, out, names, use_);
        any = true;
    }
    any
}

/// Adds a context, with empty brackets behind it where it is closed.
fn add_open_or_closed<O: Sink>(buffer: &mut LineBuffer, out: &mut O, names: &Names, use_: &CtxUse)
    ensures { Adds (untyped_text names.now use_.now) (output buffer.old (O.told out.old) (O.faults out.old)) (output buffer.new (O.told out.new) (O.faults out.new)) }
{
    add_context(buffer, out, names, b"$", use_.name);
    if use_.closed {
        buffer.add(out, b"[]");
    }
}
