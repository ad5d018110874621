//! The walk over the membranes of a store that writes them. It takes no memory, and no more stack for a deeper store.
ghost use Rattle.std.specs.Prelude.{◌≡◌, ℕ, List, MatchOption};
ghost use Rattle.lmn_store_heap.specs.Sound.{Forest, IsTree};
ghost use Rattle.lmn_io.specs.Gathering.{Adds, output};
ghost use Rattle.lmn_print_plain.specs.Walks.{AreTexts, WalksOn, Leaving, Position, Way, membranes_ahead, between, from_membranes, from_rules, left_behind, membranes_round, texts_with, tree_text};

use crate::leaves::add_between;
use crate::stored::add_rules;
use crate::writer::AtomWriter;
use lmn_base::{Names, RuleTree};
use lmn_io::{LineBuffer, Sink};
use lmn_store_trait::LinkStore;

/// Where the walk stands: in a membrane, which stands in so many others.
#[derive(Clone, Copy)]
struct Stand<M> {
    mem: M,
    depth: u64,
}

/// What stands between two items of a membrane that stands in so many others.
fn between(depth: u64) -> &'static [u8]
    ensures { (way : Way) → depth ≡ membranes_round way → result.now ≡ between way }
{
    if depth == 0 { b". " } else { b", " }
}

/// Adds the items of the root, with a full stop and a space between two of them, where the writer writes the atoms of each
/// membrane.
pub(crate) fn add_tree<S: LinkStore, O: Sink, W: AtomWriter<S, O>>(
    writer: &W,
    buffer: &mut LineBuffer,
    out: &mut O,
    names: &Names,
    table: &[RuleTree],
    store: &S,
)
    requires tree { (f : Forest) × IsTree (S.heap store.now) f }
    requires texts { (atoms : ℕ → List (List ℕ)) × AreTexts (S.heap store.now) (W.are_texts names.now (S.heap store.now)) atoms }
    ensures { (f : Forest) → IsTree (S.heap store.now) f → (atoms : ℕ → List (List ℕ)) → AreTexts (S.heap store.now) (W.are_texts names.now (S.heap store.now)) atoms →
        Adds (tree_text (texts_with atoms names.now table.now (S.heap store.now)) f) (output buffer.old (O.told out.old) (O.faults out.old)) (output buffer.new (O.told out.new) (O.faults out.new)) }
{
    let root = store.root();
    let mut at = Stand {
        mem: root,
        depth: 0,
    };
    let mut entered: u64 = 1;
    loop {
        writer.add_atoms(buffer, out, names, store, at.mem, between(at.depth));
        match go_on(writer, buffer, out, names, table, store, at) {
            Some(next) => at = next,
            None => return,
        }
        entered += 1;
    }
}

/// Goes from behind the atoms of a membrane to the beginning of the next membrane, and nowhere behind the last.
fn go_on<S: LinkStore, O: Sink, W: AtomWriter<S, O>>(
    writer: &W,
    buffer: &mut LineBuffer,
    out: &mut O,
    names: &Names,
    table: &[RuleTree],
    store: &S,
    at: Stand<S::Mem>,
) -> Option<Stand<S::Mem>>
    requires { Position (S.heap store.now) (S.mem_id at.mem) at.depth }
    ensures { (atoms : ℕ → List (List ℕ)) → AreTexts (S.heap store.now) (W.are_texts names.now (S.heap store.now)) atoms →
        let t = texts_with atoms names.now table.now (S.heap store.now) in
        (p : Position (S.heap store.now) (S.mem_id at.mem) at.depth) → MatchOption result
        (Adds (from_membranes t p) (output buffer.old (O.told out.old) (O.faults out.old)) (output buffer.new (O.told out.new) (O.faults out.new)))
        (λ next. WalksOn t (S.heap store.now) (from_membranes t p) (membranes_ahead p) (S.mem_id next.mem) next.depth (output buffer.old (O.told out.old) (O.faults out.old)) (output buffer.new (O.told out.new) (O.faults out.new))) }
{
    let _root = store.root();
    let any = writer.has_atoms(store, at.mem);
    match store.first_mem(at.mem) {
        Some(inner) => {
            add_between(buffer, out, any, between(at.depth));
            buffer.add(out, b"{");
            Some(Stand {
                mem: inner,
                depth: at.depth + 1,
            })
        }
        None => leave(buffer, out, names, table, store, at, any),
    }
}

/// Leaves a membrane, and those round it, until one has another behind it.
fn leave<S: LinkStore, O: Sink>(
    buffer: &mut LineBuffer,
    out: &mut O,
    names: &Names,
    table: &[RuleTree],
    store: &S,
    from: Stand<S::Mem>,
    before: bool,
) -> Option<Stand<S::Mem>>
    requires { Leaving (S.heap store.now) (S.mem_id from.mem) from.depth }
    ensures { (atoms : ℕ → List (List ℕ)) → let t = texts_with atoms names.now table.now (S.heap store.now) in
        (p : Leaving (S.heap store.now) (S.mem_id from.mem) from.depth) → MatchOption result
        (Adds (from_rules t before p) (output buffer.old (O.told out.old) (O.faults out.old)) (output buffer.new (O.told out.new) (O.faults out.new)))
        (λ next. WalksOn t (S.heap store.now) (from_rules t before p) (left_behind p) (S.mem_id next.mem) next.depth (output buffer.old (O.told out.old) (O.faults out.old)) (output buffer.new (O.told out.new) (O.faults out.new))) }
{
    let _root = store.root();
    let mut at = from;
    let mut any = before;
    loop {
        add_rules(
            buffer,
            out,
            names,
            table,
            store,
            at.mem,
            any,
            between(at.depth),
        );
        match store.parent(at.mem) {
            Some(parent) => {
                buffer.add(out, b"}");
                let depth = at.depth - 1;
                match store.next_mem(at.mem) {
                    Some(next) => {
                        buffer.add(out, between(depth));
                        buffer.add(out, b"{");
                        return Some(Stand {
                            mem: next,
                            depth: at.depth,
                        });
                    }
                    None => at = Stand { mem: parent, depth },
                }
                any = true;
            }
            None => return None,
        }
    }
}
