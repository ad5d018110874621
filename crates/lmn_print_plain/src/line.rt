//! The line of a store.
ghost use Rattle.std.specs.Prelude.{◌≡◌, ℕ, List};
ghost use Rattle.lmn_congruence.specs.Rules.{Name};
ghost use Rattle.lmn_store_heap.specs.Sound.{Valid};
ghost use Rattle.lmn_io.specs.Writing.{Writes};
ghost use Rattle.lmn_print_plain.specs.Walks.{AreTexts};
ghost use Rattle.lmn_print_plain.specs.Writing.{IsLineWith, IsMarkedLineOf, has_items};

use crate::leaves::add_between;
use crate::walk::add_tree;
use crate::writer::{AtomWriter, PlainAtoms};
use lmn_base::{Names, Plain};
use lmn_io::{Failed, LineBuffer, Sink};
use lmn_store_trait::LinkStore;

/// Writes the line of what a store holds, with its line feed, where the marks of its ports tell the numbers of links:
/// each is greater by one. It takes no memory.
///
/// # Errors
///
/// `Failed` where the sink failed; it then took a prefix of the line.
pub fn write_line<S: LinkStore, O: Sink>(
    store: &S,
    plain: &Plain,
    names: &Names,
    sink: &mut O,
) -> Result<(), Failed>
    requires { Valid (S.heap store.now) }
    ensures { Writes (IsMarkedLineOf names.now plain.now.rules (S.heap store.now)) result (O.told sink.old) (O.faults sink.old) (O.told sink.new) (O.faults sink.new) }
{
    write_line_with(&PlainAtoms, store, plain, names, sink)
}

/// Writes the line of what a store holds, with its line feed, where the writer writes the atoms of each membrane. It takes
/// no memory.
///
/// # Errors
///
/// `Failed` where the sink failed; it then took a prefix of the line.
pub fn write_line_with<S: LinkStore, O: Sink, W: AtomWriter<S, O>>(
    writer: &W,
    store: &S,
    plain: &Plain,
    names: &Names,
    sink: &mut O,
) -> Result<(), Failed>
    requires valid { Valid (S.heap store.now) }
    requires texts { (atoms : ℕ → List (List ℕ)) × AreTexts (S.heap store.now) (W.are_texts names.now (S.heap store.now)) atoms }
    ensures { Writes (IsLineWith (W.are_texts names.now (S.heap store.now)) names.now plain.now.rules (S.heap store.now)) result (O.told sink.old) (O.faults sink.old) (O.told sink.new) (O.faults sink.new) }
{
    let mut buffer = LineBuffer::new();
    add_tree(
        writer,
        &mut buffer,
        sink,
        names,
        plain.rules.as_slice(),
        store,
    );
    add_between(&mut buffer, sink, has_items(writer, store), b".");
    buffer.add(sink, b"\n");
    buffer.finish(sink)
}

/// Whether anything stands at the root.
fn has_items<S: LinkStore, O: Sink, W: AtomWriter<S, O>>(writer: &W, store: &S) -> bool
    requires { Valid (S.heap store.now) }
    ensures { (names : List Name) (texts : List (List ℕ)) → W.are_texts names (S.heap store.now) (S.heap store.now).root texts → result ≡ has_items texts (S.heap store.now) }
{
    let root = store.root();
    writer.has_atoms(store, root) || store.mems(root) > 0 || store.rules(root) > 0
}
