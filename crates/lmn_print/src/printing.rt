//! The line of a store whose marks are 0, before and after.
ghost use Rattle.std.specs.Prelude.{◌≡◌, true};
ghost use Rattle.lmn_store_heap.specs.Sound.{Valid};
ghost use Rattle.lmn_io.specs.Writing.{Writes};
ghost use Rattle.lmn_print.specs.Lines.{IsHeapLine};
ghost use Rattle.lmn_store_heap.specs.Heap.{Unmarked};

use crate::clearing::clear_all;
use crate::numbers::number_printed;
use crate::tree::FoldedItems;
use lmn_base::{Names, Plain};
use lmn_io::{Failed, Sink};
use lmn_print_folding::choose_items;
use lmn_print_plain::write_line_with;
use lmn_store_trait::LinkStore;

/// Writes the line of the solid of a store, with its line feed: in the folded form where `folded` asks for it, and else in
/// the plain one. Every mark of an atom must be 0, and with either answer the store is as it was, marks and all. It takes
/// no memory.
///
/// # Errors
///
/// `Failed` where the sink failed; it then took a prefix of the line.
pub fn print<S: LinkStore, O: Sink>(
    store: &mut S,
    plain: &Plain,
    names: &Names,
    folded: bool,
    sink: &mut O,
) -> Result<(), Failed>
    requires valid { Valid (S.heap store.old) }
    requires unmarked { Unmarked (S.heap store.old) }
    ensures writes { Writes (IsHeapLine folded names.now plain.now.rules (S.heap store.old)) result (O.told sink.old) (O.faults sink.old) (O.told sink.new) (O.faults sink.new) }
    ensures kept { S.heap store.new ≡ S.heap store.old }
{
    if folded {
        print_folded(store, plain, names, sink)
    } else {
        lmn_print_plain::print(store, plain, names, sink)
    }
}

/// Writes the line in the folded form. Meanwhile own marks tell the items, and the marks of printed ports the numbers of
/// links.
fn print_folded<S: LinkStore, O: Sink>(
    store: &mut S,
    plain: &Plain,
    names: &Names,
    sink: &mut O,
) -> Result<(), Failed>
    requires valid { Valid (S.heap store.old) }
    requires unmarked { Unmarked (S.heap store.old) }
    ensures writes { Writes (IsHeapLine true names.now plain.now.rules (S.heap store.old)) result (O.told sink.old) (O.faults sink.old) (O.told sink.new) (O.faults sink.new) }
    ensures kept { S.heap store.new ≡ S.heap store.old }
{
    choose_items(store);
    let _chosen = store.root();
    number_printed(store);
    let _numbered = store.root();
    let answer = write_line_with(&FoldedItems, store, plain, names, sink);
    clear_all(store);
    let _cleared = store.root();
    answer
}
