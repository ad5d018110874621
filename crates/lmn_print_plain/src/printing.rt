//! The line of a store whose marks of ports are 0, before and after.
ghost use Rattle.std.specs.Prelude.{◌≡◌};
ghost use Rattle.lmn_store_heap.specs.Sound.{Valid};
ghost use Rattle.lmn_io.specs.Writing.{Writes};
ghost use Rattle.lmn_print_plain.specs.Writing.{IsPlainHeapLine};
ghost use Rattle.lmn_store_heap.specs.Heap.{PortsUnmarked};

use crate::line::write_line;
use crate::numbers::{clear_numbers, number_links};
use lmn_base::{Names, Plain};
use lmn_io::{Failed, Sink};
use lmn_store_trait::LinkStore;

/// Writes the line of the solid of a store, with its line feed. Every mark of a port must be 0; meanwhile these marks hold
/// the numbers of links, and with either answer the store is as it was, marks and all. It takes no memory.
///
/// # Errors
///
/// `Failed` where the sink failed; it then took a prefix of the line.
pub fn print<S: LinkStore, O: Sink>(
    store: &mut S,
    plain: &Plain,
    names: &Names,
    sink: &mut O,
) -> Result<(), Failed>
    requires valid { Valid (S.heap store.old) }
    requires unmarked { PortsUnmarked (S.heap store.old) }
    ensures writes { Writes (IsPlainHeapLine names.now plain.now.rules (S.heap store.old)) result (O.told sink.old) (O.faults sink.old) (O.told sink.new) (O.faults sink.new) }
    ensures kept { S.heap store.new ≡ S.heap store.old }
{
    number_links(store);
    let _numbered = store.root();
    let answer = write_line(store, plain, names, sink);
    clear_numbers(store);
    let _cleared = store.root();
    answer
}
