//! The membranes below some.
ghost use Rattle.std.specs.Prelude.{◌≡◌, ◌<◌, ℕ, IfOk, OnOk, length};
ghost use Rattle.lmn_base.specs.Lists.{In};
ghost use Rattle.lmn_store_heap.specs.Heap.{IsMem};
ghost use Rattle.lmn_store_heap.specs.Sound.{Valid};
ghost use Rattle.lmn_solid_tables.specs.Flats.{heap_of};
ghost use Rattle.lmn_solid_search.specs.Walking.{AreBelow, HasMembranes, NotesAll};

use crate::marks::Marks;
use crate::walk::note;
use lmn_base::{NoMemory, Rows};
use lmn_solid_tables::Flat;
use std::alloc::Global;

/// Adds numbers to a list, unless they are in it.
fn note_all(seen: &mut Marks, list: &mut Rows<usize>, numbers: &[usize]) -> Result<(), NoMemory>
    requires { (p : ℕ) → In p numbers.now → p < length seen.old }
    ensures length { length seen.new ≡ length seen.old }
    ensures noted { OnOk result (NotesAll seen.old list.old numbers.now seen.new list.new) }
{
    for number in numbers {
        note(seen, list, *number)?;
    }
    Ok(())
}

/// These membranes and all that stand in them, at any depth, each once. They alone are marked.
pub(crate) fn below(
    alloc: Global,
    flat: &Flat,
    starts: &[usize],
    seen: &mut Marks,
) -> Result<Rows<usize>, NoMemory>
    requires valid { Valid (heap_of flat.now) }
    requires starts { (m : ℕ) → In m starts.now → IsMem (heap_of flat.now) m }
    requires places { HasMembranes (heap_of flat.now) seen.old }
    ensures length { length seen.new ≡ length seen.old }
    ensures all { IfOk result (λ membranes. AreBelow (heap_of flat.now) starts.now seen.new membranes) }
{
    seen.clear();
    let mut list = Rows::new(alloc);
    note_all(seen, &mut list, starts)?;
    let mut next = 0;
    while next < list.len() {
        let membrane = *list.at(next);
        note_all(seen, &mut list, flat.membranes(membrane))?;
        next += 1;
    }
    Ok(list)
}
