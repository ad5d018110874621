//! Whether the images of head membranes are as the head says.
ghost use Rattle.std.specs.Prelude.{◌≡◌, ◌<◌, ◌↔◌, ◌+◌, IfOk, IsTrue, length, slice_index_or};
ghost use Rattle.lmn_store_heap.specs.Sound.{Valid};
ghost use Rattle.lmn_solid_tables.specs.Flats.{heap_of};
ghost use Rattle.lmn_solid_search.specs.Holding.{AllHold, AreAtoms, HasRoom, HoldsAt};
ghost use Rattle.lmn_solid_search.specs.Placing.{ArePlaced};

use crate::closed::is_closed;
use crate::filled::holds_no_more;
use crate::head::{Head, MembraneItem};
use crate::parts::{Part, mark_mine};
use crate::placed::Placed;
use crate::room::Room;
use lmn_base::NoMemory;
use lmn_solid_tables::Flat;
use std::alloc::Global;

/// Whether the image of a membrane is as its item says.
fn membrane_holds(
    alloc: Global,
    flat: &Flat,
    head: &Head,
    placed: &Placed,
    parts: &[Part],
    index: usize,
    number: usize,
    item: &MembraneItem,
    room: &mut Room,
) -> Result<bool, NoMemory>
    requires valid { Valid (heap_of flat.now) }
    requires placed { ArePlaced (heap_of flat.now) placed.now }
    requires index { index < length placed.now.membranes }
    requires number { number ≡ index + 1 }
    requires parts { AreAtoms (heap_of flat.now) parts.now }
    requires all { length parts.now ≡ length head.now.typed }
    requires room { HasRoom (heap_of flat.now) room.old }
    ensures room { HasRoom (heap_of flat.now) room.new }
    ensures holds { IfOk result (λ holds. IsTrue holds ↔ HoldsAt (heap_of flat.now) head.now placed.now parts.now index item.now) }
{
    let membrane = *placed.membranes.at(index);
    mark_mine(
        &mut room.mine,
        placed.atoms.as_slice(),
        head.typed.as_slice(),
        parts,
        number,
    );
    if !holds_no_more(
        flat,
        item,
        placed.membranes.as_slice(),
        &room.mine,
        membrane,
    ) {
        return Ok(false);
    }
    if !item.has_closed_context {
        return Ok(true);
    }
    is_closed(
        alloc,
        flat,
        membrane,
        placed.membranes.as_slice(),
        &room.mine,
        &mut room.membranes,
        &mut room.within,
    )
}

/// Whether the images of all membranes are.
pub(crate) fn membranes_hold(
    alloc: Global,
    flat: &Flat,
    head: &Head,
    placed: &Placed,
    parts: &[Part],
    room: &mut Room,
) -> Result<bool, NoMemory>
    requires valid { Valid (heap_of flat.now) }
    requires placed { ArePlaced (heap_of flat.now) placed.now }
    requires membranes { length placed.now.membranes ≡ length head.now.membranes }
    requires parts { AreAtoms (heap_of flat.now) parts.now }
    requires all { length parts.now ≡ length head.now.typed }
    requires room { HasRoom (heap_of flat.now) room.old }
    ensures room { HasRoom (heap_of flat.now) room.new }
    ensures hold { IfOk result (λ hold. IsTrue hold ↔ AllHold (heap_of flat.now) head.now placed.now parts.now) }
{
    for index in 0..head.membranes.len() {
        if !membrane_holds(
            alloc,
            flat,
            head,
            placed,
            parts,
            index,
            index + 1,
            head.membranes.at(index),
            room,
        )? {
            return Ok(false);
        }
    }
    Ok(true)
}
