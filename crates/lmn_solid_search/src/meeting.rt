//! Whether a placement with its parts is one of a rule.
ghost use Rattle.std.specs.Prelude.{◌≡◌, ◌≤◌, ℕ, List, IfOk, IfSome, None, Some, length, slice_get};
ghost use Rattle.lmn_store_heap.specs.Sound.{Valid};
ghost use Rattle.lmn_solid_tables.specs.Flats.{heap_of};
ghost use Rattle.lmn_solid_search.specs.Binding.{after_all};
ghost use Rattle.lmn_solid_search.specs.Holding.{AreAtoms, HasRoom};
ghost use Rattle.lmn_solid_search.specs.Knowing.{Knows};
ghost use Rattle.lmn_solid_search.specs.Meeting.{Meets, named_meaning};
ghost use Rattle.lmn_solid_search.specs.Parting.{AreEntered, AreTaken};
ghost use Rattle.lmn_solid_search.specs.Taking.{StandsAt};
ghost use Rattle.lmn_solid_search.specs.declared.head.TypedItem.{TypedItem as Typed};
ghost use Rattle.lmn_solid_search.specs.declared.parts.Part.{Part as PartOf};
ghost use Rattle.lmn_solid_search.specs.Placing.{ArePlaced, outermost_in, times_in};
ghost use Rattle.lmn_solid_search.specs.declared.head.AtomItem.{AtomItem as Item};

use crate::head::Head;
use crate::holding::membranes_hold;
use crate::known::{Known, guard_holds};
use crate::naming::known_of;
use crate::outside::all_lead_out;
use crate::parts::{Part, take_parts};
use crate::placed::Placed;
use crate::room::Room;
use lmn_base::{Cond, NoMemory, Rows};
use lmn_solid_tables::Flat;
use std::alloc::Global;

/// What names stand for behind the guard of a rule, where a placement of its head with these parts meets all that is asked.
pub(crate) fn meets(
    alloc: Global,
    flat: &Flat,
    head: &Head,
    guard: &[Cond],
    placed: &Placed,
    parts: &[Part],
    room: &mut Room,
) -> Result<Option<Known>, NoMemory>
    requires valid { Valid (heap_of flat.now) }
    requires placed { ArePlaced (heap_of flat.now) placed.now }
    requires atoms { length placed.now.atoms ≡ length head.now.atoms }
    requires membranes { length placed.now.membranes ≡ length head.now.membranes }
    requires outermost { (n : ℕ) (a : Item) → slice_get head.now.atoms n ≡ Some a → outermost_in head.now.membranes a.inside ≤ length placed.now.membranes }
    requires few { (x : ℕ) → times_in x head.now ≤ 2 }
    requires all { length parts.now ≡ length head.now.typed }
    requires entries { AreEntered (heap_of flat.now) parts.now }
    requires parts { AreAtoms (heap_of flat.now) parts.now }
    requires room { HasRoom (heap_of flat.now) room.old }
    ensures room { HasRoom (heap_of flat.now) room.new }
    ensures some { IfOk result (λ o. IfSome o (λ known. Meets (heap_of flat.now) head.now guard.now placed.now parts.now
        × Knows (heap_of flat.now) known (after_all (heap_of flat.now) (named_meaning head.now.typed parts.now) guard.now))) }
    ensures none { IfOk result (λ o. o ≡ None → Meets (heap_of flat.now) head.now guard.now placed.now parts.now → ⊥) }
{
    if !all_lead_out(alloc, flat, head, placed, &mut room.membranes)? {
        return Ok(None);
    }
    if !membranes_hold(alloc, flat, head, placed, parts, room)? {
        return Ok(None);
    }
    let mut known = known_of(alloc, flat, head.typed.as_slice(), parts)?;
    if !guard_holds(alloc, flat, guard, &mut known, &mut room.pairs)? {
        return Ok(None);
    }
    Ok(Some(known))
}

/// The parts of a placement, and what names stand for behind the guard.
#[derive(Drop)]
pub(crate) struct Fulfilled {
    pub parts: Rows<Part>,
    pub known: Known,
}

/// Whether a placement has parts with which it meets all that is asked; then these, and what names stand for.
pub(crate) fn fulfil(
    alloc: Global,
    flat: &Flat,
    head: &Head,
    guard: &[Cond],
    placed: &Placed,
    room: &mut Room,
) -> Result<Option<Fulfilled>, NoMemory>
    requires valid { Valid (heap_of flat.now) }
    requires placed { ArePlaced (heap_of flat.now) placed.now }
    requires atoms { length placed.now.atoms ≡ length head.now.atoms }
    requires membranes { length placed.now.membranes ≡ length head.now.membranes }
    requires outermost { (n : ℕ) (a : Item) → slice_get head.now.atoms n ≡ Some a → outermost_in head.now.membranes a.inside ≤ length placed.now.membranes }
    requires few { (x : ℕ) → times_in x head.now ≤ 2 }
    requires inside { (n : ℕ) (t : Typed) → slice_get head.now.typed n ≡ Some t → t.inside ≤ length placed.now.membranes }
    requires held { (n : ℕ) (t : Typed) → slice_get head.now.typed n ≡ Some t → (p : ℕ × ℕ) × StandsAt head.now.atoms t.link p }
    requires room { HasRoom (heap_of flat.now) room.old }
    ensures room { HasRoom (heap_of flat.now) room.new }
    ensures some { IfOk result (λ o. IfSome o (λ found. AreTaken (heap_of flat.now) head.now.atoms placed.now head.now.typed found.parts (length head.now.typed)
        × Meets (heap_of flat.now) head.now guard.now placed.now found.parts
        × Knows (heap_of flat.now) found.known (after_all (heap_of flat.now) (named_meaning head.now.typed found.parts) guard.now))) }
    ensures none { IfOk result (λ o. o ≡ None → (parts : List PartOf) → AreTaken (heap_of flat.now) head.now.atoms placed.now head.now.typed parts (length head.now.typed) →
        Meets (heap_of flat.now) head.now guard.now placed.now parts → ⊥) }
{
    match take_parts(alloc, flat, head, placed, &mut room.seen)? {
        Some(parts) => match meets(alloc, flat, head, guard, placed, parts.as_slice(), room)? {
            Some(known) => Ok(Some(Fulfilled { parts, known })),
            None => Ok(None),
        },
        None => Ok(None),
    }
}
