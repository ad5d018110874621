//! The least embedding of the head of a rule.
ghost use Rattle.std.specs.Prelude.{◌≡◌, ℕ, IfOk, IfSome, None, map};
ghost use Rattle.lmn_compile_head.specs.Heads.{IsHead};
ghost use Rattle.lmn_solid_tables.specs.Flats.{heap_of};
ghost use Rattle.lmn_guards.specs.Values.{value_beside};
ghost use Rattle.lmn_store_heap.specs.Heap.{IsMem};
ghost use Rattle.lmn_store_heap.specs.Sound.{Valid};
ghost use Rattle.lmn_solid_heads.specs.Embeddings.{Embeds, Images, IsLeast, meaning};
ghost use Rattle.lmn_solid_heads.specs.Guards.{integer_named};
ghost use Rattle.lmn_solid_search.specs.Binding.{after_all};
ghost use Rattle.lmn_solid_search.specs.Finding.{images};
ghost use Rattle.lmn_solid_search.specs.Holding.{HasRoom};

use crate::ahead::holds_functors;
use crate::head::Head;
use crate::known::Known;
use crate::meeting::Fulfilled;
use crate::parts::Part;
use crate::placed::Placed;
use crate::room::Room;
use crate::search::{Sought, search};
use lmn_base::{Cond, NoMemory, Rows};
use lmn_solid_heads::HeadItem;
use lmn_solid_tables::{Flat, Port};
use std::alloc::Global;

/// Where the head of a rule lies, and the integers that its names stand for.
#[derive(Drop)]
pub struct Found {
    /// The image of each atom of the head, by its number.
    pub atoms: Rows<usize>,
    /// The image of each membrane of the head. That with number k stands at index k - 1.
    pub membranes: Rows<usize>,
    /// The port at which the part of each typed context is entered, by its number.
    pub parts: Rows<Port>,
    /// Names of integers: of parts that are integers, and of what the guard binds. The first place of a name counts.
    pub names: Vec<u32>,
    /// The integer of each.
    pub values: Vec<i64>,
}

/// The ports at which parts are entered.
fn entries_of(alloc: Global, parts: &[Part]) -> Result<Rows<Port>, NoMemory>
    ensures { IfOk result (λ entries. entries ≡ map (λ q. q.entry) parts.now) }
{
    let mut entries = Rows::new(alloc);
    for part in parts {
        entries.push(part.entry)?;
    }
    Ok(entries)
}

/// What is told of a placement with its parts.
fn found_of(alloc: Global, placed: Placed, fulfilled: Fulfilled) -> Result<Found, NoMemory>
    ensures atoms { IfOk result (λ found. found.atoms ≡ placed.atoms) }
    ensures membranes { IfOk result (λ found. found.membranes ≡ placed.membranes) }
    ensures parts { IfOk result (λ found. found.parts ≡ map (λ q. q.entry) fulfilled.parts) }
    ensures names { IfOk result (λ found. found.names ≡ fulfilled.known.names) }
    ensures values { IfOk result (λ found. found.values ≡ fulfilled.known.values) }
{
    let parts = entries_of(alloc, fulfilled.parts.as_slice())?;
    let Placed {
        atoms,
        membranes,
        ..
    } = placed;
    let Fulfilled { known, .. } = fulfilled;
    let Known { names, values, .. } = known;
    Ok(Found {
        atoms,
        membranes,
        parts,
        names,
        values,
    })
}

/// The least embedding of a head with its guard, in tables of a solid, at a membrane; none where there is no embedding.
///
/// It recurses on the items of the head, and takes as long as there are ways to place them, in the worst case.
///
/// # Errors
///
/// `NoMemory` at want of memory.
pub fn least(
    alloc: Global,
    flat: &Flat,
    items: &[HeadItem],
    guard: &[Cond],
    membrane: usize,
    room: &mut Room,
) -> Result<Option<Found>, NoMemory>
    requires valid { Valid (heap_of flat.now) }
    requires membrane { IsMem (heap_of flat.now) membrane }
    requires head { IsHead items.now }
    requires room { HasRoom (heap_of flat.now) room.old }
    ensures room { HasRoom (heap_of flat.now) room.new }
    ensures some { IfOk result (λ o. IfSome o (λ found. IsLeast (heap_of flat.now) items.now guard.now membrane (images membrane found))) }
    ensures none { IfOk result (λ o. o ≡ None → (f : Images) → Embeds (heap_of flat.now) items.now guard.now membrane f → ⊥) }
    ensures known { IfOk result (λ o. IfSome o (λ found. (x : ℕ) →
        integer_named (heap_of flat.now) (after_all (heap_of flat.now) (meaning items.now (images membrane found)) guard.now) x ≡ value_beside found.names.items found.values.items x)) }
{
    if !holds_functors(flat, 0, membrane, items) {
        return Ok(None);
    }
    let head = Head::of(alloc, items)?;
    let mut placed = Placed {
        home: membrane,
        atoms: Rows::new(alloc),
        membranes: Rows::new(alloc),
    };
    match search(alloc, flat, &head, guard, items, &mut placed, room)? {
        Sought::Found(fulfilled) => {
            let found = found_of(alloc, placed, fulfilled)?;
            Ok(Some(found))
        }
        Sought::Failed(_) => Ok(None),
    }
}
