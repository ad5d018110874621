//! A match of what was found.
ghost use Rattle.std.specs.Prelude.{◌≡◌, ◌<◌, ℕ, IfOk, length};
ghost use Rattle.lmn_store_heap.specs.Heap.{IsMem};
ghost use Rattle.lmn_store_heap.specs.Sound.{Valid};
ghost use Rattle.lmn_guards.specs.declared.plan.TypeKind.{TypeKind};
ghost use Rattle.lmn_solid_heads.specs.Embeddings.{Lies};
ghost use Rattle.lmn_solid_heads.specs.Flattening.{items_of_head};
ghost use Rattle.lmn_compile_head.specs.Heads.{IsHead};
ghost use Rattle.lmn_solid_tables.specs.Flats.{heap_of, link_at};
ghost use Rattle.lmn_solid_search.specs.Finding.{images};
ghost use Rattle.lmn_solid_firing.specs.Making.{IsReadyFor};
ghost use Rattle.lmn_solid_firing.specs.Matched.{AddsWires, IsMatched};

use crate::Match;
use crate::images::{atom_images, membrane_images};
use crate::names::{context_images, integers_of, rule_context_images};
use crate::parts::{add_atoms, parts_of};
use crate::wires::add_wires;
use lmn_base::{NoMemory, Rows, RuleTree};
use lmn_solid_heads::HeadItem;
use lmn_solid_search::Found;
use lmn_solid_tables::Flat;
use std::alloc::Global;

/// The match of what was found of a rule's head at a membrane. The connectors of the head are added to the list.
///
/// # Errors
///
/// `NoMemory` at want of memory, and where links have no numbers of 32 bits.
pub fn matched(
    alloc: Global,
    flat: &Flat,
    rule: &RuleTree,
    items: &[HeadItem],
    membrane: usize,
    found: &Found,
    connectors: &mut Rows<(u32, u32)>,
) -> Result<Match, NoMemory>
    requires valid { Valid (heap_of flat.now) }
    requires membrane { IsMem (heap_of flat.now) membrane }
    requires items { (kind : ℕ → TypeKind) × (items.now ≡ items_of_head kind rule.now.head) }
    requires head { IsHead items.now }
    requires lies { Lies (heap_of flat.now) items.now membrane (images membrane found.now) }
    ensures matched { IfOk result (IsMatched flat.now rule.now items.now membrane found.now) }
    ensures ready { IfOk result (IsReadyFor flat.now) }
    ensures connectors { IfOk result (λ t. AddsWires flat.now items.now (images membrane found.now) t.links (length rule.now.links) connectors.old connectors.new) }
{
    let mut atoms = atom_images(alloc, items, found.atoms.as_slice())?;
    let membranes = membrane_images(alloc, items, found.membranes.as_slice())?;
    let parts = parts_of(alloc, flat, items, found.parts.as_slice())?;
    add_atoms(parts.as_slice(), &mut atoms)?;
    let links = above_links(flat);
    add_wires(
        alloc,
        flat,
        items,
        found.atoms.as_slice(),
        links,
        rule.links.len(),
        connectors,
    )?;
    Ok(Match {
        home: membrane,
        links,
        atoms,
        membranes,
        parts,
        integers: integers_of(alloc, found.names.as_slice(), found.values.as_slice())?,
        contexts: context_images(alloc, &rule.head, membrane, found.membranes.as_slice())?,
        rule_contexts: rule_context_images(
            alloc,
            &rule.head,
            membrane,
            found.membranes.as_slice(),
        )?,
    })
}

/// A number above those of all links, also above the 0 that stands for the link at a port that isn't there.
fn above_links(flat: &Flat) -> u64
    ensures { (a i : ℕ) → link_at flat.now a i < result }
{
    flat.link_count().max(1) as u64
}
