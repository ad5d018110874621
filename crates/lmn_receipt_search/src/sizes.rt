//! How many items a firing leaves, told from below: it is enough to tell that they are too many, before any is made.
ghost use Rattle.std.specs.Prelude.{◌≡◌, ◌<◌, ◌≤◌, ◌+◌, ℕ, IfOk, IsTrue, if◌then◌else◌, length, map};
ghost use Rattle.lmn_base.specs.declared.solid.Solid.{Solid};
ghost use Rattle.lmn_store_heap.specs.Heap.{IsMem, atoms_in, mems_in, rules_in};
ghost use Rattle.lmn_store_heap.specs.Sound.{Valid};
ghost use Rattle.lmn_ground_parts.specs.Walks.{is_in};
ghost use Rattle.lmn_solid_bodies.specs.Flattening.{membrane_named};
ghost use Rattle.lmn_solid_firing.specs.Making.{AreThere, IsReadyFor};
ghost use Rattle.lmn_solid_tables.specs.Flats.{IsFlatOf, heap_of};
ghost use Rattle.lmn_receipt_search.specs.Items.{AreSizes, body_size, context_size, contexts_size, firing_size, kept_size, leaf_size, leaves_size, left_size, part_size, rules_size, size_at, total};

use lmn_base::{CtxUse, Leaf, Level, NoMemory};
use lmn_solid_firing::{Match, Part};
use lmn_solid_tables::Flat;
use std::alloc::Global;

/// How many items each membrane of a solid is with all that stands in it.
#[derive(Drop)]
pub(crate) struct Sizes {
    pub(crate) of: Vec<u64>,
}

impl Sizes {
    /// The table of the membranes of a solid.
    ///
    /// # Errors
    ///
    /// `NoMemory` at want of memory.
    pub(crate) fn new(alloc: Global, flat: &Flat) -> Result<Sizes, NoMemory>
        requires { (s : Solid) × IsFlatOf s flat.now }
        ensures { IfOk result (λ sizes. AreSizes (heap_of flat.now) sizes.of.items) }
    {
        let count = flat.membrane_count();
        let mut of = zeros(alloc, count)?;
        // What stands in a membrane has a greater number.
        for membrane in (0..count).rev() {
            of[membrane] = whole_size(flat, of.as_slice(), membrane)?;
        }
        Ok(Sizes { of })
    }

    /// Whether a firing leaves more items than a limit, by what its head doesn't take and what the contexts of its body stand for. `false`
    /// says nothing.
    pub(crate) fn are_beyond(&self, flat: &Flat, taken: &Match, body: &Level, limit: u64) -> bool
        requires valid { Valid (heap_of flat.now) }
        requires ready { IsReadyFor flat.now taken.now }
        ensures { IsTrue result → limit < firing_size (heap_of flat.now) self.now.of.items taken.now body.now }
    {
        let sizes = self.of.as_slice();
        let kept = kept_items(sizes, taken);
        kept.saturating_add(level_size(flat, sizes, taken, body)) > limit
    }
}

/// The sum, where 64 bits hold it: no memory holds more items.
fn added(left: u64, right: u64) -> Result<u64, NoMemory>
    ensures { IfOk result (λ both. both ≡ left + right) }
{
    match left.checked_add(right) {
        Some(both) => Ok(both),
        None => Err(NoMemory),
    }
}

/// A membrane with its atoms and rules and what stands in its membranes.
fn whole_size(flat: &Flat, sizes: &[u64], membrane: usize) -> Result<u64, NoMemory>
    requires { IsMem (heap_of flat.now) membrane }
    ensures { IfOk result (λ size. size ≡ 1 + length (atoms_in (heap_of flat.now) membrane) + length (rules_in (heap_of flat.now) membrane) + total (map (size_at sizes.now) (mems_in (heap_of flat.now) membrane))) }
{
    let own = added(
        flat.atoms(membrane).len() as u64,
        flat.rules(membrane).len() as u64,
    )?;
    let alone = added(own, 1)?;
    let inner = together(sizes, flat.membranes(membrane))?;
    added(alone, inner)
}

/// The sizes of membranes together.
fn together(sizes: &[u64], membranes: &[usize]) -> Result<u64, NoMemory>
    ensures { IfOk result (λ size. size ≡ total (map (size_at sizes.now) membranes.now)) }
{
    let mut size = 0u64;
    for membrane in membranes {
        size = added(size, size_of(sizes, *membrane))?;
    }
    Ok(size)
}

/// What is left of a solid behind the images of a head.
fn kept_items(sizes: &[u64], taken: &Match) -> u64
    ensures { result ≡ kept_size sizes.now taken.now }
{
    let mut kept = size_of(sizes, 0).saturating_sub(1);
    kept = kept.saturating_sub(taken.atoms.len() as u64);
    for membrane in taken.membranes.as_slice() {
        kept = kept.saturating_sub(size_of(sizes, *membrane));
    }
    kept
}

/// So many zeros.
fn zeros(alloc: Global, count: usize) -> Result<Vec<u64>, NoMemory>
    ensures { IfOk result (λ of. length of.items ≡ count) }
{
    let mut of = Vec::new(alloc);
    for _ in 0..count {
        of.push(0)?;
    }
    Ok(of)
}

/// The size of a membrane.
fn size_of(sizes: &[u64], membrane: usize) -> u64
    ensures { result ≡ size_at sizes.now membrane }
{
    match sizes.get(membrane) {
        Some(size) => *size,
        None => 0,
    }
}

/// Whether a number is in a list.
fn has(numbers: &[usize], number: usize) -> bool
    ensures { result ≡ is_in numbers.now number }
{
    for other in numbers {
        if *other == number {
            return true;
        }
    }
    false
}

/// A size, unless the number is taken.
fn size_left(taken: &[usize], number: usize, size: u64) -> u64
    ensures { result ≡ (if is_in taken.now number then 0 else size) }
{
    if has(taken, number) { 0 } else { size }
}

/// How many numbers of a list aren't taken, told from below.
fn numbers_left(taken: &[usize], numbers: &[usize]) -> u64
    ensures { result ≤ left_size (λ a. 1) taken.now numbers.now }
{
    let mut count = 0u64;
    for number in numbers {
        count = count.saturating_add(size_left(taken, *number, 1));
    }
    count
}

/// The sizes of the membranes of a list that aren't taken, together, told from below.
fn membranes_left(sizes: &[u64], taken: &[usize], membranes: &[usize]) -> u64
    ensures { result ≤ left_size (size_at sizes.now) taken.now membranes.now }
{
    let mut count = 0u64;
    for membrane in membranes {
        count = count.saturating_add(size_left(taken, *membrane, size_of(sizes, *membrane)));
    }
    count
}

/// The membrane of the first pair with a name, or the root.
fn membrane_of(names: &[(u32, usize)], name: u32) -> usize
    ensures { result ≡ membrane_named names.now name }
{
    for (other, membrane) in names {
        if *other == name {
            return *membrane;
        }
    }
    0
}

/// What a head leaves of a membrane.
fn context_items(flat: &Flat, sizes: &[u64], taken: &Match, membrane: usize) -> u64
    requires { IsMem (heap_of flat.now) membrane }
    ensures { result ≤ context_size (heap_of flat.now) sizes.now taken.now membrane }
{
    let atoms = numbers_left(taken.atoms.as_slice(), flat.atoms(membrane));
    let membranes = membranes_left(sizes, taken.membranes.as_slice(), flat.membranes(membrane));
    atoms.saturating_add(membranes)
}

/// What untyped contexts of a body stand for.
fn contexts_items(flat: &Flat, sizes: &[u64], taken: &Match, contexts: &[CtxUse]) -> u64
    requires valid { Valid (heap_of flat.now) }
    requires there { AreThere (heap_of flat.now) taken.now.contexts }
    ensures { result ≤ contexts_size (heap_of flat.now) sizes.now taken.now contexts.now }
{
    let mut count = 0u64;
    for context in contexts {
        let membrane = membrane_of(taken.contexts.as_slice(), context.name);
        count = count.saturating_add(context_items(flat, sizes, taken, membrane));
    }
    count
}

/// What rule contexts of a body stand for.
fn rules_items(flat: &Flat, taken: &Match, contexts: &[CtxUse]) -> u64
    requires valid { Valid (heap_of flat.now) }
    requires there { AreThere (heap_of flat.now) taken.now.rule_contexts }
    ensures { result ≤ rules_size (heap_of flat.now) taken.now contexts.now }
{
    let mut count = 0u64;
    for context in contexts {
        let membrane = membrane_of(taken.rule_contexts.as_slice(), context.name);
        count = count.saturating_add(flat.rules(membrane).len() as u64);
    }
    count
}

/// How many atoms a typed context stands for. Where it is an integer it isn't counted.
fn part_items(parts: &[Part], name: u32) -> u64
    ensures { result ≡ part_size parts.now name }
{
    for part in parts {
        if part.name == name {
            return part.atoms.len() as u64;
        }
    }
    0
}

/// What a leaf of a body stands for, where it is a typed context.
fn leaf_items(taken: &Match, leaf: &Leaf) -> u64
    ensures { result ≡ leaf_size taken.now leaf.now }
{
    match leaf {
        Leaf::Atom { .. } => 0,
        Leaf::Typed { name, .. } => part_items(taken.parts.as_slice(), *name),
    }
}

/// What typed contexts of a body stand for.
fn leaves_items(taken: &Match, leaves: &[Leaf]) -> u64
    ensures { result ≤ leaves_size taken.now leaves.now }
{
    let mut count = 0u64;
    for leaf in leaves {
        count = count.saturating_add(leaf_items(taken, leaf));
    }
    count
}

/// What the contexts of a level of a body stand for, those in its membranes too.
fn level_size(flat: &Flat, sizes: &[u64], taken: &Match, level: &Level) -> u64
    requires valid { Valid (heap_of flat.now) }
    requires ready { IsReadyFor flat.now taken.now }
    ensures { result ≤ body_size (heap_of flat.now) sizes.now taken.now level.now }
{
    let mut count = leaves_items(taken, level.leaves.as_slice());
    count = count.saturating_add(contexts_items(flat, sizes, taken, level.contexts.as_slice()));
    count = count.saturating_add(rules_items(flat, taken, level.rule_contexts.as_slice()));
    for inner in level.membranes.as_slice() {
        count = count.saturating_add(level_size(flat, sizes, taken, inner));
    }
    count
}
