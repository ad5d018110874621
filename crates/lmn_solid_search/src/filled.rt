//! Whether head membranes hold no more than the head says.
ghost use Rattle.std.specs.Prelude.{◌≡◌, ◌<◌, ◌↔◌, ◌⊎◌, ℕ, false, [], List, Option, None, IsTrue, length, map, replicate};
ghost use Rattle.lmn_base.specs.Lists.{In};
ghost use Rattle.lmn_store_heap.specs.Heap.{IsAtom, IsMem, rules_in};
ghost use Rattle.lmn_store_heap.specs.Sound.{Valid};
ghost use Rattle.lmn_solid_tables.specs.Flats.{heap_of};
ghost use Rattle.lmn_solid_search.specs.Placing.{HoldsNoMore, HoldsOnly};
ghost use Rattle.lmn_solid_search.specs.Walking.{HasPlaces, IsMarked};

use crate::head::MembraneItem;
use crate::marks::Marks;
use crate::whole::has;
use lmn_base::Rows;
use lmn_solid_tables::Flat;

/// Marks these numbers.
pub(crate) fn mark_all(seen: &mut Marks, numbers: &[usize])
    requires { (a : ℕ) → In a numbers.now → a < length seen.old }
    ensures length { length seen.new ≡ length seen.old }
    ensures marked { (a : ℕ) → (IsMarked seen.new a → IsMarked seen.old a ⊎ In a numbers.now) × ((IsMarked seen.old a ⊎ In a numbers.now) → IsMarked seen.new a) }
{
    for number in numbers {
        seen.set(*number, 0);
    }
}

/// Whether all of these are marked.
fn all_marked(seen: &Marks, numbers: &[usize]) -> bool
    requires { (a : ℕ) → In a numbers.now → a < length seen.now }
    ensures { IsTrue result ↔ ((a : ℕ) → In a numbers.now → IsMarked seen.now a) }
{
    for number in numbers {
        if !seen.has(*number) {
            return false;
        }
    }
    true
}

/// Whether all numbers of a list are in another one.
fn all_among(numbers: &[usize], others: &[usize]) -> bool
    ensures { IsTrue result ↔ ((a : ℕ) → In a numbers.now → In a others.now) }
{
    for number in numbers {
        if !has(others, *number) {
            return false;
        }
    }
    true
}

/// Whether a membrane has no rules.
fn has_no_rule(flat: &Flat, membrane: usize) -> bool
    requires { IsMem (heap_of flat.now) membrane }
    ensures { IsTrue result ↔ (rules_in (heap_of flat.now) membrane ≡ []) }
{
    flat.rules(membrane).is_empty()
}

/// Whether a membrane holds atoms that are marked and these membranes alone.
fn holds_only(flat: &Flat, membranes: &[usize], seen: &Marks, membrane: usize) -> bool
    requires valid { Valid (heap_of flat.now) }
    requires membrane { IsMem (heap_of flat.now) membrane }
    requires places { HasPlaces (heap_of flat.now) seen.now }
    ensures { IsTrue result ↔ HoldsOnly (heap_of flat.now) membranes.now seen.now membrane }
{
    all_marked(seen, flat.atoms(membrane)) && all_among(flat.membranes(membrane), membranes)
}

/// Whether a membrane without an untyped context does.
fn holds_only_unless(
    flat: &Flat,
    has_context: bool,
    membranes: &[usize],
    seen: &Marks,
    membrane: usize,
) -> bool
    requires valid { Valid (heap_of flat.now) }
    requires membrane { IsMem (heap_of flat.now) membrane }
    requires places { HasPlaces (heap_of flat.now) seen.now }
    ensures { IsTrue result ↔ (has_context ≡ false → HoldsOnly (heap_of flat.now) membranes.now seen.now membrane) }
{
    has_context || holds_only(flat, membranes, seen, membrane)
}

/// Whether a membrane without a rule context has no rules.
fn has_no_rule_unless(flat: &Flat, has_rule_context: bool, membrane: usize) -> bool
    requires { IsMem (heap_of flat.now) membrane }
    ensures { IsTrue result ↔ (has_rule_context ≡ false → rules_in (heap_of flat.now) membrane ≡ []) }
{
    has_rule_context || has_no_rule(flat, membrane)
}

/// Whether a membrane holds no more than its item says.
pub(crate) fn holds_no_more(
    flat: &Flat,
    item: &MembraneItem,
    membranes: &[usize],
    seen: &Marks,
    membrane: usize,
) -> bool
    requires valid { Valid (heap_of flat.now) }
    requires membrane { IsMem (heap_of flat.now) membrane }
    requires places { HasPlaces (heap_of flat.now) seen.now }
    ensures { IsTrue result ↔ HoldsNoMore (heap_of flat.now) item.now membranes.now seen.now membrane }
{
    holds_only_unless(flat, item.has_context, membranes, seen, membrane)
        && has_no_rule_unless(flat, item.has_rule_context, membrane)
}
