//! How many membranes a solid has.
ghost use Rattle.std.specs.Prelude.{◌≡◌, ◌+◌, ◌++◌, List, IfOk, OnOk, length, map};
ghost use Rattle.lmn_adequacy.specs.Choice.{paths};
ghost use Rattle.lmn_base.specs.declared.solid.Region.TheViews.{out-Region};
ghost use Rattle.lmn_congruence.specs.Rules.{Name};
ghost use Rattle.lmn_congruence.specs.Translation.{region_of};

use lmn_base::{NoMemory, Region, RuleTree, Solid};
use std::alloc::Global;

/// How many membranes a solid has, the root included. It takes no more stack for a deeper one.
///
/// # Errors
///
/// `NoMemory` at want of memory, or where they are more than 64 bits count: no memory holds so many.
pub fn membranes(alloc: Global, solid: &Solid) -> Result<u64, NoMemory>
    ensures { IfOk result (λ count. (names : List Name) (table : List RuleTree) → count ≡ length (paths (region_of names table solid.now))) }
{
    let mut waiting: Vec<&Region> = Vec::new(alloc);
    waiting.push(&solid.root)?;
    let mut count = 0;
    while let Some(region) = waiting.pop() {
        count = one_more(count)?;
        push_inner(&mut waiting, region)?;
    }
    Ok(count)
}

/// A count that is greater by one.
fn one_more(count: u64) -> Result<u64, NoMemory>
    ensures { IfOk result (λ more. more ≡ count + 1) }
{
    match count.checked_add(1) {
        Some(more) => Ok(more),
        None => Err(NoMemory),
    }
}

/// Adds the membranes of a region to those that are still to be counted.
fn push_inner<'r>(waiting: &mut Vec<&'r Region>, region: &'r Region) -> Result<(), NoMemory>
    ensures { OnOk result (map (λ r. r.now) waiting.new.items ≡ map (λ r. r.now) waiting.old.items ++ (out-Region region.now).membranes) }
{
    for inner in region.membranes.as_slice() {
        waiting.push(inner)?;
    }
    Ok(())
}
