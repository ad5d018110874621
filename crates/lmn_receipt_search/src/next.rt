//! The next solid.
ghost use Rattle.std.specs.Prelude.{◌≡◌, ◌<◌, ◌≤◌, ℕ, List, false, IfOk, IfSome, IsFalse, IsTrue, None, get_or, length};
ghost use Rattle.lmn_congruence.specs.Rules.{Name};
ghost use Rattle.lmn_congruence.specs.Translation.{region_of};
ghost use Rattle.lmn_adequacy.specs.Choice.{NextFrom, paths};
ghost use Rattle.lmn_adequacy.specs.Embedding.{HasEmbedding};
ghost use Rattle.lmn_base.specs.declared.solid.Solid.{Solid};
ghost use Rattle.lmn_guards.specs.declared.plan.GuardPlan.{GuardPlan};
ghost use Rattle.lmn_solid_tables.specs.Flats.{heap_of};
ghost use Rattle.lmn_solid_search.specs.Holding.{HasRoom};
ghost use Rattle.lmn_receipt_search.specs.Items.{AreSizes};
ghost use Rattle.lmn_receipt_search.specs.Tables.{AreSearchTables};
ghost use Rattle.lmn_receipt_search.specs.Turns.{IsFoundWithin, NoneBefore};
ghost use Rattle.lmn_solid_next.specs.Asking.{IsSearched};
ghost use Rattle.lmn_solid_next.specs.Searching.{CanSearch, IsSolidBy};

use crate::laws::firings_are_next;
use crate::order::{asked_at, reach_of};
use crate::plans::plans_of;
use crate::rules::{embeds_in, fire_in};
use crate::sizes::Sizes;
use crate::tables::SearchTables;
use lmn_base::{NoMemory, Plain, Solid};
use lmn_guards::GuardPlan;
use lmn_receipt_chain::NextSolid;
use lmn_solid_search::Room;
use lmn_solid_tables::Flat;
use std::alloc::Global;

impl SearchTables {
    /// The solid after the firing that the strategy chooses, where membranes are asked from a number on, wrapping round, with the last number
    /// of a membrane, from the given one on, from which it is the same; `None` where no rule of any membrane embeds. Where it is found to have
    /// more items than the limit, or to fire in a membrane that is left out, it isn't made. `plans` has the plan of each rule.
    ///
    /// # Errors
    ///
    /// `NoMemory` at want of memory.
    pub(crate) fn next_from(
        &mut self,
        alloc: Global,
        plain: &Plain,
        plans: &[GuardPlan],
        from: u64,
        limit: u64,
        left_out: &[bool],
    ) -> Result<Option<NextSolid>, NoMemory>
        requires { (names : List Name) × (s : Solid) × CanSearch names plain.now plans.now × IsSolidBy names plain.now s × AreSearchTables s self.old × (from < length (paths (region_of names plain.now.rules s))) }
        ensures tables { (s : Solid) → AreSearchTables s self.old → AreSearchTables s self.new }
        ensures found { (names : List Name) (s : Solid) → CanSearch names plain.now plans.now → IsSolidBy names plain.now s → AreSearchTables s self.old → IfOk result (λ found. IfSome found (IsFoundWithin names plain.now s from limit left_out.now)) }
        ensures none { (names : List Name) (s : Solid) → CanSearch names plain.now plans.now → IsSolidBy names plain.now s → AreSearchTables s self.old →
            IfOk result (λ found. found ≡ None → ¬ (HasEmbedding (region_of names plain.now.rules s))) }
    {
        next_among(
            alloc,
            &self.flat,
            &self.sizes,
            &mut self.room,
            plain,
            plans,
            from,
            limit,
            left_out,
        )
    }
}

/// Whether a membrane is left out.
fn is_left_out(left_out: &[bool], membrane: usize) -> bool
    ensures { result ≡ get_or left_out.now membrane false }
{
    match left_out.get(membrane) {
        Some(is) => *is,
        None => false,
    }
}

/// The limit of items in a membrane: 0 in one that is left out, so that hardly any solid is made.
fn limit_in(left_out: &[bool], membrane: usize, limit: u64) -> u64
    ensures { IsFalse (get_or left_out.now membrane false) → result ≡ limit }
{
    if is_left_out(left_out, membrane) {
        0
    } else {
        limit
    }
}

/// The same, by the tables and room for searches in them.
fn next_among(
    alloc: Global,
    flat: &Flat,
    sizes: &Sizes,
    room: &mut Room,
    plain: &Plain,
    plans: &[GuardPlan],
    from: u64,
    limit: u64,
    left_out: &[bool],
) -> Result<Option<NextSolid>, NoMemory>
    requires searched { (names : List Name) × (s : Solid) × IsSearched names plain.now plans.now s flat.now × (from < length (paths (region_of names plain.now.rules s))) }
    requires sizes { AreSizes (heap_of flat.now) sizes.now.of.items }
    requires room { HasRoom (heap_of flat.now) room.old }
    ensures room { HasRoom (heap_of flat.now) room.new }
    ensures found { (names : List Name) (s : Solid) → IsSearched names plain.now plans.now s flat.now → IfOk result (λ found. IfSome found (IsFoundWithin names plain.now s from limit left_out.now)) }
    ensures none { (names : List Name) (s : Solid) → IsSearched names plain.now plans.now s flat.now → IfOk result (λ found. found ≡ None → ¬ (HasEmbedding (region_of names plain.now.rules s))) }
{
    firings_are_next();
    let count = flat.membrane_count();
    let start = from as usize;
    for turn in 0..count {
        let membrane = asked_at(start, turn, count);
        let most = limit_in(left_out, membrane, limit);
        let fired = fire_in(alloc, flat, sizes, plain, plans, membrane, room, most)?;
        if let Some(firing) = fired {
            let reach = reach_of(start, turn, count);
            return Ok(Some(NextSolid {
                solid: firing.solid,
                reach: reach as u64,
            }));
        }
    }
    Ok(None)
}

/// Whether a rule of some membrane of a solid embeds. No solid is made. `plans` has the plan of each rule.
///
/// # Errors
///
/// `NoMemory` at want of memory.
pub fn embeds(
    alloc: Global,
    solid: &Solid,
    plain: &Plain,
    plans: &[GuardPlan],
) -> Result<bool, NoMemory>
    requires { (names : List Name) × CanSearch names plain.now plans.now × IsSolidBy names plain.now solid.now }
    ensures some { (names : List Name) → CanSearch names plain.now plans.now → IsSolidBy names plain.now solid.now →
        IfOk result (λ is. IsTrue is → HasEmbedding (region_of names plain.now.rules solid.now)) }
    ensures none { (names : List Name) → CanSearch names plain.now plans.now → IsSolidBy names plain.now solid.now →
        IfOk result (λ is. IsFalse is → ¬ (HasEmbedding (region_of names plain.now.rules solid.now))) }
{
    firings_are_next();
    let flat = Flat::of(alloc, solid)?;
    let mut room = Room::new(alloc, &flat)?;
    let count = flat.membrane_count();
    for membrane in 0..count {
        if embeds_in(alloc, &flat, plain, plans, membrane, &mut room)? {
            return Ok(true);
        }
    }
    Ok(false)
}

/// The solid after the firing that the strategy chooses, where membranes are asked from a number on, wrapping round; `None` where no rule
/// of any membrane embeds. The rules were accepted; their plans are made anew.
///
/// # Errors
///
/// `NoMemory` at want of memory.
pub fn next_of(
    alloc: Global,
    solid: &Solid,
    plain: &Plain,
    from: u64,
) -> Result<Option<Solid>, NoMemory>
    requires { (names : List Name) × (plans : List GuardPlan) × CanSearch names plain.now plans × IsSolidBy names plain.now solid.now × (from < length (paths (region_of names plain.now.rules solid.now))) }
    ensures by { (names : List Name) (plans : List GuardPlan) → CanSearch names plain.now plans → IsSolidBy names plain.now solid.now → IfOk result (λ found. IfSome found (IsSolidBy names plain.now)) }
    ensures next { (names : List Name) (plans : List GuardPlan) → CanSearch names plain.now plans → IsSolidBy names plain.now solid.now →
        IfOk result (λ found. IfSome found (λ next. NextFrom from (region_of names plain.now.rules solid.now) (region_of names plain.now.rules next))) }
    ensures none { (names : List Name) (plans : List GuardPlan) → CanSearch names plain.now plans → IsSolidBy names plain.now solid.now →
        IfOk result (λ found. found ≡ None → ¬ (HasEmbedding (region_of names plain.now.rules solid.now))) }
{
    let plans = plans_of(alloc, plain.rules.as_slice())?;
    let mut tables = SearchTables::of(alloc, solid)?;
    let next = tables.next_from(alloc, plain, plans.as_slice(), from, u64::MAX, &[])?;
    match next {
        Some(found) => {
            let made = made_of(found.solid)?;
            Ok(Some(made))
        }
        None => Ok(None),
    }
}

/// The solid, where it was made. One that wasn't has more items than there are numbers.
fn made_of(solid: Option<Solid>) -> Result<Solid, NoMemory>
    ensures { IfOk result (λ made. solid ≡ Some made) }
{
    match solid {
        Some(made) => Ok(made),
        None => Err(NoMemory),
    }
}
