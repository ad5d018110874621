//! Rules that are asked in a membrane.
ghost use Rattle.std.specs.Prelude.{◌≡◌, ◌<◌, ℕ, List, IfOk, IfSome, IsFalse, IsTrue, None, Some, length, slice_get, take};
ghost use Rattle.lmn_base.specs.declared.rule.Plain.{Plain};
ghost use Rattle.lmn_base.specs.declared.solid.Solid.{Solid};
ghost use Rattle.lmn_congruence.specs.Rules.{Name};
ghost use Rattle.lmn_guards.specs.declared.plan.GuardPlan.{GuardPlan};
ghost use Rattle.lmn_store_heap.specs.Heap.{IsMem, rules_in};
ghost use Rattle.lmn_solid_heads.specs.Embeddings.{Embeds, Images, IsLeast};
ghost use Rattle.lmn_compile_head.specs.Accepted.{head_items};
ghost use Rattle.lmn_solid_tables.specs.Flats.{heap_of};
ghost use Rattle.lmn_solid_search.specs.Finding.{images};
ghost use Rattle.lmn_solid_search.specs.Holding.{HasRoom};
ghost use Rattle.lmn_solid_next.specs.Choosing.{NoneOf};
ghost use Rattle.lmn_solid_next.specs.Firing.{TellsIntegers};
ghost use Rattle.lmn_solid_next.specs.Asking.{IsAsked, IsSearched};
ghost use Rattle.lmn_receipt_search.specs.Items.{AreSizes};
ghost use Rattle.lmn_receipt_search.specs.Turns.{EmbedsThere, FiresInWithin, FiresWithin};

use crate::laws::{asked_rules, bodies_are_counted};
use crate::sizes::Sizes;
use lmn_base::{NoMemory, Plain, Rows, RuleTree, Solid};
use lmn_compile_head::flatten;
use lmn_guards::GuardPlan;
use lmn_solid_firing::{fire, matched};
use lmn_solid_heads::HeadItem;
use lmn_solid_next::asked_rules_fire;
use lmn_solid_search::{Found, Room, least};
use lmn_solid_settle::settle;
use lmn_solid_tables::Flat;
use std::alloc::Global;

/// What a rule that fires leaves.
#[derive(Drop)]
pub(crate) struct Firing {
    /// The next solid, unless it is found to have more items than a limit.
    pub(crate) solid: Option<Solid>,
}

/// What a rule leaves that fires in a membrane where it is found to lie. Where its body makes more items than the limit, they aren't made.
fn fire_found(
    alloc: Global,
    flat: &Flat,
    sizes: &Sizes,
    rule: &RuleTree,
    plan: &GuardPlan,
    items: &[HeadItem],
    membrane: usize,
    found: &Found,
    limit: u64,
) -> Result<Firing, NoMemory>
    requires asked { (names : List Name) × (plain : Plain) × (plans : List GuardPlan) × (s : Solid) × (place : ℕ) × IsAsked names plain plans s flat.now membrane place rule.now plan.now }
    requires items { items.now ≡ head_items rule.now plan.now }
    requires least { IsLeast (heap_of flat.now) (head_items rule.now plan.now) rule.now.guard membrane (images membrane found.now) }
    requires known { TellsIntegers (heap_of flat.now) (head_items rule.now plan.now) rule.now.guard membrane found.now }
    requires sizes { AreSizes (heap_of flat.now) sizes.now.of.items }
    ensures { (names : List Name) (plain : Plain) (plans : List GuardPlan) (s : Solid) (place : ℕ) → IsAsked names plain plans s flat.now membrane place rule.now plan.now →
        IfOk result (λ firing. FiresWithin names plain s flat.now membrane place rule.now plan.now limit firing.solid) }
{
    asked_rules();
    asked_rules_fire();
    bodies_are_counted();
    let mut connectors = Rows::new(alloc);
    let taken = matched(alloc, flat, rule, items, membrane, found, &mut connectors)?;
    if sizes.are_beyond(flat, &taken, &rule.body, limit) {
        return Ok(Firing { solid: None });
    }
    let (membranes, links) = fire(
        alloc,
        flat,
        &taken,
        &rule.body,
        rule.links.len() as u64,
        &mut connectors,
    )?;
    let next = settle(alloc, membranes, connectors.as_slice(), links)?;
    Ok(Firing { solid: Some(next) })
}

/// What a rule leaves that fires in a membrane at its least embedding, if it has one there.
fn fire_rule(
    alloc: Global,
    flat: &Flat,
    sizes: &Sizes,
    rule: &RuleTree,
    plan: &GuardPlan,
    membrane: usize,
    room: &mut Room,
    limit: u64,
) -> Result<Option<Firing>, NoMemory>
    requires asked { (names : List Name) × (plain : Plain) × (plans : List GuardPlan) × (s : Solid) × (place : ℕ) × IsAsked names plain plans s flat.now membrane place rule.now plan.now }
    requires room { HasRoom (heap_of flat.now) room.old }
    requires sizes { AreSizes (heap_of flat.now) sizes.now.of.items }
    ensures room { HasRoom (heap_of flat.now) room.new }
    ensures some { (names : List Name) (plain : Plain) (plans : List GuardPlan) (s : Solid) (place : ℕ) → IsAsked names plain plans s flat.now membrane place rule.now plan.now →
        IfOk result (λ found. IfSome found (λ firing. FiresWithin names plain s flat.now membrane place rule.now plan.now limit firing.solid)) }
    ensures none { IfOk result (λ found. found ≡ None → (f : Images) → ¬ (Embeds (heap_of flat.now) (head_items rule.now plan.now) rule.now.guard membrane f)) }
{
    asked_rules();
    let items = flatten(alloc, &rule.head, plan)?;
    let least = least(
        alloc,
        flat,
        items.as_slice(),
        rule.guard.as_slice(),
        membrane,
        room,
    )?;
    match least {
        None => Ok(None),
        Some(found) => {
            let firing = fire_found(
                alloc,
                flat,
                sizes,
                rule,
                plan,
                items.as_slice(),
                membrane,
                &found,
                limit,
            )?;
            Ok(Some(firing))
        }
    }
}

/// Whether a rule embeds in a membrane. It is looked for as where it fires, and no solid is made.
fn rule_embeds(
    alloc: Global,
    flat: &Flat,
    rule: &RuleTree,
    plan: &GuardPlan,
    membrane: usize,
    room: &mut Room,
) -> Result<bool, NoMemory>
    requires asked { (names : List Name) × (plain : Plain) × (plans : List GuardPlan) × (s : Solid) × (place : ℕ) × IsAsked names plain plans s flat.now membrane place rule.now plan.now }
    requires room { HasRoom (heap_of flat.now) room.old }
    ensures room { HasRoom (heap_of flat.now) room.new }
    ensures some { IfOk result (λ is. IsTrue is → (f : Images) × IsLeast (heap_of flat.now) (head_items rule.now plan.now) rule.now.guard membrane f) }
    ensures none { IfOk result (λ is. IsFalse is → (f : Images) → ¬ (Embeds (heap_of flat.now) (head_items rule.now plan.now) rule.now.guard membrane f)) }
{
    asked_rules();
    let items = flatten(alloc, &rule.head, plan)?;
    let least = least(
        alloc,
        flat,
        items.as_slice(),
        rule.guard.as_slice(),
        membrane,
        room,
    )?;
    match least {
        None => Ok(false),
        Some(_found) => Ok(true),
    }
}

/// The number of the rule at a place.
fn rule_at(rules: &[u32], place: usize) -> usize
    requires { place < length rules.now }
    ensures { slice_get rules.now place ≡ Some result }
{
    rules[place] as usize
}

/// What the first rule of a membrane that embeds there leaves, if one does.
pub(crate) fn fire_in(
    alloc: Global,
    flat: &Flat,
    sizes: &Sizes,
    plain: &Plain,
    plans: &[GuardPlan],
    membrane: usize,
    room: &mut Room,
    limit: u64,
) -> Result<Option<Firing>, NoMemory>
    requires searched { (names : List Name) × (s : Solid) × IsSearched names plain.now plans.now s flat.now }
    requires there { IsMem (heap_of flat.now) membrane }
    requires room { HasRoom (heap_of flat.now) room.old }
    requires sizes { AreSizes (heap_of flat.now) sizes.now.of.items }
    ensures room { HasRoom (heap_of flat.now) room.new }
    ensures some { (names : List Name) (s : Solid) → IsSearched names plain.now plans.now s flat.now → IfOk result (λ found. IfSome found (λ firing. FiresInWithin names plain.now plans.now s flat.now membrane limit firing.solid)) }
    ensures none { IfOk result (λ found. found ≡ None → NoneOf plain.now.rules plans.now (heap_of flat.now) membrane (rules_in (heap_of flat.now) membrane)) }
{
    asked_rules();
    let rules = flat.rules(membrane);
    for place in 0..rules.len() {
        let number = rule_at(rules, place);
        let fired = fire_rule(
            alloc,
            flat,
            sizes,
            plain.rules.at(number),
            &plans[number],
            membrane,
            room,
            limit,
        )?;
        if fired.is_some() {
            return Ok(fired);
        }
    }
    Ok(None)
}

/// Whether a rule of a membrane embeds there.
pub(crate) fn embeds_in(
    alloc: Global,
    flat: &Flat,
    plain: &Plain,
    plans: &[GuardPlan],
    membrane: usize,
    room: &mut Room,
) -> Result<bool, NoMemory>
    requires searched { (names : List Name) × (s : Solid) × IsSearched names plain.now plans.now s flat.now }
    requires there { IsMem (heap_of flat.now) membrane }
    requires room { HasRoom (heap_of flat.now) room.old }
    ensures room { HasRoom (heap_of flat.now) room.new }
    ensures some { (names : List Name) (s : Solid) → IsSearched names plain.now plans.now s flat.now → IfOk result (λ is. IsTrue is → EmbedsThere names plain.now plans.now s flat.now membrane) }
    ensures none { IfOk result (λ is. IsFalse is → NoneOf plain.now.rules plans.now (heap_of flat.now) membrane (rules_in (heap_of flat.now) membrane)) }
{
    asked_rules();
    let rules = flat.rules(membrane);
    for turn in 0..rules.len() {
        let number = rule_at(rules, turn);
        if rule_embeds(
            alloc,
            flat,
            plain.rules.at(number),
            &plans[number],
            membrane,
            room,
        )? {
            return Ok(true);
        }
    }
    Ok(false)
}
