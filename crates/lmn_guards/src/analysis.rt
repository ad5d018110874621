ghost use Rattle.std.specs.Prelude.{◌≡◌, ◌+◌, ◌++◌, length, flat_map, IfOk, MatchResult};
ghost use Rattle.lmn_base.specs.Firsts.{AnswersBy, NoneApplies, RefusedBy};
ghost use Rattle.lmn_base.specs.Refusals.{IfRefused};
ghost use Rattle.lmn_guards.specs.GuardCodes.{rows_of_typed, guard_rows};
ghost use Rattle.lmn_guards.specs.Plans.{typed_use, leaves_by_membrane, numbered_uses, binding, IsPlan};

use crate::conditions::check_conditions;
use crate::plan::{GuardPlan, TypedUse};
use crate::typing::{find_unheld, find_untyped, type_of};
use lmn_base::{
    Cond, Leaf, Level, Names, NoMemory, Refusal, RefusalCode, Rows, RuleTree, TextFault,
    first_refusal, refuse,
};
use lmn_base_walks::is_used;
use std::alloc::Global;

/// What the guard of a rule says of its contexts. The rule is refused by the first of the codes 41, 43 and 42 that applies to
/// a condition, the conditions being taken from left to right, and then by 40 or 46.
/// A context of the head counts in any form: one that stands bare there is refused before, as in two forms.
pub fn analyse(alloc: Global, rule: &RuleTree, _names: &Names) -> Result<GuardPlan, TextFault>
    ensures { MatchResult result
        (λ plan. NoneApplies (guard_rows rule.now) × IsPlan rule.now plan)
        (λ fault. IfRefused fault (RefusedBy (guard_rows rule.now))) }
{
    match check(rule) {
        Err(refusal) => Err(TextFault::Refused(refusal)),
        Ok(()) => match plan(alloc, rule) {
            Ok(plan) => Ok(plan),
            Err(NoMemory) => Err(TextFault::NoMemory),
        },
    }
}

/// Whether a guard may stand in its rule.
fn check(rule: &RuleTree) -> Result<(), Refusal>
    ensures { AnswersBy (guard_rows rule.now) result }
{
    let conditions = check_conditions(&rule.head, rule.guard.as_slice());
    let typed = check_typed(rule);
    first_refusal(conditions, typed)
}

/// Whether each typed context of a head has a type and is held.
fn check_typed(rule: &RuleTree) -> Result<(), Refusal>
    ensures { AnswersBy (rows_of_typed rule.now) result }
{
    if let Some(pos) = find_untyped(rule).first {
        return Err(RefusalCode::ContextWithoutType.at(pos));
    }
    refuse(RefusalCode::TypedContextNotHeld, find_unheld(rule).first)
}

fn plan(alloc: Global, rule: &RuleTree) -> Result<GuardPlan, NoMemory>
    ensures { IfOk result (IsPlan rule.now) }
{
    let mut kinds = Rows::new(alloc);
    add_kinds(&mut kinds, rule, &rule.head, 0)?;
    let mut bound = Rows::new(alloc);
    add_bound(&mut bound, &rule.head, rule.guard.as_slice())?;
    Ok(GuardPlan { kinds, bound })
}

/// Adds the typed contexts of a level with a number and of its membranes, and answers the number behind them. Memory is
/// wanting too where there are 2^32 membranes, which take more than a machine has.
fn add_kinds(
    kinds: &mut Rows<TypedUse>,
    rule: &RuleTree,
    level: &Level,
    number: u32,
) -> Result<u32, NoMemory>
    ensures { IfOk result (λ next. (next ≡ number + length (leaves_by_membrane level.now))
        × (kinds.new ≡ kinds.old ++ numbered_uses (typed_use rule.now.head rule.now.guard) number (leaves_by_membrane level.now))) }
{
    add_level(kinds, rule, level.leaves.as_slice(), number)?;
    if number == u32::MAX {
        return Err(NoMemory);
    }
    let mut next = number + 1;
    for inner in level.membranes.as_slice() {
        next = add_kinds(kinds, rule, inner, next)?;
    }
    Ok(next)
}

/// Adds the typed contexts among leaves of the membrane with a number.
fn add_level(
    kinds: &mut Rows<TypedUse>,
    rule: &RuleTree,
    leaves: &[Leaf],
    number: u32,
) -> Result<(), NoMemory>
    ensures { IfOk result (λ _. kinds.new ≡ kinds.old ++ flat_map (typed_use rule.now.head rule.now.guard number) leaves.now) }
{
    for leaf in leaves {
        add_leaf(kinds, rule, leaf, number)?;
    }
    Ok(())
}

fn add_leaf(
    kinds: &mut Rows<TypedUse>,
    rule: &RuleTree,
    leaf: &Leaf,
    number: u32,
) -> Result<(), NoMemory>
    ensures { IfOk result (λ _. kinds.new ≡ kinds.old ++ typed_use rule.now.head rule.now.guard number leaf.now) }
{
    match leaf {
        Leaf::Atom { .. } => Ok(()),
        Leaf::Typed { name, .. } => match type_of(&rule.head, rule.guard.as_slice(), *name) {
            None => Ok(()),
            Some(kind) => kinds.push(TypedUse {
                name: *name,
                kind,
                depth: number,
            }),
        },
    }
}

/// Adds the names that conditions bind.
fn add_bound(bound: &mut Rows<u32>, head: &Level, guard: &[Cond]) -> Result<(), NoMemory>
    ensures { IfOk result (λ _. bound.new ≡ bound.old ++ flat_map (binding head.now) guard.now) }
{
    for condition in guard {
        add_binding(bound, head, condition)?;
    }
    Ok(())
}

fn add_binding(bound: &mut Rows<u32>, head: &Level, condition: &Cond) -> Result<(), NoMemory>
    ensures { IfOk result (λ _. bound.new ≡ bound.old ++ binding head.now condition.now) }
{
    match condition {
        Cond::Kind { .. } => Ok(()),
        Cond::Compare { .. } => Ok(()),
        Cond::Equal { left, .. } => {
            if is_used(left.name, head) {
                Ok(())
            } else {
                bound.push(left.name)
            }
        }
        Cond::Differ { .. } => Ok(()),
    }
}
