//! The weight of a process, where each rule lowers it.
ghost use Rattle.std.specs.Prelude.{◌≡◌, ◌<◌, ◌==◌, ◌-◌, ◌^◌, List, [], min, length, sum, map, IfErr, IfOk, IfSome, IsTrue};
ghost use Rattle.std.specs.List.{list_any, list_all};
ghost use Rattle.lmn_base.specs.declared.functor.Functor.{Functor};
ghost use Rattle.lmn_base.specs.Levels.{contexts_of};
ghost use Rattle.lmn_weight.specs.Index.{IsIndexOf};
ghost use Rattle.lmn_weight.specs.Plains as plains;
ghost use Rattle.lmn_weight.specs.Plains.{AreSmall, EachLowered, IsFirstNotLowered, IsOfSize};

use crate::index::{Index, fill};
use crate::weights::{Weights, functor_weight};
use arrayvec::ArrayVec;
use lmn_base::{CtxUse, Leaf, Level, Plain, Refusal, RefusalCode, RuleTree};
use lmn_guards::{GuardPlan, TypeKind, TypedUse};

/// Whether a type is `int`.
fn is_int_kind(kind: TypeKind) -> bool
    ensures { result ≡ plains.is_int_kind kind }
{
    match kind {
        TypeKind::Int => true,
        TypeKind::Unary => false,
        TypeKind::Ground => false,
    }
}

/// Whether a typed context of the head has the name and the type `int`.
fn has_int_use(kinds: &[TypedUse], name: u32) -> bool
    ensures { result ≡ list_any (plains.is_int_use name) kinds.now }
{
    for typed in kinds {
        if typed.name == name && is_int_kind(typed.kind) {
            return true;
        }
    }
    false
}

/// Whether a name is among others.
fn is_among(names: &[u32], name: u32) -> bool
    ensures { result ≡ list_any (λ m. m == name) names.now }
{
    for other in names {
        if *other == name {
            return true;
        }
    }
    false
}

/// Whether a context is `int` or bound.
fn stands_for_int(kinds: &[TypedUse], bound: &[u32], name: u32) -> bool
    ensures { result ≡ plains.stands_for_int kinds.now bound.now name }
{
    has_int_use(kinds, name) || is_among(bound, name)
}

/// The weight of a leaf.
fn leaf_weight(
    weights: &Weights,
    index: Option<&[u16]>,
    kinds: &[TypedUse],
    bound: &[u32],
    leaf: &Leaf,
) -> u64
    requires lists { length weights.now.functors ≡ length weights.now.values }
    requires index { IfSome index (λ places. IsIndexOf weights.now.functors places.now) }
    ensures { result ≡ plains.leaf_weight weights.now kinds.now bound.now leaf.now }
{
    match leaf {
        Leaf::Atom { functor, .. } => functor_weight(weights, index, *functor),
        Leaf::Typed { name, .. } => {
            if stands_for_int(kinds, bound, *name) {
                weights.int
            } else {
                0
            }
        }
    }
}

/// The weight of leaves, or 2^64 - 1 where it is greater.
fn leaves_weight(
    weights: &Weights,
    index: Option<&[u16]>,
    kinds: &[TypedUse],
    bound: &[u32],
    leaves: &[Leaf],
) -> u64
    requires lists { length weights.now.functors ≡ length weights.now.values }
    requires index { IfSome index (λ places. IsIndexOf weights.now.functors places.now) }
    ensures { result ≡ min (sum (map (plains.leaf_weight weights.now kinds.now bound.now) leaves.now)) (2 ^ 64 - 1) }
{
    let mut weight = 0u64;
    for leaf in leaves {
        weight = weight.saturating_add(leaf_weight(weights, index, kinds, bound, leaf));
    }
    weight
}

/// The weight of a level, or 2^64 - 1 where it is greater.
fn level_weight(
    weights: &Weights,
    index: Option<&[u16]>,
    kinds: &[TypedUse],
    bound: &[u32],
    level: &Level,
) -> u64
    requires lists { length weights.now.functors ≡ length weights.now.values }
    requires index { IfSome index (λ places. IsIndexOf weights.now.functors places.now) }
    ensures { result ≡ min (plains.level_weight weights.now kinds.now bound.now level.now) (2 ^ 64 - 1) }
{
    let walls = (level.membranes.len() as u64).saturating_mul(weights.membrane);
    let mut weight = leaves_weight(
        weights,
        index,
        kinds,
        bound,
        level.leaves.as_slice(),
    ).saturating_add(walls);
    for inner in level.membranes.as_slice() {
        weight = weight.saturating_add(level_weight(weights, index, kinds, bound, inner));
    }
    weight
}

/// 1 for a typed context with the name, and else 0.
fn one_if_use(name: u32, leaf: &Leaf) -> u64
    ensures { result ≡ plains.one_if_use name leaf.now }
{
    match leaf {
        Leaf::Atom { .. } => 0,
        Leaf::Typed { name: called, .. } => { if *called == name { 1 } else { 0 } }
    }
}

/// How often a typed context stands among leaves, or 2^64 - 1 where it does more often.
fn leaf_uses(name: u32, leaves: &[Leaf]) -> u64
    ensures { result ≡ min (sum (map (plains.one_if_use name) leaves.now)) (2 ^ 64 - 1) }
{
    let mut number = 0u64;
    for leaf in leaves {
        number = number.saturating_add(one_if_use(name, leaf));
    }
    number
}

/// How often a typed context stands in a level, or 2^64 - 1 where it does more often.
fn typed_uses(name: u32, level: &Level) -> u64
    ensures { result ≡ min (plains.typed_uses name level.now) (2 ^ 64 - 1) }
{
    let mut number = leaf_uses(name, level.leaves.as_slice());
    for inner in level.membranes.as_slice() {
        number = number.saturating_add(typed_uses(name, inner));
    }
    number
}

/// Whether a typed context of the head is `int`, or stands at most once in the body.
fn stands_once(body: &Level, typed: TypedUse) -> bool
    ensures { result ≡ plains.stands_once body.now typed }
{
    is_int_kind(typed.kind) || typed_uses(typed.name, body) <= 1
}

/// Whether each of them is or does.
fn all_stand_once(body: &Level, kinds: &[TypedUse]) -> bool
    ensures { result ≡ list_all (plains.stands_once body.now) kinds.now }
{
    for typed in kinds {
        if !stands_once(body, *typed) {
            return false;
        }
    }
    true
}

/// 1 for a closed context with the name, and else 0.
fn one_if_closed(name: u32, context: CtxUse) -> u64
    ensures { result ≡ plains.one_if_closed name context }
{
    if context.closed && context.name == name {
        1
    } else {
        0
    }
}

/// How often a closed context stands among contexts, or 2^64 - 1 where it does more often.
fn own_closed_uses(name: u32, contexts: &[CtxUse]) -> u64
    ensures { result ≡ min (sum (map (plains.one_if_closed name) contexts.now)) (2 ^ 64 - 1) }
{
    let mut number = 0u64;
    for context in contexts {
        number = number.saturating_add(one_if_closed(name, *context));
    }
    number
}

/// How often a closed context stands in a level, or 2^64 - 1 where it does more often.
fn closed_uses(name: u32, level: &Level) -> u64
    ensures { result ≡ min (plains.closed_uses name level.now) (2 ^ 64 - 1) }
{
    let mut number = own_closed_uses(name, level.contexts.as_slice());
    for inner in level.membranes.as_slice() {
        number = number.saturating_add(closed_uses(name, inner));
    }
    number
}

/// Whether an untyped context of the head is open, or stands at most once in the body.
fn closed_once(body: &Level, context: CtxUse) -> bool
    ensures { result ≡ plains.closed_once body.now context }
{
    if context.closed {
        closed_uses(context.name, body) <= 1
    } else {
        true
    }
}

/// Whether each of them is or does.
fn own_closed_once(body: &Level, contexts: &[CtxUse]) -> bool
    ensures { result ≡ list_all (plains.closed_once body.now) contexts.now }
{
    for context in contexts {
        if !closed_once(body, *context) {
            return false;
        }
    }
    true
}

/// Whether each untyped context of a level of the head, at every depth, is open, or stands at most once in the body.
fn all_closed_once(body: &Level, level: &Level) -> bool
    ensures { result ≡ list_all (plains.closed_once body.now) (contexts_of level.now) }
{
    if !own_closed_once(body, level.contexts.as_slice()) {
        return false;
    }
    for inner in level.membranes.as_slice() {
        if !all_closed_once(body, inner) {
            return false;
        }
    }
    true
}

/// Whether a rule is lowered.
fn is_lowered(weights: &Weights, index: Option<&[u16]>, rule: &RuleTree, plan: &GuardPlan) -> bool
    requires lists { length weights.now.functors ≡ length weights.now.values }
    requires index { IfSome index (λ places. IsIndexOf weights.now.functors places.now) }
    requires head { plains.level_weight weights.now plan.now.kinds plan.now.bound rule.now.head < 2 ^ 64 }
    requires body { plains.level_weight weights.now plan.now.kinds plan.now.bound rule.now.body < 2 ^ 64 }
    ensures { result ≡ plains.is_lowered weights.now rule.now plan.now }
{
    let kinds = plan.kinds.as_slice();
    let bound = plan.bound.as_slice();
    level_weight(weights, index, kinds, bound, &rule.body)
        < level_weight(weights, index, kinds, bound, &rule.head)
        && all_stand_once(&rule.body, kinds)
        && all_closed_once(&rule.body, &rule.head)
}

/// The places of an index, where it is whole.
fn places_of(index: &Index, is_whole: bool) -> Option<&[u16]>
    ensures { (functors : List Functor) → (IsTrue is_whole → IsIndexOf functors index.now.items) → IfSome result (λ places. IsIndexOf functors places.now) }
{
    if is_whole {
        Some(index.as_slice())
    } else {
        None
    }
}

/// How many rules are asked: all of the table, those in rules too.
fn asked(plain: &Plain) -> usize
    ensures { result ≡ length plain.now.rules }
{
    plain.rules.len()
}

/// The weight of the process of a plain, where every rule is lowered, those in rules too. It takes no memory.
///
/// # Errors
///
/// The refusal by `E86` at the place of the first rule that isn't lowered.
pub fn bound(weights: &Weights, plain: &Plain, plans: &[GuardPlan]) -> Result<u64, Refusal>
    requires lists { length weights.now.functors ≡ length weights.now.values }
    requires plans { length plans.now ≡ length plain.now.rules }
    requires small { AreSmall weights.now }
    requires size { IsOfSize plain.now }
    ensures ok { IfOk result (λ n. EachLowered weights.now plain.now plans.now × (n ≡ plains.level_weight weights.now [] [] plain.now.top)) }
    ensures err { IfErr result (λ refusal. IsFirstNotLowered weights.now plain.now plans.now refusal) }
{
    let mut index = ArrayVec::new();
    let is_whole = fill(&mut index, weights.functors.as_slice());
    let places = places_of(&index, is_whole);
    for k in 0..asked(plain) {
        let rule = plain.rules.at(k);
        if !is_lowered(weights, places, rule, &plans[k]) {
            return Err(RefusalCode::RuleNotLowered.at(rule.pos));
        }
    }
    Ok(level_weight(weights, places, &[], &[], &plain.top))
}
