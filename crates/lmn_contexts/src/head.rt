ghost use Rattle.std.specs.Prelude.{◌≡◌, [], ◌∷◌, flat_map, option_map, slice_get};
ghost use Rattle.lmn_base.specs.declared.level.Level.{out-Level};
ghost use Rattle.lmn_base.specs.Firsts.{IsFirst, IsFound, AnswersBy};
ghost use Rattle.lmn_base_walks.specs.RuleCodes.{is_connector_label, is_bare, is_untyped, behind_the_first, seconds, seconds_by_membrane, first_with_some, head_rows};

use lmn_base::{
    CONNECTOR_NAME, CtxUse, Form, Found, Item, Label, Level, Pos, Question, Refusal, RefusalCode,
    RuleTree, first_refusal, refuse,
};
use lmn_base_walks::{find, find_in_level_itself};

/// Whether a head has only what may stand in one, and where it may stand.
pub(crate) fn check_head(table: &[RuleTree], rule: &RuleTree) -> Result<(), Refusal>
    ensures { AnswersBy (head_rows table.now rule.now) result }
{
    let head = &rule.head;
    let inner_rule = refuse(
        RefusalCode::RuleInHead,
        find(&InnerRule { table }, head).first,
    );
    let connector = refuse(RefusalCode::ConnectorInHead, find(&Connector, head).first);
    let context = refuse(
        RefusalCode::ContextOutsideHeadMembrane,
        find_in_level_itself(&UntypedContext, head).first,
    );
    let rule_context = refuse(
        RefusalCode::RuleContextOutsideHeadMembrane,
        find_in_level_itself(&AnyRuleContext, head).first,
    );
    let two = refuse(RefusalCode::TwoContextsInMembrane, two_in_membrane(head));
    first_refusal(
        inner_rule,
        first_refusal(
            connector,
            first_refusal(context, first_refusal(rule_context, two)),
        ),
    )
}

/// Asks for rules, at the places that a table gives them.
#[derive(Clone, Copy)]
struct InnerRule<'a> {
    table: &'a [RuleTree],
}

impl Question for InnerRule<'_> {
    ghost use Rattle.lmn_base_walks.specs.RuleCodes.{inner_rule};

    ghost places = { λ q. inner_rule q.table.now };

    fn place(&self, item: Item) -> Option<Pos> {
        match item {
            Item::Atom { .. } => None,
            Item::Context(_) => None,
            Item::RuleContext(_) => None,
            Item::Rule(number) => place_in(self.table, number),
        }
    }
}

/// The place of the rule with a number.
fn place_in(table: &[RuleTree], number: u32) -> Option<Pos>
    ensures { result ≡ option_map (λ r. r.pos) (slice_get table.now number) }
{
    match table.get(number as usize) {
        Some(rule) => Some(rule.pos),
        None => None,
    }
}

/// Asks for connectors.
#[derive(Clone, Copy)]
struct Connector;

impl Question for Connector {
    ghost use Rattle.lmn_base_walks.specs.RuleCodes.{connector_place};

    ghost places = { λ q. connector_place };

    fn place(&self, item: Item) -> Option<Pos> {
        match item {
            Item::Atom { functor, pos } => {
                let named = is_connector_label(functor.label);
                if named && functor.arity == 2 {
                    Some(pos)
                } else {
                    None
                }
            }
            Item::Context(_) => None,
            Item::RuleContext(_) => None,
            Item::Rule(_) => None,
        }
    }
}

fn is_connector_label(label: Label) -> bool
    ensures { result ≡ is_connector_label label }
{
    match label {
        Label::Name(number) => number == CONNECTOR_NAME,
        Label::Int(_) => false,
    }
}

/// Asks for untyped contexts.
#[derive(Clone, Copy)]
struct UntypedContext;

impl Question for UntypedContext {
    ghost use Rattle.lmn_base_walks.specs.RuleCodes.{untyped_place};

    ghost places = { λ q. untyped_place };

    fn place(&self, item: Item) -> Option<Pos> {
        match item {
            Item::Atom { .. } => None,
            Item::Context(context) => {
                if is_untyped(context.form) {
                    Some(context.pos)
                } else {
                    None
                }
            }
            Item::RuleContext(_) => None,
            Item::Rule(_) => None,
        }
    }
}

pub(crate) fn is_bare(form: Form) -> bool
    ensures { result ≡ is_bare form }
{
    match form {
        Form::Bare => true,
        Form::Closed | Form::Typed => false,
    }
}

fn is_untyped(form: Form) -> bool
    ensures { result ≡ is_untyped form }
{
    match form {
        Form::Bare | Form::Closed => true,
        Form::Typed => false,
    }
}

/// Asks for rule contexts.
#[derive(Clone, Copy)]
struct AnyRuleContext;

impl Question for AnyRuleContext {
    ghost use Rattle.lmn_base_walks.specs.RuleCodes.{rule_context_place};

    ghost places = { λ q. rule_context_place };

    fn place(&self, item: Item) -> Option<Pos> {
        match item {
            Item::Atom { .. } => None,
            Item::Context(_) => None,
            Item::RuleContext(context) => Some(context.pos),
            Item::Rule(_) => None,
        }
    }
}

/// The second of the first two untyped contexts, or rule contexts, of one membrane of a level.
fn two_in_membrane(level: &Level) -> Option<Pos>
    ensures { IsFirst (first_with_some (flat_map seconds_by_membrane (out-Level level.now).membranes)) result }
{
    for inner in level.membranes.as_slice() {
        let own = second_in(inner).first;
        let below = two_in_membrane(inner);
        if let Some(pos) = own.or(below) {
            return Some(pos);
        }
    }
    None
}

/// The second of two untyped contexts, or rule contexts, that stand in a level itself.
fn second_in(level: &Level) -> Found
    ensures { IsFound (seconds (out-Level level.now)) result }
{
    let contexts = behind_the_first(level.contexts.as_slice());
    let rule_contexts = behind_the_first(level.rule_contexts.as_slice());
    contexts.and(rule_contexts)
}

/// The uses but for the first.
fn behind_the_first(uses: &[CtxUse]) -> Found
    ensures { IsFound (behind_the_first uses.now) result }
{
    match uses {
        [] => Found::nothing(),
        [_, more @ ..] => places_of(more),
    }
}

fn places_of(uses: &[CtxUse]) -> Found
    ensures { IsFound (flat_map (λ u. u.pos ∷ []) uses.now) result }
{
    let mut found = Found::nothing();
    for context in uses {
        found = found.and(Found::one(Some(context.pos)));
    }
    found
}
