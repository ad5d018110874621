ghost use Rattle.std.specs.Prelude.{◌≡◌, ◌-◌, ◌^◌, min, map, flat_map};
ghost use Rattle.lmn_base.specs.declared.level.Level.{out-Level};
ghost use Rattle.lmn_base.specs.Firsts.{IsFound};
ghost use Rattle.lmn_base.specs.Items.{used, untyped_form, untyped, leaf_item, own_items, items_of, expression_items, condition_items, guard_items, rule_items, number_of_items};

use lmn_base::{
    Cond, CtxUse, Expr, Form, FormedUse, Found, Item, Leaf, Level, Question, RuleTree, leaf_item,
};

/// What a question finds in a level, at every depth.
pub fn find<Q: Question>(question: &Q, level: &Level) -> Found
    ensures { IsFound (flat_map (Q.places question.now) (items_of level.now)) result }
{
    let mut found = find_in_level_itself(question, level);
    for inner in level.membranes.as_slice() {
        found = found.and(find(question, inner));
    }
    found
}

/// What a question finds in a level itself, and not in its membranes.
pub fn find_in_level_itself<Q: Question>(question: &Q, level: &Level) -> Found
    ensures { IsFound (flat_map (Q.places question.now) (own_items (out-Level level.now))) result }
{
    let rules = in_rules(question, level.rules.as_slice());
    let rule_contexts = in_rule_contexts(question, level.rule_contexts.as_slice());
    let contexts = in_untyped(question, level.contexts.as_slice());
    let leaves = in_leaves(question, level.leaves.as_slice());
    leaves.and(contexts.and(rule_contexts.and(rules)))
}

/// What a question finds in a rule, its guard included.
pub fn find_in_rule<Q: Question>(question: &Q, rule: &RuleTree) -> Found
    ensures { IsFound (flat_map (Q.places question.now) (rule_items rule.now)) result }
{
    find(question, &rule.head).and(find_in_guard(question, rule.guard.as_slice()).and(find(
        question, &rule.body,
    )))
}

/// What a question finds in a guard.
pub fn find_in_guard<Q: Question>(question: &Q, guard: &[Cond]) -> Found
    ensures { IsFound (flat_map (Q.places question.now) (guard_items guard.now)) result }
{
    let mut found = Found::nothing();
    for condition in guard {
        found = found.and(find_in_condition(question, condition));
    }
    found
}

/// What a question finds in a condition.
pub fn find_in_condition<Q: Question>(question: &Q, condition: &Cond) -> Found
    ensures { IsFound (flat_map (Q.places question.now) (condition_items condition.now)) result }
{
    match condition {
        Cond::Kind { args, .. } => in_contexts(question, Form::Typed, args.as_slice()),
        Cond::Compare { left, right, .. } => {
            find_in_expression(question, left).and(find_in_expression(question, right))
        }
        Cond::Equal { left, right, .. } => {
            at_context(question, Form::Typed, *left).and(find_in_expression(question, right))
        }
        Cond::Differ { left, right, .. } => at_context(question, Form::Typed, *left).and(at_context(
            question,
            Form::Typed,
            *right,
        )),
    }
}

/// What a question finds in an expression.
pub fn find_in_expression<Q: Question>(question: &Q, expression: &Expr) -> Found
    ensures { IsFound (flat_map (Q.places question.now) (expression_items expression.now)) result }
{
    match expression {
        Expr::Int(_) => Found::nothing(),
        Expr::Ctx(context) => at_context(question, Form::Typed, *context),
        Expr::Op { left, right, .. } => {
            find_in_expression(question, left).and(find_in_expression(question, right))
        }
    }
}

fn in_leaves<Q: Question>(question: &Q, leaves: &[Leaf]) -> Found
    ensures { IsFound (flat_map (Q.places question.now) (map leaf_item leaves.now)) result }
{
    let mut found = Found::nothing();
    for leaf in leaves {
        found = found.and(Found::one(question.place(leaf_item(leaf))));
    }
    found
}

fn in_untyped<Q: Question>(question: &Q, contexts: &[CtxUse]) -> Found
    ensures { IsFound (flat_map (Q.places question.now) (map untyped contexts.now)) result }
{
    let mut found = Found::nothing();
    for context in contexts {
        found = found.and(at_context(question, untyped_form(context.closed), *context));
    }
    found
}

/// The form of an untyped context.
fn untyped_form(closed: bool) -> Form
    ensures { result ≡ untyped_form closed }
{
    if closed { Form::Closed } else { Form::Bare }
}

fn in_contexts<Q: Question>(question: &Q, form: Form, contexts: &[CtxUse]) -> Found
    ensures { IsFound (flat_map (Q.places question.now) (map (used form) contexts.now)) result }
{
    let mut found = Found::nothing();
    for context in contexts {
        found = found.and(at_context(question, form, *context));
    }
    found
}

fn at_context<Q: Question>(question: &Q, form: Form, context: CtxUse) -> Found
    ensures { IsFound (Q.places question.now (used form context)) result }
{
    let CtxUse { name, pos, .. } = context;
    Found::one(question.place(Item::Context(FormedUse { name, form, pos })))
}

fn in_rule_contexts<Q: Question>(question: &Q, contexts: &[CtxUse]) -> Found
    ensures { IsFound (flat_map (Q.places question.now) (map Item.RuleContext contexts.now)) result }
{
    let mut found = Found::nothing();
    for context in contexts {
        found = found.and(Found::one(question.place(Item::RuleContext(*context))));
    }
    found
}

fn in_rules<Q: Question>(question: &Q, rules: &[u32]) -> Found
    ensures { IsFound (flat_map (Q.places question.now) (map Item.Rule rules.now)) result }
{
    let mut found = Found::nothing();
    for rule in rules {
        found = found.and(Found::one(question.place(Item::Rule(*rule))));
    }
    found
}

/// The number of items of a level at every depth, its membranes too, or 2^64 - 1 where there are more.
pub fn number_of_items(level: &Level) -> u64
    ensures { result ≡ min (number_of_items level.now) (2 ^ 64 - 1) }
{
    let mut number = (level.leaves.len() as u64)
        .saturating_add(level.membranes.len() as u64)
        .saturating_add(level.contexts.len() as u64)
        .saturating_add(level.rule_contexts.len() as u64)
        .saturating_add(level.rules.len() as u64);
    for inner in level.membranes.as_slice() {
        number = number.saturating_add(number_of_items(inner));
    }
    number
}
