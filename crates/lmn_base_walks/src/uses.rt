ghost use Rattle.std.specs.Prelude.{◌≡◌};
ghost use Rattle.std.specs.List.{list_any};
ghost use Rattle.lmn_base.specs.Items.{items_of, expression_items, condition_items};
ghost use Rattle.lmn_base_walks.specs.RuleCodes.{is_left_of};
ghost use Rattle.lmn_base.specs.Uses.{has_use};

use crate::walk::{find, find_in_condition, find_in_expression};
use lmn_base::{Cond, Expr, Found, Item, Level, Pos, Question};

/// Asks for the uses of a context with a name.
#[derive(Clone, Copy)]
struct UseOf {
    name: u32,
}

impl Question for UseOf {
    ghost use Rattle.lmn_base.specs.Uses.{use_of};

    ghost places = { λ q. use_of q.name };

    fn place(&self, item: Item) -> Option<Pos> {
        match item {
            Item::Atom { .. } => None,
            Item::Context(context) => {
                if context.name == self.name {
                    Some(context.pos)
                } else {
                    None
                }
            }
            Item::RuleContext(_) => None,
            Item::Rule(_) => None,
        }
    }
}

/// Whether a context with a name is used in a level, at any depth.
pub fn is_used(name: u32, level: &Level) -> bool
    ensures { result ≡ has_use name (items_of level.now) }
{
    find(&UseOf { name }, level).is_somewhere()
}

/// Whether a context with a name is used in a condition.
pub fn is_used_in_condition(name: u32, condition: &Cond) -> bool
    ensures { result ≡ has_use name (condition_items condition.now) }
{
    find_in_condition(&UseOf { name }, condition).is_somewhere()
}

/// Whether a context with a name is used in an expression.
pub fn is_used_in_expression(name: u32, expression: &Expr) -> bool
    ensures { result ≡ has_use name (expression_items expression.now) }
{
    find_in_expression(&UseOf { name }, expression).is_somewhere()
}

/// Whether a name is the left side of a condition `=`.
pub fn is_left(conditions: &[Cond], name: u32) -> bool
    ensures { result ≡ list_any (is_left_of name) conditions.now }
{
    for condition in conditions {
        if is_left_of(condition, name) {
            return true;
        }
    }
    false
}

fn is_left_of(condition: &Cond, name: u32) -> bool
    ensures { result ≡ is_left_of name condition.now }
{
    match condition {
        Cond::Kind { .. } => false,
        Cond::Compare { .. } => false,
        Cond::Equal { left, .. } => left.name == name,
        Cond::Differ { .. } => false,
    }
}
