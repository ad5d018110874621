ghost use Rattle.lmn_base.specs.Firsts.{IsFirst};
ghost use Rattle.lmn_flatten_numbers.specs.Outside.{context_places};

use lmn_base::{Item, Level, Pos, Question};
use lmn_base_walks::find;

/// Asks for the contexts of every kind.
#[derive(Clone, Copy)]
struct IsContext;

impl Question for IsContext {
    ghost use Rattle.lmn_flatten_numbers.specs.Outside.{context_place};

    ghost places = { λ q. context_place };

    fn place(&self, item: Item) -> Option<Pos> {
        match item {
            Item::Atom { .. } => None,
            Item::Context(context) => Some(context.pos),
            Item::RuleContext(context) => Some(context.pos),
            Item::Rule(_) => None,
        }
    }
}

/// The first place in the text where a context, a typed context or a rule context stands in a level, at any depth, and
/// `None` where there is none. Of the process outside every rule it is where a context stands outside every
/// rule. It takes no memory.
pub fn first_outside(level: &Level) -> Option<Pos>
    ensures { IsFirst (context_places level.now) result }
{
    find(&IsContext, level).first
}
