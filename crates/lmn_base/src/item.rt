ghost use Rattle.std.specs.Prelude.{◌≡◌};
ghost use Rattle.lmn_base.specs.Items.{leaf_item};

use crate::functor::Functor;
use crate::level::{CtxUse, Leaf};
use crate::refusal::Pos;

/// How a context is written.
#[derive(Clone, Copy)]
pub enum Form {
    /// Alone, as `$p`.
    Bare,
    /// With empty brackets, as `$p[]`.
    Closed,
    /// As an argument, with its link, as `$x[X]`, or in a guard.
    Typed,
}

/// One use of a context, with its form.
#[derive(Clone, Copy)]
pub struct FormedUse {
    /// The number of its name.
    pub name: u32,
    /// How it is written.
    pub form: Form,
    /// Its place in the text.
    pub pos: Pos,
}

/// What stands in a rule, but for its membranes.
#[derive(Clone, Copy)]
pub enum Item {
    /// An atom, a connector too.
    Atom {
        /// Its label and arity.
        functor: Functor,
        /// Its place in the text.
        pos: Pos,
    },
    /// A use of a context.
    Context(FormedUse),
    /// A use of a rule context.
    RuleContext(CtxUse),
    /// A rule, by its number.
    Rule(u32),
}

/// The item of a leaf.
pub fn leaf_item(leaf: &Leaf) -> Item
    ensures { result ≡ leaf_item leaf.now }
{
    match leaf {
        Leaf::Atom { functor, pos, .. } => Item::Atom {
            functor: *functor,
            pos: *pos,
        },
        Leaf::Typed { name, pos, .. } => Item::Context(FormedUse {
            name: *name,
            form: Form::Typed,
            pos: *pos,
        }),
    }
}
