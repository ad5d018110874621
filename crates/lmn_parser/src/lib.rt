//! The parser: the tree of a list of tokens, or the token at which they are refused.
#![tactic(auto)]

mod expression;
mod guard;
pub mod laws;
mod limits;
mod lookahead;
mod parsing;
mod reader;
mod stop;
mod tree;

pub use parsing::parse;
pub use tree::{AtomNode, Clause, CondNode, ExprNode, Item, RuleNode, Term, Tree};
