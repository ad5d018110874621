//! What every layer of the runtime speaks of: rules and processes as they are read, solids as they run, rows, names, places,
//! refusals, want of memory.
//!
//! In `specs/` stand what a well made rule and plain are, when a rule is linked, what a solid is, what a list
//! of names is, and the equality of parts of a process as rooted graphs.
#![tactic(auto)]

mod code;
mod functor;
mod guard;
mod item;
mod laws;
mod level;
pub mod limits;
mod memory;
mod names;
mod question;
mod refusal;
mod rows;
mod rule;
mod solid;

pub use code::{RefusalCode, words_of_number};
pub use functor::{CONNECTOR_NAME, Functor, GROUND_NAME, INT_NAME, Label, UNARY_NAME};
pub use guard::{Arith, Cmp, Cond, Expr};
pub use item::{Form, FormedUse, Item, leaf_item};
pub use laws::{codes_have_numbers, refusals_are_one};
pub use level::{CtxUse, Leaf, Level, Occ};
pub use memory::NoMemory;
pub use names::Names;
pub use question::{Found, Question};
pub use refusal::{Pos, Refusal, TextFault, first_refusal, refuse};
pub use rows::Rows;
pub use rule::{LinkUse, Plain, RuleTree};
pub use solid::{Region, Solid, SolidAtom};
