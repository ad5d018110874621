//! The codes of all rules, in a store that shares what many of them have in common.
#![tactic(auto)]

mod body;
mod codes;
mod examples;
mod extent;
mod instrs;
mod pool;
mod view;

pub use body::Body;
pub use codes::Codes;
pub use examples::{actions_end, making_begins, removals_end};
pub use instrs::Instrs;
pub use view::CodeView;
