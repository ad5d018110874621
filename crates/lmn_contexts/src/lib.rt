//! The conditions on the contexts of a rule, and its limits.
#![tactic(auto)]

mod head;
mod laws;
mod rules;
mod size;
mod uses;

pub use laws::{closed_uses_that_offend, heads_that_offend, rules_within_limits, uses_that_offend};
pub use rules::check_rule;
