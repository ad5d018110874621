//! Guards of rules: whether they may stand, the types of typed contexts, what is bound, and the values of expressions.
//!
//! In `specs/` stand the rows of the table of refusals that are asked of a guard, what an accepted rule is, and what that
//! means.
#![tactic(auto)]

mod analysis;
mod conditions;
mod evaluation;
mod laws;
mod plan;
mod typing;

pub use analysis::analyse;
pub use evaluation::eval;
pub use laws::{accepted_rules_are_in_order, conditions_that_offend};
pub use plan::{GuardPlan, TypeKind, TypedUse};
