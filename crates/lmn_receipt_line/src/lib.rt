//! The plain line of a solid over its lists, beside a text.
//!
//! What the lines are stands in `specs/SolidLines` of `lmn_flatten_plain`; of `specs/Walking` and `specs/Comparing` private functions speak.
#![tactic(auto)]

mod comparing;
mod comparison;
mod counting;
mod items;
mod walk;

pub use comparing::{front, hint};
pub use counting::membranes;
