//! The end of a scope: the links of a process or of a rule get their numbers, by first occurrence in the order in which they
//! are printed.
//!
//! In `specs/` stands what a level with new numbers is, and what numbers and table have to be.
#![tactic(auto)]

mod laws;
mod numbering;
mod outside;
mod packed;
mod scope;
mod table;
mod tally;

pub use laws::levels_are_renamed;
pub use outside::first_outside;
pub use scope::{number_level, number_rule};
