//! The next solid by plain search over lists: no store, no machine and no code.
//!
//! What is asked of a plain and a solid stands in `specs/Searching` of `lmn_solid_next`; of this crate's own `specs` private functions speak.
#![tactic(auto)]

mod depths;
mod feeds;
mod laws;
mod next;
mod order;
mod plans;
mod rules;
mod searching;
mod sizes;
mod tables;
mod traces;

pub use next::{embeds, next_of};
pub use searching::PlainSearch;
pub use tables::SearchTables;
pub use traces::{check, check_lines};
