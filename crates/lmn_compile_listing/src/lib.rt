//! The code of all rules of a plain, and its listing.
#![tactic(auto)]

mod laws;
mod listing;

pub use laws::codes_have_names;
pub use listing::{compile_rules, list_codes};
