//! Reads listings of the codes of rules, exactly as they are written.
//!
//! The definitions stand in `specs/`.
#![tactic(auto)]

mod building;
pub mod laws;
mod line;
mod listing;
mod operand;

pub use building::build;
pub use line::read_line;
pub use listing::read;
