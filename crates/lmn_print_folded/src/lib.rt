//! The folded form of a printed process.
#![tactic(auto)]

pub mod laws;
