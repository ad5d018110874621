//! Rows of words, many of them side by side in one block of memory, that are used again.
#![tactic(auto)]

pub mod examples;
pub mod pointers;
mod rows;
pub mod store;
