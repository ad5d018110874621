//! What it means that the head of a rule lies in a heap, and which of its places is the least.
//!
//! The definitions stand in `specs/`. The head of a rule is one flat list of items here, in their order.
#![tactic(auto)]

pub mod examples;
mod integers;
mod items;

pub use integers::integer_with;
pub use items::HeadItem;
