//! What is read of a text: its plain with the plans of its rules, or its refusal.
#![tactic(auto)]

pub mod laws;
mod reading;

pub use reading::{Accepted, read};
