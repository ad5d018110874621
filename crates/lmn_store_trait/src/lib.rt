//! Stores of atoms in membranes: the calls that every store has.
#![tactic(auto)]

mod examples;
mod sleep;
mod store;

pub use examples::{both_sleep, inner_is_next};
pub use sleep::{ASLEEP, AWAKE};
pub use store::LinkStore;
