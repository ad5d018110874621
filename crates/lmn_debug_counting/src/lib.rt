//! A store that keeps the number of atoms with a functor while they come and go.
#![tactic(auto)]

mod counting;
mod counting_store;
pub mod examples;
mod tally;

pub use counting_store::CountingStore;
