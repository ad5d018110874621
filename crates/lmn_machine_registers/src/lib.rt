//! The registers of the machine that runs the code of rules.
#![tactic(auto)]

mod registers;
mod stack;

pub use registers::{PartCopy, SetRegisters};
pub use stack::{ROOM, Stack};
