//! Settling: the solid of a process whose links connectors may still join.
//!
//! The definitions stand in `specs/Raw`.
#![tactic(auto)]

mod assembling;
mod numbers;
mod plains;
mod settling;

pub use plains::solid_of;
pub use settling::{RawMembrane, settle};
