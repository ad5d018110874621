//! A web of cells in which what stands in one membrane goes to another in as many steps as the one of the two has items that
//! has fewer.
#![tactic(auto)]

pub mod examples;
mod keeping;
mod merging;
mod moving;

pub use lmn_web::{Cell, CellKind};
pub use merging::MergingWeb;
