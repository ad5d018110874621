//! Cells, many of them side by side in one block of memory: ports that are joined two by two, and lists that are linked both ways.
#![tactic(auto)]

pub mod cell;
mod filling;
pub mod handle;
pub mod links;
pub mod lists;
pub mod numbers;
pub mod ports;
