//! Reads functors, numbers and integers that are written exactly as listings write them, and lines with the small numbers in
//! them.
//!
//! The definitions stand in `specs/Reading`.
#![tactic(auto)]

pub mod laws;
mod lines_reading;
mod reading;

pub use lines_reading::{last_space, next_feed, number_written};
pub use reading::{is_decimal, read_functor, read_integer, read_number};
