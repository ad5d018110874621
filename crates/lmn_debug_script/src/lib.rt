//! Reads the script of a debugger: one order a line.
//!
//! The definitions stand in `specs/`: `Scripts` what a script orders and which line is wrong, `Asked` what its orders ask, `Laws`
//! and `Examples` what holds of them. Each law is the contract of a function with an empty body.
#![tactic(auto)]

mod laws;
mod order;
mod reading;

pub use laws::{orders_are_once, scripts_are_decided, small_lines, small_scripts};
pub use order::Order;
pub use reading::read_script;
