//! The top call: what the program does with the words of its command line.
#![tactic(auto)]

mod bounding;
mod checking;
mod debugging;
mod executing;
pub mod laws;
mod pairing;
mod top;

pub use lmn_app_drive::{RunEnd, RunOptions, drive};
pub use lmn_app_single::Ending;
pub use lmn_app_words::in_form;
pub use top::lmn_main;
