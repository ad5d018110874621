//! The words of the command line: their form, and what they ask for.
#![tactic(auto)]

mod command;
mod laws;
mod parsing;
mod reading;
mod setting;

pub use command::{Command, PairKind, PairWords, RunSettings, RunWords};
pub use laws::{asks_one, folded_run};
pub use reading::in_form;
