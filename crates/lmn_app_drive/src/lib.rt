//! Runs an engine, and writes its process and why it stopped.
#![tactic(auto)]

mod driving;
mod laws;

pub use driving::{RunEnd, RunOptions, drive, write_end};
pub use laws::{
    answers_are_exact, awake_may_be_asked, folded_run_is_written, full_run_is_written,
    inputs_have_sizes, sleepers_are_not_asked, texts_are_one,
};
