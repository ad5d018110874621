//! The strategy on a heap: the rule that is chosen, and a turn.
#![tactic(auto)]

mod examples;
mod ready;
mod strategy;
mod turning;

pub use examples::{
    asked_by_marks, asleep_by_mark, awake_are_asked, marks_are_low, nothing_is_turned,
    sleepers_are_passed,
};
pub use ready::{bodies_are_ready, commits_sleep_rightly, tables_are_quiet, tables_are_runnable};
pub use strategy::{Choice, membranes, search};
pub use turning::{Turn, take_turn};
