//! Runs of codes that can be run, be they those of rules or not.
#![tactic(auto)]

mod executing;
mod laws;
mod running;

pub use executing::execute;
pub use laws::{
    heaps_run_as_solids, idle_code_commits, idle_code_keeps_awake, idle_code_succeeds,
    no_codes_are_executed, no_codes_can_turn, no_codes_stop_at_once, no_rule_is_asked,
    run_examples, solid_runs_are_one, tables_run_as_rules,
};
pub use running::Coded;
