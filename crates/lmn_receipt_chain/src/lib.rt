//! Whether a trace is one of a program: chains of firings, checked over lists.
#![tactic(auto)]

mod ahead;
mod alike;
mod checking;
mod laws;
mod left_out;
mod lines;
mod next;
mod trace_fault;
mod walk;

pub use checking::{follow, follow_lines};
pub use laws::{
    chains_are_commits, chains_of_two, feeds_in_lines, found_beside_a_text, left_out_beside_a_text,
    lines_have_one_feed, membranes_are_chosen, no_trace_is_neither, small_chains,
    traces_are_chains, traces_are_one_of,
};
pub use next::{NextSolid, NextSolids};
pub use trace_fault::TraceFault;
