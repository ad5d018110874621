//! Runs the code of rules on any store of atoms in membranes.
#![tactic(auto)]

mod ahead;
mod alone;
mod checks;
mod choices;
mod cost;
mod counting;
mod enough;
mod examples;
mod finding;
mod hanging;
mod integers;
mod jump;
mod machine;
mod others;
mod parts;
mod patience;
mod reasons;
mod rests;
mod search;
mod steps;
mod whole;

pub use counting::Steps;
pub use examples::{
    copies_are_not_matched, empty_body_fires, empty_body_is_matched, empty_head_is_found,
    empty_head_is_there, other_atom_is_passed, same_atom_is_not_passed,
};
pub use machine::Machine;
