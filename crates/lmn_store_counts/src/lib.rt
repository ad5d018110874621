//! Rules of membranes with their spares, and the counts that every store keeps: of atoms, of membranes with their rules, and of spares.
#![tactic(auto)]

mod bound;
mod rules;

pub use bound::BOUND;
pub use rules::Rules;
