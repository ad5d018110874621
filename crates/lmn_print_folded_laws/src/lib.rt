//! Folded lines read as what was printed, up to the order of atoms and the numbers of links.
#![tactic(auto)]

pub mod laws;
pub mod same_laws;
