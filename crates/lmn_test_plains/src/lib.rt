//! Tests alone: plains of texts, rows, names and levels, and what is let go of any depth.
#![tactic(auto)]

#[cfg(test)]
mod pieces;
#[cfg(test)]
mod plains;
