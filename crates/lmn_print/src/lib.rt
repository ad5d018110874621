//! The printer of what a store holds, in the folded form or in the plain one.
#![tactic(auto)]

mod clearing;
mod items;
mod laws;
mod numbers;
mod printing;
mod tree;

pub use laws::heaps_have_one_line;
pub use printing::print;
