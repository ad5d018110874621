//! The code of all rules of a plain.
#![tactic(auto)]

mod compiling;

pub use compiling::stored;
