//! Whether a code is verified.
#![tactic(auto)]

mod apart;
mod bodies;
mod emptied;
mod found;
mod heads;
mod ports;
mod registers;
mod tables;
mod verifying;

pub use found::{FoundAtom, FoundMembrane, FoundPart, RegisterCounts};
pub use heads::{is_commit, is_proceed};
pub use verifying::is_verified;
