//! Whether a trace is one of a program: the solid of its text, and chains of firings, checked over lists.
#![tactic(auto)]

pub use lmn_receipt_chain::{NextSolid, NextSolids, follow};
pub use lmn_receipt_search::{PlainSearch, check};
pub use lmn_solid_settle::solid_of;
