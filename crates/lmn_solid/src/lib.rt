//! The next solid, by plain search over lists.
#![tactic(auto)]

pub use lmn_receipt_search::next_of;
