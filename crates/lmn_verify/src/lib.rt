//! Reads listings, decides whether codes are verified, and runs them.
#![tactic(auto)]

pub use lmn_verify_code::is_verified;
pub use lmn_verify_coded::Coded;
pub use lmn_verify_listing::read;
