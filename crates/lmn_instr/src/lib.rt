//! The instructions of compiled rules: what they are, their listing, and functors read as listings have them.
#![tactic(auto)]

pub use lmn_instr_code::{AtomPort, Code, Instr, NewPort, list};
pub use lmn_instr_reading::read_functor;
