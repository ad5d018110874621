//! The instructions of compiled rules, what the code of a head means, which code a head has, and the listing of code.
//!
//! The definitions stand in `specs/`.
#![tactic(auto)]

mod instr;
mod labels;
pub mod laws;
mod listing;
mod opcode;
mod words;

pub use instr::{AtomPort, Code, Instr, NewPort};
pub use listing::{add_line, list};
pub use opcode::{Form, Kind, Opcode};
pub use words::{Operand, Operands, operands_of};
