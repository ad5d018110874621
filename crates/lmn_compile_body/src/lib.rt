//! The code of the body of a rule.
#![tactic(auto)]

ghost use Rattle.lmn_compile_body.specs.Accepted.{AcceptedBodies, AcceptedNested};

mod bodies;
mod ends;
mod integers;
mod levels;
mod makes;
mod names;
mod ports;

pub use bodies::{body, code_of_body};
pub use levels::flatten_body;
use lmn_compile_head::accepted_heads;

/// There is room for the code of the body of each accepted rule, and the laws of firing hold of it.
pub fn accepted_bodies()
    ensures room { AcceptedBodies }
    ensures nested { AcceptedNested }
{
    accepted_heads();
}
