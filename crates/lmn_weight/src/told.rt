//! What the lines of WEIGHTS have told so far.

use lmn_base::{Functor, Rows};

/// What some lines tell, each thing once.
#[derive(Drop)]
pub struct Told {
    /// The functors that they name, in their order.
    pub functors: Rows<Functor>,
    /// The weight of each of them.
    pub values: Rows<u64>,
    /// The weight of an integer with one link, where a line names it.
    pub int: Option<u64>,
    /// The weight of a membrane, where a line names it.
    pub membrane: Option<u64>,
}
