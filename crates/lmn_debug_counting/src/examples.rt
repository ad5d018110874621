//! A small count: the contract of an empty function.
ghost use Rattle.lmn_debug_counting.specs.Examples.{CountsAtEachDepth};

/// Of two atoms, in the root and in a membrane there, both are counted, and in the root's list one.
pub fn counts_at_each_depth()
    ensures { CountsAtEachDepth }
{}
