//! Which membranes are awake, by examples.
ghost use Rattle.lmn_store_trait.specs.Examples.{BothSleep, InnerIsNext};

/// The next membrane that is awake isn't the one in the root while the root is awake.
#[tactic(auto, using(crate::proofs::AwakeExamples::inner_is_next))]
pub fn inner_is_next()
    ensures { InnerIsNext }
{}

/// Of two membranes that sleep none is awake.
#[tactic(auto, using(crate::proofs::AwakeExamples::both_sleep))]
pub fn both_sleep()
    ensures { BothSleep }
{}
