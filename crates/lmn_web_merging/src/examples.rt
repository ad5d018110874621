//! What is seen of a small web. Each law is the contract of a function with an empty body.
ghost use Rattle.lmn_web_merging.specs.Examples.{AllHasMoved, KeptIsSeen, LenderIsEmpty, LenderIsSeen, NothingHasMoved, OtherKeeps, OwnIsKept, RetiredIsNotSeen};

/// A cell keeps the lists of a membrane to which it is joined.
#[tactic(auto, using(crate::proofs::ExampleProofs::other_keeps))]
pub fn other_keeps()
    ensures { OtherKeeps }
{}

/// A membrane that isn't joined keeps its own.
#[tactic(auto, using(crate::proofs::ExampleProofs::own_is_kept))]
pub fn own_is_kept()
    ensures { OwnIsKept }
{}

/// What is kept for a membrane is seen in it.
#[tactic(auto, using(crate::proofs::ExampleProofs::kept_is_seen))]
pub fn kept_is_seen()
    ensures { KeptIsSeen }
{}

/// It isn't seen in the one whose cell keeps it.
#[tactic(auto, using(crate::proofs::ExampleProofs::lender_is_empty))]
pub fn lender_is_empty()
    ensures { LenderIsEmpty }
{}

/// That one is seen.
#[tactic(auto, using(crate::proofs::ExampleProofs::lender_is_seen))]
pub fn lender_is_seen()
    ensures { LenderIsSeen }
{}

/// One that retired isn't.
#[tactic(auto, using(crate::proofs::ExampleProofs::retired_is_not_seen))]
pub fn retired_is_not_seen()
    ensures { RetiredIsNotSeen }
{}

/// What stood in one membrane went to another.
#[tactic(auto, using(crate::proofs::ExampleProofs::all_has_moved))]
pub fn all_has_moved()
    ensures { AllHasMoved }
{}

/// Where nothing changed it didn't.
#[tactic(auto, using(crate::proofs::ExampleProofs::nothing_has_moved))]
pub fn nothing_has_moved()
    ensures { NothingHasMoved }
{}
