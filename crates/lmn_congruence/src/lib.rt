//! Processes as terms, structural congruence as derivations, solids, and their laws.
//!
//! The definitions stand in `specs/`. Each law is the contract of a function with an empty body, so
//! nothing here does anything when it runs.
#![tactic(auto)]

ghost use Rattle.lmn_congruence.specs.Laws.{BothSidesLinked, SameFreeLinks, CongruentSolids};
ghost use Rattle.lmn_congruence.specs.Weights.{SameWeight};

pub mod translation;

/// Both sides of a congruence are linked: no link occurs more than twice in either.
#[tactic(auto, using(crate::proofs::LinkMaps::both_sides_linked))]
pub fn both_sides_are_linked()
    ensures { BothSidesLinked }
{}

/// Congruent processes have the same free links.
#[tactic(auto, using(crate::proofs::LinkMaps::same_free_links))]
pub fn free_links_are_kept()
    ensures { SameFreeLinks }
{}

/// Congruent processes have as many atoms of each label outside membranes, and as many membranes there: whatever these
/// weigh, they weigh the same.
#[tactic(auto, using(crate::proofs::KeptWeights::same_weight))]
pub fn weights_are_kept()
    ensures { SameWeight }
{}

/// Two solids have congruent processes exactly where they are the same up to the order of lists and the
/// numbers of links.
#[tactic(auto, using(crate::proofs::Solids::congruent_exactly_same))]
pub fn congruent_solids_are_the_same()
    ensures { CongruentSolids }
{}
