//! What a store of atoms in membranes holds, what each of its calls does to that, and the laws of both.
//!
//! The definitions stand in `specs/`, told in `docs/heap.md`. Each law is the contract of a function with an empty
//! body, so nothing here does anything when it runs.
#![tactic(auto)]

ghost use Rattle.lmn_store_heap.specs.Laws.{CallsKeepSound, FinishedIsValid, ItemsOfSolid, NoneInsideItself, OneTree};
ghost use Rattle.lmn_store_heap.specs.Examples.{AcrossHasItsSolid, AcrossIsValid, JoinedIsNotAlone, LooseIsNotValid, MadeIsAlone, PartnerIsNotReady, RootIsOutside};

/// Each call keeps what holds at every moment.
#[tactic(auto, using(crate::proofs::Calls::calls_keep_sound))]
pub fn calls_keep_sound()
    ensures { CallsKeepSound }
{}

/// Where nothing is detached, nothing in place needs what is taken, and the tree of the root has every membrane
/// that isn't taken, freeing what is taken leaves a valid heap.
#[tactic(auto, using(crate::proofs::Calls::finished_is_valid))]
pub fn finished_is_valid()
    ensures { FinishedIsValid }
{}

/// A heap has one tree of membranes.
#[tactic(auto, using(crate::proofs::Calls::one_tree))]
pub fn one_tree()
    ensures { OneTree }
{}

/// No membrane of a valid heap is inside itself.
pub fn none_inside_itself()
    ensures { NoneInsideItself }
{}

/// The items of a valid heap's membranes, the root counted, are one more than those of its solid.
#[tactic(auto, using(crate::proofs::Items::items_of_solid))]
pub fn items_of_solid()
    ensures { ItemsOfSolid }
{}

/// `{a(X)}, b(X)` is a valid heap.
#[tactic(auto, using(crate::proofs::ExampleProofs::across_is_valid))]
pub fn across_is_valid()
    ensures { AcrossIsValid }
{}

/// Its solid has the atom `b`, and `a` in a membrane, and one link.
#[tactic(auto, using(crate::proofs::ExampleProofs::across_has_its_solid))]
pub fn across_has_its_solid()
    ensures { AcrossHasItsSolid }
{}

/// A heap with a port without partner isn't.
#[tactic(auto, using(crate::proofs::ExampleProofs::loose_is_not_valid))]
pub fn loose_is_not_valid()
    ensures { LooseIsNotValid }
{}

/// What is detached may be freed while nothing else is joined to it, and isn't settled.
#[tactic(auto, using(crate::proofs::ExampleProofs::made_is_alone))]
pub fn made_is_alone()
    ensures { MadeIsAlone }
{}

/// A detached atom that is joined to one in place may not be discarded.
#[tactic(auto, using(crate::proofs::ExampleProofs::joined_is_not_alone))]
pub fn joined_is_not_alone()
    ensures { JoinedIsNotAlone }
{}

/// A taken atom that is joined to one in place may not be freed.
#[tactic(auto, using(crate::proofs::ExampleProofs::partner_is_not_ready))]
pub fn partner_is_not_ready()
    ensures { PartnerIsNotReady }
{}

/// The root is outside its membrane, which isn't outside the root.
#[tactic(auto, using(crate::proofs::ExampleProofs::root_is_outside))]
pub fn root_is_outside()
    ensures { RootIsOutside }
{}
