//! Laws of the code of bodies.
ghost use Rattle.lmn_machine_commit.specs.Examples.{CopiesAreNotReady, EmptyBodyIsReady, LostAtomsAreNotReady, TakingIsRare};
ghost use Rattle.lmn_machine_commit.specs.Matched.{BodiesCanBeCommitted};
ghost use Rattle.lmn_machine_commit.specs.Orders.{BodiesAreInOrder};
ghost use Rattle.lmn_machine_commit.specs.Touching.{RulesWakeTouched};

/// The code of the body of a rule meets the condition of `prepare` on its registers.
#[tactic(auto, using(crate::proofs::Ordering::bodies_are_in_order))]
pub fn bodies_are_in_order()
    ensures { BodiesAreInOrder }
{}

/// The code of the body of a rule can be committed wherever its head lies.
pub fn bodies_can_be_committed()
    ensures { BodiesCanBeCommitted }
{}

/// The code of the body of a rule that is committed wakes what the rule touches, and nothing else.
pub fn rules_wake_touched()
    ensures { RulesWakeTouched }
{}

/// An empty body can be prepared where a membrane alone is set.
#[tactic(auto, using(crate::proofs::EmptyExamples::empty_body_is_ready))]
pub fn empty_body_is_ready()
    ensures { EmptyBodyIsReady }
{}

/// It can't be prepared where a copy is set that no body has made.
#[tactic(auto, using(crate::proofs::EmptyExamples::copies_are_not_ready))]
pub fn copies_are_not_ready()
    ensures { CopiesAreNotReady }
{}

/// Nor where an atom is listed that isn't there.
#[tactic(auto, using(crate::proofs::EmptyExamples::lost_atoms_are_not_ready))]
pub fn lost_atoms_are_not_ready()
    ensures { LostAtomsAreNotReady }
{}

/// An instruction that takes a membrane is a rare one, and the one that ends code isn't.
#[tactic(auto, using(crate::proofs::EmptyExamples::taking_is_rare))]
pub fn taking_is_rare()
    ensures { TakingIsRare }
{}
