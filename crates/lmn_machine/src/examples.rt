//! What the machine asks and answers, by examples.
ghost use Rattle.lmn_machine.specs.Examples.{CopiesAreNotMatched, EmptyBodyFires, EmptyBodyIsMatched, EmptyHeadIsFound, EmptyHeadIsThere, OtherAtomIsPassed, SameAtomIsNotPassed};

/// An empty head is found in a membrane.
#[tactic(auto, using(crate::proofs::EmptyExamples::empty_head_is_found))]
pub fn empty_head_is_found()
    ensures { EmptyHeadIsFound }
{}

/// It can't be told of it that there is none.
pub fn empty_head_is_there()
    ensures { EmptyHeadIsThere }
{}

/// An empty body can be run where a membrane alone is set.
#[tactic(auto, using(crate::proofs::EmptyExamples::empty_body_is_matched))]
pub fn empty_body_is_matched()
    ensures { EmptyBodyIsMatched }
{}

/// It can't be run where a copy is set that no body has made.
#[tactic(auto, using(crate::proofs::EmptyExamples::copies_are_not_matched))]
pub fn copies_are_not_matched()
    ensures { CopiesAreNotMatched }
{}

/// An empty body that was prepared changes nothing in a membrane that is awake.
#[tactic(auto, using(crate::proofs::EmptyExamples::empty_body_fires))]
pub fn empty_body_fires()
    ensures { EmptyBodyFires }
{}

/// Where code tells two atoms apart that differ it needn't be run.
#[tactic(auto, using(crate::proofs::EmptyExamples::other_atom_is_passed))]
pub fn other_atom_is_passed()
    ensures { OtherAtomIsPassed }
{}

/// Where they are one it has to be run, and it tells an atom apart from no other one than it names.
#[tactic(auto, using(crate::proofs::EmptyExamples::same_atom_is_not_passed))]
pub fn same_atom_is_not_passed()
    ensures { SameAtomIsNotPassed }
{}
