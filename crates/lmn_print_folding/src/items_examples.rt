//! Own marks of the atoms of two small heaps.
ghost use Rattle.lmn_print_folding.specs.MarkedExamples.{
  ChildIsNoFirstItem,
  LaterItemIsMarked,
  TermIsMarked,
  TermIsNoLaterItem,
  TermIsNotBeforeItsItem,
};
ghost use Rattle.lmn_print_folding.specs.ToldExamples.{ItemIsTold, OneMembraneIsNotEnough};

/// In `a(X), b(X)` the first atom is an item, and the other descends from it.
#[tactic(auto, using(crate::proofs::MarkedExampleProofs::term_is_marked))]
pub fn term_is_marked()
    ensures { TermIsMarked }
{}

/// The other is a child, so it isn't among the first items.
#[tactic(auto, using(crate::proofs::MarkedExampleProofs::child_is_no_first_item))]
pub fn child_is_no_first_item()
    ensures { ChildIsNoFirstItem }
{}

/// It descends from an item, so it is no later item.
#[tactic(auto, using(crate::proofs::MarkedExampleProofs::term_is_no_later_item))]
pub fn term_is_no_later_item()
    ensures { TermIsNoLaterItem }
{}

/// In `c(X,Y), d(Y,X)` each atom is a child of the other, and the first one is the item.
#[tactic(auto, using(crate::proofs::MarkedExampleProofs::later_item_is_marked))]
pub fn later_item_is_marked()
    ensures { LaterItemIsMarked }
{}

/// The other isn't.
#[tactic(auto, using(crate::proofs::MarkedExampleProofs::term_is_not_before_its_item))]
pub fn term_is_not_before_its_item()
    ensures { TermIsNotBeforeItsItem }
{}

/// In `{a(X)}, b(X)` both atoms are items, and `{a(L0)}` is told.
#[tactic(auto, using(crate::proofs::ToldExampleProofs::item_is_told))]
pub fn item_is_told()
    ensures { ItemIsTold }
{}

/// The marks of the membrane alone don't tell it.
#[tactic(auto, using(crate::proofs::ToldExampleProofs::one_membrane_is_not_enough))]
pub fn one_membrane_is_not_enough()
    ensures { OneMembraneIsNotEnough }
{}
