//! The laws of accepted rules.

ghost use Rattle.lmn_guards.specs.Accepted.{AcceptedExactly, AcceptedIsInOrder};
ghost use Rattle.lmn_guards.specs.Examples.{Unknown, WrongOperands, Unbound, BoundBefore, BoundOperands, Narrowest};

/// In an accepted rule contexts stand where they may.
pub fn accepted_rules_are_in_order()
    ensures { AcceptedIsInOrder }
{}

/// A rule is accepted exactly where it is linked, within the limits and in order, and its conditions may stand.
pub fn rules_are_accepted_exactly()
    ensures { AcceptedExactly }
{}

/// Conditions that may not stand, and at which place a small text offends by one.
pub fn conditions_that_offend()
    ensures unknown { Unknown }
    ensures operands { WrongOperands }
    ensures unbound { Unbound }
    ensures before { BoundBefore }
    ensures bound { BoundOperands }
    ensures types { Narrowest }
{}
