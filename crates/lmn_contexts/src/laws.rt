//! Rules of small texts, and where the conditions on contexts refuse them.

ghost use Rattle.lmn_contexts.specs.Examples.{EmptyHead, RuleInHead, ConnectorInHead, ContextAtTop, RuleContextAtTop};
ghost use Rattle.lmn_contexts.specs.Examples.{TwoInMembrane, OuterPairFirst, TwiceInHead, TwiceInTwoForms, NotInBody};
ghost use Rattle.lmn_contexts.specs.Examples.{TwiceInBody, NotInHead, RuleContextNotInHead, InTwoForms, ClosedAtTop, ClosedCopied, OpenAndClosed};
ghost use Rattle.lmn_contexts.specs.Examples.{LargestHead, LargestBody, NothingOffends, ClosedStands};

/// What may not stand in a head, and at which place a small text offends by it.
pub fn heads_that_offend()
    ensures empty { EmptyHead }
    ensures rule { RuleInHead }
    ensures connector { ConnectorInHead }
    ensures context { ContextAtTop }
    ensures rule_context { RuleContextAtTop }
    ensures two { TwoInMembrane }
    ensures outer { OuterPairFirst }
    ensures twice { TwiceInHead }
{}

/// How a context may not be used, and at which place a small text offends by it.
pub fn uses_that_offend()
    ensures forms { TwiceInTwoForms }
    ensures missing { NotInBody }
    ensures again { TwiceInBody }
    ensures nowhere { NotInHead }
    ensures no_rules { RuleContextNotInHead }
    ensures two_forms { InTwoForms }
{}

/// The same of a closed context.
pub fn closed_uses_that_offend()
    ensures at_top { ClosedAtTop }
    ensures copied { ClosedCopied }
    ensures open_and_closed { OpenAndClosed }
{}

/// The largest head and body, and rules that may stand.
pub fn rules_within_limits()
    ensures head { LargestHead }
    ensures body { LargestBody }
    ensures whole { NothingOffends }
    ensures closed { ClosedStands }
{}
