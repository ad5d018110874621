//! What can be searched, asked and matched, and what can't: each the contract of an empty function.
ghost use Rattle.lmn_solid_next.specs.Examples.{IntegerOfNoName, NoIntegersAreTold, NoLinksAreNoMatch, NoRuleFires, NoRuleIsAsked, NoRulesCanBeSearched, NothingIsBy, NothingIsSearched, OneLinkIsOne, OtherRuleMayNotFire, PlanOfNoRule, RuleOfNoPlain};

/// A well made plain without rules can be searched.
pub fn no_rules_can_be_searched()
    ensures { NoRulesCanBeSearched }
{}

/// Not with a plan of a rule.
pub fn plan_of_no_rule()
    ensures { PlanOfNoRule }
{}

/// A solid in which nothing stands is one of a plain without rules.
pub fn nothing_is_by()
    ensures { NothingIsBy }
{}

/// One with a rule isn't.
pub fn rule_of_no_plain()
    ensures { RuleOfNoPlain }
{}

/// So it is the next solid after no firing.
pub fn no_rule_fires()
    ensures { NoRuleFires }
{}

/// The tables of a solid in which nothing stands are searched.
pub fn nothing_is_searched()
    ensures { NothingIsSearched }
{}

/// No rule is asked where a plain has none.
pub fn no_rule_is_asked()
    ensures { NoRuleIsAsked }
{}

/// Where a membrane has a rule that the plain hasn't, no rule may fire.
pub fn other_rule_may_not_fire()
    ensures { OtherRuleMayNotFire }
{}

/// Without items and conditions no name has an integer.
pub fn no_integers_are_told()
    ensures { NoIntegersAreTold }
{}

/// A name that stands for nothing has none.
pub fn integer_of_no_name()
    ensures { IntegerOfNoName }
{}

/// A match whose number isn't above those of links is none of an embedding.
pub fn no_links_are_no_match()
    ensures { NoLinksAreNoMatch }
{}

/// A rule can't fire where one link of its head is two of the solid.
pub fn one_link_is_one()
    ensures { OneLinkIsOne }
{}
