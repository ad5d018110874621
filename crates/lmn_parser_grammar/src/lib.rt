//! The grammar of texts, and which token refuses a text.
//!
//! The definitions stand in `specs/`. Each law is the contract of a function with an empty body, so
//! nothing here does anything when it runs.
#![tactic(auto)]

ghost use Rattle.lmn_parser_grammar.specs.Examples.{WholeText, NoGuard, NoList, ContextsText, NotExpected, Brackets, Operators, Sides, Arguments, Contexts, LeftSide, BothLimits};
ghost use Rattle.lmn_parser_grammar.specs.Laws.{ArgumentsWithin, BracketsWithin, DerivedOrRefused, OneRefusedPlace, OperatorsWithin, RefusedDeriveNothing};

/// What ends with `End` derives a program within the limits, or is refused.
pub fn derived_or_refused()
    ensures { DerivedOrRefused }
{}

/// What is refused derives no program within the limits.
#[tactic(auto, using(crate::proofs::Refusals::refused_derive_nothing))]
pub fn refused_derive_nothing()
    ensures { RefusedDeriveNothing }
{}

/// A list of kinds is refused at one token and by one code at most.
pub fn refusals_are_one()
    ensures { OneRefusedPlace }
{}

/// Within the limits no more brackets are open, no side has more operators and no atom more arguments than there may be; of
/// arguments an atom that is a term has one fewer.
pub fn limits_are_kept()
    ensures brackets { BracketsWithin }
    ensures operators { OperatorsWithin }
    ensures arguments { ArgumentsWithin }
{}

/// Small texts: a program, and tokens that aren't expected.
pub fn program_examples()
    ensures whole { WholeText }
    ensures no_guard { NoGuard }
    ensures no_list { NoList }
    ensures not_expected { NotExpected }
    ensures contexts { ContextsText }
{}

/// Small texts: the last that is within a limit, and the first that isn't.
pub fn limit_examples()
    ensures brackets { Brackets }
    ensures operators { Operators }
    ensures sides { Sides }
    ensures arguments { Arguments }
    ensures contexts { Contexts }
    ensures left_side { LeftSide }
    ensures both_limits { BothLimits }
{}
