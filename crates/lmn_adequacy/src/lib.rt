//! The calculus and the strategy agree: a step is possible exactly where a rule embeds, a firing is a commit, and the
//! strategy has one next solid as long as a step is possible.
//!
//! The definitions stand in `specs/`. Each law is the contract of a function with an empty body, so nothing here does
//! anything when it runs.
#![tactic(auto)]

ghost use Rattle.lmn_adequacy.specs.Laws.{StepsEmbed, EmbeddingsFire, FiringsCommit, StepsExactly, IrreducibleExactly, NothingLeft, NextIsOne, NextIsSolid, ChoiceIsOne, ChoiceIsExact, RenamedNext, NumberingExists, NumberedIsOne, NumbersInOrder, ImagesStand, SolidsOfPlainsExist, SolidOfPlainIsOne, TraceIsOne, EndIsOne, TraceCommits, TraceEnds, TraceStops};

pub mod examples;

/// Where a step is possible from a closed solid whose rules are accepted, some rule of some membrane embeds.
#[tactic(auto, using(crate::proofs::Results::steps_embed))]
pub fn steps_embed()
    ensures { StepsEmbed }
{}

/// A rule embeds at a list of positions exactly where there is a next solid for it.
#[tactic(auto, using(crate::proofs::Results::embeddings_fire))]
pub fn embeddings_fire()
    ensures { EmbeddingsFire }
{}

/// The firing of an embedded rule is a commit.
#[tactic(auto, using(crate::proofs::Results::firings_commit))]
pub fn firings_commit()
    ensures { FiringsCommit }
{}

/// A step is possible exactly where a rule embeds, and the process is irreducible exactly where none does.
#[tactic(auto, using(crate::proofs::Results::steps_exactly, crate::proofs::Results::irreducible_exactly))]
pub fn matching_is_exact()
    ensures steps { StepsExactly }
    ensures irreducible { IrreducibleExactly }
{}

/// The image of a head membrane without contexts holds images and typed parts alone.
#[tactic(auto, using(crate::proofs::Results::nothing_left))]
pub fn nothing_is_left()
    ensures { NothingLeft }
{}

/// For one rule and one list of positions the next solid, with every list in its order, is one up to the numbers of
/// links: all of its renamings are next solids, and nothing else is.
#[tactic(auto, using(crate::proofs::Results::one_next, crate::proofs::Results::renamed_next))]
pub fn next_is_one()
    ensures one { NextIsOne }
    ensures renamed { RenamedNext }
{}

/// The process of the next solid is closed, and all its rules are accepted where all were.
#[tactic(auto, using(crate::proofs::Results::next_is_solid))]
pub fn next_is_solid()
    ensures { NextIsSolid }
{}

/// The strategy has one next solid, up to the numbers of links.
#[tactic(auto, using(crate::proofs::Results::one_choice))]
pub fn choice_is_one()
    ensures { ChoiceIsOne }
{}

/// The strategy has a next solid exactly as long as a step is possible.
#[tactic(auto, using(crate::proofs::Results::exact_choice))]
pub fn choice_is_exact()
    ensures { ChoiceIsExact }
{}

/// Each solid has a renaming with its links numbered in printed order, and only one.
#[tactic(auto, using(crate::proofs::Results::numbering_exists, crate::proofs::Results::one_numbering))]
pub fn numbering_is_one()
    ensures exists { NumberingExists }
    ensures one { NumberedIsOne }
{}

/// The order of the numbers of embeddings is that of their positions, and at these positions stand the images.
#[tactic(auto, using(crate::proofs::Results::numbers_order, crate::proofs::Results::all_stand))]
pub fn numbers_are_positions()
    ensures order { NumbersInOrder }
    ensures stand { ImagesStand }
{}

/// Each closed plain that is well made has a solid, by the numbers of its names and rules, and one alone.
#[tactic(auto, using(crate::proofs::PlainSolids::solids_of_plains_exist, crate::proofs::PlainSolids::solid_of_plain_is_one))]
pub fn closed_plains_have_one_solid()
    ensures has { SolidsOfPlainsExist }
    ensures one { SolidOfPlainIsOne }
{}

/// For each chooser, budget and size the trace of a solid is one, and so is its end.
#[tactic(auto, using(crate::proofs::Runs::trace_is_one, crate::proofs::Runs::end_is_one))]
pub fn trace_is_one()
    ensures trace { TraceIsOne }
    ensures end { EndIsOne }
{}

/// A trace is a chain of commits from solid to solid. It ends irreducible, and has no further turn, exactly where the
/// process of its last solid is irreducible.
#[tactic(auto, using(crate::proofs::Runs::trace_commits, crate::proofs::Runs::trace_ends, crate::proofs::Runs::trace_stops))]
pub fn traces_are_exact()
    ensures commits { TraceCommits }
    ensures ends { TraceEnds }
    ensures stops { TraceStops }
{}
