//! Weights of processes, rules that lower them, and what they bound.
//!
//! The definitions stand in `specs/`: `Weights`, `Lowered` and `Laws` of processes and rules as trees, `Plains` of the same as
//! they are read, `Lines` of the text that tells weights. Each law is the contract of a function with an empty body.
#![tactic(auto)]

ghost use Rattle.lmn_weight.specs.Laws.{CongruenceKeepsWeight, SettlingKeepsWeight, LoweredRulesLower, WeightBoundsCommits};
ghost use Rattle.lmn_weight.specs.LineExamples.{OneFewerDoesNot, OneMoreStandsBehind, OthersAreAlike, SomeHaveText, TheseAreNot, ThreeAreTold, WideHasNoText, WideIsWrong};
ghost use Rattle.lmn_weight.specs.OneReading.{AlikeForPlains, OneTelling, OneWrongLine, ToldNotWrong, ToldOrWrong};
ghost use Rattle.lmn_weight.specs.Examples.{NothingIsAccepted, UnplannedIsNot};
ghost use Rattle.lmn_weight.specs.Bounding.{LoweredPlains, RulesAreSmall, TopsAreSmall, WeightsBound};

mod bounding;
mod index;
mod reading;
mod told;
mod weights;

pub use bounding::bound;
pub use reading::read;
pub use told::Told;
pub use weights::Weights;

/// Congruence and settling keep the weight of a process.
#[tactic(auto, using(crate::proofs::KeptWeight::congruence_keeps, crate::proofs::KeptWeight::settling_keeps))]
pub fn weight_is_kept()
    ensures congruence { CongruenceKeepsWeight }
    ensures settling { SettlingKeepsWeight }
{}

/// Where a rule that is lowered fires, what it makes weighs less than what it takes.
#[tactic(auto, using(crate::proofs::FiredWeight::lowered_rules_lower))]
pub fn lowered_rules_lower()
    ensures { LoweredRulesLower }
{}

/// Where each rule is lowered, the weight of a process bounds every chain of commits from what it settles to.
#[tactic(auto, using(crate::proofs::Bounds::weight_bounds))]
pub fn weight_bounds_commits()
    ensures { WeightBoundsCommits }
{}

/// What a text tells of weights is alike by every list of names behind one list. A text that tells weights has no line that is
/// wrong, and one line at most is the first wrong one.
pub fn weights_are_read_once()
    ensures telling { OneTelling }
    ensures right { ToldNotWrong }
    ensures line { OneWrongLine }
{}

/// Each text tells weights, or a line of it is wrong.
#[tactic(auto, using(crate::proofs::SomeTelling::told_or_wrong))]
pub fn weights_are_told_or_wrong()
    ensures { ToldOrWrong }
{}

/// Weights that are alike for the names of a plain weigh it alike, and lower the same rules of it.
pub fn plains_weigh_alike()
    ensures { AlikeForPlains }
{}

/// A text of three lines tells weights, and one that names a functor of 300 links is wrong; which functors have a text.
pub fn some_lines_tell()
    ensures three { ThreeAreTold }
    ensures wide { WideIsWrong }
    ensures text { SomeHaveText }
    ensures no_text { WideHasNoText }
{}

/// A list of names that stands behind another, and one that doesn't; weights that are alike, and weights that aren't.
pub fn some_weights_are_alike()
    ensures behind { OneMoreStandsBehind }
    ensures not_behind { OneFewerDoesNot }
    ensures alike { OthersAreAlike }
    ensures apart { TheseAreNot }
{}

/// Each rule of the tree of a plain is lowered by one weighing, where those of its table are, and the weight of the plain is
/// that of its process.
#[tactic(auto, using(crate::proofs::Bounded::lowered_plains))]
pub fn plains_are_lowered()
    ensures { LoweredPlains }
{}

/// The weight of a plain whose rules are lowered bounds every chain of commits from its process.
#[tactic(auto, using(crate::proofs::Bounded::weights_bound))]
pub fn weights_bound_commits()
    ensures { WeightsBound }
{}

/// No more items of the top of a text weigh than it has bytes, and few of an accepted rule: what `bound` asks of sizes.
pub fn few_items_weigh()
    ensures tops { TopsAreSmall }
    ensures rules { RulesAreSmall }
{}

/// The plain of nothing is as an accepted text has it, and one whose rule has no plan isn't.
pub fn nothing_is_accepted()
    ensures some { NothingIsAccepted }
    ensures unplanned { UnplannedIsNot }
{}
