//! Reduction on terms: instances, guards, firing, steps, settling and commits, as derivations, and their laws.
//!
//! The definitions stand in `specs/`. Each law is the contract of a function with an empty body, so
//! nothing here does anything when it runs.
#![tactic(auto)]

ghost use Rattle.lmn_reduction.specs.Laws.{StepsAreLinked, SettlingStepsAreLinked, SettledWithoutConnectors, SolidsSettled, ClosedSettles, SettlesOnce, PlainHasSolid, SolidIsOne, PlainSettles, CongruentByOneMap, StepsShowRedexes, KeepsSettled, KeepsSettles, KeepsCommit, KeepsIrreducible, ValuesAgree};

pub mod examples;

/// Both sides of a step are linked, and so are both sides of a settling step.
#[tactic(auto, using(crate::proofs::SettlingSteps::steps_linked, crate::proofs::SettlingSteps::settling_steps_linked))]
pub fn steps_are_linked()
    ensures steps { StepsAreLinked }
    ensures settling { SettlingStepsAreLinked }
{}

/// A process without connectors is settled, also when it has free links. So the process of a solid is.
#[tactic(auto, using(crate::proofs::SettledProcesses::no_connector_settled, crate::proofs::Plains::solids_settled))]
pub fn settled_without_connectors()
    ensures plain { SettledWithoutConnectors }
    ensures solid { SolidsSettled }
{}

/// A closed process settles, and in one way up to congruence.
#[tactic(auto, using(crate::proofs::SettledForms::closed_settles, crate::proofs::SettledForms::settles_once))]
pub fn closed_settles_once()
    ensures settles { ClosedSettles }
    ensures once { SettlesOnce }
{}

/// A top whose process is closed has a solid, and one alone up to the numbers of links: another one has the
/// same lists in the same order, its links renamed one to one.
#[tactic(auto, using(crate::proofs::Plains::plain_has_solid, crate::proofs::OneSolid::solid_is_one))]
pub fn plain_has_one_solid()
    ensures has { PlainHasSolid }
    ensures one { SolidIsOne }
{}

/// The process of a plain's top settles to that of its solid.
#[tactic(auto, using(crate::proofs::Plains::plain_settles))]
pub fn plain_settles_to_its_solid()
    ensures { PlainSettles }
{}

/// A linked process is congruent to one without connectors exactly where one map of links reads it so. The
/// map leaves the free links, joins the two links of each connector, and keeps the number of links that
/// cross each membrane; with each link at its image and without connectors, the one process is the other up
/// to order.
#[tactic(auto, using(crate::proofs::SettledForms::congruent_by_one_map))]
pub fn congruent_by_one_map_of_links()
    ensures { CongruentByOneMap }
{}

/// Where a step is possible, some congruent process has a rule beside an instance of its head, at its top or
/// in one of its membranes, for one assignment for which the guard holds.
#[tactic(auto, using(crate::proofs::Redexes::step_shows))]
pub fn steps_show_redexes()
    ensures { StepsShowRedexes }
{}

/// Congruence keeps what is settled, what settles to what, what commits to what, and what is irreducible.
#[tactic(auto, using(crate::proofs::Kept::keeps_settled, crate::proofs::Kept::keeps_settles, crate::proofs::Kept::keeps_commit, crate::proofs::Kept::keeps_irreducible))]
pub fn congruence_keeps_reduction()
    ensures settled { KeepsSettled }
    ensures settles { KeepsSettles }
    ensures commit { KeepsCommit }
    ensures irreducible { KeepsIrreducible }
{}

/// The value of an expression of the program is that of its tree.
#[tactic(auto, using(crate::proofs::Values::values_agree))]
pub fn values_agree()
    ensures { ValuesAgree }
{}
