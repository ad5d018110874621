//! From what a search finds to the match that a firing takes, and what the firing makes of a solid.
//!
//! The law stands in `specs/Laws`, and `specs/Spelled` and `specs/Meant` have its words. `specs/Making` says what the table is.
#![tactic(auto)]

ghost use Rattle.lmn_solid_firing.specs.Laws.{FiringsAreSpelled, HeadsLeave, PartsStand, SettledSolidsKeep};

mod atoms;
mod body;
mod contexts;
mod examples;
mod firing;
mod images;
mod leaves;
mod match_;
mod matching;
mod membranes;
mod names;
mod numbers;
mod parts;
mod walk;
mod wires;
mod writing;

pub use examples::{across_is_matched, one_atom_is_a_part, one_wire_is_added};
pub use firing::fire;
pub use match_::{Match, Part};
pub use matching::matched;

/// Where a rule embeds, what is made of a match of the embedding is the table of a raw level of the calculus: the one after this firing.
pub fn firings_are_spelled()
    ensures { FiringsAreSpelled }
{}

/// What a match leaves of membranes is what is left of them without the atoms and membranes that it takes.
pub fn heads_leave()
    ensures { HeadsLeave }
{}

/// A ground part in the order of a walk stands for what it is in the calculus.
pub fn parts_stand()
    ensures { PartsStand }
{}

/// A solid to which a raw region is settled has its rules and its names.
pub fn settled_solids_keep()
    ensures { SettledSolidsKeep }
{}
