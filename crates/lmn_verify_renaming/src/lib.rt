//! Heaps of which the atoms and membranes have other numbers, and firings of one rule on them.
#![tactic(auto)]

ghost use Rattle.lmn_verify_renaming.specs.FiringExamples.{FlatRuleFires, MatchesCompare};
ghost use Rattle.lmn_verify_renaming.specs.FiringLaws.{FiringsAreRenamed};

pub mod laws;

/// A flat rule that fires at one match of two heaps that are one with other numbers leaves heaps that are so.
pub fn firings_are_renamed()
    ensures { FiringsAreRenamed }
{}

/// Registers hold one match where they hold its images with the other numbers, and not where they hold another atom.
pub fn matches_compare()
    ensures { MatchesCompare }
{}

/// A flat rule that replaces one atom by another fires on a heap of one atom, and doesn't leave it as it was.
pub fn flat_rule_fires()
    ensures { FlatRuleFires }
{}
