//! Laws: what plain search finds is the next solid.
//!
//! The definitions stand in `specs/`. A law is the contract of a function that at most names other laws, so it does nothing when it
//! runs.
#![tactic(auto)]

ghost use Rattle.lmn_solid_next.specs.Laws.{FirstIsChosen, LeastImagesLie, NoneHasEmbedding};
ghost use Rattle.lmn_solid_next.specs.Settling.{FiringsSettle, FlatsHaveRules, SpelledLevelsSettle};

mod examples;
mod firing;

pub use examples::{
    integer_of_no_name, no_integers_are_told, no_links_are_no_match, no_rule_fires,
    no_rule_is_asked, no_rules_can_be_searched, nothing_is_by, nothing_is_searched,
    one_link_is_one, other_rule_may_not_fire, plan_of_no_rule, rule_of_no_plain,
};
pub use firing::{asked_rules_fire, matches_are_of_embeddings, searched_rules_may_fire};
use lmn_adequacy_heaps::{least_embeddings_are_alike, rules_embed_alike};
use lmn_adequacy_turns::bound_names_have_values;
use lmn_compile_head::{accepted_heads, accepted_least};
use lmn_solid_firing::{firings_are_spelled, settled_solids_keep};

/// The least images of a rule are an embedding of the calculus at the least numbers, with its contents, its rest, and the integers
/// that the guard binds.
pub fn least_images_lie()
    ensures { LeastImagesLie }
{
    accepted_heads();
    accepted_least();
    bound_names_have_values();
    rules_embed_alike();
    least_embeddings_are_alike();
}

/// What is found first, in the order in which membranes and rules are asked, is what the strategy of the calculus chooses.
pub fn first_is_chosen()
    ensures { FirstIsChosen }
{
    least_images_lie();
    rules_embed_alike();
}

/// Where no rule of a membrane is found to embed, nothing embeds.
pub fn none_has_embedding()
    ensures { NoneHasEmbedding }
{
    rules_embed_alike();
}

/// A raw region that spells a closed level of the calculus can be settled, and what it is settled to is the solid of the level.
pub fn spelled_levels_settle()
    ensures { SpelledLevelsSettle }
{}

/// What a firing makes by a match can be settled, and what it is settled to is the solid of the level after this firing.
pub fn firings_settle()
    ensures { FiringsSettle }
{
    firings_are_spelled();
    settled_solids_keep();
    spelled_levels_settle();
}

/// The rules in the membranes of a solid's tables are rules of the solid.
pub fn flats_have_rules()
    ensures { FlatsHaveRules }
{}
