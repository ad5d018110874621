//! What is known of rules that are asked, and of firings.
ghost use Rattle.lmn_receipt_search.specs.Turns.{AskedRules, BodiesAreCounted, FiringsAreNext};

use lmn_compile_head::accepted_heads;
use lmn_solid_firing::firings_are_spelled;
use lmn_solid_next::{
    first_is_chosen, flats_have_rules, least_images_lie, matches_are_of_embeddings,
    none_has_embedding, searched_rules_may_fire,
};
use lmn_solid_tables::flats_are_read;

/// What a rule that is asked meets.
pub(crate) fn asked_rules()
    ensures { AskedRules }
{
    accepted_heads();
    flats_have_rules();
}

/// The first firing, where membranes are asked from a number on, is the next one of the strategy from that number, and from each after
/// it that the same membrane is reached from without wrapping round.
pub(crate) fn firings_are_next()
    ensures { FiringsAreNext }
{
    first_is_chosen();
    none_has_embedding();
    flats_are_read();
    flats_have_rules();
    searched_rules_may_fire();
}

/// A rule that is asked and lies least fires, and leaves at least as many items as are counted of its body.
pub(crate) fn bodies_are_counted()
    ensures { BodiesAreCounted }
{
    searched_rules_may_fire();
    least_images_lie();
    matches_are_of_embeddings();
    firings_are_spelled();
}
