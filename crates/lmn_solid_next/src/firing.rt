//! The laws of a rule that is found to lie least, by the tables of a solid.
ghost use Rattle.lmn_solid_next.specs.Firing.{AskedRulesFire, MatchesAreOfEmbeddings, SearchedRulesMayFire};

use crate::{firings_settle, flats_have_rules, least_images_lie};
use lmn_compile_body::accepted_bodies;
use lmn_compile_head::accepted_heads;
use lmn_solid_firing::{heads_leave, parts_stand};
use lmn_solid_tables::flats_are_read;

/// Each rule of a plain that can be searched may fire in the tables of a solid.
pub fn searched_rules_may_fire()
    ensures { SearchedRulesMayFire }
{
    flats_are_read();
    flats_have_rules();
}

/// What is matched of the least images of a rule is a match of the embedding at these images.
pub fn matches_are_of_embeddings()
    ensures { MatchesAreOfEmbeddings }
{
    accepted_heads();
    accepted_bodies();
    heads_leave();
    parts_stand();
}

/// A rule that is asked, and lies least at what is found, can fire by what is matched of this: what is made can be settled, and what it is
/// settled to is the next solid.
pub fn asked_rules_fire()
    ensures { AskedRulesFire }
{
    searched_rules_may_fire();
    least_images_lie();
    matches_are_of_embeddings();
    firings_settle();
}
