//! The strategy by code, on a heap, and the strategy of the calculus: they choose the same, and go on alike.
//!
//! The definitions stand in `specs/`. Each law is the contract of a function that at most names other laws, so nothing here
//! does anything when it runs.
#![tactic(auto)]

ghost use Rattle.lmn_adequacy_choices.specs.Examples.{AcrossHasTwoPaths, AcrossIsReadWith};
ghost use Rattle.lmn_adequacy_choices.specs.Laws.{ChoicesAgree, ChoicesAlike, CostsAreItems, CostsAreTold, HeapsAreNumbered, MarksAreNotRead, MembranesAreNumberedAlike, NothingEmbeds, NothingEmbedsThere, RulesAreAskedAlike, SparesAreNotRead, TurnsAreAlike, TurnsAreOfChooser};

use lmn_adequacy::{
    embeddings_fire, firings_commit, matching_is_exact, next_is_one, numbering_is_one,
};
use lmn_adequacy_heaps::{least_embeddings_are_alike, rules_embed_alike};
use lmn_adequacy_turns::{turns_commit, turns_end_exactly};
use lmn_compile_body::accepted_bodies;
use lmn_compile_head::{accepted_heads, accepted_least, code_means_embedding};
use lmn_machine_laws::{accepted_sets_items, commits_cost_what_is_told};
use lmn_solid_bodies::{body_code_can_run, links_have_numbers};

/// The paths of the calculus and the membranes of a heap have the same numbers, so they are asked in the same order, and one
/// path leads to each membrane.
pub fn membranes_are_numbered_alike()
    ensures { MembranesAreNumberedAlike }
{}

/// No code of a rule succeeds in any membrane of a heap exactly where nothing embeds in its region, and exactly where its process
/// is irreducible.
pub fn nothing_embeds()
    ensures { NothingEmbeds }
{
    turns_end_exactly();
    matching_is_exact();
}

/// The first rule whose code succeeds, where membranes are asked from a number on, is the one that the strategy of the calculus
/// chooses, and the first success of its code is at the positions that it chooses.
pub fn choices_alike()
    ensures { ChoicesAlike }
{
    accepted_heads();
    code_means_embedding();
    rules_embed_alike();
    accepted_least();
    least_embeddings_are_alike();
    embeddings_fire();
    numbering_is_one();
    next_is_one();
}

/// Where the body code of this rule runs, it leaves a heap whose region is the next one of the
/// strategy, whose process comes by one commit, and with which the next turn can be made.
pub fn choices_agree()
    ensures { ChoicesAgree }
{
    accepted_heads();
    code_means_embedding();
    rules_embed_alike();
    accepted_least();
    accepted_bodies();
    accepted_sets_items();
    least_embeddings_are_alike();
    turns_commit();
    heaps_are_numbered();
    next_is_one();
    firings_commit();
}

/// The cost that is told of this rule's body code is the number of items of the region that its run leaves.
pub fn costs_are_items()
    ensures { CostsAreItems }
{
    accepted_least();
    accepted_bodies();
    accepted_sets_items();
    commits_cost_what_is_told();
}

/// Before anything runs, what is chosen has a next region with as many items as its cost tells.
pub fn costs_are_told()
    ensures { CostsAreTold }
{
    accepted_heads();
    accepted_least();
    accepted_bodies();
    accepted_sets_items();
    body_code_can_run();
    links_have_numbers();
    choices_agree();
    costs_are_items();
}

/// The links of a heap can have the numbers of printed order: it is read with these, and its region is renamed.
pub fn heaps_are_numbered()
    ensures { HeapsAreNumbered }
{
    numbering_is_one();
}

/// As many rules are asked by code, until one succeeds, as are asked in the region, until one embeds.
pub fn rules_are_asked_alike()
    ensures { RulesAreAskedAlike }
{
    accepted_heads();
    code_means_embedding();
    rules_embed_alike();
}

/// No rule embeds in a membrane of which no rule has a code that succeeds in it.
pub fn nothing_embeds_there()
    ensures { NothingEmbedsThere }
{
    accepted_heads();
    code_means_embedding();
    rules_embed_alike();
}

/// A heap that differs from another in its room for more rules alone, as one does where memory was wanting, is read alike.
pub fn spares_are_not_read()
    ensures { SparesAreNotRead }
{}

/// A heap that differs from another in the marks of its membranes alone is read alike.
pub fn marks_are_not_read()
    ensures { MarksAreNotRead }
{}

/// Where a chooser tells which membrane is asked first, a next region that is numbered comes by a turn of the strategy (`Turn`),
/// of which traces are made.
pub fn turns_are_of_chooser()
    ensures { TurnsAreOfChooser }
{}

/// A turn in one word: all but the last of these laws, for a heap and a number from which membranes are asked.
pub fn turns_are_alike()
    ensures { TurnsAreAlike }
{
    nothing_embeds();
    choices_alike();
    choices_agree();
    costs_are_items();
    costs_are_told();
}

/// A small heap with no rules, `{a(X)}, b(X)`, is read with the forest of its root for the table without a rule, and not with the
/// empty forest.
pub fn across_is_read_with()
    ensures { AcrossIsReadWith }
{}

/// It has two membranes, and two paths.
pub fn across_has_two_paths()
    ensures { AcrossHasTwoPaths }
{}
