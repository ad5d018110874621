//! Laws of turns of verified codes: what they do on a heap they do on its solid, and it is one.
#![tactic(auto)]

ghost use Rattle.lmn_verify_turns.specs.Examples.{AnswerExamples, FirstExamples};
ghost use Rattle.lmn_verify_turns.specs.Laws.{ChoicesAreOne, OneNext, SuccessesAreSome, TurnsAreChoices};

use lmn_print_plain::{heaps_have_solids, one_solid};
use lmn_verify_laws::{
    integers_are_one, rests_are_held, rests_are_left, verified_fires, verified_heads_lie,
    verified_is_flat, verified_is_in_order, verified_is_rule, verified_is_runnable, verified_rests,
    verified_sets_flat,
};
use lmn_verify_renaming::firings_are_renamed;
use lmn_verify_solids::{
    commits_are_firings, flat_rules_fire, graphs_have_heaps, heads_are_alike, heaps_are_graphs,
    taken_by_members, turn_examples,
};

/// What verified codes choose and commit on a heap, the root asked first, they choose and commit on its solid.
pub fn turns_are_choices()
    ensures { TurnsAreChoices }
{
    heaps_are_graphs();
    heads_are_alike();
    flat_rules_fire();
    verified_fires();
    verified_heads_lie();
    verified_is_flat();
    rests_are_left();
    heaps_have_solids();
}

/// Where some code succeeds on a heap, some code succeeds on its solid.
pub fn successes_are_some()
    ensures { SuccessesAreSome }
{
    heaps_are_graphs();
    heads_are_alike();
}

/// The next solid is one, whatever numbers its graphs have.
pub fn one_next()
    ensures { OneNext }
{
    heaps_are_graphs();
    graphs_have_heaps();
    heads_are_alike();
    commits_are_firings();
    taken_by_members();
    verified_heads_lie();
    verified_is_flat();
    verified_is_in_order();
    verified_is_rule();
    verified_rests();
    verified_sets_flat();
    integers_are_one();
    rests_are_held();
    rests_are_left();
    firings_are_renamed();
    one_solid();
}

/// What is chosen on a solid would leave one number of items, and nothing is chosen where no code succeeds.
pub fn choices_are_one()
    ensures { ChoicesAreOne }
{
    heaps_are_graphs();
    graphs_have_heaps();
    heads_are_alike();
    rests_are_held();
    verified_is_runnable();
}

/// No code succeeds without codes, and where a rule stands of which the code changes nothing, one does.
pub fn answer_examples()
    ensures { AnswerExamples }
{
    turn_examples();
}

/// The first of two successes, and the first of two codes that succeed.
pub fn first_examples()
    ensures { FirstExamples }
{}
