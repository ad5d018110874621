//! Laws of the code of accepted rules.
ghost use Rattle.lmn_schedule_strategy.specs.Quieting.{CommitsSleepRightly, TablesAreQuiet};
ghost use Rattle.lmn_schedule_strategy.specs.Turns.{BodiesAreReady, TablesAreRunnable};

use lmn_compile_body::accepted_bodies;
use lmn_compile_head::{accepted_heads, accepted_least};
use lmn_machine_commit::{bodies_are_in_order, bodies_can_be_committed, rules_wake_touched};
use lmn_machine_laws::{accepted_in_order, accepted_sets_items, commits_cost_what_is_told};
use lmn_schedule_sleep::quiet_stays_matchless;

/// After the head of an accepted rule has set its registers, the body can be prepared, and what is read to tell its cost
/// is set.
pub fn bodies_are_ready()
    ensures { BodiesAreReady }
{
    accepted_heads();
    accepted_sets_items();
    accepted_bodies();
    bodies_are_in_order();
}

/// The codes of a table of accepted rules can be run by turns.
pub fn tables_are_runnable()
    ensures { TablesAreRunnable }
{
    accepted_in_order();
    accepted_sets_items();
    bodies_are_ready();
    bodies_can_be_committed();
    accepted_bodies();
    accepted_least();
    commits_cost_what_is_told();
}

/// A membrane may sleep in which no rule of such a table has a match, until it is touched.
pub fn tables_are_quiet()
    ensures { TablesAreQuiet }
{
    accepted_sets_items();
    accepted_bodies();
    accepted_heads();
    accepted_least();
    quiet_stays_matchless();
    rules_wake_touched();
}

/// After a commit no membrane is asleep in which the code of a rule succeeds, where so it was before.
pub fn commits_sleep_rightly()
    ensures { CommitsSleepRightly }
{}
