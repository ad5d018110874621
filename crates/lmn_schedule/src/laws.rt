//! Laws of heaps that an engine can turn.
ghost use Rattle.lmn_schedule.specs.Counting.{AttemptsAreFew, CountsAreAlike, RulesAreCounted};
ghost use Rattle.lmn_schedule.specs.Held.{HeapsHoldSolids};
ghost use Rattle.lmn_schedule.specs.Sleeping.{SleepersDoNotEmbed};

use lmn_adequacy_choices::{heaps_are_numbered, nothing_embeds_there, rules_are_asked_alike};
use lmn_adequacy_heaps::heaps_are_named;
use lmn_adequacy_turns::plains_are_tables;

/// A heap that an engine can turn holds a solid, where the names of its atoms are known, whoever made it: also after the store
/// was lent. So `turn` and `reducible` say something of it.
pub fn heaps_hold_solids()
    ensures { HeapsHoldSolids }
{
    heaps_are_named();
    heaps_are_numbered();
    plains_are_tables();
}

/// The membranes of a heap have as many rules as the solid that it holds.
pub fn rules_are_counted()
    ensures { RulesAreCounted }
{}

/// What `turn` and `reducible` count is counted of the solid that the heap holds: the steps rise by the rules of its membranes that are
/// asked at most.
pub fn counts_are_alike()
    ensures { CountsAreAlike }
{
    rules_are_asked_alike();
}

/// What `turn` and `reducible` count of their calls of the matcher (`CountsAsked`) is at most the number of rules in membranes that are
/// awake.
pub fn attempts_are_few()
    ensures { AttemptsAreFew }
{}

/// No rule of a membrane that sleeps embeds in it.
pub fn sleepers_do_not_embed()
    ensures { SleepersDoNotEmbed }
{
    nothing_embeds_there();
}
