//! Laws of runs of codes, and small examples: each the contract of a function that at most names other laws.
ghost use Rattle.lmn_verify_coded.specs.Examples.{IdleCodeCommits, IdleCodeKeepsAwake, IdleCodeSucceeds, NoCodesAreExecuted, NoCodesCanTurn, NoCodesStopAtOnce, NoRuleIsAsked, RunExamples};
ghost use Rattle.lmn_verify_coded.specs.Laws.{HeapsRunAsSolids, SolidRunsAreOne, TablesRunAsRules};

use lmn_adequacy_choices::{
    marks_are_not_read, nothing_embeds, spares_are_not_read, turns_are_alike, turns_are_of_chooser,
};
use lmn_print::heaps_have_one_line;
use lmn_verify_laws::commits_stay_unmarked;
use lmn_verify_listing::laws::verified_examples;
use lmn_verify_solids::heaps_are_graphs;
use lmn_verify_turns::{choices_are_one, one_next, successes_are_some, turns_are_choices};

/// What is executed of the codes of a table of rules, from a heap that holds a solid, is a run of the rules in which the root is
/// asked first.
pub fn tables_run_as_rules()
    ensures { TablesRunAsRules }
{
    nothing_embeds();
    turns_are_alike();
    turns_are_of_chooser();
    spares_are_not_read();
    marks_are_not_read();
    heaps_have_one_line();
}

/// What is executed of verified codes over a heap is a run from the solid of the heap on, which stopped for the same reason, with the
/// same text.
pub fn heaps_run_as_solids()
    ensures { HeapsRunAsSolids }
{
    turns_are_choices();
    successes_are_some();
    commits_stay_unmarked();
    heaps_have_one_line();
}

/// Two runs of verified codes from one solid that came to their ends have one count of commits, one end and one last solid.
pub fn solid_runs_are_one()
    ensures { SolidRunsAreOne }
{
    one_next();
    choices_are_one();
}

/// What a turn asks, without codes: of the root alone, awake or asleep, and of the root with a rule.
pub fn no_codes_can_turn()
    ensures { NoCodesCanTurn }
{}

/// Where code that changes nothing succeeds, a turn asks that the root is awake.
pub fn idle_code_keeps_awake()
    ensures { IdleCodeKeepsAwake }
{}

/// Code that changes nothing commits where an item is allowed, and without codes nothing does.
pub fn idle_code_commits()
    ensures { IdleCodeCommits }
{}

/// It succeeds, and without codes nothing does.
pub fn idle_code_succeeds()
    ensures { IdleCodeSucceeds }
{}

/// Over the root alone no rule is asked.
pub fn no_rule_is_asked()
    ensures { NoRuleIsAsked }
{}

/// A run without codes ends since no code succeeds.
pub fn no_codes_are_executed()
    ensures { NoCodesAreExecuted }
{}

/// By solids such a run stops at once, and not since its budget is done.
pub fn no_codes_stop_at_once()
    ensures { NoCodesStopAtOnce }
{
    heaps_are_graphs();
}

/// What runs of solids ask of heaps, codes and ends: ones that are so, and ones that aren't.
pub fn run_examples()
    ensures { RunExamples }
{
    verified_examples();
}
