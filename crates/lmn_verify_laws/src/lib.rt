//! Laws of verified code: that it can be run, whatever rule it is of, and leaves a valid heap.
#![tactic(auto)]

ghost use Rattle.lmn_verify_laws.specs.FlatExamples.{FlatExamples};
ghost use Rattle.lmn_verify_laws.specs.Laws.{CommitsStayUnmarked, IntegersAreOne, RestsBack, RestsThere, VerifiedAreQuiet, VerifiedAreRunnable, VerifiedCopiesClosed, VerifiedFires, VerifiedHeadsLie, VerifiedHoldsRests, VerifiedIsFlat, VerifiedIsInOrder, VerifiedIsQuiet, VerifiedIsRule, VerifiedIsRunnable, VerifiedSetsFlat};

use lmn_machine_commit::bodies_can_be_committed;
use lmn_machine_laws::bodies_cost_what_is_told;

/// Verified code sets each register before it reads it: the machine can run its head, its body can be prepared behind the head,
/// and the rules that it loads are of the table.
pub fn verified_is_in_order()
    ensures { VerifiedIsInOrder }
{}

/// Where the head of verified code succeeds in a valid heap, the flat head of the code lies there.
pub fn verified_heads_lie()
    ensures { VerifiedHeadsLie }
{}

/// Where the head of verified code first succeeds in a valid heap, no link leaves a rest that the body copies, and registers that
/// hold the rests of its membranes hold what its flat head leaves.
pub fn verified_rests()
    ensures closed { VerifiedCopiesClosed }
    ensures held { VerifiedHoldsRests }
{}

/// The flat head and body of verified code are a rule: each link stands twice, and each item stands where it may.
pub fn verified_is_rule()
    ensures { VerifiedIsRule }
{}

/// Verified code takes out what that flat head holds, makes what the flat body makes, and ties each end of a link of the rule.
pub fn verified_is_flat()
    ensures { VerifiedIsFlat }
{}

/// Verified code can be run by turns, whatever rule it is of; so codes that are verified with their number are such as turns
/// are over.
pub fn verified_is_runnable()
    ensures one { VerifiedIsRunnable }
    ensures all { VerifiedAreRunnable }
{
    bodies_can_be_committed();
    bodies_cost_what_is_told();
}

/// Verified code that is committed where its head first succeeds fires its flat rule: the links, the functors and the lists of each
/// membrane are those of the firing, and the heap is valid.
pub fn verified_fires()
    ensures { VerifiedFires }
{}

/// A membrane in which verified code has failed may sleep until something in it or below it is touched, as where the code is that of a
/// rule: all that the head looks at stands there or is joined to what does.
pub fn verified_is_quiet()
    ensures one { VerifiedIsQuiet }
    ensures all { VerifiedAreQuiet }
{}

/// Where code is committed on a heap of which each mark of an atom is 0, each mark of an atom is 0.
pub fn commits_stay_unmarked()
    ensures { CommitsStayUnmarked }
{}

/// The head of verified code sets a register for each item of its flat head, and each integer that its flat body names.
pub fn verified_sets_flat()
    ensures { VerifiedSetsFlat }
{}

/// Where head code succeeds with registers that hold the same parts, they hold the same integers.
pub fn integers_are_one()
    ensures { IntegersAreOne }
{}

/// The flat rules of small codes: with UNIFY, a membrane that is counted, one whose rest is moved, and typed contexts.
pub fn flat_examples()
    ensures { FlatExamples }
{}

/// Registers that hold what a head leaves in the graph of a heap hold the rests of the heap.
pub fn rests_are_held()
    ensures { RestsBack }
{}

/// Registers that hold the rests of a heap hold what the head of verified code leaves in its graph.
pub fn rests_are_left()
    ensures { RestsThere }
{}
