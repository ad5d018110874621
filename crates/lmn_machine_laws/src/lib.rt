//! The machine can run the code of the head of each accepted rule, and what a commit costs. Laws alone.
#![tactic(auto)]

ghost use Rattle.lmn_machine_laws.specs.AcceptedCode.{AcceptedInOrder, AcceptedSetsItems};
ghost use Rattle.lmn_machine_laws.specs.Laws.{CostIsTold, BodyCostIsTold};

use lmn_compile_body::accepted_bodies;
use lmn_compile_head::{accepted_heads, accepted_least};

/// The machine can run the code of the head of each accepted rule.
pub fn accepted_in_order()
    ensures { AcceptedInOrder }
{
    accepted_heads();
}

/// The code of the head of each accepted rule sets a register for each atom, membrane and typed context of the head.
pub fn accepted_sets_items()
    ensures { AcceptedSetsItems }
{
    accepted_heads();
}

/// Where the head of a flat rule lies in a valid heap, one number is told by what the instructions of the body's code add and
/// take, and a run of that code leaves so many items beside the root. No rule tree has a part in it, and no guard.
pub fn bodies_cost_what_is_told()
    ensures { BodyCostIsTold }
{}

/// Where the head code of an accepted rule first succeeds in a valid heap, one number is told by what the instructions of its
/// body add and take. When the body code runs with the same registers, the heap after it has so many items beside the root.
pub fn commits_cost_what_is_told()
    ensures { CostIsTold }
{
    accepted_least();
    accepted_bodies();
}
