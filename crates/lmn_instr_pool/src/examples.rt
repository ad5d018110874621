//! What is told of a code, by examples.
ghost use Rattle.lmn_instr_pool.specs.Examples.{ActionsEnd, MakingBegins, RemovalsEnd};

/// In REMOVEATOM, PROCEED none takes something away from the place 1 on, and one does from 0 on.
#[tactic(auto, using(crate::proofs::ExampleCodes::removals_end))]
pub fn removals_end()
    ensures { RemovalsEnd }
{}

/// In PROCEED, NEWMEM nothing is made before the place 1, and something is before 2.
#[tactic(auto, using(crate::proofs::ExampleCodes::making_begins))]
pub fn making_begins()
    ensures { MakingBegins }
{}

/// In NORULES, COMMIT none does anything from the place 1 on, and one does from 0 on.
#[tactic(auto, using(crate::proofs::ExampleCodes::actions_end))]
pub fn actions_end()
    ensures { ActionsEnd }
{}
