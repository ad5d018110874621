//! What is found ahead in a trace that is read line by line.
ghost use Rattle.std.specs.Prelude.{◌≡◌, ◌<◌, ◌≤◌, ◌++◌, ℕ, List, None, IfErr, IfOk, IfSome, IsErrOf, length, take};
ghost use Rattle.lmn_congruence.specs.Regions.{Region};
ghost use Rattle.lmn_receipt_chain.specs.Chains.{Continues, line_of_solid};
ghost use Rattle.lmn_receipt_chain.specs.Faults.{IfTraceRefused};
ghost use Rattle.lmn_receipt_chain.specs.Laws.{IsAcceptedSolid};
ghost use Rattle.lmn_receipt_chain.specs.OneFeed.{HasOneFeed};
ghost use Rattle.lmn_receipt_chain.specs.Steps.{BeginsWith, IsStep};

use crate::next::NextSolids;
use crate::trace_fault::TraceFault;
use crate::walk::{Step, take_step};
use lmn_base::{NoMemory, Solid};
use lmn_io::FetchFault;
use lmn_receipt_reading::TraceLines;
use std::alloc::Global;

/// The length of the line of a solid, where the trace goes on with it.
pub(crate) fn line_ahead<N: NextSolids, T: TraceLines>(
    alloc: Global,
    solids: &N,
    solid: &Solid,
    lines: &T,
) -> Result<Option<usize>, NoMemory>
    requires fits { N.fits solids.now solid.now }
    requires feeds { T.cuts → HasOneFeed (N.region solids.now solid.now) }
    requires ready { T.is_ready lines.now }
    ensures window { IfOk result (λ found. IfSome found (BeginsWith (N.region solids.now solid.now) (T.window lines.now))) }
    ensures none { IfOk result (λ found. found ≡ None → (rest : List ℕ) × T.is_rest lines.now rest × ((more : List ℕ) → ¬ (rest ≡ line_of_solid (N.region solids.now solid.now) ++ more))) }
{
    solids.front(alloc, solid, lines.ahead())
}

/// What is found behind the line of a solid, which was met last, so many commits done.
pub(crate) fn step_ahead<N: NextSolids, T: TraceLines>(
    alloc: Global,
    solids: &N,
    solid: &Solid,
    lines: &T,
    commits: u64,
) -> Result<Step, NoMemory>
    requires fits { N.fits solids.now solid.now }
    requires sound { IsAcceptedSolid (N.region solids.now solid.now) }
    requires own { T.last lines.now ≡ line_of_solid (N.region solids.now solid.now) }
    requires feeds { T.cuts → (S' : Region) → Continues (N.region solids.now solid.now) S' → HasOneFeed S' }
    requires ready { T.is_ready lines.now }
    ensures window { IfOk result (IsStep (N.region solids.now) (N.fits solids.now) (N.region solids.now solid.now) (T.window lines.now) commits) }
    ensures rest { IfOk result (λ step. (rest : List ℕ) × T.is_rest lines.now rest × IsStep (N.region solids.now) (N.fits solids.now) (N.region solids.now solid.now) rest commits step) }
{
    take_step(alloc, solids, solid, lines.met(), lines.ahead(), commits)
}

/// Goes behind a line.
pub(crate) fn meet<T: TraceLines>(
    alloc: Global,
    lines: &mut T,
    len: usize,
) -> Result<(), TraceFault>
    requires ready { T.is_ready lines.old }
    requires len { (0 < len) × (len ≤ length (T.window lines.old)) }
    ensures reads { T.reads lines.old lines.new }
    ensures failed { IsErrOf result TraceFault.Failed → T.fails lines.old lines.new }
    ensures untold { IfErr result (λ fault. IfTraceRefused fault (λ _. ⊥)) }
    ensures ready { IfOk result (λ _. T.is_ready lines.new) }
    ensures last { IfOk result (λ _. T.last lines.new ≡ take len (T.window lines.old)) }
    ensures rest { IfOk result (λ _. (rest : List ℕ) → T.is_rest lines.new rest → T.is_rest lines.old (take len (T.window lines.old) ++ rest)) }
    ensures left { IfOk result (λ _. T.left lines.new < T.left lines.old) }
{
    match lines.meet(alloc, len) {
        Ok(()) => Ok(()),
        Err(FetchFault::Failed) => Err(TraceFault::Failed),
        Err(FetchFault::NoMemory) => Err(TraceFault::NoMemory),
    }
}
