ghost use Rattle.std.specs.Prelude.{◌≡◌, ◌+◌, ℕ, List, IfOk, IsErrOf, MatchResult};
ghost use Rattle.lmn_base.specs.Codes.{code_number};
ghost use Rattle.lmn_base.specs.Refusals.{IfRefused};
ghost use Rattle.lmn_reduction.specs.Chains.{Chain};
ghost use Rattle.lmn_receipt_chain.specs.Chains.{IsChain, IsWrongTrace, at_line};
ghost use Rattle.lmn_receipt_chain.specs.Faults.{IfTraceRefused};
ghost use Rattle.lmn_receipt_chain.specs.Laws.{IsAcceptedSolid};
ghost use Rattle.lmn_receipt_chain.specs.OneFeed.{HaveOneFeed};

use crate::ahead::{line_ahead, meet, step_ahead};
use crate::next::NextSolids;
use crate::trace_fault::TraceFault;
use crate::walk::Step;
use lmn_base::{NoMemory, Pos, RefusalCode, Solid, TextFault};
use lmn_receipt_reading::{SliceLines, TraceLines};
use std::alloc::Global;
use std::mem;

/// Follows a trace from a solid on, whatever gives next solids: where it is a chain of firings, the number of its commits.
///
/// # Errors
///
/// A refusal by 61 where a line is that of no next solid, by 62 where the end is wrong, at the first line that is so. Want of
/// memory at any time.
pub fn follow<N: NextSolids>(
    alloc: Global,
    solids: &N,
    first: Solid,
    trace: &[u8],
) -> Result<u64, TextFault>
    requires fits { N.fits solids.now first }
    requires sound { IsAcceptedSolid (N.region solids.now first) }
    ensures { MatchResult result
        (IsChain (N.region solids.now first) trace.now)
        (λ fault. IfRefused fault (IsWrongTrace (N.region solids.now first) trace.now)) }
{
    let mut lines = SliceLines::new(trace);
    match follow_lines(alloc, solids, first, &mut lines) {
        Ok(commits) => Ok(commits),
        Err(fault) => Err(fault.of_text()),
    }
}

/// Follows a trace that is read line by line, as `follow` does, of which no more is at hand than the line that was met last and what is
/// ahead. Where less than all that is left may be ahead, each line of a solid ends at its first line feed.
///
/// # Errors
///
/// A refusal by 61 where a line is that of no next solid, by 62 where the end is wrong, at the first line that is so. `Failed` where a
/// part of the trace can't be read, and then nothing more is read. Want of memory at any time.
pub fn follow_lines<N: NextSolids, T: TraceLines>(
    alloc: Global,
    solids: &N,
    first: Solid,
    lines: &mut T,
) -> Result<u64, TraceFault>
    requires fits { N.fits solids.now first }
    requires sound { IsAcceptedSolid (N.region solids.now first) }
    requires feeds { T.cuts → HaveOneFeed (N.region solids.now first) }
    requires ready { T.is_ready lines.old }
    ensures reads { (n : ℕ) × Chain T.reads lines.old n lines.new }
    ensures failed { IsErrOf result TraceFault.Failed → (n : ℕ) × (mid : T) × Chain T.reads lines.old n mid × T.fails mid lines.new }
    ensures told { MatchResult result
        (λ n. (trace : List ℕ) × T.is_rest lines.old trace × IsChain (N.region solids.now first) trace n)
        (λ fault. IfTraceRefused fault (λ refusal. (trace : List ℕ) × T.is_rest lines.old trace × IsWrongTrace (N.region solids.now first) trace refusal)) }
{
    let mut solid = first;
    let result = walk(alloc, solids, &mut solid, lines);
    solid.root.dismantle();
    result
}

/// Goes through a trace; the solid is each time the one whose line was met last.
fn walk<N: NextSolids, T: TraceLines>(
    alloc: Global,
    solids: &N,
    solid: &mut Solid,
    lines: &mut T,
) -> Result<u64, TraceFault>
    requires fits { N.fits solids.now solid.old }
    requires sound { IsAcceptedSolid (N.region solids.now solid.old) }
    requires feeds { T.cuts → HaveOneFeed (N.region solids.now solid.old) }
    requires ready { T.is_ready lines.old }
    ensures reads { (n : ℕ) × Chain T.reads lines.old n lines.new }
    ensures failed { IsErrOf result TraceFault.Failed → (n : ℕ) × (mid : T) × Chain T.reads lines.old n mid × T.fails mid lines.new }
    ensures told { MatchResult result
        (λ n. (trace : List ℕ) × T.is_rest lines.old trace × IsChain (N.region solids.now solid.old) trace n)
        (λ fault. IfTraceRefused fault (λ refusal. (trace : List ℕ) × T.is_rest lines.old trace × IsWrongTrace (N.region solids.now solid.old) trace refusal)) }
{
    let Some(first) = line_ahead(alloc, solids, solid, lines)? else {
        return Err(refused(RefusalCode::NotAFiring, 1));
    };
    meet(alloc, lines, first)?;
    let mut line = 2u64;
    loop {
        let commits = line - 2;
        match step_ahead(alloc, solids, solid, lines, commits)? {
            Step::More(next, len) => {
                let before = mem::replace(solid, next);
                before.root.dismantle();
                meet(alloc, lines, len)?;
                line = line_behind(line)?;
            }
            Step::Done => return Ok(commits),
            Step::WrongLine => return Err(refused(RefusalCode::NotAFiring, line)),
            Step::WrongEnd => return Err(refused(RefusalCode::WrongEnd, line)),
        }
    }
}

/// The number of the line behind this one.
fn line_behind(line: u64) -> Result<u64, NoMemory>
    ensures { IfOk result (λ next. next ≡ line + 1) }
{
    match line.checked_add(1) {
        Some(next) => Ok(next),
        None => Err(NoMemory),
    }
}

/// A refusal at the beginning of a line.
fn refused(code: RefusalCode, line: u64) -> TraceFault
    ensures { result ≡ TraceFault.Refused (at_line (code_number code) line) }
{
    TraceFault::Refused(code.at(Pos { line, column: 1 }))
}
