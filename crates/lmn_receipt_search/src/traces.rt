//! Traces of a plain.
ghost use Rattle.std.specs.Prelude.{ℕ, List, IfErr, IfOk, IsErrOf, MatchResult};
ghost use Rattle.lmn_base.specs.Levels.{links_of};
ghost use Rattle.lmn_base.specs.Links.{EachTwice};
ghost use Rattle.lmn_base.specs.Names.{NamesPlain};
ghost use Rattle.lmn_base.specs.Refusals.{IfRefused};
ghost use Rattle.lmn_base.specs.declared.solid.Solid.{Solid};
ghost use Rattle.lmn_congruence.specs.SolidsOfPlains.{IsSolidOf};
ghost use Rattle.lmn_congruence.specs.Translation.{region_of};
ghost use Rattle.lmn_guards.specs.declared.plan.GuardPlan.{GuardPlan};
ghost use Rattle.lmn_reduction.specs.Chains.{Chain};
ghost use Rattle.lmn_app_runs.specs.Laws.{IsPrintable};
ghost use Rattle.lmn_receipt_chain.specs.Chains.{IsChain, IsWrongTrace};
ghost use Rattle.lmn_receipt_chain.specs.Faults.{IfTraceRefused};
ghost use Rattle.lmn_solid_next.specs.Searching.{CanSearch};

use crate::plans::plans_of;
use crate::searching::PlainSearch;
use lmn_base::{Names, Plain, TextFault};
use lmn_receipt_chain::{TraceFault, follow_lines, lines_have_one_feed};
use lmn_receipt_reading::{SliceLines, TraceLines};
use lmn_solid_settle::solid_of;
use std::alloc::Global;

/// Whether a trace is one of a plain that was accepted, by the names that it has: the number of its commits. It is checked over lists: no
/// store, machine or code has a part in it. The plans of the rules are made anew.
///
/// # Errors
///
/// A refusal by 61 where a line is that of no next solid, by 62 where the end is wrong, at the first line that is so. Want of
/// memory at any time.
pub fn check(alloc: Global, plain: &Plain, names: &Names, trace: &[u8]) -> Result<u64, TextFault>
    requires searched { (plans : List GuardPlan) × CanSearch names.now plain.now plans }
    requires named { NamesPlain names.now plain.now }
    requires closed { EachTwice (links_of plain.now.top) }
    ensures { MatchResult result
        (λ n. (s : Solid) × IsSolidOf plain.now s × IsChain (region_of names.now plain.now.rules s) trace.now n)
        (λ fault. IfRefused fault (λ refusal. (s : Solid) × IsSolidOf plain.now s × IsWrongTrace (region_of names.now plain.now.rules s) trace.now refusal)) }
{
    let mut lines = SliceLines::new(trace);
    match check_lines(alloc, plain, names, &mut lines) {
        Ok(commits) => Ok(commits),
        Err(fault) => Err(fault.of_text()),
    }
}

/// Checks a trace that is read line by line, as `check` does, of which no more is at hand than the line that was met last and what is
/// ahead. Runs of the plain can be printed where less than all that is left may be ahead.
///
/// # Errors
///
/// A refusal by 61 where a line is that of no next solid, by 62 where the end is wrong, at the first line that is so. `Failed` where a
/// part of the trace can't be read, and then nothing more is read. Want of memory at any time.
pub fn check_lines<T: TraceLines>(
    alloc: Global,
    plain: &Plain,
    names: &Names,
    lines: &mut T,
) -> Result<u64, TraceFault>
    requires searched { (plans : List GuardPlan) × CanSearch names.now plain.now plans }
    requires named { NamesPlain names.now plain.now }
    requires closed { EachTwice (links_of plain.now.top) }
    requires lines { T.is_ready lines.old × (T.cuts → IsPrintable names.now plain.now) }
    ensures reads { (n : ℕ) × Chain T.reads lines.old n lines.new }
    ensures failed { IsErrOf result TraceFault.Failed → (n : ℕ) × (mid : T) × Chain T.reads lines.old n mid × T.fails mid lines.new }
    ensures chain { IfOk result (λ n. (trace : List ℕ) × (s : Solid) × T.is_rest lines.old trace × IsSolidOf plain.now s × IsChain (region_of names.now plain.now.rules s) trace n) }
    ensures wrong { IfErr result (λ fault. IfTraceRefused fault (λ refusal. (trace : List ℕ) × (s : Solid) × T.is_rest lines.old trace × IsSolidOf plain.now s × IsWrongTrace (region_of names.now plain.now.rules s) trace refusal)) }
{
    lines_have_one_feed();
    let plans = plans_of(alloc, plain.rules.as_slice())?;
    let first = solid_of(alloc, plain)?;
    let solids = PlainSearch::new(names, plain, plans.as_slice());
    follow_lines(alloc, &solids, first, lines)
}
