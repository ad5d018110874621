//! Solids and traces through `lmn_solid` and `lmn_receipt`.
ghost use Rattle.std.specs.Prelude.{ℕ, List, ◌≡◌, ◌<◌, None, length, IfOk, MatchResult};
ghost use Rattle.lmn_base.specs.declared.solid.Solid.{Solid};
ghost use Rattle.lmn_guards.specs.declared.plan.GuardPlan.{GuardPlan};
ghost use Rattle.lmn_solid.specs.Choice.{paths};
ghost use Rattle.lmn_solid.specs.Embedding.{HasEmbedding};
ghost use Rattle.lmn_solid.specs.Rules.{Name};
ghost use Rattle.lmn_solid.specs.Searching.{CanSearch, IsSolidBy};
ghost use Rattle.lmn_solid.specs.Translation.{region_of};
ghost use Rattle.lmn_receipt.specs.Chains.{IsChain, IsWrongTrace};
ghost use Rattle.lmn_receipt.specs.Laws.{IsAcceptedSolid};
ghost use Rattle.lmn_receipt.specs.Levels.{links_of};
ghost use Rattle.lmn_receipt.specs.Links.{EachTwice};
ghost use Rattle.lmn_receipt.specs.Names.{NamesPlain};
ghost use Rattle.lmn_receipt.specs.Refusals.{IfRefused};
ghost use Rattle.lmn_receipt.specs.SolidsOfPlains.{IsSolidOf};
ghost use Rattle.lmn_receipt.specs.WellMade.{IsWellMade};

use lmn_base::{Names, NoMemory, Plain, Solid, TextFault};
use lmn_guards::GuardPlan;
use lmn_receipt::{NextSolid, NextSolids, PlainSearch, check, follow, solid_of};
use lmn_solid::next_of;
use std::alloc::Global;

/// The next solid, where there is one.
pub fn has_next(
    alloc: Global,
    solid: &Solid,
    plain: &Plain,
    from: u64,
) -> Result<Option<Solid>, NoMemory>
    requires { (names : List Name) × (plans : List GuardPlan) × CanSearch names plain.now plans × IsSolidBy names plain.now solid.now × (from < length (paths (region_of names plain.now.rules solid.now))) }
    ensures { (names : List Name) (plans : List GuardPlan) → CanSearch names plain.now plans → IsSolidBy names plain.now solid.now →
        IfOk result (λ found. found ≡ None → ¬ (HasEmbedding (region_of names plain.now.rules solid.now))) }
{
    next_of(alloc, solid, plain, from)
}

/// The solid of the top of a plain.
pub fn first_solid(alloc: Global, plain: &Plain) -> Result<Solid, NoMemory>
    requires made { IsWellMade plain.now }
    requires closed { EachTwice (links_of plain.now.top) }
    ensures { IfOk result (IsSolidOf plain.now) }
{
    solid_of(alloc, plain)
}

/// The number of commits of a trace of a plain.
pub fn commits_of(
    alloc: Global,
    plain: &Plain,
    names: &Names,
    trace: &[u8],
) -> Result<u64, TextFault>
    requires searched { (plans : List GuardPlan) × CanSearch names.now plain.now plans }
    requires named { NamesPlain names.now plain.now }
    requires closed { EachTwice (links_of plain.now.top) }
    ensures { MatchResult result
        (λ n. (s : Solid) × IsSolidOf plain.now s × IsChain (region_of names.now plain.now.rules s) trace.now n)
        (λ fault. IfRefused fault (λ refusal. (s : Solid) × IsSolidOf plain.now s × IsWrongTrace (region_of names.now plain.now.rules s) trace.now refusal)) }
{
    check(alloc, plain, names, trace)
}

/// The number of commits of a trace from a solid on.
pub fn commits_from<N: NextSolids>(
    alloc: Global,
    solids: &N,
    first: Solid,
    trace: &[u8],
) -> Result<u64, TextFault>
    requires fits { N.fits solids.now first }
    requires sound { IsAcceptedSolid (N.region solids.now first) }
    ensures { MatchResult result
        (IsChain (N.region solids.now first) trace.now)
        (λ fault. IfRefused fault (IsWrongTrace (N.region solids.now first) trace.now)) }
{
    follow(alloc, solids, first, trace)
}

/// From which membrane on to which one the next solid is the same.
pub fn reach_of(next: &NextSolid) -> u64
    ensures { result ≡ next.now.reach }
{
    next.reach
}

/// Next solids by plain search.
pub fn search_of<'p>(names: &'p Names, plain: &'p Plain, plans: &'p [GuardPlan]) -> PlainSearch<'p>
    ensures { result.plain.now ≡ plain.now }
{
    PlainSearch::new(names, plain, plans)
}
