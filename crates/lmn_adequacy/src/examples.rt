//! Small solids, and what they do: each the contract of an empty function.

ghost use Rattle.lmn_adequacy.specs.ChangeExamples.{KeptComesFirst, ShortTraceEnds, TracesLeaveNothingOut, TwoFiringsAreTwoCommits};
ghost use Rattle.lmn_adequacy.specs.Examples.{EndsMeetInOneAtom, InnerLinkDoesNotEmbed, MembraneOpens, ListDepthFirst};
ghost use Rattle.lmn_adequacy.specs.Examples.{TheseAreAccepted, NextHasNoLoop, CopiesStandAsWritten, TracesEnd};

/// `a(X), b(X). a(X), b(Y) :- c(X,Y).` goes to `c(X,X)` beside its rule.
#[tactic(auto, using(crate::proofs::ExampleSolids::link_meets_itself))]
pub fn link_meets_itself()
    ensures { EndsMeetInOneAtom }
{}

/// In `{a(X), b(X)}. {a(X), b(Y)} :- c(X,Y).` nothing embeds.
#[tactic(auto, using(crate::proofs::ExampleSolids::inner_link_does_not_embed))]
pub fn inner_link_does_not_embed()
    ensures { InnerLinkDoesNotEmbed }
{}

/// `c. {b. a. c. {b}}. {}. {a, $p} :- $p, a.` goes to `c. a. b. c. {}. {b}.` beside its rule.
#[tactic(auto, using(crate::proofs::ExampleSolids::membrane_opens))]
pub fn membrane_opens()
    ensures { MembraneOpens }
{}

/// The list `[1, 2]` in depth-first order from its link on.
#[tactic(auto, using(crate::proofs::ExampleSolids::list_depth_first))]
pub fn list_depth_first()
    ensures { ListDepthFirst }
{}

/// `p($x), p($y) :- $z = $x + $y | p($z)`, `{a, $p, @r} :- {$p, @r, @r}` and `{a, $p} :- $p, a` are accepted.
#[tactic(auto, using(crate::proofs::ExampleRules::these_are_accepted))]
pub fn these_are_accepted()
    ensures { TheseAreAccepted }
{}

/// `a(X,X). a(X,Y) :- X=Y.` goes to the rule alone.
#[tactic(auto, using(crate::proofs::ExampleSolids::loop_vanishes))]
pub fn loop_vanishes()
    ensures { NextHasNoLoop }
{}

/// `a(X), b(X,Y,Y). a($x) :- ground($x) | a($x,$x).` goes to `a(X,Z), b(X,Y,Y), b(Z,W,W)` beside its rule.
#[tactic(auto, using(crate::proofs::ExampleCopies::part_is_copied))]
pub fn part_is_copied()
    ensures { CopiesStandAsWritten }
{}

/// `a. a :- a, a.` is full after one commit with the size 3, and with the budget 1 the budget is done there first. Where
/// nothing embeds the trace ends irreducible, whatever the budget.
#[tactic(auto, using(crate::proofs::ExampleTraces::traces_end))]
pub fn traces_end()
    ensures { TracesEnd }
{}

/// `c. a. a :- b.` goes to `c. b.` beside its rule, and not to `b. c.`.
#[tactic(auto, using(crate::proofs::ExampleChanges::kept_comes_first))]
pub fn kept_comes_first()
    ensures { KeptComesFirst }
{}

/// `a. a. a :- b.` comes to `b. b.` beside its rule by two commits, and not by one.
#[tactic(auto, using(crate::proofs::ExampleChanges::two_firings_are_two_commits))]
pub fn two_firings_are_two_commits()
    ensures { TwoFiringsAreTwoCommits }
{}

/// Without the first or the second of its three solids this trace is none.
#[tactic(auto, using(crate::proofs::ExampleChanges::traces_leave_nothing_out))]
pub fn traces_leave_nothing_out()
    ensures { TracesLeaveNothingOut }
{}

/// `a. a :- b.` comes to `b.` beside its rule by one commit, and is irreducible there.
#[tactic(auto, using(crate::proofs::ExampleChanges::short_trace_ends))]
pub fn short_trace_ends()
    ensures { ShortTraceEnds }
{}
