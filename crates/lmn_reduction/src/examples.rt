//! Small texts, and what they do: derivations of the calculus, each the contract of an empty function.

ghost use Rattle.lmn_reduction.specs.Examples.{TwoMakeOne, LinkMeetsItself, ConnectorLeaves};
ghost use Rattle.lmn_reduction.specs.Examples.{LoopVanishes, QuotientsAndRemainders, InnerLinkStays};
ghost use Rattle.lmn_reduction.specs.Examples.{SumIsBound, RulesAreCopied, LeastByMinusOne};
ghost use Rattle.lmn_reduction.specs.Examples.{NothingByZero, LoopIsLeft, LinkIsShared, PartIsCopied};
ghost use Rattle.lmn_reduction.specs.Examples.{PortsAreTold, NotGround, RestIsCopied, RestIsDropped};

/// `a. a. a, a :- b.` commits to `b` beside its rule.
#[tactic(auto, using(crate::proofs::ExampleSteps::two_make_one))]
pub fn two_make_one()
    ensures { TwoMakeOne }
{}

/// `a(X), b(X). a(X), b(Y) :- c(X,Y).` commits to `c(X,X)` beside its rule: two links of a head may be one
/// link of the process.
#[tactic(auto, using(crate::proofs::ExampleSteps::link_meets_itself))]
pub fn link_meets_itself()
    ensures { LinkMeetsItself }
{}

/// `{X=Y}, a(X), b(Y).` settles to `a(X), b(X), {}`.
#[tactic(auto, using(crate::proofs::ExampleSteps::connector_leaves))]
pub fn connector_leaves()
    ensures { ConnectorLeaves }
{}

/// `X=Y, {X=Y}` settles to `{}`: a connector goes into a membrane, and a loop of connectors vanishes.
#[tactic(auto, using(crate::proofs::ExampleSteps::loop_vanishes))]
pub fn loop_vanishes()
    ensures { LoopVanishes }
{}

/// `{a(X), b(X)}. {a(X), b(Y)} :- c(X,Y).` is irreducible, and so is each process that is congruent to it: a
/// link that stays inside a membrane doesn't match two links that leave it.
#[tactic(auto, using(crate::proofs::InnerLink::inner_link_stays))]
pub fn inner_link_stays()
    ensures { InnerLinkStays }
{}

/// `p(3), p(4). p($x), p($y) :- $z = $x + $y | p($z).` commits to `p(7)` beside its rule.
#[tactic(auto, using(crate::proofs::ExampleSteps::sum_is_bound))]
pub fn sum_is_bound()
    ensures { SumIsBound }
{}

/// `{a. b. b :- c.}. {a, $p, @r} :- {$p, @r, @r}.` commits to `{b, (b :- c), (b :- c)}` beside its rule.
#[tactic(auto, using(crate::proofs::ExampleSteps::rules_are_copied))]
pub fn rules_are_copied()
    ensures { RulesAreCopied }
{}

/// -7 / 2 and 7 / -2 are -3, -7 mod 2 is -1, and 7 mod -2 is 1.
#[tactic(auto, using(crate::proofs::ExampleSteps::quotients_and_remainders))]
pub fn quotients_and_remainders()
    ensures { QuotientsAndRemainders }
{}

/// -2^63 / -1 has no value, and -2^63 mod -1 is 0. Nothing has a quotient or a remainder by zero.
pub fn missing_values()
    ensures least { LeastByMinusOne }
    ensures zero { NothingByZero }
{}

/// `a(X,X). a(X,Y) :- X=Y.` commits to the rule alone.
#[tactic(auto, using(crate::proofs::ExampleSteps::loop_is_left))]
pub fn loop_is_left()
    ensures { LoopIsLeft }
{}

/// `{{a(X)}, b(X)}. {{$p}, $q} :- $p, $q.` commits to `a(X), b(X)` beside its rule: two contexts may share a link.
#[tactic(auto, using(crate::proofs::ExampleSteps::link_is_shared))]
pub fn link_is_shared()
    ensures { LinkIsShared }
{}

/// `c. {a(X), b(X)}. c, {$p[]} :- {$p[]}, {$p[]}.` commits to `{a(X), b(X)}, {a(Y), b(Y)}` beside its rule: each copy of
/// the rest has links of its own.
#[tactic(auto, using(crate::proofs::ExampleSteps::rest_is_copied))]
pub fn rest_is_copied()
    ensures { RestIsCopied }
{}

/// `{a(X), b(X)}. {$p[]} :- c.` commits to `c` beside its rule: the rest is dropped.
#[tactic(auto, using(crate::proofs::ExampleSteps::rest_is_dropped))]
pub fn rest_is_dropped()
    ensures { RestIsDropped }
{}

/// `a(X), b(X,Y,Y). a($x) :- ground($x) | a($x,$x).` commits to `a(X,Z), b(X,Y,Y), b(Z,W,W)` beside its rule.
#[tactic(auto, using(crate::proofs::ExampleSteps::part_is_copied))]
pub fn part_is_copied()
    ensures { PartIsCopied }
{}

/// Rooted graphs are told apart by the ports that are joined, and by nothing else. A part with a second free link, or
/// with an atom that isn't reached, isn't ground.
#[tactic(auto, using(crate::proofs::ExampleSteps::ports_are_told, crate::proofs::ExampleSteps::not_ground))]
pub fn ground_parts_are_graphs()
    ensures told { PortsAreTold }
    ensures not_ground { NotGround }
{}
