//! Small heads in small heaps, worked out: each the contract of an empty function.

ghost use Rattle.lmn_solid_heads.specs.Examples.{LinksJoin, LinksLeave, LinksMayStay, ContextsTakeTheRest, ClosedRestsAreClosed};
ghost use Rattle.lmn_solid_heads.specs.Examples.{PartsHaveNoImage, GuardsAskParts, HeapPortsAreTold};

/// `a(X), b(X)` embeds in itself, and not in `a(X), b(Y), c(X,Y)`.
#[tactic(auto, using(crate::proofs::ExampleLinks::links_join))]
pub fn links_join()
    ensures { LinksJoin }
{}

/// `{a(X)}, b(Y)` embeds in `{a(X)}, b(X)`, and `{a(X), b(Y)}` doesn't embed in `{a(X), b(X)}`.
#[tactic(auto, using(crate::proofs::ExampleLinks::links_leave))]
pub fn links_leave()
    ensures { LinksLeave }
{}

/// The items of `{a(X), b(Y)}` lie in `{a(X), b(X)}`, where this head doesn't embed.
#[tactic(auto, using(crate::proofs::ExampleLinks::links_may_stay))]
pub fn links_may_stay()
    ensures { LinksMayStay }
{}

/// `{a, $p, @r}` embeds in `{a, b, T :- U}`, and `{a, @r}` and `{a, $p}` don't.
#[tactic(auto, using(crate::proofs::ExampleContexts::contexts_take_the_rest))]
pub fn contexts_take_the_rest()
    ensures { ContextsTakeTheRest }
{}

/// `{$p[]}` embeds in `{a(X), b(X)}`, and not in `{a(X)}, b(X)`.
#[tactic(auto, using(crate::proofs::ExampleContexts::closed_rests_are_closed))]
pub fn closed_rests_are_closed()
    ensures { ClosedRestsAreClosed }
{}

/// `a($x,Z)` with a ground part doesn't embed in `a(X,Y), b(X,Y)`.
#[tactic(auto, using(crate::proofs::ExampleParts::parts_have_no_image))]
pub fn parts_have_no_image()
    ensures { PartsHaveNoImage }
{}

/// `a($x)` with the guard `$x < 3` embeds in `a(2)`, and not in `a(5)`. It doesn't embed where the number is in a membrane.
#[tactic(auto, using(crate::proofs::ExampleParts::guards_ask_parts))]
pub fn guards_ask_parts()
    ensures { GuardsAskParts }
{}

/// Two parts that join other ports are two rooted graphs.
#[tactic(auto, using(crate::proofs::ExampleParts::ports_are_told))]
pub fn ports_are_told()
    ensures { HeapPortsAreTold }
{}
