//! Next solids of texts, by plain search, the root asked first.
ghost use Rattle.std.specs.Prelude.{◌≡◌, IfSome};
ghost use Rattle.lmn_base.specs.Names.{NamesPlain, first_names};
ghost use Rattle.lmn_solid_next.specs.Searching.{CanSearch, IsSolidBy};
ghost use Rattle.lmn_schedule.specs.Held.{CanBeLoaded};

use lmn_app_accepted::accepted_texts;
use lmn_app_reading::{Accepted, read};
use lmn_base::{Names, Solid};
use lmn_receipt_line::front;
use lmn_receipt_search::next_of;
use lmn_solid_settle::solid_of;
use std::alloc::AllocGlobal;
use std::process::Abort;

/// A text, how many firings come one after the other, the line of the last solid, and whether no rule has a match then.
type Row = (&'static [u8], u64, &'static [u8], bool);

const ROWS: &[Row] = &[
    (b"a. a. a, a :- b.", 1, b"b. (a, a :- b).\n", true),
    (b"", 0, b"\n", true),
    (
        b"a(X), b(X). a(X), b(Y) :- c(X,Y).",
        1,
        b"c(L0, L0). (a(L0), b(L1) :- c(L0, L1)).\n",
        true,
    ),
    (
        b"a(X,X). a(X,Y) :- X=Y.",
        1,
        b"(a(L0, L1) :- L0 = L1).\n",
        true,
    ),
    (
        b"{a(X), b(X)}. {a(X), b(Y)} :- c(X,Y).",
        0,
        b"{a(L0), b(L0)}. ({a(L0), b(L1)} :- c(L0, L1)).\n",
        true,
    ),
    (
        b"{a(X)}, {b(X)}. {a(X)}, {b(Y)} :- c(X,Y).",
        1,
        b"c(L0, L0). ({a(L0)}, {b(L1)} :- c(L0, L1)).\n",
        true,
    ),
    (b"{X=Y}, a(X), b(Y).", 0, b"a(L0). b(L0). {}.\n", true),
    (b"a. a :- a.", 5, b"a. (a :- a).\n", false),
    (b"a. a :- b.", 1, b"b. (a :- b).\n", true),
    (
        b"{a. b. {c}}. {a, $p} :- $p.",
        1,
        b"b. {c}. ({a, $p} :- $p).\n",
        true,
    ),
    (
        b"{a. b :- c.}. {a, $p} :- {$p}, d.",
        0,
        b"{a, (b :- c)}. ({a, $p} :- d, {$p}).\n",
        true,
    ),
    (
        b"p(3), p(4). p($x), p($y) :- $z = $x + $y | p($z).",
        1,
        b"p(L0). 7(L0). (p(L0), $x[L0], p(L1), $y[L1] :- $z = $x + $y | p(L2), $z[L2]).\n",
        true,
    ),
    (
        b"p(9223372036854775807), p(1). p($x), p($y) :- $z = $x + $y | p($z).",
        0,
        b"p(L0). 9223372036854775807(L0). p(L1). 1(L1). (p(L0), $x[L0], p(L1), $y[L1] :- $z = $x + $y | p(L2), $z[L2]).\n",
        true,
    ),
    (
        b"d([1,2]). d($g) :- ground($g) | e($g,$g).",
        1,
        b"e(L0, L1). '.'(L2, L3, L0). 1(L2). '.'(L4, L5, L3). 2(L4). '[]'(L5). '.'(L6, L7, L1). 1(L6). '.'(L8, L9, L7). 2(L8). '[]'(L9). (d(L0), $g[L0] :- ground($g) | e(L1, L2), $g[L1], $g[L2]).\n",
        true,
    ),
    (
        b"d(X,Y), f(X,Y). d($g,Z) :- ground($g) | e(Z).",
        0,
        b"d(L0, L1). f(L0, L1). (d(L0, L1), $g[L0] :- ground($g) | e(L1)).\n",
        true,
    ),
    (b"a. a :- a, a.", 1, b"a. a. (a :- a, a).\n", false),
    (
        b"{d(X). e(Y). d(Z), e(Z) :- f.}, a(X), b(Y). a(X), b(Y) :- X=Y.",
        2,
        b"{f, (d(L0), e(L0) :- f)}. (a(L0), b(L1) :- L0 = L1).\n",
        true,
    ),
];

/// What is read of a text that is accepted.
fn searchable(rt: &(impl Abort + AllocGlobal), names: &mut Names, text: &[u8]) -> Accepted
    requires { names.old ≡ first_names }
    ensures loaded { CanBeLoaded result.plain result.plans }
    ensures searched { CanSearch names.new result.plain result.plans }
    ensures named { NamesPlain names.new result.plain }
{
    accepted_texts();
    assert!(rt; text.len() <= 4_194_304);
    read(rt.alloc(), text, names).expect(rt, "accepted")
}

/// The solid of a text that is accepted.
fn first_solid(rt: &(impl Abort + AllocGlobal), names: &Names, accepted: &Accepted) -> Solid
    requires loaded { CanBeLoaded accepted.now.plain accepted.now.plans }
    requires named { NamesPlain names.now accepted.now.plain }
    ensures { IsSolidBy names.now accepted.now.plain result }
{
    solid_of(rt.alloc(), &accepted.plain).expect(rt, "memory")
}

/// The next solid, where the root is asked first.
fn next(
    rt: &(impl Abort + AllocGlobal),
    names: &Names,
    accepted: &Accepted,
    solid: &Solid,
) -> Option<Solid>
    requires searched { CanSearch names.now accepted.now.plain accepted.now.plans }
    requires by { IsSolidBy names.now accepted.now.plain solid.now }
    ensures { IfSome result (IsSolidBy names.now accepted.now.plain) }
{
    next_of(rt.alloc(), solid, &accepted.plain, 0).expect(rt, "memory")
}

/// The solid after so many firings.
fn after(
    rt: &(impl Abort + AllocGlobal),
    names: &Names,
    accepted: &Accepted,
    first: Solid,
    firings: u64,
) -> Solid
    requires searched { CanSearch names.now accepted.now.plain accepted.now.plans }
    requires by { IsSolidBy names.now accepted.now.plain first }
    ensures { IsSolidBy names.now accepted.now.plain result }
{
    let mut solid = first;
    for _ in 0..firings {
        solid = next(rt, names, accepted, &solid).expect(rt, "a rule has a match");
    }
    solid
}

/// Goes from the solid of a text to its last one.
fn check_row(rt: &(impl Abort + AllocGlobal), row: &Row) {
    let mut names = Names::new(rt.alloc());
    let accepted = searchable(rt, &mut names, row.0);
    let first = first_solid(rt, &names, &accepted);
    let solid = after(rt, &names, &accepted, first, row.1);
    let met = front(
        rt.alloc(),
        &names,
        accepted.plain.rules.as_slice(),
        &solid,
        row.2,
    )
    .expect(rt, "memory");
    assert!(rt; met == Some(row.2.len()));
    let last = next(rt, &names, &accepted, &solid);
    assert!(rt; last.is_none() == row.3);
}

#[test]
fn next_solids_are_those_of_the_rows(rt: HostRuntime) {
    for row in ROWS {
        check_row(&rt, row);
    }
}
