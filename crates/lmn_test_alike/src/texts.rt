//! Texts that are run over both stores.
use lmn_order::Order;

/// A text, and how it is run.
#[derive(Clone, Copy)]
pub(crate) struct Row {
    pub(crate) text: &'static [u8],
    pub(crate) order: Order,
    /// The most commits.
    pub(crate) budget: u64,
    /// The most items.
    pub(crate) size: u64,
}

/// The most commits, and the most items, where nothing else is said.
pub(crate) const BUDGET: u64 = 1_000_000;

pub(crate) const SIZE: u64 = 16_777_216;

/// Texts that are run by the defaults.
pub(crate) const DEFAULTS: &[&[u8]] = &[
    b"a. a. a, a :- b.",
    b"",
    b"a(X), b(X). a(X), b(Y) :- c(X,Y).",
    b"a(X,X). a(X,Y) :- X=Y.",
    b"{a(X), b(X)}. {a(X), b(Y)} :- c(X,Y).",
    b"{a(X)}, {b(X)}. {a(X)}, {b(Y)} :- c(X,Y).",
    b"{X=Y}, a(X), b(Y).",
    b"{a. b. {c}}. {a, $p} :- $p.",
    b"{a. b :- c.}. {a, $p} :- {$p}, d.",
    b"p(3), p(4). p($x), p($y) :- $z = $x + $y | p($z).",
    b"p(9223372036854775807), p(1). p($x), p($y) :- $z = $x + $y | p($z).",
    b"d([1,2]). d($g) :- ground($g) | e($g,$g).",
    b"d(X,Y), f(X,Y). d($g,Z) :- ground($g) | e(Z).",
    b"{d(X). e(Y). d(Z), e(Z) :- f.}, a(X), b(Y). a(X), b(Y) :- X=Y.",
    b"append([1,2],[3],R), ans(R). append([],Y,Z) :- Y=Z. append([A|X],Y,Z) :- Z=[A|W], append(X,Y,W).",
    b"{a. b. b :- c.}. {a, $p, @r} :- {$p, @r, @r}.",
    b"{a. a :- b.}. {c. c :- d.}.",
    b"p(-5), 'A b'(X), 'it''s'(X).",
    b"p({a}).",
    b"n(3), n(5). n($x) \\ n($y) :- $x < $y | .",
    b"{a(X), b(X)}. c. c, {$p[]} :- {$p[]}, {$p[]}.",
    b"{a(X)}, b(X). {$p[]} :- .",
    b"{a}. {$p[]} :- d.",
    b"{m. {a(X)}. {b(X)}. n}. {k}. {m, $p}, {k, $q} :- {$q, {$p}}, o.",
];

/// Texts with options.
pub(crate) const OPTIONS: &[Row] = &[
    Row {
        text: b"a. a :- a.",
        order: Order::First,
        budget: 5,
        size: SIZE,
    },
    Row {
        text: b"a. a :- b.",
        order: Order::First,
        budget: 1,
        size: SIZE,
    },
    Row {
        text: b"a. a :- a, a.",
        order: Order::First,
        budget: BUDGET,
        size: 3,
    },
    Row {
        text: b"{a. a :- a.}. {c. c :- d.}.",
        order: Order::Turn,
        budget: 3,
        size: SIZE,
    },
    Row {
        text: b"{a. a :- b.}. {c. c :- d.}.",
        order: Order::Seed(0),
        budget: 1,
        size: SIZE,
    },
    Row {
        text: b"{s. {t(X). u(X)}. s :- t.}. c. c, {$p[], @r} :- {$p[], @r}, {{$p[]}}. {{$p[]}, $q} :- d, {$q}.",
        order: Order::Seed(7),
        budget: 20,
        size: SIZE,
    },
    Row {
        text: b"{a}. {$p} :- {{$p}}.",
        order: Order::First,
        budget: 100,
        size: SIZE,
    },
];
