//! Processes that are made in a store by its calls, and the lines that are printed of them, in the plain form and in the
//! folded one. Rules are read of a text.
ghost use Rattle.lmn_test_rows.specs.Made.{IsMadeByHand};
ghost use Rattle.lmn_store_slab.specs.Kept.{heap_of};

use crate::making::Step::{Atom, Integer, Join, Membrane, Rule};
use crate::making::{Step, add_membrane, made, make, new_store};
use crate::reading::read_of;
use lmn_base::{Names, Plain, Rows};
use lmn_io::MemSink;
use lmn_print::print;
use lmn_store_slab::SlabStore;
use lmn_store_trait::LinkStore;
use std::alloc::AllocGlobal;
use std::process::Abort;

/// The text of the rules, what is made, and the line in the plain form.
type Row = (&'static [u8], &'static [Step], &'static [u8]);

/// The rule by which two numbers are added.
const ADDITION: &[u8] = b"p($x), p($y) :- $z = $x + $y | p($z).";

const ROWS: &[Row] = &[
    (
        b"a(X), b(Y) :- c(X,Y).",
        &[Atom(0, b"c", 2), Join(0, 0, 0, 1), Rule(0, 0)],
        b"c(L0, L0). (a(L0), b(L1) :- c(L0, L1)).\n",
    ),
    (
        b"a(X,Y) :- X=Y.",
        &[Rule(0, 0)],
        b"(a(L0, L1) :- L0 = L1).\n",
    ),
    (
        b"{a(X), b(Y)} :- c(X,Y).",
        &[
            Membrane(0),
            Atom(1, b"a", 1),
            Atom(1, b"b", 1),
            Join(0, 0, 1, 0),
            Rule(0, 0),
        ],
        b"{a(L0), b(L0)}. ({a(L0), b(L1)} :- c(L0, L1)).\n",
    ),
    (
        b"{a(X)}, {b(Y)} :- c(X,Y).",
        &[Atom(0, b"c", 2), Join(0, 0, 0, 1), Rule(0, 0)],
        b"c(L0, L0). ({a(L0)}, {b(L1)} :- c(L0, L1)).\n",
    ),
    (
        b"",
        &[
            Membrane(0),
            Atom(0, b"a", 1),
            Atom(0, b"b", 1),
            Join(0, 0, 1, 0),
        ],
        b"a(L0). b(L0). {}.\n",
    ),
    (
        b"{a, $p} :- $p.",
        &[Atom(0, b"b", 0), Membrane(0), Atom(1, b"c", 0), Rule(0, 0)],
        b"b. {c}. ({a, $p} :- $p).\n",
    ),
    (
        b"{a, $p} :- {$p}, d. b :- c.",
        &[Membrane(0), Atom(1, b"a", 0), Rule(1, 1), Rule(0, 0)],
        b"{a, (b :- c)}. ({a, $p} :- d, {$p}).\n",
    ),
    (
        ADDITION,
        &[
            Atom(0, b"p", 1),
            Integer(0, 7),
            Join(0, 0, 1, 0),
            Rule(0, 0),
        ],
        b"p(L0). 7(L0). (p(L0), $x[L0], p(L1), $y[L1] :- $z = $x + $y | p(L2), $z[L2]).\n",
    ),
    (
        ADDITION,
        &[
            Atom(0, b"p", 1),
            Integer(0, 9_223_372_036_854_775_807),
            Atom(0, b"p", 1),
            Integer(0, 1),
            Join(0, 0, 1, 0),
            Join(2, 0, 3, 0),
            Rule(0, 0),
        ],
        b"p(L0). 9223372036854775807(L0). p(L1). 1(L1). (p(L0), $x[L0], p(L1), $y[L1] :- $z = $x + $y | p(L2), $z[L2]).\n",
    ),
    (
        b"d($g) :- ground($g) | e($g,$g).",
        &[
            Atom(0, b"e", 2),
            Atom(0, b".", 3),
            Integer(0, 1),
            Atom(0, b".", 3),
            Integer(0, 2),
            Atom(0, b"[]", 1),
            Atom(0, b".", 3),
            Integer(0, 1),
            Atom(0, b".", 3),
            Integer(0, 2),
            Atom(0, b"[]", 1),
            Join(0, 0, 1, 2),
            Join(1, 0, 2, 0),
            Join(1, 1, 3, 2),
            Join(3, 0, 4, 0),
            Join(3, 1, 5, 0),
            Join(0, 1, 6, 2),
            Join(6, 0, 7, 0),
            Join(6, 1, 8, 2),
            Join(8, 0, 9, 0),
            Join(8, 1, 10, 0),
            Rule(0, 0),
        ],
        b"e(L0, L1). '.'(L2, L3, L0). 1(L2). '.'(L4, L5, L3). 2(L4). '[]'(L5). '.'(L6, L7, L1). 1(L6). '.'(L8, L9, L7). 2(L8). '[]'(L9). (d(L0), $g[L0] :- ground($g) | e(L1, L2), $g[L1], $g[L2]).\n",
    ),
    (
        b"d($g,Z) :- ground($g) | e(Z).",
        &[
            Atom(0, b"d", 2),
            Atom(0, b"f", 2),
            Join(0, 0, 1, 0),
            Join(0, 1, 1, 1),
            Rule(0, 0),
        ],
        b"d(L0, L1). f(L0, L1). (d(L0, L1), $g[L0] :- ground($g) | e(L1)).\n",
    ),
    (
        b"d(Z), e(Z) :- f. a(X), b(Y) :- X=Y.",
        &[Membrane(0), Atom(1, b"f", 0), Rule(1, 0), Rule(0, 1)],
        b"{f, (d(L0), e(L0) :- f)}. (a(L0), b(L1) :- L0 = L1).\n",
    ),
    (
        b"b :- c. {a, $p, @r} :- {$p, @r, @r}.",
        &[
            Membrane(0),
            Atom(1, b"c", 0),
            Rule(1, 0),
            Rule(1, 0),
            Rule(0, 1),
        ],
        b"{c, (b :- c), (b :- c)}. ({a, $p, @r} :- {$p, @r, @r}).\n",
    ),
    (
        b"a :- b. c :- d.",
        &[
            Membrane(0),
            Atom(1, b"a", 0),
            Rule(1, 0),
            Membrane(0),
            Atom(2, b"c", 0),
            Rule(2, 1),
        ],
        b"{a, (a :- b)}. {c, (c :- d)}.\n",
    ),
    (
        b"a :- b. c :- d.",
        &[
            Membrane(0),
            Atom(1, b"b", 0),
            Rule(1, 0),
            Membrane(0),
            Atom(2, b"c", 0),
            Rule(2, 1),
        ],
        b"{b, (a :- b)}. {c, (c :- d)}.\n",
    ),
    (
        b"a :- b. c :- d.",
        &[
            Membrane(0),
            Atom(1, b"b", 0),
            Rule(1, 0),
            Membrane(0),
            Atom(2, b"d", 0),
            Rule(2, 1),
        ],
        b"{b, (a :- b)}. {d, (c :- d)}.\n",
    ),
    (
        b"",
        &[
            Atom(0, b"p", 1),
            Integer(0, -5),
            Atom(0, b"A b", 1),
            Atom(0, b"it's", 1),
            Join(0, 0, 1, 0),
            Join(2, 0, 3, 0),
        ],
        b"p(L0). -5(L0). 'A b'(L1). 'it''s'(L1).\n",
    ),
    (
        b"",
        &[
            Atom(0, b"p", 1),
            Membrane(0),
            Atom(1, b"+", 1),
            Atom(1, b"a", 0),
            Join(0, 0, 1, 0),
        ],
        b"p(L0). {'+'(L0), a}.\n",
    ),
    (
        b"n($x) \\ n($y) :- $x < $y | .",
        &[
            Atom(0, b"n", 1),
            Integer(0, 3),
            Join(0, 0, 1, 0),
            Rule(0, 0),
        ],
        b"n(L0). 3(L0). (n(L0), $x[L0], n(L1), $y[L1] :- $x < $y | n(L2), $x[L2]).\n",
    ),
    // Links are numbered as they are printed first, and not as their atoms are made, nor as they are joined.
    (
        b"",
        &[
            Membrane(0),
            Atom(1, b"d", 2),
            Atom(0, b"a", 2),
            Atom(0, b"c", 2),
            Join(0, 0, 2, 1),
            Join(2, 0, 1, 1),
            Join(0, 1, 1, 0),
        ],
        b"a(L0, L1). c(L1, L2). {d(L2, L0)}.\n",
    ),
    // A link from the root into a membrane of a membrane.
    (
        b"",
        &[
            Membrane(0),
            Atom(0, b"b", 1),
            Membrane(1),
            Atom(2, b"a", 1),
            Membrane(0),
            Atom(3, b"c", 0),
            Join(1, 0, 0, 0),
        ],
        b"b(L0). {{a(L0)}}. {c}.\n",
    ),
    (b"", &[], b"\n"),
    // Names that are bare, and names in quotes.
    (
        b"",
        &[
            Atom(0, b"a_B1", 0),
            Atom(0, b"mod", 0),
            Atom(0, b"", 0),
            Atom(0, b"A", 0),
            Atom(0, b"1", 0),
            Atom(0, b"a b", 0),
            Atom(0, b"it's", 0),
            Atom(0, b"'", 0),
        ],
        b"a_B1. mod. ''. 'A'. '1'. 'a b'. 'it''s'. ''''.\n",
    ),
    // Integers, from the least to the greatest.
    (
        b"",
        &[
            Integer(0, 0),
            Integer(0, -10),
            Integer(0, i64::MAX),
            Integer(0, i64::MIN),
            Join(0, 0, 1, 0),
            Join(2, 0, 3, 0),
        ],
        b"0(L0). -10(L0). 9223372036854775807(L1). -9223372036854775808(L1).\n",
    ),
];

/// What is made, with no rules, and the line in the folded form.
type FoldedRow = (&'static [Step], &'static [u8]);

const FOLDED: &[FoldedRow] = &[
    (&[], b"\n"),
    // Lists in the arguments of an item.
    (
        &[
            Atom(0, b"e", 2),
            Atom(0, b".", 3),
            Integer(0, 1),
            Atom(0, b".", 3),
            Integer(0, 2),
            Atom(0, b"[]", 1),
            Atom(0, b".", 3),
            Integer(0, 1),
            Atom(0, b".", 3),
            Integer(0, 2),
            Atom(0, b"[]", 1),
            Join(1, 2, 0, 0),
            Join(2, 0, 1, 0),
            Join(3, 2, 1, 1),
            Join(4, 0, 3, 0),
            Join(5, 0, 3, 1),
            Join(6, 2, 0, 1),
            Join(7, 0, 6, 0),
            Join(8, 2, 6, 1),
            Join(9, 0, 8, 0),
            Join(10, 0, 8, 1),
        ],
        b"e([1, 2], [1, 2]).\n",
    ),
    // Two atoms that are children of each other: the first in the list is the item.
    (
        &[
            Atom(0, b"a", 2),
            Atom(0, b"b", 2),
            Join(0, 0, 1, 1),
            Join(0, 1, 1, 0),
        ],
        b"a(b(L0), L0).\n",
    ),
    // Three in a circle.
    (
        &[
            Atom(0, b"a", 2),
            Atom(0, b"b", 2),
            Atom(0, b"c", 2),
            Join(0, 1, 1, 0),
            Join(1, 1, 2, 0),
            Join(2, 1, 0, 0),
        ],
        b"a(c(b(L0)), L0).\n",
    ),
    // No atom is a child of its own.
    (&[Atom(0, b"a", 2), Join(0, 0, 0, 1)], b"a(L0, L0).\n"),
    // A child of an atom that stands in a circle, and before it in the list.
    (
        &[
            Atom(0, b"c", 1),
            Atom(0, b"a", 3),
            Atom(0, b"b", 2),
            Join(0, 0, 1, 0),
            Join(1, 1, 2, 1),
            Join(1, 2, 2, 0),
        ],
        b"c(L0). a(L0, b(L1), L1).\n",
    ),
    // Two atoms that are joined by their last ports: the second is the child.
    (
        &[Atom(0, b"a", 1), Atom(0, b"b", 1), Join(0, 0, 1, 0)],
        b"a(b).\n",
    ),
    (
        &[
            Atom(0, b"p", 2),
            Atom(0, b"q", 2),
            Join(0, 0, 1, 0),
            Join(0, 1, 1, 1),
        ],
        b"p(L0, q(L0)).\n",
    ),
    // The end of a list, and a cell, that are items.
    (
        &[
            Atom(0, b"[]", 2),
            Atom(0, b"b", 1),
            Atom(0, b"c", 1),
            Join(0, 0, 1, 0),
            Join(0, 1, 2, 0),
        ],
        b"'[]'(b, c).\n",
    ),
    (
        &[
            Atom(0, b".", 3),
            Atom(0, b"a", 1),
            Atom(0, b"b", 1),
            Atom(0, b"c", 1),
            Join(0, 0, 1, 0),
            Join(0, 1, 2, 0),
            Join(0, 2, 3, 0),
        ],
        b"'.'(a, b, c).\n",
    ),
    // A cell and an end of other arities are no list.
    (
        &[
            Atom(0, b"a", 1),
            Atom(0, b".", 2),
            Integer(0, 1),
            Join(1, 1, 0, 0),
            Join(2, 0, 1, 0),
        ],
        b"a('.'(1)).\n",
    ),
    (
        &[
            Atom(0, b"a", 1),
            Atom(0, b"[]", 2),
            Atom(0, b"x", 1),
            Join(1, 1, 0, 0),
            Join(2, 0, 1, 0),
        ],
        b"a('[]'(x)).\n",
    ),
    // A list that ends in another term, and one that ends in a link.
    (
        &[
            Atom(0, b"b", 1),
            Atom(0, b".", 3),
            Atom(0, b"[]", 1),
            Atom(0, b".", 3),
            Integer(0, 3),
            Atom(0, b"c", 1),
            Join(1, 2, 0, 0),
            Join(2, 0, 1, 0),
            Join(3, 2, 1, 1),
            Join(4, 0, 3, 0),
            Join(5, 0, 3, 1),
        ],
        b"b([[], 3 | c]).\n",
    ),
    (
        &[
            Atom(0, b"a", 1),
            Atom(0, b".", 3),
            Integer(0, 1),
            Atom(0, b"b", 1),
            Atom(0, b".", 3),
            Integer(0, 2),
            Join(1, 2, 0, 0),
            Join(2, 0, 1, 0),
            Join(4, 2, 3, 0),
            Join(5, 0, 4, 0),
            Join(1, 1, 4, 1),
        ],
        b"a([1 | L0]). b([2 | L0]).\n",
    ),
    // Links get their numbers over items and the terms in them.
    (
        &[
            Atom(0, b"h", 2),
            Atom(0, b"p", 3),
            Atom(0, b"q", 2),
            Atom(0, b"k", 1),
            Join(0, 0, 3, 0),
            Join(0, 1, 1, 1),
            Join(1, 0, 2, 1),
            Join(1, 2, 2, 0),
        ],
        b"h(k, L0). p(q(L1), L0, L1).\n",
    ),
    // A term is never in another membrane than its item.
    (
        &[
            Membrane(0),
            Atom(1, b"a", 1),
            Atom(0, b"b", 1),
            Join(0, 0, 1, 0),
        ],
        b"b(L0). {a(L0)}.\n",
    ),
    // Items, and membranes behind them, in a membrane.
    (
        &[
            Membrane(0),
            Membrane(1),
            Atom(1, b"f", 1),
            Atom(1, b"g", 1),
            Atom(1, b"h", 0),
            Membrane(1),
            Atom(3, b"i", 1),
            Atom(3, b"j", 1),
            Join(0, 0, 1, 0),
            Join(3, 0, 4, 0),
        ],
        b"{f(g), h, {}, {i(j)}}.\n",
    ),
    (&[Atom(0, b"a", 0), Atom(0, b"b", 0)], b"a. b.\n"),
];

/// Whether a sink takes the line of what a store holds, in the folded form or in the plain one.
fn is_printed(
    rt: &impl Abort,
    store: &mut SlabStore,
    plain: &Plain,
    names: &Names,
    folded: bool,
    out: &mut MemSink,
) -> bool
    requires { IsMadeByHand (heap_of store.old) }
{
    assert!(rt; store.is_settled());
    assert!(rt; store.is_ready());
    let _root = store.root();
    print(store, plain, names, folded, out).is_ok()
}

/// An empty sink with so much room.
fn sink(rt: &(impl Abort + AllocGlobal), room: usize) -> MemSink {
    MemSink::new(rt.alloc(), room, Rows::new(rt.alloc())).expect(rt, "memory")
}

/// A sink that took the line of what a store holds, in the folded form or in the plain one.
fn printed(
    rt: &(impl Abort + AllocGlobal),
    store: &mut SlabStore,
    plain: &Plain,
    names: &Names,
    folded: bool,
    room: usize,
) -> MemSink
    requires { IsMadeByHand (heap_of store.old) }
{
    let mut out = sink(rt, room);
    assert!(rt; is_printed(rt, store, plain, names, folded, &mut out));
    out
}

/// A sink that took the line of what is made with the rules of a text.
fn line_of(rt: &(impl Abort + AllocGlobal), text: &[u8], steps: &[Step], folded: bool) -> MemSink {
    let mut names = Names::new(rt.alloc());
    let accepted = read_of(rt, &mut names, text);
    let mut store = made(rt, &mut names, steps);
    printed(rt, &mut store, &accepted.plain, &names, folded, 1000)
}

#[test]
fn what_is_made_is_printed(rt: HostRuntime) {
    for (i, (text, steps, line)) in ROWS.iter().enumerate() {
        let out = line_of(&rt, text, steps, false);
        assert_eq!(rt; out.taken(), *line, "row {i}");
    }
    for (i, (steps, line)) in FOLDED.iter().enumerate() {
        let out = line_of(&rt, b"", steps, true);
        assert_eq!(rt; out.taken(), *line, "folded row {i}");
    }
}

#[test]
fn a_full_sink_takes_no_line(rt: HostRuntime) {
    let mut names = Names::new(rt.alloc());
    let accepted = read_of(&rt, &mut names, b"");
    let mut store = new_store(&rt);
    let mut out = sink(&rt, 0);
    let printed = is_printed(&rt, &mut store, &accepted.plain, &names, false, &mut out);
    assert_eq!(rt; printed, false);
    assert_eq!(rt; out.taken().len(), 0);
}

/// A store with so many membranes, each in the one before, an atom in the innermost one and one outside of all, where
/// there is a link.
fn walls(rt: &(impl Abort + AllocGlobal), names: &mut Names, count: usize, link: bool) -> SlabStore
    ensures { IsMadeByHand (heap_of result) }
{
    let mut store = new_store(rt);
    for outer in 0..count {
        let _membrane = add_membrane(rt, &mut store, outer);
    }
    if link {
        make(rt, &mut store, names, Atom(0, b"a", 1));
        make(rt, &mut store, names, Atom(count, b"b", 1));
        make(rt, &mut store, names, Join(0, 0, 1, 0));
    }
    store
}

/// Pieces that are written so often, one behind the other.
fn repeated(rt: &(impl Abort + AllocGlobal), pieces: &[(usize, &[u8])]) -> Vec<u8> {
    let mut line = Vec::new(rt.alloc());
    for (times, piece) in pieces {
        for _ in 0..*times {
            line.extend_from_slice(*piece).expect(rt, "memory");
        }
    }
    line
}

#[test]
fn walls_are_printed(rt: HostRuntime) {
    let rows: [(usize, bool, &[u8], &[u8]); 3] = [
        (3, true, b"a(L0). ", b"b(L0)"),
        (1_000, true, b"a(L0). ", b"b(L0)"),
        (100_000, false, b"", b""),
    ];
    for (count, link, front, inside) in rows {
        let mut names = Names::new(rt.alloc());
        let accepted = read_of(&rt, &mut names, b"");
        let mut store = walls(&rt, &mut names, count, link);
        let out = printed(&rt, &mut store, &accepted.plain, &names, false, 300_000);
        let wanted: [(usize, &[u8]); 5] = [
            (1, front),
            (count, b"{"),
            (1, inside),
            (count, b"}"),
            (1, b".\n"),
        ];
        let line = repeated(&rt, wanted.as_slice());
        assert!(rt; out.taken() == line.as_slice(), "{count} walls");
    }
}

/// A store with an atom, and so many more, each in an argument of the one before.
fn terms(rt: &(impl Abort + AllocGlobal), names: &mut Names, count: usize) -> SlabStore
    ensures { IsMadeByHand (heap_of result) }
{
    let mut store = new_store(rt);
    make(rt, &mut store, names, Atom(0, b"a", 1));
    for outer in 0..count {
        let arity = if outer + 1 == count { 1 } else { 2 };
        make(rt, &mut store, names, Atom(0, b"b", arity));
        make(rt, &mut store, names, Join(outer, 0, outer + 1, arity - 1));
    }
    store
}

#[test]
fn deep_terms_are_folded(rt: HostRuntime) {
    let count = 100_000;
    let mut names = Names::new(rt.alloc());
    let accepted = read_of(&rt, &mut names, b"");
    let mut store = terms(&rt, &mut names, count);
    let out = printed(&rt, &mut store, &accepted.plain, &names, true, 1_000_000);
    let wanted: [(usize, &[u8]); 4] = [(1, b"a"), (count, b"(b"), (count, b")"), (1, b".\n")];
    let line = repeated(&rt, wanted.as_slice());
    assert!(rt; out.taken() == line.as_slice(), "{count} terms");
}
