//! Texts that are run: by an engine alone, turn by turn, and by `drive`.
ghost use Rattle.std.specs.Prelude.{◌≡◌, ◌<◌};
ghost use Rattle.lmn_order.specs.Answers.{AnswersBelow};
ghost use Rattle.lmn_schedule.specs.Held.{CanBeLoaded, EngineCanTurn};
ghost use Rattle.lmn_store_slab.specs.Kept.{heap_of};

use crate::reading::read_of;
use lmn_app_drive::{RunEnd, RunOptions, drive};
use lmn_app_reading::Accepted;
use lmn_base::{Names, Rows};
use lmn_io::MemSink;
use lmn_machine::Steps;
use lmn_order::{Chooser, Order, follow};
use lmn_schedule::{Engine, LoadFault, Turn};
use lmn_schedule_loading::loading_settles;
use lmn_store_slab::SlabStore;
use std::alloc::AllocGlobal;
use std::marker::Brand;
use std::process::Abort;
use std::sync::ledger::{Blank, Ledger};

/// Which membrane is asked first.
#[derive(Clone, Copy)]
enum Asked {
    By(Order),
    /// After so many commits the one at that place of a list of numbers.
    Listed(&'static [u64]),
}

impl Asked {
    fn choose(self, t: u64, m: u64) -> u64
        requires { 0 < m }
        ensures { result < m }
    {
        match self {
            Asked::By(order) => order.choose(t, m),
            Asked::Listed(numbers) => follow(numbers, t, m),
        }
    }
}

/// How an engine ran.
#[derive(Clone, Copy, Debug, PartialEq, Eq)]
struct Ran {
    /// How many items were loaded.
    loaded: u64,
    commits: u64,
    /// How many items are left.
    left: u64,
    end: RunEnd,
}

/// A text, how it is run, and what comes of it.
#[derive(Clone, Copy)]
struct Row {
    text: &'static [u8],
    asked: Asked,
    trace: bool,
    budget: u64,
    size: u64,
    ran: Ran,
    lines: &'static [u8],
}

/// The most commits, and the most items, where nothing else is said.
const BUDGET: u64 = 1_000_000;

const SIZE: u64 = 16_777_216;

/// A text that is run by the defaults until no rule has a match: how many items are loaded, how many commits there are, how
/// many items are left, and the lines.
type Default = (&'static [u8], u64, u64, u64, &'static [u8]);

const DEFAULTS: &[Default] = &[
    (
        b"a. a. a, a :- b.",
        3,
        1,
        2,
        b"b. (a, a :- b).\n% irreducible after 1\n",
    ),
    (b"", 0, 0, 0, b"\n% irreducible after 0\n"),
    (
        b"a(X), b(X). a(X), b(Y) :- c(X,Y).",
        3,
        1,
        2,
        b"c(L0, L0). (a(L0), b(L1) :- c(L0, L1)).\n% irreducible after 1\n",
    ),
    (
        b"a(X,X). a(X,Y) :- X=Y.",
        2,
        1,
        1,
        b"(a(L0, L1) :- L0 = L1).\n% irreducible after 1\n",
    ),
    (
        b"{a(X), b(X)}. {a(X), b(Y)} :- c(X,Y).",
        4,
        0,
        4,
        b"{a(L0), b(L0)}. ({a(L0), b(L1)} :- c(L0, L1)).\n% irreducible after 0\n",
    ),
    (
        b"{a(X)}, {b(X)}. {a(X)}, {b(Y)} :- c(X,Y).",
        5,
        1,
        2,
        b"c(L0, L0). ({a(L0)}, {b(L1)} :- c(L0, L1)).\n% irreducible after 1\n",
    ),
    (
        b"{X=Y}, a(X), b(Y).",
        3,
        0,
        3,
        b"a(L0). b(L0). {}.\n% irreducible after 0\n",
    ),
    (
        b"{a. b. {c}}. {a, $p} :- $p.",
        6,
        1,
        4,
        b"b. {c}. ({a, $p} :- $p).\n% irreducible after 1\n",
    ),
    (
        b"{a. b :- c.}. {a, $p} :- {$p}, d.",
        4,
        0,
        4,
        b"{a, (b :- c)}. ({a, $p} :- d, {$p}).\n% irreducible after 0\n",
    ),
    (
        b"p(3), p(4). p($x), p($y) :- $z = $x + $y | p($z).",
        5,
        1,
        3,
        b"p(L0). 7(L0). (p(L0), $x[L0], p(L1), $y[L1] :- $z = $x + $y | p(L2), $z[L2]).\n% irreducible after 1\n",
    ),
    (
        b"p(9223372036854775807), p(1). p($x), p($y) :- $z = $x + $y | p($z).",
        5,
        0,
        5,
        b"p(L0). 9223372036854775807(L0). p(L1). 1(L1). (p(L0), $x[L0], p(L1), $y[L1] :- $z = $x + $y | p(L2), $z[L2]).\n% irreducible after 0\n",
    ),
    (
        b"{d(X). e(Y). d(Z), e(Z) :- f.}, a(X), b(Y). a(X), b(Y) :- X=Y.",
        7,
        2,
        4,
        b"{f, (d(L0), e(L0) :- f)}. (a(L0), b(L1) :- L0 = L1).\n% irreducible after 2\n",
    ),
    (
        b"{a. b. b :- c.}. {a, $p, @r} :- {$p, @r, @r}.",
        5,
        2,
        5,
        b"{c, (b :- c), (b :- c)}. ({a, $p, @r} :- {$p, @r, @r}).\n% irreducible after 2\n",
    ),
    // Where 2 items are allowed it isn't loaded.
    (b"a. b. c.", 3, 0, 3, b"a. b. c.\n% irreducible after 0\n"),
    (b"a. a.", 2, 0, 2, b"a. a.\n% irreducible after 0\n"),
    // A body of two atoms, with a link between them, and a membrane with a rule.
    (
        b"s. s :- a(X), {a(X), (b :- c)}.",
        2,
        1,
        5,
        b"a(L0). {a(L0), (b :- c)}. (s :- a(L0), {a(L0), (b :- c)}).\n% irreducible after 1\n",
    ),
];

const TWO_MEMBRANES: &[u8] = b"{a. a :- b.}. {c. c :- d.}.";

const OPTIONS: &[Row] = &[
    // A membrane that sleeps isn't woken by what fires beside it,
    Row {
        text: b"{x. y :- z.}. a. a :- a.",
        asked: Asked::Listed(&[1, 1, 1, 1, 1]),
        trace: false,
        budget: 5,
        size: SIZE,
        ran: Ran {
            loaded: 5,
            commits: 5,
            left: 5,
            end: RunEnd::Budget,
        },
        lines: b"a. {x, (y :- z)}. (a :- a).\n% budget after 5\n",
    },
    // and is by what joins a link in it otherwise.
    Row {
        text: b"{d(X). e(Y). d(Z), e(Z) :- f.}, a(X), b(Y). a(X), b(Y) :- X=Y.",
        asked: Asked::Listed(&[1, 1, 1]),
        trace: false,
        budget: BUDGET,
        size: SIZE,
        ran: Ran {
            loaded: 7,
            commits: 2,
            left: 4,
            end: RunEnd::Irreducible,
        },
        lines: b"{f, (d(L0), e(L0) :- f)}. (a(L0), b(L1) :- L0 = L1).\n% irreducible after 2\n",
    },
    Row {
        text: b"a. a :- a.",
        asked: Asked::By(Order::First),
        trace: false,
        budget: 5,
        size: SIZE,
        ran: Ran {
            loaded: 2,
            commits: 5,
            left: 2,
            end: RunEnd::Budget,
        },
        lines: b"a. (a :- a).\n% budget after 5\n",
    },
    Row {
        text: b"a. a :- b.",
        asked: Asked::By(Order::First),
        trace: false,
        budget: 1,
        size: SIZE,
        ran: Ran {
            loaded: 2,
            commits: 1,
            left: 2,
            end: RunEnd::Irreducible,
        },
        lines: b"b. (a :- b).\n% irreducible after 1\n",
    },
    Row {
        text: b"a. a :- a, a.",
        asked: Asked::By(Order::First),
        trace: false,
        budget: BUDGET,
        size: 3,
        ran: Ran {
            loaded: 2,
            commits: 1,
            left: 3,
            end: RunEnd::Full,
        },
        lines: b"a. a. (a :- a, a).\n% full after 1\n",
    },
    Row {
        text: TWO_MEMBRANES,
        asked: Asked::By(Order::First),
        trace: true,
        budget: BUDGET,
        size: SIZE,
        ran: Ran {
            loaded: 6,
            commits: 2,
            left: 6,
            end: RunEnd::Irreducible,
        },
        lines: b"{a, (a :- b)}. {c, (c :- d)}.\n{b, (a :- b)}. {c, (c :- d)}.\n{b, (a :- b)}. {d, (c :- d)}.\n% irreducible after 2\n",
    },
    // The second membrane in the root is asked first, and then the first one.
    Row {
        text: TWO_MEMBRANES,
        asked: Asked::Listed(&[2, 1]),
        trace: true,
        budget: BUDGET,
        size: SIZE,
        ran: Ran {
            loaded: 6,
            commits: 2,
            left: 6,
            end: RunEnd::Irreducible,
        },
        lines: b"{a, (a :- b)}. {c, (c :- d)}.\n{a, (a :- b)}. {d, (c :- d)}.\n{b, (a :- b)}. {d, (c :- d)}.\n% irreducible after 2\n",
    },
    Row {
        text: b"{a. a :- a.}. {c. c :- d.}.",
        asked: Asked::By(Order::Turn),
        trace: false,
        budget: 3,
        size: SIZE,
        ran: Ran {
            loaded: 6,
            commits: 3,
            left: 6,
            end: RunEnd::Budget,
        },
        lines: b"{a, (a :- a)}. {d, (c :- d)}.\n% budget after 3\n",
    },
    Row {
        text: TWO_MEMBRANES,
        asked: Asked::By(Order::Seed(0)),
        trace: false,
        budget: 1,
        size: SIZE,
        ran: Ran {
            loaded: 6,
            commits: 1,
            left: 6,
            end: RunEnd::Budget,
        },
        lines: b"{a, (a :- b)}. {d, (c :- d)}.\n% budget after 1\n",
    },
    Row {
        text: b"a. a. a, a :- b.",
        asked: Asked::By(Order::First),
        trace: false,
        budget: 0,
        size: SIZE,
        ran: Ran {
            loaded: 3,
            commits: 0,
            left: 3,
            end: RunEnd::Budget,
        },
        lines: b"a. a. (a, a :- b).\n% budget after 0\n",
    },
];

/// Whether a rule has a match.
fn is_reducible<F: Fn(u64, u64) -> u64, L: Ledger>(
    engine: &mut Engine<'_, SlabStore, F>,
    steps: &mut Steps<L>,
) -> bool
    requires run { EngineCanTurn (heap_of engine.old.machine.store) engine.old.plain.now.rules engine.old.codes engine.old.size }
    requires chooser { AnswersBelow F.pre F.post engine.old.chooser.f }
    ensures run { EngineCanTurn (heap_of engine.new.machine.store) engine.new.plain.now.rules engine.new.codes engine.new.size }
    ensures chooser { AnswersBelow F.pre F.post engine.new.chooser.f }
{
    engine.reducible(steps)
}

/// A turn, which commits or tells that it is full exactly where a rule has a match.
fn turn<F: Fn(u64, u64) -> u64, L: Ledger>(
    rt: &(impl Abort + AllocGlobal),
    engine: &mut Engine<'_, SlabStore, F>,
    steps: &mut Steps<L>,
) -> Turn
    requires run { EngineCanTurn (heap_of engine.old.machine.store) engine.old.plain.now.rules engine.old.codes engine.old.size }
    requires chooser { AnswersBelow F.pre F.post engine.old.chooser.f }
    ensures run { EngineCanTurn (heap_of engine.new.machine.store) engine.new.plain.now.rules engine.new.codes engine.new.size }
    ensures chooser { AnswersBelow F.pre F.post engine.new.chooser.f }
{
    let reducible = is_reducible(engine, steps);
    assert!(rt; engine.commits() < 1_000_000_000);
    let answer = engine.turn(rt.alloc(), steps);
    assert!(rt; reducible != (answer == Turn::Irreducible));
    answer
}

/// Turns until one doesn't commit, or the budget ends.
fn turns<F: Fn(u64, u64) -> u64, L: Ledger>(
    rt: &(impl Abort + AllocGlobal),
    engine: &mut Engine<'_, SlabStore, F>,
    budget: u64,
    steps: &mut Steps<L>,
) -> Turn
    requires run { EngineCanTurn (heap_of engine.old.machine.store) engine.old.plain.now.rules engine.old.codes engine.old.size }
    requires chooser { AnswersBelow F.pre F.post engine.old.chooser.f }
    ensures run { EngineCanTurn (heap_of engine.new.machine.store) engine.new.plain.now.rules engine.new.codes engine.new.size }
    ensures chooser { AnswersBelow F.pre F.post engine.new.chooser.f }
{
    for _ in 0..budget {
        let answer = turn(rt, engine, steps);
        if answer != Turn::Committed {
            return answer;
        }
    }
    Turn::Committed
}

/// How a run ends whose last turn answered so, where a rule has a match or none has.
fn end_of(answer: Turn, reducible: bool) -> RunEnd {
    match answer {
        Turn::Committed => {
            if reducible {
                RunEnd::Budget
            } else {
                RunEnd::Irreducible
            }
        }
        Turn::Irreducible => RunEnd::Irreducible,
        Turn::Full => RunEnd::Full,
        Turn::NoMemory => RunEnd::NoMemory,
    }
}

/// Runs an engine alone.
fn run_alone<L: Ledger>(
    rt: &(impl Abort + AllocGlobal),
    accepted: &Accepted,
    asked: Asked,
    budget: u64,
    size: u64,
    blank: Blank,
) -> Result<Ran, LoadFault>
    requires accepted { CanBeLoaded accepted.now.plain accepted.now.plans }
    requires name { blank.name ≡ L.name }
    requires parts { blank.parts ≡ L.parts }
    requires some { 0 < blank.parts }
{
    loading_settles();
    assert!(rt; size < 1_000_000_000);
    let chooser = Chooser::new(
        |t: u64, m: u64| -> u64
            requires { 0 < m }
            ensures { result < m }
        { asked.choose(t, m) },
    );
    let store = SlabStore::new(rt.alloc()).expect(rt, "memory");
    let mut engine = Engine::load(
        rt.alloc(),
        &accepted.plain,
        accepted.plans.as_slice(),
        store,
        chooser,
        size,
    )?;
    let loaded = engine.items();
    let mut steps = Steps::<L>::new(blank);
    let answer = turns(rt, &mut engine, budget, &mut steps);
    let reducible = is_reducible(&mut engine, &mut steps);
    Ok(Ran {
        loaded,
        commits: engine.commits(),
        left: engine.items(),
        end: end_of(answer, reducible),
    })
}

/// Runs an engine by `drive`.
fn run_driven<L: Ledger>(
    rt: &(impl Abort + AllocGlobal),
    accepted: &Accepted,
    names: &Names,
    row: &Row,
    out: &mut MemSink,
    blank: Blank,
) -> Result<RunEnd, LoadFault>
    requires accepted { CanBeLoaded accepted.now.plain accepted.now.plans }
    requires name { blank.name ≡ L.name }
    requires parts { blank.parts ≡ L.parts }
    requires some { 0 < blank.parts }
{
    loading_settles();
    assert!(rt; row.size < 1_000_000_000);
    assert!(rt; row.budget < 1_000_000_000);
    let asked = row.asked;
    let chooser = Chooser::new(
        |t: u64, m: u64| -> u64
            requires { 0 < m }
            ensures { result < m }
        { asked.choose(t, m) },
    );
    let store = SlabStore::new(rt.alloc()).expect(rt, "memory");
    let mut engine = Engine::load(
        rt.alloc(),
        &accepted.plain,
        accepted.plans.as_slice(),
        store,
        chooser,
        row.size,
    )?;
    let mut steps = Steps::<L>::new(blank);
    let options = RunOptions {
        trace: row.trace,
        folded: false,
        budget: row.budget,
    };
    Ok(drive(
        rt.alloc(),
        &mut engine,
        &accepted.plain,
        names,
        &options,
        out,
        &mut steps,
    ))
}

/// How an engine runs alone.
fn told_of(
    rt: &(impl Abort + AllocGlobal),
    accepted: &Accepted,
    asked: Asked,
    budget: u64,
    size: u64,
) -> Result<Ran, LoadFault>
    requires { CanBeLoaded accepted.now.plain accepted.now.plans }
{
    run_alone::<Brand>(rt, accepted, asked, budget, size, Blank::new(1))
}

/// How a run by `drive` ends.
fn driven(
    rt: &(impl Abort + AllocGlobal),
    accepted: &Accepted,
    names: &Names,
    row: &Row,
    out: &mut MemSink,
) -> Result<RunEnd, LoadFault>
    requires { CanBeLoaded accepted.now.plain accepted.now.plans }
{
    run_driven::<Brand>(rt, accepted, names, row, out, Blank::new(1))
}

/// Runs a text in each way, and loads it where exactly its items are allowed, and where one fewer is.
fn run_row(rt: &(impl Abort + AllocGlobal), row: &Row) {
    let mut names = Names::new(rt.alloc());
    let accepted = read_of(rt, &mut names, row.text);
    let alone = told_of(rt, &accepted, row.asked, row.budget, row.size);
    assert_eq!(rt; alone, Ok(row.ran));
    let items = row.ran.loaded;
    if items > 0 {
        let loaded = told_of(rt, &accepted, row.asked, 0, items);
        assert!(rt; loaded.is_ok());
        let refused = told_of(rt, &accepted, row.asked, 0, items - 1);
        assert_eq!(rt; refused, Err(LoadFault::Size(items)));
    }
    let mut out = MemSink::new(rt.alloc(), 1000, Rows::new(rt.alloc())).expect(rt, "memory");
    let end = driven(rt, &accepted, &names, row, &mut out);
    assert_eq!(rt; end, Ok(row.ran.end));
    assert_eq!(rt; out.taken(), row.lines);
}

#[test]
fn texts_run(rt: HostRuntime) {
    for (text, loaded, commits, left, lines) in DEFAULTS {
        let ran = Ran {
            loaded: *loaded,
            commits: *commits,
            left: *left,
            end: RunEnd::Irreducible,
        };
        let row = Row {
            text: *text,
            asked: Asked::By(Order::First),
            trace: false,
            budget: BUDGET,
            size: SIZE,
            ran,
            lines: *lines,
        };
        run_row(&rt, &row);
    }
    for row in OPTIONS {
        run_row(&rt, row);
    }
}

/// A text of so many atoms.
fn atoms(rt: &(impl Abort + AllocGlobal), count: usize) -> Vec<u8> {
    let mut text = Vec::new(rt.alloc());
    for _ in 0..count {
        text.extend_from_slice(b"a.").expect(rt, "memory");
    }
    text
}

#[test]
fn a_million_atoms_are_loaded(rt: HostRuntime) {
    let mut names = Names::new(rt.alloc());
    let text = atoms(&rt, 1_048_576);
    let accepted = read_of(&rt, &mut names, text.as_slice());
    let asked = Asked::By(Order::First);
    let loaded = told_of(&rt, &accepted, asked, 1, 1_048_576);
    assert_eq!(rt;
        loaded,
        Ok(Ran {
            loaded: 1_048_576,
            commits: 0,
            left: 1_048_576,
            end: RunEnd::Irreducible,
        })
    );
    let refused = told_of(&rt, &accepted, asked, 1, 1_048_575);
    assert_eq!(rt; refused, Err(LoadFault::Size(1_048_576)));
}
