//! Parts of stores that are made by hand: whether they are ground, their sizes, copies of them, whether two are equal, and
//! what is left where one is taken.
ghost use Rattle.std.specs.Prelude.{◌≡◌, ◌<◌, None};
ghost use Rattle.lmn_store_heap.specs.Heap.{IsAtom, PortsUnmarked, arity_of};
ghost use Rattle.lmn_ground.specs.Spread.{IsGroundIn, IsWhole};
ghost use Rattle.lmn_test_rows.specs.Made.{IsMadeByHand};
ghost use Rattle.lmn_store_slab.specs.Kept.{heap_of};

use crate::making::Step::{Atom, Join, Membrane};
use crate::making::{Step, add_atom, add_membrane, join, made, new_store};
use lmn_base::{Functor, Label, Names};
use lmn_ground::{Found, PartList, copy, equal, is_ground, size_of, take_part};
use lmn_store_slab::SlabStore;
use lmn_store_trait::LinkStore;
use std::alloc::AllocGlobal;
use std::process::Abort;

/// The prover looks for no answer here, where it would at an `assert!` in a long test.
fn holds(rt: &impl Abort, is_so: bool) {
    assert!(rt; is_so);
}

fn functor(name: u32, arity: u8) -> Functor {
    Functor {
        label: Label::Name(name),
        arity,
    }
}

/// A store that is made by hand has no marks.
fn ports_are_unmarked(store: &SlabStore)
    requires { IsMadeByHand (heap_of store.now) }
    ensures { PortsUnmarked (heap_of store.now) }
{}

// Calls that keep the mark of each port 0, with their conditions looked up.

/// Places the first atom that waits.
fn place(rt: &impl Abort, store: &mut SlabStore, m: usize) -> usize
    requires { PortsUnmarked (heap_of store.old) }
    ensures { PortsUnmarked (heap_of store.new) }
{
    assert!(rt; store.stands(m));
    assert!(rt; store.waits());
    store.place_atom(m)
}

/// Gives an atom the own mark 1.
fn match_atom(rt: &impl Abort, store: &mut SlabStore, a: usize)
    requires { PortsUnmarked (heap_of store.old) }
    ensures { PortsUnmarked (heap_of store.new) }
{
    assert!(rt; store.has_atom(a));
    let _root = store.root();
    let own = store.functor(a).arity;
    store.set_mark(a, own, 1);
}

/// Room for the walks: for more atoms than the small parts have, and for fewer than the lists.
fn room(rt: &(impl Abort + AllocGlobal)) -> Found<usize> {
    Found::with_room(rt.alloc(), 100).expect(rt, "memory")
}

/// A list that says nothing.
fn no_list(rt: &(impl Abort + AllocGlobal)) -> PartList<usize> {
    PartList::with_room(rt.alloc(), 100).expect(rt, "memory")
}

fn grounds(
    rt: &(impl Abort + AllocGlobal),
    store: &mut SlabStore,
    root: (usize, u8),
    m: usize,
) -> bool
    requires { PortsUnmarked (heap_of store.old) }
    ensures { PortsUnmarked (heap_of store.new) }
{
    assert!(rt; store.has_port(root.0, root.1));
    assert!(rt; store.has_mem(m));
    let mut list = no_list(rt);
    is_ground(store, root, m, &mut list)
}

/// A part that is ground in a membrane.
fn part(rt: &(impl Abort + AllocGlobal), store: &mut SlabStore, root: (usize, u8), m: usize)
    requires { PortsUnmarked (heap_of store.old) }
    ensures same { heap_of store.new ≡ heap_of store.old }
    ensures clean { PortsUnmarked (heap_of store.new) }
    ensures atom { IsAtom (heap_of store.new) root.0 }
    ensures port { root.1 < arity_of (heap_of store.new) root.0 }
    ensures ground { IsGroundIn (heap_of store.new) (root.0, root.1) m }
    ensures whole { IsWhole (heap_of store.new) (root.0, root.1) None }
{
    let _root = store.root();
    assert!(rt; store.has_port(root.0, root.1));
    assert!(rt; store.has_mem(m));
    let mut list = no_list(rt);
    let ground = is_ground(store, root, m, &mut list);
    assert!(rt; ground);
}

fn size(rt: &(impl Abort + AllocGlobal), store: &mut SlabStore, root: (usize, u8), m: usize) -> u64
    requires { PortsUnmarked (heap_of store.old) }
    ensures { PortsUnmarked (heap_of store.new) }
{
    part(rt, store, root, m);
    let mut trail = room(rt);
    size_of(store, root, &mut trail)
}

/// Whether parts in two membranes are equal.
fn equals(
    rt: &(impl Abort + AllocGlobal),
    store: &mut SlabStore,
    x: (usize, u8),
    m: usize,
    y: (usize, u8),
    n: usize,
) -> bool
    requires { PortsUnmarked (heap_of store.old) }
    ensures { PortsUnmarked (heap_of store.new) }
{
    assert!(rt; m != n);
    part(rt, store, x, m);
    part(rt, store, y, n);
    let mut trail = room(rt);
    equal(store, x, y, &mut trail)
}

/// The copy of a part whose root has no partner, and the root itself where it has one.
fn copied(
    rt: &(impl Abort + AllocGlobal),
    store: &mut SlabStore,
    root: (usize, u8),
    m: usize,
) -> (usize, u8)
    requires { PortsUnmarked (heap_of store.old) }
    ensures { PortsUnmarked (heap_of store.new) }
{
    part(rt, store, root, m);
    match store.partner(root.0, root.1) {
        Some(_) => root,
        None => copy(rt.alloc(), store, root).expect(rt, "memory"),
    }
}

fn take(rt: &(impl Abort + AllocGlobal), store: &mut SlabStore, root: (usize, u8), m: usize)
    requires { PortsUnmarked (heap_of store.old) }
    ensures { PortsUnmarked (heap_of store.new) }
{
    part(rt, store, root, m);
    let mut trail = room(rt);
    take_part(store, root, &mut trail);
}

fn count(rt: &impl Abort, store: &SlabStore, m: usize) -> u64 {
    assert!(rt; store.has_mem(m));
    store.atoms(m)
}

/// The atom behind one in its list, if it has the functor.
fn behind(rt: &impl Abort, store: &SlabStore, at: Option<usize>, f: Functor) -> Option<usize> {
    let a = at?;
    assert!(rt; store.has_atom(a));
    assert!(rt; store.home(a).is_some());
    let b = store.next_atom(a)?;
    assert!(rt; store.has_atom(b));
    if store.functor(b) == f { Some(b) } else { None }
}

/// A list of so many cells, each of which holds an atom of its own. Answers the root: port 2 of the first cell.
fn list(rt: &(impl Abort + AllocGlobal), store: &mut SlabStore, m: usize, cells: u32) -> (usize, u8)
    requires { IsMadeByHand (heap_of store.old) }
    ensures { IsMadeByHand (heap_of store.new) }
{
    let mut after = add_atom(rt, store, m, functor(6, 1));
    let mut port = 0;
    for _ in 0..cells {
        let cell = add_atom(rt, store, m, functor(4, 3));
        let held = add_atom(rt, store, m, functor(5, 1));
        join(rt, store, cell, 0, held, 0);
        join(rt, store, cell, 1, after, port);
        after = cell;
        port = 2;
    }
    (after, port)
}

/// A list is measured, compared, copied and taken. The copy's atoms come in order: cell, held atom, cell, .. and the end last.
fn run(rt: &(impl Abort + AllocGlobal), cells: u32) {
    let mut store = new_store(rt);
    let m = add_membrane(rt, &mut store, 0);
    let n = add_membrane(rt, &mut store, 0);
    let x = list(rt, &mut store, m, cells);
    ports_are_unmarked(&store);
    let items = 2 * u64::from(cells) + 1;
    holds(rt, size(rt, &mut store, x, m) == items);
    let y = copied(rt, &mut store, x, m);
    let first = place(rt, &mut store, n);
    holds(rt, first == y.0);
    for _ in 1..items {
        place(rt, &mut store, n);
    }
    holds(rt, equals(rt, &mut store, x, m, y, n));
    take(rt, &mut store, x, m);
    holds(rt, count(rt, &store, m) == 0);
    holds(rt, count(rt, &store, n) == items);
    holds(rt, alternates(rt, &store, first, cells));
}

/// Whether the atoms behind a first cell are, in their order, what it holds, the other cells with what they hold, and the
/// end of the list.
fn alternates(rt: &impl Abort, store: &SlabStore, first: usize, cells: u32) -> bool {
    let mut at = Some(first);
    for k in 1..cells {
        at = behind(
            rt,
            store,
            behind(rt, store, at, functor(5, 1)),
            functor(4, 3),
        );
    }
    behind(
        rt,
        store,
        behind(rt, store, at, functor(5, 1)),
        functor(6, 1),
    )
    .is_some()
}

/// A list of 1,000 cells, and a part of 1,000,001 atoms in a deep chain.
#[test]
fn lists(rt: HostRuntime) {
    run(&rt, 1000);
    run(&rt, 500_000);
}

/// The port to which a port is joined.
type Partner = Option<(usize, u8)>;

/// Whether a port is joined so, and not marked.
fn port_is(rt: &impl Abort, store: &SlabStore, a: usize, i: u8, wanted: Partner) -> bool {
    assert!(rt; store.has_port(a, i));
    store.partner(a, i) == wanted && store.mark(a, i) == 0
}

fn own_mark(rt: &impl Abort, store: &SlabStore, a: usize) -> u64 {
    assert!(rt; store.has_atom(a));
    let _root = store.root();
    let own = store.functor(a).arity;
    store.mark(a, own)
}

/// Whether an atom has this name, home and own mark, and its ports are joined so, and not marked.
fn atom_is(
    rt: &impl Abort,
    store: &SlabStore,
    a: usize,
    name: u32,
    home: Option<usize>,
    ports: &[Partner],
    own: u64,
) -> bool {
    assert!(rt; store.has_atom(a));
    let found = store.functor(a);
    let mut is_so = found.label == Label::Name(name) && store.home(a) == home;
    is_so = is_so && usize::from(found.arity) == ports.len() && own_mark(rt, store, a) == own;
    for i in 0..found.arity {
        if let Some(wanted) = ports.get(usize::from(i)) {
            is_so = is_so && port_is(rt, store, a, i, *wanted);
        }
    }
    is_so
}

/// An atom: its name, its home, what its ports are joined to, and its own mark.
type Line = (u32, Option<usize>, &'static [Partner], u64);

/// Whether the atoms from a first one on are as they are written out.
fn are(rt: &impl Abort, store: &SlabStore, first: usize, lines: &[Line]) -> bool {
    let mut at = first;
    let mut is_so = true;
    for (name, home, ports, own) in lines {
        is_so = is_so && atom_is(rt, store, at, *name, *home, *ports, *own);
        at = at.saturating_add(1);
    }
    is_so
}

/// What is done to a store, and what is then to be seen of it. A part is named by its root and the membrane in which it is to
/// be ground.
#[derive(Clone, Copy)]
enum Act {
    /// Whether a part is ground in a membrane.
    IsGround((usize, u8), usize, bool),
    /// The size of a part.
    HasSize((usize, u8), usize, u64),
    /// Whether parts in two membranes are equal.
    AreEqual((usize, u8), usize, (usize, u8), usize, bool),
    /// A part is copied. The root of the copy.
    Copies((usize, u8), usize, (usize, u8)),
    /// A part is taken.
    Takes((usize, u8), usize),
    /// An atom is matched.
    Matches(usize),
    /// The first atom that waits is placed in a membrane. Its number.
    Places(usize, usize),
    /// How many atoms a membrane has.
    HasAtoms(usize, u64),
    /// The atoms from a first one on are as they are written out.
    Stand(usize, &'static [Line]),
    /// A list of so many cells stands from an atom on, with this home.
    IsList(usize, u32, Option<usize>),
    /// So does its copy, which waits.
    IsCopy(usize, u32),
}

use Act::{
    AreEqual, Copies, HasAtoms, HasSize, IsCopy, IsGround, IsList, Matches, Places, Stand, Takes,
};

/// Does it, and answers whether that is seen.
fn is_seen(rt: &(impl Abort + AllocGlobal), store: &mut SlabStore, act: Act) -> bool
    requires { PortsUnmarked (heap_of store.old) }
    ensures { PortsUnmarked (heap_of store.new) }
{
    match act {
        IsGround(root, m, wanted) => grounds(rt, store, root, m) == wanted,
        HasSize(root, m, wanted) => size(rt, store, root, m) == wanted,
        AreEqual(x, m, y, n, wanted) => equals(rt, store, x, m, y, n) == wanted,
        Copies(root, m, wanted) => copied(rt, store, root, m) == wanted,
        Takes(root, m) => {
            take(rt, store, root, m);
            true
        }
        Matches(a) => {
            match_atom(rt, store, a);
            true
        }
        Places(m, wanted) => place(rt, store, m) == wanted,
        HasAtoms(m, wanted) => count(rt, store, m) == wanted,
        Stand(first, lines) => are(rt, store, first, lines),
        IsList(first, cells, home) => is_list(rt, store, first, cells, home),
        IsCopy(first, cells) => is_copy(rt, store, first, cells),
    }
}

/// Does one after the other, and looks each time at what is to be seen.
fn act_all(rt: &(impl Abort + AllocGlobal), store: SlabStore, acts: &[Act])
    requires { IsMadeByHand (heap_of store) }
{
    let mut store = store;
    ports_are_unmarked(&store);
    for act in acts {
        holds(rt, is_seen(rt, &mut store, *act));
    }
}

/// Two atoms of membrane 1 that are joined in order.
const PAIR: &[Line] = &[
    (4, Some(1), &[None, Some((1, 0)), Some((1, 1))], 0),
    (5, Some(1), &[Some((0, 1)), Some((0, 2))], 0),
];

/// Two of membrane 2 that are joined crosswise.
const CROSSED: &[Line] = &[
    (4, Some(2), &[None, Some((3, 1)), Some((3, 0))], 0),
    (5, Some(2), &[Some((2, 2)), Some((2, 1))], 0),
];

/// These where they are taken.
const TAKEN: &[Line] = &[
    (4, None, &[None, Some((3, 1)), Some((3, 0))], 0),
    (5, None, &[Some((2, 2)), Some((2, 1))], 0),
];

/// A copy of the first two, which waits.
const COPIED: &[Line] = &[
    (4, None, &[None, Some((5, 0)), Some((5, 1))], 0),
    (5, None, &[Some((4, 1)), Some((4, 2))], 0),
];

/// A pair in membrane 2 that is joined crosswise, and its copy in membrane 1.
const CYCLES: &[Line] = &[
    (4, Some(2), &[None, Some((5, 1)), Some((5, 0))], 0),
    (5, Some(2), &[Some((4, 2)), Some((4, 1))], 0),
    (4, Some(1), &[None, Some((7, 1)), Some((7, 0))], 0),
    (5, Some(1), &[Some((6, 2)), Some((6, 1))], 0),
];

/// A head; `back`, to which two links of the head lead; `near`, a link of which goes through a wall to `far`; and `lone`, a
/// part of one atom in the membrane of `far`.
const SCENE: &[Line] = &[
    (4, Some(0), &[Some((1, 0)), Some((1, 1))], 0),
    (5, Some(0), &[Some((0, 0)), Some((0, 1))], 0),
    (5, Some(0), &[None, Some((3, 0))], 0),
    (6, Some(1), &[Some((2, 1))], 0),
    (6, Some(1), &[None], 0),
];

/// The same where the head is matched.
const MATCHED: &[Line] = &[
    (4, Some(0), &[Some((1, 0)), Some((1, 1))], 1),
    (5, Some(0), &[Some((0, 0)), Some((0, 1))], 0),
    (5, Some(0), &[None, Some((3, 0))], 0),
    (6, Some(1), &[Some((2, 1))], 0),
    (6, Some(1), &[None], 0),
];

/// The same where `far` is taken.
const LEFT: &[Line] = &[
    (4, Some(0), &[Some((1, 0)), Some((1, 1))], 1),
    (5, Some(0), &[Some((0, 0)), Some((0, 1))], 0),
    (5, Some(0), &[None, Some((3, 0))], 0),
    (6, None, &[Some((2, 1))], 0),
    (6, Some(1), &[None], 0),
];

/// A copy of `lone`, which waits.
const LONE: &[Line] = &[(6, None, &[None], 0)];

/// What is made, and what is done to it.
type Row = (&'static [Step], &'static [Act]);

const ROWS: &[Row] = &[
    // Each call leaves the rest of the heap as it is.
    (
        &[
            Membrane(0),
            Membrane(0),
            Atom(1, b"a", 3),
            Atom(1, b"b", 2),
            Join(0, 1, 1, 0),
            Join(0, 2, 1, 1),
            Atom(2, b"a", 3),
            Atom(2, b"b", 2),
            Join(2, 1, 3, 1),
            Join(2, 2, 3, 0),
        ],
        &[
            Stand(0, PAIR),
            Stand(2, CROSSED),
            IsGround((0, 0), 1, true),
            Stand(0, PAIR),
            Stand(2, CROSSED),
            HasSize((0, 0), 1, 2),
            Stand(0, PAIR),
            Stand(2, CROSSED),
            AreEqual((0, 0), 1, (2, 0), 2, false),
            Stand(0, PAIR),
            Stand(2, CROSSED),
            Copies((0, 0), 1, (4, 0)),
            Stand(0, PAIR),
            Stand(2, CROSSED),
            Stand(4, COPIED),
            Takes((2, 0), 2),
            Stand(0, PAIR),
            Stand(2, TAKEN),
            Stand(4, COPIED),
        ],
    ),
    // Cycles: equal ones, and ones that differ in the ports of one link. A copy is joined as the original.
    (
        &[
            Membrane(0),
            Membrane(0),
            Atom(1, b"a", 3),
            Atom(1, b"b", 2),
            Join(0, 1, 1, 0),
            Join(0, 2, 1, 1),
            Atom(2, b"a", 3),
            Atom(2, b"b", 2),
            Join(2, 1, 3, 0),
            Join(2, 2, 3, 1),
            Atom(2, b"a", 3),
            Atom(2, b"b", 2),
            Join(4, 1, 5, 1),
            Join(4, 2, 5, 0),
        ],
        &[
            AreEqual((0, 0), 1, (2, 0), 2, true),
            AreEqual((0, 0), 1, (4, 0), 2, false),
            Copies((4, 0), 2, (6, 0)),
            Places(1, 6),
            Places(1, 7),
            AreEqual((6, 0), 1, (4, 0), 2, true),
            Stand(4, CYCLES),
        ],
    ),
    // A part of one atom; and what isn't ground: a part that leads back to the head by a second link, and one that goes
    // through a wall.
    (
        &[
            Membrane(0),
            Atom(0, b"a", 2),
            Atom(0, b"b", 2),
            Atom(0, b"b", 2),
            Atom(1, b"c", 1),
            Atom(1, b"c", 1),
            Join(0, 0, 1, 0),
            Join(0, 1, 1, 1),
            Join(2, 1, 3, 0),
        ],
        &[
            Stand(0, SCENE),
            IsGround((1, 0), 0, true),
            Stand(0, SCENE),
            Matches(0),
            Stand(0, MATCHED),
            IsGround((1, 0), 0, false),
            Stand(0, MATCHED),
            IsGround((2, 0), 0, false),
            Stand(0, MATCHED),
            IsGround((2, 0), 1, false),
            Stand(0, MATCHED),
            HasSize((3, 0), 1, 1),
            Stand(0, MATCHED),
            Takes((3, 0), 1),
            Stand(0, LEFT),
            Copies((4, 0), 1, (5, 0)),
            Stand(0, LEFT),
            Stand(5, LONE),
            HasAtoms(1, 1),
        ],
    ),
];

/// The whole heap before and after each call.
#[test]
fn heaps_are_written_out(rt: HostRuntime) {
    for (steps, acts) in ROWS {
        let mut names = Names::new(rt.alloc());
        act_all(&rt, made(&rt, &mut names, *steps), *acts);
    }
}

/// Whether a list stands as `list` makes it: the end is the first atom, then come the cells, each before what it holds.
fn is_list(
    rt: &impl Abort,
    store: &SlabStore,
    first: usize,
    cells: u32,
    home: Option<usize>,
) -> bool {
    let mut cell = first.saturating_add(1);
    let mut rest = Some((first, 0));
    let mut is_so = atom_is(rt, store, first, 6, home, &[Some((cell, 1))], 0);
    for k in 0..cells {
        let held = cell.saturating_add(1);
        let next = held.saturating_add(1);
        let root = if k + 1 == cells {
            None
        } else {
            Some((next, 1))
        };
        is_so = is_so && atom_is(rt, store, cell, 4, home, &[Some((held, 0)), rest, root], 0);
        is_so = is_so && atom_is(rt, store, held, 5, home, &[Some((cell, 0))], 0);
        rest = Some((cell, 2));
        cell = next;
    }
    is_so
}

/// Whether its copy, which waits, stands from an atom on: each cell, then what it holds, from the root on, and the end last.
fn is_copy(rt: &impl Abort, store: &SlabStore, first: usize, cells: u32) -> bool {
    let mut cell = first;
    let mut root = None;
    let mut is_so = true;
    for k in 0..cells {
        let held = cell.saturating_add(1);
        let next = held.saturating_add(1);
        let rest = if k + 1 == cells {
            Some((next, 0))
        } else {
            Some((next, 2))
        };
        is_so = is_so && atom_is(rt, store, cell, 4, None, &[Some((held, 0)), rest, root], 0);
        is_so = is_so && atom_is(rt, store, held, 5, None, &[Some((cell, 0))], 0);
        root = Some((cell, 1));
        cell = next;
    }
    is_so && atom_is(rt, store, cell, 6, None, &[root], 0)
}

/// What is done where two lists of 1,000 cells stand in membranes 1 and 2. Their roots are the ports 2 of their last cells.
const LISTS: &[Act] = &[
    IsList(0, 1000, Some(1)),
    IsList(2001, 1000, Some(2)),
    AreEqual((1999, 2), 1, (4000, 2), 2, true),
    IsList(0, 1000, Some(1)),
    IsList(2001, 1000, Some(2)),
    IsGround((1999, 2), 1, true),
    IsList(0, 1000, Some(1)),
    HasSize((1999, 2), 1, 2001),
    IsList(0, 1000, Some(1)),
    Copies((1999, 2), 1, (4002, 2)),
    IsList(0, 1000, Some(1)),
    IsCopy(4002, 1000),
    Takes((1999, 2), 1),
    IsList(0, 1000, None),
    IsList(2001, 1000, Some(2)),
    IsCopy(4002, 1000),
];

/// The whole heap before and after each call.
#[test]
fn lists_are_written_out(rt: HostRuntime) {
    let mut store = new_store(&rt);
    let m = add_membrane(&rt, &mut store, 0);
    let n = add_membrane(&rt, &mut store, 0);
    let _first = list(&rt, &mut store, m, 1000);
    let _second = list(&rt, &mut store, n, 1000);
    act_all(&rt, store, LISTS);
}
