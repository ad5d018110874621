//! A process that is made in a store and fired by its calls: what a rule takes, moves and makes, and the whole state before
//! and after.
use crate::written::state;
use lmn_base::{Functor, Label, NoMemory};
use lmn_store_slab::SlabStore;
use lmn_store_trait::LinkStore;
use std::alloc::AllocGlobal;
use std::process::Abort;

// Marks of ports are below this.
const SMALL: u64 = 1 << 56;

/// A call that changes a store, on items by their numbers.
#[derive(Clone, Copy)]
enum Step {
    MakeAtom(u32, u8),
    MakeMem,
    PlaceAtom(usize),
    PlaceMem(usize),
    TakeAtom(usize),
    TakeMem(usize),
    MoveAll(usize),
    Join(usize, u8, usize, u8),
    ReserveRules(usize, u64),
    AddRule(usize, u32),
    CopyRules(usize, usize),
    SetMark(usize, u8, u64),
    SetMemMark(usize, u64),
    Discard,
    Finish,
}

// Calls with their conditions looked up. What is made and what moves goes to the root.

fn make(
    rt: &(impl Abort + AllocGlobal),
    store: &mut SlabStore,
    step: Step,
) -> Result<(), NoMemory> {
    match step {
        Step::MakeAtom(name, arity) => {
            let label = Label::Name(name);
            store.make_atom(rt.alloc(), Functor { label, arity })?;
        }
        Step::MakeMem => {
            store.make_mem(rt.alloc())?;
        }
        Step::ReserveRules(m, n) => {
            assert!(rt; store.has_mem(m));
            store.reserve_rules(rt.alloc(), m, n)?;
        }
        _ => {}
    }
    Ok(())
}

fn place(rt: &impl Abort, store: &mut SlabStore, step: Step) {
    match step {
        Step::PlaceAtom(m) => {
            assert!(rt; store.stands(m));
            assert!(rt; store.waits());
            store.place_atom(m);
        }
        Step::PlaceMem(m) => {
            assert!(rt; store.stands(m));
            assert!(rt; store.mem_waits());
            store.place_mem(m);
        }
        _ => {}
    }
}

fn take(rt: &impl Abort, store: &mut SlabStore, step: Step) {
    match step {
        Step::TakeAtom(a) => {
            assert!(rt; store.has_atom(a));
            assert!(rt; store.home(a).is_some());
            store.take_atom(a);
        }
        Step::TakeMem(m) => {
            assert!(rt; store.has_mem(m));
            assert!(rt; store.parent(m).is_some());
            store.take_mem(m);
        }
        Step::MoveAll(m) => {
            assert!(rt; store.is_taken(m));
            assert!(rt; store.stands(0));
            assert!(rt; store.is_outside(0, m));
            store.move_all(m, 0);
        }
        _ => {}
    }
}

fn join(rt: &impl Abort, store: &mut SlabStore, step: Step) {
    if let Step::Join(a, i, b, j) = step {
        assert!(rt; a != b);
        assert!(rt; store.has_port(a, i));
        assert!(rt; store.has_port(b, j));
        store.join(a, i, b, j);
    }
}

fn add_rule(rt: &impl Abort, store: &mut SlabStore, step: Step) {
    match step {
        Step::AddRule(m, k) => {
            assert!(rt; store.has_mem(m));
            assert!(rt; store.spare(m) >= 1);
            store.add_rule(m, k);
        }
        Step::CopyRules(m, n) => {
            assert!(rt; m != n);
            assert!(rt; store.has_mem(m));
            assert!(rt; store.has_mem(n));
            assert!(rt; store.rules(m) <= store.spare(n));
            store.copy_rules(m, n);
        }
        _ => {}
    }
}

fn mark(rt: &impl Abort, store: &mut SlabStore, step: Step) {
    match step {
        Step::SetMark(a, slot, v) => {
            assert!(rt; store.has_port(a, slot));
            assert!(rt; v < SMALL);
            store.set_mark(a, slot, v);
        }
        Step::SetMemMark(m, v) => {
            assert!(rt; store.has_mem(m));
            store.set_mem_mark(m, v);
        }
        _ => {}
    }
}

fn free(rt: &impl Abort, store: &mut SlabStore, step: Step) {
    match step {
        Step::Discard => {
            assert!(rt; store.is_alone());
            store.discard();
        }
        Step::Finish => {
            assert!(rt; store.is_ready());
            store.finish();
        }
        _ => {}
    }
}

fn run(
    rt: &(impl Abort + AllocGlobal),
    store: &mut SlabStore,
    steps: &[Step],
) -> Result<(), NoMemory> {
    for step in steps {
        make(rt, store, *step)?;
        place(rt, store, *step);
        take(rt, store, *step);
        join(rt, store, *step);
        add_rule(rt, store, *step);
        mark(rt, store, *step);
        free(rt, store, *step);
    }
    Ok(())
}

/// What is done, and the state then.
type Row = (&'static [Step], &'static str);

/// `{a(X), b}, c(X)`, where the membrane has two rules, becomes `a(X), b, {c(X)}`, where it has them too.
const ROWS: &[Row] = &[
    (
        &[
            Step::MakeMem,
            Step::MakeAtom(8, 1),
            Step::MakeAtom(9, 0),
            Step::MakeAtom(10, 1),
            Step::PlaceMem(0),
            Step::PlaceAtom(1),
            Step::PlaceAtom(1),
            Step::PlaceAtom(0),
            Step::Join(0, 0, 2, 0),
            Step::ReserveRules(1, 2),
            Step::AddRule(1, 7),
            Step::AddRule(1, 8),
            Step::SetMark(0, 0, 5),
            Step::SetMemMark(1, 6),
            Step::MakeMem,
            Step::Discard,
        ],
        "0: 2 / 1 / mark 0; 1: 0 1 / / 7 8 mark 6; 0: 2.0 5 own 0; 1: own 0; 2: 0.0 0 own 0; ",
    ),
    (
        &[
            Step::MakeMem,
            Step::MakeAtom(10, 1),
            Step::TakeAtom(2),
            Step::TakeMem(1),
            Step::PlaceMem(0),
            Step::PlaceAtom(2),
            Step::ReserveRules(2, 2),
            Step::MoveAll(1),
            Step::CopyRules(1, 2),
            Step::Join(3, 0, 0, 0),
            Step::Finish,
        ],
        "0: 0 1 / 2 / mark 0; 2: 3 / / 7 8 mark 0; 0: 3.0 5 own 0; 1: own 0; 3: 0.0 0 own 0; ",
    ),
];

#[test]
fn what_is_inside_goes_out(rt: HostRuntime) -> Result<(), NoMemory> {
    let mut store = SlabStore::new(rt.alloc())?;
    for (steps, wanted) in ROWS {
        run(&rt, &mut store, *steps)?;
        let found = state(&rt, &store)?;
        assert_eq!(rt; found.as_str(), *wanted);
    }
    assert!(rt; store.is_settled());
    assert_eq!(rt; store.items(), 6);
    Ok(())
}
