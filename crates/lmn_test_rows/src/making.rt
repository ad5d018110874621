//! Stores that are made by hand, call by call.
ghost use Rattle.std.specs.Prelude.{◌≢◌, IsFalse};
ghost use Rattle.lmn_base.specs.Solids.{connector};
ghost use Rattle.lmn_test_rows.specs.Made.{IsMadeByHand};
ghost use Rattle.lmn_store_slab.specs.Kept.{heap_of};

use lmn_base::{CONNECTOR_NAME, Functor, Label, Names};
use lmn_store_slab::SlabStore;
use lmn_store_trait::LinkStore;
use std::alloc::AllocGlobal;
use std::process::Abort;

/// A call. Atoms and membranes are named by the numbers that a new store gives them: the atoms from 0 on, the membranes
/// from 1 on, and the root is 0.
#[derive(Clone, Copy)]
pub(crate) enum Step {
    /// An atom of a name, with so many ports, in a membrane.
    Atom(usize, &'static [u8], u8),
    /// An atom of an integer, with one port, in a membrane.
    Integer(usize, i64),
    /// A membrane in a membrane.
    Membrane(usize),
    /// A rule in a membrane, by its number in the text.
    Rule(usize, u32),
    /// Two ports are joined.
    Join(usize, u8, usize, u8),
}

use Step::{Atom, Integer, Join, Membrane, Rule};

/// A new store.
pub(crate) fn new_store(rt: &(impl Abort + AllocGlobal)) -> SlabStore
    ensures { IsMadeByHand (heap_of result) }
{
    SlabStore::new(rt.alloc()).expect(rt, "memory")
}

/// Whether a functor is that of a connector.
fn is_connector(functor: Functor) -> bool
    ensures { IsFalse result → functor ≢ connector }
{
    match functor.label {
        Label::Name(name) => name == CONNECTOR_NAME,
        Label::Int(_) => false,
    }
}

/// Places the first atom that waits, and answers its number.
fn place(rt: &impl Abort, store: &mut SlabStore, m: usize) -> usize
    requires { IsMadeByHand (heap_of store.old) }
    ensures { IsMadeByHand (heap_of store.new) }
{
    assert!(rt; store.stands(m));
    assert!(rt; store.waits());
    store.place_atom(m)
}

/// An atom more in a membrane. Answers its number.
pub(crate) fn add_atom(
    rt: &(impl Abort + AllocGlobal),
    store: &mut SlabStore,
    m: usize,
    functor: Functor,
) -> usize
    requires { IsMadeByHand (heap_of store.old) }
    ensures { IsMadeByHand (heap_of store.new) }
{
    assert!(rt; !is_connector(functor));
    store.make_atom(rt.alloc(), functor).expect(rt, "memory");
    place(rt, store, m)
}

/// Places the first membrane that waits, and answers its number. It must be greater than that of the membrane in which it
/// is placed.
fn place_membrane(rt: &impl Abort, store: &mut SlabStore, m: usize) -> usize
    requires { IsMadeByHand (heap_of store.old) }
    ensures { IsMadeByHand (heap_of store.new) }
{
    assert!(rt; store.stands(m));
    assert!(rt; store.mem_waits());
    let placed = store.place_mem(m);
    assert!(rt; m < placed);
    placed
}

/// A membrane more in a membrane. Answers its number.
pub(crate) fn add_membrane(
    rt: &(impl Abort + AllocGlobal),
    store: &mut SlabStore,
    m: usize,
) -> usize
    requires { IsMadeByHand (heap_of store.old) }
    ensures { IsMadeByHand (heap_of store.new) }
{
    store.make_mem(rt.alloc()).expect(rt, "memory");
    place_membrane(rt, store, m)
}

/// Room for a rule more in a membrane.
fn make_room(rt: &(impl Abort + AllocGlobal), store: &mut SlabStore, m: usize)
    requires { IsMadeByHand (heap_of store.old) }
    ensures { IsMadeByHand (heap_of store.new) }
{
    assert!(rt; store.has_mem(m));
    store.reserve_rules(rt.alloc(), m, 1).expect(rt, "memory");
}

/// A rule more in a membrane.
fn add_rule(rt: &(impl Abort + AllocGlobal), store: &mut SlabStore, m: usize, rule: u32)
    requires { IsMadeByHand (heap_of store.old) }
    ensures { IsMadeByHand (heap_of store.new) }
{
    make_room(rt, store, m);
    assert!(rt; store.has_mem(m));
    assert!(rt; store.spare(m) >= 1);
    store.add_rule(m, rule);
}

/// Two ports become partners.
pub(crate) fn join(rt: &impl Abort, store: &mut SlabStore, a: usize, i: u8, b: usize, j: u8)
    requires { IsMadeByHand (heap_of store.old) }
    ensures { IsMadeByHand (heap_of store.new) }
{
    assert!(rt; store.has_port(a, i));
    assert!(rt; store.has_port(b, j));
    assert!(rt; a != b || i != j);
    store.join(a, i, b, j);
}

/// The label of a name.
fn label_of(rt: &impl Abort, names: &mut Names, name: &[u8]) -> Label {
    assert!(rt; name.len() <= 255);
    assert!(rt; names.len() < 1000);
    Label::Name(names.put(name).expect(rt, "memory"))
}

/// One call.
pub(crate) fn make(
    rt: &(impl Abort + AllocGlobal),
    store: &mut SlabStore,
    names: &mut Names,
    step: Step,
)
    requires { IsMadeByHand (heap_of store.old) }
    ensures { IsMadeByHand (heap_of store.new) }
{
    match step {
        Atom(m, name, arity) => {
            let label = label_of(rt, names, name);
            let _atom = add_atom(rt, store, m, Functor { label, arity });
        }
        Integer(m, integer) => {
            let label = Label::Int(integer);
            let _atom = add_atom(rt, store, m, Functor { label, arity: 1 });
        }
        Membrane(m) => {
            let _membrane = add_membrane(rt, store, m);
        }
        Rule(m, rule) => add_rule(rt, store, m, rule),
        Join(a, i, b, j) => join(rt, store, a, i, b, j),
    }
}

/// A store in which all of this was made.
pub(crate) fn made(rt: &(impl Abort + AllocGlobal), names: &mut Names, steps: &[Step]) -> SlabStore
    ensures { IsMadeByHand (heap_of result) }
{
    let mut store = new_store(rt);
    for step in steps {
        make(rt, &mut store, names, *step);
    }
    store
}
