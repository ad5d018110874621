//! What a store holds, written out: the lists of membranes, their rules and marks, and what the ports of atoms lead to.
use lmn_base::NoMemory;
use lmn_store_slab::SlabStore;
use lmn_store_trait::LinkStore;
use std::alloc::AllocGlobal;
use std::process::Abort;

fn write_atoms(
    rt: &impl Abort,
    store: &SlabStore,
    m: usize,
    out: &mut String,
) -> Result<(), NoMemory> {
    assert!(rt; store.has_mem(m));
    let mut at = store.first_atom(m);
    for _ in 0..store.atoms(m) {
        if let Some(a) = at {
            write!(out, " {a}")?;
            assert!(rt; store.has_atom(a));
            assert!(rt; store.home(a) == Some(m));
            at = store.next_atom(a);
        }
    }
    Ok(())
}

fn write_mems(
    rt: &impl Abort,
    store: &SlabStore,
    m: usize,
    out: &mut String,
) -> Result<(), NoMemory> {
    assert!(rt; store.has_mem(m));
    let mut at = store.first_mem(m);
    for _ in 0..store.mems(m) {
        if let Some(n) = at {
            write!(out, " {n}")?;
            assert!(rt; store.has_mem(n));
            assert!(rt; store.parent(n) == Some(m));
            at = store.next_mem(n);
        }
    }
    Ok(())
}

fn write_rules(
    rt: &impl Abort,
    store: &SlabStore,
    m: usize,
    out: &mut String,
) -> Result<(), NoMemory> {
    assert!(rt; store.has_mem(m));
    for i in 0..store.rules(m) {
        let k = store.rule(m, i);
        write!(out, " {k}")?;
    }
    let mark = store.mem_mark(m);
    write!(out, " mark {mark}")?;
    Ok(())
}

fn write_ports(
    rt: &impl Abort,
    store: &SlabStore,
    a: usize,
    out: &mut String,
) -> Result<(), NoMemory> {
    assert!(rt; store.has_atom(a));
    let functor = store.functor(a);
    for i in 0..functor.arity {
        assert!(rt; store.has_port(a, i));
        if let Some((b, j)) = store.partner(a, i) {
            let mark = store.mark(a, i);
            write!(out, " {b}.{j} {mark}")?;
        }
    }
    let arity = functor.arity;
    if arity == 0 || store.has_port(a, arity - 1) {
        let mark = store.mark(a, arity);
        write!(out, " own {mark}")?;
    }
    Ok(())
}

fn write_membrane(
    rt: &impl Abort,
    store: &SlabStore,
    m: usize,
    out: &mut String,
) -> Result<(), NoMemory> {
    write!(out, "{m}:")?;
    write_atoms(rt, store, m, out)?;
    write!(out, " /")?;
    write_mems(rt, store, m, out)?;
    write!(out, " /")?;
    write_rules(rt, store, m, out)?;
    write!(out, "; ")?;
    Ok(())
}

fn write_atom(
    rt: &impl Abort,
    store: &SlabStore,
    a: usize,
    out: &mut String,
) -> Result<(), NoMemory> {
    write!(out, "{a}:")?;
    write_ports(rt, store, a, out)?;
    write!(out, "; ")?;
    Ok(())
}

fn write_all(rt: &impl Abort, store: &SlabStore, out: &mut String) -> Result<(), NoMemory> {
    for m in 0..4 {
        if store.has_mem(m) {
            write_membrane(rt, store, m, out)?;
        }
    }
    for a in 0..4 {
        if store.has_atom(a) {
            write_atom(rt, store, a, out)?;
        }
    }
    Ok(())
}

/// The membranes and atoms with numbers up to 3, as `m: its atoms / its membranes / its rules` and `a: its ports`.
pub(crate) fn state(
    rt: &(impl Abort + AllocGlobal),
    store: &SlabStore,
) -> Result<String, NoMemory> {
    let mut out = String::new(rt.alloc());
    write_all(rt, store, &mut out)?;
    Ok(out)
}
