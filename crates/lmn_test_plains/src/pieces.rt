//! Rows, names, levels and regions.

use lmn_base::{Level, Names, NoMemory, Region, Rows};
use std::alloc::Global;

/// Names in the order in which they are put, and the number of each.
const NAMES: &[(&[u8], u32)] = &[
    (b"a", 4),
    (b"=", 0),
    (b"append", 5),
    (b"int", 1),
    (b"a", 4),
    (b"unary", 2),
    (b"It's one", 6),
    (b"ground", 3),
    (b"append", 5),
];

fn level(alloc: Global) -> Level {
    Level {
        leaves: Rows::new(alloc),
        membranes: Rows::new(alloc),
        contexts: Rows::new(alloc),
        rule_contexts: Rows::new(alloc),
        rules: Rows::new(alloc),
    }
}

fn nested_level(alloc: Global, depth: u64) -> Result<Level, NoMemory> {
    let mut inner = level(alloc);
    for _ in 0..depth {
        let mut outer = level(alloc);
        outer.membranes.push(inner)?;
        inner = outer;
    }
    Ok(inner)
}

fn depth_of(level: &Level) -> u64 {
    let mut deepest = 0;
    for inner in level.membranes.as_slice() {
        let depth = depth_of(inner).saturating_add(1);
        if deepest < depth {
            deepest = depth;
        }
    }
    deepest
}

fn region(alloc: Global) -> Region {
    Region {
        atoms: Rows::new(alloc),
        membranes: Rows::new(alloc),
        rules: Rows::new(alloc),
    }
}

/// A region round another one, between two that hold nothing.
fn round(alloc: Global, inner: Region) -> Result<Region, NoMemory> {
    let mut outer = region(alloc);
    if outer.membranes.push(region(alloc)).is_err() {
        inner.dismantle();
        return Err(NoMemory);
    }
    match outer.membranes.offer(inner) {
        Ok(()) => {}
        Err(refused) => {
            refused.value.dismantle();
            return Err(NoMemory);
        }
    }
    if outer.membranes.push(region(alloc)).is_err() {
        outer.dismantle();
        return Err(NoMemory);
    }
    Ok(outer)
}

fn nested_region(alloc: Global, depth: u64) -> Result<Region, NoMemory> {
    let mut inner = region(alloc);
    for _ in 0..depth {
        inner = round(alloc, inner)?;
    }
    Ok(inner)
}

fn letters(alloc: Global) -> Result<Rows<u8>, NoMemory> {
    let mut rows = Rows::new(alloc);
    rows.push(b'a')?;
    rows.push(b'b')?;
    let mut more = Rows::new(alloc);
    more.push(b'c')?;
    more.push(b'd')?;
    rows.append(more)?;
    Ok(rows)
}

#[test]
fn rows_change_as_their_names_say(rt: HostRuntime) -> Result<(), NoMemory> {
    let mut rows = letters(rt.alloc())?;
    assert_eq!(rt; rows.as_slice(), b"abcd".as_slice());
    rows.set(1, b'e');
    assert_eq!(rt; rows.replace(0, b'f'), b'a');
    assert_eq!(rt; rows.pop(), Some(b'd'));
    assert_eq!(rt; *rows.at(2), b'c');
    assert_eq!(rt; rows.len(), 3);
    assert_eq!(rt; rows.into_vec().as_slice(), b"fec".as_slice());
    Ok(())
}

#[test]
fn names_keep_their_numbers(rt: HostRuntime) -> Result<(), NoMemory> {
    let mut names = Names::new(rt.alloc());
    for (name, number) in NAMES {
        assert!(rt; name.len() <= 255 && names.len() < 10);
        let put = names.put(*name)?;
        assert_eq!(rt; put, *number);
        assert_eq!(rt; names.text(put), *name);
    }
    assert_eq!(rt; names.len(), 7);
    Ok(())
}

#[test]
fn names_behind_a_key_keep_their_numbers(rt: HostRuntime) -> Result<(), NoMemory> {
    let mut names = Names::with_key(rt.alloc(), b"what was written");
    assert_eq!(rt; names.put(b"a")?, 4);
    assert!(rt; names.len() < 10);
    assert_eq!(rt; names.put(b"b")?, 5);
    let mut others = names.another();
    assert_eq!(rt; others.put(b"b")?, 4);
    assert_eq!(rt; names.text(4), b"a".as_slice());
    Ok(())
}

#[test]
fn levels_nest_as_deep_as_a_text(rt: HostRuntime) -> Result<(), NoMemory> {
    let level = nested_level(rt.alloc(), 200)?;
    assert_eq!(rt; depth_of(&level), 200);
    Ok(())
}

#[test]
fn regions_of_any_depth_are_let_go(rt: HostRuntime) -> Result<(), NoMemory> {
    nested_region(rt.alloc(), 200_000)?.dismantle();
    Ok(())
}
