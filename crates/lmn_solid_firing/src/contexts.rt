//! What contexts stand for.
ghost use Rattle.std.specs.Prelude.{◌≡◌, ◌++◌, ◌∷◌, [], ℕ, IfOk, OnOk, length};
ghost use Rattle.lmn_base.specs.Lists.{In};
ghost use Rattle.lmn_store_heap.specs.Heap.{IsMem, atoms_in, mems_in};
ghost use Rattle.lmn_store_heap.specs.Sound.{Forest, Forms, Valid};
ghost use Rattle.lmn_solid_bodies.specs.Flattening.{membrane_named};
ghost use Rattle.lmn_solid_settle.specs.Raw.{laid_in};
ghost use Rattle.lmn_solid_tables.specs.Flats.{heap_of};
ghost use Rattle.lmn_solid_firing.specs.Making.{AreThere, LeftForms, context_atoms, context_membranes, context_next, context_writing, left_of, raws_at, rules_named, contexts_next, written_atoms};

use crate::atoms::{add_atoms, left};
use crate::match_::Match;
use crate::membranes::add_whole;
use crate::writing::{Writing, sum};
use lmn_base::{CtxUse, NoMemory, Rows, SolidAtom};
use lmn_solid_settle::RawMembrane;
use lmn_solid_tables::Flat;
use std::alloc::Global;

/// The membrane of the first pair with a name, or the root.
fn membrane_of(names: &[(u32, usize)], name: u32) -> usize
    ensures { result ≡ membrane_named names.now name }
{
    for (other, membrane) in names {
        if *other == name {
            return *membrane;
        }
    }
    0
}

/// How the links of what a context stands for are written, where the next copy has its links from a number on.
fn writing_of(closed: bool, next: u64) -> Writing
    ensures { result ≡ context_writing closed next }
{
    if closed {
        Writing::Shifted { by: next }
    } else {
        Writing::Shifted { by: 0 }
    }
}

/// Where the links of the copy behind a context are.
fn behind(closed: bool, links: u64, next: u64) -> Result<u64, NoMemory>
    ensures { IfOk result (λ n. n ≡ context_next links closed next) }
{
    if closed { sum(next, links) } else { Ok(next) }
}

/// Adds the atoms of a membrane that the head leaves.
pub(crate) fn add_left_atoms(
    alloc: Global,
    flat: &Flat,
    taken: &Match,
    membrane: usize,
    writing: &Writing,
    atoms: &mut Rows<SolidAtom>,
) -> Result<(), NoMemory>
    requires valid { Valid (heap_of flat.now) }
    requires membrane { IsMem (heap_of flat.now) membrane }
    ensures { OnOk result (atoms.new ≡ atoms.old ++ written_atoms flat.now writing.now (left_of taken.now.atoms (atoms_in (heap_of flat.now) membrane))) }
{
    let numbers = left(alloc, taken.atoms.as_slice(), flat.atoms(membrane))?;
    add_atoms(alloc, flat, numbers.as_slice(), writing, atoms)
}

/// Adds the membranes of a membrane that the head leaves.
pub(crate) fn add_left_membranes(
    alloc: Global,
    flat: &Flat,
    taken: &Match,
    membrane: usize,
    around: usize,
    writing: &Writing,
    rows: &mut Vec<RawMembrane>,
) -> Result<(), NoMemory>
    requires valid { Valid (heap_of flat.now) }
    requires membrane { IsMem (heap_of flat.now) membrane }
    ensures { (forest : Forest) → Forms (heap_of flat.now) forest (left_of taken.now.membranes (mems_in (heap_of flat.now) membrane)) →
        OnOk result (rows.new.items ≡ rows.old.items ++ laid_in around (length rows.old.items) (raws_at flat.now writing.now forest)) }
{
    let numbers = left(alloc, taken.membranes.as_slice(), flat.membranes(membrane))?;
    add_whole(alloc, flat, numbers.as_slice(), around, writing, rows)
}

/// Adds the atoms for which untyped contexts stand.
pub(crate) fn add_context_atoms(
    alloc: Global,
    flat: &Flat,
    taken: &Match,
    contexts: &[CtxUse],
    next: &mut u64,
    atoms: &mut Rows<SolidAtom>,
) -> Result<(), NoMemory>
    requires valid { Valid (heap_of flat.now) }
    requires there { AreThere (heap_of flat.now) taken.now.contexts }
    ensures next { OnOk result (next.new ≡ contexts_next taken.now.links contexts.now next.old) }
    ensures atoms { OnOk result (atoms.new ≡ atoms.old ++ context_atoms flat.now taken.now next.old contexts.now) }
{
    for context in contexts {
        let membrane = membrane_of(taken.contexts.as_slice(), context.name);
        let writing = writing_of(context.closed, *next);
        add_left_atoms(alloc, flat, taken, membrane, &writing, atoms)?;
        *next = behind(context.closed, taken.links, *next)?;
    }
    Ok(())
}

/// Adds the membranes for which untyped contexts stand; the first copy has its links from `start` on.
pub(crate) fn add_context_membranes(
    alloc: Global,
    flat: &Flat,
    taken: &Match,
    contexts: &[CtxUse],
    start: u64,
    around: usize,
    rows: &mut Vec<RawMembrane>,
) -> Result<(), NoMemory>
    requires valid { Valid (heap_of flat.now) }
    requires there { AreThere (heap_of flat.now) taken.now.contexts }
    ensures { (left : ℕ → Forest) → LeftForms flat.now taken.now left →
        OnOk result (rows.new.items ≡ rows.old.items ++ laid_in around (length rows.old.items) (context_membranes flat.now taken.now left start contexts.now)) }
{
    let mut next = start;
    for context in contexts {
        let membrane = membrane_of(taken.contexts.as_slice(), context.name);
        let writing = writing_of(context.closed, next);
        add_left_membranes(alloc, flat, taken, membrane, around, &writing, rows)?;
        next = behind(context.closed, taken.links, next)?;
    }
    Ok(())
}

/// Adds the rules of a level, and then those for which its rule contexts stand.
pub(crate) fn add_rules(
    flat: &Flat,
    taken: &Match,
    numbers: &[u32],
    contexts: &[CtxUse],
    rules: &mut Rows<u32>,
) -> Result<(), NoMemory>
    requires valid { Valid (heap_of flat.now) }
    requires there { AreThere (heap_of flat.now) taken.now.rule_contexts }
    ensures { OnOk result (rules.new ≡ rules.old ++ (numbers.now ++ rules_named flat.now taken.now contexts.now)) }
{
    rules.add_all(numbers)?;
    for context in contexts {
        let membrane = membrane_of(taken.rule_contexts.as_slice(), context.name);
        rules.add_all(flat.rules(membrane))?;
    }
    Ok(())
}
