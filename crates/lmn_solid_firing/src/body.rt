//! The membranes of a body.
ghost use Rattle.std.specs.Prelude.{◌≡◌, ◌++◌, ◌∷◌, [], ℕ, IfOk, OnOk, length};
ghost use Rattle.lmn_store_heap.specs.Sound.{Forest, Valid};
ghost use Rattle.lmn_solid_settle.specs.Raw.{laid_in};
ghost use Rattle.lmn_solid_tables.specs.Flats.{heap_of};
ghost use Rattle.lmn_solid_firing.specs.Making.{IsReadyFor, LeftForms, level_made, level_pairs, level_row};

use crate::contexts::{add_context_atoms, add_context_membranes, add_rules};
use crate::leaves::{add_leaves, add_pairs};
use crate::match_::Match;
use lmn_base::{Level, NoMemory, Rows, SolidAtom};
use lmn_solid_settle::RawMembrane;
use lmn_solid_tables::Flat;
use std::alloc::Global;

/// Adds the atoms of a level itself. Answers where the copies of its untyped contexts begin.
pub(crate) fn add_own_atoms(
    alloc: Global,
    flat: &Flat,
    taken: &Match,
    level: &Level,
    next: &mut u64,
    atoms: &mut Rows<SolidAtom>,
) -> Result<u64, NoMemory>
    requires valid { Valid (heap_of flat.now) }
    requires ready { IsReadyFor flat.now taken.now }
    ensures start { (left : ℕ → Forest) → IfOk result (λ start. start ≡ (level_made flat.now taken.now left level.now).start next.old) }
    ensures next { (left : ℕ → Forest) → OnOk result (next.new ≡ (level_made flat.now taken.now left level.now).own next.old) }
    ensures atoms { (left : ℕ → Forest) → OnOk result (atoms.new ≡ atoms.old ++ (level_made flat.now taken.now left level.now).atoms next.old) }
{
    add_leaves(alloc, flat, taken, level.leaves.as_slice(), next, atoms)?;
    let start = *next;
    add_context_atoms(alloc, flat, taken, level.contexts.as_slice(), next, atoms)?;
    Ok(start)
}

/// Adds the rules of a level itself.
pub(crate) fn add_own_rules(
    flat: &Flat,
    taken: &Match,
    level: &Level,
    rules: &mut Rows<u32>,
) -> Result<(), NoMemory>
    requires valid { Valid (heap_of flat.now) }
    requires ready { IsReadyFor flat.now taken.now }
    ensures { (left : ℕ → Forest) → OnOk result (rules.new ≡ rules.old ++ (level_made flat.now taken.now left level.now).rules) }
{
    add_rules(
        flat,
        taken,
        level.rules.as_slice(),
        level.rule_contexts.as_slice(),
        rules,
    )
}

/// Adds a membrane of a level, without those in it. Answers where the copies of its untyped contexts begin.
fn add_row(
    alloc: Global,
    flat: &Flat,
    taken: &Match,
    level: &Level,
    around: usize,
    next: &mut u64,
    rows: &mut Vec<RawMembrane>,
) -> Result<u64, NoMemory>
    requires valid { Valid (heap_of flat.now) }
    requires ready { IsReadyFor flat.now taken.now }
    ensures start { (left : ℕ → Forest) → IfOk result (λ start. start ≡ (level_made flat.now taken.now left level.now).start next.old) }
    ensures next { (left : ℕ → Forest) → OnOk result (next.new ≡ (level_made flat.now taken.now left level.now).own next.old) }
    ensures rows { (left : ℕ → Forest) → OnOk result (rows.new.items ≡ rows.old.items ++ level_row around (level_made flat.now taken.now left level.now) next.old ∷ []) }
{
    let mut atoms = Rows::new(alloc);
    let start = add_own_atoms(alloc, flat, taken, level, next, &mut atoms)?;
    let mut rules = Rows::new(alloc);
    add_own_rules(flat, taken, level, &mut rules)?;
    rows.push(RawMembrane {
        around,
        atoms,
        rules,
    })?;
    Ok(start)
}

/// Adds the membranes of a level with all that stands in them, where the copies of its untyped contexts begin at `start`.
pub(crate) fn add_membranes(
    alloc: Global,
    flat: &Flat,
    taken: &Match,
    level: &Level,
    start: u64,
    around: usize,
    next: &mut u64,
    rows: &mut Vec<RawMembrane>,
) -> Result<(), NoMemory>
    requires valid { Valid (heap_of flat.now) }
    requires ready { IsReadyFor flat.now taken.now }
    ensures next { (left : ℕ → Forest) → OnOk result (next.new ≡ (level_made flat.now taken.now left level.now).after next.old) }
    ensures rows { (left : ℕ → Forest) → LeftForms flat.now taken.now left →
        OnOk result (rows.new.items ≡ rows.old.items ++ laid_in around (length rows.old.items) ((level_made flat.now taken.now left level.now).membranes start next.old)) }
{
    for inner in level.membranes.as_slice() {
        let number = rows.len();
        let own = add_row(alloc, flat, taken, inner, around, next, rows)?;
        add_membranes(alloc, flat, taken, inner, own, number, next, rows)?;
    }
    add_context_membranes(
        alloc,
        flat,
        taken,
        level.contexts.as_slice(),
        start,
        around,
        rows,
    )
}

/// Adds the connectors of a level: its own, and then those in each of its membranes.
pub(crate) fn add_connectors(
    taken: &Match,
    level: &Level,
    connectors: &mut Rows<(u32, u32)>,
) -> Result<(), NoMemory>
    ensures { OnOk result (connectors.new ≡ connectors.old ++ level_pairs taken.now level.now) }
{
    add_pairs(taken, level.leaves.as_slice(), connectors)?;
    for inner in level.membranes.as_slice() {
        add_connectors(taken, inner, connectors)?;
    }
    Ok(())
}
