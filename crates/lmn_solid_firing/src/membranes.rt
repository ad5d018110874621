//! Membranes of the solid with all that stands in them.
ghost use Rattle.std.specs.Prelude.{◌≡◌, ◌++◌, ◌∷◌, [], ℕ, OnOk, length};
ghost use Rattle.lmn_base.specs.Lists.{In};
ghost use Rattle.lmn_store_heap.specs.Heap.{IsMem, atoms_in, mems_in, rules_in};
ghost use Rattle.lmn_store_heap.specs.Sound.{Forest, Forms, Valid};
ghost use Rattle.lmn_solid_settle.specs.Raw.{laid_in};
ghost use Rattle.lmn_solid_settle.specs.declared.settling.RawMembrane.{RawMembrane};
ghost use Rattle.lmn_solid_tables.specs.Flats.{heap_of};
ghost use Rattle.lmn_solid_firing.specs.Making.{entered, lone, raws_at};

use crate::atoms::add_atoms;
use crate::writing::Writing;
use lmn_base::{NoMemory, Rows};
use lmn_solid_settle::RawMembrane;
use lmn_solid_tables::Flat;
use std::alloc::Global;

/// Puts membranes on the stack, each with the number of the one around it, so that the first one is on top.
pub(crate) fn push_all(
    waiting: &mut Vec<(usize, usize)>,
    membranes: &[usize],
    around: usize,
) -> Result<(), NoMemory>
    ensures { OnOk result (waiting.new.items ≡ waiting.old.items ++ entered around membranes.now) }
{
    for i in (0..membranes.len()).rev() {
        waiting.push((membranes[i], around))?;
    }
    Ok(())
}

/// Adds a membrane with its atoms and rules, without those in it.
pub(crate) fn add_lone(
    alloc: Global,
    flat: &Flat,
    membrane: usize,
    around: usize,
    writing: &Writing,
    rows: &mut Vec<RawMembrane>,
) -> Result<(), NoMemory>
    requires valid { Valid (heap_of flat.now) }
    requires membrane { IsMem (heap_of flat.now) membrane }
    ensures { OnOk result (rows.new.items ≡ rows.old.items ++ lone flat.now writing.now around membrane ∷ []) }
{
    let mut atoms = Rows::new(alloc);
    add_atoms(alloc, flat, flat.atoms(membrane), writing, &mut atoms)?;
    let rules = Rows::copied(alloc, flat.rules(membrane))?;
    rows.push(RawMembrane {
        around,
        atoms,
        rules,
    })?;
    Ok(())
}

/// Adds membranes with all that stands in them, in preorder.
pub(crate) fn add_whole(
    alloc: Global,
    flat: &Flat,
    membranes: &[usize],
    around: usize,
    writing: &Writing,
    rows: &mut Vec<RawMembrane>,
) -> Result<(), NoMemory>
    requires valid { Valid (heap_of flat.now) }
    requires membranes { (m : ℕ) → In m membranes.now → IsMem (heap_of flat.now) m }
    ensures { (forest : Forest) → Forms (heap_of flat.now) forest membranes.now → OnOk result (rows.new.items ≡ rows.old.items ++ laid_in around (length rows.old.items) (raws_at flat.now writing.now forest)) }
{
    let mut waiting = Vec::new(alloc);
    push_all(&mut waiting, membranes, around)?;
    for _ in 0..u64::MAX {
        let Some((membrane, around)) = waiting.pop() else {
            return Ok(());
        };
        let number = rows.len();
        add_lone(alloc, flat, membrane, around, writing, rows)?;
        push_all(&mut waiting, flat.membranes(membrane), number)?;
    }
    Err(NoMemory)
}
