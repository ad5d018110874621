//! The atoms of a part, depth first.
ghost use Rattle.std.specs.Prelude.{◌≡◌, ◌<◌, ◌+◌, ◌++◌, ◌∷◌, ℕ, List, IfOk, OnOk, Some, length, slice_get, slice_set};
ghost use Rattle.std.specs.List.{AllByRecursion};
ghost use Rattle.lmn_store_heap.specs.Heap.{IsAtom, arity_of};
ghost use Rattle.lmn_store_heap.specs.Sound.{Valid};
ghost use Rattle.lmn_ground_parts.specs.Walks.{IsPartInDepth, port_range};
ghost use Rattle.lmn_solid_tables.specs.Flats.{heap_of, port_by};
ghost use Rattle.lmn_solid_firing.specs.Pieces.{Before, IsPort, Tells, WalkIn, stacked};

use lmn_base::{NoMemory, Rows};
use lmn_solid_tables::{Flat, Port};
use std::alloc::Global;

/// Puts the ports of an atom on the stack, so that the first one is on top.
fn push_ports(flat: &Flat, atom: usize, waiting: &mut Vec<Port>) -> Result<(), NoMemory>
    requires { IsAtom (heap_of flat.now) atom }
    ensures ports { OnOk result (stacked waiting.new.items ≡ port_range atom 0 (arity_of (heap_of flat.now) atom) ++ stacked waiting.old.items) }
    ensures there { AllByRecursion (IsPort (heap_of flat.now)) waiting.old.items → OnOk result (AllByRecursion (IsPort (heap_of flat.now)) waiting.new.items) }
{
    for index in (0..flat.arity(atom)).rev() {
        waiting.push(Port { atom, index })?;
    }
    Ok(())
}

/// The mark of an atom.
fn mark_of(marks: &[usize], atom: usize) -> usize
    requires { atom < length marks.now }
    ensures { slice_get marks.now atom ≡ Some result }
{
    marks[atom]
}

/// Marks an atom.
fn set_mark(marks: &mut [usize], atom: usize, mark: usize)
    requires { atom < length marks.old }
    ensures { marks.new ≡ slice_set marks.old atom mark }
{
    marks[atom] = mark;
}

/// Goes on by a port: an atom that wasn't found yet is marked and listed, and its ports come next. Nothing goes on by the root.
fn follow(
    flat: &Flat,
    root: Port,
    port: Port,
    round: usize,
    marks: &mut [usize],
    atoms: &mut Rows<usize>,
    waiting: &mut Vec<Port>,
) -> Result<(), NoMemory>
    requires valid { Valid (heap_of flat.now) }
    requires port { IsPort (heap_of flat.now) port }
    requires tells { Tells (heap_of flat.now) round marks.old atoms.old }
    requires there { AllByRecursion (IsPort (heap_of flat.now)) waiting.old.items }
    ensures tells { OnOk result (Tells (heap_of flat.now) round marks.new atoms.new) }
    ensures there { OnOk result (AllByRecursion (IsPort (heap_of flat.now)) waiting.new.items) }
    ensures walk { (all : List ℕ) → OnOk result (WalkIn (heap_of flat.now) (port_by root) atoms.new (stacked waiting.new.items) all →
        WalkIn (heap_of flat.now) (port_by root) atoms.old (port_by port ∷ stacked waiting.old.items) all) }
{
    if port == root {
        return Ok(());
    }
    let atom = flat.other(port).atom;
    if mark_of(marks, atom) == round {
        return Ok(());
    }
    set_mark(marks, atom, round);
    atoms.push(atom)?;
    push_ports(flat, atom, waiting)
}

/// The atoms of the part that is entered at a port, depth first and by rising ports. It takes no more stack for a larger part. They
/// are marked with the number of the round.
pub(crate) fn in_depth(
    alloc: Global,
    flat: &Flat,
    root: Port,
    round: usize,
    marks: &mut [usize],
) -> Result<Rows<usize>, NoMemory>
    requires valid { Valid (heap_of flat.now) }
    requires root { IsPort (heap_of flat.now) root }
    requires before { Before (heap_of flat.now) round marks.old }
    ensures marks { OnOk result (Before (heap_of flat.now) (round + 1) marks.new) }
    ensures atoms { IfOk result (IsPartInDepth (heap_of flat.now) (port_by root)) }
{
    let mut atoms = Rows::new(alloc);
    set_mark(marks, root.atom, round);
    atoms.push(root.atom)?;
    let mut waiting = Vec::new(alloc);
    push_ports(flat, root.atom, &mut waiting)?;
    for _ in 0..u64::MAX {
        let Some(port) = waiting.pop() else {
            return Ok(atoms);
        };
        follow(flat, root, port, round, marks, &mut atoms, &mut waiting)?;
    }
    Err(NoMemory)
}
