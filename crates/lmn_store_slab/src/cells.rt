//! Changes of one cell.
ghost use Rattle.std.specs.Prelude.{◌≡◌, ◌≤◌, Some, None, ◌∷◌, [], length, IfOk, OnOk, OnErr};
ghost use Rattle.std.specs.Option.{option_map};
ghost use Rattle.lmn_store_heap.specs.Heap.{HeapMem, alter, linked, cleared, home_by, with_place, with_mark, mem_with_place, mem_with_mark, mem_with_spare, mem_with_rules, new_atom};
ghost use Rattle.lmn_store_slab.specs.Cells.{atoms_in_cells, mems_in_cells, atom_in_cell, mem_in_cell, place_by};

use crate::cell::{AtomCell, MemCell, Port};
use lmn_base::{Functor, NoMemory, Rows};
use slab::Slab;
use std::alloc::Global;

/// A cell of a new atom, which waits.
pub fn blank(alloc: Global, functor: Functor) -> Result<AtomCell, NoMemory>
    ensures { IfOk result (λ c. atom_in_cell c ≡ new_atom functor) }
{
    let port = Port {
        partner: None,
        mark: 0,
    };
    let ports = vec![in alloc; port; functor.arity as usize]?;
    Ok(AtomCell {
        functor,
        ports: Rows::from_vec(ports),
        mark: 0,
        list: 0,
    })
}

/// An atom is put down as one of a list, where there is such an atom.
pub fn set_list(atoms: &mut Slab<AtomCell>, a: usize, list: usize)
    ensures { atoms_in_cells atoms.new.slots ≡ alter (atoms_in_cells atoms.old.slots) a (option_map (with_place (place_by list))) }
{
    if let Some(cell) = atoms.get_mut(a) {
        cell.list = list;
    }
}

/// A port gets a partner, or none, where there is such a port.
pub fn set_link(atoms: &mut Slab<AtomCell>, a: usize, i: u8, partner: Option<(usize, u8)>)
    ensures { atoms_in_cells atoms.new.slots ≡ linked (atoms_in_cells atoms.old.slots) a i partner }
{
    if let Some(cell) = atoms.get_mut(a) {
        if (i as usize) < cell.ports.len() {
            let port = *cell.ports.at(i as usize);
            cell.ports.set(i as usize, Port { partner, ..port });
        }
    }
}

/// A port, if it is one, loses its partner.
pub fn clear_link(atoms: &mut Slab<AtomCell>, port: Option<(usize, u8)>)
    ensures { atoms_in_cells atoms.new.slots ≡ cleared (atoms_in_cells atoms.old.slots) port }
{
    if let Some((c, k)) = port {
        set_link(atoms, c, k, None);
    }
}

/// A mark of a port or, behind the last port, the atom's own, where there is such an atom.
pub fn set_mark(atoms: &mut Slab<AtomCell>, a: usize, slot: u8, v: u64)
    ensures { atoms_in_cells atoms.new.slots ≡ alter (atoms_in_cells atoms.old.slots) a (option_map (with_mark slot v)) }
{
    if let Some(cell) = atoms.get_mut(a) {
        if (slot as usize) < cell.ports.len() {
            let port = *cell.ports.at(slot as usize);
            cell.ports.set(slot as usize, Port { mark: v, ..port });
        } else if slot as usize == cell.ports.len() {
            cell.mark = v;
        }
    }
}

/// A membrane is put down as one of a list, where there is such a membrane.
pub fn set_mem_list(mems: &mut Slab<MemCell>, m: usize, list: usize)
    ensures { mems_in_cells mems.new.slots ≡ alter (mems_in_cells mems.old.slots) m (option_map (mem_with_place (place_by list))) }
{
    if let Some(cell) = mems.get_mut(m) {
        cell.list = Some(list);
    }
}

/// The mark of a membrane, where there is such a membrane.
pub fn set_mem_mark(mems: &mut Slab<MemCell>, m: usize, v: u64)
    ensures { mems_in_cells mems.new.slots ≡ alter (mems_in_cells mems.old.slots) m (option_map (mem_with_mark v)) }
{
    if let Some(cell) = mems.get_mut(m) {
        cell.mark = v;
    }
}

/// An atom is freed, where there is such an atom.
pub fn remove_atom(atoms: &mut Slab<AtomCell>, a: usize)
    ensures { atoms_in_cells atoms.new.slots ≡ alter (atoms_in_cells atoms.old.slots) a (λ _. None) }
{
    let _cell = atoms.try_remove(a);
}

/// A membrane is freed, where there is such a membrane. Answers the number of its rules and its spare.
pub fn remove_mem(mems: &mut Slab<MemCell>, m: usize) -> (u64, u64)
    ensures removed { mems_in_cells mems.new.slots ≡ alter (mems_in_cells mems.old.slots) m (λ _. None) }
    ensures rules { (x : HeapMem) → mems_in_cells mems.old.slots m ≡ Some x → result.0 ≡ length x.rules }
    ensures spare { (x : HeapMem) → mems_in_cells mems.old.slots m ≡ Some x → result.1 ≡ x.spare }
{
    match mems.try_remove(m) {
        None => (0, 0),
        Some(cell) => (cell.rules.len(), cell.rules.spare()),
    }
}

/// A new atom under the next key.
pub fn insert_atom(atoms: &mut Slab<AtomCell>, cell: AtomCell) -> Result<usize, NoMemory>
    ensures key { IfOk result (λ a. a ≡ atoms.old.vacant_key) }
    ensures fresh { IfOk result (λ a. atoms_in_cells atoms.old.slots a ≡ None) }
    ensures ok { IfOk result (λ a. atoms_in_cells atoms.new.slots ≡ alter (atoms_in_cells atoms.old.slots) a (λ _. Some (atom_in_cell cell))) }
    ensures err { OnErr result (atoms_in_cells atoms.new.slots ≡ atoms_in_cells atoms.old.slots) }
{
    Ok(atoms.insert(cell)?)
}

/// A new membrane under the next key.
pub fn insert_mem(mems: &mut Slab<MemCell>, cell: MemCell) -> Result<usize, NoMemory>
    ensures key { IfOk result (λ m. m ≡ mems.old.vacant_key) }
    ensures fresh { IfOk result (λ m. mems_in_cells mems.old.slots m ≡ None) }
    ensures ok { IfOk result (λ m. mems_in_cells mems.new.slots ≡ alter (mems_in_cells mems.old.slots) m (λ _. Some (mem_in_cell cell))) }
    ensures err { OnErr result (mems_in_cells mems.new.slots ≡ mems_in_cells mems.old.slots) }
{
    Ok(mems.insert(cell)?)
}

/// A membrane gets room for so many more rules.
pub fn reserve(mems: &mut Slab<MemCell>, m: usize, spare: u64) -> Result<(), NoMemory>
    ensures ok { OnOk result (mems_in_cells mems.new.slots ≡ alter (mems_in_cells mems.old.slots) m (option_map (mem_with_spare spare))) }
    ensures err { OnErr result (mems_in_cells mems.new.slots ≡ mems_in_cells mems.old.slots) }
{
    if let Some(cell) = mems.get_mut(m) {
        cell.rules.reserve(spare)?;
    }
    Ok(())
}

/// A rule goes to the end of those of a membrane.
pub fn push_rule(mems: &mut Slab<MemCell>, m: usize, k: u32)
    requires { (x : HeapMem) → mems_in_cells mems.old.slots m ≡ Some x → 1 ≤ x.spare }
    ensures { mems_in_cells mems.new.slots ≡ alter (mems_in_cells mems.old.slots) m (option_map (mem_with_rules (k ∷ []))) }
{
    if let Some(cell) = mems.get_mut(m) {
        cell.rules.push(k);
    }
}

/// The membrane of which a list holds what stands in it.
pub fn membrane_of(list: usize) -> Option<usize>
    ensures { home_by (place_by list) ≡ result }
{
    if list < 2 { None } else { Some(list - 2) }
}
