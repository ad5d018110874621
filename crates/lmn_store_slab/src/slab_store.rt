ghost use Rattle.std.specs.Prelude.{◌≡◌, ◌+◌, ◌^◌, ◌<◌, length, IfOk, OnOk};
ghost use Rattle.lmn_store_slab.specs.Lines.{list_at};
ghost use Rattle.lmn_store_heap.specs.Heap.{lone_root};
ghost use Rattle.lmn_store_heap.specs.Sound.{Valid};
ghost use Rattle.lmn_store_slab.specs.Kept.{heap_of};

use crate::cell::{AtomCell, MemCell};
use crate::freeing::{free_atoms, free_mems};
use crate::growth::{cover, cover_list};
use crate::moving::{append_rules, move_atoms, move_mems};
use crate::seek::seek;
use crate::{Lists, cells};
use lmn_base::{Functor, NoMemory};
use lmn_store_counts::{BOUND, Rules};
use lmn_store_trait::{AWAKE, LinkStore};
use slab::Slab;
use std::alloc::Global;
use std::marker::Model;

mod checks;

// The list of what is detached, and of what is taken. The list m + 2 has what stands in the membrane m.
const DETACHED: usize = 0;

const TAKEN: usize = 1;

/// A store that keeps its items in slabs, and in lists by where they are: one list of what is detached, one of
/// what is taken, and one for each membrane, of atoms and of membranes alike. Its handles are the keys of the slabs: a key
/// may come again once its item is freed.
#[derive(Drop)]
pub struct SlabStore {
    atoms: Slab<AtomCell>,
    mems: Slab<MemCell>,
    atom_lists: Lists,
    mem_lists: Lists,
    // How many atoms there are, how many membranes and rules in them, and the spares of all membranes.
    atom_count: u64,
    mem_count: u64,
    spare_count: u64,
}

impl Model for SlabStore {
    ghost use Rattle.lmn_store_slab.specs.Kept.{Kept};

    ghost Value = { Kept };

    ghost use Rattle.lmn_store_slab.specs.SlabStores.{kept_by, IsKept};

    ghost view = { kept_by };

    ghost invariant = { IsKept };
}

impl SlabStore {
    /// A store with the root alone.
    ///
    /// # Errors
    ///
    /// `NoMemory` where there is no memory for the root.
    pub fn new(alloc: Global) -> Result<SlabStore, NoMemory>
        ensures heap { IfOk result (λ s. heap_of s ≡ lone_root) }
        ensures valid { IfOk result (λ s. Valid (heap_of s)) }
    {
        let mut atom_lists = Lists::new(alloc);
        let mut mem_lists = Lists::new(alloc);
        cover_first(&mut atom_lists)?;
        cover_first(&mut mem_lists)?;
        cover(&mut mem_lists, 0)?;
        let mut mems = Slab::new(alloc);
        cells::insert_mem(
            &mut mems,
            MemCell {
                rules: Rules::new(alloc),
                mark: AWAKE,
                list: None,
            },
        )?;
        Ok(SlabStore {
            atoms: Slab::new(alloc),
            mems,
            atom_lists,
            mem_lists,
            atom_count: 0,
            mem_count: 1,
            spare_count: 0,
        })
    }
}

impl LinkStore for SlabStore {
    ghost use Rattle.lmn_store_slab.specs.Kept.{heap_of};

    type Atom = usize;

    type Mem = usize;

    ghost atom_id = { λ a. a };

    ghost mem_id = { λ m. m };

    ghost heap = { heap_of };

    fn root(&self) -> usize {
        let _ = &self.atom_count;
        0
    }

    fn functor(&self, a: usize) -> Functor {
        self.atoms[a].functor
    }

    fn same_atom(&self, a: usize, b: usize) -> bool {
        a == b
    }

    fn same_mem(&self, m: usize, n: usize) -> bool {
        m == n
    }

    fn partner(&self, a: usize, port: u8) -> Option<(usize, u8)> {
        self.atoms[a].ports.at(port as usize).partner
    }

    fn home(&self, a: usize) -> Option<usize> {
        cells::membrane_of(self.atoms[a].list)
    }

    fn parent(&self, m: usize) -> Option<usize> {
        match self.mems[m].list {
            None => None,
            Some(list) => cells::membrane_of(list),
        }
    }

    fn first_atom(&self, m: usize) -> Option<usize> {
        self.atom_lists.first(m + 2)
    }

    fn next_atom(&self, a: usize) -> Option<usize> {
        let list = self.atoms[a].list;
        self.atom_lists.next(list, a)
    }

    // The whole list of the membrane is gone through: atoms of one functor have no list of their own.
    fn first_with(&self, m: usize, f: Functor) -> Option<usize> {
        let start = self.atom_lists.first(m + 2);
        seek(&self.atoms, &self.atom_lists, m + 2, start, f)
    }

    fn next_with(&self, a: usize) -> Option<usize> {
        let cell = &self.atoms[a];
        let start = self.atom_lists.next(cell.list, a);
        seek(
            &self.atoms,
            &self.atom_lists,
            cell.list,
            start,
            cell.functor,
        )
    }

    fn first_mem(&self, m: usize) -> Option<usize> {
        self.mem_lists.first(m + 2)
    }

    fn next_mem(&self, n: usize) -> Option<usize> {
        let list = self.mems[n].list.unwrap();
        self.mem_lists.next(list, n)
    }

    fn atoms(&self, m: usize) -> u64 {
        self.atom_lists.count(m + 2) as u64
    }

    fn mems(&self, m: usize) -> u64 {
        self.mem_lists.count(m + 2) as u64
    }

    fn rules(&self, m: usize) -> u64 {
        self.mems[m].rules.len()
    }

    fn membranes(&self) -> u64 {
        self.mems.len() as u64
    }

    fn items(&self) -> u64 {
        self.atom_count + self.mem_count - 1
    }

    fn rule(&self, m: usize, i: u64) -> u32 {
        self.mems[m].rules.at(i)
    }

    fn mark(&self, a: usize, slot: u8) -> u64 {
        let cell = &self.atoms[a];
        if (slot as usize) < cell.ports.len() {
            cell.ports.at(slot as usize).mark
        } else {
            cell.mark
        }
    }

    fn set_mark(&mut self, a: usize, slot: u8, v: u64) {
        cells::set_mark(&mut self.atoms, a, slot, v);
    }

    fn mem_mark(&self, m: usize) -> u64 {
        self.mems[m].mark
    }

    fn set_mem_mark(&mut self, m: usize, v: u64) {
        cells::set_mem_mark(&mut self.mems, m, v);
    }

    fn make_atom(&mut self, alloc: Global, f: Functor) -> Result<usize, NoMemory> {
        if self.atom_count + self.mem_count + self.spare_count >= BOUND {
            return Err(NoMemory);
        }
        let cell = cells::blank(alloc, f)?;
        cover(&mut self.atom_lists, self.atoms.vacant_key())?;
        let a = cells::insert_atom(&mut self.atoms, cell)?;
        self.atom_lists.push_last(DETACHED, a);
        self.atom_count += 1;
        Ok(a)
    }

    fn make_mem(&mut self, alloc: Global) -> Result<usize, NoMemory> {
        if self.atom_count + self.mem_count + self.spare_count >= BOUND {
            return Err(NoMemory);
        }
        let key = self.mems.vacant_key();
        cover(&mut self.mem_lists, key)?;
        cover_list(&mut self.atom_lists, key)?;
        cover_list(&mut self.mem_lists, key)?;
        let m = cells::insert_mem(
            &mut self.mems,
            MemCell {
                rules: Rules::new(alloc),
                mark: AWAKE,
                list: Some(DETACHED),
            },
        )?;
        self.mem_lists.push_last(DETACHED, m);
        self.mem_count += 1;
        Ok(m)
    }

    fn reserve_rules(&mut self, alloc: Global, m: usize, n: u64) -> Result<(), NoMemory> {
        let spare = self.mems[m].rules.spare();
        if n <= spare {
            return Ok(());
        }
        if n - spare > BOUND - (self.atom_count + self.mem_count + self.spare_count) {
            return Err(NoMemory);
        }
        cells::reserve(&mut self.mems, m, n)?;
        self.spare_count += n - spare;
        Ok(())
    }

    fn discard(&mut self) {
        let list = DETACHED;
        free_atoms(
            &mut self.atoms,
            &mut self.atom_lists,
            list,
            &mut self.atom_count,
        );
        free_mems(
            &mut self.mems,
            &mut self.mem_lists,
            list,
            &mut self.mem_count,
            &mut self.spare_count,
        );
    }

    fn place_atom(&mut self, m: usize) -> usize {
        let a = self.atom_lists.first(DETACHED).unwrap();
        self.atom_lists.move_last(DETACHED, m + 2, a);
        cells::set_list(&mut self.atoms, a, m + 2);
        a
    }

    fn place_mem(&mut self, m: usize) -> usize {
        let n = self.mem_lists.first(DETACHED).unwrap();
        self.mem_lists.move_last(DETACHED, m + 2, n);
        cells::set_mem_list(&mut self.mems, n, m + 2);
        n
    }

    fn take_atom(&mut self, a: usize) {
        let list = self.atoms[a].list;
        self.atom_lists.move_last(list, TAKEN, a);
        cells::set_list(&mut self.atoms, a, TAKEN);
    }

    fn take_mem(&mut self, m: usize) {
        let list = self.mems[m].list.unwrap();
        self.mem_lists.move_last(list, TAKEN, m);
        cells::set_mem_list(&mut self.mems, m, TAKEN);
    }

    fn move_all(&mut self, m: usize, n: usize) {
        move_atoms(&mut self.atoms, &mut self.atom_lists, m, n);
        move_mems(&mut self.mems, &mut self.mem_lists, m, n);
    }

    fn add_rule(&mut self, m: usize, k: u32) {
        cells::push_rule(&mut self.mems, m, k);
        self.mem_count += 1;
        self.spare_count -= 1;
    }

    fn copy_rules(&mut self, m: usize, n: usize) {
        let count = append_rules(&mut self.mems, m, n);
        self.mem_count += count;
        self.spare_count -= count;
    }

    fn join(&mut self, a: usize, i: u8, b: usize, j: u8) {
        let first = self.partner(a, i);
        let second = self.partner(b, j);
        cells::clear_link(&mut self.atoms, first);
        cells::clear_link(&mut self.atoms, second);
        cells::set_link(&mut self.atoms, a, i, Some((b, j)));
        cells::set_link(&mut self.atoms, b, j, Some((a, i)));
    }

    fn finish(&mut self) {
        let list = TAKEN;
        free_atoms(
            &mut self.atoms,
            &mut self.atom_lists,
            list,
            &mut self.atom_count,
        );
        free_mems(
            &mut self.mems,
            &mut self.mem_lists,
            list,
            &mut self.mem_count,
            &mut self.spare_count,
        );
    }
}

// The lists of what waits, of what is gone, and of the root.
fn cover_first(lists: &mut Lists) -> Result<(), NoMemory>
    ensures same { list_at lists.new ≡ list_at lists.old }
    ensures size { lists.new.size ≡ lists.old.size }
    ensures ok { OnOk result (length lists.new.lists ≡ length lists.old.lists + 3) }
    ensures fits { OnOk result (length lists.new.lists < 2 ^ 63) }
{
    lists.add_list()?;
    lists.add_list()?;
    lists.add_list()?;
    Ok(())
}
