//! A store over a web.
ghost use Rattle.std.specs.Prelude.{◌≡◌, IfOk, IfSome, IsSome, map};
ghost use Rattle.std.specs.Option.{option_map};
ghost use Rattle.lmn_store_heap.specs.Heap.{home_by, mems_in, IsMem};
ghost use Rattle.lmn_store_heap.specs.Sound.{Valid};
ghost use Rattle.lmn_web_cells.specs.CellIds.{cell_id};
ghost use Rattle.lmn_web_merging.specs.Keepers.{merged_by};
ghost use Rattle.lmn_store_web.specs.WebHeaps.{alone, heap_of, place_at};
ghost use Rattle.lmn_store_web_preorder.specs.Nests.{IsOneOf};
ghost use Rattle.lmn_store_web.specs.WebStores.{HasRules};
ghost use Rattle.lmn_store_web.specs.Indexes.{key_of};

use crate::filing::seek_integers;
use crate::freeing::{free_atoms, free_mems};
use crate::indexing::{hold, wake};
use crate::labels::{label_of, number_of};
use crate::sending::{send, send_first, send_plain};
use crate::table;
use lmn_base::{Functor, NoMemory, RuleTree};
use lmn_store_counts::{BOUND, Rules};
use lmn_store_trait::{AWAKE, LinkStore};
use lmn_store_web_preorder::Preorder;
use lmn_web_merging::{Cell, CellKind, MergingWeb};
use slab::Slab;
use std::alloc::Global;
use std::marker::Model;

// The label of the cells of what waits and of what is gone: it has another class than 0, so that atoms come and go in fewer steps.
const LINE: u128 = 0x1_0000_0000_0000_0000;

/// A store that keeps its items in a web: atoms and membranes are cells, and what is detached or taken stands in
/// the lists of a cell of its own, which doesn't file atoms by class.
pub struct WebStore {
    web: MergingWeb,
    // The rules of membranes. The label of a membrane is the place of its own, and the key by which the index knows it.
    rules: Slab<Rules>,
    // The membrane of each key.
    mems: Vec<Cell>,
    // Which membranes stand in which, and which are awake, by their keys. Whether the root is awake, its mark alone tells.
    index: Preorder,
    root: Cell,
    waiting: Cell,
    gone: Cell,
    // Whether an integer is filed in a class of its value, and not in one of all integers.
    by_value: bool,
    // How many atoms, membranes, rules in them and spares of membranes there are, and how many of all these are spares.
    count: u64,
    spare_count: u64,
}

// By hand, so that a crate above calls this and proves nothing of how a store is freed.
impl Drop for WebStore {
    fn drop(self) {
        let WebStore {
            web: _,
            rules: _,
            mems: _,
            index: _,
            root: _,
            waiting: _,
            gone: _,
            by_value: _,
            count: _,
            spare_count: _,
        } = self;
    }
}

impl Model for WebStore {
    ghost use Rattle.lmn_store_web.specs.WebHeaps.{KeptWeb};

    ghost Value = { KeptWeb };

    ghost use Rattle.lmn_store_web.specs.WebStores.{kept_by, IsKept};

    ghost view = { kept_by };

    ghost invariant = { IsKept };
}

impl WebStore {
    /// A store with the root alone.
    pub fn new(alloc: Global) -> Result<WebStore, NoMemory>
        ensures heap { IfOk result (λ s. heap_of s ≡ alone s.posts.root) }
        ensures valid { IfOk result (λ s. Valid (heap_of s)) }
    {
        WebStore::filing(alloc, false)
    }

    /// A store with the root alone, for a program with these rules. Where a head looks for an integer among the atoms of a
    /// membrane, it is found as quickly as a name, and integers come and go in some more steps.
    pub fn for_rules(alloc: Global, rules: &[RuleTree]) -> Result<WebStore, NoMemory>
        ensures heap { IfOk result (λ s. heap_of s ≡ alone s.posts.root) }
        ensures valid { IfOk result (λ s. Valid (heap_of s)) }
    {
        WebStore::filing(alloc, seek_integers(rules))
    }

    // A store with the root alone, in which integers are filed by their values, or all as one class.
    fn filing(alloc: Global, by_value: bool) -> Result<WebStore, NoMemory>
        ensures heap { IfOk result (λ s. heap_of s ≡ alone s.posts.root) }
        ensures valid { IfOk result (λ s. Valid (heap_of s)) }
    {
        let mut web = MergingWeb::new(alloc);
        let mut rules = Slab::new(alloc);
        let mut mems = Vec::new(alloc);
        let mut index = Preorder::new(alloc);
        let key = rules.insert(Rules::new(alloc))?;
        index.add(key)?;
        // Asleep, the root isn't found before those that the index is asked for.
        index.set_awake(key, false);
        mems.reserve(1)?;
        let waiting = web.make(LINE, 0, CellKind::Membrane)?;
        let gone = web.make(LINE, 0, CellKind::Membrane)?;
        let root = web.make(key as u128, 0, CellKind::Membrane)?;
        mems.push_reserved(root);
        web.listed();
        web.paired();
        Ok(WebStore {
            web,
            rules,
            mems,
            index,
            root,
            waiting,
            gone,
            by_value,
            count: 1,
            spare_count: 0,
        })
    }

    // The membrane that a home is, if it isn't that of what waits or is gone.
    fn standing(&self, home: Option<Cell>) -> Option<Cell>
        requires { IfSome home (λ m. IsSome (merged_by self.now.web (cell_id m))) }
        ensures { home_by (place_at self.now.posts (option_map cell_id home)) ≡ option_map cell_id result }
    {
        match home {
            None => None,
            Some(m) => {
                if self.web.same(m, self.waiting) || self.web.same(m, self.gone) {
                    None
                } else {
                    Some(m)
                }
            }
        }
    }

    // The place of the rules of a membrane.
    fn place_of_rules(&self, m: Cell) -> usize
        requires { IsMem (heap_of self.now) (cell_id m) }
        ensures { HasRules self.now.table (merged_by self.now.web) (cell_id m) result }
    {
        table::place_of_rules(&self.web, &self.rules, m)
    }

    // The key of a membrane that stands in this one, if one does.
    fn key_inside(&self, m: Cell) -> Option<usize>
        requires { IsMem (heap_of self.now) (cell_id m) }
        ensures { IsOneOf result (map (key_of (merged_by self.now.web)) (mems_in (heap_of self.now) (cell_id m))) }
    {
        self.web.listed();
        match self.web.first(m, CellKind::Membrane) {
            None => None,
            Some(n) => Some(self.place_of_rules(n)),
        }
    }
}

impl LinkStore for WebStore {
    ghost use Rattle.lmn_web_cells.specs.CellIds.{cell_id};
    ghost use Rattle.lmn_store_web.specs.WebHeaps.{heap_of};

    type Atom = Cell;

    type Mem = Cell;

    ghost atom_id = { cell_id };

    ghost mem_id = { cell_id };

    ghost heap = { heap_of };

    fn root(&self) -> Cell {
        self.web.listed();
        self.web.paired();
        self.root
    }

    fn functor(&self, a: Cell) -> Functor {
        Functor {
            label: label_of(self.web.label(a)),
            arity: self.web.arity(a),
        }
    }

    fn same_atom(&self, a: Cell, b: Cell) -> bool {
        self.web.same(a, b)
    }

    fn same_mem(&self, m: Cell, n: Cell) -> bool {
        self.web.same(m, n)
    }

    fn partner(&self, a: Cell, port: u8) -> Option<(Cell, u8)> {
        self.web.listed();
        self.web.paired();
        self.web.partner(a, port)
    }

    fn home(&self, a: Cell) -> Option<Cell> {
        self.web.listed();
        self.standing(self.web.home(a))
    }

    fn parent(&self, m: Cell) -> Option<Cell> {
        self.web.listed();
        self.standing(self.web.home(m))
    }

    fn stands_in(&self, a: Cell, m: Cell) -> bool {
        self.web.listed();
        match self.web.home(a) {
            Some(home) => self.web.same(home, m),
            None => false,
        }
    }

    fn first_atom(&self, m: Cell) -> Option<Cell> {
        self.web.listed();
        self.web.first(m, CellKind::Atom)
    }

    fn next_atom(&self, a: Cell) -> Option<Cell> {
        self.web.listed();
        self.web.paired();
        self.web.next(a)
    }

    #[inline(always)]
    fn first_with(&self, m: Cell, f: Functor) -> Option<Cell> {
        self.web.listed();
        self.web
            .first_with(m, number_of(f.label, self.by_value), f.arity)
    }

    #[inline(always)]
    fn next_with(&self, a: Cell) -> Option<Cell> {
        self.web.listed();
        self.web.paired();
        self.web.next_with(a)
    }

    fn first_mem(&self, m: Cell) -> Option<Cell> {
        self.web.listed();
        self.web.first(m, CellKind::Membrane)
    }

    fn next_mem(&self, n: Cell) -> Option<Cell> {
        self.web.listed();
        self.web.paired();
        self.web.next(n)
    }

    fn atoms(&self, m: Cell) -> u64 {
        self.web.count(m, CellKind::Atom)
    }

    fn mems(&self, m: Cell) -> u64 {
        self.web.count(m, CellKind::Membrane)
    }

    fn rules(&self, m: Cell) -> u64 {
        let place = self.place_of_rules(m);
        self.rules[place].len()
    }

    fn membranes(&self) -> u64 {
        self.web.listed();
        self.web.paired();
        self.rules.len() as u64
    }

    fn awake_from(&mut self, start: u64) -> Option<(u64, Cell)> {
        self.web.listed();
        self.web.paired();
        if start == 0 && self.web.mark(self.root, 0) == AWAKE {
            return Some((0, self.root));
        }
        let top = self.place_of_rules(self.root);
        match self.index.awake_from(top, start.max(1)) {
            None => None,
            Some((number, key)) => Some((number, self.mems[key])),
        }
    }

    fn items(&self) -> u64 {
        self.web.listed();
        self.web.paired();
        self.count - self.spare_count - 1
    }

    fn rule(&self, m: Cell, i: u64) -> u32 {
        let place = self.place_of_rules(m);
        self.rules[place].at(i)
    }

    fn mark(&self, a: Cell, slot: u8) -> u64 {
        self.web.mark(a, slot)
    }

    fn set_mark(&mut self, a: Cell, slot: u8, v: u64) {
        self.web.set_mark(a, slot, v);
    }

    fn mem_mark(&self, m: Cell) -> u64 {
        self.web.mark(m, 0)
    }

    fn set_mem_mark(&mut self, m: Cell, v: u64) {
        if self.web.same(m, self.root) {
            self.web.set_mark(m, 0, v);
            return;
        }
        let key = self.place_of_rules(m);
        let was = self.web.mark(m, 0) == AWAKE;
        self.web.set_mark(m, 0, v);
        wake(&mut self.index, key, was, v == AWAKE);
    }

    #[inline(always)]
    fn make_atom(&mut self, alloc: Global, f: Functor) -> Result<Cell, NoMemory> {
        if self.count >= BOUND {
            return Err(NoMemory);
        }
        self.web.listed();
        self.web.paired();
        let a = self
            .web
            .make(number_of(f.label, self.by_value), f.arity, CellKind::Atom)?;
        self.web.add_last_plain(self.waiting, CellKind::Atom, a);
        self.count += 1;
        Ok(a)
    }

    #[inline(always)]
    fn make_like(&mut self, alloc: Global, a: Cell) -> Result<Cell, NoMemory> {
        if self.count >= BOUND {
            return Err(NoMemory);
        }
        self.web.listed();
        self.web.paired();
        let label = self.web.label(a);
        let arity = self.web.arity(a);
        let copy = self.web.make(label, arity, CellKind::Atom)?;
        self.web.add_last_plain(self.waiting, CellKind::Atom, copy);
        self.count += 1;
        Ok(copy)
    }

    fn make_mem(&mut self, alloc: Global) -> Result<Cell, NoMemory> {
        if self.count >= BOUND {
            return Err(NoMemory);
        }
        self.rules.reserve(1)?;
        let place = self.rules.vacant_key();
        // The slab gives its keys one after the other, so none is left out here.
        if place > self.mems.len() {
            return Err(NoMemory);
        }
        self.mems.reserve(1)?;
        self.web.listed();
        self.web.paired();
        self.index.add(place)?;
        let m = self.web.make(place as u128, 0, CellKind::Membrane)?;
        self.rules.insert_reserved(Rules::new(alloc));
        hold(&mut self.mems, place, m);
        self.web.add_last(self.waiting, CellKind::Membrane, m);
        self.count += 1;
        Ok(m)
    }

    fn reserve_rules(&mut self, alloc: Global, m: Cell, n: u64) -> Result<(), NoMemory> {
        let place = self.place_of_rules(m);
        let spare = self.rules[place].spare();
        if n <= spare {
            return Ok(());
        }
        if n - spare > BOUND - self.count {
            return Err(NoMemory);
        }
        table::reserve(&mut self.rules, place, n)?;
        self.count += n - spare;
        self.spare_count += n - spare;
        Ok(())
    }

    fn discard(&mut self) {
        self.web.listed();
        self.web.paired();
        free_atoms(&mut self.web, self.waiting, &mut self.count);
        free_mems(
            &mut self.web,
            &mut self.rules,
            self.waiting,
            &mut self.count,
            &mut self.spare_count,
        );
        self.web.listed();
    }

    #[inline(always)]
    fn place_atom(&mut self, m: Cell) -> Cell {
        self.web.listed();
        let a = self.web.known_first_plain(self.waiting, CellKind::Atom);
        send_first(&mut self.web, self.waiting, m, CellKind::Atom, a);
        a
    }

    fn place_mem(&mut self, m: Cell) -> Cell {
        self.web.listed();
        self.web.paired();
        let n = self.web.first(self.waiting, CellKind::Membrane).unwrap();
        let parent = self.place_of_rules(m);
        let child = self.place_of_rules(n);
        send(&mut self.web, m, CellKind::Membrane, n);
        self.index.put_last(parent, child);
        n
    }

    #[inline(always)]
    fn take_atom(&mut self, a: Cell) {
        self.web.listed();
        send_plain(&mut self.web, self.gone, CellKind::Atom, a);
    }

    fn take_mem(&mut self, m: Cell) {
        self.web.listed();
        self.web.paired();
        let home = self.web.home(m).unwrap();
        let parent = self.place_of_rules(home);
        let child = self.place_of_rules(m);
        send_plain(&mut self.web, self.gone, CellKind::Membrane, m);
        self.index.take(parent, child);
    }

    fn move_all(&mut self, m: Cell, n: Cell) {
        self.web.listed();
        self.web.paired();
        let source = self.place_of_rules(m);
        let target = self.place_of_rules(n);
        let one = self.key_inside(m);
        self.web.move_all(m, n);
        self.index.move_inside(source, target, one);
        self.web.listed();
    }

    fn add_rule(&mut self, m: Cell, k: u32) {
        let place = self.place_of_rules(m);
        table::push(&mut self.rules, place, k);
        self.spare_count -= 1;
    }

    fn copy_rules(&mut self, m: Cell, n: Cell) {
        let from = self.place_of_rules(m);
        let to = self.place_of_rules(n);
        let count = table::append(&mut self.rules, from, to);
        self.spare_count -= count;
    }

    fn join(&mut self, a: Cell, i: u8, b: Cell, j: u8) {
        self.web.listed();
        self.web.paired();
        self.web.join(a, i, b, j);
    }

    #[inline(always)]
    fn finish(&mut self) {
        self.web.listed();
        self.web.paired();
        free_atoms(&mut self.web, self.gone, &mut self.count);
        free_mems(
            &mut self.web,
            &mut self.rules,
            self.gone,
            &mut self.count,
            &mut self.spare_count,
        );
        self.web.listed();
    }
}
