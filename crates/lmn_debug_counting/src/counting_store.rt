//! A store that counts.
ghost use Rattle.std.specs.Prelude.{◌≡◌};
ghost use Rattle.lmn_store_heap.specs.Sound.{Forest, IsTree, Valid, flat};
ghost use Rattle.lmn_debug_counting.specs.Counts.{count_in};

use crate::counting::count_atoms;
use crate::tally::{Tally, count_of, with_atom, without_atom};
use lmn_base::{Functor, NoMemory};
use lmn_store_trait::LinkStore;
use std::alloc::Global;
use std::marker::Model;

/// A store that is another one, and keeps the number of atoms with a functor once it was asked for it. A call costs what the other
/// store's costs, and no memory more.
pub struct CountingStore<S: LinkStore> {
    store: S,
    // The count that was asked for last. Only what comes into a membrane or leaves one changes it.
    tally: Option<Tally>,
}

// By hand, so that a crate above calls this and proves nothing of how a store is freed.
impl<S: LinkStore + Drop> Drop for CountingStore<S> {
    fn drop(self) {
        let CountingStore { store: _, tally: _ } = self;
    }
}

impl<S: LinkStore> Model for CountingStore<S> {
    ghost use Rattle.lmn_debug_counting.specs.Tallies.{IsKept};

    ghost Value = { S };

    ghost coded = { S.code };

    ghost view = { λ s. s.store };

    ghost invariant = { λ s. IsKept (S.heap s.store).atoms s.tally };
}

impl<S: LinkStore> CountingStore<S> {
    /// The store, of which nothing is counted yet.
    pub fn new(store: S) -> CountingStore<S>
        ensures { result ≡ store }
    {
        CountingStore { store, tally: None }
    }

    /// How many atoms have the functor, at every depth. All of them are gone through where another functor was asked for before, and none
    /// where it was this one.
    pub fn count(&mut self, functor: Functor) -> u64
        requires { Valid (S.heap self.old) }
        ensures same { self.new ≡ self.old }
        ensures count { (f : Forest) → IsTree (S.heap self.old) f → result ≡ count_in (S.heap self.old) functor (flat f) }
    {
        match count_of(self.tally, functor) {
            Some(count) => count,
            None => {
                let count = count_atoms(&self.store, functor);
                self.tally = Some(Tally { functor, count });
                count
            }
        }
    }
}

impl<S: LinkStore> LinkStore for CountingStore<S> {
    type Atom = S::Atom;

    type Mem = S::Mem;

    ghost atom_id = { S.atom_id };

    ghost mem_id = { S.mem_id };

    ghost heap = { S.heap };

    fn root(&self) -> S::Mem {
        self.store.root()
    }

    fn functor(&self, a: S::Atom) -> Functor {
        self.store.functor(a)
    }

    fn same_atom(&self, a: S::Atom, b: S::Atom) -> bool {
        self.store.same_atom(a, b)
    }

    fn same_mem(&self, m: S::Mem, n: S::Mem) -> bool {
        self.store.same_mem(m, n)
    }

    fn partner(&self, a: S::Atom, port: u8) -> Option<(S::Atom, u8)> {
        self.store.partner(a, port)
    }

    fn home(&self, a: S::Atom) -> Option<S::Mem> {
        self.store.home(a)
    }

    fn parent(&self, m: S::Mem) -> Option<S::Mem> {
        self.store.parent(m)
    }

    fn first_atom(&self, m: S::Mem) -> Option<S::Atom> {
        self.store.first_atom(m)
    }

    fn next_atom(&self, a: S::Atom) -> Option<S::Atom> {
        self.store.next_atom(a)
    }

    fn first_with(&self, m: S::Mem, f: Functor) -> Option<S::Atom> {
        self.store.first_with(m, f)
    }

    fn next_with(&self, a: S::Atom) -> Option<S::Atom> {
        self.store.next_with(a)
    }

    fn first_mem(&self, m: S::Mem) -> Option<S::Mem> {
        self.store.first_mem(m)
    }

    fn next_mem(&self, n: S::Mem) -> Option<S::Mem> {
        self.store.next_mem(n)
    }

    fn atoms(&self, m: S::Mem) -> u64 {
        self.store.atoms(m)
    }

    fn mems(&self, m: S::Mem) -> u64 {
        self.store.mems(m)
    }

    fn rules(&self, m: S::Mem) -> u64 {
        self.store.rules(m)
    }

    fn membranes(&self) -> u64 {
        self.store.membranes()
    }

    fn next_membrane(&self, m: S::Mem) -> Option<S::Mem> {
        self.store.next_membrane(m)
    }

    fn awake_from(&mut self, start: u64) -> Option<(u64, S::Mem)> {
        self.store.awake_from(start)
    }

    fn items(&self) -> u64 {
        self.store.items()
    }

    fn rule(&self, m: S::Mem, i: u64) -> u32 {
        self.store.rule(m, i)
    }

    fn mark(&self, a: S::Atom, slot: u8) -> u64 {
        self.store.mark(a, slot)
    }

    fn set_mark(&mut self, a: S::Atom, slot: u8, v: u64) {
        self.store.set_mark(a, slot, v);
    }

    fn mem_mark(&self, m: S::Mem) -> u64 {
        self.store.mem_mark(m)
    }

    fn set_mem_mark(&mut self, m: S::Mem, v: u64) {
        self.store.set_mem_mark(m, v);
    }

    fn make_atom(&mut self, alloc: Global, f: Functor) -> Result<S::Atom, NoMemory> {
        self.store.make_atom(alloc, f)
    }

    fn make_mem(&mut self, alloc: Global) -> Result<S::Mem, NoMemory> {
        self.store.make_mem(alloc)
    }

    fn reserve_rules(&mut self, alloc: Global, m: S::Mem, n: u64) -> Result<(), NoMemory> {
        self.store.reserve_rules(alloc, m, n)
    }

    fn discard(&mut self) {
        self.store.discard();
    }

    fn place_atom(&mut self, m: S::Mem) -> S::Atom {
        let _root = self.store.root();
        let a = self.store.place_atom(m);
        self.tally = with_atom(self.tally, &self.store, a);
        a
    }

    fn place_mem(&mut self, m: S::Mem) -> S::Mem {
        self.store.place_mem(m)
    }

    fn take_atom(&mut self, a: S::Atom) {
        let tally = without_atom(self.tally, &self.store, a);
        self.store.take_atom(a);
        self.tally = tally;
    }

    fn take_mem(&mut self, m: S::Mem) {
        self.store.take_mem(m);
    }

    fn move_all(&mut self, m: S::Mem, n: S::Mem) {
        self.store.move_all(m, n);
    }

    fn add_rule(&mut self, m: S::Mem, k: u32) {
        self.store.add_rule(m, k);
    }

    fn copy_rules(&mut self, m: S::Mem, n: S::Mem) {
        self.store.copy_rules(m, n);
    }

    fn join(&mut self, a: S::Atom, i: u8, b: S::Atom, j: u8) {
        self.store.join(a, i, b, j);
    }

    fn finish(&mut self) {
        self.store.finish();
    }
}
