ghost use Rattle.std.specs.Prelude.{ℕ, ◌≡◌, ◌<◌, ◌+◌, ◌^◌, ◌++◌, ◌∷◌, [], length, IfOk, OnOk, OnErr};
ghost use Rattle.lmn_store_heap.specs.Heap.{alter};
ghost use Rattle.lmn_base.specs.Lists.{In};
ghost use Rattle.lmn_store_heap.specs.Lists.{Distinct, without, from, after};
ghost use Rattle.lmn_store_slab.specs.Lines.{SameSize, list_at};

use crate::table::Table;
use lmn_base::NoMemory;
use std::alloc::Global;
use std::marker::Model;

/// Lists of numbers with their lengths. Each number is in at most one, and moving it takes no memory.
#[derive(Drop)]
pub struct Lists {
    table: Table,
    counts: Vec<usize>,
}

impl Model for Lists {
    ghost use Rattle.std.specs.Prelude.{◌≡◌};
    ghost use Rattle.lmn_store_slab.specs.Lines.{HeldLists, lengths};

    ghost Value = { HeldLists };

    ghost view = { λ s. s.table };

    ghost invariant = { λ s. s.counts.items ≡ lengths s.table.lists };
}

impl Lists {
    /// No list and no number.
    pub fn new(alloc: Global) -> Lists
        ensures { result ≡ record { lists = []; size = 0 } }
    {
        Lists {
            table: Table::new(alloc),
            counts: Vec::new(alloc),
        }
    }

    /// How many numbers there are.
    pub fn size(&self) -> usize
        ensures { result ≡ self.now.size }
    {
        self.table.size()
    }

    /// How many lists there are.
    pub fn list_count(&self) -> usize
        ensures { result ≡ length self.now.lists }
    {
        self.counts.len()
    }

    /// The first of a list.
    pub fn first(&self, list: usize) -> Option<usize>
        requires { list < length self.now.lists }
        ensures { from result (list_at self.now list) ≡ list_at self.now list }
    {
        self.table.first(list)
    }

    /// The one behind a number of a list.
    pub fn next(&self, list: usize, x: usize) -> Option<usize>
        requires list { list < length self.now.lists }
        requires there { In x (list_at self.now list) }
        ensures { from result (list_at self.now list) ≡ after x (list_at self.now list) }
    {
        self.table.next(list, x)
    }

    /// The length of a list.
    pub fn count(&self, list: usize) -> usize
        requires { list < length self.now.lists }
        ensures { result ≡ length (list_at self.now list) }
    {
        self.counts[list]
    }

    /// A number leaves its list.
    pub fn unlink(&mut self, list: usize, x: usize)
        requires list { list < length self.old.lists }
        requires there { In x (list_at self.old list) }
        ensures lists { list_at self.new ≡ alter (list_at self.old) list (without x) }
        ensures count { length self.new.lists ≡ length self.old.lists }
        ensures size { self.new.size ≡ self.old.size }
    {
        self.table.unlink(list, x);
        self.counts[list] -= 1;
    }

    /// A number that is in no list goes to the end of one.
    pub fn push_last(&mut self, list: usize, x: usize)
        requires list { list < length self.old.lists }
        requires number { x < self.old.size }
        requires free { (l : ℕ) → In x (list_at self.old l) → ⊥ }
        ensures lists { list_at self.new ≡ alter (list_at self.old) list (λ xs. xs ++ x ∷ []) }
        ensures count { length self.new.lists ≡ length self.old.lists }
        ensures size { self.new.size ≡ self.old.size }
    {
        self.table.push_last(list, x);
        self.counts[list] += 1;
    }

    /// A number leaves its list, the only one that it is in, and goes to the end of one.
    pub fn move_last(&mut self, from_list: usize, to_list: usize, x: usize)
        requires from_list { from_list < length self.old.lists }
        requires to_list { to_list < length self.old.lists }
        requires number { x < self.old.size }
        requires there { In x (list_at self.old from_list) }
        requires once { Distinct (list_at self.old from_list) }
        requires only { (l : ℕ) → In x (list_at self.old l) → l ≡ from_list }
        ensures lists { list_at self.new ≡ alter (alter (list_at self.old) from_list (without x)) to_list (λ xs. xs ++ x ∷ []) }
        ensures sizes { SameSize self.old self.new }
    {
        self.unlink(from_list, x);
        self.push_last(to_list, x);
    }

    /// A new list, with nothing in it.
    pub fn add_list(&mut self) -> Result<usize, NoMemory>
        ensures list { IfOk result (λ l. l ≡ length self.old.lists) }
        ensures lists { list_at self.new ≡ list_at self.old }
        ensures ok { OnOk result (length self.new.lists ≡ length self.old.lists + 1) }
        ensures fits { OnOk result (length self.new.lists < 2 ^ 63) }
        ensures err { OnErr result (self.new ≡ self.old) }
        ensures size { self.new.size ≡ self.old.size }
    {
        self.counts.reserve(1)?;
        let list = self.table.add_list()?;
        self.counts.push_reserved(0);
        Ok(list)
    }

    /// A new number, in no list.
    pub fn add_number(&mut self) -> Result<usize, NoMemory>
        ensures number { IfOk result (λ x. x ≡ self.old.size) }
        ensures ok { OnOk result (self.new ≡ record self.old { size = self.old.size + 1 }) }
        ensures err { OnErr result (self.new ≡ self.old) }
    {
        self.table.add_number()
    }
}
