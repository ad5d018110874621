ghost use Rattle.std.specs.Prelude.{◌≡◌, ◌<◌, ◌+◌, ◌^◌, ◌++◌, ◌∷◌, [], length, slice_set, IfOk, OnErr};
ghost use Rattle.lmn_store_slab.specs.Lines.{HeldLists, list_at, IsFree};
ghost use Rattle.lmn_base.specs.Lists.{In};
ghost use Rattle.lmn_store_heap.specs.Lists.{without, from, after};

use crate::links::{set_next, set_prev};
use crate::node::{Ends, Node};
use lmn_base::NoMemory;
use std::alloc::Global;
use std::marker::Model;

/// Lists of numbers. Each number is in at most one, and moving it takes no memory.
#[derive(Drop)]
pub struct Table {
    nodes: Vec<Node>,
    ends: Vec<Ends>,
}

impl Model for Table {
    ghost use Rattle.lmn_store_slab.specs.Lines.{HeldLists, WellLinked, view_of};

    ghost Value = { HeldLists };

    ghost view = { λ t. view_of t.nodes.items t.ends.items };

    ghost invariant = { λ t. WellLinked t.nodes.items t.ends.items };
}

impl Table {
    pub fn new(alloc: Global) -> Table
        ensures { result ≡ record { lists = []; size = 0 } }
    {
        Table {
            nodes: Vec::new(alloc),
            ends: Vec::new(alloc),
        }
    }

    /// The first of a list.
    pub fn first(&self, list: usize) -> Option<usize>
        requires { list < length self.now.lists }
        ensures { from result (list_at self.now list) ≡ list_at self.now list }
    {
        self.ends[list].first
    }

    /// The one after a number of a list.
    pub fn next(&self, list: usize, x: usize) -> Option<usize>
        requires list { list < length self.now.lists }
        requires there { In x (list_at self.now list) }
        ensures { from result (list_at self.now list) ≡ after x (list_at self.now list) }
    {
        self.nodes[x].next
    }

    /// A number leaves its list.
    pub fn unlink(&mut self, list: usize, x: usize)
        requires list { list < length self.old.lists }
        requires there { In x (list_at self.old list) }
        ensures lists { self.new ≡ record self.old { lists = slice_set self.old.lists list (without x (list_at self.old list)) } }
        ensures gone { In x (list_at self.new list) → ⊥ }
    {
        let node = self.nodes[x];
        let mut ends = self.ends[list];
        set_next(&mut self.nodes, &mut ends, node.prev, node.next);
        set_prev(&mut self.nodes, &mut ends, node.next, node.prev);
        self.nodes[x] = Node {
            prev: None,
            next: None,
            home: None,
        };
        self.ends[list] = ends;
    }

    /// A free number goes to the end of a list.
    pub fn push_last(&mut self, list: usize, x: usize)
        requires list { list < length self.old.lists }
        requires number { x < self.old.size }
        requires free { IsFree self.old x }
        ensures lists { self.new ≡ record self.old { lists = slice_set self.old.lists list (list_at self.old list ++ x ∷ []) } }
        ensures fits { length (list_at self.new list) < 2 ^ 64 }
    {
        let mut ends = self.ends[list];
        self.nodes[x] = Node {
            prev: ends.last,
            next: None,
            home: Some(list),
        };
        let last = ends.last;
        set_next(&mut self.nodes, &mut ends, last, Some(x));
        ends.last = Some(x);
        self.ends[list] = ends;
    }

    /// A new list, with nothing in it.
    pub fn add_list(&mut self) -> Result<usize, NoMemory>
        ensures ok { IfOk result (λ l. (l ≡ length self.old.lists)
            × (self.new ≡ record self.old { lists = self.old.lists ++ [] ∷ [] })) }
        ensures err { OnErr result (self.new ≡ self.old) }
    {
        let list = self.ends.len();
        self.ends.push(Ends {
            first: None,
            last: None,
        })?;
        Ok(list)
    }

    /// A new number, in no list.
    pub fn add_number(&mut self) -> Result<usize, NoMemory>
        ensures ok { IfOk result (λ x. (x ≡ self.old.size)
            × (self.new ≡ record self.old { size = self.old.size + 1 })) }
        ensures err { OnErr result (self.new ≡ self.old) }
    {
        let number = self.nodes.len();
        self.nodes.push(Node {
            prev: None,
            next: None,
            home: None,
        })?;
        Ok(number)
    }

    pub fn size(&self) -> usize
        ensures { result ≡ self.now.size }
    {
        self.nodes.len()
    }
}
