ghost use Rattle.std.specs.Prelude.{◌≡◌, [], ◌∷◌, ◌++◌, ◌<◌, length, slice_get, slice_set, Some, IfErr, IfOk, OnOk, OnErr, MatchOption};

use crate::memory::NoMemory;
use std::alloc::{AllocFailed, Global};
use std::marker::Model;
use std::mem;

/// A vector that contracts see as the list of its items.
#[derive(Drop)]
pub struct Rows<T> {
    items: Vec<T>,
}

impl<T> Model for Rows<T> {
    ghost use Rattle.std.specs.Prelude.{List};
    ghost use Rattle.std.specs.Coded.{coded_list};

    ghost Value = { List T };

    ghost coded = { coded_list T.code };

    ghost view = { λ r. r.items.items };
}

impl<T> Rows<T> {
    /// No items, with no memory taken.
    pub fn new(alloc: Global) -> Rows<T>
        ensures { result ≡ [] }
    {
        Rows {
            items: Vec::new(alloc),
        }
    }

    /// The items of a vector, with no memory taken.
    pub fn from_vec(items: Vec<T>) -> Rows<T>
        ensures { result ≡ items.items }
    {
        Rows { items }
    }

    /// The items as a vector, with no memory taken.
    pub fn into_vec(self) -> Vec<T>
        ensures { result.items ≡ self }
    {
        let Rows { items } = self;
        items
    }

    /// The number of items.
    pub fn len(&self) -> usize
        ensures { result ≡ length self.now }
    {
        self.items.len()
    }

    /// The item at a place below `len`, counted from 0.
    pub fn at(&self, i: usize) -> &T
        requires { i < length self.now }
        ensures { slice_get self.now i ≡ Some result.now }
    {
        &self.items[i]
    }

    /// All items, in order.
    pub fn as_slice(&self) -> &[T]
        ensures { result.now ≡ self.now }
    {
        self.items.as_slice()
    }

    /// Adds an item at the end.
    ///
    /// # Errors
    ///
    /// `AllocFailed` with the item where there is no memory for it; the rest stays.
    pub fn offer(&mut self, v: T) -> Result<(), AllocFailed<T>>
        ensures ok { OnOk result (self.new ≡ self.old ++ v ∷ []) }
        ensures err { IfErr result (λ failed. (self.new ≡ self.old) × (failed.value ≡ v)) }
    {
        self.make_room(1);
        self.items.push(v)
    }

    /// Asks for room for so many items more where it is wanting: for twice as many items as there are, or for these
    /// alone where they are more. So few items take no more memory than they need. Whether the room was given, the push
    /// behind it tells.
    /// A vector of the library takes room for four at its first push; most lists of a tree have one item, and this
    /// was most of its memory.
    fn make_room(&mut self, more: usize)
        ensures { self.new ≡ self.old }
    {
        let len = self.items.len();
        if self.items.capacity() - len < more {
            let _ = self.items.reserve_exact(len.max(more));
        }
    }

    /// Puts an item in the place `i` of another, counted from 0 and below `len`, and answers that one.
    pub fn replace(&mut self, i: usize, v: T) -> T
        requires { i < length self.old }
        ensures old { slice_get self.old i ≡ Some result }
        ensures new { self.new ≡ slice_set self.old i v }
    {
        mem::replace(&mut self.items[i], v)
    }

    /// Takes the last item out. Where there is none it answers `None` and changes nothing.
    pub fn pop(&mut self) -> Option<T>
        ensures { MatchOption result ((self.old ≡ []) × (self.new ≡ [])) (λ last. self.old ≡ self.new ++ last ∷ []) }
    {
        self.items.pop()
    }
}

impl<T: Drop> Rows<T> {
    /// Adds an item at the end.
    ///
    /// # Errors
    ///
    /// `NoMemory` where there is no memory for it; it is dropped, and the rest stays.
    pub fn push(&mut self, v: T) -> Result<(), NoMemory>
        ensures ok { OnOk result (self.new ≡ self.old ++ v ∷ []) }
        ensures err { OnErr result (self.new ≡ self.old) }
    {
        self.make_room(1);
        self.items.push(v)?;
        Ok(())
    }

    /// Moves the items of `more` to the end.
    ///
    /// # Errors
    ///
    /// `NoMemory` where there is no memory for them; they are dropped, and the rest stays.
    pub fn append(&mut self, more: Rows<T>) -> Result<(), NoMemory>
        ensures ok { OnOk result (self.new ≡ self.old ++ more) }
        ensures err { OnErr result (self.new ≡ self.old) }
    {
        let Rows { mut items } = more;
        self.make_room(items.len());
        self.items.append(&mut items)?;
        Ok(())
    }

    /// Puts an item in the place `i` of another, counted from 0 and below `len`. That one is dropped.
    pub fn set(&mut self, i: usize, v: T)
        requires { i < length self.old }
        ensures { self.new ≡ slice_set self.old i v }
    {
        self.items[i] = v;
    }
}

impl<T: Copy + Drop> Rows<T> {
    /// The items of a slice as rows of their own.
    ///
    /// # Errors
    ///
    /// `NoMemory` where there is no memory for them.
    pub fn copied(alloc: Global, items: &[T]) -> Result<Rows<T>, NoMemory>
        ensures { IfOk result (λ rows. rows ≡ items.now) }
    {
        let mut rows = Rows::new(alloc);
        rows.add_all(items)?;
        Ok(rows)
    }

    /// Adds the items of a slice at the end, in their order.
    ///
    /// # Errors
    ///
    /// `NoMemory` where there is no memory for them; some of them may then stand at the end.
    pub fn add_all(&mut self, items: &[T]) -> Result<(), NoMemory>
        ensures { OnOk result (self.new ≡ self.old ++ items.now) }
    {
        for item in items {
            self.push(*item)?;
        }
        Ok(())
    }
}
