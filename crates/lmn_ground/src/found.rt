ghost use Rattle.std.specs.Prelude.{◌≡◌, [], ◌∷◌, ◌++◌, ◌<◌, length, slice_get, Some, IfOk, OnOk, OnErr, if◌then◌else◌};

use lmn_base::NoMemory;
use std::alloc::Global;
use std::marker::Model;

/// What a walk has found, in order: any number of values.
#[derive(Drop)]
pub struct Found<T> {
    items: Vec<T>,
}

impl<T> Model for Found<T> {
    ghost use Rattle.std.specs.Prelude.{List};
    ghost use Rattle.std.specs.Coded.{coded_list};

    ghost Value = { List T };

    ghost coded = { coded_list T.code };

    ghost view = { λ f. f.items.items };
}

impl<T> Found<T> {
    /// Nothing, with no memory taken.
    pub fn new(alloc: Global) -> Found<T>
        ensures { result ≡ [] }
    {
        Found {
            items: Vec::new(alloc),
        }
    }

    /// Nothing, with the memory for n values taken at once.
    pub fn with_room(alloc: Global, n: usize) -> Result<Found<T>, NoMemory>
        ensures { IfOk result (λ f. f ≡ []) }
    {
        Ok(Found {
            items: Vec::with_capacity(alloc, n)?,
        })
    }

    /// How many have been found.
    #[inline(always)]
    pub fn len(&self) -> usize
        ensures { result ≡ length self.now }
    {
        self.items.len()
    }

    /// Asks for room for so many more. Whether it was given, the pushes behind it tell.
    pub fn reserve(&mut self, more: usize)
        ensures { self.new ≡ self.old }
    {
        let _ = self.items.reserve_exact(more);
    }
}

impl<T: Drop> Found<T> {
    /// The one at a place below `len`, counted from 0.
    #[inline(always)]
    pub fn at(&self, i: usize) -> &T
        requires { i < length self.now }
        ensures { slice_get self.now i ≡ Some result.now }
    {
        &self.items[i]
    }

    /// Adds one at the end. At want of memory those before stay.
    #[inline(always)]
    pub fn push(&mut self, v: T) -> Result<(), NoMemory>
        ensures ok { OnOk result (self.new ≡ self.old ++ v ∷ []) }
        ensures err { OnErr result (self.new ≡ self.old) }
    {
        self.items.push(v)?;
        Ok(())
    }

    /// Adds one at the end, where memory is at hand for it: none is taken. Answers whether it was added.
    #[inline(always)]
    pub fn push_if_room(&mut self, v: T) -> bool
        ensures { self.new ≡ (if result then self.old ++ v ∷ [] else self.old) }
    {
        if self.items.len() == self.items.capacity() {
            return false;
        }
        self.items.push_reserved(v);
        true
    }

    /// Takes all away. Their memory stays at hand.
    pub fn clear(&mut self)
        ensures { self.new ≡ [] }
    {
        self.items.clear();
    }
}
