ghost use Rattle.std.specs.Prelude.{◌≡◌, ◌<◌, [], ◌∷◌, ◌++◌, length, slice_get, Some, IfOk};
ghost use Rattle.std.specs.Prelude.{take};

use lmn_base::NoMemory;
use std::alloc::Global;
use std::marker::Model;

/// How many registers of one kind a machine has.
pub const ROOM: usize = 2048;

/// At most `ROOM` values, for which the memory was taken at the start.
#[derive(Drop)]
pub struct Stack<T> {
    items: Vec<T>,
}

impl<T> Model for Stack<T> {
    ghost use Rattle.std.specs.Prelude.{List, vec_capacity, ◌≤◌};
    ghost use Rattle.std.specs.Coded.{coded_list};
    ghost use Rattle.lmn_machine_registers.specs.declared.stack.TheConstants.{ROOM};

    ghost Value = { List T };

    ghost coded = { coded_list T.code };

    ghost view = { λ s. s.items.items };

    ghost invariant = { λ s. ROOM ≤ vec_capacity s.items };
}

impl<T> Stack<T> {
    /// No value.
    pub fn new(alloc: Global) -> Result<Stack<T>, NoMemory>
        ensures { IfOk result (λ s. s ≡ []) }
    {
        Ok(Stack {
            items: Vec::with_capacity(alloc, ROOM)?,
        })
    }

    /// The number of values.
    pub fn len(&self) -> usize
        ensures { result ≡ length self.now }
    {
        self.items.len()
    }
}

impl<T> Stack<T> {
    /// All values, in order.
    pub fn as_slice(&self) -> &[T]
        ensures { result.now ≡ self.now }
    {
        self.items.as_slice()
    }
}

impl<T: Copy> Stack<T> {
    /// The value at a place, counted from 0.
    pub fn at(&self, i: usize) -> T
        requires { i < length self.now }
        ensures { slice_get self.now i ≡ Some result }
    {
        self.items[i]
    }
}

impl<T: Copy> Stack<T> {
    /// Adds a value at the end.
    pub fn push(&mut self, v: T)
        requires { length self.old < ROOM }
        ensures { self.new ≡ self.old ++ v ∷ [] }
    {
        self.items.push_reserved(v);
    }

    /// Keeps the first n values.
    pub fn truncate(&mut self, n: usize)
        ensures { self.new ≡ take n self.old }
    {
        self.items.truncate(n);
    }
}
