//! Rows of words, many of them side by side in one block. All that touches a pointer is here.
ghost use Rattle.std.specs.Prelude.{◌≡◌, ℕ, ◌+◌, ◌/◌, ◌%◌, ◌^◌, ◌<◌, true, false, List as Seq, [], ◌∷◌, ◌++◌, Some, None, length, drop, MatchResult, slice_get, slice_index_or, slice_set, replicate};
ghost use denote.RawPtr.{Ptr, block_ptr, block_of};
ghost use Rattle.lmn_web_rows.specs.Rows.{Row, spare, items_in, half_at, with_half_at, halves_in, with_items, cut_row, with_use, forgotten, first_rows, later_rows, AreSideBySide, block_at, place_of, link, number, blank, IsStart};
ghost use Rattle.lmn_web_rows.specs.Owned.{rows_own, rows_lent, blocks_own};

use std::alloc::{AllocError, Allocator, Global};
use std::marker::{Model, PhantomData};

/// The owner of the rows. It takes no space.
pub struct Rows {
    marker: PhantomData<u8>,
    ghost rows: { Seq Row },
}

impl Model for Rows {
    ghost also_owns = { λ c. rows_own c.rows };

    ghost also_shares = { λ c _ κ. rows_lent c.rows κ };
}

impl Rows {
    /// No row.
    pub fn new() -> Rows
        ensures { result.rows ≡ [] }
    {
        Rows {
            marker: PhantomData,
        }
    }

    /// There is nothing left to free.
    pub fn end(self)
        requires { (b : ℕ) → items_in self.rows b ≡ [] }
    {
        let Rows { marker: _ } = self;
    }

    /// A row becomes two: one of its first words, so many, and one of the others, where no row began before.
    pub fn cut(&mut self, at: *mut u8, count: usize)
        requires { IsStart at × (0 < count) × (count < length (items_in self.old.rows (place_of at))) × (place_of at % 2 ^ 18 + count < 2 ^ 18) }
        ensures { (self.new.rows ≡ cut_row (place_of at) count self.old.rows) × (items_in self.old.rows (place_of at + count) ≡ []) }
    {}

    /// A row comes into use, of which nothing is known but the word with its number.
    pub fn revive(&mut self, at: *mut u8)
        requires { IsStart at }
        ensures { self.new.rows ≡ with_use true (place_of at) (with_items (place_of at) (forgotten (items_in self.old.rows (place_of at))) self.old.rows) }
    {}

    /// A row isn't in use any more.
    pub fn retire(&mut self, at: *mut u8)
        requires { IsStart at }
        ensures { self.new.rows ≡ with_use false (place_of at) self.old.rows }
    {}

    /// The pointer in a word.
    pub fn link(&self, at: *mut u8, k: usize) -> *mut u8
        requires { IsStart at × (k < 2 ^ 32) × ((p : Ptr) × (slice_index_or (items_in self.now.rows (place_of at)) k blank ≡ link p)) }
        ensures { slice_index_or (items_in self.now.rows (place_of at)) k blank ≡ link result }
    {
        unsafe { *(at as *mut *mut u8).add(k) }
    }

    /// The number in a word.
    pub fn number(&self, at: *mut u8, k: usize) -> u64
        requires { IsStart at × (k < 2 ^ 32) × ((n : ℕ) × (slice_index_or (items_in self.now.rows (place_of at)) k blank ≡ number n)) }
        ensures { slice_index_or (items_in self.now.rows (place_of at)) k blank ≡ number result }
    {
        unsafe { *(at as *mut u64).add(k) }
    }

    /// The number in a half of a word. Each word has two.
    pub fn half(&self, at: *mut u8, j: usize) -> u32
        requires { IsStart at × (j < 2 ^ 32) × ((n : ℕ) × (half_at (items_in self.now.rows (place_of at)) j ≡ Some n)) }
        ensures { half_at (items_in self.now.rows (place_of at)) j ≡ Some result }
    {
        unsafe { *(at as *mut u32).add(j) }
    }

    /// A number goes into a half of a word. If that held anything else than halves, nothing is known of its other one.
    pub fn set_half(&mut self, at: *mut u8, j: usize, n: u32)
        requires { IsStart at × (j < 2 ^ 32) × (j / 2 < length (items_in self.old.rows (place_of at))) × (j % 2 < length (halves_in (slice_index_or (items_in self.old.rows (place_of at)) (j / 2) blank))) }
        ensures { self.new.rows ≡ with_items (place_of at) (with_half_at j n (items_in self.old.rows (place_of at))) self.old.rows }
    {
        unsafe {
            *(at as *mut u32).add(j) = n;
        }
    }

    /// A pointer goes into a word.
    pub fn set_link(&mut self, at: *mut u8, k: usize, to: *mut u8)
        requires { IsStart at × (k < 2 ^ 32) × (k < length (items_in self.old.rows (place_of at))) }
        ensures { self.new.rows ≡ with_items (place_of at) (slice_set (items_in self.old.rows (place_of at)) k (link to)) self.old.rows }
    {
        unsafe {
            *(at as *mut *mut u8).add(k) = to;
        }
    }

    /// A number goes into a word.
    pub fn set_number(&mut self, at: *mut u8, k: usize, n: u64)
        requires { IsStart at × (k < 2 ^ 32) × (k < length (items_in self.old.rows (place_of at))) }
        ensures { self.new.rows ≡ with_items (place_of at) (slice_set (items_in self.old.rows (place_of at)) k (number n)) self.old.rows }
    {
        unsafe {
            *(at as *mut u64).add(k) = n;
        }
    }
}

/// The right to free blocks. It takes no space.
pub struct Blocks {
    marker: PhantomData<u8>,
    ghost blocks: { Seq ℕ },
}

impl Model for Blocks {
    ghost also_owns = { λ c. blocks_own c.blocks };
}

impl Blocks {
    /// No block.
    pub fn new() -> Blocks
        ensures { result.blocks ≡ [] }
    {
        Blocks {
            marker: PhantomData,
        }
    }

    /// Each block was freed.
    pub fn end(self)
        requires { self.blocks ≡ [] }
    {
        let Blocks { marker: _ } = self;
    }

    /// A new block of so many words is one row, which isn't in use.
    pub fn make(
        &mut self,
        rows: &mut Rows,
        alloc: &Global,
        count: usize,
    ) -> Result<*mut u8, AllocError>
        requires { count ≡ 2 ^ 18 }
        ensures { MatchResult result
            (λ p. (p ≡ block_ptr (block_of p) 0) × ((n : ℕ) → block_at n ≡ block_of p → items_in rows.old.rows n ≡ []) × (rows.new.rows ≡ spare (place_of p) (replicate count blank) ∷ rows.old.rows) × (self.new.blocks ≡ block_of p ∷ self.old.blocks))
            (λ _. (rows.new.rows ≡ rows.old.rows) × (self.new.blocks ≡ self.old.blocks)) }
    {
        alloc.allocate(count * 8, 8)
    }

    /// The block that came last is freed, of which the first rows are the parts.
    pub fn free(&mut self, rows: &mut Rows, alloc: &Global, at: *mut u8, count: usize)
        requires { (at ≡ block_ptr (block_of at) 0) × (count ≡ 2 ^ 18) × (slice_get self.old.blocks 0 ≡ Some (block_of at)) × AreSideBySide (place_of at) count (first_rows count rows.old.rows) }
        ensures { (self.new.blocks ≡ drop 1 self.old.blocks) × (rows.new.rows ≡ later_rows count rows.old.rows) }
    {
        unsafe { alloc.deallocate(at, count * 8, 8) }
    }
}
