//! Rows that are made, and whose memory is used again for rows of the same length.
ghost use Rattle.std.specs.Prelude.{◌≡◌, ◌≢◌, ℕ, ◌+◌, ◌/◌, ◌%◌, ◌^◌, ◌<◌, ◌≤◌, [], length, OnOk, MatchOption, MatchResult, Some, slice_index_or, slice_set};
ghost use denote.RawPtr.{Ptr};
ghost use Rattle.lmn_web_rows.specs.Rows.{items_in, with_items, half_at, with_half_at, halves_in, link, number, blank, place_of, IsStart, NUMBER_WORD};
ghost use Rattle.lmn_web_rows.specs.Seen.{HaveSameWords, IsMade, IsGone};

use crate::pointers::{behind, is_nowhere, nowhere};
use crate::rows::{Blocks, Rows};
use std::alloc::{AllocError, Global};
use std::marker::Model;

/// How many words a block has. The longest row fits into one.
const BLOCK_WORDS: usize = 262_144;

/// Only rows of fewer words are used again.
const LENGTHS: usize = 1024;

/// The half of a word that is the number of a row, which no other row has.
pub const NUMBER: usize = 14;

// The last number.
const LAST: u32 = 4_294_967_295;

/// Rows, many of them side by side in one block. The memory of a row that is gone is used for the next one of its length, so that
/// of each length below 1,024 words there are never more rows in memory than there were at once. Each row has a number that no other one has.
pub struct Store {
    rows: Rows,
    blocks: Blocks,
    all: Vec<*mut u8>,
    rest: *mut u8,
    left: usize,
    // The row that was kept last, of each length.
    firsts: [*mut u8; LENGTHS],
    // How many rows were numbered: the number of the next one.
    count: u32,
    alloc: Global,
}

impl Model for Store {
    ghost use Rattle.lmn_web_rows.specs.Seen.{Stored, shown, AreNumbered};
    ghost use Rattle.lmn_web_rows.specs.Keeping.{IsStore};

    ghost Value = { Stored };

    ghost view = { λ s. record { rows = shown s.rows.rows; left = s.left; count = s.count } };

    ghost invariant = { λ s. IsStore s.rows.rows s.blocks.blocks s.all.items s.rest s.left s.firsts × AreNumbered s.rows.rows s.count };
}

impl Store {
    /// No row.
    pub fn new(alloc: Global) -> Store
        ensures { result.rows ≡ [] }
    {
        Store {
            rows: Rows::new(),
            blocks: Blocks::new(),
            all: Vec::new(alloc),
            rest: nowhere(),
            left: 0,
            firsts: [nowhere(); LENGTHS],
            count: 0,
            alloc,
        }
    }

    /// All blocks are freed, whatever rows there are.
    pub fn end(self) {
        let Store {
            mut rows,
            mut blocks,
            mut all,
            rest: _,
            left: _,
            firsts: _,
            count: _,
            alloc,
        } = self;
        while let Some(at) = all.pop() {
            blocks.free(&mut rows, &alloc, at, BLOCK_WORDS);
        }
        rows.end();
        blocks.end();
    }

    /// A new row of so many words, in which nothing was written but its number. An error where no memory or no number is left.
    #[inline(always)]
    pub fn make(&mut self, words: usize) -> Result<*mut u8, AllocError>
        requires { (NUMBER_WORD < words) × (words < 2 ^ 18) }
        ensures { MatchResult result
            (λ p. IsStart p × IsMade self.old.rows self.new.rows (place_of p) words)
            (λ _. HaveSameWords self.old.rows self.new.rows) }
    {
        match self.take(words) {
            Some(at) => Ok(at),
            None => self.make_anew(words),
        }
    }

    /// The row isn't there any more.
    #[inline(always)]
    pub fn keep(&mut self, at: *mut u8, words: usize)
        requires { IsStart at × (NUMBER_WORD < words) × (length (items_in self.old.rows (place_of at)) ≡ words) }
        ensures { IsGone self.old.rows self.new.rows (place_of at) }
    {
        self.rows.retire(at);
        if words >= LENGTHS {
            return;
        }
        let first = self.firsts[words];
        self.rows.set_link(at, 0, first);
        self.firsts[words] = at;
    }

    // A row of so many words that was kept, if there is one.
    #[inline(always)]
    fn take(&mut self, words: usize) -> Option<*mut u8>
        requires { NUMBER_WORD < words }
        ensures { MatchOption result (HaveSameWords self.old.rows self.new.rows) (λ p. IsStart p × IsMade self.old.rows self.new.rows (place_of p) words) }
    {
        if words >= LENGTHS {
            return None;
        }
        let at = self.firsts[words];
        if is_nowhere(at) {
            return None;
        }
        self.firsts[words] = self.rows.link(at, 0);
        self.rows.revive(at);
        Some(at)
    }

    // A row of so many words in memory that none had before.
    fn make_anew(&mut self, words: usize) -> Result<*mut u8, AllocError>
        requires { (NUMBER_WORD < words) × (words < 2 ^ 18) }
        ensures { MatchResult result
            (λ p. IsStart p × IsMade self.old.rows self.new.rows (place_of p) words)
            (λ _. HaveSameWords self.old.rows self.new.rows) }
    {
        if self.count == LAST {
            return Err(AllocError);
        }
        self.provide(words)?;
        Ok(self.carve(words))
    }

    // More than so many words of the last block weren't used yet.
    fn provide(&mut self, words: usize) -> Result<(), AllocError>
        requires { words < 2 ^ 18 }
        ensures rows { HaveSameWords self.old.rows self.new.rows }
        ensures count { self.new.count ≡ self.old.count }
        ensures left { OnOk result (words < self.new.left) }
    {
        if words < self.left {
            return Ok(());
        }
        self.all.reserve(1)?;
        let at = self.blocks.make(&mut self.rows, &self.alloc, BLOCK_WORDS)?;
        self.all.push_reserved(at);
        self.rest = at;
        self.left = BLOCK_WORDS;
        Ok(())
    }

    // A row of so many words from the rest of the last block.
    fn carve(&mut self, words: usize) -> *mut u8
        requires { (NUMBER_WORD < words) × (words < self.old.left) × (self.old.count < LAST) }
        ensures { IsStart result × IsMade self.old.rows self.new.rows (place_of result) words }
    {
        let at = self.rest;
        self.rows.cut(at, words);
        self.rest = behind(at, words);
        self.left -= words;
        self.rows.set_half(at, NUMBER, self.count);
        self.count += 1;
        self.rows.revive(at);
        at
    }

    /// The pointer in a word.
    #[inline(always)]
    pub fn link(&self, at: *mut u8, k: usize) -> *mut u8
        requires { IsStart at × (k < 2 ^ 32) × ((p : Ptr) × (slice_index_or (items_in self.now.rows (place_of at)) k blank ≡ link p)) }
        ensures { slice_index_or (items_in self.now.rows (place_of at)) k blank ≡ link result }
    {
        self.rows.link(at, k)
    }

    /// The number in a word.
    #[inline(always)]
    pub fn number(&self, at: *mut u8, k: usize) -> u64
        requires { IsStart at × (k < 2 ^ 32) × ((n : ℕ) × (slice_index_or (items_in self.now.rows (place_of at)) k blank ≡ number n)) }
        ensures { slice_index_or (items_in self.now.rows (place_of at)) k blank ≡ number result }
    {
        self.rows.number(at, k)
    }

    /// The number in a half of a word. Each word has two.
    #[inline(always)]
    pub fn half(&self, at: *mut u8, j: usize) -> u32
        requires { IsStart at × (j < 2 ^ 32) × ((n : ℕ) × (half_at (items_in self.now.rows (place_of at)) j ≡ Some n)) }
        ensures { half_at (items_in self.now.rows (place_of at)) j ≡ Some result }
    {
        self.rows.half(at, j)
    }

    /// A number goes into a half of a word, but not in the place of the row's own. If that word held anything else than halves,
    /// nothing is known of its other one.
    #[inline(always)]
    pub fn set_half(&mut self, at: *mut u8, j: usize, n: u32)
        requires { IsStart at × (j < 2 ^ 32) × (j ≢ NUMBER) × (j / 2 < length (items_in self.old.rows (place_of at))) × (j % 2 < length (halves_in (slice_index_or (items_in self.old.rows (place_of at)) (j / 2) blank))) }
        ensures { self.new.rows ≡ with_items (place_of at) (with_half_at j n (items_in self.old.rows (place_of at))) self.old.rows }
    {
        self.rows.set_half(at, j, n);
    }

    /// A pointer goes into a word, but not into the one with the row's number.
    #[inline(always)]
    pub fn set_link(&mut self, at: *mut u8, k: usize, to: *mut u8)
        requires { IsStart at × (k < 2 ^ 32) × (k ≢ NUMBER_WORD) × (k < length (items_in self.old.rows (place_of at))) }
        ensures { self.new.rows ≡ with_items (place_of at) (slice_set (items_in self.old.rows (place_of at)) k (link to)) self.old.rows }
    {
        self.rows.set_link(at, k, to);
    }

    /// A number goes into a word, but not into the one with the row's own.
    #[inline(always)]
    pub fn set_number(&mut self, at: *mut u8, k: usize, n: u64)
        requires { IsStart at × (k < 2 ^ 32) × (k ≢ NUMBER_WORD) × (k < length (items_in self.old.rows (place_of at))) }
        ensures { self.new.rows ≡ with_items (place_of at) (slice_set (items_in self.old.rows (place_of at)) k (number n)) self.old.rows }
    {
        self.rows.set_number(at, k, n);
    }
}
