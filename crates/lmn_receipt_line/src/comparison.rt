//! A sink that compares.
ghost use Rattle.std.specs.Prelude.{◌≡◌, ◌<◌, ◌≤◌, ◌++◌, ℕ, List, [], IfSome, None, Some, drop, length, slice_get, take};

use lmn_io::{Failed, Sink};
use std::marker::Model;

/// A sink that takes the bytes of a text, one behind the other. It takes the first byte that is another one too, fails there, and takes
/// nothing more. Contracts see the text, what was taken, and the counts. What it tells begins with the text and the length of that: of
/// a call that is generic in its sink this alone is known, and so the text stays the same.
#[derive(Drop)]
pub(crate) struct Comparison<'t> {
    text: &'t [u8],
    /// How many bytes of the text were met.
    at: usize,
    /// The byte that is another one.
    other: Option<u8>,
    failures: u64,
    since: u64,
}

impl<'t> Model for Comparison<'t> {
    ghost use Rattle.std.specs.Prelude.{ℕ, List, take};
    ghost use Rattle.lmn_receipt_line.specs.Comparing.{Compared, IsComparison, followed_by};

    ghost Value = { Compared };

    ghost view = { λ c. record { text = c.text.now; taken = followed_by (take c.at c.text.now) c.other; faults = record { count = c.failures; since = c.since } } };

    ghost invariant = { λ c. IsComparison c.text.now c.at c.other c.failures };
}

impl<'t> Comparison<'t> {
    /// Nothing was taken.
    pub(crate) fn new(text: &'t [u8]) -> Comparison<'t>
        ensures { result ≡ record { text = text.now; taken = []; faults = record { count = 0; since = 0 } } }
    {
        Comparison {
            text,
            at: 0,
            other: None,
            failures: 0,
            since: 0,
        }
    }

    /// How many bytes were taken, where the text begins with them.
    pub(crate) fn met(&self) -> Option<usize>
        ensures none { result ≡ None → (more rest : List ℕ) → ¬ (self.now.text ≡ (self.now.taken ++ more) ++ rest) }
        ensures none_failed { result ≡ None → 0 < self.now.faults.count }
        ensures some { IfSome result (λ len. (len ≡ length self.now.taken) × (self.now.text ≡ self.now.taken ++ drop len self.now.text)) }
        ensures some_failed { IfSome result (λ len. self.now.faults.count ≡ 0) }
    {
        match self.other {
            Some(_) => None,
            None => Some(self.at),
        }
    }
}

/// What stands behind a place of a text.
fn behind(text: &[u8], at: usize) -> &[u8]
    requires { at ≤ length text.now }
    ensures { result.now ≡ drop at text.now }
{
    &text[at..]
}

/// How many bytes two texts begin with that are the same.
fn common(left: &[u8], right: &[u8]) -> usize
    ensures left { result ≤ length left.now }
    ensures right { result ≤ length right.now }
    ensures same { take result left.now ≡ take result right.now }
    ensures differ { result < length right.now → ¬ (slice_get left.now result ≡ slice_get right.now result) }
{
    for count in 0..right.len() {
        if count == left.len() {
            return count;
        }
        if left[count] != right[count] {
            return count;
        }
    }
    right.len()
}

impl<'t> Sink for Comparison<'t> {
    ghost use Rattle.std.specs.Prelude.{Some};
    ghost use Rattle.lmn_receipt_line.specs.Comparing.{told_of};

    ghost told = { λ c. Some (told_of c) };

    ghost faults = { λ c. c.faults };

    fn put(&mut self, piece: &[u8]) -> Result<(), Failed> {
        if self.other.is_some() {
            self.failures = self.failures.saturating_add(1);
            self.since = 0;
            return Err(Failed);
        }
        let count = common(behind(self.text, self.at), piece);
        self.at += count;
        if count == piece.len() {
            self.since = self.since.saturating_add(1);
            return Ok(());
        }
        self.other = Some(piece[count]);
        self.failures = self.failures.saturating_add(1);
        self.since = 0;
        Err(Failed)
    }
}
