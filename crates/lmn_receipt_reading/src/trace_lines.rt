//! Traces that are read line by line.
use lmn_io::FetchFault;
use std::alloc::Global;

/// A trace that is read line by line. At hand are the line that was met last and what is ahead, as far as the end of its first line.
pub trait TraceLines {
    ghost use Rattle.std.specs.Prelude.{◌≡◌, ◌<◌, ◌≤◌, ◌++◌, ℕ, List, IfOk, IsErrOf, length, take};
    ghost use Rattle.lmn_receipt_reading.specs.Windows.{IsWindow};

    /// Whether less than all that is left may be ahead.
    ghost cuts: { Type 0 };
    /// What is asked of it. `meet` keeps it.
    ghost is_ready: { Self → Type 0 };
    /// What may be left, by what is known: what isn't met yet is one of these.
    ghost is_rest: { Self → List ℕ → Type 0 };
    /// What was met last: nothing at the beginning.
    ghost last: { Self → List ℕ };
    /// What of the rest is at hand.
    ghost window: { Self → List ℕ };
    /// How many bytes may still come.
    ghost left: { Self → ℕ };
    /// What a call of `meet` does to what the trace is read from.
    ghost reads: { Self → Self → Type 0 };
    /// And what one does that fails.
    ghost fails: { Self → Self → Type 0 };

    /// What was met last.
    fn met(&self) -> &[u8]
        ensures { result.now ≡ last self.now };

    /// What is ahead: all that is left, or the first line of it, its line feed and at least one byte behind.
    fn ahead(&self) -> &[u8]
        requires { is_ready self.now }
        ensures is { result.now ≡ window self.now }
        ensures window { (rest : List ℕ) → is_rest self.now rest → IsWindow cuts rest result.now }
        ensures some { (rest : List ℕ) × is_rest self.now rest };

    /// Goes behind so many bytes of what is ahead: they are what was met last.
    ///
    /// # Errors
    ///
    /// `Failed` where what comes then can't be read. `NoMemory` at any time.
    fn meet(&mut self, alloc: Global, len: usize) -> Result<(), FetchFault>
        requires ready { is_ready self.old }
        requires len { (0 < len) × (len ≤ length (window self.old)) }
        ensures reads { reads self.old self.new }
        ensures fails { IsErrOf result FetchFault.Failed → fails self.old self.new }
        ensures ready { IfOk result (λ _. is_ready self.new) }
        ensures met { IfOk result (λ _. last self.new ≡ take len (window self.old)) }
        ensures rest { IfOk result (λ _. (rest : List ℕ) → is_rest self.new rest → is_rest self.old (take len (window self.old) ++ rest)) }
        ensures left { IfOk result (λ _. left self.new < left self.old) };
}

/// The lines of a trace that is at hand whole.
#[derive(Clone, Copy)]
pub struct SliceLines<'t> {
    /// What was met last.
    met: &'t [u8],
    /// All that is left.
    rest: &'t [u8],
}

impl<'t> SliceLines<'t> {
    ghost use Rattle.std.specs.Prelude.{◌≡◌};

    /// Before the first line of a trace.
    pub fn new(trace: &'t [u8]) -> SliceLines<'t>
        ensures { result.rest.now ≡ trace.now }
    {
        SliceLines {
            met: &[],
            rest: trace,
        }
    }
}

impl TraceLines for SliceLines<'_> {
    ghost use Rattle.std.specs.Prelude.{◌≡◌, length};

    ghost cuts = { ⊥ };

    ghost is_ready = { λ _. Unit {0} };

    ghost is_rest = { λ lines rest. rest ≡ lines.rest.now };

    ghost last = { λ lines. lines.met.now };

    ghost window = { λ lines. lines.rest.now };

    ghost left = { λ lines. length lines.rest.now };

    ghost reads = { λ _ _. Unit {0} };

    ghost fails = { λ _ _. ⊥ };

    fn met(&self) -> &[u8] {
        self.met
    }

    fn ahead(&self) -> &[u8] {
        self.rest
    }

    fn meet(&mut self, _alloc: Global, len: usize) -> Result<(), FetchFault> {
        let rest = self.rest;
        self.met = &rest[..len];
        self.rest = &rest[len..];
        Ok(())
    }
}
