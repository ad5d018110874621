ghost use Rattle.std.specs.Prelude.{◌≡◌, ◌↔◌, IsTrue};
ghost use Rattle.lmn_debug.specs.Breaks.{AnswersSo, StandsSo};

use lmn_base::Cmp;

/// A closure that is asked whether a count stands in a relation to a number. That it answers so is a condition of each call that
/// takes a break.
#[derive(Drop)]
pub struct Break<G> {
    f: G,
    op: Cmp,
    n: u64,
}

impl<G: Fn(u64) -> bool> Break<G> {
    /// Keeps a closure that answers whether a count stands so to `n`.
    pub fn new(f: G, op: Cmp, n: u64) -> Break<G>
        requires { AnswersSo G.pre G.post f op n }
        ensures same { (result.f ≡ f) × (result.op ≡ op) × (result.n ≡ n) }
        ensures answers { AnswersSo G.pre G.post result.f result.op result.n }
    {
        Break { f, op, n }
    }

    /// Whether the count stands so.
    pub fn met(&self, count: u64) -> bool
        requires { AnswersSo G.pre G.post self.now.f self.now.op self.now.n }
        ensures { IsTrue result ↔ StandsSo self.now.op count self.now.n }
    {
        (self.f)(count)
    }
}
