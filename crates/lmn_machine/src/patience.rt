//! How long a search goes on.
ghost use Rattle.std.specs.Prelude.{◌≡◌, ◌<◌, IsTrue, IsFalse};

/// How many candidates of choices may fail before a search is given up. Of atoms the last candidate isn't counted.
#[derive(Drop)]
pub struct Patience {
    left: u64,
}

impl Patience {
    /// That of each look for a match: it bounds what a search loses that goes through all ways to choose what has nothing to do
    /// with a failure.
    pub fn new() -> Patience
        ensures { result.left ≡ 256 }
    {
        Patience { left: 256 }
    }

    /// One candidate failed: whether the search goes on.
    #[inline(always)]
    pub fn lasts(&mut self) -> bool
        ensures some { IsTrue result → 0 < self.old.left }
        ensures gone { IsFalse result → self.new.left ≡ 0 }
    {
        if self.left == 0 {
            return false;
        }
        self.left -= 1;
        true
    }

    /// Whether none is left.
    pub fn is_gone(&self) -> bool
        ensures { IsFalse result → 0 < self.now.left }
    {
        self.left == 0
    }
}
