ghost use Rattle.std.specs.Prelude.{◌≡◌, ◌<◌};
ghost use Rattle.lmn_order.specs.Answers.{AnswersBelow};

/// A closure that is asked for a number below its second argument: which of `m` membranes, by their numbers in
/// preorder, is asked first after `t` commits. That it answers so is a condition of each call that takes a chooser, since a
/// field can't keep it.
#[derive(Drop)]
pub struct Chooser<F> {
    f: F,
}

impl<F: Fn(u64, u64) -> u64> Chooser<F> {
    /// Keeps a closure.
    pub fn new(f: F) -> Chooser<F>
        requires { AnswersBelow F.pre F.post f }
        ensures same { result.f ≡ f }
        ensures below { AnswersBelow F.pre F.post result.f }
    {
        Chooser { f }
    }

    /// What the closure answers for `t` and `m`, which is at least 1. The answer is below `m`.
    pub fn pick(&self, t: u64, m: u64) -> u64
        requires chooser { AnswersBelow F.pre F.post self.now.f }
        requires some { 0 < m }
        ensures answer { F.post self.now.f t m result }
        ensures below { result < m }
    {
        (self.f)(t, m)
    }
}
