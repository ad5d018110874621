ghost use Rattle.std.specs.Prelude.{◌≡◌};
ghost use Rattle.lmn_app_runs.specs.Runs.{word_of_stop};

/// Why a run stopped.
#[derive(Clone, Copy, PartialEq, Eq)]
pub enum Stop {
    /// No rule has a match.
    Irreducible,
    /// As many commits as the budget allows are done, and a rule has a match.
    Budget,
    /// The next commit would leave more items than are allowed.
    Full,
    /// Memory was wanting for the next commit.
    NoMemory,
}

impl Stop {
    /// The word of the end line, in ASCII.
    pub fn word(self) -> &'static [u8]
        ensures { result.now ≡ word_of_stop self }
    {
        match self {
            Stop::Irreducible => b"irreducible",
            Stop::Budget => b"budget",
            Stop::Full => b"full",
            Stop::NoMemory => b"no memory",
        }
    }
}
