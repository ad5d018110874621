use lmn_order::Order;

/// What the words of the command line ask for.
#[derive(Clone, Copy, Debug, PartialEq, Eq)]
pub enum Command<'w> {
    /// A run of a file.
    Run(RunWords<'w>),
    /// A listing of the code of a file, by its name, which isn't empty and doesn't begin with `-`.
    Compile(&'w str),
    /// A run of the text that is made of this number: 1 to 100000.
    Demo(u64),
    /// What is done with a program and a second text.
    Pair(PairWords<'w>),
}

/// A command with a program and a second text.
#[derive(Clone, Copy, Debug, PartialEq, Eq)]
pub enum PairKind {
    /// `check`: whether a trace is one of the program.
    Check,
    /// `debug`: a session over the program, by a script of orders.
    Debug,
    /// `exec`: a run of the program by the codes of a listing.
    Exec,
    /// `bound`: how many commits the program has at most, by weights.
    Bound,
}

/// What the words of a command with a program and a second text ask for. The names aren't empty and don't begin with `-`.
#[derive(Clone, Copy, Debug, PartialEq, Eq)]
pub struct PairWords<'w> {
    /// What is done.
    pub kind: PairKind,
    /// The name of the program's file.
    pub file: &'w str,
    /// The name of the file of the second text.
    pub second: &'w str,
}

impl PairKind {
    ghost use Rattle.std.specs.Prelude.{◌≡◌};
    ghost use Rattle.lmn_app_words.specs.Forms.{pair_of, pair_word};
    ghost use Rattle.lmn_app_words.specs.Hearing.{pair_in_order, pair_named};

    /// The word of the command.
    pub fn word(self) -> &'static str
        ensures { result.now ≡ pair_word self }
    {
        match self {
            PairKind::Check => "check",
            PairKind::Debug => "debug",
            PairKind::Exec => "exec",
            PairKind::Bound => "bound",
        }
    }

    /// The command with this word.
    pub(crate) fn named(word: &str) -> Option<PairKind>
        ensures { result ≡ pair_named word.now }
    {
        match word {
            "check" => Some(PairKind::Check),
            "debug" => Some(PairKind::Debug),
            "exec" => Some(PairKind::Exec),
            "bound" => Some(PairKind::Bound),
            _ => None,
        }
    }

    /// What the command is asked for by two words. The program's stands first, but for `exec` last.
    pub(crate) fn of_words<'w>(self, first: &'w str, last: &'w str) -> PairWords<'w>
        ensures { pair_of result ≡ pair_in_order self first.entry.now last.entry.now }
    {
        match self {
            PairKind::Check | PairKind::Debug | PairKind::Bound => PairWords {
                kind: self,
                file: first,
                second: last,
            },
            PairKind::Exec => PairWords {
                kind: self,
                file: last,
                second: first,
            },
        }
    }
}

/// What the words of `run` ask for.
#[derive(Clone, Copy, Debug, PartialEq, Eq)]
pub struct RunWords<'w> {
    /// The name of the file: it isn't empty and doesn't begin with `-`.
    pub file: &'w str,
    /// What the run is given.
    pub settings: RunSettings,
}

/// What a run is given.
#[derive(Clone, Copy, Debug, PartialEq, Eq)]
pub struct RunSettings {
    /// Whether each process is written, and not the last one alone.
    pub trace: bool,
    /// Whether processes are written in the folded form.
    pub folded: bool,
    /// How many commits are done at most: 0 to 9223372036854775807.
    pub budget: u64,
    /// How many items a commit may leave: 1 to 4294967295.
    pub size: u64,
    /// Which membrane is asked first. It carries the seed, which is at most 9223372036854775807 and has no effect with
    /// another order.
    pub order: Order,
}
