ghost use Rattle.std.specs.Prelude.{◌≡◌};
ghost use Rattle.lmn_app_single.specs.Endings.{second_status};

use lmn_app_words::PairKind;
use lmn_base::Refusal;

/// How a call ends. Each ending has a status and a line on `err`, which may be nothing.
#[derive(Clone, Copy)]
pub enum Ending {
    /// The last process has no reduction, and all was written.
    Done,
    /// The budget's commits are done, the last process has a reduction, and all was written.
    Budget,
    /// The text is refused.
    Refused(Refusal),
    /// The words aren't of the form.
    Words,
    /// The file couldn't be fetched.
    ReadFault,
    /// The output couldn't be written.
    WriteFault,
    /// Memory was wanting.
    NoMemory,
    /// The next commit would leave too many items, and all was written.
    Full,
    /// The second text is refused, as a trace, a script, a listing or weights are.
    SecondRefused(PairKind, Refusal),
}

impl Ending {
    ghost use Rattle.std.specs.Prelude.{◌≡◌};
    ghost use Rattle.lmn_app_single.specs.Endings.{status_of};

    /// The status of the program: 0 for done, 1 for the budget, 2 for a refused text, 3 for the words,
    /// 4 for a read fault, 5 for a write fault, 6 for want of memory, 7 for too many items, 8 for a trace, 9 for a script, 10 for a listing,
    /// 11 for weights.
    pub fn status(self) -> u8
        ensures { result ≡ status_of self }
    {
        match self {
            Ending::Done => 0,
            Ending::Budget => 1,
            Ending::Refused(_) => 2,
            Ending::Words => 3,
            Ending::ReadFault => 4,
            Ending::WriteFault => 5,
            Ending::NoMemory => 6,
            Ending::Full => 7,
            Ending::SecondRefused(kind, _) => second_status(kind),
        }
    }
}

/// The status of a refusal of a second text.
fn second_status(kind: PairKind) -> u8
    ensures { result ≡ second_status kind }
{
    match kind {
        PairKind::Check => 8,
        PairKind::Debug => 9,
        PairKind::Exec => 10,
        PairKind::Bound => 11,
    }
}
