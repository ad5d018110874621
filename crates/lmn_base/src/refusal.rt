ghost use Rattle.std.specs.Prelude.{◌≡◌, List, [], ◌∷◌, ◌++◌};
ghost use Rattle.lmn_base.specs.declared.refusal.Pos.{Pos};
ghost use Rattle.lmn_base.specs.Firsts.{IsFirst, Row, AnswersBy};
ghost use Rattle.lmn_base.specs.PlaceOrder.{not_after};
ghost use Rattle.lmn_base.specs.Codes.{code_number};

use crate::code::RefusalCode;
use crate::memory::NoMemory;

/// A place in a text.
#[derive(Clone, Copy, Debug, PartialEq, Eq)]
pub struct Pos {
    /// The line, counted from 1 by line feeds.
    pub line: u64,
    /// The column in its line, counted from 1 in bytes.
    pub column: u64,
}

impl Pos {
    /// Whether this place is before another one in the text, or is the same.
    pub fn is_not_after(self, other: Pos) -> bool
        ensures { result ≡ not_after self other }
    {
        self.line < other.line || self.line == other.line && self.column <= other.column
    }
}

/// Why a text is refused, and where.
#[derive(Clone, Copy, Debug)]
pub struct Refusal {
    /// The number of the code: 1 for `E01`, 50 for `E50`.
    pub code: u8,
    /// The place to which the code points.
    pub pos: Pos,
}

/// Why a text could not be read.
#[derive(Clone, Copy, Debug)]
pub enum TextFault {
    /// The text is refused.
    Refused(Refusal),
    /// Memory was wanting; nothing is said of the text.
    NoMemory,
}

impl From<Refusal> for TextFault {
    ghost use Rattle.std.specs.Prelude.{◌≡◌};
    ghost use Rattle.lmn_base.specs.declared.refusal.TextFault.TheVariants as fault;

    ghost from_gives = { λ r e. e ≡ fault.Refused r };

    fn from(refusal: Refusal) -> TextFault {
        TextFault::Refused(refusal)
    }
}

impl From<NoMemory> for TextFault {
    ghost use Rattle.std.specs.Prelude.{◌≡◌};
    ghost use Rattle.lmn_base.specs.declared.refusal.TextFault.TheVariants as fault;

    ghost from_gives = { λ _ e. e ≡ fault.NoMemory };

    fn from(_fault: NoMemory) -> TextFault {
        TextFault::NoMemory
    }
}

/// Refuses by a code at the first place where it applies.
///
/// # Errors
///
/// The refusal by the code at that place, where there is one.
pub fn refuse(code: RefusalCode, first: Option<Pos>) -> Result<(), Refusal>
    ensures { (ps : List Pos) → IsFirst ps first → AnswersBy (record { code = code_number code; places = ps } ∷ []) result }
{
    match first {
        Some(pos) => Err(code.at(pos)),
        None => Ok(()),
    }
}

/// The first of two answers that is a refusal.
///
/// # Errors
///
/// The refusal of the first answer, else that of the later one.
pub fn first_refusal(first: Result<(), Refusal>, later: Result<(), Refusal>) -> Result<(), Refusal>
    ensures { (rows more : List Row) → AnswersBy rows first → AnswersBy more later → AnswersBy (rows ++ more) result }
{
    match first {
        Err(refusal) => Err(refusal),
        Ok(()) => later,
    }
}
