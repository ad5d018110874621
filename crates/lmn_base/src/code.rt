//! The codes by which a text is refused, each with its number and its words.

ghost use Rattle.std.specs.Prelude.{◌≡◌};
ghost use Rattle.lmn_base.specs.Codes.{code_of, code_number, code_words, words_of_number};

use crate::refusal::{Pos, Refusal};

/// Why a text is refused: a program's by the codes up to 50, the second text of a command by those from 60 on.
#[derive(Clone, Copy)]
pub enum RefusalCode {
    /// The text has more than 4,194,304 bytes.
    TextTooLong = 1,
    /// A byte that begins nothing, or may not stand in quotes.
    BadByte = 2,
    /// A name in quotes or a comment that doesn't end.
    NotClosed = 3,
    /// An integer outside of 64 bits.
    IntegerOutOfRange = 4,
    /// A name of more than 255 bytes.
    NameTooLong = 5,
    /// Digits, a `.` and a digit.
    FloatingPoint = 6,
    /// A `"`.
    StringLiteral = 7,
    /// A `[:`.
    InlineCode = 8,
    /// A `!`.
    Hyperlink = 9,
    /// A token with which no program begins.
    UnexpectedToken = 10,
    /// A bracket inside 200 others, or more than 255 operators on one side.
    NestingTooDeep = 11,
    /// More than 255 arguments, the own link of a term included.
    TooManyArguments = 12,
    /// A link occurs once in the process.
    LinkOnce = 20,
    /// A link occurs more than twice in the process.
    LinkTooOften = 21,
    /// A link occurs once in a rule.
    LinkOnceInRule = 22,
    /// A link occurs more than twice in a rule.
    LinkTooOftenInRule = 23,
    /// An untyped context stands at the top of a head.
    ContextOutsideHeadMembrane = 30,
    /// A head membrane has two untyped contexts, or two rule contexts.
    TwoContextsInMembrane = 31,
    /// A context, or a rule context, stands twice in a head.
    ContextTwiceInHead = 32,
    /// An untyped context of the head stands not exactly once in the body, bare.
    ContextNotOnceInBody = 33,
    /// A context of the body is neither in the head nor bound in the guard.
    ContextNotInHead = 34,
    /// A rule context stands at the top of a head.
    RuleContextOutsideHeadMembrane = 35,
    /// A rule stands in a head.
    RuleInHead = 36,
    /// A connector stands in a head.
    ConnectorInHead = 37,
    /// A head holds nothing.
    EmptyHead = 38,
    /// A context or a rule context stands outside every rule.
    ContextOutsideRule = 39,
    /// A context of the head that isn't bare has no type by the guard.
    ContextWithoutType = 40,
    /// A condition isn't `int`, `unary` or `ground` with one argument.
    UnknownGuard = 41,
    /// The operands of `=` or of `\=` may not stand together.
    WrongOperands = 42,
    /// A condition uses a context that is neither in the head nor bound before.
    UnboundContext = 43,
    /// A rule has more items, conditions or values than a rule may have.
    RuleTooLarge = 44,
    /// A context is bare in one place of a rule and not in another.
    ContextInTwoForms = 45,
    /// The link of a typed context of the head is no argument of a head atom.
    TypedContextNotHeld = 46,
    /// The process of the text has more items than there may be.
    ProcessTooLarge = 50,
    /// A trace has more than 67,108,864 bytes.
    TraceTooLong = 60,
    /// A line of a trace isn't a firing of the process before it, or the first isn't the program's own process.
    NotAFiring = 61,
    /// A trace ends otherwise than its last process does.
    WrongEnd = 62,
    /// A script has more than 65,536 bytes.
    ScriptTooLong = 70,
    /// A line of a script is no command.
    UnknownCommand = 71,
    /// A listing has more than 67,108,864 bytes.
    ListingTooLong = 80,
    /// A line of a listing doesn't stand in its place.
    NotAListing = 81,
    /// The code of a rule in a listing isn't verified.
    CodeNotVerified = 82,
    /// Weights have more than 65,536 bytes.
    WeightsTooLong = 84,
    /// A line of weights is none, or weighs a functor again.
    BadWeight = 85,
    /// A rule that the weights don't lower.
    RuleNotLowered = 86,
}

impl RefusalCode {
    /// Its number: 1 for `E01`, 86 for `E86`.
    pub fn number(self) -> u8
        ensures { result ≡ code_number self }
    {
        self as u8
    }

    /// The refusal by this code at a place.
    pub fn at(self, pos: Pos) -> Refusal
        ensures { result ≡ record { code = code_number self; pos = pos } }
    {
        Refusal {
            code: self.number(),
            pos,
        }
    }

    /// What is said to whoever wrote the text, in ASCII.
    pub fn words(self) -> &'static [u8]
        ensures { result.now ≡ code_words self }
    {
        match self {
            RefusalCode::TextTooLong => b"text too long",
            RefusalCode::BadByte => b"bad byte",
            RefusalCode::NotClosed => b"not closed",
            RefusalCode::IntegerOutOfRange => b"integer out of range",
            RefusalCode::NameTooLong => b"name too long",
            RefusalCode::FloatingPoint => b"floating-point number",
            RefusalCode::StringLiteral => b"string literal",
            RefusalCode::InlineCode => b"inline code",
            RefusalCode::Hyperlink => b"hyperlink",
            RefusalCode::UnexpectedToken => b"unexpected token",
            RefusalCode::NestingTooDeep => b"nesting too deep",
            RefusalCode::TooManyArguments => b"too many arguments",
            RefusalCode::LinkOnce => b"link occurs once",
            RefusalCode::LinkTooOften => b"link occurs too often",
            RefusalCode::LinkOnceInRule => b"link occurs once in rule",
            RefusalCode::LinkTooOftenInRule => b"link occurs too often in rule",
            RefusalCode::ContextOutsideHeadMembrane => b"context outside a head membrane",
            RefusalCode::TwoContextsInMembrane => b"two contexts in one membrane",
            RefusalCode::ContextTwiceInHead => b"context twice in head",
            RefusalCode::ContextNotOnceInBody => b"context not once in body",
            RefusalCode::ContextNotInHead => b"context not in head",
            RefusalCode::RuleContextOutsideHeadMembrane => b"rule context outside a head membrane",
            RefusalCode::RuleInHead => b"rule in head",
            RefusalCode::ConnectorInHead => b"connector in head",
            RefusalCode::EmptyHead => b"empty head",
            RefusalCode::ContextOutsideRule => b"context outside a rule",
            RefusalCode::ContextWithoutType => b"context without type",
            RefusalCode::UnknownGuard => b"unknown guard",
            RefusalCode::WrongOperands => b"wrong operands",
            RefusalCode::UnboundContext => b"unbound context",
            RefusalCode::RuleTooLarge => b"rule too large",
            RefusalCode::ContextInTwoForms => b"context in two forms",
            RefusalCode::TypedContextNotHeld => b"typed context not held",
            RefusalCode::ProcessTooLarge => b"process too large",
            RefusalCode::TraceTooLong => b"trace too long",
            RefusalCode::NotAFiring => b"not a firing of the last process",
            RefusalCode::WrongEnd => b"wrong end",
            RefusalCode::ScriptTooLong => b"script too long",
            RefusalCode::UnknownCommand => b"unknown command",
            RefusalCode::ListingTooLong => b"listing too long",
            RefusalCode::NotAListing => b"not a listing",
            RefusalCode::CodeNotVerified => b"code not verified",
            RefusalCode::WeightsTooLong => b"weights too long",
            RefusalCode::BadWeight => b"bad weight",
            RefusalCode::RuleNotLowered => b"rule not lowered",
        }
    }

    /// The code with a number, where there is one.
    pub fn of_number(number: u8) -> Option<RefusalCode>
        ensures { result ≡ code_of number }
    {
        match number {
            1 => Some(RefusalCode::TextTooLong),
            2 => Some(RefusalCode::BadByte),
            3 => Some(RefusalCode::NotClosed),
            4 => Some(RefusalCode::IntegerOutOfRange),
            5 => Some(RefusalCode::NameTooLong),
            6 => Some(RefusalCode::FloatingPoint),
            7 => Some(RefusalCode::StringLiteral),
            8 => Some(RefusalCode::InlineCode),
            9 => Some(RefusalCode::Hyperlink),
            10 => Some(RefusalCode::UnexpectedToken),
            11 => Some(RefusalCode::NestingTooDeep),
            12 => Some(RefusalCode::TooManyArguments),
            20 => Some(RefusalCode::LinkOnce),
            21 => Some(RefusalCode::LinkTooOften),
            22 => Some(RefusalCode::LinkOnceInRule),
            23 => Some(RefusalCode::LinkTooOftenInRule),
            30 => Some(RefusalCode::ContextOutsideHeadMembrane),
            31 => Some(RefusalCode::TwoContextsInMembrane),
            32 => Some(RefusalCode::ContextTwiceInHead),
            33 => Some(RefusalCode::ContextNotOnceInBody),
            34 => Some(RefusalCode::ContextNotInHead),
            35 => Some(RefusalCode::RuleContextOutsideHeadMembrane),
            36 => Some(RefusalCode::RuleInHead),
            37 => Some(RefusalCode::ConnectorInHead),
            38 => Some(RefusalCode::EmptyHead),
            39 => Some(RefusalCode::ContextOutsideRule),
            40 => Some(RefusalCode::ContextWithoutType),
            41 => Some(RefusalCode::UnknownGuard),
            42 => Some(RefusalCode::WrongOperands),
            43 => Some(RefusalCode::UnboundContext),
            44 => Some(RefusalCode::RuleTooLarge),
            45 => Some(RefusalCode::ContextInTwoForms),
            46 => Some(RefusalCode::TypedContextNotHeld),
            50 => Some(RefusalCode::ProcessTooLarge),
            60 => Some(RefusalCode::TraceTooLong),
            61 => Some(RefusalCode::NotAFiring),
            62 => Some(RefusalCode::WrongEnd),
            70 => Some(RefusalCode::ScriptTooLong),
            71 => Some(RefusalCode::UnknownCommand),
            80 => Some(RefusalCode::ListingTooLong),
            81 => Some(RefusalCode::NotAListing),
            82 => Some(RefusalCode::CodeNotVerified),
            84 => Some(RefusalCode::WeightsTooLong),
            85 => Some(RefusalCode::BadWeight),
            86 => Some(RefusalCode::RuleNotLowered),
            _ => None,
        }
    }
}

/// The words of the code with a number, and none where no code has it.
pub fn words_of_number(number: u8) -> &'static [u8]
    ensures { result.now ≡ words_of_number number }
{
    match RefusalCode::of_number(number) {
        Some(code) => code.words(),
        None => b"",
    }
}
