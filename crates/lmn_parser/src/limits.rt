ghost use Rattle.std.specs.Prelude.{◌≡◌, ◌∷◌, [], ◌<◌, length, slice_get, IfOk, Some, None, false};
ghost use Rattle.lmn_parser_grammar.specs.Limits as limits;
ghost use Rattle.lmn_parser_grammar.specs.Scan as scanner;
ghost use Rattle.lmn_parser.specs.Scans.{opened_of, last_of, stack_of, scan_of, innermost_of, IsFirstPassing};
ghost use Rattle.lmn_parser_grammar.specs.Scan.{is_equals_last};
ghost use Rattle.lmn_parser.specs.Parsing.{kinds_of};

use lmn_base::{NoMemory, RefusalCode, Rows};
use lmn_lexer::{Kind, PackedToken};
use std::alloc::Global;

/// How many brackets may be open round another one: `most_brackets`.
const BRACKETS: usize = 200;
/// How many operators one side of a comparison or of `=` may have: `most_operators`.
const OPERATORS: u16 = 255;
/// How many arguments an atom may have, its own link included: `most_arguments`.
const ARGUMENTS: u8 = 255;

/// A token that passes a limit.
#[derive(Clone, Copy)]
pub(crate) struct Passing {
    /// Its number.
    pub(crate) at: usize,
    /// The code by which it is refused.
    pub(crate) code: u8,
}

/// An open bracket.
#[derive(Clone, Copy, Drop)]
enum Opened {
    /// The arguments of an atom: how many it may have, and how many are begun. None counts as one.
    Arguments {
        /// How many it may have.
        most: u8,
        /// How many are begun.
        begun: u16,
    },
    /// A list.
    Terms,
    /// Any other bracket.
    Group,
}

/// The last token.
#[derive(Clone, Copy)]
enum Last {
    /// `=`
    Equals,
    /// A name, and how many arguments may follow it.
    Word(u8),
    /// An integer, and how many arguments may follow it.
    Digits(u8),
    /// The `)` behind arguments, and how many these are.
    Closed(u16),
    /// A context, or another `)`.
    Operand,
    /// Another token, or none.
    Other,
}

/// What is known of the tokens so far.
#[derive(Drop)]
struct Scan {
    /// The open brackets, the innermost last.
    opened: Rows<Opened>,
    /// The operators of this side so far.
    operators: u16,
    /// The last token.
    last: Last,
}

/// The first token that passes a limit.
pub(crate) fn first_passing(
    alloc: Global,
    tokens: &[PackedToken],
) -> Result<Option<Passing>, NoMemory>
    ensures { IfOk result (IsFirstPassing (kinds_of tokens.now)) }
{
    let mut scan = Scan {
        opened: Rows::new(alloc),
        operators: 0,
        last: Last::Other,
    };
    for at in 0..tokens.len() {
        let kind = kind_of(tokens, at);
        if let Some(code) = scan.passed_by(kind) {
            return Ok(Some(Passing { at, code }));
        }
        scan = scan.after(kind)?;
    }
    Ok(None)
}

/// The kind of a token.
fn kind_of(tokens: &[PackedToken], at: usize) -> Kind
    requires { at < length tokens.now }
    ensures { slice_get (kinds_of tokens.now) at ≡ Some result }
{
    tokens[at].kind()
}

impl Scan {
    /// The code of the limit that the next token passes.
    fn passed_by(&self, kind: Kind) -> Option<u8>
        ensures { result ≡ scanner.passes (scan_of self.now) kind }
    {
        if self.is_too_deep(kind) {
            return Some(RefusalCode::NestingTooDeep as u8);
        }
        if has_too_many(self.innermost()) || (is_equal(kind) && is_full(self.last)) {
            return Some(RefusalCode::TooManyArguments as u8);
        }
        None
    }

    /// Whether the next token is a bracket inside too many, or an operator too many.
    fn is_too_deep(&self, kind: Kind) -> bool
        ensures { result ≡ scanner.is_too_deep (scan_of self.now) kind }
    {
        (is_opener(kind) && BRACKETS <= self.opened.len())
            || (self.is_operator(kind) && OPERATORS <= self.operators)
    }

    /// Whether the next token is an operator.
    fn is_operator(&self, kind: Kind) -> bool
        ensures { result ≡ scanner.is_operator (scan_of self.now) kind }
    {
        may_be_operator(kind) && is_operand(self.last)
    }

    /// The innermost bracket; where none is open, one like `{`.
    fn innermost(&self) -> Opened
        ensures { opened_of result ≡ innermost_of (stack_of self.now.opened) }
    {
        if self.opened.len() == 0 {
            return Opened::Group;
        }
        *self.opened.at(self.opened.len() - 1)
    }

    /// How many arguments an atom may have that begins with the next token.
    fn most_here(&self) -> u8
        ensures { result ≡ scanner.limit_here (scan_of self.now) }
    {
        if is_equals(self.last) {
            return ARGUMENTS - 1;
        }
        most_in(self.innermost())
    }

    /// What is known when the next token is taken.
    fn after(self, kind: Kind) -> Result<Scan, NoMemory>
        requires { scanner.passes (scan_of self) kind ≡ None }
        ensures { IfOk result (λ scan. scan_of scan ≡ scanner.scan_after (scan_of self) kind) }
    {
        let last = self.last_after(kind);
        let operators = self.operators_after(kind);
        let innermost = self.innermost();
        let opened = opened_after(self.opened, innermost, self.last, kind)?;
        Ok(Scan {
            opened,
            operators,
            last,
        })
    }

    /// The operators of this side when the next token is taken.
    fn operators_after(&self, kind: Kind) -> u16
        requires { scanner.passes (scan_of self.now) kind ≡ None }
        ensures { result ≡ scanner.operators_after (scan_of self.now) kind }
    {
        if self.is_operator(kind) {
            return self.operators + 1;
        }
        if goes_on(kind) {
            return self.operators;
        }
        0
    }

    /// What the last token is when the next one is taken.
    fn last_after(&self, kind: Kind) -> Last
        ensures { last_of result ≡ scanner.last_after (scan_of self.now) kind }
    {
        match kind {
            Kind::Equal => Last::Equals,
            Kind::Name => Last::Word(self.most_here()),
            Kind::Quoted => Last::Word(self.most_here()),
            Kind::Mod => {
                if is_operand(self.last) {
                    return Last::Other;
                }
                Last::Word(self.most_here())
            }
            Kind::Int => Last::Digits(self.most_here()),
            Kind::Context => Last::Operand,
            Kind::RParen => closed_by_round(self.innermost()),
            _ => Last::Other,
        }
    }
}

/// The open brackets when the next token is taken.
fn opened_after(
    opened: Rows<Opened>,
    innermost: Opened,
    last: Last,
    kind: Kind,
) -> Result<Rows<Opened>, NoMemory>
    requires innermost { opened_of innermost ≡ innermost_of (stack_of opened) }
    requires few { scanner.has_too_many (opened_of innermost ∷ []) ≡ false }
    ensures { IfOk result (λ after. stack_of after ≡ scanner.opened_after (record { opened = stack_of opened; operators = 0; last = last_of last }) kind) }
{
    match kind {
        Kind::LParen => with(opened, round_behind(last)),
        Kind::LBracket => with(opened, Opened::Terms),
        Kind::LBrace => with(opened, Opened::Group),
        Kind::RParen => Ok(without_last(opened)),
        Kind::RBracket => Ok(without_last(opened)),
        Kind::RBrace => Ok(without_last(opened)),
        Kind::Comma => match innermost {
            Opened::Arguments { most, begun } => {
                let begun = begun + 1;
                with(without_last(opened), Opened::Arguments { most, begun })
            }
            Opened::Terms => Ok(opened),
            Opened::Group => Ok(opened),
        },
        _ => Ok(opened),
    }
}

/// These brackets and one more inside.
fn with(mut opened: Rows<Opened>, inner: Opened) -> Result<Rows<Opened>, NoMemory>
    ensures { IfOk result (λ after. stack_of after ≡ opened_of inner ∷ stack_of opened) }
{
    opened.push(inner)?;
    Ok(opened)
}

/// These brackets without the innermost.
fn without_last(mut opened: Rows<Opened>) -> Rows<Opened>
    ensures { stack_of result ≡ scanner.without_first (stack_of opened) }
{
    let _innermost = opened.pop();
    opened
}

/// Whether the token opens a bracket.
fn is_opener(kind: Kind) -> bool
    ensures { result ≡ limits.is_opener kind }
{
    matches!(kind, Kind::LParen | Kind::LBracket | Kind::LBrace)
}

/// Whether the token is an operator where it stands behind an operand.
fn may_be_operator(kind: Kind) -> bool
    ensures { result ≡ limits.may_be_operator kind }
{
    matches!(
        kind,
        Kind::Plus | Kind::Minus | Kind::Star | Kind::Slash | Kind::Mod
    )
}

/// Whether the token is `=`.
fn is_equal(kind: Kind) -> bool
    ensures { result ≡ scanner.is_equal kind }
{
    matches!(kind, Kind::Equal)
}

/// Whether a side goes on through the token.
fn goes_on(kind: Kind) -> bool
    ensures { result ≡ limits.continues_side kind }
{
    matches!(
        kind,
        Kind::Int | Kind::Context | Kind::LParen | Kind::RParen
    )
}

/// Whether a token behind this one can be an operator.
fn is_operand(last: Last) -> bool
    ensures { result ≡ scanner.was_operand (last_of last) }
{
    matches!(last, Last::Digits(_) | Last::Closed(_) | Last::Operand)
}

/// Whether the last token is `=`.
fn is_equals(last: Last) -> bool
    ensures { result ≡ is_equals_last (last_of last) }
{
    matches!(last, Last::Equals)
}

/// What `(` opens behind this token.
fn round_behind(last: Last) -> Opened
    ensures { opened_of result ≡ scanner.round_behind (last_of last) }
{
    match last {
        Last::Word(most) => Opened::Arguments { most, begun: 1 },
        Last::Digits(most) => Opened::Arguments { most, begun: 1 },
        _ => Opened::Group,
    }
}

/// What a `)` is that closes this bracket.
fn closed_by_round(opened: Opened) -> Last
    ensures { last_of result ≡ scanner.closed_by_round (opened_of opened ∷ []) }
{
    match opened {
        Opened::Arguments { most: _, begun } => Last::Closed(begun),
        Opened::Terms => Last::Operand,
        Opened::Group => Last::Operand,
    }
}

/// How many arguments an atom may have in this bracket.
fn most_in(opened: Opened) -> u8
    ensures { result ≡ scanner.limit_in (opened_of opened ∷ []) }
{
    match opened {
        Opened::Arguments { most: _, begun: _ } => ARGUMENTS - 1,
        Opened::Terms => ARGUMENTS - 1,
        Opened::Group => ARGUMENTS,
    }
}

/// Whether more arguments are begun than there may be.
fn has_too_many(opened: Opened) -> bool
    ensures { result ≡ scanner.has_too_many (opened_of opened ∷ []) }
{
    match opened {
        Opened::Arguments { most, begun } => (most as u16) < begun,
        Opened::Terms => false,
        Opened::Group => false,
    }
}

/// Whether arguments end here that leave none for the link of `=`.
fn is_full(last: Last) -> bool
    ensures { result ≡ scanner.is_full (last_of last) }
{
    match last {
        Last::Closed(begun) => ARGUMENTS as u16 <= begun,
        _ => false,
    }
}
