use lmn_base::Pos;

/// What a token is. `NAME` of the grammar is `Name`, `Quoted` and `Mod`.
#[derive(Clone, Copy, PartialEq, Eq)]
pub enum Kind {
    /// A name without quotes, other than `mod`.
    Name,
    /// A name in quotes.
    Quoted,
    /// The name `mod` without quotes, which is an operator between operands.
    Mod,
    /// A link.
    Link,
    /// An integer.
    Int,
    /// A process context, as `$p`.
    Context,
    /// A rule context, as `@r`.
    RuleCtx,
    /// The end of the text.
    End,
    /// `(`
    LParen,
    /// `)`
    RParen,
    /// `[`
    LBracket,
    /// `]`
    RBracket,
    /// `{`
    LBrace,
    /// `}`
    RBrace,
    /// `,`
    Comma,
    /// `.`
    Dot,
    /// `:-`
    Arrow,
    /// `@@`
    AtAt,
    /// `|`
    Bar,
    /// `\`
    Backslash,
    /// `=`
    Equal,
    /// `<`
    Less,
    /// `=<`
    LessEq,
    /// `>`
    Greater,
    /// `>=`
    GreaterEq,
    /// `=:=`
    NumEq,
    /// `=\=`
    NumNe,
    /// `\=`
    Differ,
    /// `+`
    Plus,
    /// `-`
    Minus,
    /// `*`
    Star,
    /// `/`
    Slash,
}

/// A token of a text.
#[derive(Clone, Copy)]
pub struct Token {
    /// What it is.
    pub kind: Kind,
    /// The number of bytes of the text before it.
    pub start: usize,
    /// The number of bytes of the text before its end.
    pub end: usize,
    /// The place of its first byte; of `End` the place just past the last byte of the text.
    pub pos: Pos,
}
