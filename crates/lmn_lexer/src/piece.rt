ghost use Rattle.std.specs.Prelude.{◌≡◌, ◌≤◌, ◌<◌, ◌+◌, length, true, IfSome};
ghost use Rattle.std.specs.Char.{is_ascii_digit};
ghost use Rattle.lmn_lexer.specs.Spelling.{begins_link, begins_context, is_quotable};
ghost use Rattle.lmn_lexer.specs.Scanning.{follows, first_passes, word_bytes, digit_bytes, line_bytes, close_at, lowercase_at, context_at, at_sign_at, minus_at, block_at, slash_at, quoted_behind, equal_at, colon_at, bracket_at, greater_at, backslash_at, sign_at, sign_piece, piece_of};

use crate::token::Kind;
use lmn_base::RefusalCode;

/// What a text begins with.
#[derive(Clone, Copy)]
pub(crate) enum Piece {
    /// A separator or a comment of so many bytes.
    Gap(usize),
    /// A token of so many bytes.
    Token(Kind, usize),
    /// Nothing of these: the number of a code, and how many bytes stand before its place.
    Wrong(u8, usize),
}

/// What a text begins with that isn't at its end. The flag says whether a `-` may begin an integer.
pub(crate) fn first_piece(text: &[u8], minus: bool) -> Piece
    ensures { result ≡ piece_of minus text.now }
{
    let Some((first, rest)) = text.split_first() else {
        return Piece::Gap(0);
    };
    if first.is_ascii_whitespace() {
        return Piece::Gap(1);
    }
    if first.is_ascii_lowercase() {
        return word(text);
    }
    if begins_link(*first) {
        return Piece::Token(Kind::Link, 1 + word_bytes(rest));
    }
    if first.is_ascii_digit() {
        return Piece::Token(Kind::Int, 1 + digit_bytes(rest));
    }
    sign_piece(*first, rest, minus)
}

/// A name that isn't quoted, or `mod`.
fn word(text: &[u8]) -> Piece
    requires { 0 < length text.now }
    ensures { result ≡ lowercase_at text.now }
{
    let bytes = 1 + word_bytes(&text[1..]);
    let kind = if &text[..bytes] == b"mod".as_slice() {
        Kind::Mod
    } else {
        Kind::Name
    };
    Piece::Token(kind, bytes)
}

/// What begins with a sign, the first byte.
fn sign_piece(first: u8, rest: &[u8], minus: bool) -> Piece
    ensures { result ≡ sign_piece minus first rest.now }
{
    match first {
        b'%' => Piece::Gap(1 + line_bytes(rest)),
        b'/' => slash(rest),
        b'\'' => quoted(rest),
        b'$' => context(rest),
        b'@' => at_sign(rest),
        b'-' => minus_sign(rest, minus),
        b'=' => equal(rest),
        b':' => colon(rest),
        b'[' => bracket(rest),
        b'>' => greater(rest),
        b'\\' => backslash(rest),
        _ => sign(first),
    }
}

/// The sign that a byte alone spells.
fn sign(first: u8) -> Piece
    ensures { result ≡ sign_at first }
{
    match first {
        b'(' => Piece::Token(Kind::LParen, 1),
        b')' => Piece::Token(Kind::RParen, 1),
        b']' => Piece::Token(Kind::RBracket, 1),
        b'{' => Piece::Token(Kind::LBrace, 1),
        b'}' => Piece::Token(Kind::RBrace, 1),
        b',' => Piece::Token(Kind::Comma, 1),
        b'.' => Piece::Token(Kind::Dot, 1),
        b'|' => Piece::Token(Kind::Bar, 1),
        b'<' => Piece::Token(Kind::Less, 1),
        b'+' => Piece::Token(Kind::Plus, 1),
        b'*' => Piece::Token(Kind::Star, 1),
        b'"' => Piece::Wrong(RefusalCode::StringLiteral as u8, 0),
        b'!' => Piece::Wrong(RefusalCode::Hyperlink as u8, 0),
        _ => Piece::Wrong(RefusalCode::BadByte as u8, 0),
    }
}

/// A comment or `/`, behind the `/`.
fn slash(rest: &[u8]) -> Piece
    ensures { result ≡ slash_at rest.now }
{
    if follows(rest, b'/') {
        return Piece::Gap(1 + line_bytes(rest));
    }
    if follows(rest, b'*') {
        return block(&rest[1..]);
    }
    Piece::Token(Kind::Slash, 1)
}

/// A comment behind its `/*`.
fn block(rest: &[u8]) -> Piece
    ensures { result ≡ block_at rest.now }
{
    match close(rest) {
        Some(bytes) => Piece::Gap(bytes + 4),
        None => Piece::Wrong(RefusalCode::NotClosed as u8, 0),
    }
}

/// The number of bytes before the first `*/`.
fn close(text: &[u8]) -> Option<usize>
    ensures close { result ≡ close_at text.now }
    ensures within { IfSome result (λ n. n + 2 ≤ length text.now) }
{
    for (i, byte) in text.iter().enumerate() {
        if *byte == b'*' && follows(&text[i + 1..], b'/') {
            return Some(i);
        }
    }
    None
}

/// A name in quotes, behind its first quote.
fn quoted(rest: &[u8]) -> Piece
    ensures { result ≡ quoted_behind 1 rest.now }
{
    let mut at = 0;
    while at < rest.len() {
        let byte = rest[at];
        if byte == b'\'' {
            if !follows(&rest[at + 1..], b'\'') {
                return Piece::Token(Kind::Quoted, at + 2);
            }
            at += 2;
        } else if byte == b'\n' {
            return Piece::Wrong(RefusalCode::NotClosed as u8, 0);
        } else if is_quotable(byte) {
            at += 1;
        } else {
            return Piece::Wrong(RefusalCode::BadByte as u8, at + 1);
        }
    }
    Piece::Wrong(RefusalCode::NotClosed as u8, 0)
}

/// A process context, behind its `$`.
fn context(rest: &[u8]) -> Piece
    ensures { result ≡ context_at rest.now }
{
    if begins_name(rest) {
        return Piece::Token(Kind::Context, 1 + word_bytes(rest));
    }
    Piece::Wrong(RefusalCode::BadByte as u8, 0)
}

/// `@@` or a rule context, behind the first `@`.
fn at_sign(rest: &[u8]) -> Piece
    ensures { result ≡ at_sign_at rest.now }
{
    if follows(rest, b'@') {
        return Piece::Token(Kind::AtAt, 2);
    }
    if begins_name(rest) {
        return Piece::Token(Kind::RuleCtx, 1 + word_bytes(rest));
    }
    Piece::Wrong(RefusalCode::BadByte as u8, 0)
}

/// An integer or `-`, behind the `-`.
fn minus_sign(rest: &[u8], minus: bool) -> Piece
    ensures { result ≡ minus_at minus rest.now }
{
    if minus && begins_digits(rest) {
        return Piece::Token(Kind::Int, 1 + digit_bytes(rest));
    }
    Piece::Token(Kind::Minus, 1)
}

/// A sign that begins with `=`, behind that.
fn equal(rest: &[u8]) -> Piece
    ensures { result ≡ equal_at rest.now }
{
    if follows(rest, b'<') {
        return Piece::Token(Kind::LessEq, 2);
    }
    if follows(rest, b':') && follows(&rest[1..], b'=') {
        return Piece::Token(Kind::NumEq, 3);
    }
    if follows(rest, b'\\') && follows(&rest[1..], b'=') {
        return Piece::Token(Kind::NumNe, 3);
    }
    Piece::Token(Kind::Equal, 1)
}

/// `:-`, behind the `:`.
fn colon(rest: &[u8]) -> Piece
    ensures { result ≡ colon_at rest.now }
{
    if follows(rest, b'-') {
        return Piece::Token(Kind::Arrow, 2);
    }
    Piece::Wrong(RefusalCode::BadByte as u8, 0)
}

/// `[`, behind it, or inline code.
fn bracket(rest: &[u8]) -> Piece
    ensures { result ≡ bracket_at rest.now }
{
    if follows(rest, b':') {
        return Piece::Wrong(RefusalCode::InlineCode as u8, 0);
    }
    Piece::Token(Kind::LBracket, 1)
}

/// `>=` or `>`, behind the `>`.
fn greater(rest: &[u8]) -> Piece
    ensures { result ≡ greater_at rest.now }
{
    if follows(rest, b'=') {
        return Piece::Token(Kind::GreaterEq, 2);
    }
    Piece::Token(Kind::Greater, 1)
}

/// `\=` or `\`, behind the `\`.
fn backslash(rest: &[u8]) -> Piece
    ensures { result ≡ backslash_at rest.now }
{
    if follows(rest, b'=') {
        return Piece::Token(Kind::Differ, 2);
    }
    Piece::Token(Kind::Backslash, 1)
}

/// Whether a byte stands first.
fn follows(text: &[u8], byte: u8) -> bool
    ensures value { result ≡ follows byte text.now }
    ensures some { result ≡ true → 0 < length text.now }
{
    match text.split_first() {
        Some((first, _)) => *first == byte,
        None => false,
    }
}

/// Whether a letter or `_` stands first.
fn begins_name(text: &[u8]) -> bool
    ensures { result ≡ first_passes begins_context text.now }
{
    match text.split_first() {
        Some((first, _)) => first.is_ascii_alphabetic() || *first == b'_',
        None => false,
    }
}

/// Whether a digit stands first.
fn begins_digits(text: &[u8]) -> bool
    ensures { result ≡ first_passes is_ascii_digit text.now }
{
    match text.split_first() {
        Some((first, _)) => first.is_ascii_digit(),
        None => false,
    }
}

/// Whether a byte is a large letter or `_`.
fn begins_link(byte: u8) -> bool
    ensures { result ≡ begins_link byte }
{
    byte.is_ascii_uppercase() || byte == b'_'
}

/// Whether a byte stands for itself between quotes.
fn is_quotable(byte: u8) -> bool
    ensures { result ≡ is_quotable byte }
{
    byte != b'\'' && matches!(byte, b' '..=b'~' | 0x80..=0xff)
}

/// How many letters, digits and `_` a text begins with.
fn word_bytes(text: &[u8]) -> usize
    ensures value { result ≡ word_bytes text.now }
    ensures within { result ≤ length text.now }
{
    text.iter()
        .take_while(|byte| byte.is_ascii_alphanumeric() || **byte == b'_')
        .count()
}

/// How many digits a text begins with.
fn digit_bytes(text: &[u8]) -> usize
    ensures value { result ≡ digit_bytes text.now }
    ensures within { result ≤ length text.now }
{
    text.iter().take_while(|byte| byte.is_ascii_digit()).count()
}

/// How many bytes of a text stand before its first line feed.
fn line_bytes(text: &[u8]) -> usize
    ensures value { result ≡ line_bytes text.now }
    ensures within { result ≤ length text.now }
{
    text.iter().take_while(|byte| **byte != b'\n').count()
}
