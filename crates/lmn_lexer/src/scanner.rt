ghost use Rattle.std.specs.Prelude.{◌≡◌, ◌+◌, ◌<◌, ◌≤◌, ◌^◌, ◌==◌, ℕ, List, length, drop, count_by, IfOk, IfErr, OnOk};
ghost use Rattle.lmn_base.specs.Refusals.{IfRefused};
ghost use Rattle.lmn_lexer.specs.declared.piece.Piece.TheVariants as piece;
ghost use Rattle.lmn_lexer.specs.Cutting.{Cuts, column_behind, is_operand};
ghost use Rattle.lmn_lexer.specs.Faults.{IsLexicalFault, NothingWrong};
ghost use Rattle.lmn_lexer.specs.Scanning.{piece_of};
ghost use Rattle.lmn_lexer.specs.Scanners.{IsScanned};

use crate::fault::token_fault;
use crate::piece::{Piece, first_piece};
use crate::place::{START, behind};
use crate::token::{Kind, Token};
use crate::tokens::Tokens;
use lmn_base::{NoMemory, Pos, Refusal, TextFault};
use std::alloc::Global;

/// How far a text is cut into tokens.
#[derive(Drop)]
struct Scanner {
    /// The number of bytes that are cut off.
    at: usize,
    /// The place behind them.
    pos: Pos,
    /// Whether a `-` may begin an integer there.
    minus: bool,
    /// Their tokens.
    tokens: Tokens,
}

impl Scanner {
    /// Nothing is cut off.
    fn new(alloc: Global) -> Scanner
        ensures { (text : List ℕ) → IsScanned text result }
    {
        Scanner {
            at: 0,
            pos: START,
            minus: true,
            tokens: Tokens::new(alloc),
        }
    }

    /// Cuts off one separator, comment or token.
    fn cut_off(&mut self, text: &[u8]) -> Result<(), TextFault>
        requires scanned { IsScanned text.now self.old }
        requires more { self.old.at < length text.now }
        ensures scanned { OnOk result (IsScanned text.now self.new) }
        ensures forth { OnOk result (self.old.at < self.new.at) }
        ensures refused { IfErr result (λ fault. IfRefused fault (λ refusal. IsLexicalFault text.now refusal)) }
    {
        let rest = rest_of(text, self.at);
        match first_piece(rest, self.minus) {
            Piece::Gap(bytes) => {
                self.pass(&rest[..bytes]);
                Ok(())
            }
            Piece::Token(kind, bytes) => self.cut_token(text, rest, kind, bytes),
            Piece::Wrong(code, bytes) => {
                let pos = behind(self.pos, &rest[..bytes]);
                Err(TextFault::Refused(Refusal { code, pos }))
            }
        }
    }

    /// Cuts off a token, which stands first in the rest of the text.
    fn cut_token(
        &mut self,
        text: &[u8],
        rest: &[u8],
        kind: Kind,
        bytes: usize,
    ) -> Result<(), TextFault>
        requires scanned { IsScanned text.now self.old }
        requires more { self.old.at < length text.now }
        requires rest { rest.now ≡ drop self.old.at text.now }
        requires first { piece.Token kind bytes ≡ piece_of self.old.minus rest.now }
        ensures scanned { OnOk result (IsScanned text.now self.new) }
        ensures forth { OnOk result (self.old.at < self.new.at) }
        ensures refused { IfErr result (λ fault. IfRefused fault (λ refusal. IsLexicalFault text.now refusal)) }
    {
        let (token, after) = rest.split_at(bytes);
        let pos = self.pos;
        if let Some(code) = token_fault(kind, token, after) {
            return Err(TextFault::Refused(Refusal { code, pos }));
        }
        let (start, end) = (self.at, self.at + bytes);
        match self.tokens.push(Token {
            kind,
            start,
            end,
            pos,
        }) {
            Ok(()) => {}
            Err(NoMemory) => return Err(TextFault::NoMemory),
        }
        self.minus = !is_operand(kind);
        self.pass(token);
        Ok(())
    }

    /// Goes on behind bytes.
    fn pass(&mut self, bytes: &[u8])
        requires at { self.old.at + length bytes.now < 2 ^ 64 }
        requires line { self.old.pos.line + length bytes.now < 2 ^ 64 }
        requires column { self.old.pos.column + length bytes.now < 2 ^ 64 }
        ensures at { self.new.at ≡ self.old.at + length bytes.now }
        ensures line { self.new.pos.line ≡ self.old.pos.line + count_by (λ b. b == 10) bytes.now }
        ensures column { self.new.pos.column ≡ column_behind self.old.pos.column bytes.now }
        ensures tokens { self.new.tokens ≡ self.old.tokens }
        ensures minus { self.new.minus ≡ self.old.minus }
    {
        self.at += bytes.len();
        self.pos = behind(self.pos, bytes);
    }

    /// The tokens of a text that is cut whole.
    fn finish(self, text: &[u8]) -> Result<Tokens, NoMemory>
        requires scanned { IsScanned text.now self }
        requires whole { length text.now ≤ self.at }
        ensures { IfOk result (λ tokens. Cuts text.now tokens) }
    {
        let Scanner {
            at,
            pos,
            mut tokens,
            ..
        } = self;
        tokens.push(Token {
            kind: Kind::End,
            start: at,
            end: at,
            pos,
        })?;
        Ok(tokens)
    }
}

/// The text behind so many bytes.
fn rest_of(text: &[u8], at: usize) -> &[u8]
    requires { at ≤ length text.now }
    ensures { result.now ≡ drop at text.now }
{
    &text[at..]
}

/// Whether a `-` behind a token of this kind is a sign of its own.
fn is_operand(kind: Kind) -> bool
    ensures { result ≡ is_operand kind }
{
    matches!(
        kind,
        Kind::Name
            | Kind::Quoted
            | Kind::Link
            | Kind::Int
            | Kind::Context
            | Kind::RParen
            | Kind::RBracket
    )
}

/// Cuts a text into its tokens.
///
/// The text is read once from its front to its end, and none of it is copied. It is refused by the first
/// of these codes: 2 for a byte that begins nothing or may not stand in quotes, 3 for a name in quotes or a
/// comment that isn't closed, 4 for an integer out of range, 5 for a name that is too long, 6 for a
/// floating-point number, 7 for a string literal, 8 for inline code, 9 for a hyperlink.
#[tactic(auto, using(crate::proofs::ScannerSteps::all_right))]
pub fn lex(alloc: Global, text: &[u8]) -> Result<Tokens, TextFault>
    ensures cut { IfOk result (λ tokens. Cuts text.now tokens) }
    ensures right { OnOk result (NothingWrong text.now) }
    ensures refused { IfErr result (λ fault. IfRefused fault (λ refusal. IsLexicalFault text.now refusal)) }
{
    let mut scanner = Scanner::new(alloc);
    'cut: while scanner.at < text.len() {
        scanner.cut_off(text)?;
    }
    match scanner.finish(text) {
        Ok(tokens) => Ok(tokens),
        Err(NoMemory) => Err(TextFault::NoMemory),
    }
}
