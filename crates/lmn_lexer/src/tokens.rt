ghost use Rattle.std.specs.Prelude.{◌≡◌, ◌<◌, [], ◌∷◌, ◌++◌, length, slice_get, Some, IfSome, OnOk, OnErr};

use crate::token::{Kind, Token};
use lmn_base::{NoMemory, Pos, Rows};
use std::alloc::Global;
use std::marker::Model;

/// The tokens of a text, in order. Contracts see their list.
#[derive(Drop)]
pub struct Tokens {
    rows: Rows<PackedToken>,
}

impl Model for Tokens {
    ghost use Rattle.std.specs.Prelude.{List};
    ghost use Rattle.lmn_lexer.specs.declared.token.Token.{Token};

    ghost Value = { List Token };

    ghost view = { λ t. t.rows };
}

impl Tokens {
    /// No tokens, with no memory taken.
    pub fn new(alloc: Global) -> Tokens
        ensures { result ≡ [] }
    {
        Tokens {
            rows: Rows::new(alloc),
        }
    }

    /// Adds a token at the end.
    ///
    /// # Errors
    ///
    /// `NoMemory` where there is no memory for it, or its numbers don't fit 32 bits; the rest stays.
    pub fn push(&mut self, token: Token) -> Result<(), NoMemory>
        ensures ok { OnOk result (self.new ≡ self.old ++ token ∷ []) }
        ensures err { OnErr result (self.new ≡ self.old) }
    {
        match pack(token) {
            Some(token) => self.rows.push(token),
            None => Err(NoMemory),
        }
    }

    /// The number of tokens.
    pub fn len(&self) -> usize
        ensures { result ≡ length self.now }
    {
        self.rows.len()
    }

    /// The token at a place below `len`, counted from 0.
    pub fn at(&self, i: usize) -> Token
        requires { i < length self.now }
        ensures { slice_get self.now i ≡ Some result }
    {
        self.rows.at(i).token()
    }

    /// All tokens, in order.
    pub fn as_slice(&self) -> &[PackedToken]
        ensures { result.now ≡ self.now }
    {
        self.rows.as_slice()
    }
}

/// A token in 20 bytes. Contracts see the token.
/// Numbers of 32 bits in place of 64: a text of 2^32 bytes or more is answered by want of memory.
#[derive(Drop)]
pub struct PackedToken {
    kind: Kind,
    start: u32,
    end: u32,
    line: u32,
    column: u32,
}

impl Model for PackedToken {
    ghost use Rattle.lmn_lexer.specs.declared.token.Token.{Token};

    ghost Value = { Token };

    ghost view = { λ p. record { kind = p.kind; start = p.start; end = p.end; pos = record { line = p.line; column = p.column } } };
}

impl PackedToken {
    /// What the token is.
    pub fn kind(&self) -> Kind
        ensures { result ≡ self.now.kind }
    {
        self.kind
    }

    /// The place of its first byte.
    pub fn pos(&self) -> Pos
        ensures { result ≡ self.now.pos }
    {
        Pos {
            line: u64::from(self.line),
            column: u64::from(self.column),
        }
    }

    /// The token.
    pub fn token(&self) -> Token
        ensures { result ≡ self.now }
    {
        Token {
            kind: self.kind,
            start: self.start as usize,
            end: self.end as usize,
            pos: self.pos(),
        }
    }
}

/// A token by numbers of 32 bits, if these are enough.
fn pack(token: Token) -> Option<PackedToken>
    ensures { IfSome result (λ packed. packed ≡ token) }
{
    let Token {
        kind,
        start,
        end,
        pos,
    } = token;
    let start = u32::try_from(start).ok()?;
    let end = u32::try_from(end).ok()?;
    let line = u32::try_from(pos.line).ok()?;
    let column = u32::try_from(pos.column).ok()?;
    Some(PackedToken {
        kind,
        start,
        end,
        line,
        column,
    })
}
