//! The kinds of the tokens of texts.

use Kind::{
    Arrow, AtAt, Backslash, Comma, Context, Differ, Dot, End, Equal, Greater, GreaterEq, Int,
    LBrace, LBracket, LParen, Less, LessEq, Link, Minus, Mod, Name, NumEq, NumNe, Plus, Quoted,
    RBracket, RParen, RuleCtx, Slash, Star,
};
use lmn_lexer::{Kind, Tokens, lex};
use std::alloc::Global;

/// A text and the kinds of its tokens.
const READ: &[(&[u8], &[Kind])] = &[
    (b"", &[End]),
    (b" \t\r\n\x0c", &[End]),
    (
        b"p(-5), 'A b'(X)",
        &[
            Name, LParen, Int, RParen, Comma, Quoted, LParen, Link, RParen, End,
        ],
    ),
    (
        b"a1_B _ _x X9 $p $_q @r @_",
        &[
            Name, Link, Link, Link, Context, Context, RuleCtx, RuleCtx, End,
        ],
    ),
    (b"x @@ a :- b.", &[Name, AtAt, Name, Arrow, Name, Dot, End]),
    (
        b"=:= =\\= =< >= < > = \\= \\",
        &[
            NumEq, NumNe, LessEq, GreaterEq, Less, Greater, Equal, Differ, Backslash, End,
        ],
    ),
    (
        b"=> =\\a X=:-",
        &[
            Equal, Greater, Equal, Backslash, Name, Link, Equal, Arrow, End,
        ],
    ),
    (b"1-2", &[Int, Minus, Int, End]),
    (b"1 - 2 --3", &[Int, Minus, Int, Minus, Int, End]),
    (b"a-1", &[Name, Minus, Int, End]),
    (b"X-1", &[Link, Minus, Int, End]),
    (b"$x-1", &[Context, Minus, Int, End]),
    (b")-1]-1", &[RParen, Minus, Int, RBracket, Minus, Int, End]),
    (b"'a'-1", &[Quoted, Minus, Int, End]),
    (b"mod-1", &[Mod, Int, End]),
    (b"'mod' mod modx", &[Quoted, Mod, Name, End]),
    (b"-1 {-1", &[Int, LBrace, Int, End]),
    (b"- 1+*/", &[Minus, Int, Plus, Star, Slash, End]),
    (b"-0 007 9223372036854775807", &[Int, Int, Int, End]),
    (
        b",-9223372036854775808,00009223372036854775807",
        &[Comma, Int, Comma, Int, End],
    ),
    (
        b"a % b\n c // d\n/* e\n*/ f/**/g /***/",
        &[Name, Name, Name, Name, End],
    ),
    (b"/*/*/a", &[Name, End]),
    (b"% \x01\xff", &[End]),
    (
        b"'' 'it''s' '''' '\xff%'",
        &[Quoted, Quoted, Quoted, Quoted, End],
    ),
    (b"1.", &[Int, Dot, End]),
    (b"[ :-", &[LBracket, Arrow, End]),
];

/// Whether a text has tokens of these kinds.
fn is_read(alloc: Global, text: &[u8], wanted: &[Kind]) -> bool {
    match lex(alloc, text) {
        Ok(tokens) => are_of(&tokens, wanted),
        Err(_) => false,
    }
}

fn are_of(tokens: &Tokens, wanted: &[Kind]) -> bool {
    if tokens.len() != wanted.len() {
        return false;
    }
    for (i, kind) in wanted.iter().enumerate() {
        if tokens.at(i).kind != *kind {
            return false;
        }
    }
    true
}

#[test]
fn texts_are_cut(rt: HostRuntime) {
    for (text, wanted) in READ {
        assert!(rt; is_read(rt.alloc(), *text, *wanted));
    }
}
