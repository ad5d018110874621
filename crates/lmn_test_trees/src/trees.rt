//! Lists of tokens, those of no text among them, that are programs or are refused.
ghost use Rattle.std.specs.Prelude.{◌≡◌, ◌++◌, ◌∷◌, [], OnOk, IfOk};
ghost use Rattle.lmn_parser.specs.Parsing.{kinds_of, EndsWithEnd};

use lmn_base::{NoMemory, Pos, TextFault};
use lmn_lexer::{Kind, Token, Tokens};
use lmn_parser::parse;
use std::alloc::Global;

/// The kind for which a letter or sign stands in the table.
fn kind_of(letter: u8) -> Kind {
    match letter {
        b'a' => Kind::Name,
        b'q' => Kind::Quoted,
        b'm' => Kind::Mod,
        b'X' => Kind::Link,
        b'1' => Kind::Int,
        b'$' => Kind::Context,
        b'@' => Kind::RuleCtx,
        b'(' => Kind::LParen,
        b')' => Kind::RParen,
        b'[' => Kind::LBracket,
        b']' => Kind::RBracket,
        b'{' => Kind::LBrace,
        b'}' => Kind::RBrace,
        b',' => Kind::Comma,
        b'.' => Kind::Dot,
        b':' => Kind::Arrow,
        b'&' => Kind::AtAt,
        b'|' => Kind::Bar,
        b'\\' => Kind::Backslash,
        b'=' => Kind::Equal,
        b'<' => Kind::Less,
        b'l' => Kind::LessEq,
        b'>' => Kind::Greater,
        b'g' => Kind::GreaterEq,
        b'e' => Kind::NumEq,
        b'n' => Kind::NumNe,
        b'd' => Kind::Differ,
        b'+' => Kind::Plus,
        b'-' => Kind::Minus,
        b'*' => Kind::Star,
        b'/' => Kind::Slash,
        _ => Kind::End,
    }
}

/// A token whose column is its number, counted from 1.
fn push(tokens: &mut Tokens, kind: Kind) -> Result<(), NoMemory>
    ensures { OnOk result (kinds_of tokens.new ≡ kinds_of tokens.old ++ kind ∷ []) }
{
    let number = tokens.len();
    let pos = Pos {
        line: 1,
        column: (number as u64).saturating_add(1),
    };
    tokens.push(Token {
        kind,
        start: number,
        end: number,
        pos,
    })
}

/// The tokens of a pattern, in which `~` repeats the part up to the next `~` so many times.
fn tokens_of(alloc: Global, pattern: &[u8], times: u64) -> Result<Tokens, NoMemory>
    ensures { IfOk result EndsWithEnd }
{
    let mut tokens = Tokens::new(alloc);
    for (i, part) in pattern.split(|b| *b == b'~').enumerate() {
        let repeats = if i % 2 == 0 { 1 } else { times };
        for _ in 0..repeats {
            for letter in part {
                push(&mut tokens, kind_of(*letter))?;
            }
        }
    }
    push(&mut tokens, Kind::End)?;
    Ok(tokens)
}

/// The code and the place of the refusal, or zeros where the tokens are accepted.
fn outcome(alloc: Global, pattern: &[u8], times: u64) -> Result<(u8, u64), NoMemory> {
    let tokens = tokens_of(alloc, pattern, times)?;
    match parse(alloc, &tokens) {
        Ok(_) => Ok((0, 0)),
        Err(TextFault::Refused(refusal)) => Ok((refusal.code, refusal.pos.column)),
        Err(TextFault::NoMemory) => Err(NoMemory),
    }
}

/// A broken program, the place of the token that refuses it, and a program that is the same up to that token.
const BROKEN: &[(&[u8], u64, &[u8])] = &[
    (b".", 1, b""),
    (b"a..", 3, b"a."),
    (b"aa", 2, b"a"),
    (b"a(X,)", 5, b"a(X,X)"),
    (b"a(,", 3, b"a()"),
    (b"{.}", 2, b"{}"),
    (b"()", 2, b"(a)"),
    (b"X,", 2, b"X=X"),
    (b"[X]", 4, b"[X]=X"),
    (b"[X|X,", 5, b"[X|X]=X"),
    (b"[|", 2, b"[X]=X"),
    (b"X=X=", 4, b"X=X"),
    (b"a=@", 3, b"a=X"),
    (b"@=", 2, b"@"),
    (b"$[a", 3, b"$[X]"),
    (b"$[X]=", 5, b"$[X]"),
    (b"+a", 2, b"+X"),
    (b"a(+", 3, b"a(X)"),
    (b"a&a.", 4, b"a&a:"),
    (b"a&a&", 4, b"a&a:"),
    (b"1&", 2, b"1"),
    (b"a\\a\\", 4, b"a\\a:"),
    (b"a\\.", 3, b"a\\:"),
    (b"a:a:", 4, b"a:a"),
    (b"a:a(),a|", 8, b"a:a(),a"),
    (b"a:a($)<", 7, b"a:a($)|"),
    (b"a:{a}|", 6, b"a:{a}"),
    (b"a:$=1+1", 8, b"a:$=1+1|"),
    (b"a:$=X|", 6, b"a:$=X"),
    (b"a:$d1", 5, b"a:$d$|"),
    (b"a:$d$.", 6, b"a:$d$|"),
    (b"a:1>1,1g1,1e1,1n1,mm($)|", 20, b"a:1>1,1g1,1e1,1n1,m|"),
    (b"a:(1)|", 6, b"a:(1)"),
    (b"a:(1+1)", 8, b"a:(1+1)<1|"),
    (b"a:(a|", 5, b"a:(a)"),
    (b"a:1<1<", 6, b"a:1<1|"),
    (b"a:1<1.", 6, b"a:1<1|"),
    (b"a:a|a|", 6, b"a:a|a"),
    (b"a:a.a|", 6, b"a:a.a"),
    (b",", 1, b""),
    (b")", 1, b""),
    (b"a)", 2, b"a"),
    (b"a,.", 3, b"a,a"),
    (b"{a", 3, b"{a}"),
    (b"{a)", 3, b"{a}"),
    (b"(a}", 3, b"(a)"),
    (b"(a.", 3, b"(a)"),
    (b"a(X", 4, b"a(X)"),
    (b"a(XX", 4, b"a(X)"),
    (b"a()()", 4, b"a()"),
    (b"a&{}", 5, b"a&{}:"),
    (b"a&", 3, b"a&:"),
    (b"a:,", 3, b"a:"),
    (b"\\a", 3, b"\\a:"),
    (b"a\\", 3, b"a\\:"),
    (b"+", 2, b"+X"),
    (b"$[X", 4, b"$[X]"),
    (b"X=", 3, b"X=a"),
    (b"=", 1, b""),
    (b"X=(", 3, b"X=X"),
    (b"a=+", 3, b"a=X"),
    (b"a:$<", 5, b"a:$<1|"),
    (b"a:$<X", 5, b"a:$<1|"),
    (b"a:1|", 4, b"a:1"),
    (b"a:m($,)", 7, b"a:m($,$)|"),
    (b"a:1*", 5, b"a:1*1<1|"),
    (b"a:(", 4, b"a:(a)"),
    (b"a:|.|", 5, b"a:|."),
    (b"[X,", 4, b"[X,X]=X"),
    (b"{a|", 3, b"{a}"),
    (b"{a:a|a|", 7, b"{a:a|a}"),
    (b"a:a(1)|", 7, b"a:a(1)"),
    (b"a:a($)(", 7, b"a:a($)|"),
    (b"X", 2, b"X=X"),
    (b"-", 1, b""),
    (b"a:-", 3, b"a:"),
    (b"a:1--", 5, b"a:1-1<1|"),
];

/// How many letters two patterns have in common at their front.
fn common(pattern: &[u8], other: &[u8]) -> u64 {
    let pairs = pattern.iter().zip(other);
    pairs.take_while(|(letter, same)| letter == same).count() as u64
}

#[test]
fn broken_programs(rt: HostRuntime) {
    for (pattern, place, program) in BROKEN {
        assert_eq!(rt; outcome(rt.alloc(), *pattern, 1), Ok((10, *place)));
        assert_eq!(rt; outcome(rt.alloc(), *program, 1), Ok((0, 0)));
        assert!(rt; *place <= common(*pattern, *program).saturating_add(1));
    }
}

/// Programs of every form.
const PROGRAMS: &[&[u8]] = &[
    b"",
    b"a",
    b"a.",
    b"a.a.",
    b"a,q,m,1,{},{a.a.},$,$[X],@,+X,(a),(a:a),X=X",
    b"a(),1(X),a(X,a,$,{a},[],[X],[X,X|X])",
    b"X=a,a=X,{a}=X,$=X,[]=X",
    b"a&a:a",
    b"a&:",
    b"a\\a:a",
    b"\\:",
    b"a:|a",
    b"a:|",
    b"a:a|a",
    b"a:a($),a($,$),$<1|a",
    b"a:a($,X)",
    b"a:$=1|",
    b"a:$=1",
    b"a:$=($)|",
    b"a:$d$|",
    b"a:1+$*1/1-$m1l(1-1)|",
    b"a:m,m($)|",
    b"a:(1)",
    b"{a:a|a},(a:|a)",
    b"a:[a|a]=X,a",
];

#[test]
fn programs(rt: HostRuntime) {
    for pattern in PROGRAMS {
        assert_eq!(rt; outcome(rt.alloc(), *pattern, 1), Ok((0, 0)));
    }
}

/// A pattern, how often its parts are repeated, and the code and the place of its refusal, or zeros.
const LIMITS: &[(&[u8], u64, u8, u64)] = &[
    (b"~{~~}~", 200, 0, 0),
    (b"~{~", 201, 11, 201),
    (b"~a(~~)~", 200, 0, 0),
    (b"~{~[", 200, 11, 201),
    (b"~{~$[", 200, 11, 202),
    (b"a:1~+1~<1|", 255, 0, 0),
    (b"a:1~+1~<1|", 256, 11, 514),
    (b"a:1~*(1)~<1|", 255, 0, 0),
    (b"a:1~*(1)~<1|", 256, 11, 1024),
    (b"a:(1)~+1~<1|", 255, 0, 0),
    (b"a:(1)~+1~<1|", 256, 11, 516),
    (b"a:1<(1~+1~)~-1~|", 127, 0, 0),
    (b"a:1<(1~+1~)~-1~|", 128, 11, 518),
    (b"a:1~m1~<1~m1~|", 255, 0, 0),
    (b"a:1~m1~<1|", 256, 11, 514),
    (b"a:1<1~+1~,1~+1~<1|", 255, 0, 0),
    (b"a:1<1~+1~,1~+1~<1|", 256, 11, 516),
    (b"a:$=1~-1~,$=1~/1~|", 255, 0, 0),
    (b"a(X~,X~)", 254, 0, 0),
    (b"a(X~,X~)", 255, 12, 513),
    (b"a(X~,{a,a}~)", 255, 12, 1529),
    (b"a(a(X~,X~))", 253, 0, 0),
    (b"a(a(X~,X~))", 254, 12, 513),
    (b"a(X,m(X~,X~))", 253, 0, 0),
    (b"a(X,m(X~,X~))", 254, 12, 515),
    (b"[a(X~,X~)]=X", 253, 0, 0),
    (b"[a(X~,X~)]=X", 254, 12, 512),
    (b"[X|1(X~,X~)]=X", 253, 0, 0),
    (b"[X|1(X~,X~)]=X", 254, 12, 514),
    (b"a({a(X~,X~)})", 254, 0, 0),
    (b"a({a(X~,X~)})", 255, 12, 516),
    (b"(m(X~,X~))", 254, 0, 0),
    (b"(m(X~,X~))", 255, 12, 514),
    (b"X=a(X~,X~)", 253, 0, 0),
    (b"X=a(X~,X~)", 254, 12, 513),
    (b"a(X~,X~)=X", 253, 0, 0),
    (b"a(X~,X~)=X", 254, 12, 513),
    (b"a:a($~,$~)|", 254, 0, 0),
    (b"a:a($~,$~)|", 255, 12, 515),
    (b"a(X~,X~,)", 253, 10, 511),
    (b"a(X~,X~,)", 254, 10, 513),
    (b"a(~[X,X,X|X],~X)", 254, 0, 0),
];

#[test]
fn limits(rt: HostRuntime) {
    for (pattern, times, code, place) in LIMITS {
        assert_eq!(rt; outcome(rt.alloc(), *pattern, *times), Ok((*code, *place)));
    }
}
