//! The plains of texts, with every place and the table of links.

mod lines;
mod processes;
mod rules;

use lines::lines_of;
use lmn_base::{Names, NoMemory, Plain, TextFault};
use lmn_flatten::flatten;
use lmn_lexer::lex;
use lmn_parser::parse;
use processes::PROCESSES;
use rules::RULES;
use std::alloc::{AllocGlobal, Global};
use std::process::Abort;

/// The most tokens of a text here.
const TOKENS: usize = 100_000;

/// The cells of the long lists.
const CELLS: usize = 300;

/// The plain of a text, and the names in it.
fn plain(alloc: Global, text: &[u8]) -> Result<(Plain, Names), TextFault> {
    let tokens = lex(alloc, text)?;
    let tree = parse(alloc, &tokens)?;
    if tokens.len() > TOKENS {
        return Err(TextFault::NoMemory);
    }
    let mut names = Names::new(alloc);
    let plain = flatten(alloc, text, &tokens, &tree, &mut names)?;
    Ok((plain, names))
}

/// The lines of a text's plain.
fn written(alloc: Global, text: &[u8]) -> Result<String, TextFault> {
    let (plain, names) = plain(alloc, text)?;
    Ok(lines_of(alloc, &names, &plain)?)
}

/// Lines, each with its line feed.
fn joined(alloc: Global, lines: &[&str]) -> Result<String, NoMemory> {
    let mut out = String::new(alloc);
    for line in lines {
        out.push_str(line)?;
        out.push('\n')?;
    }
    Ok(out)
}

fn compare(rt: &(impl Abort + AllocGlobal), text: &str, lines: &[&str]) {
    let found = written(rt.alloc(), text.as_bytes()).expect(rt, text);
    let wanted = joined(rt.alloc(), lines).expect(rt, "memory");
    assert_eq!(rt; found.as_str(), wanted.as_str(), "in {text}");
}

#[test]
fn texts_have_their_plains(rt: HostRuntime) {
    for (text, lines) in PROCESSES {
        compare(&rt, *text, *lines);
    }
    for (text, lines) in RULES {
        compare(&rt, *text, *lines);
    }
}

/// `p([a,a,..,a|b])`, or `p([a,a,..,a])`.
fn list_text(alloc: Global, has_rest: bool) -> Result<String, NoMemory> {
    let mut text = String::new(alloc);
    text.push_str("p([a")?;
    for _ in 1..CELLS {
        text.push_str(",a")?;
    }
    text.push_str(if has_rest { "|b])" } else { "])" })?;
    Ok(text)
}

/// The plain of such a list. Its cells and links have the place of p, and the elements stand at every other column.
fn list_plain(alloc: Global, has_rest: bool) -> Result<String, NoMemory> {
    let mut plain = String::new(alloc);
    plain.push_str(" p/1^1(0^1)")?;
    for i in 0..CELLS {
        let own = 2 * i;
        let element = 2 * i + 1;
        let rest = 2 * i + 2;
        let column = 2 * i + 4;
        write!(
            plain,
            " ./3^1({element}^1 {rest}^1 {own}^1) a/1^{column}({element}^1)"
        )?;
    }
    let last = 2 * CELLS;
    if has_rest {
        let column = 2 * CELLS + 4;
        write!(plain, " b/1^{column}({last}^1);")?;
    } else {
        write!(plain, " []/1^1({last}^1);")?;
    }
    for _ in 0..2 * CELLS + 1 {
        plain.push_str(" 2^1")?;
    }
    plain.push('\n')?;
    Ok(plain)
}

#[test]
fn long_lists(rt: HostRuntime) {
    for has_rest in [false, true] {
        let text = list_text(rt.alloc(), has_rest).expect(&rt, "memory");
        let wanted = list_plain(rt.alloc(), has_rest).expect(&rt, "memory");
        let found = written(rt.alloc(), text.as_bytes()).expect(&rt, "memory");
        assert_eq!(rt; found.as_str(), wanted.as_str());
    }
}
