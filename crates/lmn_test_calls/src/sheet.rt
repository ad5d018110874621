//! Sheets: each tells calls of the program, line by line, and what is wanted of them.

use anyhow::{Context, Result, bail};
use std::alloc::Global;

/// What a call must leave behind.
#[derive(Drop)]
pub(crate) struct Wanted {
    pub(crate) status: u8,
    pub(crate) out: Vec<u8>,
    pub(crate) err: Vec<u8>,
    /// Whether `out` may have taken anything.
    pub(crate) any_out: bool,
}

/// A call of the program.
#[derive(Drop)]
pub(crate) struct Call {
    /// The line of the sheet with which it begins.
    pub(crate) line: usize,
    pub(crate) words: Vec<String>,
    /// The text of the file `f`.
    pub(crate) text: Vec<u8>,
    /// The text of the file `g`, where there is one.
    pub(crate) second: Option<Vec<u8>>,
    /// Whether it is made once with each front of the text.
    pub(crate) with_fronts: bool,
    /// The numbers of the fetches that fail, and of the puts into `out`.
    pub(crate) fetches_failing: Vec<u64>,
    pub(crate) puts_failing: Vec<u64>,
    /// The bytes for which `err` has room.
    pub(crate) err_room: usize,
    pub(crate) wanted: Wanted,
}

/// The bytes of a piece. One that begins or ends with a blank stands in double quotes.
fn bytes_of(piece: &str) -> &[u8] {
    let quoted = piece.strip_prefix('"');
    let inside = quoted.and_then(|rest| rest.strip_suffix('"'));
    inside.unwrap_or(piece).as_bytes()
}

/// Adds a piece.
fn add(bytes: &mut Vec<u8>, piece: &str) -> Result<()> {
    bytes.extend_from_slice(bytes_of(piece))?;
    Ok(())
}

/// Adds a piece and a line feed.
fn add_line(bytes: &mut Vec<u8>, piece: &str) -> Result<()> {
    add(bytes, piece)?;
    bytes.push(b'\n')?;
    Ok(())
}

/// Adds a piece as often as a number before it says.
fn add_times(bytes: &mut Vec<u8>, rest: &str) -> Result<()> {
    let (times, piece) = rest.split_once(' ').context("no number and piece")?;
    let piece = bytes_of(piece);
    for _ in 0..times.parse::<u32>()? {
        bytes.extend_from_slice(piece)?;
    }
    Ok(())
}

/// Adds the bytes that are told in hexadecimal.
fn add_bytes(bytes: &mut Vec<u8>, rest: &str) -> Result<()> {
    for word in rest.split(' ') {
        bytes.push(u8::from_str_radix(word, 16)?)?;
    }
    Ok(())
}

/// The words of a call. `''` stands for the empty one.
fn words_of(alloc: Global, rest: &str) -> Result<Vec<String>> {
    let mut words = Vec::new(alloc);
    for word in rest.split_whitespace() {
        let word = if word == "''" { "" } else { word };
        words.push(String::from_str(alloc, word)?)?;
    }
    Ok(words)
}

/// A call with these words, of which nothing else is said.
fn call_of(alloc: Global, line: usize, rest: &str) -> Result<Call> {
    Ok(Call {
        line,
        words: words_of(alloc, rest)?,
        text: Vec::new(alloc),
        second: None,
        with_fronts: false,
        fetches_failing: Vec::new(alloc),
        puts_failing: Vec::new(alloc),
        err_room: 100,
        wanted: Wanted {
            status: 0,
            out: Vec::new(alloc),
            err: Vec::new(alloc),
            any_out: false,
        },
    })
}

/// Hears a line on a text, and answers whether it is one.
fn hear_bytes(text: &mut Vec<u8>, key: &str, rest: &str) -> Result<bool> {
    match key {
        "text" => add(text, rest)?,
        "line" => add_line(text, rest)?,
        "times" => add_times(text, rest)?,
        "bytes" => add_bytes(text, rest)?,
        _ => return Ok(false),
    }
    Ok(true)
}

/// Hears a line on the files, and answers whether it is one.
fn hear_text(call: &mut Call, alloc: Global, key: &str, rest: &str) -> Result<bool> {
    match key {
        "fronts" => call.with_fronts = true,
        "beside" => call.second = Some(Vec::new(alloc)),
        _ => match &mut call.second {
            Some(text) => return hear_bytes(text, key, rest),
            None => return hear_bytes(&mut call.text, key, rest),
        },
    }
    Ok(true)
}

/// Hears a line on what fails, and answers whether it is one.
fn hear_failing(call: &mut Call, key: &str, rest: &str) -> Result<bool> {
    match key {
        "fail-fetch" => call.fetches_failing.push(rest.parse::<u64>()?)?,
        "fail-put" => call.puts_failing.push(rest.parse::<u64>()?)?,
        "err-room" => call.err_room = rest.parse::<usize>()?,
        _ => return Ok(false),
    }
    Ok(true)
}

/// Hears a line on what is wanted, and answers whether it is one.
fn hear_wanted(wanted: &mut Wanted, key: &str, rest: &str) -> Result<bool> {
    match key {
        "status" => wanted.status = rest.parse::<u8>()?,
        "out" => add_line(&mut wanted.out, rest)?,
        "part" => add(&mut wanted.out, rest)?,
        "parts" => add_times(&mut wanted.out, rest)?,
        "any-out" => wanted.any_out = true,
        "err" => add_line(&mut wanted.err, rest)?,
        _ => return Ok(false),
    }
    Ok(true)
}

/// Hears a line of a call.
fn hear(call: &mut Call, alloc: Global, key: &str, rest: &str) -> Result<()> {
    if hear_text(call, alloc, key, rest)?
        || hear_failing(call, key, rest)?
        || hear_wanted(&mut call.wanted, key, rest)?
    {
        return Ok(());
    }
    bail!("no such key: {key}")
}

/// Hears a line of a sheet. Empty ones and those that begin with `#` say nothing.
fn hear_line(calls: &mut Vec<Call>, alloc: Global, number: usize, line: &str) -> Result<()> {
    if line.is_empty() || line.starts_with('#') {
        return Ok(());
    }
    let (key, rest) = line.split_once(' ').unwrap_or((line, ""));
    if key == "call" {
        calls.push(call_of(alloc, number, rest)?)?;
        return Ok(());
    }
    match calls.last_mut() {
        Some(call) => hear(call, alloc, key, rest),
        None => bail!("no call before it"),
    }
}

/// The calls of a sheet.
pub(crate) fn calls_of(alloc: Global, sheet: &str) -> Result<Vec<Call>> {
    let mut calls = Vec::new(alloc);
    let mut number = 0usize;
    for line in sheet.lines() {
        number = number.saturating_add(1);
        hear_line(&mut calls, alloc, number, line).context(format_args!("line {number}"))?;
    }
    Ok(calls)
}
