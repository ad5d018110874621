//! Makes the calls of the program that sheets tell, and says whether each left behind what its sheet wants. The words are
//! names of sheets, which stand in files `NAME.txt`.
#![tactic(auto)]

mod calling;
mod sheet;

use anyhow::{Context, Result};
use calling::{Ended, is_as_wanted, make};
use sheet::{Call, calls_of};
use std::env::Env;
use std::rt::Files;
use std::{env, fs};

/// Says a piece of what was written.
fn show_bytes(rt: &(impl Print + AllocGlobal), title: &str, bytes: &[u8]) -> Result<()> {
    let text = String::from_utf8_lossy(rt.alloc(), bytes)?;
    println!(rt; "{title}: {text}")?;
    Ok(())
}

/// Says what a call left behind, and what is wanted.
fn show(rt: &(impl Print + AllocGlobal), call: &Call, ended: &Ended) -> Result<()> {
    let line = call.line;
    let status = ended.status;
    let wanted = call.wanted.status;
    println!(rt; "line {line}: status {status} in place of {wanted}")?;
    show_bytes(rt, "out", ended.out.taken())?;
    show_bytes(rt, "in place of", call.wanted.out.as_slice())?;
    show_bytes(rt, "err", ended.err.taken())?;
    show_bytes(rt, "in place of", call.wanted.err.as_slice())
}

/// Makes a call once, and answers whether it left behind what is wanted.
fn check_once(rt: &(impl Print + AllocGlobal), call: &Call) -> Result<bool> {
    let ended = make(rt.alloc(), call, call.text.as_slice())?;
    let right = is_as_wanted(call, &ended);
    if !right {
        show(rt, call, &ended)?;
    }
    Ok(right)
}

/// Makes a call with a front of its text, and answers whether that was run or refused.
fn check_front(rt: &(impl Print + AllocGlobal), call: &Call, front: &[u8]) -> Result<bool> {
    let ended = make(rt.alloc(), call, front)?;
    let right = ended.status == 0 || ended.status == 2;
    if !right {
        show_bytes(rt, "not run and not refused", front)?;
    }
    Ok(right)
}

/// How many calls were made, and how many of them left behind what is wanted.
#[derive(Clone, Copy)]
struct Tally {
    calls: u64,
    right: u64,
}

impl Tally {
    fn count(&mut self, right: bool) {
        self.calls = self.calls.saturating_add(1);
        if right {
            self.right = self.right.saturating_add(1);
        }
    }
}

/// Makes a call, with each front of its text if that is said.
fn check(rt: &(impl Print + AllocGlobal), call: &Call, tally: &mut Tally) -> Result<()> {
    let text = call.text.as_slice();
    if !call.with_fronts {
        tally.count(check_once(rt, call)?);
        return Ok(());
    }
    for end in 0..=text.len() {
        tally.count(check_front(rt, call, &text[..end])?);
    }
    Ok(())
}

/// Makes the calls of a sheet, and says how many of them left behind what is wanted.
fn check_sheet(rt: &(impl Print + Files + AllocGlobal), name: &str) -> Result<()> {
    let path = format!(in rt.alloc(); "{name}.txt")?;
    let sheet = fs::read_to_string(rt, path.as_str()).context(format_args!("{name}"))?;
    let calls = calls_of(rt.alloc(), sheet.as_str()).context(format_args!("{name}"))?;
    let mut tally = Tally { calls: 0, right: 0 };
    for call in calls.as_slice() {
        check(rt, call, &mut tally)?;
    }
    let all = tally.calls;
    let right = tally.right;
    if right == all {
        println!(rt; "{name}: {all} calls as wanted")?;
    } else {
        println!(rt; "{name}: {right} of {all} calls as wanted")?;
    }
    Ok(())
}

/// Makes the calls of all sheets.
fn check_all(rt: &(impl Print + Files + Env + AllocGlobal)) -> Result<()> {
    for name in env::args(rt)?.skip(1) {
        check_sheet(rt, name.as_str())?;
    }
    Ok(())
}

fn main(rt: HostRuntime) -> Result<()> {
    check_all(&rt)
}
