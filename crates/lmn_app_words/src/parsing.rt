//! Words of the form as `clap` reads them.
ghost use Rattle.std.specs.Prelude.{◌≡◌, ◌↔◌, IfOk, false, IfSome, IsSome, OnErr, Some, option_and_then, option_map, unwrap_or};
ghost use Rattle.clap.specs.Words.{App, found_of, new_app, rows_of, rule_of, subcommand_rows_of, with_rule, with_subcommand};
ghost use Rattle.lmn_app_words.specs.Forms.{Asks, InForm, IsInRanges, Pair, Request, Run, request_of, run_of, to_pair};
ghost use Rattle.lmn_app_words.specs.Hearing.{number_written, order_named};
ghost use Rattle.lmn_app_words.specs.Parsing.{FoundIsRequest, IsLineOfCommand, Tells, argument_rule, bare_line, required_rule, run_line, whole_line, with_pair};

use crate::command::{Command, PairKind, RunSettings, RunWords};
use crate::reading::in_form;
use crate::setting::{OrderName, number};
use clap::error::ErrorKind;
use clap::{Arg, ArgAction, ArgMatches};
use std::alloc::{AllocError, Global};

/// The budget where none is given.
const BUDGET: u64 = 1_000_000;

/// The size where none is given.
const SIZE: u64 = 16_777_216;

impl Command<'_> {
    /// What the words of the command line ask for; `None` where they aren't of the form.
    ///
    /// # Errors
    ///
    /// `AllocError` where there is no memory, which is taken for words of the form alone.
    pub fn from_words<'w>(
        alloc: Global,
        words: &'w [String],
    ) -> Result<Option<Command<'w>>, AllocError>
        ensures form { IfOk result (λ command. IsSome command ↔ InForm words.now) }
        ensures memory { OnErr result (InForm words.now) }
        ensures asks { IfOk result (λ found. IfSome found (λ command. Asks words.now (request_of command))) }
        ensures ranges { IfOk result (λ found. IfSome found (λ command. IsInRanges (request_of command))) }
    {
        if !in_form(words) {
            return Ok(None);
        }
        let matches = matches_of(alloc, words)?;
        Ok(command_of(&matches))
    }
}

/// The matches of words of the form. Of the errors of `clap` only want of memory is met.
fn matches_of<'w>(alloc: Global, words: &'w [String]) -> Result<ArgMatches<'w>, AllocError>
    requires { InForm words.now }
    ensures { IfOk result (λ matches. (request : Request) → Asks words.now request → FoundIsRequest (subcommand_rows_of matches) request) }
{
    match whole_line(alloc)?.try_get_matches_from(words) {
        Ok(matches) => Ok(matches),
        Err(error) => {
            let kind = error.kind();
            prove!(kind == ErrorKind::OutOfMemory);
            Err(AllocError)
        }
    }
}

/// The whole command line.
fn whole_line<'w>(alloc: Global) -> Result<clap::Command<'w>, AllocError>
    ensures { IfOk result (λ line. IsLineOfCommand line whole_line) }
{
    let with_run = with_command(bare_line(alloc), run_line(alloc));
    let with_compile = with_word(alloc, with_run, "compile", "file");
    let with_demo = with_word(alloc, with_compile, "demo", "number");
    let with_check = with_pair(alloc, with_demo, "check");
    let with_debug = with_pair(alloc, with_check, "debug");
    let with_exec = with_pair(alloc, with_debug, "exec");
    with_pair(alloc, with_exec, "bound")
}

/// The command line without commands. Help, version and the program's name are switched off, since no word of the form asks
/// for them.
fn bare_line<'w>(alloc: Global) -> clap::Command<'w>
    ensures { IsLineOfCommand result bare_line }
{
    clap::Command::new(alloc, "lmn")
        .no_binary_name(true)
        .disable_help_flag(true)
        .disable_help_subcommand(true)
        .subcommand_required(true)
}

/// A command line with one more command. `with_word` and `with_pair` take a line that there may be no memory for, so that
/// a line is let go of here alone.
fn with_command<'w>(
    line: clap::Command<'w>,
    command: Result<clap::Command<'w>, AllocError>,
) -> Result<clap::Command<'w>, AllocError>
    ensures { (app sub : App) → IsLineOfCommand line.entry app → IfOk command.entry (λ command. IsLineOfCommand command sub) → IfOk result (λ line. IsLineOfCommand line (with_subcommand app sub.top)) }
{
    match command {
        Ok(command) => line.subcommand(command),
        Err(AllocError) => Err(AllocError),
    }
}

/// A command line with one more command that takes one word.
fn with_word<'w>(
    alloc: Global,
    line: Result<clap::Command<'w>, AllocError>,
    name: &'w str,
    word: &'w str,
) -> Result<clap::Command<'w>, AllocError>
    ensures { (app : App) → IfOk line.entry (λ line. IsLineOfCommand line app)
        → IfOk result (λ line. IsLineOfCommand line (with_subcommand app (with_rule (new_app name.entry.now) (required_rule word.entry.now)).top)) }
{
    match line {
        Ok(line) => with_command(line, word_line(alloc, name, word)),
        Err(AllocError) => Err(AllocError),
    }
}

/// A command line with one more command that takes a program and a second text.
fn with_pair<'w>(
    alloc: Global,
    line: Result<clap::Command<'w>, AllocError>,
    name: &'w str,
) -> Result<clap::Command<'w>, AllocError>
    ensures { (app : App) → IfOk line.entry (λ line. IsLineOfCommand line app) → IfOk result (λ line. IsLineOfCommand line (with_pair app name.entry.now)) }
{
    match line {
        Ok(line) => {
            let with_first = word_line(alloc, name, "first");
            let with_last = with_argument(alloc, with_first, "last", ArgumentKind::Required);
            with_command(line, with_last)
        }
        Err(AllocError) => Err(AllocError),
    }
}

/// The words of `run`.
fn run_line<'w>(alloc: Global) -> Result<clap::Command<'w>, AllocError>
    ensures { IfOk result (λ line. IsLineOfCommand line run_line) }
{
    let with_file = word_line(alloc, "run", "file");
    let with_trace = with_argument(alloc, with_file, "trace", ArgumentKind::Flag);
    let with_folded = with_argument(alloc, with_trace, "folded", ArgumentKind::Flag);
    let with_budget = with_argument(alloc, with_folded, "budget", ArgumentKind::Valued);
    let with_size = with_argument(alloc, with_budget, "size", ArgumentKind::Valued);
    let with_order = with_argument(alloc, with_size, "order", ArgumentKind::Valued);
    with_argument(alloc, with_order, "seed", ArgumentKind::Valued)
}

/// A command with one word that has to stand there.
fn word_line<'w>(
    alloc: Global,
    name: &'w str,
    word: &'w str,
) -> Result<clap::Command<'w>, AllocError>
    ensures { IfOk result (λ line. IsLineOfCommand line (with_rule (new_app name.entry.now) (required_rule word.entry.now))) }
{
    clap::Command::new(alloc, name).arg(argument(alloc, word, ArgumentKind::Required))
}

/// What stands in a command line.
#[derive(Clone, Copy)]
enum ArgumentKind {
    /// A word that has to stand there.
    Required,
    /// An option without a value.
    Flag,
    /// An option with a value.
    Valued,
}

/// A command line with one more argument.
fn with_argument<'w>(
    alloc: Global,
    line: Result<clap::Command<'w>, AllocError>,
    name: &'w str,
    kind: ArgumentKind,
) -> Result<clap::Command<'w>, AllocError>
    ensures { (app : App) → IfOk line.entry (λ line. IsLineOfCommand line app) → IfOk result (λ line. IsLineOfCommand line (with_rule app (argument_rule kind name.entry.now))) }
{
    match line {
        Ok(line) => line.arg(argument(alloc, name, kind)),
        Err(AllocError) => Err(AllocError),
    }
}

/// An argument of a kind.
fn argument<'w>(alloc: Global, name: &'w str, kind: ArgumentKind) -> Arg<'w>
    ensures rule { rule_of result ≡ argument_rule kind name.entry.now }
    ensures local { result.global ≡ false }
{
    match kind {
        ArgumentKind::Required => Arg::new(alloc, name).required(true),
        ArgumentKind::Flag => Arg::new(alloc, name).long(name).action(ArgAction::SetTrue),
        ArgumentKind::Valued => Arg::new(alloc, name).long(name),
    }
}

/// What matches ask for.
fn command_of<'w>(matches: &ArgMatches<'w>) -> Option<Command<'w>>
    ensures { (request : Request) → FoundIsRequest (subcommand_rows_of matches.now) request → option_map request_of result ≡ Some request }
{
    let (name, words) = matches.subcommand()?;
    match name {
        "run" => Some(Command::Run(run_words(words)?)),
        "compile" => Some(Command::Compile(words.get_str("file")?)),
        "demo" => Some(Command::Demo(number(words.get_str("number")?)?)),
        other => pair_found(other, words),
    }
}

/// What the matches of a command with a program and a second text ask for.
fn pair_found<'w>(name: &str, words: &ArgMatches<'w>) -> Option<Command<'w>>
    ensures { (pair : Pair) → FoundIsRequest (Some (name.now, rows_of (found_of words.now))) (to_pair pair) → option_map request_of result ≡ Some (to_pair pair) }
{
    let kind = PairKind::named(name)?;
    let first = words.get_str("first")?;
    let last = words.get_str("last")?;
    Some(Command::Pair(kind.of_words(first, last)))
}

/// What the matches of `run` ask for.
fn run_words<'w>(matches: &ArgMatches<'w>) -> Option<RunWords<'w>>
    ensures { (run : Run) → Tells (rows_of (found_of matches.now)) run → option_map run_of result ≡ Some run }
{
    let file = matches.get_str("file")?;
    let trace = matches.get_flag("trace");
    let folded = matches.get_flag("folded");
    let budget = number_or(matches.get_str("budget"), BUDGET);
    let size = number_or(matches.get_str("size"), SIZE);
    let seed = number_or(matches.get_str("seed"), 0);
    let order = order_or_first(matches.get_str("order")).with_seed(seed);
    Some(RunWords {
        file,
        settings: RunSettings {
            trace,
            folded,
            budget,
            size,
            order,
        },
    })
}

/// The number that a word writes, or the default.
fn number_or(word: Option<&str>, default: u64) -> u64
    ensures { result ≡ unwrap_or (option_and_then number_written (option_map (λ text. text.now) word.entry)) default }
{
    match word {
        Some(word) => number(word).unwrap_or(default),
        None => default,
    }
}

/// The order that a word names, or the first one.
fn order_or_first(word: Option<&str>) -> OrderName
    ensures { result ≡ unwrap_or (option_and_then order_named (option_map (λ text. text.now) word.entry)) OrderName.First }
{
    match word {
        Some(word) => OrderName::named(word).unwrap_or(OrderName::First),
        None => OrderName::First,
    }
}
