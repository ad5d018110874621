//! Runs the examples: the words are command lines of the program, with `--` between them.
#![tactic(auto)]

use lmn_io::{FileShelf, OutSink};
use std::env::Env;
use std::process::ExitCode;
use std::{env, io};

/// The words after the program's name.
fn words_of(rt: &(impl Env + AllocGlobal)) -> Result<Vec<String>, io::ErrorKind> {
    match env::args(rt) {
        Ok(args) => match args.skip(1).collect(rt.alloc()) {
            Ok(words) => Ok(words),
            Err(_) => Err(io::ErrorKind::OutOfMemory),
        },
        Err(error) => Err(error.kind()),
    }
}

/// Runs each command line, and ends with the greatest of their statuses.
fn main(rt: HostRuntime) -> ExitCode {
    let Ok(words) = words_of(&rt) else {
        return ExitCode::from(6);
    };
    let mut greatest = 0;
    for line in words.as_slice().split(|word| word.as_str() == "--") {
        let mut shelf = FileShelf::new(&rt);
        let mut out = OutSink::new(rt.stdout());
        let mut err = OutSink::new(rt.stderr());
        let status = lmn_app::lmn_main(rt.alloc(), line, &mut shelf, &mut out, &mut err);
        if status > greatest {
            greatest = status;
        }
    }
    ExitCode::from(greatest)
}
