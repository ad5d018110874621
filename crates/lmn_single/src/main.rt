//! The program of requests with one text: the words of the system, the real shelf and sinks, and the status of the call.
#![tactic(auto)]

use lmn_app_single::{answer_single, words_of};
use lmn_io::{FileShelf, OutSink};
use std::process::ExitCode;

fn main(rt: HostRuntime) -> ExitCode {
    match words_of(&rt) {
        Err(_) => ExitCode::from(6),
        Ok(words) => {
            let mut shelf = FileShelf::new(&rt);
            let mut out = OutSink::new(rt.stdout());
            let mut err = OutSink::new(rt.stderr());
            ExitCode::from(answer_single(
                rt.alloc(),
                words.as_slice(),
                &mut shelf,
                &mut out,
                &mut err,
            ))
        }
    }
}
