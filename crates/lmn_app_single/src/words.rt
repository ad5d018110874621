use std::env::Env;
use std::{env, io};

/// The words after the program's name; none where one isn't UTF-8.
///
/// # Errors
///
/// `OutOfMemory` where there is no memory for them.
pub fn words_of(rt: &(impl Env + AllocGlobal)) -> Result<Vec<String>, io::ErrorKind> {
    match env::args(rt) {
        Ok(args) => match args.skip(1).collect(rt.alloc()) {
            Ok(words) => Ok(words),
            Err(_) => Err(io::ErrorKind::OutOfMemory),
        },
        Err(error) => match error.kind() {
            io::ErrorKind::OutOfMemory => Err(io::ErrorKind::OutOfMemory),
            _ => Ok(Vec::new(rt.alloc())),
        },
    }
}
