//! Calls of the program, over a shelf and sinks in memory.

use crate::sheet::Call;
use anyhow::Result;
use lmn_base::Rows;
use lmn_io::{MemShelf, MemSink};
use std::alloc::{AllocError, Global};

/// The bytes for which `out` has room where it may take anything.
const ANY_ROOM: usize = 1_000_000;

/// The bytes for which `out` has room beyond what is wanted.
const MORE_ROOM: usize = 10_000;

/// What a call left behind.
#[derive(Drop)]
pub(crate) struct Ended {
    pub(crate) status: u8,
    pub(crate) out: MemSink,
    pub(crate) err: MemSink,
}

fn rows_of<T: Copy + Drop>(alloc: Global, items: &[T]) -> Result<Rows<T>, AllocError> {
    Ok(Rows::from_vec(Vec::from_slice(alloc, items)?))
}

/// A shelf with the file `f`, and `g` where a call has a second one.
fn shelf_of(
    alloc: Global,
    text: &[u8],
    second: &Option<Vec<u8>>,
    failing: &[u64],
) -> Result<MemShelf> {
    let mut names = Rows::new(alloc);
    names.push(rows_of(alloc, b"f")?)?;
    let mut texts = Rows::new(alloc);
    texts.push(rows_of(alloc, text)?)?;
    if let Some(second) = second {
        names.push(rows_of(alloc, b"g")?)?;
        texts.push(rows_of(alloc, second.as_slice())?)?;
    }
    let failing = rows_of(alloc, failing)?;
    Ok(MemShelf::new(alloc, names, texts, failing))
}

/// The bytes for which `out` has room.
fn out_room(call: &Call) -> usize {
    if call.wanted.any_out {
        ANY_ROOM
    } else {
        call.wanted.out.len().saturating_add(MORE_ROOM)
    }
}

/// Makes a call with so much of its text.
pub(crate) fn make(alloc: Global, call: &Call, text: &[u8]) -> Result<Ended> {
    let mut shelf = shelf_of(alloc, text, &call.second, call.fetches_failing.as_slice())?;
    let puts_failing = rows_of(alloc, call.puts_failing.as_slice())?;
    let mut out = MemSink::new(alloc, out_room(call), puts_failing)?;
    let mut err = MemSink::new(alloc, call.err_room, Rows::new(alloc))?;
    let words = call.words.as_slice();
    let status = lmn_app::lmn_main(alloc, words, &mut shelf, &mut out, &mut err);
    Ok(Ended { status, out, err })
}

/// Whether a call left behind what is wanted.
pub(crate) fn is_as_wanted(call: &Call, ended: &Ended) -> bool {
    let wanted = &call.wanted;
    let out = wanted.any_out || ended.out.taken() == wanted.out.as_slice();
    out && ended.err.taken() == wanted.err.as_slice() && ended.status == wanted.status
}
