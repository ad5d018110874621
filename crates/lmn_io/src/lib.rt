//! Where texts come from and where output goes.
#![tactic(auto)]

mod fetches;
mod file_shelf;
mod kept;
mod laws;
mod line_buffer;
mod mem_shelf;
mod mem_sink;
mod out_sink;
mod parts;
mod shelf;
mod sink;
mod taken;

pub use file_shelf::FileShelf;
pub use laws::{asked_again_is_told, parts_are_told};
pub use line_buffer::{LineBuffer, put_all};
pub use mem_shelf::MemShelf;
pub use mem_sink::MemSink;
pub use out_sink::OutSink;
pub use shelf::{FetchFault, Fetched, Measured, Shelf};
pub use sink::{Failed, Sink};
