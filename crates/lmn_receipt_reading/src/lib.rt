//! A trace that is read line by line.
#![tactic(auto)]

mod laws;
mod shelf_lines;
mod trace_lines;
mod window;

pub use laws::two_lines_are_read;
pub use shelf_lines::ShelfLines;
pub use trace_lines::{SliceLines, TraceLines};
pub use window::Window;
