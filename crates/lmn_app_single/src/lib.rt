//! Requests with one text: `run`, `compile` and `demo`, from the words of the command line to a status.
#![tactic(auto)]

mod compiling;
mod conclusion;
mod demo;
mod ending;
mod running;
mod single;
mod task;
mod words;

pub use conclusion::conclude;
pub use ending::Ending;
pub use running::{TOO_LARGE, ending_of};
pub use single::{Acted, act_single, answer_single, fetch};
pub use task::Task;
pub use words::words_of;
