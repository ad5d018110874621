//! Choosers: which membrane is asked first.
#![tactic(auto)]

mod chooser;
mod order;

pub use chooser::Chooser;
pub use order::{Order, follow};
