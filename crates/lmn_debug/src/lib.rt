//! A session of the debugger: it goes forward, back, and on to a condition, by the orders of a script whose lines it writes.
#![tactic(auto)]

mod beginning;
mod break_;
pub mod carrying_examples;
mod carrying_laws;
mod debugging;
pub mod examples;
mod laws;
mod lines;
mod session;

pub use break_::Break;
pub use carrying_laws::{
    back_undoes_step, orders_are_one, orders_stay_in_trace, solids_are_one, writing_is_one,
};
pub use debugging::{DebugFault, debug};
pub use laws::{
    courses_are_one, firsts_stand_at_zero, steps_are_exact, steps_are_taken_back, waits_are_exact,
};
pub use lmn_debug_counting::CountingStore;
pub use lmn_debug_script::{Order, read_script};
pub use session::{Session, Stop};
