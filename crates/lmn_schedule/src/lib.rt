//! The engine: the process of a plain in a store, and turns of the strategy on it.
#![tactic(auto)]

mod engine;
mod laws;
mod rousing;

pub use engine::Engine;
pub use laws::{
    attempts_are_few, counts_are_alike, heaps_hold_solids, rules_are_counted, sleepers_do_not_embed,
};
pub use lmn_schedule_loading::LoadFault;
pub use lmn_schedule_strategy::Turn;
pub use rousing::rouse_all;
