//! Prepares and commits the code of bodies on any store of atoms in membranes.
//!
//! To prepare makes all that a body makes, detached, and is the only part that takes memory. What is prepared can be
//! committed, which takes no memory and can't fail.
#![tactic(auto)]

mod committing;
mod laws;
mod marking;
mod preparing;
mod splicing;
mod waking;

pub use committing::commit;
pub use laws::{
    bodies_are_in_order, bodies_can_be_committed, copies_are_not_ready, empty_body_is_ready,
    lost_atoms_are_not_ready, rules_wake_touched, taking_is_rare,
};
pub use marking::{has_home, mark_taken, set_own};
pub use preparing::prepare;
