//! The least embedding of a rule's head, by plain search over the tables of a solid: no store, no machine, no code.
#![tactic(auto)]

mod ahead;
mod below;
mod closed;
mod early;
mod embedding;
mod examples;
mod filled;
mod fits;
mod head;
mod holding;
mod known;
mod marks;
mod meeting;
mod naming;
mod numbers;
mod outside;
mod pairs;
mod parts;
mod placed;
mod reasons;
mod room;
mod search;
mod walk;
mod whole;

pub use embedding::{Found, least};
pub use examples::{equals_binds, images_are_read};
pub use outside::count;
pub use room::Room;
