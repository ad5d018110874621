//! Loading: puts the process of a plain into a new store.
#![tactic(auto)]

mod filling;
mod joining;
mod laws;
mod leaves;
mod loading;

pub use laws::loading_settles;
pub use leaves::add_pair;
pub use loading::{LoadFault, load};
