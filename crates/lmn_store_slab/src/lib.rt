//! A store that keeps its items in slabs, over lists that are linked through tables.
#![tactic(auto)]

mod cell;
mod cells;
mod examples;
mod freeing;
mod growth;
mod links;
mod lists;
mod moving;
mod node;
mod seek;
mod slab_store;
mod table;

pub use examples::sizes_are_told;
pub use lists::Lists;
pub use slab_store::SlabStore;
