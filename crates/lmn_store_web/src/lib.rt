//! A store that keeps its items in a web of cells.
#![tactic(auto)]

pub mod examples;
mod filing;
mod freeing;
mod indexing;
mod labels;
mod sending;
mod table;
mod web_store;

pub use web_store::WebStore;
