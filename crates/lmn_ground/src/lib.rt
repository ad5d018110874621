//! Parts of a store that are walked by marks.
#![tactic(auto)]

mod cells;
mod closing;
mod compare;
mod copying;
mod equality;
mod examples;
mod found;
mod gather;
mod listing;
mod marks;
mod measuring;
mod painting;
mod parts;
mod rest;
mod seek;
mod spread;
mod undo;
mod wipe;

pub use cells::{copy_cells, drop_cells, place_cells};
pub use closing::closed;
pub use copying::{CountedCopy, copy, copy_counted};
pub use equality::{equal, is_same_port};
pub use examples::rests_stand;
pub use found::Found;
pub use listing::PartList;
pub use marks::MATCHED;
pub use measuring::items_left;
pub use painting::paint;
pub use parts::{is_ground, size_of, take_listed, take_part};
