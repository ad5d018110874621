//! The lists of a solid in tables, to be searched.
//!
//! The definitions stand in `specs/Flats`; of `specs/Tables` the structs and of `specs/Building` private functions speak.
#![tactic(auto)]

mod building;
mod examples;
mod flat;
mod laws;
mod reading;
mod tables;

pub use examples::{
    across_has_its_tables, both_outside_is_not_across, inner_is_left, inner_is_within,
    one_port_twice_is_no_link,
};
pub use flat::Flat;
pub use laws::{flats_are_read, flats_have_their_solids};
pub use tables::Port;
