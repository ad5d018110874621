//! A web of cells: ports that are joined two by two, each cell with a label and marks.
#![tactic(auto)]

mod classes;
pub mod examples;
mod fronts;
mod kind;
mod web;

pub use kind::CellKind;
pub use lmn_web_cells::handle::Cell;
pub use web::Web;
