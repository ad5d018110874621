//! What is made of a solid once, for all questions for its next ones.
ghost use Rattle.std.specs.Prelude.{IfOk};
ghost use Rattle.lmn_base.specs.Solids.{IsSolid};
ghost use Rattle.lmn_receipt_search.specs.Tables.{AreSearchTables};

use crate::sizes::Sizes;
use lmn_base::{NoMemory, Solid};
use lmn_solid_search::Room;
use lmn_solid_tables::Flat;
use std::alloc::Global;

/// The tables of a solid, the sizes of its membranes, and room for searches.
#[derive(Drop)]
pub struct SearchTables {
    pub(crate) flat: Flat,
    pub(crate) sizes: Sizes,
    pub(crate) room: Room,
}

impl SearchTables {
    /// The tables of a solid. They take no more stack for a deeper one.
    ///
    /// # Errors
    ///
    /// `NoMemory` at want of memory.
    pub(crate) fn of(alloc: Global, solid: &Solid) -> Result<SearchTables, NoMemory>
        requires { IsSolid solid.now }
        ensures { IfOk result (AreSearchTables solid.now) }
    {
        let flat = Flat::of(alloc, solid)?;
        let sizes = Sizes::new(alloc, &flat)?;
        let room = Room::new(alloc, &flat)?;
        Ok(SearchTables { flat, sizes, room })
    }
}
