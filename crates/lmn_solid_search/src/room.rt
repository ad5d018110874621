//! Room for walks.
ghost use Rattle.std.specs.Prelude.{IfOk};
ghost use Rattle.lmn_solid_tables.specs.Flats.{heap_of};
ghost use Rattle.lmn_solid_search.specs.Holding.{HasRoom};

use crate::marks::Marks;
use crate::pairs::Pairs;
use lmn_base::NoMemory;
use lmn_solid_tables::Flat;
use std::alloc::Global;

/// Marks of atoms and membranes, which searches use one after the other.
#[derive(Drop)]
pub struct Room {
    pub(crate) seen: Marks,
    pub(crate) mine: Marks,
    pub(crate) within: Marks,
    pub(crate) membranes: Marks,
    pub(crate) pairs: Pairs,
}

impl Room {
    /// Room for searches in tables.
    ///
    /// # Errors
    ///
    /// `NoMemory` at want of memory.
    pub fn new(alloc: Global, flat: &Flat) -> Result<Room, NoMemory>
        ensures { IfOk result (HasRoom (heap_of flat.now)) }
    {
        let atoms = flat.atom_count();
        Ok(Room {
            seen: Marks::new(alloc, atoms)?,
            mine: Marks::new(alloc, atoms)?,
            within: Marks::new(alloc, atoms)?,
            membranes: Marks::new(alloc, flat.membrane_count())?,
            pairs: Pairs::new(alloc, atoms)?,
        })
    }
}
