//! The numbers of a cell, by what they say. The first mark of a cell is one of them, and each further mark stands with the port
//! before its own: so the first one, which is asked most, stands at one place.

/// How many ports the cell has. This number and the next one are below 256.
pub const ARITY: usize = 0;

/// What the cell stands for.
pub const KIND: usize = 1;

/// The index of the cell, which no other one has and which stays.
pub const INDEX: usize = 2;

/// The upper half of the cell's label, below 2^16.
pub const HIGH: usize = 3;

/// The lower half of the cell's label.
pub const LOW: usize = 4;

/// The first mark of the cell.
pub const FIRST_MARK: usize = 5;

/// How many atoms stand in the cell.
pub const ATOM_COUNT: usize = 6;

/// How many membranes stand in the cell.
pub const MEMBRANE_COUNT: usize = 7;
