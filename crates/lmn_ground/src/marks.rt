//! What marks of atoms say. The first mark of an atom has the port by which a walk entered the atom, and above it the number of
//! the atom in that walk.

/// How many values a port has.
pub const PORTS: u64 = 256;

/// The mark of an atom that the walk back has entered anew, but for the port.
pub const ANEW: u64 = 256;

/// The mark of the first atom of a walk, but for the port. That of each next one is greater by `PORTS`.
pub const FOUND: u64 = 512;

/// The number of the first atom of a walk.
pub const FIRST_NUMBER: u64 = 2;

/// The own mark of an atom that registers name, so that it is in no rest.
pub const MATCHED: u64 = 1;
