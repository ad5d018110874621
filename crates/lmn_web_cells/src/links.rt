//! The links of a cell, by where they lead. Behind the first three an atom has others than a membrane, which has one more.

/// The link to the membrane in a list of which the cell stands.
pub const HOME: usize = 0;

/// The link to the next cell of that list.
pub const NEXT: usize = 1;

/// The link to the previous cell of that list.
pub const PREV: usize = 2;

/// The link of a membrane to the first of its atoms. The link behind it leads to the last one.
pub const ATOMS: usize = 3;

/// The link of a membrane to the first of its membranes. The link behind it leads to the last one.
pub const MEMBRANES: usize = 5;

/// The word of the last link of a membrane, to the last atom of a class.
pub const LEADERS_WORD: usize = 14;

/// The link of an atom to the next one of its class, and of the last one of a class to the first one of it.
pub const CLASS_NEXT: usize = 3;

/// The link of an atom to the previous one of its class, and of the first one of a class to the last one of it.
pub const CLASS_PREV: usize = 4;

/// The link of the last atom of a class to those of other classes on its even side, and of each other one to its membrane.
pub const EVEN: usize = 5;

/// The link of the last atom of a class to those of other classes on its odd side.
pub const ODD: usize = 6;
