//! The bound of each store.

/// Atoms, membranes, their rules and their spares are together at most so many.
pub const BOUND: u64 = 281_474_976_710_656;
