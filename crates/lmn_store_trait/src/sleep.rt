//! The marks of membranes.

/// The mark of a membrane that is awake, as a new one is.
pub const AWAKE: u64 = 0;

/// The mark of a membrane that sleeps.
pub const ASLEEP: u64 = 1;
