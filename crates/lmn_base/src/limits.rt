//! The limits of the language, each by its name: the numbers of `specs/Limits`.

/// The most bytes of a name.
pub const LONGEST_NAME: usize = 255;

/// The most links of an atom: an arity has 8 bits.
pub const MOST_LINKS: u64 = 255;

/// The most items of a head.
pub const MOST_HEAD_ITEMS: u64 = 128;

/// The most items of a body.
pub const MOST_BODY_ITEMS: u64 = 1024;

/// The most conditions of a guard.
pub const MOST_CONDITIONS: u64 = 64;

/// The most integers and contexts of a guard.
pub const MOST_GUARD_TOKENS: u64 = 256;

/// The registers for atoms that code may set.
pub const MOST_ATOM_REGISTERS: u16 = 1152;

/// The registers for membranes that code may set, that of the rule among them.
pub const MOST_MEMBRANE_REGISTERS: u16 = 1153;

/// The registers for typed contexts that code may set.
pub const MOST_PART_REGISTERS: u16 = 128;

/// The registers for integers that code may set.
pub const MOST_INTEGER_REGISTERS: u16 = 512;

/// The registers for copies that code may set.
pub const MOST_COPY_REGISTERS: u16 = 1024;
