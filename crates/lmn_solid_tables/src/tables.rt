use lmn_base::{Functor, Rows};

/// An atom of a solid.
#[derive(Drop)]
pub struct FlatAtom {
    pub(crate) functor: Functor,
    /// Its links, by index of the argument.
    pub(crate) links: Rows<u64>,
    /// The number of the membrane in which it stands.
    pub(crate) home: usize,
}

/// A membrane of a solid, or its root.
#[derive(Drop)]
pub struct FlatMembrane {
    /// The number of the membrane round it; of the root its own.
    pub(crate) parent: usize,
    pub(crate) atoms: Rows<usize>,
    pub(crate) membranes: Rows<usize>,
    pub(crate) rules: Rows<u32>,
}

/// A port of an atom.
#[derive(Clone, Copy, PartialEq, Eq)]
pub struct Port {
    /// The number of the atom.
    pub atom: usize,
    /// The index of the argument.
    pub index: usize,
}
