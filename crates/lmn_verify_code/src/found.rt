use lmn_base::Functor;
use lmn_guards::TypeKind;
use lmn_instr_code::AtomPort;

/// How many registers of each kind are set.
#[derive(Clone, Copy)]
pub struct RegisterCounts {
    /// Atoms.
    pub atoms: u16,
    /// Membranes, with that in which the rule stands.
    pub membranes: u16,
    /// Typed contexts.
    pub parts: u16,
    /// Integers.
    pub integers: u16,
    /// Copies of typed contexts.
    pub copies: u16,
}

/// An atom that a head finds.
#[derive(Clone, Copy)]
pub struct FoundAtom {
    /// The number of its register.
    pub atom: u16,
    /// Its functor.
    pub functor: Functor,
    /// The register of the membrane in which it stands.
    pub membrane: u16,
}

/// A membrane that a head finds.
#[derive(Clone, Copy)]
pub struct FoundMembrane {
    /// The number of its register.
    pub membrane: u16,
    /// The register of the membrane in which it stands.
    pub inside: u16,
}

/// A typed context that a head finds.
#[derive(Clone, Copy)]
pub struct FoundPart {
    /// The number of its register.
    pub part: u16,
    /// What it is.
    pub kind: TypeKind,
    /// The port at whose other end it stands.
    pub port: AtomPort,
    /// The register of the membrane in which it stands.
    pub membrane: u16,
}
