ghost use Rattle.std.specs.Prelude.{◌≡◌};
ghost use Rattle.lmn_base.specs.Solids as solids;

/// The number of the name `=` in every list of names. With two links an atom of this name is a connector.
pub const CONNECTOR_NAME: u32 = 0;

/// The number of the name `int` in every list of names.
pub const INT_NAME: u32 = 1;

/// The number of the name `unary` in every list of names.
pub const UNARY_NAME: u32 = 2;

/// The number of the name `ground` in every list of names.
pub const GROUND_NAME: u32 = 3;

/// What an atom is called.
#[derive(Clone, Copy, PartialEq, Eq)]
pub enum Label {
    /// A name, by its number in the list of names.
    Name(u32),
    /// An integer.
    Int(i64),
}

/// The label of an atom and the number of its links. The functor of a connector is
/// `CONNECTOR_NAME` with arity 2.
#[derive(Clone, Copy, PartialEq, Eq)]
pub struct Functor {
    /// What the atom is called.
    pub label: Label,
    /// How many links it has, 0 to 255.
    pub arity: u8,
}

impl Functor {
    /// Whether an atom with this functor is a connector: its name is `=`, and it has two links.
    pub fn is_connector(self) -> bool
        ensures { result ≡ solids.is_connector self }
    {
        match self.label {
            Label::Name(name) => name == CONNECTOR_NAME && self.arity == 2,
            Label::Int(_) => false,
        }
    }
}
