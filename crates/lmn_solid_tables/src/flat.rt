ghost use Rattle.lmn_solid_tables.specs.Tables.{HasPorts, Rises};

use crate::tables::{FlatAtom, FlatMembrane, Port};

/// The lists of a solid in tables: membranes in preorder, atoms in printed order, and of each link its two ports, one behind the other.
#[derive(Drop)]
pub struct Flat {
    pub(crate) atoms: Vec<FlatAtom>,
    pub(crate) membranes: Vec<FlatMembrane>,
    pub(crate) ports: Vec<Port>,
    ghost has_ports: { HasPorts atoms.items ports.items },
    ghost rises: { Rises membranes.items },
}
