//! What a cell stands for.
ghost use Rattle.std.specs.Prelude.{◌≡◌, ◌<◌, ◌^◌};
ghost use Rattle.lmn_web.specs.Kinds.{kind_by, FILED};
ghost use Rattle.lmn_web.specs.Webs.{list_link, count_number};

use lmn_web_cells::links::{ATOMS, MEMBRANES};
use lmn_web_cells::numbers::{ATOM_COUNT, MEMBRANE_COUNT};

/// What a cell stands for.
#[derive(Clone, Copy)]
pub enum CellKind {
    /// An atom.
    Atom,
    /// A membrane.
    Membrane,
}

/// The number by which a cell tells that it is a membrane whose atoms are filed by class.
pub const FILED: u64 = 1;

/// The number of a membrane whose atoms aren't.
pub const UNFILED: u64 = 2;

/// The number by which a cell tells its kind. The atoms of a membrane are filed where its label has this class, which is 0.
pub fn number_of(kind: CellKind, class: u64) -> u64
    ensures kind { kind_by result ≡ kind }
    ensures small { result < 256 }
    ensures filed { result ≡ FILED → class ≡ 0 }
{
    match kind {
        CellKind::Atom => 0,
        CellKind::Membrane => { if class == 0 { FILED } else { UNFILED } }
    }
}

/// The kind of a number.
pub fn kind_of(n: u64) -> CellKind
    ensures { result ≡ kind_by n }
{
    if n == 0 {
        CellKind::Atom
    } else {
        CellKind::Membrane
    }
}

/// The link at which a list of this kind begins.
pub fn first_link(kind: CellKind) -> usize
    ensures { result ≡ list_link kind }
{
    match kind {
        CellKind::Atom => ATOMS,
        CellKind::Membrane => MEMBRANES,
    }
}

/// The number that says how long it is.
pub fn count_place(kind: CellKind) -> usize
    ensures { result ≡ count_number kind }
{
    match kind {
        CellKind::Atom => ATOM_COUNT,
        CellKind::Membrane => MEMBRANE_COUNT,
    }
}
