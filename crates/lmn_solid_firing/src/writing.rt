//! How the links of the solid are written.
ghost use Rattle.std.specs.Prelude.{◌≡◌, ◌+◌, IfOk};
ghost use Rattle.lmn_solid_firing.specs.Making.{written};

use lmn_base::NoMemory;

/// How the links of atoms of the solid are written.
#[derive(Clone, Copy)]
pub(crate) enum Writing {
    /// Each from a number on: those that stay from 0, those of a copy from a number of its own.
    Shifted {
        /// The number of link 0.
        by: u64,
    },
    /// Those of a copy of a part: the link that holds the part has a number of its own, and the others are shifted.
    Rooted {
        /// The link that holds the part.
        root: u64,
        /// What it is written as.
        link: u64,
        /// The number of link 0.
        by: u64,
    },
}

impl Writing {
    /// What a link is written as.
    ///
    /// # Errors
    ///
    /// `NoMemory` where no number is left for it.
    pub(crate) fn link(&self, old: u64) -> Result<u64, NoMemory>
        ensures { IfOk result (λ new. new ≡ written self.now old) }
    {
        match *self {
            Writing::Shifted { by } => sum(by, old),
            Writing::Rooted { root, link, by } => {
                if old == root { Ok(link) } else { sum(by, old) }
            }
        }
    }
}

/// The sum of two numbers.
///
/// # Errors
///
/// `NoMemory` where it has more than 64 bits.
pub(crate) fn sum(left: u64, right: u64) -> Result<u64, NoMemory>
    ensures { IfOk result (λ both. both ≡ left + right) }
{
    match left.checked_add(right) {
        Some(both) => Ok(both),
        None => Err(NoMemory),
    }
}
