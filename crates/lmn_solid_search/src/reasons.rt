//! On which images a failure of a search rests.
ghost use Rattle.std.specs.Prelude.{◌≡◌, ℕ, suc};
ghost use Rattle.lmn_solid_search.specs.Reasoning.{IsAmong, RestsOnLess};
ghost use Rattle.lmn_solid_search.specs.declared.numbers.Numbers.TheVariants.{All};

use crate::numbers::Numbers;

/// Images on which a failure rests: where they are the same, the search fails as well, whatever the others are.
#[derive(Clone, Copy)]
pub(crate) struct Reasons {
    /// The numbers of atoms.
    pub atoms: Numbers,
    /// The indices of membranes.
    pub membranes: Numbers,
}

impl Reasons {
    /// All images.
    pub(crate) fn all() -> Reasons
        ensures { result ≡ record { atoms = All; membranes = All } }
    {
        Reasons {
            atoms: Numbers::All,
            membranes: Numbers::All,
        }
    }

    /// Those of atoms.
    pub(crate) fn of_atoms(atoms: Numbers) -> Reasons
        ensures { result.atoms ≡ atoms }
    {
        Reasons {
            atoms,
            membranes: Numbers::none(),
        }
    }

    /// Those of membranes.
    pub(crate) fn of_membranes(membranes: Numbers) -> Reasons
        ensures { result.membranes ≡ membranes }
    {
        Reasons {
            atoms: Numbers::none(),
            membranes,
        }
    }

    /// That of a membrane by its number. The membrane in which the rule stands, number 0, is the same for all placements.
    pub(crate) fn of_membrane(number: usize) -> Reasons
        ensures { (k : ℕ) → number ≡ suc k → IsAmong k result.membranes }
    {
        if number == 0 {
            Reasons::of_membranes(Numbers::none())
        } else {
            Reasons::of_membranes(Numbers::one(number - 1))
        }
    }

    /// These images and those.
    pub(crate) fn with(self, other: Reasons) -> Reasons
        ensures these { RestsOnLess self result }
        ensures those { RestsOnLess other result }
    {
        Reasons {
            atoms: self.atoms.with(other.atoms),
            membranes: self.membranes.with(other.membranes),
        }
    }
}
