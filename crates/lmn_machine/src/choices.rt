//! Sets of choices.
ghost use Rattle.std.specs.Prelude.{◌≡◌, ◌↔◌, ◌^◌, min, IsTrue};
ghost use Rattle.lmn_machine.specs.Jumping.{Within};
ghost use Rattle.lmn_machine.specs.declared.choices.Choices.TheVariants.{These};

/// Choices of a head: each is a FINDATOM or an ANYMEM.
#[derive(Clone, Copy)]
pub enum Choices {
    /// All.
    All,
    /// Those whose bits are set. From the 64th on choices have one bit in common.
    These(u64),
}

impl Choices {
    /// No choice.
    #[tactic(auto, using(crate::proofs::Jumps::none_within))]
    pub fn none() -> Choices
        ensures { (others : Choices) → Within result others }
    {
        Choices::These(0)
    }

    /// One choice, by its number.
    pub fn one(number: u32) -> Choices
        ensures { result ≡ These (2 ^ min number 63) }
    {
        Choices::These(1 << number.min(63))
    }

    /// These choices and those.
    pub fn with(self, other: Choices) -> Choices
        ensures these { Within self result }
        ensures those { Within other result }
    {
        match self {
            Choices::All => Choices::All,
            Choices::These(mine) => match other {
                Choices::All => Choices::All,
                Choices::These(others) => Choices::These(mine | others),
            },
        }
    }

    /// Whether these choices are among those.
    pub fn is_within(self, other: Choices) -> bool
        ensures { IsTrue result ↔ Within self other }
    {
        match other {
            Choices::All => true,
            Choices::These(others) => match self {
                Choices::All => false,
                Choices::These(mine) => mine | others == others,
            },
        }
    }
}
