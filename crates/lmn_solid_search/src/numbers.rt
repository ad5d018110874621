//! Sets of numbers of images.
ghost use Rattle.std.specs.Prelude.{◌≡◌, ◌↔◌, IsTrue};
ghost use Rattle.lmn_solid_search.specs.Reasoning.{IsAmong, Within, bit};

/// Numbers of images.
#[derive(Clone, Copy)]
pub(crate) enum Numbers {
    /// All.
    All,
    /// Those whose bits are set. From the 127th on numbers have one bit in common.
    These(u128),
}

/// The bit of a number.
fn bit_of(number: usize) -> u128
    ensures { result ≡ bit number }
{
    1 << number.min(127)
}

impl Numbers {
    /// No number.
    pub(crate) fn none() -> Numbers {
        Numbers::These(0)
    }

    /// One number.
    pub(crate) fn one(number: usize) -> Numbers
        ensures { IsAmong number result }
    {
        Numbers::These(bit_of(number))
    }

    /// Two numbers.
    pub(crate) fn two(one: usize, other: usize) -> Numbers
        ensures one { IsAmong one result }
        ensures other { IsAmong other result }
    {
        Numbers::one(one).with(Numbers::one(other))
    }

    /// These numbers and those.
    pub(crate) fn with(self, other: Numbers) -> Numbers
        ensures these { Within self result }
        ensures those { Within other result }
    {
        match self {
            Numbers::All => Numbers::All,
            Numbers::These(mine) => match other {
                Numbers::All => Numbers::All,
                Numbers::These(others) => Numbers::These(mine | others),
            },
        }
    }

    /// Whether a number is one of them.
    pub(crate) fn has(self, number: usize) -> bool
        ensures { IsTrue result ↔ IsAmong number self }
    {
        match self {
            Numbers::All => true,
            Numbers::These(bits) => bit_of(number) | bits == bits,
        }
    }
}
