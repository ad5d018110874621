use lmn_base::NoMemory;
use std::alloc::AllocFailed;

/// Why a part of a text wasn't read.
#[derive(Clone, Copy)]
pub(crate) enum Stop {
    /// No reading takes the token with this number, or there is none with it.
    At(usize),
    /// Memory was wanting.
    NoMemory,
}

impl<T: Drop> From<AllocFailed<T>> for Stop {
    ghost use Rattle.std.specs.Prelude.{◌≡◌};
    ghost use Rattle.lmn_parser.specs.declared.stop.Stop.TheVariants as stop;

    ghost from_gives = { λ _ e. e ≡ stop.NoMemory };

    fn from(_failed: AllocFailed<T>) -> Stop {
        Stop::NoMemory
    }
}

impl From<NoMemory> for Stop {
    ghost use Rattle.std.specs.Prelude.{◌≡◌};
    ghost use Rattle.lmn_parser.specs.declared.stop.Stop.TheVariants as stop;

    ghost from_gives = { λ _ e. e ≡ stop.NoMemory };

    fn from(_fault: NoMemory) -> Stop {
        Stop::NoMemory
    }
}
