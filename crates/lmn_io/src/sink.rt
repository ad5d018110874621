use thiserror::Error;

/// A sink couldn't take a piece. The sink has counted it.
#[derive(Clone, Copy, Debug, PartialEq, Eq, Error)]
#[error("write failed")]
pub struct Failed;

/// Where output goes.
pub trait Sink {
    ghost use Rattle.std.specs.Prelude.{◌≡◌, ℕ, List, Option, OnOk};
    ghost use Rattle.lmn_io.specs.Counts.{Faults, one_more_put};
    ghost use Rattle.lmn_io.specs.Writing.{WritesText};

    /// The bytes that the sink took, where it tells them.
    ghost told: { Self → Option (List ℕ) };
    /// How many puts failed, and how many were asked for since the last of them. Each put counts.
    ghost faults: { Self → Faults };

    /// Takes a piece. One that is taken whole leaves the number of failed puts, so a call can say that none failed.
    ///
    /// # Errors
    ///
    /// `Failed` where the sink took only a prefix of the piece, which the count shows.
    fn put(&mut self, piece: &[u8]) -> Result<(), Failed>
        ensures writes { WritesText piece.now result (told self.old) (faults self.old) (told self.new) (faults self.new) }
        ensures counts { OnOk result (faults self.new ≡ one_more_put (faults self.old)) };
}
