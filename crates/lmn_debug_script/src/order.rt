use lmn_base::{Cmp, Functor};

/// What a line of a script orders.
#[derive(Clone, Copy)]
pub enum Order {
    /// At most so many turns, 1 to 1,000,000, up to the first that doesn't commit.
    Step(u64),
    /// To the process so many commits earlier, 1 to 1,000,000, or to the first one.
    Back(u64),
    /// Turns until the number of atoms with a functor, at every depth, stands so to a number of at most 1,000,000.
    Until {
        /// The functor.
        functor: Functor,
        /// How the number of its atoms is to stand.
        op: Cmp,
        /// To which number.
        n: u64,
    },
    /// Writes the process.
    Show,
}
