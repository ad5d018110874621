//! The order in which membranes are asked.
ghost use Rattle.std.specs.Prelude.{◌<◌, ◌≤◌, ◌+◌};
ghost use Rattle.lmn_receipt_search.specs.Turns.{AskedAt};

/// The membrane that is asked at a turn, where `count` membranes are asked from a number on, wrapping round.
pub(crate) fn asked_at(from: usize, turn: usize, count: usize) -> usize
    requires from { from < count }
    requires turn { turn < count }
    ensures { AskedAt from count turn result }
{
    let left = count - from;
    if turn < left {
        from + turn
    } else {
        turn - left
    }
}

/// The last number of a membrane from which the one of this turn is reached without wrapping round, but where it was reached so.
pub(crate) fn reach_of(from: usize, turn: usize, count: usize) -> usize
    requires from { from < count }
    requires turn { turn < count }
    ensures { (from ≤ result) × (result < count) × (result ≤ from + turn) }
{
    let left = count - from;
    if turn < left { from + turn } else { count - 1 }
}
