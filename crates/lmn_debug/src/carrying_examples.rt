//! What small scripts write: each the contract of an empty function.
ghost use Rattle.lmn_debug.specs.CarryingExamples.{LinesMayFail, MemoryMayLack, OrdersAreWritten};

use crate::examples::{steps_stop, waits_stop};

/// What orders write on `a. a :- a, a.` with the size 3.
pub fn orders_are_written()
    ensures { OrdersAreWritten }
{
    steps_stop();
    waits_stop();
}

/// What is written of orders where memory is wanting for one.
pub fn memory_may_lack()
    ensures { MemoryMayLack }
{
    steps_stop();
}

/// What is due where a line fails.
pub fn lines_may_fail()
    ensures { LinesMayFail }
{
    steps_stop();
}
