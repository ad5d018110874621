//! Which membranes sleep, what a commit wakes, and that nothing else has a match then that had none.
//!
//! The definitions stand in `specs/`.
#![tactic(auto)]

ghost use Rattle.lmn_schedule_sleep.specs.Examples.{InnerIsTouched, MarksLeaveQuiet, OuterIsTouched};
ghost use Rattle.lmn_schedule_sleep.specs.Laws.{QuietStaysMatchless};

/// A rule that has no match in a quiet membrane has none there after the commit.
pub fn quiet_stays_matchless()
    ensures { QuietStaysMatchless }
{}

/// Where the marks of membranes alone change, every membrane is quiet.
pub fn marks_leave_quiet()
    ensures { MarksLeaveQuiet }
{}

/// In `{a(X)}, b(X)`, where `a` is taken, neither its membrane nor the root is quiet.
pub fn inner_is_touched()
    ensures { InnerIsTouched }
{}

/// Where `b` is taken, the root isn't quiet and the membrane is.
pub fn outer_is_touched()
    ensures { OuterIsTouched }
{}
