//! Laws of sessions.
ghost use Rattle.lmn_debug.specs.Laws.{CoursesAreOne, FirstsStandAtZero, StepsAreExact, StepsAreTakenBack, WaitsAreExact};

/// A session whose heap holds the first solid stands at the number 0.
pub fn firsts_stand_at_zero()
    ensures { FirstsStandAtZero }
{}

/// A `step` that is done and a `back` by as many commits lead to the solid that stood before.
pub fn steps_are_taken_back()
    ensures { StepsAreTakenBack }
{}

/// A course from a closed solid with accepted rules has one solid at each number.
pub fn courses_are_one()
    ensures { CoursesAreOne }
{}

/// A `step` that doesn't lack memory has one answer, and stops at one number.
pub fn steps_are_exact()
    ensures { StepsAreExact }
{}

/// An `until` that doesn't lack memory has one answer, and stops at one number.
pub fn waits_are_exact()
    ensures { WaitsAreExact }
{}
