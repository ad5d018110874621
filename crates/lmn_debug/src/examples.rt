//! Small counts, and commands of a session on a small course: each the contract of an empty function.
ghost use Rattle.lmn_debug.specs.Examples.{CountsAtEveryDepth, CountsStandSo, CoursesHaveSizes, SessionsStand, StepsStop, WaitsStop};

use lmn_adequacy::examples::traces_end;

/// How 2 stands to 2.
pub fn counts_stand_so()
    ensures { CountsStandSo }
{}

/// `a. b. a(X,X). {a. {a}}` has three atoms `a/0`, and not one.
pub fn counts_at_every_depth()
    ensures { CountsAtEveryDepth }
{}

/// Where `step` stops on `a. a :- a, a.` with the size 3, and where it doesn't.
pub fn steps_stop()
    ensures { StepsStop }
{
    traces_end();
}

/// Where `until` stops on `a. a :- a, a.` with the size 3, and where it doesn't.
pub fn waits_stop()
    ensures { WaitsStop }
{
    traces_end();
}

/// What a session's calls do that stands at the first solid of `a. a :- a, a.`, with the size 3.
pub fn sessions_stand()
    ensures { SessionsStand }
{
    traces_end();
}

/// What is said of each course with a size.
pub fn courses_have_sizes()
    ensures { CoursesHaveSizes }
{}
