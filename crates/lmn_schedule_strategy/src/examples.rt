//! What sleeps, by examples.
ghost use Rattle.lmn_schedule_strategy.specs.Examples.{AskedByMarks, AsleepByMark, AwakeAreAsked, MarksAreLow, NothingIsTurned, SleepersArePassed, TurnsAgainByMarks};

/// A membrane with the mark 0 is awake, one with the mark 1 isn't.
pub fn sleepers_are_passed()
    ensures { SleepersArePassed }
{}

/// A membrane falls asleep where its mark becomes 1, and not where it becomes 2.
pub fn asleep_by_mark()
    ensures { AsleepByMark }
{}

/// Where all membranes are awake they sleep rightly, and where one has the mark 2 they don't.
pub fn marks_are_low()
    ensures { MarksAreLow }
{}

/// Without codes a turn changes nothing where no membrane may sleep, and none commits.
pub fn nothing_is_turned()
    ensures { NothingIsTurned }
{}

/// Where all membranes are awake they can be asked, and where one has the mark 2 they can't: so before a turn, and so behind it.
pub fn awake_are_asked()
    ensures before { AwakeAreAsked }
    ensures behind { TurnsAgainByMarks }
{}

/// What is asked in vain and what is chosen, by marks and without codes.
pub fn asked_by_marks()
    ensures { AskedByMarks }
{}
