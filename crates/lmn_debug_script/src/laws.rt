//! The laws of scripts.

ghost use Rattle.lmn_debug_script.specs.Examples.{EightDigits, FirstIsNotWrong, NoFunctor, NoOperator, NoneWrong, NotOtherOrders, SecondIsWrong, SevenDigits, SmallOrders, SpaceBehind, SpaceInQuotes, TwoSpaces};
ghost use Rattle.lmn_debug_script.specs.Laws.{OneIsFirstWrong, OrderedIsNotWrong, OrdersAreOnce, OrdersStay, SomeOrdersOrWrong};

/// By one list of names a text has one list of orders at most, and the same where names are put behind.
pub fn orders_are_once()
    ensures once { OrdersAreOnce }
    ensures stay { OrdersStay }
{}

/// A text has orders or a first wrong line, not both, and one such line at most.
pub fn scripts_are_decided()
    ensures some { SomeOrdersOrWrong }
    ensures either { OrderedIsNotWrong }
    ensures one { OneIsFirstWrong }
{}

/// What is a script and its orders, and what isn't.
pub fn small_scripts()
    ensures orders { SmallOrders }
    ensures others { NotOtherOrders }
    ensures none { NoneWrong }
    ensures second { SecondIsWrong }
    ensures first { FirstIsNotWrong }
{}

/// What is a line of a script, and what isn't.
pub fn small_lines()
    ensures seven { SevenDigits }
    ensures eight { EightDigits }
    ensures two { TwoSpaces }
    ensures behind { SpaceBehind }
    ensures quotes { SpaceInQuotes }
    ensures operator { NoOperator }
    ensures functor { NoFunctor }
{}
