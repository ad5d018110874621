//! The laws of refusals.

ghost use Rattle.lmn_base.specs.Codes.{CodesAreNumbered, NumbersAreOfCodes};
ghost use Rattle.lmn_base.specs.FirstLaws.{OneRefusalOfRows, NoneOrRefused};

/// Rows of a table of refusals refuse at most once, and not where none of them applies.
pub fn refusals_are_one()
    ensures one { OneRefusalOfRows }
    ensures none { NoneOrRefused }
{}

/// A code is the one that has its number, and a number is that of its code.
pub fn codes_have_numbers()
    ensures code { CodesAreNumbered }
    ensures number { NumbersAreOfCodes }
{}
