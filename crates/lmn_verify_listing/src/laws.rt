//! The laws of verified code.

ghost use Rattle.lmn_verify_listing.specs.ListingLaws.{ListedLinesStand, NeitherListedNorWrong, WrongLineIsOne};
ghost use Rattle.lmn_verify_code.specs.NameExamples.{CodeNamesExamples};
ghost use Rattle.lmn_verify_code.specs.VerifiedExamples.{VerifiedExamples};

/// Some codes are verified, and some that break one clause each aren't.
#[tactic(auto, using(lmn_verify_code::proofs::VerifiedExamples::verified_examples))]
pub fn verified_examples()
    ensures { VerifiedExamples }
{}

/// What is the listings of codes has no line that doesn't stand in its place.
pub fn listed_lines_stand()
    ensures { ListedLinesStand }
{}

/// No text is neither the listings of codes nor has a line that doesn't stand in its place.
pub fn no_listing_is_neither()
    ensures { NeitherListedNorWrong }
{}

/// A text has at most one line that is the first that doesn't stand in its place.
pub fn wrong_line_is_one()
    ensures { WrongLineIsOne }
{}

/// The names of some code, in the order of its listing.
pub fn code_names_examples()
    ensures { CodeNamesExamples }
{}
