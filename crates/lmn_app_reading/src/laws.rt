//! The laws of reading: a text is accepted, or it is refused, and in one way.

ghost use Rattle.lmn_app_reading.specs.Laws.{ReadingAcceptsOrRefuses, OneAcceptance, ReadingRefusesOnce, PlainsAreNamed, RefusalsHaveCodes, RefusedTextNotAccepted};

/// A text is accepted, or it is refused.
pub fn texts_are_accepted_or_refused()
    ensures { ReadingAcceptsOrRefuses }
{}

/// A text that is refused isn't accepted, and it has one refusal at most.
pub fn refusals_are_one()
    ensures accepted { RefusedTextNotAccepted }
    ensures one { ReadingRefusesOnce }
{}

/// A text is accepted in one way at most, but for the addresses of boxes in conditions.
pub fn acceptances_are_one()
    ensures { OneAcceptance }
{}

/// A text is refused by a code of the table.
pub fn refusals_have_codes()
    ensures { RefusalsHaveCodes }
{}

/// The plain of a text has only names of the list that reading leaves.
pub fn plains_are_named()
    ensures { PlainsAreNamed }
{}
