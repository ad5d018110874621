//! A law of the code of rules.
ghost use Rattle.lmn_compile_listing.specs.Listings.{CodesHaveNames};

/// A list that has the names of a rule has those of its code.
pub fn codes_have_names()
    ensures { CodesHaveNames }
{}
