//! The laws of listings, and what the code of a small head means.

ghost use Rattle.lmn_instr_code.specs.Meant.{HeadCodeIsMeant};
ghost use Rattle.lmn_instr_code.specs.Worked.{WorkedListings};

/// The listings of some heads and bodies, written out by hand, are those of their codes.
#[tactic(auto, using(crate::proofs::Worked::worked_listings))]
pub fn worked_listings()
    ensures { WorkedListings }
{}

/// The code of the head `a, a` on `a. a.`: its first success, another one, and what is none.
#[tactic(auto, using(crate::proofs::Meant::head_code_is_meant))]
pub fn head_code_is_meant()
    ensures { HeadCodeIsMeant }
{}
