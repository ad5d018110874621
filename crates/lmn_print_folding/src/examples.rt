//! What own marks tell of two atoms that are joined by their last ports.
ghost use Rattle.lmn_print_folding.specs.PrintedExamples.{LinkIsPrinted, NoTermIsPrinted, TermIsPrinted};

/// Where one of them alone is marked as an item, the other is the term in it.
#[tactic(auto, using(crate::proofs::PrintedExampleProofs::term_is_printed))]
pub fn term_is_printed()
    ensures { TermIsPrinted }
{}

/// Where both are, the argument is a link.
#[tactic(auto, using(crate::proofs::PrintedExampleProofs::link_is_printed))]
pub fn link_is_printed()
    ensures { LinkIsPrinted }
{}

/// Then it is no term.
#[tactic(auto, using(crate::proofs::PrintedExampleProofs::no_term_is_printed))]
pub fn no_term_is_printed()
    ensures { NoTermIsPrinted }
{}
