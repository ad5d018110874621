//! Laws of what is printed.
ghost use Rattle.lmn_print_folding.specs.Laws.{ItemsAreWalked};

/// The walk over an item meets what makes the text of its words.
#[tactic(auto, using(crate::proofs::PrintedItems::items_are_walked))]
pub fn items_are_walked()
    ensures { ItemsAreWalked }
{}
