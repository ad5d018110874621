//! Laws of own marks.
ghost use Rattle.lmn_print_folding.specs.Children.{MarkedAreTold};

/// Marks that tell in each membrane which of its atoms are items tell how it is printed: what is printed of its items is the
/// folded form of its atoms.
#[tactic(auto, using(crate::proofs::Told::marked_are_told))]
pub fn marked_are_told()
    ensures { MarkedAreTold }
{}
