//! Laws of heaps and their solids.
ghost use Rattle.lmn_print_plain.specs.HeapLaws.{HeapSolidsAreSolids, HeapsHaveSolids, OneSolid};

/// Each valid heap has a solid: its links can be numbered by first printed occurrence.
#[tactic(auto, using(crate::proofs::HeapSolids::heaps_have_solids))]
pub fn heaps_have_solids()
    ensures { HeapsHaveSolids }
{}

/// A valid heap has one solid only.
pub fn one_solid()
    ensures { OneSolid }
{}

/// In the solid of a valid heap each link stands in two places, each atom has as many links as its arity, and none is
/// a connector.
pub fn heap_solids_are_solids()
    ensures { HeapSolidsAreSolids }
{}
