//! A small heap with rests.
ghost use Rattle.lmn_ground.specs.RestExamples.{RestsStand};

/// What stands in the membranes of a small heap, and which links leave them.
pub fn rests_stand()
    ensures { RestsStand }
{}
