ghost use Rattle.lmn_solid_tables.specs.Examples.{AcrossHasItsTables, BothOutsideIsNotAcross, InnerIsLeft, InnerIsWithin, OnePortTwiceIsNoLink};

/// The tables of a solid with an atom outside and one in a membrane.
pub fn across_has_its_tables()
    ensures { AcrossHasItsTables }
{}

/// Tables in which a link has one port twice are none of a solid.
pub fn one_port_twice_is_no_link()
    ensures { OnePortTwiceIsNoLink }
{}

/// Tables in which both atoms stand outside are those of another solid.
pub fn both_outside_is_not_across()
    ensures { BothOutsideIsNotAcross }
{}

/// A membrane stands in the root, and not the other way round.
#[tactic(auto, using(crate::proofs::ExampleTables::inner_is_within))]
pub fn inner_is_within()
    ensures { InnerIsWithin }
{}

/// A membrane is left where it is no image.
pub fn inner_is_left()
    ensures { InnerIsLeft }
{}
