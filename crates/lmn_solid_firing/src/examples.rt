//! A match of a small head, and what is none: each the contract of an empty function.
ghost use Rattle.lmn_solid_firing.specs.Examples.{AcrossIsMatched, ImagesAloneAreNone, MoreAtomsAreNone, NoneIsTooFew, OneAtomIsAPart, OneWireIsAdded, OtherLinkIsNone, OtherNameHasNone, TwoPlacesAddNone};

/// A part of one atom; none has another link, nor more atoms.
pub fn one_atom_is_a_part()
    ensures part { OneAtomIsAPart }
    ensures link { OtherLinkIsNone }
    ensures atoms { MoreAtomsAreNone }
    ensures name { OtherNameHasNone }
{}

/// A match of an atom with a part; none leaves the part out.
pub fn across_is_matched()
    ensures matched { AcrossIsMatched }
    ensures part { ImagesAloneAreNone }
{}

/// A link that stands once in a head has a connector, and one that stands twice has none.
pub fn one_wire_is_added()
    ensures once { OneWireIsAdded }
    ensures twice { TwoPlacesAddNone }
    ensures few { NoneIsTooFew }
{}
