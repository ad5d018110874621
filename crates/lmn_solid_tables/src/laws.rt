ghost use Rattle.lmn_solid_tables.specs.Flats.{FlatsAreRead, FlatsHaveTheirSolids};

/// The heap that the tables of a solid stand for has the solid.
pub fn flats_have_their_solids()
    ensures { FlatsHaveTheirSolids }
{}

/// The heap that the tables of a solid stand for is read by each list of names that has those of the solid.
pub fn flats_are_read()
    ensures { FlatsAreRead }
{}
