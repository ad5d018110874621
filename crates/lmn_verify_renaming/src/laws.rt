//! The laws of renaming.

ghost use Rattle.lmn_verify_renaming.specs.Examples.{RenamingsCompare};
ghost use Rattle.lmn_verify_renaming.specs.Laws.{CallsAreRenamed, CallsKeepRoom, FixedIsSame, HeadsAreRenamed, HeadsReadNoRoom, OneSolidIsRenamed, RenamedTwice, SolidsAreRenamed};

/// What a call makes of a renamed heap is what it makes of the heap, renamed.
pub fn calls_are_renamed()
    ensures { CallsAreRenamed }
{}

/// A renamed heap has the solids of the heap.
pub fn solids_are_renamed()
    ensures { SolidsAreRenamed }
{}

/// The code of a head does on a renamed heap what it does on the heap.
pub fn heads_are_renamed()
    ensures { HeadsAreRenamed }
{}

/// Two heaps that have one solid are one with other numbers.
pub fn one_solid_is_renamed()
    ensures { OneSolidIsRenamed }
{}

/// Numbers may be changed one time after another, and a heap is as it was where what it has keeps its numbers.
pub fn renamings_compose()
    ensures twice { RenamedTwice }
    ensures fixed { FixedIsSame }
{}

/// Room for rules and marks of membranes are kept apart by each call, and no head reads them.
pub fn room_is_apart()
    ensures calls { CallsKeepRoom }
    ensures heads { HeadsReadNoRoom }
{}

/// Two heaps of one atom are one with 0 and 1 exchanged but for room, and not with the numbers as they are, and what takes each number to 0 is no numbering.
pub fn renamings_compare()
    ensures { RenamingsCompare }
{}
