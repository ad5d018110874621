//! The laws of renamed levels.

ghost use Rattle.lmn_flatten_numbers.specs.RenumberedLaws.{RenamedTwice, RenamedLinks};

/// A level that is renamed twice is renamed by both at once, and a renamed level has its links renamed, each in its
/// place.
pub fn levels_are_renamed()
    ensures twice { RenamedTwice }
    ensures links { RenamedLinks }
{}
