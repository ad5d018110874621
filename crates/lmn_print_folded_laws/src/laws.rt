//! Laws of reading folded lines.

ghost use Rattle.lmn_print_folded_laws.specs.Laws.{FoldedLinesAreRead};

/// The line of a folded process reads as a tree, which taken apart is this process.
pub fn folded_lines_are_read()
    ensures { FoldedLinesAreRead }
{}
