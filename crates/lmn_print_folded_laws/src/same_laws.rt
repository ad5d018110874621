//! Laws of folded regions in texts.

ghost use Rattle.lmn_print_folded_laws.specs.Examples.{ItsLine, NotItsLine};
ghost use Rattle.lmn_print_folded_laws.specs.Lines.{FoldedLinesAreSame};
ghost use Rattle.lmn_print_folded_laws.specs.Named.{FoldedLinksAreNamed};
ghost use Rattle.lmn_print_folded_laws.specs.Numbered.{FoldedTextsAreSame};
ghost use Rattle.lmn_print_folded_laws.specs.ReadBack.{FoldedLinesReadBack, FoldedSolidLinesAreRead, OneFoldedLineOf};
ghost use Rattle.lmn_print_folded_laws.specs.Whole.{FoldedFormsAreWhole};

/// The folded form of a region, taken apart, is this region with its atoms in another order.
pub fn folded_forms_are_whole()
    ensures { FoldedFormsAreWhole }
{}

/// The links of a folded process taken apart are those of its region, renamed one to one.
pub fn folded_links_are_named()
    ensures { FoldedLinksAreNamed }
{}

/// What a text gives of a folded region, with a number for each link, is this region up to the order of atoms and the numbers of
/// links.
pub fn folded_texts_are_same()
    ensures { FoldedTextsAreSame }
{}

/// The folded line of a region reads as this region up to the order of atoms and the numbers of links.
pub fn folded_lines_are_same()
    ensures { FoldedLinesAreSame }
{}

/// The folded line of a solid reads as a tree, and each plain of this tree has this solid, up to the order of atoms and the numbers
/// of links.
pub fn folded_solid_lines_are_read()
    ensures { FoldedSolidLinesAreRead }
{}

/// The folded line of a region reads back as a plain, whose process is that of the region up to congruence.
pub fn folded_lines_read_back()
    ensures { FoldedLinesReadBack }
{}

/// A process has one folded line at most.
pub fn processes_have_one_folded_line()
    ensures { OneFoldedLineOf }
{}

/// A folded line of a small process, and one that it hasn't.
pub fn small_examples()
    ensures its_line { ItsLine }
    ensures not_its_line { NotItsLine }
{}
