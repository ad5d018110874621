//! Laws of folded lines.

ghost use Rattle.lmn_print_folded.specs.Examples.{Across, AnAnswer, BesideACircle, CellAsItem, InACircle, LastPorts, NoLists, NotTheFirst, OtherRest, OwnArgument, SharedRest, TwoLists};
ghost use Rattle.lmn_print_folded.specs.Laws.{SomeFoldedLine, OneFoldedLine};

/// Each region in which every link stands in two places has a folded line, and one only.
pub fn regions_have_one_folded_line()
    ensures some { SomeFoldedLine }
    ensures one { OneFoldedLine }
{}

/// Folded lines of small regions: which atoms are written as arguments of others.
pub fn small_terms()
    ensures in_a_circle { InACircle }
    ensures beside_a_circle { BesideACircle }
    ensures own_argument { OwnArgument }
    ensures last_ports { LastPorts }
    ensures not_the_first { NotTheFirst }
    ensures across { Across }
{}

/// The same of lists.
pub fn small_lists()
    ensures two_lists { TwoLists }
    ensures an_answer { AnAnswer }
    ensures shared_rest { SharedRest }
    ensures other_rest { OtherRest }
    ensures no_lists { NoLists }
    ensures cell_as_item { CellAsItem }
{}
