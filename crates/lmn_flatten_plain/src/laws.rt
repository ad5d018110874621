//! Laws of plains and of printed lines.

ghost use Rattle.lmn_flatten_plain.specs.Examples.{AGuard, AKeptHead, ALine, AList, AMembrane, LinkNames};
ghost use Rattle.lmn_flatten_plain.specs.Laws.{FewAtTop, LabelsReadBack, LinesAreRead, OnePlain, PlainsAreWellMade, RulesByRisingPlace, SomePlain};
ghost use Rattle.lmn_flatten_plain.specs.SolidLines.{SolidLinesAreRead};
ghost use Rattle.lmn_flatten_plain.specs.TextExamples.{ShortTextReads};
ghost use Rattle.lmn_flatten_plain.specs.Texts.{LinesReadBack, OneTextPlain, SolidLinesReadBack};

/// The text of a label is a word that means the label.
#[tactic(auto, using(crate::proofs::RightLines::labels_read_back))]
pub fn labels_read_back()
    ensures { LabelsReadBack }
{}

/// The plain of a tree is well made, where no context stands outside its rules.
pub fn plains_are_well_made()
    ensures { PlainsAreWellMade }
{}

/// A printed line reads as a tree, and each plain of that tree is what was printed.
pub fn lines_are_read()
    ensures level { LinesAreRead }
    ensures solid { SolidLinesAreRead }
{}

/// The top of the plain of a tree has no more atoms and membranes than the tree has tokens.
pub fn tops_are_small()
    ensures { FewAtTop }
{}

/// The rules of the plain of a text stand by rising place.
pub fn rules_stand_by_place()
    ensures { RulesByRisingPlace }
{}

/// A tree has one plain, but for the addresses of boxes in conditions.
pub fn trees_have_one_plain()
    ensures one { OnePlain }
    ensures some { SomePlain }
{}

/// Expansions of small trees, lines, and names of links.
pub fn small_examples()
    ensures list { AList }
    ensures membrane { AMembrane }
    ensures kept_head { AKeptHead }
    ensures guard { AGuard }
    ensures line { ALine }
    ensures links { LinkNames }
{}

/// A text has one plain at most, and a printed line has one, whose top is what was printed.
pub fn lines_read_back()
    ensures one { OneTextPlain }
    ensures back { LinesReadBack }
    ensures solid { SolidLinesReadBack }
{}

/// `a. a :- b.` reads as the atom `a` beside the rule.
pub fn short_text_reads()
    ensures { ShortTextReads }
{}
