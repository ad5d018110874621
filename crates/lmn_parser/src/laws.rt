//! The laws of trees.

ghost use Rattle.lmn_parser.specs.Readings.{CutTextsEnd, OneReading};
ghost use Rattle.lmn_parser.specs.TreeExamples.{Contexts, KeptHead, NamedRule, NestedParts};
ghost use Rattle.lmn_parser.specs.TreeLaws.{DerivedIsTree, FittingIsWithin, OneProgram, TreesDerive, TreesFit};

/// Tokens that are a tree are a program of the grammar, and tokens that are a program are a tree.
pub fn trees_are_programs()
    ensures program { TreesDerive }
    ensures tree { DerivedIsTree }
{}

/// Tokens are one tree at most.
pub fn trees_are_one()
    ensures { OneProgram }
{}

/// Tokens that are a tree are within the limits exactly where no atom of it has more links than an arity holds, no
/// side more operators than it may have, and nowhere more brackets are open than may be.
pub fn trees_fit()
    ensures fit { TreesFit }
    ensures within { FittingIsWithin }
{}

/// The trees of small texts.
pub fn tree_examples()
    ensures kept_head { KeptHead }
    ensures named_rule { NamedRule }
    ensures nested_parts { NestedParts }
    ensures contexts { Contexts }
{}

/// A text reads as one tree at most.
pub fn texts_read_as_one_tree()
    ensures { OneReading }
{}

/// The tokens of a text end with `End`, so they can be parsed.
pub fn texts_end_with_end()
    ensures { CutTextsEnd }
{}
