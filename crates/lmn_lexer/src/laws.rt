//! Laws of cutting a text into tokens.

ghost use Rattle.lmn_lexer.specs.Laws.{CutOrRefused, FewTokens, LaidTextsAreCut, OneCut, OneFirstFault, RefusedIsWrong, SpansInOrder, TokensAreSound};

/// A text is cut in at most one way.
pub fn texts_are_cut_once()
    ensures { OneCut }
{}

/// A text has at most one refusal. Where it has one, something is wrong in it.
pub fn refusals_are_one()
    ensures one { OneFirstFault }
    ensures wrong { RefusedIsWrong }
{}

/// The tokens of a text stand one behind the other, its end stands last, and where nothing is wrong the bytes
/// of each other token spell its kind.
pub fn tokens_are_in_order()
    ensures spans { SpansInOrder }
    ensures sound { TokensAreSound }
{}

/// There are no more tokens than bytes, but for the end.
pub fn tokens_are_few()
    ensures { FewTokens }
{}

/// A text that is laid out as words, with separators between them, is cut into these words.
pub fn laid_texts_are_cut()
    ensures { LaidTextsAreCut }
{}

/// A text is cut and nothing is wrong in it, or it has a refusal.
pub fn texts_are_cut_or_refused()
    ensures { CutOrRefused }
{}
