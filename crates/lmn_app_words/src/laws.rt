//! The laws of what words ask for.

ghost use Rattle.lmn_app_words.specs.Laws.{FoldedRun, FormsAsk, OneRequest, RequestsInRanges};

/// Words of the form ask for exactly one thing, whose numbers lie in their ranges, and words that aren't of the form ask
/// for none.
pub fn asks_one()
    ensures some { FormsAsk }
    ensures one { OneRequest }
    ensures ranges { RequestsInRanges }
{}

/// What `run --folded FILE` asks for.
pub fn folded_run()
    ensures { FoldedRun }
{}
