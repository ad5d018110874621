//! The laws of chains.

ghost use Rattle.lmn_receipt_chain.specs.Examples.{ChosenIsAsked, CutShort, Empty, FirstOfTwo, MembraneIsChosen, MoreBehind, NoEnd, NoFiring, NoGreaterReach, NoneIsMade, NotTheSecond, NothingContinues, NothingFires, NothingIsLeftOut, NothingIsNext, OneFeed, TwoFeeds, TwoSolids, WrongWord};
ghost use Rattle.lmn_receipt_chain.specs.OneFeed.{PrintableHaveOneFeed};
ghost use Rattle.lmn_receipt_chain.specs.Laws.{ChainsAreCommits, ContinuesByCommit, NoTraceIsNeither, TracesAreChains, TracesAreOneOf};

/// What is written of a trace that stops is a chain.
pub fn traces_are_chains()
    ensures { TracesAreChains }
{}

/// A chain is one of commits of the calculus, and its word is true.
pub fn chains_are_commits()
    ensures each { ContinuesByCommit }
    ensures all { ChainsAreCommits }
{}

/// What is a chain of `a.`, and what isn't.
pub fn small_chains()
    ensures chain { NothingFires }
    ensures word { WrongWord }
    ensures end { NoEnd }
    ensures more { MoreBehind }
    ensures firing { NoFiring }
    ensures empty { Empty }
{}

/// What is a chain of `a. a :- b.`, and what isn't.
pub fn chains_of_two()
    ensures two { TwoSolids }
    ensures short { CutShort }
{}

/// What continues `{a. a :- b.}`, where the membrane is chosen, and what nothing continues.
pub fn membranes_are_chosen()
    ensures chosen { MembraneIsChosen }
    ensures nothing { NothingContinues }
{}

/// What is found of a next solid of `a.`, beside any text, and what isn't.
pub fn found_beside_a_text()
    ensures nothing { NothingIsNext }
    ensures reach { NoGreaterReach }
    ensures made { NoneIsMade }
{}

/// What the first line of a text is, and which membranes are left out beside a text.
pub fn left_out_beside_a_text()
    ensures first { FirstOfTwo }
    ensures second { NotTheSecond }
    ensures nothing { NothingIsLeftOut }
    ensures chosen { ChosenIsAsked }
{}

/// A trace beside the solid of a plain isn't a chain and wrong, and is one of so many commits or at one line alone.
pub fn traces_are_one_of()
    ensures { TracesAreOneOf }
{}

/// No trace is neither a chain from a solid on nor wrong beside it.
pub fn no_trace_is_neither()
    ensures { NoTraceIsNeither }
{}

/// From the solid of a plain on of which runs can be printed, the line of each solid of a chain has one line feed, its last byte.
pub fn lines_have_one_feed()
    ensures { PrintableHaveOneFeed }
{}

/// Where the line of each solid of a chain has one line feed, and where it hasn't.
pub fn feeds_in_lines()
    ensures one { OneFeed }
    ensures two { TwoFeeds }
{}
