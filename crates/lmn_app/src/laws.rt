//! The laws of texts: a text is accepted or refused, refused in one way. What is said of texts, shown of a small one. What
//! `demo` does. That weights bound a program, or are refused, in one way, and that a trace is one of a program, or wrong.

ghost use Rattle.lmn_app.specs.BoundExamples.{SmallTextIsBounded, SmallTextIsNotByTwo, SmallTextIsNotLowered};
ghost use Rattle.lmn_app.specs.BoundLaws.{BoundNotRefused, BoundOrRefused, BoundWhereLowered, OneBound, OneWrongWeights};
ghost use Rattle.lmn_app.specs.CallExamples.{ByteIsToldWritten, FileIsFetchedOnce, NoWordsAreAnswered, OrdersCountSo, QuoteIsRefused, QuoteIsToldRefused, TraceIsFetchedBehind};
ghost use Rattle.lmn_app.specs.CheckExamples.{NothingIsWrong, SmallTextIsChecked, SmallTextIsNotTwice};
ghost use Rattle.lmn_app.specs.CheckLaws.{CheckedNotWrong, NeitherCheckedNorWrong, OneCount, OneWrongTrace, RunsAreChecked};
ghost use Rattle.lmn_app.specs.DebugExamples.{SmallTextIsDebugged, SmallTextIsNotDebuggedSo};
ghost use Rattle.lmn_app.specs.DebugLaws.{OneSessionText, OneWrongScript, SessionNotRefused, SessionOrRefused, ShownReadsBack};
ghost use Rattle.lmn_app.specs.ExecExamples.{SmallListingIsRead, SmallListingIsWrong, SmallTextIsExecuted, SmallTextIsNotExecutedSo};
ghost use Rattle.lmn_app.specs.ExecLaws.{CompiledIsNotWrong, CompiledRunsAsRun, OneOutput, OneWrongListing, ReadNotRefused, NeitherReadNorRefused};
ghost use Rattle.lmn_app_single.specs.Demos.{SomeDemo};
ghost use Rattle.lmn_app.specs.DemoLaws.{DemoIsFoldedRun};
ghost use Rattle.lmn_app.specs.LinkExamples.{LinkLeadsThrough};
ghost use Rattle.lmn_app.specs.ListingExamples.{SmallTextIsListed};
ghost use Rattle.lmn_app.specs.ListingLaws.{OneListing};
ghost use Rattle.lmn_app.specs.NameExamples.{SomeNames};
ghost use Rattle.lmn_app.specs.Runnings.{HeapsAreExecuted};
ghost use Rattle.lmn_app.specs.Promises.{AnswersKeepPromises};
ghost use Rattle.lmn_app.specs.RunLaws.{EarlierRunFirst, OneRun, OneRunSoFar};
ghost use Rattle.lmn_app.specs.SingleLaws.{ListingIsUnread, NoWordsAreSingle, PairsAreHandedOn, SinglesAreAnswers};
ghost use Rattle.lmn_app.specs.SizeLaws.{AcceptedIsSmall, NoneIsLarge};
ghost use Rattle.lmn_app.specs.TextExamples.{SmallTextHasItsTrace, SmallTextIsAccepted, SmallTextRuns, SmallTextRunsFolded};
ghost use Rattle.lmn_app_single.specs.Texts.{AcceptedOrRefused, OneRefusal, RefusedNotAccepted};

use lmn_adequacy_heaps::solids_are_regions;
use lmn_adequacy_turns::plains_are_tables;
use lmn_app_accepted::{accepted_texts, accepted_texts_can_be_loaded};
use lmn_app_runs::{plains_are_printable, short_run_prints, traces_are_runs};
use lmn_app_words::asks_one;
use lmn_debug::writing_is_one;
use lmn_debug_script::{orders_are_once, scripts_are_decided};
use lmn_receipt_chain::{
    chains_are_commits, no_trace_is_neither, traces_are_chains, traces_are_one_of,
};
use lmn_schedule_loading::loading_settles;
use lmn_verify_coded::{heaps_run_as_solids, solid_runs_are_one, tables_run_as_rules};
use lmn_verify_compiled::{
    accepted_can_be_listed, accepted_names_are_few, compiled_are_listed, listed_codes_are_one,
};
use lmn_verify_listing::laws::{listed_lines_stand, no_listing_is_neither, wrong_line_is_one};
use lmn_verify_solids::{graphs_have_heaps, heads_are_alike, heaps_are_graphs};
use lmn_weight::{
    plains_weigh_alike, weights_are_read_once, weights_are_told_or_wrong, weights_bound_commits,
};

/// A text that is refused isn't accepted, and it has one refusal at most.
pub fn refusals_are_one()
    ensures accepted { RefusedNotAccepted }
    ensures one { OneRefusal }
{}

/// A text is accepted, or it is refused.
pub fn texts_are_accepted_or_refused()
    ensures { AcceptedOrRefused }
{}

/// No text is too large for `debug` and `exec`.
pub fn none_is_large()
    ensures accepted { AcceptedIsSmall }
    ensures refused { NoneIsLarge }
{}

/// The list of names of a small text.
pub fn small_list_of_names()
    ensures { SomeNames }
{}

/// `a. a :- b.` is accepted, with the plain that its tokens are.
pub fn small_text_is_accepted()
    ensures { SmallTextIsAccepted }
{}

/// It has a run of two lines that stops as irreducible, of which the last is printed without a trace; and with a trace none of one
/// line that stops so.
pub fn small_text_runs()
    ensures { SmallTextRuns }
{
    short_run_prints();
}

/// The lines of its run with `--folded`.
pub fn small_text_runs_folded()
    ensures { SmallTextRunsFolded }
{
    accepted_texts();
    plains_are_printable();
    traces_are_runs();
}

/// These are the lines of its trace too, whichever membrane is asked first, and no line alone is.
pub fn small_text_has_its_trace()
    ensures { SmallTextHasItsTrace }
{}

/// Two runs of one text with the same options have one end and one output, where both came to their end. After as many commits they
/// have the same lines, however they stop, and with a trace those of fewer commits come first.
pub fn runs_of_a_text_are_one()
    ensures one { OneRun }
    ensures so_far { OneRunSoFar }
    ensures first { EarlierRunFirst }
{
    accepted_texts();
    plains_are_printable();
}

/// A text has one listing at most.
pub fn listings_are_one()
    ensures { OneListing }
{}

/// What `demo` does with its text is what `run --folded` does with a file, and its text for 2.
pub fn demo_is_a_folded_run()
    ensures run { DemoIsFoldedRun }
    ensures text { SomeDemo }
{}

/// Weights bound an accepted program by one number, or they have one refusal beside it, and not both. They bound it exactly where
/// every rule of it is lowered.
pub fn weights_bound_or_are_refused()
    ensures one { OneBound }
    ensures apart { BoundNotRefused }
    ensures refusal { OneWrongWeights }
    ensures either { BoundOrRefused }
    ensures lowered { BoundWhereLowered }
{
    accepted_texts();
    weights_bound_commits();
    weights_are_read_once();
    weights_are_told_or_wrong();
    plains_weigh_alike();
}

/// A trace is one of a program of one number of commits at most, or wrong beside it at one line at most, and not both; beside an accepted
/// program none is neither. What a run writes of its trace is one of the program.
pub fn traces_are_checked()
    ensures one { OneCount }
    ensures apart { CheckedNotWrong }
    ensures neither { NeitherCheckedNorWrong }
    ensures refusal { OneWrongTrace }
    ensures runs { RunsAreChecked }
{
    accepted_texts();
    plains_are_printable();
    chains_are_commits();
    traces_are_chains();
    traces_are_one_of();
    no_trace_is_neither();
}

/// The lines of `a. a :- b.` and of what comes of it are a trace of it, of one commit and no more; nothing at all is none.
pub fn small_text_is_checked()
    ensures checked { SmallTextIsChecked }
    ensures only { SmallTextIsNotTwice }
    ensures wrong { NothingIsWrong }
{
    accepted_texts();
    plains_are_printable();
    chains_are_commits();
    traces_are_chains();
    traces_are_one_of();
}

/// `a. a :- b.` is bounded by 1, and not by 2, where an `a` alone weighs. Where a `b` alone does, its rule isn't lowered.
pub fn small_text_is_bounded()
    ensures bounded { SmallTextIsBounded }
    ensures only { SmallTextIsNotByTwo }
    ensures not_lowered { SmallTextIsNotLowered }
{
    accepted_texts();
    weights_bound_commits();
    weights_bound_or_are_refused();
}

/// A script orders a session over an accepted program of few enough items, or it is refused by one code at one place, and not both.
pub fn scripts_are_obeyed_or_refused()
    ensures either { SessionOrRefused }
    ensures apart { SessionNotRefused }
    ensures refusal { OneWrongScript }
{
    accepted_texts();
    scripts_are_decided();
}

/// Two sessions of one script over one program whose orders are all carried out write one text, and what `show` writes reads back.
pub fn sessions_are_one()
    ensures one { OneSessionText }
    ensures shown { ShownReadsBack }
{
    accepted_texts();
    plains_are_printable();
    traces_are_runs();
    writing_is_one();
}

/// A session over `a. a :- b.`: two firings are asked for and one is there, and one firing back its first process stands there. A step that is
/// taken doesn't leave the number as it was.
pub fn small_text_is_debugged()
    ensures debugged { SmallTextIsDebugged }
    ensures not_so { SmallTextIsNotDebuggedSo }
{
    orders_are_once();
}

/// What is written of a run by the listing of a program is what `run` writes of the program with no option.
/// That listing isn't refused.
pub fn compiled_runs_as_run()
    ensures run { CompiledRunsAsRun }
    ensures refused { CompiledIsNotWrong }
{
    compiled_are_listed();
    accepted_can_be_listed();
}

/// What is run of the codes of a listing, over a heap that holds the process of a program, is an execution.
pub(crate) fn heaps_are_executed()
    ensures { HeapsAreExecuted }
{
    accepted_texts();
    plains_are_printable();
    traces_are_runs();
    accepted_texts_can_be_loaded();
    loading_settles();
    plains_are_tables();
    solids_are_regions();
    tables_run_as_rules();
    heaps_run_as_solids();
    compiled_are_listed();
    accepted_can_be_listed();
}

/// Two executions of one listing beside one program that came to their ends have one count of commits, one end and one text.
pub fn executions_are_one()
    ensures { OneOutput }
{
    accepted_can_be_listed();
    listed_codes_are_one();
    solid_runs_are_one();
}

/// No listing that isn't too long is neither read beside an accepted program nor refused; none is both; and it is refused by one code
/// at one place at most.
pub fn refused_listings_are_one()
    ensures neither { NeitherReadNorRefused }
    ensures apart { ReadNotRefused }
    ensures refusal { OneWrongListing }
{
    accepted_can_be_listed();
    listed_codes_are_one();
    listed_lines_stand();
    wrong_line_is_one();
    no_listing_is_neither();
    accepted_names_are_few();
    accepted_texts_can_be_loaded();
}

/// Beside `a. a :- b.` a listing is read whose code takes an `a` away, and is run to its end after one commit. A listing whose code
/// leaves the `a` in its place is wrong, and so is nothing at all.
pub fn small_text_is_executed()
    ensures read { SmallListingIsRead }
    ensures wrong { SmallListingIsWrong }
    ensures executed { SmallTextIsExecuted }
    ensures not_so { SmallTextIsNotExecutedSo }
{
    listed_codes_are_one();
    listed_lines_stand();
    heaps_run_as_solids();
    graphs_have_heaps();
    heaps_are_graphs();
    heads_are_alike();
}

/// A quote alone is refused at its beginning, where it is told and where nothing is.
pub fn quote_is_refused()
    ensures refused { QuoteIsRefused }
    ensures told { QuoteIsToldRefused }
{}

/// A link leads through a membrane in the line of a process.
pub fn link_leads_through()
    ensures { LinkLeadsThrough }
{}

/// This is the listing of a small text.
pub fn small_text_is_listed()
    ensures { SmallTextIsListed }
{}

/// How no words are answered, how often a file is asked for and a trace behind it, what a sink tells of a write, and what it counts of orders.
pub fn small_calls()
    ensures answered { NoWordsAreAnswered }
    ensures fetched { FileIsFetchedOnce }
    ensures behind { TraceIsFetchedBehind }
    ensures written { ByteIsToldWritten }
    ensures counted { OrdersCountSo }
{}

/// What `lmn_main` answers keeps each promise of its status. What the program of requests with one text answers is what `lmn_main` may
/// answer, but for 12, with which it hands words on.
pub fn answers_keep_promises()
    ensures promises { AnswersKeepPromises }
    ensures answers { SinglesAreAnswers }
    ensures no_words { NoWordsAreSingle }
    ensures handed_on { PairsAreHandedOn }
    ensures unread { ListingIsUnread }
{
    asks_one();
}
