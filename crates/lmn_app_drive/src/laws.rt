//! Laws of runs and of their texts, and examples: each the contract of an empty function.
ghost use Rattle.lmn_app_drive.specs.Examples.{AwakeMayBeAsked, FoldedRunIsWritten, FullRunIsWritten, InputsHaveSizes, SleepersAreNotAsked};
ghost use Rattle.lmn_app_drive.specs.Laws.{AnswersAreExact, TextsAreOne};

/// Where the trace ends, the answer names this end, and where it goes on the answer is `NoMemory`, unless it is `Failed`.
#[tactic(auto, using(crate::proofs::Answering::answers_are_exact))]
pub fn answers_are_exact()
    ensures { AnswersAreExact }
{}

/// What is given to a run, and how many commits it did, say what is written of it with a word.
pub fn texts_are_one()
    ensures { TextsAreOne }
{}

/// The text of `a. a :- a, a.` with the size 3, with a trace and without one.
#[tactic(auto, using(crate::proofs::ExampleTexts::full_run_is_written))]
pub fn full_run_is_written()
    ensures { FullRunIsWritten }
{}

/// The text of `a(X), b(X)`, in the folded form and in the plain one.
#[tactic(auto, using(crate::proofs::ExampleTexts::folded_run_is_written))]
pub fn folded_run_is_written()
    ensures { FoldedRunIsWritten }
{}

/// Without a commit as many rules may be asked as stand in the membranes that are awake.
#[tactic(auto, using(crate::proofs::ExampleRuns::awake_may_be_asked))]
pub fn awake_may_be_asked()
    ensures { AwakeMayBeAsked }
{}

/// Where all membranes sleep no rule is asked without a commit.
pub fn sleepers_are_not_asked()
    ensures { SleepersAreNotAsked }
{}

/// What is said of each input of a run by an engine with a size.
pub fn inputs_have_sizes()
    ensures { InputsHaveSizes }
{}
