//! What a run is, by what it prints, why it stops, and that each trace is a run.
//!
//! The definitions stand in `specs/`. Each law is the contract of a function with an empty body.
#![tactic(auto)]

mod stop;

ghost use Rattle.lmn_app_runs.specs.Examples.{ShortRunPrints};
ghost use Rattle.lmn_app_runs.specs.Laws.{SomeStop, StopIsOne, TracesAreRuns, TracesHaveLines};
ghost use Rattle.lmn_app_runs.specs.Texts.{PlainsArePrintable};

pub use stop::Stop;

/// The lines of a trace of the solid of a plain are those of a run: each reads back as its process, each next process comes by
/// one commit, and the run stops at an irreducible process exactly where its word says so.
pub fn traces_are_runs()
    ensures { TracesAreRuns }
{}

/// Each trace has lines, and one line for each solid.
pub fn traces_have_lines()
    ensures { TracesHaveLines }
{}

/// A run has one way to stop at a solid, and not two or none.
pub fn stops_are_one()
    ensures one { StopIsOne }
    ensures some { SomeStop }
{}

/// Runs of the plain that is read of a text can be printed: a text can spell its top and its rules, since its tokens did.
pub fn plains_are_printable()
    ensures { PlainsArePrintable }
{}

/// The two lines that are printed of `a. a :- b.`, neither of which is all that is printed.
pub fn short_run_prints()
    ensures { ShortRunPrints }
{}
