ghost use Rattle.std.specs.Prelude.{◌≡◌, ◌<◌, ◌≤◌, ◌++◌, ◌-◌, ◌^◌, ℕ, List, OnOk, OnErr};
ghost use Rattle.lmn_io.specs.Counts.{FailedLast, NoneFailed};
ghost use Rattle.lmn_io.specs.Writing.{Writes};
ghost use Rattle.lmn_app_runs.specs.Runs.{word_of_stop};
ghost use Rattle.lmn_schedule_strategy.specs.Counting.{CountsAsked};
ghost use Rattle.lmn_verify_coded.specs.Turning.{CodedCanTurn};
ghost use Rattle.lmn_verify_coded.specs.Counting.{CountsRun};
ghost use Rattle.lmn_verify_coded.specs.Runs.{Executed, StoppedRun};
ghost use Rattle.lmn_verify_coded.specs.Steps.{EndIsWritten, CountsStep, IsLastText, MakesStep};

use crate::running::Coded;
use lmn_app_drive::{RunEnd, write_end};
use lmn_app_runs::Stop;
use lmn_base::{Names, Plain};
use lmn_io::{Failed, Sink};
use lmn_machine::Steps;
use lmn_print::{heaps_have_one_line, print};
use lmn_schedule_strategy::Turn;
use lmn_store_trait::LinkStore;
use std::alloc::Global;
use std::sync::ledger::Ledger;

/// Makes turns of codes that have made no commit, at most as many as the budget, until nothing more is to be done. Then it writes the
/// plain line of the process, and the end line: why it stopped, and after how many commits. `plain` has the rules by which those in
/// the process are written.
///
/// With every answer but `Failed` all of this was written, and with `Failed` a prefix of it, and nothing more was put. The steps rise
/// by the rules of the membranes asked at most.
pub fn execute<S: LinkStore, O: Sink, L: Ledger>(
    alloc: Global,
    coded: &mut Coded<S>,
    plain: &Plain,
    names: &Names,
    budget: u64,
    out: &mut O,
    steps: &mut Steps<L>,
) -> RunEnd
    requires run { CodedCanTurn (S.heap coded.old.machine.store) coded.old.codes coded.old.size }
    requires commits { coded.old.commits ≡ 0 }
    requires budget { budget ≤ 2 ^ 63 - 1 }
    ensures executed { Executed (record { names = names.now; table = plain.now.rules; codes = coded.old.codes; budget = budget; size = coded.old.size; first = S.heap coded.old.machine.store })
        coded.new.commits (S.heap coded.new.machine.store) result (O.told out.old) (O.told out.new) }
    ensures again { CodedCanTurn (S.heap coded.new.machine.store) coded.old.codes coded.old.size }
    ensures keeps { coded.new ≡ record coded.old { machine = coded.new.machine; commits = coded.new.commits } }
    ensures faults { (¬ (result ≡ RunEnd.Failed) → NoneFailed (O.faults out.old) (O.faults out.new))
        × (result ≡ RunEnd.Failed → FailedLast (O.faults out.old) (O.faults out.new)) }
    ensures steps { CountsRun coded.old.codes coded.old.size (S.heap coded.old.machine.store) coded.new.commits steps.old steps.new }
{
    let why = run(alloc, coded, budget, steps);
    conclude(coded, plain, names, why, out)
}

/// Makes turns until the run stops.
fn run<S: LinkStore, L: Ledger>(
    alloc: Global,
    coded: &mut Coded<S>,
    budget: u64,
    steps: &mut Steps<L>,
) -> Stop
    requires run { CodedCanTurn (S.heap coded.old.machine.store) coded.old.codes coded.old.size }
    requires commits { coded.old.commits ≡ 0 }
    requires budget { budget ≤ 2 ^ 63 - 1 }
    ensures stopped { StoppedRun coded.old.codes budget coded.old.size (S.heap coded.old.machine.store) coded.new.commits result (S.heap coded.new.machine.store) }
    ensures again { CodedCanTurn (S.heap coded.new.machine.store) coded.old.codes coded.old.size }
    ensures keeps { coded.new ≡ record coded.old { machine = coded.new.machine; commits = coded.new.commits } }
    ensures steps { CountsRun coded.old.codes coded.old.size (S.heap coded.old.machine.store) coded.new.commits steps.old steps.new }
{
    for _ in 0..budget {
        if let Some(why) = step(alloc, coded, steps) {
            return why;
        }
    }
    if coded.reducible(steps) {
        Stop::Budget
    } else {
        Stop::Irreducible
    }
}

/// One turn: whether the run stops by it.
fn step<S: LinkStore, L: Ledger>(
    alloc: Global,
    coded: &mut Coded<S>,
    steps: &mut Steps<L>,
) -> Option<Stop>
    requires run { CodedCanTurn (S.heap coded.old.machine.store) coded.old.codes coded.old.size }
    requires commits { coded.old.commits < 2 ^ 63 }
    ensures goes { MakesStep coded.old.codes coded.old.size (S.heap coded.old.machine.store) result (S.heap coded.new.machine.store) }
    ensures steps { CountsAsked (S.heap coded.old.machine.store) coded.old.codes 0 steps.old steps.new }
    ensures counts { CountsStep result coded.old.commits coded.new.commits }
    ensures again { CodedCanTurn (S.heap coded.new.machine.store) coded.old.codes coded.old.size }
    ensures keeps { coded.new ≡ record coded.old { machine = coded.new.machine; commits = coded.new.commits } }
{
    match coded.turn(alloc, steps) {
        Turn::Committed => None,
        Turn::Irreducible => Some(Stop::Irreducible),
        Turn::Full => Some(Stop::Full),
        Turn::NoMemory => Some(Stop::NoMemory),
    }
}

/// Writes the line of the process and the end line.
fn conclude<S: LinkStore, O: Sink>(
    coded: &mut Coded<S>,
    plain: &Plain,
    names: &Names,
    why: Stop,
    out: &mut O,
) -> RunEnd
    requires run { CodedCanTurn (S.heap coded.old.machine.store) coded.old.codes coded.old.size }
    ensures wrote { EndIsWritten names.now plain.now.rules (S.heap coded.old.machine.store) why coded.old.commits result (O.told out.old) (O.told out.new) }
    ensures kept { S.heap coded.new.machine.store ≡ S.heap coded.old.machine.store }
    ensures keeps { coded.new ≡ record coded.old { machine = coded.new.machine } }
    ensures same { ¬ (result ≡ RunEnd.Failed) → NoneFailed (O.faults out.old) (O.faults out.new) }
    ensures rose { result ≡ RunEnd.Failed → FailedLast (O.faults out.old) (O.faults out.new) }
{
    heaps_have_one_line();
    match write_last(coded, plain, names, why, out) {
        Ok(()) => RunEnd::from(why),
        Err(Failed) => RunEnd::Failed,
    }
}

/// Writes the line of the process and the end line.
fn write_last<S: LinkStore, O: Sink>(
    coded: &mut Coded<S>,
    plain: &Plain,
    names: &Names,
    why: Stop,
    out: &mut O,
) -> Result<(), Failed>
    requires run { CodedCanTurn (S.heap coded.old.machine.store) coded.old.codes coded.old.size }
    ensures writes { Writes (IsLastText names.now plain.now.rules (S.heap coded.old.machine.store) (word_of_stop why) coded.old.commits) result (O.told out.old) (O.faults out.old) (O.told out.new) (O.faults out.new) }
    ensures kept { S.heap coded.new.machine.store ≡ S.heap coded.old.machine.store }
    ensures keeps { coded.new ≡ record coded.old { machine = coded.new.machine } }
{
    print(coded.store(), plain, names, false, out)?;
    write_end(why, coded.commits(), out)
}
