ghost use Rattle.std.specs.Prelude.{◌≡◌, ◌<◌, ◌≤◌, ◌+◌, ◌-◌, ◌^◌, ◌↔◌, length, List, IsTrue, MatchResult, OnErr, OnOk};
ghost use Rattle.lmn_adequacy.specs.Runs.{Chooser as Choosing};
ghost use Rattle.lmn_congruence.specs.Rules.{Name};
ghost use Rattle.lmn_order.specs.Answers.{AnswersBelow};
ghost use Rattle.lmn_schedule.specs.Held.{AreNames, CanBeLoaded, EngineCanTurn, HoldsSolid};
ghost use Rattle.lmn_schedule.specs.Turning.{Gives};
ghost use Rattle.lmn_debug_script.specs.Asked.{AreAskedWith, IsAskedWith};
ghost use Rattle.lmn_store_web.specs.WebHeaps.{heap_of};
ghost use Rattle.lmn_debug.specs.Beginnings.{CanGoOn, IsEngineOf};
ghost use Rattle.lmn_debug.specs.Breaks.{StandsSo};
ghost use Rattle.lmn_debug.specs.Courses.{course};
ghost use Rattle.lmn_debug.specs.Sessions.{StandsAt};
ghost use Rattle.lmn_debug.specs.Debugged.{CountsObeyed, Debugged, FailedSo};
ghost use Rattle.lmn_debug.specs.Obeying.{CarriesOut, ObeyedSo, OfEachCourse, most_asked};

use crate::beginning::Beginning;
use crate::lines::tell;
use crate::{Break, Session, Stop};
use lmn_base::{Cmp, Functor, Names, NoMemory, Plain};
use lmn_debug_counting::CountingStore;
use lmn_debug_script::Order;
use lmn_guards::GuardPlan;
use lmn_io::{Failed, Sink};
use lmn_machine::Steps;
use lmn_schedule::Engine;
use lmn_store_web::WebStore;
use std::alloc::Global;
use std::sync::ledger::Ledger;

/// Why orders weren't all carried out and written.
#[derive(Clone, Copy)]
pub enum DebugFault {
    /// Memory was wanting for one. The lines of those before it were written.
    NoMemory,
    /// The sink failed. It took a prefix of the lines.
    Failed,
}

/// Carries out orders over an engine that has made no commit, and writes the line of each. `plain` is that of the engine, `plans` has
/// the plans of its rules, `choose` is its chooser's closure, and `size` its size: an order to go back begins anew with another engine
/// of these. `names` has those of the plain and those of the orders, so it may be the list that reading the script leaves.
///
/// # Errors
///
/// `NoMemory` at want of memory, and `Failed` where the sink failed.
pub fn debug<'p, F: Fn(u64, u64) -> u64 + Copy + Drop, O: Sink, L: Ledger>(
    alloc: Global,
    engine: Engine<'p, CountingStore<WebStore>, F>,
    plain: &'p Plain,
    plans: &'p [GuardPlan],
    choose: F,
    size: u64,
    names: &Names,
    orders: &[Order],
    out: &mut O,
    steps: &mut Steps<L>,
) -> Result<(), DebugFault>
    requires plain { CanBeLoaded plain.now plans.now }
    requires same { (engine.plain.now ≡ plain.now) × (engine.chooser.f ≡ choose) × (engine.size ≡ size) }
    requires run { EngineCanTurn (heap_of engine.machine.store) plain.now.rules engine.codes size × (engine.commits ≡ 0) }
    requires chooser { AnswersBelow F.pre F.post choose }
    requires orders { AreAskedWith names.now orders.now }
    requires few { length orders.now < 2 ^ 32 }
    ensures debugged { (c : Choosing) → Gives F.post choose c → AreNames names.now plain.now → (held : HoldsSolid names.now plain.now (heap_of engine.entry.machine.store)) →
        Debugged names.now (course c size held.solid) orders.now result (O.told out.old) (O.told out.new) }
    ensures counts { CountsObeyed result (O.faults out.old) (O.faults out.new) }
{
    let beginning = Beginning {
        plain,
        plans,
        choose,
        size,
    };
    let mut session = Session::start(engine);
    carry_out(alloc, &mut session, &beginning, names, orders, out, steps)
}

/// Carries out orders, the first of them where the session has made no commit.
fn carry_out<'p, F: Fn(u64, u64) -> u64 + Copy + Drop, O: Sink, L: Ledger>(
    alloc: Global,
    session: &mut Session<'p, WebStore, F>,
    beginning: &Beginning<'p, F>,
    names: &Names,
    orders: &[Order],
    out: &mut O,
    steps: &mut Steps<L>,
) -> Result<(), DebugFault>
    requires plain { CanBeLoaded beginning.now.plain.now beginning.now.plans.now }
    requires chooser { AnswersBelow F.pre F.post beginning.now.choose }
    requires same { IsEngineOf beginning.now session.old.engine }
    requires run { CanGoOn beginning.now session.old.engine }
    requires commits { session.old.engine.commits ≡ 0 }
    requires orders { AreAskedWith names.now orders.now }
    requires few { length orders.now < 2 ^ 32 }
    ensures obeyed { OfEachCourse F.post beginning.now.choose names.now beginning.now.plain.now beginning.now.size (λ g. StandsAt names.now beginning.now.plain.now.rules g 0 (heap_of session.old.engine.machine.store) →
        MatchResult result
        (λ done. ObeyedSo names.now beginning.now.plain.now.rules g orders.now session.new.engine.commits (heap_of session.new.engine.machine.store) (O.told out.old) (O.told out.new))
        (λ fault. FailedSo names.now g orders.now fault (O.told out.old) (O.told out.new))) }
    ensures counts { CountsObeyed result (O.faults out.old) (O.faults out.new) }
{
    for order in orders {
        obey(alloc, session, beginning, names, *order, out, steps)?;
    }
    Ok(())
}

/// Carries out an order, and writes its line.
fn obey<'p, F: Fn(u64, u64) -> u64 + Copy + Drop, O: Sink, L: Ledger>(
    alloc: Global,
    session: &mut Session<'p, WebStore, F>,
    beginning: &Beginning<'p, F>,
    names: &Names,
    order: Order,
    out: &mut O,
    steps: &mut Steps<L>,
) -> Result<(), DebugFault>
    requires plain { CanBeLoaded beginning.now.plain.now beginning.now.plans.now }
    requires chooser { AnswersBelow F.pre F.post beginning.now.choose }
    requires same { IsEngineOf beginning.now session.old.engine }
    requires run { CanGoOn beginning.now session.old.engine }
    requires commits { session.old.engine.commits < 2 ^ 62 }
    requires order { IsAskedWith names.now order }
    ensures obeyed { CarriesOut F.post beginning.now.choose names.now beginning.now.plain.now beginning.now.size order session.old.engine.commits (heap_of session.old.engine.machine.store) session.new.engine.commits (heap_of session.new.engine.machine.store) (O.told out.old) (O.told out.new) result }
    ensures counts { CountsObeyed result (O.faults out.old) (O.faults out.new) }
    ensures same { OnOk result (IsEngineOf beginning.now session.new.engine) }
    ensures again { OnOk result (CanGoOn beginning.now session.new.engine) }
    ensures most { OnOk result (session.new.engine.commits ≤ session.old.engine.commits + most_asked) }
{
    match order {
        Order::Step(n) => step(alloc, session, beginning, names, n, out, steps),
        Order::Back(n) => back(alloc, session, beginning, names, n, out, steps),
        Order::Until { functor, op, n } => until(
            alloc, session, beginning, names, functor, op, n, out, steps,
        ),
        Order::Show => show(session, beginning, names, out),
    }
}

/// At most `n` turns, up to the first that doesn't commit.
fn step<'p, F: Fn(u64, u64) -> u64 + Copy + Drop, O: Sink, L: Ledger>(
    alloc: Global,
    session: &mut Session<'p, WebStore, F>,
    beginning: &Beginning<'p, F>,
    names: &Names,
    n: u64,
    out: &mut O,
    steps: &mut Steps<L>,
) -> Result<(), DebugFault>
    requires chooser { AnswersBelow F.pre F.post beginning.now.choose }
    requires same { IsEngineOf beginning.now session.old.engine }
    requires run { CanGoOn beginning.now session.old.engine }
    requires commits { session.old.engine.commits < 2 ^ 62 }
    requires order { IsAskedWith names.now (Order.Step n) }
    ensures obeyed { CarriesOut F.post beginning.now.choose names.now beginning.now.plain.now beginning.now.size (Order.Step n) session.old.engine.commits (heap_of session.old.engine.machine.store) session.new.engine.commits (heap_of session.new.engine.machine.store) (O.told out.old) (O.told out.new) result }
    ensures counts { CountsObeyed result (O.faults out.old) (O.faults out.new) }
    ensures same { OnOk result (IsEngineOf beginning.now session.new.engine) }
    ensures again { OnOk result (CanGoOn beginning.now session.new.engine) }
    ensures most { OnOk result (session.new.engine.commits ≤ session.old.engine.commits + most_asked) }
{
    let stop = session.step(alloc, n, steps);
    tell(stop, session.commits(), out)
}

/// Back by `n` commits, or to the first process.
fn back<'p, F: Fn(u64, u64) -> u64 + Copy + Drop, O: Sink, L: Ledger>(
    alloc: Global,
    session: &mut Session<'p, WebStore, F>,
    beginning: &Beginning<'p, F>,
    names: &Names,
    n: u64,
    out: &mut O,
    steps: &mut Steps<L>,
) -> Result<(), DebugFault>
    requires plain { CanBeLoaded beginning.now.plain.now beginning.now.plans.now }
    requires chooser { AnswersBelow F.pre F.post beginning.now.choose }
    requires same { IsEngineOf beginning.now session.old.engine }
    requires run { CanGoOn beginning.now session.old.engine }
    requires commits { session.old.engine.commits < 2 ^ 62 }
    ensures obeyed { CarriesOut F.post beginning.now.choose names.now beginning.now.plain.now beginning.now.size (Order.Back n) session.old.engine.commits (heap_of session.old.engine.machine.store) session.new.engine.commits (heap_of session.new.engine.machine.store) (O.told out.old) (O.told out.new) result }
    ensures counts { CountsObeyed result (O.faults out.old) (O.faults out.new) }
    ensures same { OnOk result (IsEngineOf beginning.now session.new.engine) }
    ensures again { OnOk result (CanGoOn beginning.now session.new.engine) }
    ensures most { OnOk result (session.new.engine.commits ≤ session.old.engine.commits + most_asked) }
{
    match go_back(alloc, session, beginning, n, steps) {
        Ok(()) => tell(Stop::Done, session.commits(), out),
        Err(NoMemory) => Err(DebugFault::NoMemory),
    }
}

/// Puts the session back by `n` commits, or to the first process. Where it stands there already nothing is made.
fn go_back<'p, F: Fn(u64, u64) -> u64 + Copy + Drop, L: Ledger>(
    alloc: Global,
    session: &mut Session<'p, WebStore, F>,
    beginning: &Beginning<'p, F>,
    n: u64,
    steps: &mut Steps<L>,
) -> Result<(), NoMemory>
    requires plain { CanBeLoaded beginning.now.plain.now beginning.now.plans.now }
    requires chooser { AnswersBelow F.pre F.post beginning.now.choose }
    requires same { IsEngineOf beginning.now session.old.engine }
    requires run { CanGoOn beginning.now session.old.engine }
    requires commits { session.old.engine.commits < 2 ^ 62 }
    ensures back { OnOk result ((names : List Name) → OfEachCourse F.post beginning.now.choose names beginning.now.plain.now beginning.now.size (λ g.
        StandsAt names beginning.now.plain.now.rules g session.old.engine.commits (heap_of session.old.engine.machine.store) → StandsAt names beginning.now.plain.now.rules g session.new.engine.commits (heap_of session.new.engine.machine.store))) }
    ensures lacks { OnErr result (session.old.engine.commits - n < session.old.engine.commits) }
    ensures number { OnOk result (session.new.engine.commits ≡ session.old.engine.commits - n) }
    ensures same { OnOk result (IsEngineOf beginning.now session.new.engine) }
    ensures again { OnOk result (CanGoOn beginning.now session.new.engine) }
{
    let commits = session.commits();
    let number = commits.saturating_sub(n);
    if number == commits {
        return Ok(());
    }
    let fresh = beginning.engine(alloc)?;
    session.back(alloc, fresh, n, steps)
}

/// Turns until the number of atoms with the functor stands so to `n`.
fn until<'p, F: Fn(u64, u64) -> u64 + Copy + Drop, O: Sink, L: Ledger>(
    alloc: Global,
    session: &mut Session<'p, WebStore, F>,
    beginning: &Beginning<'p, F>,
    names: &Names,
    functor: Functor,
    op: Cmp,
    n: u64,
    out: &mut O,
    steps: &mut Steps<L>,
) -> Result<(), DebugFault>
    requires chooser { AnswersBelow F.pre F.post beginning.now.choose }
    requires same { IsEngineOf beginning.now session.old.engine }
    requires run { CanGoOn beginning.now session.old.engine }
    requires commits { session.old.engine.commits < 2 ^ 62 }
    requires order { IsAskedWith names.now (Order.Until functor op n) }
    ensures obeyed { CarriesOut F.post beginning.now.choose names.now beginning.now.plain.now beginning.now.size (Order.Until functor op n) session.old.engine.commits (heap_of session.old.engine.machine.store) session.new.engine.commits (heap_of session.new.engine.machine.store) (O.told out.old) (O.told out.new) result }
    ensures counts { CountsObeyed result (O.faults out.old) (O.faults out.new) }
    ensures same { OnOk result (IsEngineOf beginning.now session.new.engine) }
    ensures again { OnOk result (CanGoOn beginning.now session.new.engine) }
    ensures most { OnOk result (session.new.engine.commits ≤ session.old.engine.commits + most_asked) }
{
    let stop = Break::new(
        move |count: u64| -> bool
            ensures { IsTrue result ↔ StandsSo op count n }
        { stands_so(op, count, n) },
        op,
        n,
    );
    let why = session.until(alloc, functor, &stop, steps);
    tell(why, session.commits(), out)
}

/// Whether a count stands so to `n`.
fn stands_so(op: Cmp, count: u64, n: u64) -> bool
    ensures { IsTrue result ↔ StandsSo op count n }
{
    match op {
        Cmp::Lt => count < n,
        Cmp::Le => count <= n,
        Cmp::Gt => count > n,
        Cmp::Ge => count >= n,
        Cmp::Eq => count == n,
        Cmp::Ne => count != n,
    }
}

/// Writes the line of the process.
fn show<'p, F: Fn(u64, u64) -> u64 + Copy + Drop, O: Sink>(
    session: &mut Session<'p, WebStore, F>,
    beginning: &Beginning<'p, F>,
    names: &Names,
    out: &mut O,
) -> Result<(), DebugFault>
    requires same { IsEngineOf beginning.now session.old.engine }
    requires run { CanGoOn beginning.now session.old.engine }
    ensures obeyed { CarriesOut F.post beginning.now.choose names.now beginning.now.plain.now beginning.now.size Order.Show session.old.engine.commits (heap_of session.old.engine.machine.store) session.new.engine.commits (heap_of session.new.engine.machine.store) (O.told out.old) (O.told out.new) result }
    ensures counts { CountsObeyed result (O.faults out.old) (O.faults out.new) }
    ensures same { OnOk result (IsEngineOf beginning.now session.new.engine) }
    ensures again { OnOk result (CanGoOn beginning.now session.new.engine) }
    ensures most { OnOk result (session.new.engine.commits ≤ session.old.engine.commits + most_asked) }
{
    match session.show(beginning.plain, names, out) {
        Ok(()) => Ok(()),
        Err(Failed) => Err(DebugFault::Failed),
    }
}
