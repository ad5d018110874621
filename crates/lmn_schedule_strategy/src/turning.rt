//! One turn: what the strategy chooses is prepared and committed, where the store may have that many items.
ghost use Rattle.std.specs.Prelude.{◌≡◌, ◌<◌, IsTrue, ◌≤◌, ◌+◌, ◌-◌, ◌*◌, ◌^◌, ◌↔◌, ℕ, length};
ghost use Rattle.lmn_solid_bodies.specs.Running.{Registers};
ghost use Rattle.lmn_machine_commit.specs.Registers.{HasRests};
ghost use Rattle.lmn_machine.specs.Costs.{Leaves};
ghost use Rattle.lmn_machine_registers.specs.Agreeing.{Agrees};
ghost use Rattle.lmn_store_heap.specs.Sound.{Forest, IsTree, Valid, flat};
ghost use Rattle.lmn_schedule_strategy.specs.Counting.{CountsAsked};
ghost use Rattle.lmn_schedule_strategy.specs.Quieting.{CanAsk, TurnsAgain};
ghost use Rattle.lmn_schedule_strategy.specs.Turns.{CanFire, AnswersMatch, AreRunnable, IsAwakeTurn};
ghost use Rattle.lmn_store_heap.specs.Heap.{Unmarked};

use crate::strategy::search;
use lmn_instr_pool::{CodeView, Codes};
use lmn_machine::{Machine, Steps};
use lmn_store_trait::LinkStore;
use std::alloc::Global;
use std::sync::ledger::Ledger;

/// How a turn ended.
#[derive(Clone, Copy, PartialEq, Eq)]
pub enum Turn {
    /// A rule fired.
    Committed,
    /// No rule of any membrane has a match.
    Irreducible,
    /// The commit of the rule that is chosen would leave more items than there may be.
    Full,
    /// There is no memory for what the rule that is chosen makes.
    NoMemory,
}

/// Up to which number of items and of instructions it is told whether there is room: the product of two such numbers fits.
const FEW: u64 = 2147483647;

/// Whether so many items and, for each of `many` instructions, as many more and one are at most `size`. With the root counted they are a
/// product. The answer is no where there are too many for that to be told.
fn is_roomy(items: u64, many: u64, size: u64) -> bool
    requires size { size < 2 ^ 64 - 1 }
    ensures { IsTrue result → items + many * (items + 1) ≤ size }
{
    if items >= FEW || many >= FEW {
        return false;
    }
    (items + 1) * (many + 1) <= size + 1
}

/// Whether the commit with a code leaves at most `size` items. They are counted only where there may be more: an instruction
/// adds no more items than there are.
fn leaves_few<S: LinkStore>(machine: &mut Machine<S>, code: &CodeView<'_>, size: u64) -> bool
    requires fire { CanFire S.atom_id S.mem_id (S.heap machine.old.store) machine.old.set code.now }
    requires size { size < 2 ^ 64 - 1 }
    ensures same { S.heap machine.new.store ≡ S.heap machine.old.store }
    ensures registers { machine.new.set ≡ machine.old.set }
    ensures few { (r : Registers) (n : ℕ) → Agrees S.atom_id S.mem_id machine.old.set r.head → HasRests S.atom_id S.mem_id (S.heap machine.old.store) machine.old.set r → Leaves (S.heap machine.old.store) r code.now.body n → IsTrue result ↔ (n ≤ size) }
{
    let items = machine.store().items();
    if is_roomy(items, code.body().len() as u64, size) {
        return true;
    }
    machine.cost(code) <= size
}

/// Lets the rule of a code fire whose head was found, where its commit leaves at most `size` items.
#[inline(always)]
fn fire<S: LinkStore>(
    alloc: Global,
    machine: &mut Machine<S>,
    code: &CodeView<'_>,
    size: u64,
) -> Turn
    requires fire { CanFire S.atom_id S.mem_id (S.heap machine.old.store) machine.old.set code.now }
    requires size { size < 2 ^ 64 - 1 }
    ensures fires { AnswersMatch S.atom_id S.mem_id (S.heap machine.old.store) machine.old.set code.now size result (S.heap machine.new.store) }
    ensures valid { Valid (S.heap machine.new.store) }
    ensures unmarked { Unmarked (S.heap machine.new.store) }
{
    if !leaves_few(machine, code, size) {
        return Turn::Full;
    }
    match machine.prepare(alloc, code) {
        Ok(()) => {
            machine.commit(code);
            Turn::Committed
        }
        Err(_) => Turn::NoMemory,
    }
}

/// One turn. `codes` has the code of each rule of the table, by its number, and it can be run. There are `many` membranes, and the one with
/// the number `from` in preorder is asked first. The first rule that has a match fires at its first match, unless more than
/// `size` items would be left, the root not counted. A membrane that sleeps isn't asked, and where membranes may sleep one that is asked in
/// vain falls asleep. With another answer than `Committed` the store is else as it was, but for room for rules at `NoMemory`. The steps
/// rise by the rules of the awake membranes asked at most.
/// Its name isn't `turn`, since the kit refuses a function and an enum of one module whose names differ in case
/// alone.
#[inline(always)]
pub fn take_turn<S: LinkStore, L: Ledger>(
    alloc: Global,
    machine: &mut Machine<S>,
    codes: &Codes,
    from: u64,
    many: u64,
    size: u64,
    sleep: bool,
    steps: &mut Steps<L>,
) -> Turn
    requires ready { CanAsk (S.heap machine.old.store) codes.now }
    requires codes { AreRunnable codes.now }
    requires many { (f : Forest) → IsTree (S.heap machine.old.store) f → many ≡ length (flat f) }
    requires from { from < many }
    requires size { size < 2 ^ 64 - 1 }
    ensures turned { (f : Forest) → IsTree (S.heap machine.old.store) f → IsAwakeTurn sleep (S.heap machine.old.store) codes.now f from size result (S.heap machine.new.store) }
    ensures again { TurnsAgain sleep (S.heap machine.old.store) (S.heap machine.new.store) codes.now }
    ensures steps { CountsAsked (S.heap machine.old.store) codes.now from steps.old steps.new }
{
    match search(machine, codes, from, many, sleep, steps) {
        Some(choice) => {
            let code = codes.code(choice.rule);
            fire(alloc, machine, &code, size)
        }
        None => Turn::Irreducible,
    }
}
