//! What a firing makes.
ghost use Rattle.std.specs.Prelude.{◌≡◌, ◌+◌, ◌++◌, ◌∷◌, [], ℕ, IfOk, OnOk, length};
ghost use Rattle.lmn_store_heap.specs.Heap.{IsMem, mems_in};
ghost use Rattle.lmn_store_heap.specs.Sound.{Forest, Forms, Valid};
ghost use Rattle.lmn_solid_settle.specs.Raw.{laid};
ghost use Rattle.lmn_solid_tables.specs.Flats.{heap_of};
ghost use Rattle.std.specs.Prelude.{List};
ghost use Rattle.std.specs.List.{AllByRecursion};
ghost use Rattle.lmn_solid_settle.specs.declared.settling.RawMembrane.{RawMembrane};
ghost use Rattle.lmn_solid_firing.specs.Making.{Ends, IsMade, IsReadyFor, LeftForms, WaitsFor, fired_region, home_region, home_row, level_made};

use crate::body::{add_connectors, add_membranes, add_own_atoms, add_own_rules};
use crate::contexts::{add_left_atoms, add_left_membranes};
use crate::match_::Match;
use crate::membranes::{add_lone, push_all};
use crate::numbers::short;
use crate::writing::{Writing, sum};
use lmn_base::{Level, NoMemory, Rows};
use lmn_solid_settle::RawMembrane;
use lmn_solid_tables::Flat;
use std::alloc::Global;

/// Adds the membrane in which the rule fires, without those in it: what the head leaves, and then what the body makes.
/// Answers where the copies of the body's untyped contexts begin.
fn add_home_row(
    alloc: Global,
    flat: &Flat,
    taken: &Match,
    body: &Level,
    around: usize,
    next: &mut u64,
    rows: &mut Vec<RawMembrane>,
) -> Result<u64, NoMemory>
    requires valid { Valid (heap_of flat.now) }
    requires home { IsMem (heap_of flat.now) taken.now.home }
    requires ready { IsReadyFor flat.now taken.now }
    ensures start { (left : ℕ → Forest) → IfOk result (λ start. start ≡ (level_made flat.now taken.now left body.now).start next.old) }
    ensures next { (left : ℕ → Forest) → OnOk result (next.new ≡ (level_made flat.now taken.now left body.now).own next.old) }
    ensures rows { (left : ℕ → Forest) → OnOk result (rows.new.items ≡ rows.old.items ++ home_row flat.now taken.now around (level_made flat.now taken.now left body.now) next.old ∷ []) }
{
    let mut atoms = Rows::new(alloc);
    let kept = Writing::Shifted { by: 0 };
    add_left_atoms(alloc, flat, taken, taken.home, &kept, &mut atoms)?;
    let start = add_own_atoms(alloc, flat, taken, body, next, &mut atoms)?;
    let mut rules = Rows::new(alloc);
    rules.add_all(flat.rules(taken.home))?;
    add_own_rules(flat, taken, body, &mut rules)?;
    rows.push(RawMembrane {
        around,
        atoms,
        rules,
    })?;
    Ok(start)
}

/// Adds the membrane in which the rule fires, with all that stands in it.
fn add_home(
    alloc: Global,
    flat: &Flat,
    taken: &Match,
    body: &Level,
    around: usize,
    next: &mut u64,
    rows: &mut Vec<RawMembrane>,
) -> Result<(), NoMemory>
    requires valid { Valid (heap_of flat.now) }
    requires home { IsMem (heap_of flat.now) taken.now.home }
    requires ready { IsReadyFor flat.now taken.now }
    ensures next { (left : ℕ → Forest) → OnOk result (next.new ≡ (level_made flat.now taken.now left body.now).after ((level_made flat.now taken.now left body.now).own next.old)) }
    ensures rows { (left : ℕ → Forest) → LeftForms flat.now taken.now left →
        OnOk result (rows.new.items ≡ rows.old.items ++ laid around (length rows.old.items) (home_region flat.now taken.now left (level_made flat.now taken.now left body.now) next.old)) }
{
    let number = rows.len();
    let start = add_home_row(alloc, flat, taken, body, around, next, rows)?;
    let kept = Writing::Shifted { by: 0 };
    add_left_membranes(alloc, flat, taken, taken.home, number, &kept, rows)?;
    add_membranes(alloc, flat, taken, body, start, number, next, rows)?;
    Ok(())
}

/// Adds the membrane that was on top of the stack. The one in which the rule fires is added whole, and `end` is then a number above
/// those of all links; of another one those in it are put on the stack.
fn add_top(
    alloc: Global,
    flat: &Flat,
    taken: &Match,
    body: &Level,
    start: u64,
    membrane: usize,
    around: usize,
    waiting: &mut Vec<(usize, usize)>,
    end: &mut Option<u64>,
    rows: &mut Vec<RawMembrane>,
) -> Result<(), NoMemory>
    requires valid { Valid (heap_of flat.now) }
    requires membrane { IsMem (heap_of flat.now) membrane }
    requires home { IsMem (heap_of flat.now) taken.now.home }
    requires ready { IsReadyFor flat.now taken.now }
    ensures there { AllByRecursion (λ e. IsMem (heap_of flat.now) e.0) waiting.old.items → OnOk result (AllByRecursion (λ e. IsMem (heap_of flat.now) e.0) waiting.new.items) }
    ensures end { (left : ℕ → Forest) → Ends flat.now taken.now left body.now start end.old → OnOk result (Ends flat.now taken.now left body.now start end.new) }
    ensures rows { (left : ℕ → Forest) → LeftForms flat.now taken.now left → (all : List RawMembrane) →
        WaitsFor flat.now taken.now.home (home_region flat.now taken.now left (level_made flat.now taken.now left body.now) start) rows.old.items (waiting.old.items ++ (membrane, around) ∷ []) all →
        OnOk result (WaitsFor flat.now taken.now.home (home_region flat.now taken.now left (level_made flat.now taken.now left body.now) start) rows.new.items waiting.new.items all) }
{
    if membrane == taken.home {
        let mut next = start;
        add_home(alloc, flat, taken, body, around, &mut next, rows)?;
        *end = Some(next);
        Ok(())
    } else {
        let number = rows.len();
        let kept = Writing::Shifted { by: 0 };
        add_lone(alloc, flat, membrane, around, &kept, rows)?;
        push_all(waiting, flat.membranes(membrane), number)?;
        Ok(())
    }
}

/// Adds the membranes after a firing, in preorder. Answers a number above those of all links, once the membrane in which the rule
/// fires has been added.
fn membranes_after(
    alloc: Global,
    flat: &Flat,
    taken: &Match,
    body: &Level,
    start: u64,
    rows: &mut Vec<RawMembrane>,
) -> Result<Option<u64>, NoMemory>
    requires valid { Valid (heap_of flat.now) }
    requires home { IsMem (heap_of flat.now) taken.now.home }
    requires ready { IsReadyFor flat.now taken.now }
    requires none { rows.old.items ≡ [] }
    ensures end { (left : ℕ → Forest) → IfOk result (Ends flat.now taken.now left body.now start) }
    ensures rows { (left : ℕ → Forest) → LeftForms flat.now taken.now left → (inner : Forest) → Forms (heap_of flat.now) inner (mems_in (heap_of flat.now) 0) →
        OnOk result (rows.new.items ≡ laid 0 0 (fired_region flat.now taken.now.home (home_region flat.now taken.now left (level_made flat.now taken.now left body.now) start) 0 inner)) }
{
    let mut end = None;
    let mut waiting = Vec::new(alloc);
    waiting.push((0, 0))?;
    for _ in 0..u64::MAX {
        let Some((membrane, around)) = waiting.pop() else {
            return Ok(end);
        };
        add_top(
            alloc,
            flat,
            taken,
            body,
            start,
            membrane,
            around,
            &mut waiting,
            &mut end,
            rows,
        )?;
    }
    Err(NoMemory)
}

/// The membranes after a firing, in preorder, where the rule has so many links, and a number above those of all links. The connectors of
/// the body are added behind those of the list.
///
/// # Errors
///
/// `NoMemory` at want of memory, and where links have no numbers of 32 bits.
pub fn fire(
    alloc: Global,
    flat: &Flat,
    taken: &Match,
    body: &Level,
    rule_links: u64,
    connectors: &mut Rows<(u32, u32)>,
) -> Result<(Vec<RawMembrane>, u32), NoMemory>
    requires valid { Valid (heap_of flat.now) }
    requires home { IsMem (heap_of flat.now) taken.now.home }
    requires ready { IsReadyFor flat.now taken.now }
    ensures { (left : ℕ → Forest) → LeftForms flat.now taken.now left → (inner : Forest) → Forms (heap_of flat.now) inner (mems_in (heap_of flat.now) 0) →
        IfOk result (λ m. IsMade flat.now taken.now left inner body.now (taken.now.links + rule_links) connectors.old m.0.items connectors.new m.1) }
{
    let start = sum(taken.links, rule_links)?;
    let mut membranes = Vec::new(alloc);
    let Some(end) = membranes_after(alloc, flat, taken, body, start, &mut membranes)? else {
        return Err(NoMemory);
    };
    add_connectors(taken, body, connectors)?;
    Ok((membranes, short(end)?))
}
