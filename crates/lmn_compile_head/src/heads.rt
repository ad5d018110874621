ghost use Rattle.std.specs.Prelude.{◌≡◌, ◌<◌, ◌≤◌, ◌++◌, ◌^◌, length, sum_by, IfOk, OnOk};
ghost use Rattle.lmn_base.specs.Limits.{most_guard_tokens};
ghost use Rattle.lmn_instr_code.specs.HeadCode.{head_code, items_code, parts_code};
ghost use Rattle.lmn_solid_heads.specs.Heads.{typed_contexts_of};
ghost use Rattle.lmn_base_walks.specs.RuleCodes.{condition_tokens};
ghost use Rattle.lmn_compile_head.specs.Accepted.{HasRoom, rule_head_code};
ghost use Rattle.lmn_compile_head.specs.Tables.{HeadFits};

use crate::codes::{add_items, insides_of};
use crate::conditions::add_guard;
use crate::fills::{add_all_filled, add_parts};
use crate::levels::flatten;
use crate::tables::times_of;
use lmn_base::{Cond, NoMemory, Rows, RuleTree};
use lmn_guards::GuardPlan;
use lmn_instr_code::{AtomPort, Instr};
use lmn_solid_heads::HeadItem;
use std::alloc::Global;

/// The code of a head with these items, whose links are below `links`, and this guard.
///
/// # Errors
///
/// `NoMemory` where there is no memory for the code.
pub fn code_of_items(
    alloc: Global,
    items: &[HeadItem],
    guard: &[Cond],
    links: usize,
) -> Result<Rows<Instr>, NoMemory>
    requires fits { HeadFits links items.now }
    requires few { length items.now < 2 ^ 15 }
    requires integers { sum_by condition_tokens guard.now ≤ most_guard_tokens }
    ensures { IfOk result (λ code. code ≡ head_code items.now guard.now) }
{
    let mut code = Rows::new(alloc);
    match add_head(alloc, &mut code, items, guard, links) {
        Ok(()) => Ok(code),
        Err(NoMemory) => Err(NoMemory),
    }
}

/// Adds the code of a head.
fn add_head(
    alloc: Global,
    code: &mut Rows<Instr>,
    items: &[HeadItem],
    guard: &[Cond],
    links: usize,
) -> Result<(), NoMemory>
    requires fits { HeadFits links items.now }
    requires few { length items.now < 2 ^ 15 }
    requires integers { sum_by condition_tokens guard.now ≤ most_guard_tokens }
    ensures { OnOk result (code.new ≡ code.old ++ head_code items.now guard.now) }
{
    add_found_items(alloc, code, items, links)?;
    add_all_filled(alloc, code, items)?;
    add_guard(alloc, code, items, guard)?;
    code.push(Instr::Commit)
}

/// Adds the code that finds the items of a head.
fn add_found_items(
    alloc: Global,
    code: &mut Rows<Instr>,
    items: &[HeadItem],
    links: usize,
) -> Result<(), NoMemory>
    requires fits { HeadFits links items.now }
    requires few { length items.now < 2 ^ 15 }
    ensures { OnOk result (code.new ≡ code.old ++ (items_code items.now 0 0 items.now ++ parts_code items.now 0 (typed_contexts_of items.now))) }
{
    let times = times_of(alloc, items, links)?;
    let insides = insides_of(alloc, items)?;
    let mut first: Rows<Option<AtomPort>> = Rows::from_vec(vec![in alloc; None; links]?);
    add_items(
        code,
        &mut first,
        times.as_slice(),
        insides.as_slice(),
        items,
    )?;
    add_parts(code, first.as_slice(), items)
}

/// The code of the head of a rule with its plan.
///
/// # Errors
///
/// `NoMemory` at want of memory: numbers of registers and links don't run out.
pub fn head(alloc: Global, rule: &RuleTree, plan: &GuardPlan) -> Result<Rows<Instr>, NoMemory>
    requires { HasRoom rule.now plan.now }
    ensures { IfOk result (λ code. code ≡ rule_head_code rule.now plan.now) }
{
    let items = flatten(alloc, &rule.head, plan)?;
    code_of_items(
        alloc,
        items.as_slice(),
        rule.guard.as_slice(),
        rule.links.len(),
    )
}
