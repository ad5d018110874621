//! The plans of rules.
ghost use Rattle.std.specs.Prelude.{IfOk};
ghost use Rattle.std.specs.List.{AllZip};
ghost use Rattle.lmn_guards.specs.Plans.{IsPlan};

use lmn_base::{Names, NoMemory, Rows, RuleTree};
use lmn_guards::{GuardPlan, analyse};
use std::alloc::Global;

/// The plan of a rule that was accepted.
fn plan_of(alloc: Global, rule: &RuleTree, names: &Names) -> Result<GuardPlan, NoMemory>
    ensures { IfOk result (IsPlan rule.now) }
{
    match analyse(alloc, rule, names) {
        Ok(plan) => Ok(plan),
        // The rule isn't refused: it was accepted.
        Err(_fault) => Err(NoMemory),
    }
}

/// The plan of each rule, where all were accepted.
///
/// # Errors
///
/// `NoMemory` at want of memory.
pub(crate) fn plans_of(alloc: Global, rules: &[RuleTree]) -> Result<Rows<GuardPlan>, NoMemory>
    ensures { IfOk result (AllZip IsPlan rules.now) }
{
    let names = Names::new(alloc);
    let mut plans = Rows::new(alloc);
    for rule in rules {
        plans.push(plan_of(alloc, rule, &names)?)?;
    }
    Ok(plans)
}
