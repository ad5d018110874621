ghost use Rattle.std.specs.Prelude.{◌≡◌, ◌+◌, ◌*◌, ◌<◌, ◌≤◌, ◌∷◌, ◌^◌, List, sum_by, length, IfOk};
ghost use Rattle.lmn_base.specs.Limits.{most_guard_tokens};
ghost use Rattle.lmn_base.specs.declared.guard.Cond.{Cond};
ghost use Rattle.lmn_base_walks.specs.RuleCodes.{condition_tokens, expression_tokens};
ghost use Rattle.lmn_instr_code.specs.HeadCode.{value_code};
ghost use Rattle.lmn_compile_body.specs.Naming.{registers_by, guard_registers};
ghost use Rattle.lmn_compile_head.specs.Bindings.{part_numbers};

use crate::names::part_of;
use lmn_base::{Cond, Expr, NoMemory, Rows};
use lmn_solid_heads::HeadItem;
use std::alloc::Global;

/// The register of a name, from the names that are bound with their registers.
pub fn register_of(integers: &[(u32, u16)], name: u32) -> u16
    ensures { result ≡ registers_by integers.now name }
{
    let mut register = 0;
    for entry in integers {
        let (other, number) = *entry;
        if name == other {
            register = number;
        }
    }
    register
}

/// The register of an integer, and the next one that isn't used yet.
#[derive(Clone, Copy)]
pub struct Place {
    /// The register.
    pub at: u16,
    /// The next one.
    pub next: u16,
}

/// Where the code of a guard puts the value of an expression, if `next` is the next register.
fn value_of(items: &[HeadItem], integers: &[(u32, u16)], expr: &Expr, next: u16) -> Place
    requires few { length items.now < 2 ^ 15 }
    requires room { next + 2 * expression_tokens expr.now < 2 ^ 16 }
    ensures at { result.at ≡ (value_code (part_numbers items.now) (registers_by integers.now) expr.now next).at }
    ensures next { result.next ≡ (value_code (part_numbers items.now) (registers_by integers.now) expr.now next).next }
    ensures room { result.next < next + 2 * expression_tokens expr.now }
{
    match expr {
        Expr::Int(_) => Place {
            at: next,
            next: next + 1,
        },
        Expr::Ctx(context) => match part_of(items, context.name) {
            Some(_) => Place {
                at: next,
                next: next + 1,
            },
            None => Place {
                at: register_of(integers, context.name),
                next,
            },
        },
        Expr::Op { left, right, .. } => {
            let a = value_of(items, integers, left, next);
            let b = value_of(items, integers, right, a.next);
            Place {
                at: b.next,
                next: b.next + 1,
            }
        }
    }
}

/// Adds the name that a condition binds, if it does, where `next` is the next register. Answers the next one behind it.
fn note_condition(
    items: &[HeadItem],
    integers: &mut Rows<(u32, u16)>,
    condition: &Cond,
    next: u16,
) -> Result<u16, NoMemory>
    requires few { length items.now < 2 ^ 15 }
    requires room { next + 2 * condition_tokens condition.now < 2 ^ 16 }
    ensures same { IfOk result (λ behind. (cs : List Cond) →
        guard_registers (part_numbers items.now) (registers_by integers.new) behind cs ≡ guard_registers (part_numbers items.now) (registers_by integers.old) next (condition.now ∷ cs)) }
    ensures room { IfOk result (λ behind. behind ≤ next + 2 * condition_tokens condition.now) }
{
    match condition {
        Cond::Kind { .. } => Ok(next),
        Cond::Compare { left, right, .. } => {
            let a = value_of(items, integers.as_slice(), left, next);
            let b = value_of(items, integers.as_slice(), right, a.next);
            Ok(b.next)
        }
        Cond::Equal { left, right, .. } => match part_of(items, left.name) {
            None => {
                let value = value_of(items, integers.as_slice(), right, next);
                integers.push((left.name, value.at))?;
                Ok(value.next)
            }
            Some(_) => Ok(next),
        },
        Cond::Differ { .. } => Ok(next),
    }
}

/// The names that a guard binds, with the registers that its code sets. It goes over the guard as its code does, and makes none.
pub fn integers_of(
    alloc: Global,
    items: &[HeadItem],
    guard: &[Cond],
) -> Result<Rows<(u32, u16)>, NoMemory>
    requires few { length items.now < 2 ^ 15 }
    requires room { sum_by condition_tokens guard.now ≤ most_guard_tokens }
    ensures { IfOk result (λ integers. registers_by integers ≡ guard_registers (part_numbers items.now) (λ x. 0) 0 guard.now) }
{
    let mut integers = Rows::new(alloc);
    let mut next = 0;
    for condition in guard {
        next = note_condition(items, &mut integers, condition, next)?;
    }
    Ok(integers)
}
