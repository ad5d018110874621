ghost use Rattle.std.specs.Prelude.{◌≡◌, ◌+◌, ◌*◌, ◌<◌, ◌≤◌, sum_by, ◌++◌, ◌^◌, ◌∷◌, List, length, IfOk, OnOk};
ghost use Rattle.lmn_base.specs.Limits.{most_guard_tokens};
ghost use Rattle.lmn_instr_code.specs.HeadCode as code_of;
ghost use Rattle.lmn_instr_code.specs.HeadCode.{value_code, guard_code};
ghost use Rattle.lmn_base.specs.declared.guard.Cond.{Cond};
ghost use Rattle.lmn_base_walks.specs.RuleCodes.{condition_tokens, expression_tokens};
ghost use Rattle.lmn_solid_heads.specs.Guards.{context_alone};
ghost use Rattle.lmn_compile_head.specs.Bindings.{bound_of, part_numbers};

use lmn_base::{Arith, Cmp, Cond, Expr, NoMemory, Rows};
use lmn_instr_code::Instr;
use lmn_solid_heads::HeadItem;
use std::alloc::Global;

/// A name that a guard has bound, and the register of its integer.
#[derive(Clone, Copy)]
pub struct Bound {
    /// The number of the name.
    pub name: u32,
    /// The register.
    pub register: u16,
}

/// The register of a name that is bound.
fn register_of(bound: &[Bound], name: u32) -> u16
    ensures { result ≡ bound_of bound.now name }
{
    let mut register = 0;
    for one in bound {
        if name == one.name {
            register = one.register;
        }
    }
    register
}

/// The number of the typed context with a name.
fn part_named(items: &[HeadItem], name: u32) -> Option<u16>
    requires { length items.now < 2 ^ 15 }
    ensures { result ≡ part_numbers items.now name }
{
    let mut part = 0;
    for item in items {
        match item {
            HeadItem::Typed { name: n, .. } => {
                if *n == name {
                    return Some(part);
                }
                part += 1;
            }
            HeadItem::Atom { .. } | HeadItem::Membrane { .. } => {}
        }
    }
    None
}

/// The instruction of an operator.
fn operation(operator: Arith, integer: u16, left: u16, right: u16) -> Instr
    ensures { result ≡ code_of.operator_instruction operator integer left right }
{
    match operator {
        Arith::Add => Instr::Add {
            integer,
            left,
            right,
        },
        Arith::Sub => Instr::Sub {
            integer,
            left,
            right,
        },
        Arith::Mul => Instr::Mul {
            integer,
            left,
            right,
        },
        Arith::Div => Instr::Div {
            integer,
            left,
            right,
        },
        Arith::Mod => Instr::Mod {
            integer,
            left,
            right,
        },
    }
}

/// The instruction of a comparison.
fn comparison(comparison: Cmp, left: u16, right: u16) -> Instr
    ensures { result ≡ code_of.comparison comparison left right }
{
    match comparison {
        Cmp::Lt => Instr::Lt { left, right },
        Cmp::Le => Instr::Le { left, right },
        Cmp::Gt => Instr::Gt { left, right },
        Cmp::Ge => Instr::Ge { left, right },
        Cmp::Eq => Instr::Eq { left, right },
        Cmp::Ne => Instr::Ne { left, right },
    }
}

/// The register of an integer, and the next one that isn't used yet.
#[derive(Clone, Copy)]
pub struct Place {
    /// The register.
    pub at: u16,
    /// The next one.
    pub next: u16,
}

/// Adds the code of an expression. Each integer, context and operation takes a register at most, so there are fewer than
/// twice as many registers as integers and contexts.
fn add_value(
    code: &mut Rows<Instr>,
    items: &[HeadItem],
    bound: &[Bound],
    expr: &Expr,
    next: u16,
) -> Result<Place, NoMemory>
    requires few { length items.now < 2 ^ 15 }
    requires room { next + 2 * expression_tokens expr.now < 2 ^ 16 }
    ensures code { IfOk result (λ place. let value = value_code (part_numbers items.now) (bound_of bound.now) expr.now next in
        (code.new ≡ code.old ++ value.code) × (place.at ≡ value.at) × (place.next ≡ value.next)) }
    ensures next { IfOk result (λ place. place.next < next + 2 * expression_tokens expr.now) }
{
    match expr {
        Expr::Int(value) => {
            code.push(Instr::Const {
                integer: next,
                value: *value,
            })?;
            Ok(Place {
                at: next,
                next: next + 1,
            })
        }
        Expr::Ctx(context) => match part_named(items, context.name) {
            Some(part) => {
                code.push(Instr::GetInt {
                    integer: next,
                    part,
                })?;
                Ok(Place {
                    at: next,
                    next: next + 1,
                })
            }
            None => Ok(Place {
                at: register_of(bound, context.name),
                next,
            }),
        },
        Expr::Op { op, left, right } => {
            let a = add_value(code, items, bound, left, next)?;
            let b = add_value(code, items, bound, right, a.next)?;
            code.push(operation(*op, b.next, a.at, b.at))?;
            Ok(Place {
                at: b.next,
                next: b.next + 1,
            })
        }
    }
}

/// The number of the typed context that an expression is.
fn part_alone(items: &[HeadItem], expr: &Expr) -> Option<u16>
    requires { length items.now < 2 ^ 15 }
    ensures { result ≡ code_of.part_named (part_numbers items.now) (context_alone expr.now) }
{
    match expr {
        Expr::Ctx(context) => part_named(items, context.name),
        Expr::Int(_) => None,
        Expr::Op { .. } => None,
    }
}

/// Adds the comparison of two typed contexts, where both are.
fn add_differ_parts(
    code: &mut Rows<Instr>,
    part: Option<u16>,
    other: Option<u16>,
) -> Result<(), NoMemory>
    ensures { OnOk result (code.new ≡ code.old ++ code_of.differ_parts_code part other) }
{
    match part {
        None => Ok(()),
        Some(part) => match other {
            None => Ok(()),
            Some(other) => code.push(Instr::NeqGround { part, other }),
        },
    }
}

/// Adds the code of a condition, where `next` is the next integer register. Answers the next one behind it.
fn add_condition(
    code: &mut Rows<Instr>,
    items: &[HeadItem],
    bound: &mut Rows<Bound>,
    condition: &Cond,
    next: u16,
) -> Result<u16, NoMemory>
    requires few { length items.now < 2 ^ 15 }
    requires room { next + 2 * condition_tokens condition.now < 2 ^ 16 }
    ensures code { IfOk result (λ behind. (cs : List Cond) →
        code.new ++ guard_code (part_numbers items.now) (bound_of bound.new) behind cs ≡ code.old ++ guard_code (part_numbers items.now) (bound_of bound.old) next (condition.now ∷ cs)) }
    ensures next { IfOk result (λ behind. behind ≤ next + 2 * condition_tokens condition.now) }
{
    match condition {
        Cond::Kind { .. } => Ok(next),
        Cond::Compare {
            op,
            left,
            right,
            ..
        } => {
            let a = add_value(code, items, bound.as_slice(), left, next)?;
            let b = add_value(code, items, bound.as_slice(), right, a.next)?;
            code.push(comparison(*op, a.at, b.at))?;
            Ok(b.next)
        }
        Cond::Equal { left, right, .. } => match part_named(items, left.name) {
            None => {
                let value = add_value(code, items, bound.as_slice(), right, next)?;
                bound.push(Bound {
                    name: left.name,
                    register: value.at,
                })?;
                Ok(value.next)
            }
            Some(part) => {
                match part_alone(items, right) {
                    Some(other) => {
                        code.push(Instr::EqGround { part, other })?;
                        Ok(next)
                    }
                    None => Ok(next),
                }
            }
        },
        Cond::Differ { left, right, .. } => {
            add_differ_parts(
                code,
                part_named(items, left.name),
                part_named(items, right.name),
            )?;
            Ok(next)
        }
    }
}

/// Adds the code of a guard.
pub fn add_guard(
    alloc: Global,
    code: &mut Rows<Instr>,
    items: &[HeadItem],
    guard: &[Cond],
) -> Result<(), NoMemory>
    requires few { length items.now < 2 ^ 15 }
    requires room { sum_by condition_tokens guard.now ≤ most_guard_tokens }
    ensures { OnOk result (code.new ≡ code.old ++ guard_code (part_numbers items.now) (λ x. 0) 0 guard.now) }
{
    let mut bound = Rows::new(alloc);
    let mut next = 0;
    for condition in guard {
        next = add_condition(code, items, &mut bound, condition, next)?;
    }
    Ok(())
}
