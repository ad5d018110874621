//! Guards: conditions and expressions.
ghost use Rattle.std.specs.Prelude.{◌≡◌, map};
ghost use Rattle.lmn_io.specs.Gathering.{Adds, output};
ghost use Rattle.lmn_congruence.specs.Translation.{condition_of, expression_of, kind_of};
ghost use Rattle.lmn_flatten_plain.specs.Words.{comparison_pieces, condition_pieces, guard_pieces, operand_pieces, operator_pieces, side_pieces, text_of};
ghost use Rattle.lmn_print_plain.specs.Parts.{condition_text};

use crate::labels::{add_context, name_of};
use crate::leaves::{add_arguments, add_between};
use lmn_base::{Arith, Cmp, Cond, CtxUse, Expr, Names};
use lmn_io::{LineBuffer, Sink};
use lmn_print_labels::{add_integer, add_name};

/// Adds the conditions of a guard and the bar behind them, and nothing where there are none.
pub(crate) fn add_guard<O: Sink>(
    buffer: &mut LineBuffer,
    out: &mut O,
    names: &Names,
    guard: &[Cond],
)
    ensures { Adds (text_of (guard_pieces (map (condition_of names.now) guard.now))) (output buffer.old (O.told out.old) (O.faults out.old)) (output buffer.new (O.told out.new) (O.faults out.new)) }
{
    if guard.is_empty() {
        return;
    }
    let mut any = false;
    for condition in guard {
        add_between(buffer, out, any, b", ");
        add_condition(buffer, out, names, condition);
        any = true;
    }
    buffer.add(out, b" | ");
}

/// Adds a condition.
fn add_condition<O: Sink>(buffer: &mut LineBuffer, out: &mut O, names: &Names, condition: &Cond)
    ensures { Adds (condition_text names.now condition.now) (output buffer.old (O.told out.old) (O.faults out.old)) (output buffer.new (O.told out.new) (O.faults out.new)) }
{
    match condition {
        Cond::Kind { name, args, .. } => {
            add_kind(buffer, out, names, *name, args.as_slice());
        }
        Cond::Compare {
            op,
            left,
            right,
            ..
        } => {
            add_side(buffer, out, names, left);
            buffer.add(out, comparison_text(*op));
            add_side(buffer, out, names, right);
        }
        Cond::Equal { left, right, .. } => {
            add_context(buffer, out, names, b"$", left.name);
            buffer.add(out, b" = ");
            add_side(buffer, out, names, right);
        }
        Cond::Differ { left, right, .. } => {
            add_context(buffer, out, names, b"$", left.name);
            buffer.add(out, b" \\= ");
            add_context(buffer, out, names, b"$", right.name);
        }
    }
}

/// Adds a condition that has a name.
fn add_kind<O: Sink>(
    buffer: &mut LineBuffer,
    out: &mut O,
    names: &Names,
    name: u32,
    args: &[CtxUse],
)
    ensures { Adds (text_of (condition_pieces (kind_of names.now name args.now))) (output buffer.old (O.told out.old) (O.faults out.old)) (output buffer.new (O.told out.new) (O.faults out.new)) }
{
    add_name(buffer, out, name_of(names, name));
    add_arguments(buffer, out, names, args);
}

/// Adds a whole side of a condition, which stands without parentheses.
fn add_side<O: Sink>(buffer: &mut LineBuffer, out: &mut O, names: &Names, side: &Expr)
    ensures { Adds (text_of (side_pieces (expression_of names.now side.now))) (output buffer.old (O.told out.old) (O.faults out.old)) (output buffer.new (O.told out.new) (O.faults out.new)) }
{
    match side {
        Expr::Int(value) => add_integer(buffer, out, *value),
        Expr::Ctx(context) => add_context(buffer, out, names, b"$", context.name),
        Expr::Op { op, left, right } => {
            add_operand(buffer, out, names, left);
            buffer.add(out, operator_text(*op));
            add_operand(buffer, out, names, right);
        }
    }
}

/// Adds an operand of an operation, in parentheses where it is itself an operation.
fn add_operand<O: Sink>(buffer: &mut LineBuffer, out: &mut O, names: &Names, operand: &Expr)
    ensures { Adds (text_of (operand_pieces (expression_of names.now operand.now))) (output buffer.old (O.told out.old) (O.faults out.old)) (output buffer.new (O.told out.new) (O.faults out.new)) }
{
    match operand {
        Expr::Int(value) => add_integer(buffer, out, *value),
        Expr::Ctx(context) => add_context(buffer, out, names, b"$", context.name),
        Expr::Op { op, left, right } => {
            buffer.add(out, b"(");
            add_operand(buffer, out, names, left);
            buffer.add(out, operator_text(*op));
            add_operand(buffer, out, names, right);
            buffer.add(out, b")");
        }
    }
}

/// An operator with a space on each side.
fn operator_text(operator: Arith) -> &'static [u8]
    ensures { result.now ≡ text_of (operator_pieces operator) }
{
    match operator {
        Arith::Add => b" + ",
        Arith::Sub => b" - ",
        Arith::Mul => b" * ",
        Arith::Div => b" / ",
        Arith::Mod => b" mod ",
    }
}

/// The sign of a comparison with a space on each side.
fn comparison_text(comparison: Cmp) -> &'static [u8]
    ensures { result.now ≡ text_of (comparison_pieces comparison) }
{
    match comparison {
        Cmp::Lt => b" < ",
        Cmp::Le => b" =< ",
        Cmp::Gt => b" > ",
        Cmp::Ge => b" >= ",
        Cmp::Eq => b" =:= ",
        Cmp::Ne => b" =\\= ",
    }
}
