ghost use Rattle.std.specs.Prelude.{◌≡◌, ◌≤◌, IfOk};
ghost use Rattle.lmn_parser_grammar.specs.Grammar.{Ref, SumPart, product, fact};
ghost use Rattle.lmn_parser_grammar.specs.Reading.{Owed, EndsSum, EndsProduct};
ghost use Rattle.lmn_parser.specs.Parsing.{kinds_of};
ghost use Rattle.lmn_parser.specs.Outcomes.{GoesForth, ReadsOrStops, reach};
ghost use Rattle.lmn_parser.specs.Syntax.{expr_of, operation};
ghost use Rattle.lmn_parser.specs.Trees.{IsSum, IsProduct, IsFactor};

use crate::lookahead::{expect, is_at, product_operator, sum_operator};
use crate::stop::Stop;
use crate::tree::ExprNode;
use lmn_base::{Arith, NoMemory};
use lmn_lexer::{Kind, PackedToken};
use std::alloc::Global;

/// An expression, and the place behind it.
#[cycle(expressions)]
pub(crate) fn sum(
    alloc: Global,
    tokens: &[PackedToken],
    at: usize,
) -> Result<(ExprNode, usize), Stop>
    requires place { at ≤ reach (kinds_of tokens.now) }
    ensures reads { (κ : Owed) → EndsSum κ → ReadsOrStops (kinds_of tokens.now) at (Ref SumPart) κ result }
    ensures forth { GoesForth (kinds_of tokens.now) at result }
    ensures tree { IfOk result (λ r. IsSum tokens.now (expr_of r.0) at r.1) }
{
    let (first, after) = product(alloc, tokens, at)?;
    let mut left = first;
    let mut end = after;
    'more: while let Some(op) = sum_operator(tokens, end) {
        let (right, after) = product(alloc, tokens, end + 1)?;
        left = operation(alloc, op, left, right)?;
        end = after;
    }
    Ok((left, end))
}

/// Factors with operators between them, and the place behind them.
#[cycle(expressions)]
fn product(alloc: Global, tokens: &[PackedToken], at: usize) -> Result<(ExprNode, usize), Stop>
    requires place { at ≤ reach (kinds_of tokens.now) }
    ensures reads { (κ : Owed) → EndsProduct κ → ReadsOrStops (kinds_of tokens.now) at product κ result }
    ensures forth { GoesForth (kinds_of tokens.now) at result }
    ensures tree { IfOk result (λ r. IsProduct tokens.now (expr_of r.0) at r.1) }
{
    let (first, after) = factor(alloc, tokens, at)?;
    let mut left = first;
    let mut end = after;
    'more: while let Some(op) = product_operator(tokens, end) {
        let (right, after) = factor(alloc, tokens, end + 1)?;
        left = operation(alloc, op, left, right)?;
        end = after;
    }
    Ok((left, end))
}

/// An integer, a context or an expression in parentheses, and the place behind it.
#[cycle(expressions)]
fn factor(alloc: Global, tokens: &[PackedToken], at: usize) -> Result<(ExprNode, usize), Stop>
    requires place { at ≤ reach (kinds_of tokens.now) }
    ensures reads { (κ : Owed) → ReadsOrStops (kinds_of tokens.now) at fact κ result }
    ensures forth { GoesForth (kinds_of tokens.now) at result }
    ensures tree { IfOk result (λ r. IsFactor tokens.now (expr_of r.0) at r.1) }
{
    if is_at(tokens, at, Kind::Int) {
        return Ok((ExprNode::Int(at), at + 1));
    }
    if is_at(tokens, at, Kind::Context) {
        return Ok((ExprNode::Ctx(at), at + 1));
    }
    let start = expect(tokens, at, Kind::LParen)?;
    let (inner, end) = sum(alloc, tokens, start)?;
    let after = expect(tokens, end, Kind::RParen)?;
    Ok((inner, after))
}

/// Two expressions with an operator between them.
fn operation(
    alloc: Global,
    op: Arith,
    left: ExprNode,
    right: ExprNode,
) -> Result<ExprNode, NoMemory>
    ensures { IfOk result (λ e. expr_of e ≡ operation op (expr_of left) (expr_of right)) }
{
    let left = Box::new(alloc, left)?;
    let right = Box::new(alloc, right)?;
    Ok(ExprNode::Op { op, left, right })
}
