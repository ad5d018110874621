ghost use Rattle.std.specs.Prelude.{◌≡◌, ℕ, ◌≤◌, ◌+◌, IfOk, []};
ghost use Rattle.lmn_parser_grammar.specs.Grammar.{Opt, Seq, Ref, SumPart, cmp, cond};
ghost use Rattle.lmn_parser_grammar.specs.Factored.{contexts, guard_bar};
ghost use Rattle.lmn_parser_grammar.specs.Reading.{Owed, next, EndsCond, EndsSum};
ghost use Rattle.lmn_parser.specs.Parsing.{kinds_of};
ghost use Rattle.lmn_parser.specs.Outcomes.{GoesForth, ReadsOrStops, StaysOrGoesForth, reach};
ghost use Rattle.lmn_parser.specs.Syntax.{condition_of_node, conditions_of};
ghost use Rattle.lmn_parser.specs.Trees.{At, IsContextArguments, IsCondition, IsWrittenGuard};

use crate::expression::sum;
use crate::lookahead::{comparison_at, expect, is_at, is_name_at, is_pair_at};
use crate::stop::Stop;
use crate::tree::CondNode;
use lmn_base::Rows;
use lmn_lexer::{Kind, PackedToken};
use std::alloc::Global;

/// The conditions of a guard and its `|`, and the place behind them.
pub(crate) fn guard(
    alloc: Global,
    tokens: &[PackedToken],
    at: usize,
) -> Result<(Rows<CondNode>, usize), Stop>
    requires place { at ≤ reach (kinds_of tokens.now) }
    ensures reads { (κ : Owed) → ReadsOrStops (kinds_of tokens.now) at guard_bar κ result }
    ensures forth { GoesForth (kinds_of tokens.now) at result }
    ensures tree { IfOk result (λ r. (bar : ℕ) × IsWrittenGuard tokens.now (conditions_of r.0) at bar × At tokens.now bar Kind.Bar × (r.1 ≡ bar + 1)) }
{
    let mut conditions = Rows::new(alloc);
    let (first, after) = condition(alloc, tokens, at)?;
    conditions.push(first)?;
    let mut end = after;
    'more: while is_at(tokens, end, Kind::Comma) {
        let (next, after) = condition(alloc, tokens, end + 1)?;
        conditions.push(next)?;
        end = after;
    }
    let start = expect(tokens, end, Kind::Bar)?;
    Ok((conditions, start))
}

/// A condition, and the place behind it.
fn condition(alloc: Global, tokens: &[PackedToken], at: usize) -> Result<(CondNode, usize), Stop>
    requires place { at ≤ reach (kinds_of tokens.now) }
    ensures reads { (κ : Owed) → EndsCond κ → ReadsOrStops (kinds_of tokens.now) at cond κ result }
    ensures forth { GoesForth (kinds_of tokens.now) at result }
    ensures tree { IfOk result (λ r. IsCondition tokens.now (condition_of_node r.0) at r.1) }
{
    if is_name_at(tokens, at) {
        let (args, end) = contexts(alloc, tokens, at + 1)?;
        return Ok((CondNode::Kind { name: at, args }, end));
    }
    if is_pair_at(tokens, at, Kind::Context, Kind::Equal) {
        let (right, end) = sum(alloc, tokens, at + 2)?;
        return Ok((
            CondNode::Equal {
                left: at,
                right,
                sign: at + 1,
            },
            end,
        ));
    }
    if is_pair_at(tokens, at, Kind::Context, Kind::Differ) {
        let end = expect(tokens, at + 2, Kind::Context)?;
        return Ok((
            CondNode::Differ {
                left: at,
                right: at + 2,
                sign: at + 1,
            },
            end,
        ));
    }
    comparison(alloc, tokens, at)
}

/// The contexts in parentheses behind the name of a condition, if there are any, and the place behind them.
fn contexts(alloc: Global, tokens: &[PackedToken], at: usize) -> Result<(Rows<usize>, usize), Stop>
    requires place { at ≤ reach (kinds_of tokens.now) }
    ensures reads { (κ : Owed) → next κ Kind.LParen ≡ [] → ReadsOrStops (kinds_of tokens.now) at (Opt contexts) κ result }
    ensures forth { StaysOrGoesForth (kinds_of tokens.now) at result }
    ensures tree { IfOk result (λ r. IsContextArguments tokens.now r.0 at r.1) }
{
    let mut found = Rows::new(alloc);
    if !is_at(tokens, at, Kind::LParen) {
        return Ok((found, at));
    }
    let after = expect(tokens, at + 1, Kind::Context)?;
    found.push(at + 1)?;
    let mut end = after;
    'more: while is_at(tokens, end, Kind::Comma) {
        let after = expect(tokens, end + 1, Kind::Context)?;
        found.push(end + 1)?;
        end = after;
    }
    let after = expect(tokens, end, Kind::RParen)?;
    Ok((found, after))
}

/// Two expressions with a comparison between them, and the place behind them.
fn comparison(alloc: Global, tokens: &[PackedToken], at: usize) -> Result<(CondNode, usize), Stop>
    requires place { at ≤ reach (kinds_of tokens.now) }
    ensures reads { (κ : Owed) → EndsSum κ → ReadsOrStops (kinds_of tokens.now) at (Seq (Ref SumPart) (Seq cmp (Ref SumPart))) κ result }
    ensures forth { GoesForth (kinds_of tokens.now) at result }
    ensures tree { IfOk result (λ r. IsCondition tokens.now (condition_of_node r.0) at r.1) }
{
    let (left, sign) = sum(alloc, tokens, at)?;
    let Some(op) = comparison_at(tokens, sign) else {
        return Err(Stop::At(sign));
    };
    let (right, end) = sum(alloc, tokens, sign + 1)?;
    Ok((
        CondNode::Compare {
            op,
            left,
            right,
            sign,
        },
        end,
    ))
}
