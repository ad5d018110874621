ghost use Rattle.std.specs.Prelude.{◌≡◌, map, IfOk};
ghost use Rattle.std.specs.List.{AllZip};
ghost use Rattle.lmn_parser.specs.Syntax.{Expr as WrittenExpr, called, compared, condition_of_node, conditions_of, different, equal, expr_of, operation};
ghost use Rattle.lmn_flatten_plain.specs.Plains.{IsCond, IsExpr, context_use};
ghost use Rattle.lmn_flatten.specs.Glossaries.{Reading, IsGlossary};

use crate::glossary::Glossary;
use lmn_base::{Arith, Cmp, Cond, CtxUse, Expr, NoMemory, Rows};
use lmn_parser::{CondNode, ExprNode};
use std::alloc::Global;

/// The conditions of a guard.
pub(crate) fn conditions(glossary: &Glossary, nodes: &[CondNode]) -> Result<Rows<Cond>, NoMemory>
    ensures { IfOk result (λ made. (r : Reading) → IsGlossary r glossary.now → AllZip (IsCond r.words r.places r.names) (conditions_of nodes.now) made) }
{
    let mut conditions = Rows::new(glossary.alloc);
    for node in nodes {
        let condition = condition(glossary, node)?;
        conditions.push(condition)?;
    }
    Ok(conditions)
}

/// A condition.
fn condition(glossary: &Glossary, node: &CondNode) -> Result<Cond, NoMemory>
    ensures { IfOk result (λ made. (r : Reading) → IsGlossary r glossary.now → IsCond r.words r.places r.names (condition_of_node node.now) made) }
{
    match node {
        CondNode::Kind { name, args } => called(glossary, *name, args.as_slice()),
        CondNode::Compare {
            op,
            left,
            right,
            sign,
        } => compared(glossary, *op, left, right, *sign),
        CondNode::Equal { left, right, sign } => equal(glossary, *left, right, *sign),
        CondNode::Differ { left, right, sign } => different(glossary, *left, *right, *sign),
    }
}

/// A condition with a name.
fn called(glossary: &Glossary, name: usize, args: &[usize]) -> Result<Cond, NoMemory>
    ensures { IfOk result (λ made. (r : Reading) → IsGlossary r glossary.now → IsCond r.words r.places r.names (called name args.now) made) }
{
    let pos = glossary.place(name)?;
    let name = glossary.name(name)?;
    let args = contexts(glossary, args)?;
    Ok(Cond::Kind { name, args, pos })
}

/// A comparison of two expressions.
fn compared(
    glossary: &Glossary,
    op: Cmp,
    left: &ExprNode,
    right: &ExprNode,
    sign: usize,
) -> Result<Cond, NoMemory>
    ensures { IfOk result (λ made. (r : Reading) → IsGlossary r glossary.now → IsCond r.words r.places r.names (compared op (expr_of left.now) (expr_of right.now) sign) made) }
{
    let pos = glossary.place(sign)?;
    let left = expression(glossary, left)?;
    let right = expression(glossary, right)?;
    Ok(Cond::Compare {
        op,
        left,
        right,
        pos,
    })
}

/// That a context is an expression.
fn equal(glossary: &Glossary, left: usize, right: &ExprNode, sign: usize) -> Result<Cond, NoMemory>
    ensures { IfOk result (λ made. (r : Reading) → IsGlossary r glossary.now → IsCond r.words r.places r.names (equal left (expr_of right.now) sign) made) }
{
    let left = glossary.context(left)?;
    let pos = glossary.place(sign)?;
    let right = expression(glossary, right)?;
    Ok(Cond::Equal { left, right, pos })
}

/// That two contexts differ.
fn different(glossary: &Glossary, left: usize, right: usize, sign: usize) -> Result<Cond, NoMemory>
    ensures { IfOk result (λ made. (r : Reading) → IsGlossary r glossary.now → IsCond r.words r.places r.names (different left right sign) made) }
{
    let left = glossary.context(left)?;
    let right = glossary.context(right)?;
    let pos = glossary.place(sign)?;
    Ok(Cond::Differ { left, right, pos })
}

/// The contexts of a condition with a name.
fn contexts(glossary: &Glossary, tokens: &[usize]) -> Result<Rows<CtxUse>, NoMemory>
    ensures { IfOk result (λ made. (r : Reading) → IsGlossary r glossary.now → made ≡ map (context_use r.words r.places r.names) tokens.now) }
{
    let mut contexts = Rows::new(glossary.alloc);
    for token in tokens {
        let context = glossary.context(*token)?;
        contexts.push(context)?;
    }
    Ok(contexts)
}

/// An expression.
fn expression(glossary: &Glossary, node: &ExprNode) -> Result<Expr, NoMemory>
    ensures { IfOk result (λ made. (r : Reading) → IsGlossary r glossary.now → IsExpr r.words r.places r.names (expr_of node.now) made) }
{
    match node {
        ExprNode::Int(token) => {
            let value = glossary.integer(*token)?;
            Ok(Expr::Int(value))
        }
        ExprNode::Ctx(token) => {
            let context = glossary.context(*token)?;
            Ok(Expr::Ctx(context))
        }
        ExprNode::Op { op, left, right } => {
            let left = expression(glossary, left)?;
            let right = expression(glossary, right)?;
            operation(glossary.alloc, *op, left, right)
        }
    }
}

/// Two expressions with an operator between them.
fn operation(alloc: Global, op: Arith, left: Expr, right: Expr) -> Result<Expr, NoMemory>
    ensures { IfOk result (λ made. (r : Reading) (a b : WrittenExpr) → IsExpr r.words r.places r.names a left → IsExpr r.words r.places r.names b right
        → IsExpr r.words r.places r.names (operation op a b) made) }
{
    let left = Box::new(alloc, left)?;
    let right = Box::new(alloc, right)?;
    Ok(Expr::Op { op, left, right })
}
