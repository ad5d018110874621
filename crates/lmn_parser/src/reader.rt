ghost use Rattle.std.specs.Prelude.{◌≡◌, ℕ, ◌<◌, ◌≤◌, length, IfOk, slice_get, Some};
ghost use Rattle.lmn_parser_grammar.specs.Grammar.{Ref, Opt, some_of, TermPart, ClausePart, ClausesPart, arguments, membrane, tlist, item, list, body};
ghost use Rattle.lmn_parser_grammar.specs.Factored.{arrow, right_side, rule_tail};
ghost use Rattle.lmn_parser_grammar.specs.Reading.{Owed, NoArgs, NoMore, EndsItem, EndsList, EndsOptList, OnlyClosers, OnlyEnds};
ghost use Rattle.lmn_parser.specs.Parsing.{kinds_of};
ghost use Rattle.lmn_parser.specs.Outcomes.{GoesForth, ReadsOrStops, StaysOrGoesForth, reach};
ghost use Rattle.lmn_parser.specs.Syntax.{term_of, terms_of, item_of, items_of_nodes, clause_of, clauses_of, conditions_of};
ghost use Rattle.lmn_parser.specs.Trees.{IsTerm, IsTermList, IsArguments, IsTerms, IsItem, IsList, IsOptList, IsClause, IsHeads, IsWrittenRule, IsBody, IsMembrane, IsClauses};

use crate::guard::guard;
use crate::lookahead::{
    begins_atom, begins_clause, begins_list, begins_rule_tail, expect, is_at, is_label_at,
};
use crate::stop::Stop;
use crate::tree::{AtomNode, Clause, CondNode, Item, RuleNode, Term};
use lmn_base::Rows;
use lmn_lexer::{Kind, PackedToken};
use std::alloc::Global;

/// A term, and the place behind it.
#[cycle(reader)]
fn term(alloc: Global, tokens: &[PackedToken], at: usize) -> Result<(Term, usize), Stop>
    requires place { at ≤ reach (kinds_of tokens.now) }
    ensures reads { (κ : Owed) → NoArgs κ → ReadsOrStops (kinds_of tokens.now) at (Ref TermPart) κ result }
    ensures forth { GoesForth (kinds_of tokens.now) at result }
    ensures tree { IfOk result (λ r. IsTerm tokens.now (term_of r.0) at r.1) }
{
    if is_at(tokens, at, Kind::Link) {
        return Ok((Term::Link(at), at + 1));
    }
    if is_at(tokens, at, Kind::Context) {
        return Ok((Term::Context(at), at + 1));
    }
    if is_at(tokens, at, Kind::LBrace) {
        let (clauses, end) = membrane(alloc, tokens, at)?;
        return Ok((Term::Membrane(clauses), end));
    }
    if is_at(tokens, at, Kind::LBracket) {
        return term_list(alloc, tokens, at);
    }
    if !begins_atom(tokens, at) {
        return Err(Stop::At(at));
    }
    let (args, end) = arguments(alloc, tokens, at + 1)?;
    Ok((Term::Atom(AtomNode { token: at, args }), end))
}

/// A list in its brackets, and the place behind it.
#[cycle(reader)]
fn term_list(alloc: Global, tokens: &[PackedToken], at: usize) -> Result<(Term, usize), Stop>
    requires open { slice_get (kinds_of tokens.now) at ≡ Some Kind.LBracket }
    requires place { at < length tokens.now }
    requires inside { at < reach (kinds_of tokens.now) }
    ensures reads { (κ : Owed) → ReadsOrStops (kinds_of tokens.now) at tlist κ result }
    ensures forth { GoesForth (kinds_of tokens.now) at result }
    ensures tree { IfOk result (λ r. IsTermList tokens.now (term_of r.0) at r.1) }
{
    if is_at(tokens, at + 1, Kind::RBracket) {
        return Ok((Term::List(Rows::new(alloc), None), at + 2));
    }
    let (terms, end) = terms(alloc, tokens, at + 1)?;
    if is_at(tokens, end, Kind::Bar) {
        let (rest, end) = term(alloc, tokens, end + 1)?;
        let rest = Box::new(alloc, rest)?;
        let after = expect(tokens, end, Kind::RBracket)?;
        return Ok((Term::List(terms, Some(rest)), after));
    }
    let after = expect(tokens, end, Kind::RBracket)?;
    Ok((Term::List(terms, None), after))
}

/// The arguments of an atom in their parentheses, if it has any, and the place behind them.
#[cycle(reader)]
fn arguments(alloc: Global, tokens: &[PackedToken], at: usize) -> Result<(Rows<Term>, usize), Stop>
    requires place { at ≤ reach (kinds_of tokens.now) }
    ensures reads { (κ : Owed) → NoArgs κ → ReadsOrStops (kinds_of tokens.now) at (Opt arguments) κ result }
    ensures forth { StaysOrGoesForth (kinds_of tokens.now) at result }
    ensures tree { IfOk result (λ r. IsArguments tokens.now (terms_of r.0) at r.1) }
{
    if !is_at(tokens, at, Kind::LParen) {
        return Ok((Rows::new(alloc), at));
    }
    if is_at(tokens, at + 1, Kind::RParen) {
        return Ok((Rows::new(alloc), at + 2));
    }
    let (args, end) = terms(alloc, tokens, at + 1)?;
    let after = expect(tokens, end, Kind::RParen)?;
    Ok((args, after))
}

/// Terms with commas between them, and the place behind them.
#[cycle(reader)]
fn terms(alloc: Global, tokens: &[PackedToken], at: usize) -> Result<(Rows<Term>, usize), Stop>
    requires place { at ≤ reach (kinds_of tokens.now) }
    ensures reads { (κ : Owed) → NoMore κ → ReadsOrStops (kinds_of tokens.now) at (some_of (Ref TermPart)) κ result }
    ensures forth { GoesForth (kinds_of tokens.now) at result }
    ensures tree { IfOk result (λ r. IsTerms tokens.now (terms_of r.0) at r.1) }
{
    let mut terms = Rows::new(alloc);
    let (first, after) = term(alloc, tokens, at)?;
    terms.push(first)?;
    let mut end = after;
    'more: while is_at(tokens, end, Kind::Comma) {
        let (next, after) = term(alloc, tokens, end + 1)?;
        terms.push(next)?;
        end = after;
    }
    Ok((terms, end))
}

/// An item, and the place behind it.
#[cycle(reader)]
fn item(alloc: Global, tokens: &[PackedToken], at: usize) -> Result<(Item, usize), Stop>
    requires place { at ≤ reach (kinds_of tokens.now) }
    ensures reads { (κ : Owed) → EndsItem κ → ReadsOrStops (kinds_of tokens.now) at item κ result }
    ensures forth { GoesForth (kinds_of tokens.now) at result }
    ensures tree { IfOk result (λ r. IsItem tokens.now (item_of r.0) at r.1) }
{
    if is_at(tokens, at, Kind::RuleCtx) {
        return Ok((Item::RuleContext(at), at + 1));
    }
    if is_at(tokens, at, Kind::Plus) {
        let end = expect(tokens, at + 1, Kind::Link)?;
        return Ok((Item::Plus(at), end));
    }
    if is_at(tokens, at, Kind::LParen) {
        let (clause, end) = clause(alloc, tokens, at + 1)?;
        let clause = Box::new(alloc, clause)?;
        let after = expect(tokens, end, Kind::RParen)?;
        return Ok((Item::Group(clause), after));
    }
    if is_at(tokens, at, Kind::Context) {
        return context(alloc, tokens, at);
    }
    relation(alloc, tokens, at)
}

/// A context with what belongs to it, and the place behind it.
#[cycle(reader)]
fn context(alloc: Global, tokens: &[PackedToken], at: usize) -> Result<(Item, usize), Stop>
    requires context { slice_get (kinds_of tokens.now) at ≡ Some Kind.Context }
    requires place { at < length tokens.now }
    requires inside { at < reach (kinds_of tokens.now) }
    ensures reads { (κ : Owed) → EndsItem κ → ReadsOrStops (kinds_of tokens.now) at item κ result }
    ensures forth { GoesForth (kinds_of tokens.now) at result }
    ensures tree { IfOk result (λ r. IsItem tokens.now (item_of r.0) at r.1) }
{
    if is_at(tokens, at + 1, Kind::LBracket) {
        if is_at(tokens, at + 2, Kind::RBracket) {
            return Ok((Item::Closed(at), at + 3));
        }
        let end = expect(tokens, at + 2, Kind::Link)?;
        let after = expect(tokens, end, Kind::RBracket)?;
        return Ok((Item::Bracketed(at, at + 2), after));
    }
    if is_at(tokens, at + 1, Kind::Equal) {
        return equation(alloc, tokens, Term::Context(at), at + 1);
    }
    Ok((Item::Context(at), at + 1))
}

/// An atom, a membrane or an equation with another left side than a context, and the place behind it.
#[cycle(reader)]
fn relation(alloc: Global, tokens: &[PackedToken], at: usize) -> Result<(Item, usize), Stop>
    requires rule_context { slice_get (kinds_of tokens.now) at ≡ Some Kind.RuleCtx → ⊥ }
    requires plus { slice_get (kinds_of tokens.now) at ≡ Some Kind.Plus → ⊥ }
    requires group { slice_get (kinds_of tokens.now) at ≡ Some Kind.LParen → ⊥ }
    requires context { slice_get (kinds_of tokens.now) at ≡ Some Kind.Context → ⊥ }
    requires place { at ≤ reach (kinds_of tokens.now) }
    ensures reads { (κ : Owed) → EndsItem κ → ReadsOrStops (kinds_of tokens.now) at item κ result }
    ensures forth { GoesForth (kinds_of tokens.now) at result }
    ensures tree { IfOk result (λ r. IsItem tokens.now (item_of r.0) at r.1) }
{
    if begins_atom(tokens, at) {
        let (args, end) = arguments(alloc, tokens, at + 1)?;
        let node = AtomNode { token: at, args };
        if is_at(tokens, end, Kind::Equal) {
            return equation(alloc, tokens, Term::Atom(node), end);
        }
        return Ok((Item::Atom(node), end));
    }
    if is_at(tokens, at, Kind::LBrace) {
        let (clauses, end) = membrane(alloc, tokens, at)?;
        if is_at(tokens, end, Kind::Equal) {
            return equation(alloc, tokens, Term::Membrane(clauses), end);
        }
        return Ok((Item::Membrane(clauses), end));
    }
    if is_at(tokens, at, Kind::Link) {
        return equation(alloc, tokens, Term::Link(at), at + 1);
    }
    if !is_at(tokens, at, Kind::LBracket) {
        return Err(Stop::At(at));
    }
    let (list, end) = term_list(alloc, tokens, at)?;
    equation(alloc, tokens, list, end)
}

/// The equation with this term left of its `=`, and the place behind it.
#[cycle(reader)]
fn equation(
    alloc: Global,
    tokens: &[PackedToken],
    left: Term,
    sign: usize,
) -> Result<(Item, usize), Stop>
    requires place { sign ≤ reach (kinds_of tokens.now) }
    ensures reads { (κ : Owed) → NoArgs κ → ReadsOrStops (kinds_of tokens.now) sign right_side κ result }
    ensures forth { GoesForth (kinds_of tokens.now) sign result }
    ensures tree { (start : ℕ) → IsTerm tokens.now (term_of left) start sign → IfOk result (λ r. IsItem tokens.now (item_of r.0) start r.1) }
{
    let left = Box::new(alloc, left)?;
    let start = expect(tokens, sign, Kind::Equal)?;
    let (right, end) = term(alloc, tokens, start)?;
    let right = Box::new(alloc, right)?;
    Ok((Item::Equal(left, sign, right), end))
}

/// Items with commas between them, and the place behind them.
#[cycle(reader)]
fn list(alloc: Global, tokens: &[PackedToken], at: usize) -> Result<(Rows<Item>, usize), Stop>
    requires place { at ≤ reach (kinds_of tokens.now) }
    ensures reads { (κ : Owed) → EndsList κ → ReadsOrStops (kinds_of tokens.now) at list κ result }
    ensures forth { GoesForth (kinds_of tokens.now) at result }
    ensures tree { IfOk result (λ r. IsList tokens.now (items_of_nodes r.0) at r.1) }
{
    let mut items = Rows::new(alloc);
    let (first, after) = item(alloc, tokens, at)?;
    items.push(first)?;
    let mut end = after;
    'more: while is_at(tokens, end, Kind::Comma) {
        let (next, after) = item(alloc, tokens, end + 1)?;
        items.push(next)?;
        end = after;
    }
    Ok((items, end))
}

/// The list at a place, empty where none begins there, and the place behind it.
#[cycle(reader)]
fn items(alloc: Global, tokens: &[PackedToken], at: usize) -> Result<(Rows<Item>, usize), Stop>
    requires place { at ≤ reach (kinds_of tokens.now) }
    ensures reads { (κ : Owed) → EndsOptList κ → ReadsOrStops (kinds_of tokens.now) at (Opt list) κ result }
    ensures forth { StaysOrGoesForth (kinds_of tokens.now) at result }
    ensures tree { IfOk result (λ r. IsOptList tokens.now (items_of_nodes r.0) at r.1) }
{
    if !begins_list(tokens, at) {
        return Ok((Rows::new(alloc), at));
    }
    list(alloc, tokens, at)
}

/// A rule or items, and the place behind them.
/// Behind `:-` a guard is attempted up to its `|`; where that fails a list is read from the same place, and of the
/// two the one that goes farther counts. An attempt stops at the next `:-`, so no token is gone over more than twice.
#[cycle(reader)]
fn clause(alloc: Global, tokens: &[PackedToken], at: usize) -> Result<(Clause, usize), Stop>
    requires place { at ≤ reach (kinds_of tokens.now) }
    ensures reads { (κ : Owed) → OnlyClosers κ → ReadsOrStops (kinds_of tokens.now) at (Ref ClausePart) κ result }
    ensures forth { GoesForth (kinds_of tokens.now) at result }
    ensures tree { IfOk result (λ r. IsClause tokens.now (clause_of r.0) at r.1) }
{
    if is_label_at(tokens, at) {
        let (first, end) = items(alloc, tokens, at + 2)?;
        return rule(alloc, tokens, at, first, end);
    }
    if !begins_list(tokens, at) {
        return rule(alloc, tokens, at, Rows::new(alloc), at);
    }
    let (first, end) = list(alloc, tokens, at)?;
    if begins_rule_tail(tokens, end) {
        return rule(alloc, tokens, at, first, end);
    }
    Ok((Clause::Process(first), end))
}

/// The rule that begins at `start` with these items, and the place behind it.
#[cycle(reader)]
fn rule(
    alloc: Global,
    tokens: &[PackedToken],
    start: usize,
    first: Rows<Item>,
    at: usize,
) -> Result<(Clause, usize), Stop>
    requires start { start ≤ at }
    requires place { at ≤ reach (kinds_of tokens.now) }
    ensures reads { (κ : Owed) → OnlyClosers κ → ReadsOrStops (kinds_of tokens.now) at rule_tail κ result }
    ensures forth { GoesForth (kinds_of tokens.now) at result }
    ensures tree { (heads : ℕ) → IsOptList tokens.now (items_of_nodes first) heads at → IfOk result (λ r. IsWrittenRule tokens.now start (clause_of r.0) heads r.1) }
{
    if is_at(tokens, at, Kind::Backslash) {
        let (taken, arrow) = items(alloc, tokens, at + 1)?;
        return headed_rule(alloc, tokens, start, first, taken, arrow);
    }
    let kept = Rows::new(alloc);
    headed_rule(alloc, tokens, start, kept, first, at)
}

/// The rule that begins at `start` with this head, and the place behind it.
#[cycle(reader)]
fn headed_rule(
    alloc: Global,
    tokens: &[PackedToken],
    start: usize,
    kept: Rows<Item>,
    taken: Rows<Item>,
    at: usize,
) -> Result<(Clause, usize), Stop>
    requires start { start ≤ at }
    requires place { at ≤ reach (kinds_of tokens.now) }
    ensures reads { (κ : Owed) → OnlyClosers κ → ReadsOrStops (kinds_of tokens.now) at arrow κ result }
    ensures forth { GoesForth (kinds_of tokens.now) at result }
    ensures tree { (heads : ℕ) → IsHeads tokens.now (items_of_nodes kept) (items_of_nodes taken) heads at → IfOk result (λ r. IsWrittenRule tokens.now start (clause_of r.0) heads r.1) }
{
    let body_at = expect(tokens, at, Kind::Arrow)?;
    let ((guard, body), end) = guarded_body(alloc, tokens, body_at)?;
    let pos = tokens[start].pos();
    let node = Box::new(
        alloc,
        RuleNode {
            kept,
            taken,
            guard,
            body,
            pos,
        },
    )?;
    Ok((Clause::Rule(node), end))
}

/// The guard and the body of a rule, and the place behind them. Where the guard isn't read to its `|`,
/// there may be a body alone; of the two readings the one that goes farther counts.
#[cycle(reader)]
fn guarded_body(
    alloc: Global,
    tokens: &[PackedToken],
    at: usize,
) -> Result<((Rows<CondNode>, Rows<Item>), usize), Stop>
    requires place { at ≤ reach (kinds_of tokens.now) }
    ensures reads { (κ : Owed) → OnlyClosers κ → ReadsOrStops (kinds_of tokens.now) at body κ result }
    ensures forth { StaysOrGoesForth (kinds_of tokens.now) at result }
    ensures tree { IfOk result (λ r. IsBody tokens.now (conditions_of r.0.0) (items_of_nodes r.0.1) at r.1) }
{
    if is_at(tokens, at, Kind::Bar) {
        let (body, end) = items(alloc, tokens, at + 1)?;
        return Ok(((Rows::new(alloc), body), end));
    }
    match guard(alloc, tokens, at) {
        Ok((guard, start)) => {
            let (body, end) = items(alloc, tokens, start)?;
            Ok(((guard, body), end))
        }
        Err(Stop::NoMemory) => Err(Stop::NoMemory),
        Err(Stop::At(guard_stop)) => match items(alloc, tokens, at) {
            Ok((body, end)) => {
                if end < guard_stop {
                    return Err(Stop::At(guard_stop));
                }
                Ok(((Rows::new(alloc), body), end))
            }
            Err(Stop::NoMemory) => Err(Stop::NoMemory),
            Err(Stop::At(body_stop)) => Err(Stop::At(guard_stop.max(body_stop))),
        },
    }
}

/// A membrane, and the place behind it.
#[cycle(reader)]
fn membrane(alloc: Global, tokens: &[PackedToken], at: usize) -> Result<(Rows<Clause>, usize), Stop>
    requires open { slice_get (kinds_of tokens.now) at ≡ Some Kind.LBrace }
    requires place { at < length tokens.now }
    requires inside { at < reach (kinds_of tokens.now) }
    ensures reads { (κ : Owed) → ReadsOrStops (kinds_of tokens.now) at membrane κ result }
    ensures forth { GoesForth (kinds_of tokens.now) at result }
    ensures tree { IfOk result (λ r. IsMembrane tokens.now (clauses_of r.0) at r.1) }
{
    let (clauses, end) = clauses(alloc, tokens, at + 1)?;
    let after = expect(tokens, end, Kind::RBrace)?;
    Ok((clauses, after))
}

/// Clauses with full stops between them, and the place behind them.
#[cycle(reader)]
pub(crate) fn clauses(
    alloc: Global,
    tokens: &[PackedToken],
    at: usize,
) -> Result<(Rows<Clause>, usize), Stop>
    requires place { at ≤ reach (kinds_of tokens.now) }
    ensures reads { (κ : Owed) → OnlyEnds κ → ReadsOrStops (kinds_of tokens.now) at (Ref ClausesPart) κ result }
    ensures forth { StaysOrGoesForth (kinds_of tokens.now) at result }
    ensures tree { IfOk result (λ r. IsClauses tokens.now (clauses_of r.0) at r.1) }
{
    let mut clauses = Rows::new(alloc);
    if !begins_clause(tokens, at) {
        return Ok((clauses, at));
    }
    let (first, after) = clause(alloc, tokens, at)?;
    clauses.push(first)?;
    let mut end = after;
    'more: while is_at(tokens, end, Kind::Dot) {
        if !begins_clause(tokens, end + 1) {
            return Ok((clauses, end + 1));
        }
        let (next, after) = clause(alloc, tokens, end + 1)?;
        clauses.push(next)?;
        end = after;
    }
    Ok((clauses, end))
}
