ghost use Rattle.std.specs.Prelude.{◌≡◌, ◌≢◌, ◌<◌, ◌≤◌, ◌↔◌, ◌+◌, IsTrue, IsFalse, true, slice_get, length, IfOk, IfSome, IsSome, Some, is_some};
ghost use Rattle.lmn_parser_grammar.specs.Grammar.{Ref, Tok, ClausePart, cmp, list, name};
ghost use Rattle.lmn_parser_grammar.specs.Factored.{atom_name, plus, rule_tail, product_sign};
ghost use Rattle.lmn_parser_grammar.specs.Reading.{Owed, begins};
ghost use Rattle.lmn_parser.specs.Parsing.{kinds_of};
ghost use Rattle.lmn_parser.specs.Outcomes.{TakesOrStops, reach};
ghost use Rattle.lmn_parser.specs.Trees.{At, PlusAt, TimesAt, CmpAt};

use crate::stop::Stop;
use lmn_base::{Arith, Cmp};
use lmn_lexer::{Kind, PackedToken};

/// The kind of the token at a place, if there is one.
fn kind_at(tokens: &[PackedToken], at: usize) -> Option<Kind>
    ensures kind { result ≡ slice_get (kinds_of tokens.now) at }
    ensures within { IsSome result → at < length tokens.now }
{
    match tokens.get(at) {
        Some(token) => Some(token.kind()),
        None => None,
    }
}

/// Whether there is a token of this kind at a place.
pub(crate) fn is_at(tokens: &[PackedToken], at: usize, kind: Kind) -> bool
    ensures kind { IsTrue result ↔ (slice_get (kinds_of tokens.now) at ≡ Some kind) }
    ensures within { IsTrue result → at < length tokens.now }
    ensures inside { kind ≢ Kind.End → IsTrue result → at < reach (kinds_of tokens.now) }
{
    kind_at(tokens, at) == Some(kind)
}

/// Whether a name stands at a place.
pub(crate) fn is_name_at(tokens: &[PackedToken], at: usize) -> bool
    ensures kind { result ≡ begins name (slice_get (kinds_of tokens.now) at) }
    ensures within { IsTrue result → at < length tokens.now }
    ensures inside { IsTrue result → at < reach (kinds_of tokens.now) }
{
    is_at(tokens, at, Kind::Name) || is_at(tokens, at, Kind::Quoted) || is_at(tokens, at, Kind::Mod)
}

/// Whether an atom begins at a place.
pub(crate) fn begins_atom(tokens: &[PackedToken], at: usize) -> bool
    ensures kind { result ≡ begins atom_name (slice_get (kinds_of tokens.now) at) }
    ensures within { IsTrue result → at < length tokens.now }
    ensures inside { IsTrue result → at < reach (kinds_of tokens.now) }
{
    is_name_at(tokens, at) || is_at(tokens, at, Kind::Int)
}

/// Whether a list begins at a place.
pub(crate) fn begins_list(tokens: &[PackedToken], at: usize) -> bool
    ensures kind { result ≡ begins list (slice_get (kinds_of tokens.now) at) }
    ensures within { IsTrue result → at < length tokens.now }
    ensures inside { IsTrue result → at < reach (kinds_of tokens.now) }
{
    begins_atom(tokens, at)
        || is_at(tokens, at, Kind::LBrace)
        || is_at(tokens, at, Kind::Context)
        || is_at(tokens, at, Kind::RuleCtx)
        || is_at(tokens, at, Kind::Plus)
        || is_at(tokens, at, Kind::LParen)
        || is_at(tokens, at, Kind::Link)
        || is_at(tokens, at, Kind::LBracket)
}

/// Whether a clause begins at a place.
pub(crate) fn begins_clause(tokens: &[PackedToken], at: usize) -> bool
    ensures kind { result ≡ begins (Ref ClausePart) (slice_get (kinds_of tokens.now) at) }
    ensures within { IsTrue result → at < length tokens.now }
    ensures inside { IsTrue result → at < reach (kinds_of tokens.now) }
{
    begins_list(tokens, at) || begins_rule_tail(tokens, at)
}

/// Whether two tokens of these kinds stand from a place on.
pub(crate) fn is_pair_at(tokens: &[PackedToken], at: usize, first: Kind, second: Kind) -> bool
    ensures first { IsTrue result → slice_get (kinds_of tokens.now) at ≡ Some first }
    ensures second { IsTrue result → slice_get (kinds_of tokens.now) (at + 1) ≡ Some second }
    ensures other { IsFalse result → slice_get (kinds_of tokens.now) at ≡ Some first → slice_get (kinds_of tokens.now) (at + 1) ≡ Some second → ⊥ }
    ensures within { IsTrue result → at + 2 ≤ length tokens.now }
    ensures inside { second ≢ Kind.End → IsTrue result → at + 2 ≤ reach (kinds_of tokens.now) }
{
    is_at(tokens, at, first) && is_at(tokens, at + 1, second)
}

/// Whether the name of a rule and its `@@` stand at a place.
pub(crate) fn is_label_at(tokens: &[PackedToken], at: usize) -> bool
    ensures name { IsTrue result → begins name (slice_get (kinds_of tokens.now) at) ≡ true }
    ensures sign { IsTrue result → slice_get (kinds_of tokens.now) (at + 1) ≡ Some Kind.AtAt }
    ensures other { IsFalse result → begins name (slice_get (kinds_of tokens.now) at) ≡ true → slice_get (kinds_of tokens.now) (at + 1) ≡ Some Kind.AtAt → ⊥ }
    ensures within { IsTrue result → at + 2 ≤ length tokens.now }
    ensures inside { IsTrue result → at + 2 ≤ reach (kinds_of tokens.now) }
{
    is_name_at(tokens, at) && is_at(tokens, at + 1, Kind::AtAt)
}

/// Whether the rest of a rule behind its first items begins at a place.
pub(crate) fn begins_rule_tail(tokens: &[PackedToken], at: usize) -> bool
    ensures kind { result ≡ begins rule_tail (slice_get (kinds_of tokens.now) at) }
    ensures within { IsTrue result → at < length tokens.now }
    ensures inside { IsTrue result → at < reach (kinds_of tokens.now) }
{
    is_at(tokens, at, Kind::Backslash) || is_at(tokens, at, Kind::Arrow)
}

/// The place behind a token of this kind.
pub(crate) fn expect(tokens: &[PackedToken], at: usize, kind: Kind) -> Result<usize, Stop>
    requires place { at ≤ reach (kinds_of tokens.now) }
    ensures reads { (κ : Owed) → TakesOrStops (kinds_of tokens.now) at (Tok kind) κ result }
    ensures forth { IfOk result (λ end. (at < end) × (end ≤ length tokens.now)) }
    ensures inside { kind ≢ Kind.End → IfOk result (λ end. end ≤ reach (kinds_of tokens.now)) }
    ensures found { IfOk result (λ end. (end ≡ at + 1) × At tokens.now at kind) }
{
    if !is_at(tokens, at, kind) {
        return Err(Stop::At(at));
    }
    Ok(at + 1)
}

/// The operator of a sum at a place.
pub(crate) fn sum_operator(tokens: &[PackedToken], at: usize) -> Option<Arith>
    ensures kind { is_some result ≡ begins plus (slice_get (kinds_of tokens.now) at) }
    ensures within { IfSome result (λ _. at < length tokens.now) }
    ensures inside { IfSome result (λ _. at < reach (kinds_of tokens.now)) }
    ensures operator { IfSome result (PlusAt tokens.now at) }
{
    if is_at(tokens, at, Kind::Plus) {
        return Some(Arith::Add);
    }
    if is_at(tokens, at, Kind::Minus) {
        return Some(Arith::Sub);
    }
    None
}

/// The operator of a product at a place.
pub(crate) fn product_operator(tokens: &[PackedToken], at: usize) -> Option<Arith>
    ensures kind { is_some result ≡ begins product_sign (slice_get (kinds_of tokens.now) at) }
    ensures within { IfSome result (λ _. at < length tokens.now) }
    ensures inside { IfSome result (λ _. at < reach (kinds_of tokens.now)) }
    ensures operator { IfSome result (TimesAt tokens.now at) }
{
    if is_at(tokens, at, Kind::Star) {
        return Some(Arith::Mul);
    }
    if is_at(tokens, at, Kind::Slash) {
        return Some(Arith::Div);
    }
    if is_at(tokens, at, Kind::Mod) {
        return Some(Arith::Mod);
    }
    None
}

/// The comparison at a place.
pub(crate) fn comparison_at(tokens: &[PackedToken], at: usize) -> Option<Cmp>
    ensures kind { is_some result ≡ begins cmp (slice_get (kinds_of tokens.now) at) }
    ensures within { IfSome result (λ _. at < length tokens.now) }
    ensures inside { IfSome result (λ _. at < reach (kinds_of tokens.now)) }
    ensures operator { IfSome result (CmpAt tokens.now at) }
{
    if is_at(tokens, at, Kind::Less) {
        return Some(Cmp::Lt);
    }
    if is_at(tokens, at, Kind::LessEq) {
        return Some(Cmp::Le);
    }
    if is_at(tokens, at, Kind::Greater) {
        return Some(Cmp::Gt);
    }
    if is_at(tokens, at, Kind::GreaterEq) {
        return Some(Cmp::Ge);
    }
    if is_at(tokens, at, Kind::NumEq) {
        return Some(Cmp::Eq);
    }
    if is_at(tokens, at, Kind::NumNe) {
        return Some(Cmp::Ne);
    }
    None
}
