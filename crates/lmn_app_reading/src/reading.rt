ghost use Rattle.std.specs.Prelude.{◌≡◌, ◌+◌, ◌≤◌, ◌<◌, ◌^◌, length, slice_get, Some, MatchResult};
ghost use Rattle.std.specs.List.{AllZip};
ghost use Rattle.lmn_base.specs.declared.rule.RuleTree.{RuleTree};
ghost use Rattle.lmn_base.specs.Firsts.{NoneApplies, RefusedBy};
ghost use Rattle.lmn_base.specs.Refusals.{IfRefused};
ghost use Rattle.lmn_flatten.specs.Glossaries.{GrowsBy};
ghost use Rattle.lmn_guards.specs.Plans.{IsPlan};
ghost use Rattle.lmn_lexer.specs.Cutting.{Cuts};
ghost use Rattle.lmn_lexer.specs.Faults.{NothingWrong};
ghost use Rattle.lmn_app_reading.specs.Texts.{IsAcceptedAs, IsPlainOrRefusal, IsRefusedAs, LeavesNamesWith, rows_of_rule, rows_of_rules};

use lmn_base::{Names, Plain, Rows, TextFault};
use lmn_contexts::check_rule;
use lmn_flatten::{flatten, narrow};
use lmn_guards::{GuardPlan, analyse};
use lmn_lexer::{Tokens, lex};
use lmn_linkcheck::check_links;
use lmn_parser::parse;
use std::alloc::Global;

/// What is read of a text that is accepted.
pub struct Accepted {
    /// The text with every abbreviation expanded.
    pub plain: Plain,
    /// What the guard of each rule says of its contexts, by the numbers of the rules.
    pub plans: Rows<GuardPlan>,
}

// By hand, so that a crate above calls this and proves nothing of how what was read is freed.
impl Drop for Accepted {
    fn drop(self) {
        let Accepted { plain: _, plans: _ } = self;
    }
}

/// Reads a text. Its names go to the end of the list, but for those that it holds already. There must be room for as many
/// names as the text has bytes, and four: a list holds no more than 2^32.
///
/// # Errors
///
/// A text is refused by the first of these that applies: a code from 2 to 9 at the first place where the text has no
/// token or a wrong one; 10 to 12 at the first token with which it is no program within the limits; 39 at the first
/// context outside every rule; 20 to 23 at the least place of a link that occurs once or too often; and then, rule after
/// rule by rising place, the codes of its size, its head, its contexts and its guard. `NoMemory` says nothing of the text.
pub fn read(alloc: Global, text: &[u8], names: &mut Names) -> Result<Accepted, TextFault>
    requires room { length names.old + (length text.now + 4) ≤ 2 ^ 32 }
    ensures grows { GrowsBy (length text.now + 4) names.old names.new }
    ensures names { LeavesNamesWith result text.now names.old names.new }
    ensures reads { MatchResult result
        (λ accepted. IsAcceptedAs text.now names.new accepted.plain accepted.plans)
        (λ fault. IfRefused fault (IsRefusedAs text.now names.new)) }
{
    let plain = plain_of(alloc, text, names)?;
    match check_links(&plain) {
        Err(refusal) => Err(TextFault::Refused(refusal)),
        Ok(()) => with_plans(alloc, plain, names),
    }
}

/// The plain with the plans of its rules.
fn with_plans(alloc: Global, plain: Plain, names: &Names) -> Result<Accepted, TextFault>
    ensures { MatchResult result
        (λ accepted. (accepted.plain ≡ plain) × NoneApplies (rows_of_rules plain) × AllZip IsPlan plain.rules accepted.plans)
        (λ fault. IfRefused fault (RefusedBy (rows_of_rules plain))) }
{
    let plans = plans_of(alloc, &plain, names)?;
    Ok(Accepted { plain, plans })
}

/// The plain of a text in which no context stands outside every rule.
fn plain_of(alloc: Global, text: &[u8], names: &mut Names) -> Result<Plain, TextFault>
    requires room { length names.old + (length text.now + 4) ≤ 2 ^ 32 }
    ensures grows { GrowsBy (length text.now + 4) names.old names.new }
    ensures names { LeavesNamesWith result text.now names.old names.new }
    ensures reads { IsPlainOrRefusal result text.now names.new }
{
    match lex(alloc, text) {
        Err(fault) => Err(fault),
        Ok(tokens) => plain_of_tokens(alloc, text, &tokens, names),
    }
}

/// The plain of a text that is cut into these tokens, in which nothing is wrong.
fn plain_of_tokens(
    alloc: Global,
    text: &[u8],
    tokens: &Tokens,
    names: &mut Names,
) -> Result<Plain, TextFault>
    requires right { NothingWrong text.now }
    requires cut { Cuts text.now tokens.now }
    requires room { length names.old + (length tokens.now + 3) ≤ 2 ^ 32 }
    ensures grows { GrowsBy (length tokens.now + 3) names.old names.new }
    ensures names { LeavesNamesWith result text.now names.old names.new }
    ensures reads { IsPlainOrRefusal result text.now names.new }
{
    match parse(alloc, tokens) {
        Err(fault) => Err(fault),
        Ok(tree) => flatten(alloc, text, tokens, &tree, names),
    }
}

/// The plans of the rules of a plain, or the first code that refuses one of them.
fn plans_of(alloc: Global, plain: &Plain, names: &Names) -> Result<Rows<GuardPlan>, TextFault>
    ensures { MatchResult result
        (λ plans. NoneApplies (rows_of_rules plain.now) × AllZip IsPlan plain.now.rules plans)
        (λ fault. IfRefused fault (RefusedBy (rows_of_rules plain.now))) }
{
    let mut plans = Rows::new(alloc);
    for number in 0..plain.rules.len() {
        match plan_of(alloc, plain, number, names) {
            Err(fault) => return Err(fault),
            Ok(plan) => plans.push(plan)?,
        }
    }
    Ok(plans)
}

/// The plan of the rule with a number, or the first code that refuses it.
fn plan_of(
    alloc: Global,
    plain: &Plain,
    number: usize,
    names: &Names,
) -> Result<GuardPlan, TextFault>
    requires { number < length plain.now.rules }
    ensures { MatchResult result
        (λ plan. (rule : RuleTree) → slice_get plain.now.rules number ≡ Some rule → NoneApplies (rows_of_rule plain.now.rules rule) × IsPlan rule plan)
        (λ fault. IfRefused fault (λ refusal. (rule : RuleTree) → slice_get plain.now.rules number ≡ Some rule → RefusedBy (rows_of_rule plain.now.rules rule) refusal)) }
{
    let narrow = narrow(number)?;
    match check_rule(plain, narrow) {
        Err(refusal) => Err(TextFault::Refused(refusal)),
        Ok(()) => analyse(alloc, plain.rules.at(number), names),
    }
}
