//! From the tree of a text to its plain: every abbreviation expanded, links by numbers, rules in a table.
#![tactic(auto)]

ghost use Rattle.std.specs.Prelude.{◌≡◌, ◌+◌, ◌≤◌, ◌^◌, [], ◌∷◌, length, MatchResult};
ghost use Rattle.lmn_base.specs.declared.rule.Plain.{Plain};
ghost use Rattle.lmn_base.specs.Firsts.{NoneApplies, RefusedBy};
ghost use Rattle.lmn_base.specs.Refusals.{IfRefused};
ghost use Rattle.lmn_lexer.specs.Faults.{NothingWrong};
ghost use Rattle.lmn_lexer.specs.Laying.{words_of};
ghost use Rattle.lmn_parser.specs.Readings.{Reads};
ghost use Rattle.lmn_parser.specs.Syntax.{clauses_of_tree};
ghost use Rattle.lmn_flatten_plain.specs.Laws.{IsPlain};
ghost use Rattle.lmn_flatten.specs.Glossaries.{GrowsBy};
ghost use Rattle.lmn_flatten.specs.NameLists.{names_read};
ghost use Rattle.lmn_flatten.specs.Outside.{outside_rules};

mod glossary;
mod guard;
mod kept;
mod number;
mod part;
mod scope;
mod walk;

use crate::glossary::Glossary;
use crate::walk::expanded;
use lmn_base::{Names, Plain, RefusalCode, TextFault, refuse};
use lmn_flatten_numbers::first_outside;
use lmn_lexer::Tokens;
use lmn_parser::Tree;
pub use number::narrow;
use std::alloc::Global;

/// The plain of a tree.
/// Nothing is asked of the tree: where it breaks what trees of the parser keep (a context that spells no name, more
/// links than an atom or a table can have) the answer is want of memory. No law says yet that this never comes of a
/// text.
pub fn flatten(
    alloc: Global,
    text: &[u8],
    tokens: &Tokens,
    tree: &Tree,
    names: &mut Names,
) -> Result<Plain, TextFault>
    requires right { NothingWrong text.now }
    requires reads { Reads text.now tokens.now (clauses_of_tree tree.now) }
    requires room { length names.old + (length tokens.now + 3) ≤ 2 ^ 32 }
    ensures grows { GrowsBy (length tokens.now + 3) names.old names.new }
    ensures names { MatchResult result (λ plain. names.new ≡ names_read names.old (words_of text.now tokens.now))
        (λ fault. IfRefused fault (λ refusal. names.new ≡ names_read names.old (words_of text.now tokens.now))) }
    ensures plain { let is_read = IsPlain text.now tokens.now (clauses_of_tree tree.now) names.new in MatchResult result
        (λ p. is_read p × NoneApplies (outside_rules p.top ∷ []))
        (λ fault. IfRefused fault (λ refusal. (p : Plain) × is_read p × RefusedBy (outside_rules p.top ∷ []) refusal)) }
{
    let glossary = Glossary::read(alloc, text, tokens, names)?;
    let plain = expanded(glossary, tree)?;
    match refuse(RefusalCode::ContextOutsideRule, first_outside(&plain.top)) {
        Ok(()) => Ok(plain),
        Err(refusal) => Err(TextFault::Refused(refusal)),
    }
}
