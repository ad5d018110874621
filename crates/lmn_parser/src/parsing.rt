ghost use Rattle.std.specs.Prelude.{◌<◌, length, IfErr, IfOk, OnOk, Some};
ghost use Rattle.lmn_parser_grammar.specs.Grammar as grammar;
ghost use Rattle.lmn_parser_grammar.specs.Refusing.{IsRefused, IsWithin};
ghost use Rattle.lmn_parser.specs.Faults.{IsFaultOf, AreKindsOfProgram};
ghost use Rattle.lmn_parser.specs.Parsing.{kinds_of, EndsWithEnd};
ghost use Rattle.lmn_parser.specs.Outcomes.{ReadsWhole};
ghost use Rattle.lmn_parser.specs.Scans.{IsFirstPassing};
ghost use Rattle.lmn_parser.specs.Syntax.{clauses_of, clauses_of_tree};
ghost use Rattle.lmn_parser.specs.Trees.{IsProgram};

use crate::limits::{Passing, first_passing};
use crate::lookahead::expect;
use crate::reader::clauses;
use crate::stop::Stop;
use crate::tree::{Clause, Tree};
use lmn_base::{Refusal, RefusalCode, Rows, TextFault};
use lmn_lexer::{Kind, PackedToken, Tokens};
use std::alloc::Global;

const UNEXPECTED: u8 = RefusalCode::UnexpectedToken as u8;

/// The tree of the tokens, the last of which is `End`. They are refused at the first token with which they
/// begin no program, by E10, or that passes a limit, by E11 or E12; the place is that of the token. What stands behind an
/// `End` begins no program.
/// `NoMemory` says nothing of them.
pub fn parse(alloc: Global, tokens: &Tokens) -> Result<Tree, TextFault>
    requires { EndsWithEnd tokens.now }
    ensures refused { IfErr result (IsFaultOf tokens.now) }
    ensures within { OnOk result (IsWithin (kinds_of tokens.now)) }
    ensures derived { OnOk result (grammar.Derives grammar.program (kinds_of tokens.now)) }
    ensures tree { IfOk result (λ tree. IsProgram tokens.now (clauses_of_tree tree)) }
{
    match first_passing(alloc, tokens.as_slice()) {
        Err(_) => Err(TextFault::NoMemory),
        Ok(None) => tree(alloc, tokens),
        Ok(Some(passing)) => Err(fault(alloc, tokens, passing)),
    }
}

/// The tree of tokens that are within the limits.
fn tree(alloc: Global, tokens: &Tokens) -> Result<Tree, TextFault>
    requires ends { EndsWithEnd tokens.now }
    requires within { IsWithin (kinds_of tokens.now) }
    ensures refused { IfErr result (IsFaultOf tokens.now) }
    ensures derived { OnOk result (grammar.Derives grammar.program (kinds_of tokens.now)) }
    ensures tree { IfOk result (λ tree. IsProgram tokens.now (clauses_of_tree tree)) }
{
    match program(alloc, tokens.as_slice()) {
        Ok(clauses) => Ok(Tree { clauses }),
        Err(Stop::NoMemory) => Err(TextFault::NoMemory),
        Err(Stop::At(at)) => Err(refused(tokens, at, UNEXPECTED)),
    }
}

/// Why tokens are refused of which one passes a limit.
fn fault(alloc: Global, tokens: &Tokens, passing: Passing) -> TextFault
    requires place { passing.at < length tokens.now }
    requires passing { IsFirstPassing (kinds_of tokens.now) (Some passing) }
    ensures { IsFaultOf tokens.now result }
{
    let all = tokens.as_slice();
    match program(alloc, &all[..passing.at + 1]) {
        Ok(_) => refused(tokens, passing.at, passing.code),
        Err(Stop::NoMemory) => TextFault::NoMemory,
        Err(Stop::At(at)) => {
            if passing.at < at {
                return refused(tokens, passing.at, passing.code);
            }
            refused(tokens, at, UNEXPECTED)
        }
    }
}

/// The clauses of a program that all of the tokens are.
fn program(alloc: Global, tokens: &[PackedToken]) -> Result<Rows<Clause>, Stop>
    ensures reads { ReadsWhole (kinds_of tokens.now) result }
    ensures tree { IfOk result (λ clauses. IsProgram tokens.now (clauses_of clauses)) }
{
    let (clauses, end) = clauses(alloc, tokens, 0)?;
    let after = expect(tokens, end, Kind::End)?;
    if after < tokens.len() {
        return Err(Stop::At(after));
    }
    Ok(clauses)
}

/// The refusal at a token by a code.
fn refused(tokens: &Tokens, at: usize, code: u8) -> TextFault
    requires place { at < length tokens.now }
    requires refused { IsRefused AreKindsOfProgram (kinds_of tokens.now) at code }
    ensures { IsFaultOf tokens.now result }
{
    let token = tokens.at(at);
    let pos = token.pos;
    TextFault::Refused(Refusal { code, pos })
}
