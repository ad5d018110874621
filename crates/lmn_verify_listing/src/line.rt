//! Reads the line of an instruction.
ghost use Rattle.std.specs.Prelude.{ℕ, List, ◌≡◌, ◌≢◌, ◌<◌, ◌+◌, ◌^◌, ◌++◌, [], IfSome, IfNone, IfOk, OnErr, IsSomeAnd, codes, length, true, false, Bool};
ghost use Rattle.lmn_instr_reading.specs.Reading.{AddsNames, NumbersNames};
ghost use Rattle.lmn_instr_code.specs.Listings.{HasInstr, line as line_of, operand_text, operands_text, HasOperand};
ghost use Rattle.lmn_instr_code.specs.Words.{operands, opcode_of};
ghost use Rattle.lmn_verify_code.specs.Operands.{operand_names, instr_names};
ghost use Rattle.lmn_instr_code.specs.declared.instr.Instr.{Instr as TheInstr};
ghost use Rattle.lmn_instr_code.specs.declared.words.Operand.{Operand as TheOperand};
ghost use Rattle.lmn_instr_code.specs.declared.words.Operand.TheVariants as ops;
ghost use Rattle.lmn_instr_code.specs.declared.opcode.Kind.TheVariants as kinds;
ghost use Rattle.lmn_verify_listing.specs.Forms.{FitsKind, FitsSome, FitsForm};
ghost use Rattle.lmn_instr_code.specs.Opcodes.{form_of, is_in_head};
ghost use Rattle.lmn_verify_listing.specs.Lines.{IsShortOperand, HasShortNames, FitsInstr, IsLine};
ghost use Rattle.lmn_verify_listing.specs.Taking.{IsBehind, FollowsKind, Follows, one_text, some_names, some_text, HasSome, ShortSome, parts_text, AllSmall};

use crate::building::build;
use crate::operand::{place_of, read_plain};
use lmn_base::{Names, NoMemory, Rows};
use lmn_instr_code::{Instr, Kind, Opcode, Operand};
use lmn_instr_reading::read_functor;
use std::alloc::Global;

/// An operand that was read, and what stands behind it.
#[derive(Clone, Copy)]
struct Taken<'t> {
    operand: Operand,
    rest: &'t [u8],
}

/// Takes an operand without names behind a space.
fn take_plain(kind: Kind, text: &[u8]) -> Option<Taken>
    requires { kind ≢ kinds.Functor }
    ensures some { IfSome result (λ t. FitsKind kind t.operand × ((ns : List (List ℕ)) → HasOperand ns t.operand × IsShortOperand ns t.operand × (one_text ns t.operand ++ t.rest.now ≡ text.now))) }
    ensures only { (o : TheOperand) (ns : List (List ℕ)) (rest : List ℕ) → FitsKind kind o → IsBehind rest → one_text ns o ++ rest ≡ text.now → IsSomeAnd result (λ t. t.rest.now ≡ rest) }
    ensures nameless { IfSome result (λ t. operand_names t.operand ≡ []) }
{
    match text.strip_prefix(b" ".as_slice()) {
        Some(behind) => {
            let at = place_of(b' ', behind);
            match read_plain(kind, &behind[..at]) {
                Some(operand) => Some(Taken {
                    operand,
                    rest: &behind[at..],
                }),
                None => None,
            }
        }
        None => None,
    }
}

/// Takes a functor behind a space, which is all that there is.
fn take_functor<'t>(text: &'t [u8], names: &mut Names) -> Result<Option<Taken<'t>>, NoMemory>
    requires { length names.old < 2 ^ 32 }
    ensures some { IfOk result (λ found. IfSome found (λ t. FitsKind kinds.Functor t.operand × HasOperand names.new t.operand × IsShortOperand names.new t.operand × (one_text names.new t.operand ++ t.rest.now ≡ text.now))) }
    ensures only { IfOk result (λ found. (o : TheOperand) (ns : List (List ℕ)) → FitsKind kinds.Functor o → IsShortOperand ns o → one_text ns o ≡ text.now → IsSomeAnd found (λ t. t.rest.now ≡ [])) }
    ensures order { IfOk result (λ found. IfSome found (λ t. NumbersNames names.old (operand_names t.operand) names.new)) }
    ensures names { AddsNames 1 names.old names.new }
{
    match text.strip_prefix(b" ".as_slice()) {
        Some(behind) => match read_functor(behind, names)? {
            Some(functor) => Ok(Some(Taken {
                operand: Operand::Functor(functor),
                rest: &behind[behind.len()..],
            })),
            None => Ok(None),
        },
        None => Ok(None),
    }
}

/// Takes an operand of a kind behind a space.
fn take_kind<'t>(
    kind: Kind,
    text: &'t [u8],
    names: &mut Names,
) -> Result<Option<Taken<'t>>, NoMemory>
    requires { length names.old < 2 ^ 32 }
    ensures some { IfOk result (λ found. IfSome found (λ t. FitsKind kind t.operand × HasOperand names.new t.operand × IsShortOperand names.new t.operand × (one_text names.new t.operand ++ t.rest.now ≡ text.now))) }
    ensures only { IfOk result (λ found. (o : TheOperand) (ns : List (List ℕ)) (rest : List ℕ) → FitsKind kind o → IsShortOperand ns o → FollowsKind kind rest → one_text ns o ++ rest ≡ text.now → IsSomeAnd found (λ t. t.rest.now ≡ rest)) }
    ensures order { IfOk result (λ found. IfSome found (λ t. NumbersNames names.old (operand_names t.operand) names.new)) }
    ensures names { AddsNames 1 names.old names.new }
{
    match kind {
        Kind::Functor => take_functor(text, names),
        _ => Ok(take_plain(kind, text)),
    }
}

/// Takes an operand behind a space, if there is to be one.
fn take_operand<'t>(
    kind: Option<Kind>,
    text: &'t [u8],
    names: &mut Names,
) -> Result<Option<Taken<'t>>, NoMemory>
    requires { length names.old < 2 ^ 32 }
    ensures some { IfOk result (λ found. IfSome found (λ t. FitsSome kind t.operand × HasSome names.new kind t.operand × ShortSome names.new kind t.operand × (some_text names.new kind t.operand ++ t.rest.now ≡ text.now))) }
    ensures only { IfOk result (λ found. (o : TheOperand) (ns : List (List ℕ)) (rest : List ℕ) → FitsSome kind o → ShortSome ns kind o → Follows kind rest → some_text ns kind o ++ rest ≡ text.now → IsSomeAnd found (λ t. t.rest.now ≡ rest)) }
    ensures order { IfOk result (λ found. IfSome found (λ t. NumbersNames names.old (some_names kind t.operand) names.new)) }
    ensures names { AddsNames 1 names.old names.new }
{
    match kind {
        Some(kind) => take_kind(kind, text, names),
        None => Ok(Some(Taken {
            operand: Operand::Number(0),
            rest: text,
        })),
    }
}

/// The register of a typed context.
fn part_of(operand: Operand) -> u16
    requires { FitsKind kinds.Part operand }
    ensures small { result < 2 ^ 16 }
    ensures part { ops.Part result ≡ operand }
{
    match operand {
        Operand::Part(part) => part,
        _ => unreachable!(),
    }
}

/// Reads the registers of typed contexts, each behind a space, up to the end.
fn read_parts(alloc: Global, text: &[u8]) -> Result<Option<Rows<u16>>, NoMemory>
    ensures some { IfOk result (λ found. IfSome found (λ gs. AllSmall gs × (parts_text gs ≡ text.now))) }
    ensures none { IfOk result (λ found. IfNone found ((gs : List ℕ) → AllSmall gs → parts_text gs ≡ text.now → ⊥)) }
{
    let mut parts = Rows::new(alloc);
    let mut rest = text;
    while !rest.is_empty() {
        match take_plain(Kind::Part, rest) {
            Some(taken) => {
                parts.push(part_of(taken.operand))?;
                rest = taken.rest;
            }
            None => return Ok(None),
        }
    }
    Ok(Some(parts))
}

/// Reads the typed contexts behind the other operands, where there may be some.
fn read_last(alloc: Global, parts: bool, text: &[u8]) -> Result<Option<Rows<u16>>, NoMemory>
    ensures some { IfOk result (λ found. IfSome found (λ gs. AllSmall gs × (parts ≡ false → gs ≡ []) × (parts_text gs ≡ text.now))) }
    ensures none { IfOk result (λ found. IfNone found ((gs : List ℕ) → AllSmall gs → (parts ≡ false → gs ≡ []) → parts_text gs ≡ text.now → ⊥)) }
{
    if parts {
        return read_parts(alloc, text);
    }
    if text.is_empty() {
        return Ok(Some(Rows::new(alloc)));
    }
    Ok(None)
}

/// The instruction with this name of which these are the operands.
fn read_operands(
    alloc: Global,
    opcode: Opcode,
    text: &[u8],
    names: &mut Names,
) -> Result<Option<Instr>, NoMemory>
    requires { length names.old + 3 < 2 ^ 32 }
    ensures some { IfOk result (λ found. IfSome found (λ i. (opcode_of i ≡ opcode) × FitsInstr i × HasInstr names.new i × HasShortNames names.new i × (operands_text names.new (operands i) ≡ text.now))) }
    ensures none { IfOk result (λ found. IfNone found ((i : TheInstr) (ns : List (List ℕ)) → opcode_of i ≡ opcode → FitsInstr i → HasShortNames ns i → operands_text ns (operands i) ≡ text.now → ⊥)) }
    ensures order { IfOk result (λ found. IfSome found (λ i. NumbersNames names.old (instr_names i) names.new)) }
    ensures names { AddsNames 3 names.old names.new }
{
    let form = opcode.form();
    let first = match take_operand(form.first, text, names)? {
        Some(taken) => taken,
        None => return Ok(None),
    };
    let second = match take_operand(form.second, first.rest, names)? {
        Some(taken) => taken,
        None => return Ok(None),
    };
    let third = match take_operand(form.third, second.rest, names)? {
        Some(taken) => taken,
        None => return Ok(None),
    };
    match read_last(alloc, form.parts, third.rest)? {
        Some(parts) => Ok(Some(build(opcode, first.operand, second.operand, third.operand, parts))),
        None => Ok(None),
    }
}

/// The instruction of a head, or of a body, of which this is the line. At most three new names are put, and where the line is one
/// they have the next numbers in the order in which they stand in it.
///
/// # Errors
///
/// `NoMemory` at want of memory.
pub fn read_line(
    alloc: Global,
    in_head: bool,
    line: &[u8],
    names: &mut Names,
) -> Result<Option<Instr>, NoMemory>
    requires { length names.old + 3 < 2 ^ 32 }
    ensures some { IfOk result (λ found. IfSome found (λ i. (is_in_head (opcode_of i) ≡ in_head) × FitsInstr i × HasInstr names.new i × HasShortNames names.new i × (line_of names.new i ≡ line.now))) }
    ensures none { IfOk result (λ found. IfNone found (IsLine in_head line.now → ⊥)) }
    ensures order { IfOk result (λ found. IfSome found (λ i. NumbersNames names.old (instr_names i) names.new)) }
    ensures names { AddsNames 3 names.old names.new }
{
    let text = match inside_line(line) {
        Some(text) => text,
        None => return Ok(None),
    };
    let (name, operands) = text.split_at(place_of(b' ', text));
    match Opcode::named(name) {
        Some(opcode) => {
            if opcode.is_in_head() == in_head {
                read_operands(alloc, opcode, operands, names)
            } else {
                Ok(None)
            }
        }
        None => Ok(None),
    }
}

/// What stands in a line between two spaces and its line feed.
fn inside_line(line: &[u8]) -> Option<&[u8]>
    ensures some { IfSome result (λ t. codes "  " ++ (t.now ++ codes "\n") ≡ line.now) }
    ensures none { IfNone result ((t : List ℕ) → codes "  " ++ (t ++ codes "\n") ≡ line.now → ⊥) }
{
    match line.strip_prefix(b"  ".as_slice()) {
        Some(behind) => behind.strip_suffix(b"\n".as_slice()),
        None => None,
    }
}
