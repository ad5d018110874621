//! What stands in a head, and in which order.
ghost use Rattle.std.specs.Prelude.{◌≡◌, ◌&&◌, ◌==◌};
ghost use Rattle.std.specs.List.{list_all, list_any};
ghost use Rattle.lmn_verify_code.specs.Verified.{looks_at, is_looked_at, all_looked_at, finds, surveys, finds_first, is_int_kind, gets_integer, is_of_head, is_commit, is_proceed, is_head};

use crate::found::FoundPart;
use lmn_guards::TypeKind;
use lmn_instr_code::{Instr, operands_of};

/// Whether FUNC and INMEM of a register stand first.
fn looks_at(atom: u16, code: &[Instr]) -> bool
    ensures { result ≡ looks_at atom code.now }
{
    match code {
        [first, more @ ..] => match first {
            Instr::Func { atom: func, .. } => match more {
                [second, ..] => match second {
                    Instr::InMem { atom: inmem, .. } => *func == atom && *inmem == atom,
                    _ => false,
                },
                [] => false,
            },
            _ => false,
        },
        [] => false,
    }
}

/// Whether an instruction, if it is DEREF, is directly followed by FUNC and INMEM of its register.
fn is_looked_at(instr: &Instr, behind: &[Instr]) -> bool
    ensures { result ≡ is_looked_at instr.now behind.now }
{
    match instr {
        Instr::Deref { atom, .. } => looks_at(*atom, behind),
        _ => true,
    }
}

/// Whether so is each.
pub(crate) fn all_looked_at(head: &[Instr]) -> bool
    ensures { result ≡ all_looked_at head.now }
{
    for at in 0..head.len() {
        if !is_looked_at(&head[at], &head[at + 1..]) {
            return false;
        }
    }
    true
}

/// Whether an instruction finds an atom or a membrane.
fn finds(instr: &Instr) -> bool
    ensures { result ≡ finds instr.now }
{
    match instr {
        Instr::FindAtom { .. } => true,
        Instr::Deref { .. } => true,
        Instr::AnyMem { .. } => true,
        _ => false,
    }
}

/// Whether it looks at a typed context, counts what a membrane holds, or asks whether a link leaves the rest of one.
fn surveys(instr: &Instr) -> bool
    ensures { result ≡ surveys instr.now }
{
    match instr {
        Instr::IsInt { .. } => true,
        Instr::IsUnary { .. } => true,
        Instr::IsGround { .. } => true,
        Instr::NAtoms { .. } => true,
        Instr::NMems { .. } => true,
        Instr::IsClosed { .. } => true,
        _ => false,
    }
}

/// Whether some instruction finds.
fn some_finds(code: &[Instr]) -> bool
    ensures { result ≡ list_any finds code.now }
{
    code.iter().any(|instr| finds(instr))
}

/// Whether what finds stands before what surveys.
pub(crate) fn finds_first(head: &[Instr]) -> bool
    ensures { result ≡ finds_first head.now }
{
    for at in 0..head.len() {
        if surveys(&head[at]) {
            return !some_finds(&head[at + 1..]);
        }
    }
    true
}

/// Whether a typed context is an integer.
fn is_int_kind(kind: TypeKind) -> bool
    ensures { result ≡ is_int_kind kind }
{
    match kind {
        TypeKind::Int => true,
        TypeKind::Unary => false,
        TypeKind::Ground => false,
    }
}

/// Whether a typed context is an integer and has a number.
fn is_integer(found: &FoundPart, part: u16) -> bool
    ensures { result ≡ ((found.now.part == part) && is_int_kind found.now.kind) }
{
    found.part == part && is_int_kind(found.kind)
}

/// Whether the typed context with a number is an integer.
fn has_integer(parts: &[FoundPart], part: u16) -> bool
    ensures { result ≡ list_any (λ p. (p.part == part) && is_int_kind p.kind) parts.now }
{
    parts.iter().any(|found| is_integer(found, part))
}

/// Whether GETINT is of an integer.
fn gets_integer(parts: &[FoundPart], instr: &Instr) -> bool
    ensures { result ≡ gets_integer parts.now instr.now }
{
    match instr {
        Instr::GetInt { part, .. } => has_integer(parts, *part),
        _ => true,
    }
}

/// Whether each is.
pub(crate) fn all_get_integers(parts: &[FoundPart], head: &[Instr]) -> bool
    ensures { result ≡ list_all (gets_integer parts.now) head.now }
{
    head.iter().all(|instr| gets_integer(parts, instr))
}

/// Whether an instruction is of a head, and isn't COMMIT.
fn is_of_head(instr: &Instr) -> bool
    ensures { result ≡ is_of_head instr.now }
{
    operands_of(instr).opcode.is_in_head() && !is_commit(instr)
}

/// Whether an instruction is COMMIT.
pub fn is_commit(instr: &Instr) -> bool
    ensures { result ≡ is_commit instr.now }
{
    match instr {
        Instr::Commit => true,
        _ => false,
    }
}

/// Whether an instruction is PROCEED.
pub fn is_proceed(instr: &Instr) -> bool
    ensures { result ≡ is_proceed instr.now }
{
    match instr {
        Instr::Proceed => true,
        _ => false,
    }
}

/// Whether code is that of a head, and COMMIT ends it and stands once.
pub(crate) fn is_head(head: &[Instr]) -> bool
    ensures { result ≡ is_head head.now }
{
    for at in 0..head.len() {
        if is_commit(&head[at]) {
            return at + 1 == head.len();
        }
        if !is_of_head(&head[at]) {
            return false;
        }
    }
    false
}
