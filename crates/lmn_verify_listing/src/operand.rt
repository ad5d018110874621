//! Reads operands, each from its own text.
ghost use Rattle.std.specs.Prelude.{ℕ, List, ◌≡◌, ◌≢◌, ◌<◌, ◌≤◌, ◌^◌, ◌++◌, ◌∷◌, [], IfSome, IfNone, IfOk, OnErr, length};
ghost use Rattle.std.specs.Fmt.{decimal};
ghost use Rattle.lmn_instr_code.specs.Listings.{port_text, operand_text, HasOperand};
ghost use Rattle.lmn_instr_code.specs.declared.instr.AtomPort.{AtomPort as TheAtomPort};
ghost use Rattle.lmn_instr_code.specs.declared.words.Operand.{Operand as TheOperand};
ghost use Rattle.lmn_verify_listing.specs.Forms.{FitsKind};
ghost use Rattle.lmn_verify_listing.specs.Lines.{IsPlaceOf, IsShortOperand};
ghost use Rattle.lmn_instr_code.specs.declared.opcode.Kind.TheVariants as kinds;

use lmn_base::limits::MOST_LINKS;
use lmn_instr_code::{AtomPort, Kind, Operand};
use lmn_instr_reading::{read_integer, read_number};

/// The number of the register that a text names by its letter.
pub(crate) fn read_register(letter: u8, text: &[u8]) -> Option<u16>
    ensures some { IfSome result (λ n. letter ∷ decimal n ≡ text.now) }
    ensures none { IfNone result ((n : ℕ) → n < 2 ^ 16 → letter ∷ decimal n ≡ text.now → ⊥) }
{
    match text {
        [] => None,
        [first, rest @ ..] => {
            if *first == letter {
                register_in(rest)
            } else {
                None
            }
        }
    }
}

/// The number of a register.
fn register_in(text: &[u8]) -> Option<u16>
    ensures some { IfSome result (λ n. decimal n ≡ text.now) }
    ensures none { IfNone result ((n : ℕ) → n < 2 ^ 16 → decimal n ≡ text.now → ⊥) }
{
    match read_number(text, 65535) {
        Some(number) => Some(number as u16),
        None => None,
    }
}

/// The index of a port.
fn index_in(text: &[u8]) -> Option<u8>
    ensures some { IfSome result (λ n. decimal n ≡ text.now) }
    ensures none { IfNone result ((n : ℕ) → n < 2 ^ 8 → decimal n ≡ text.now → ⊥) }
{
    match read_number(text, MOST_LINKS) {
        Some(number) => Some(number as u8),
        None => None,
    }
}

/// The port that a text names.
fn read_port(text: &[u8]) -> Option<AtomPort>
    ensures some { IfSome result (λ p. port_text p ≡ text.now) }
    ensures none { IfNone result ((p : TheAtomPort) → p.atom < 2 ^ 16 → p.port < 2 ^ 8 → port_text p ≡ text.now → ⊥) }
{
    let at = place_of(b'.', text);
    if at == text.len() {
        return None;
    }
    match read_register(b'A', &text[..at]) {
        Some(atom) => match index_in(&text[at + 1..]) {
            Some(port) => Some(AtomPort { atom, port }),
            None => None,
        },
        None => None,
    }
}

/// The place of the first byte of a text that is this one, or its length.
pub(crate) fn place_of(byte: u8, text: &[u8]) -> usize
    ensures { IsPlaceOf byte text.now result }
{
    for at in 0..text.len() {
        if text[at] == byte {
            return at;
        }
    }
    text.len()
}

/// The operand of a kind without names of which this is the text.
pub(crate) fn read_plain(kind: Kind, text: &[u8]) -> Option<Operand>
    requires { kind ≢ kinds.Functor }
    ensures some { IfSome result (λ o. FitsKind kind o × ((ns : List (List ℕ)) → HasOperand ns o × IsShortOperand ns o × (operand_text ns o ≡ text.now))) }
    ensures none { IfNone result ((o : TheOperand) (ns : List (List ℕ)) → FitsKind kind o → operand_text ns o ≡ text.now → ⊥) }
{
    match kind {
        Kind::Atom => Some(Operand::Atom(read_register(b'A', text)?)),
        Kind::Membrane => Some(Operand::Membrane(read_register(b'M', text)?)),
        Kind::Part => Some(Operand::Part(read_register(b'G', text)?)),
        Kind::Integer => Some(Operand::Integer(read_register(b'V', text)?)),
        Kind::Copy => Some(Operand::Copy(read_register(b'C', text)?)),
        Kind::Port => Some(Operand::Port(read_port(text)?)),
        Kind::NewPort => match read_register(b'C', text) {
            Some(copy) => Some(Operand::Copy(copy)),
            None => Some(Operand::Port(read_port(text)?)),
        },
        Kind::Functor => None,
        Kind::Index => Some(Operand::Number(read_number(text, MOST_LINKS)?)),
        Kind::Count => Some(Operand::Number(read_number(text, u64::MAX)?)),
        Kind::Rule => Some(Operand::Number(read_number(text, 4_294_967_295)?)),
        Kind::Constant => Some(Operand::Constant(read_integer(text)?)),
    }
}
