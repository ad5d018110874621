ghost use Rattle.std.specs.Prelude.{◌≡◌, ◌↔◌, ◌≤◌, ◌^◌, ◌==◌, ℕ, List, length, count_by, IsTrue, MatchOption};
ghost use Rattle.lmn_lexer.specs.declared.token.Kind.TheVariants.{Int, Quoted};
ghost use Rattle.lmn_lexer.specs.Spelling.{IsQuoted};
ghost use Rattle.lmn_lexer.specs.Faults.{SpelledInRange, BeginsFraction, TooLong, TokenFault, value_behind};

use crate::token::Kind;
use lmn_base::RefusalCode;
use lmn_base::limits::LONGEST_NAME;

/// The number above the greatest integer.
const INTEGER_BOUND: u128 = 1 << 63;

/// The code of what is wrong with a token of these bytes, if something is; `after` is the text behind it.
#[tactic(auto, using(crate::proofs::FaultLemmas::long_or_right))]
pub(crate) fn token_fault(kind: Kind, bytes: &[u8], after: &[u8]) -> Option<u8>
    requires { kind ≡ Quoted → (name : List ℕ) × IsQuoted bytes.now name }
    ensures { MatchOption result ((code : ℕ) → TokenFault kind bytes.now after.now code → ⊥) (λ code. TokenFault kind bytes.now after.now code) }
{
    match kind {
        Kind::Int => integer_fault(bytes, after),
        _ => is_long(kind, bytes).then_some(RefusalCode::NameTooLong as u8),
    }
}

/// The code of what is wrong with an integer, if something is.
fn integer_fault(bytes: &[u8], after: &[u8]) -> Option<u8>
    ensures { MatchOption result ((code : ℕ) → TokenFault Int bytes.now after.now code → ⊥) (λ code. TokenFault Int bytes.now after.now code) }
{
    if begins_fraction(after) {
        return Some(RefusalCode::FloatingPoint as u8);
    }
    if is_in_range(bytes) {
        return None;
    }
    Some(RefusalCode::IntegerOutOfRange as u8)
}

/// Whether a `.` and a digit stand first.
fn begins_fraction(text: &[u8]) -> bool
    ensures { IsTrue result ↔ BeginsFraction text.now }
{
    match text {
        [b'.', digit, ..] => digit.is_ascii_digit(),
        _ => false,
    }
}

/// Whether an integer is -2^63 to 2^63 - 1.
fn is_in_range(integer: &[u8]) -> bool
    ensures { IsTrue result ↔ SpelledInRange integer.now }
{
    match integer.split_first() {
        Some((first, digits)) => {
            if *first == b'-' {
                is_at_most(digits, INTEGER_BOUND)
            } else {
                is_at_most(integer, INTEGER_BOUND - 1)
            }
        }
        None => false,
    }
}

/// Whether the number that digits write is at most this one.
fn is_at_most(digits: &[u8], most: u128) -> bool
    requires { most ≤ 2 ^ 63 }
    ensures { IsTrue result ↔ (value_behind 0 digits.now ≤ most) }
{
    let mut value: u128 = 0;
    for digit in digits {
        value = value * 10 + u128::from(digit.saturating_sub(b'0'));
        if value > most {
            return false;
        }
    }
    true
}

/// Whether a token's name has more bytes than a name may have.
fn is_long(kind: Kind, bytes: &[u8]) -> bool
    requires { kind ≡ Quoted → (name : List ℕ) × IsQuoted bytes.now name }
    ensures { IsTrue result ↔ TooLong kind bytes.now }
{
    match kind {
        Kind::Name | Kind::Link => bytes.len() > LONGEST_NAME,
        Kind::Context | Kind::RuleCtx => bytes.len() > 1 + LONGEST_NAME,
        Kind::Quoted => quoted_bytes(bytes) > LONGEST_NAME,
        _ => false,
    }
}

/// The number of bytes of the name that stands in quotes.
fn quoted_bytes(bytes: &[u8]) -> usize
    requires { (name : List ℕ) × IsQuoted bytes.now name }
    ensures { (name : List ℕ) → IsQuoted bytes.now name → result ≡ length name }
{
    bytes.len() - 1 - quotes(bytes) / 2
}

/// The number of quotes among bytes.
fn quotes(bytes: &[u8]) -> usize
    ensures { result ≡ count_by (λ b. b == 39) bytes.now }
{
    bytes.iter().filter(|byte| **byte == b'\'').count()
}
