ghost use Rattle.std.specs.Prelude.{◌≡◌, ◌≤◌, ◌^◌, List, ℕ, IfOk};
ghost use Rattle.lmn_lexer.specs.Spelling.{IsQuoted, Quotes};
ghost use Rattle.lmn_lexer.specs.Faults.{SpelledInRange, value_behind};
ghost use Rattle.lmn_lexer.specs.Values.{integer_of, minus_of};

use lmn_base::{NoMemory, Rows};
use std::alloc::Global;

/// The integer that the bytes of a token spell, which are in the range of 64 bits.
pub fn integer(bytes: &[u8]) -> i64
    requires { SpelledInRange bytes.now }
    ensures { result ≡ integer_of bytes.now }
{
    match bytes.split_first() {
        Some((first, digits)) => {
            if *first == b'-' {
                negative(value(digits))
            } else {
                value(bytes) as i64
            }
        }
        None => 0,
    }
}

/// The integer below 0 of this size, or 0.
fn negative(size: u64) -> i64
    requires { size ≤ 2 ^ 63 }
    ensures { result ≡ minus_of size }
{
    if size == 0 {
        return 0;
    }
    -((size - 1) as i64) - 1
}

/// The number that digits write.
fn value(digits: &[u8]) -> u64
    requires { value_behind 0 digits.now ≤ 2 ^ 63 }
    ensures { result ≡ value_behind 0 digits.now }
{
    let mut value: u64 = 0;
    for digit in digits {
        value = value * 10 + u64::from(digit.saturating_sub(b'0'));
    }
    value
}

/// The name that stands in quotes, where a quote inside is written twice.
///
/// # Errors
///
/// `NoMemory` where there is no memory for the name.
pub fn unquoted(alloc: Global, bytes: &[u8]) -> Result<Rows<u8>, NoMemory>
    requires { (name : List ℕ) × IsQuoted bytes.now name }
    ensures { IfOk result (λ found. IsQuoted bytes.now found) }
{
    undoubled(alloc, &bytes[1..bytes.len() - 1])
}

/// The name that stands between quotes.
fn undoubled(alloc: Global, inside: &[u8]) -> Result<Rows<u8>, NoMemory>
    requires { (name : List ℕ) × Quotes inside.now name }
    ensures { IfOk result (λ found. Quotes inside.now found) }
{
    let mut name = Rows::new(alloc);
    let mut at = 0;
    while at < inside.len() {
        let byte = inside[at];
        name.push(byte)?;
        if byte == b'\'' {
            at += 1;
        }
        at += 1;
    }
    Ok(name)
}
