//! What two lines begin with alike, and what they end with.
ghost use Rattle.std.specs.Prelude.{◌≡◌, ◌<◌, ◌≤◌, ◌+◌, ◌∷◌, List, [], ℕ, None, IfOk, IfSome, drop, length, reverse};
ghost use Rattle.lmn_receipt_chain.specs.Alike.{alike, blurred, times};

use lmn_base::NoMemory;
use std::alloc::Global;

/// A byte of a text that is no digit, and the place behind it.
#[derive(Clone, Copy)]
struct Found {
    byte: u8,
    behind: usize,
}

/// The first byte from a place on that is no digit.
fn next_byte(text: &[u8], from: usize) -> Option<Found>
    requires { from ≤ length text.now }
    ensures none { result ≡ None → blurred (drop from text.now) ≡ [] }
    ensures some { IfSome result (λ found. (from < found.behind) × (found.behind ≤ length text.now) × (blurred (drop from text.now) ≡ found.byte ∷ blurred (drop found.behind text.now))) }
{
    for at in from..text.len() {
        let byte = text[at];
        if !byte.is_ascii_digit() {
            return Some(Found {
                byte,
                behind: at + 1,
            });
        }
    }
    None
}

/// A count that is greater by one where a byte is the brace that is counted.
fn counted(count: u64, byte: u8, brace: u8) -> Result<u64, NoMemory>
    ensures { IfOk result (λ more. more ≡ count + times brace (byte ∷ [])) }
{
    if byte != brace {
        return Ok(count);
    }
    match count.checked_add(1) {
        Some(more) => Ok(more),
        None => Err(NoMemory),
    }
}

/// How often a brace is in what two texts begin with alike, but for digits.
fn braces_alike(left: &[u8], right: &[u8], brace: u8) -> Result<u64, NoMemory>
    ensures { IfOk result (λ count. count ≡ times brace (alike (blurred left.now) (blurred right.now))) }
{
    let mut count = 0u64;
    let mut left_at = 0usize;
    let mut right_at = 0usize;
    while let Some(next) = next_byte(left, left_at) {
        let Some(other) = next_byte(right, right_at) else {
            return Ok(count);
        };
        if other.byte != next.byte {
            return Ok(count);
        }
        count = counted(count, next.byte, brace)?;
        left_at = next.behind;
        right_at = other.behind;
    }
    Ok(count)
}

/// How many braces are opened in what two texts begin with alike, but for digits.
///
/// # Errors
///
/// `NoMemory` where 64 bits don't count them.
pub(crate) fn opened_alike(left: &[u8], right: &[u8]) -> Result<u64, NoMemory>
    ensures { IfOk result (λ opened. opened ≡ times 123 (alike (blurred left.now) (blurred right.now))) }
{
    braces_alike(left, right, b'{')
}

/// The bytes of a text from the last one to the first.
fn reversed(alloc: Global, text: &[u8]) -> Result<Vec<u8>, NoMemory>
    ensures { IfOk result (λ back. back.items ≡ reverse text.now) }
{
    let mut back = Vec::new(alloc);
    back.extend_from_slice(text)?;
    back.reverse();
    Ok(back)
}

/// How many braces are closed in what two texts end with alike, but for digits.
///
/// # Errors
///
/// `NoMemory` at want of memory, or where 64 bits don't count them.
pub(crate) fn closed_alike(alloc: Global, left: &[u8], right: &[u8]) -> Result<u64, NoMemory>
    ensures { IfOk result (λ closed. closed ≡ times 125 (alike (blurred (reverse left.now)) (blurred (reverse right.now)))) }
{
    let left = reversed(alloc, left)?;
    let right = reversed(alloc, right)?;
    braces_alike(left.as_slice(), right.as_slice(), b'}')
}
