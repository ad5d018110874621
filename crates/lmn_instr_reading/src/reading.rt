//! Reads numbers, integers and functors that are written exactly as listings write them.
ghost use Rattle.lmn_base.specs.Limits.{longest_name};
ghost use Rattle.std.specs.Prelude.{ℕ, ℤ, List, true, false, ◌≡◌, ◌≤◌, ◌<◌, ◌+◌, ◌^◌, ◌++◌, ◌∷◌, length, drop, slice_index, IfSome, IfNone, IfOk, OnErr, IsSomeAnd, Some, codes};
ghost use Rattle.std.specs.Fmt.{decimal, signed_decimal};
ghost use Rattle.std.specs.List.{flat_map};
ghost use Rattle.lmn_lexer.specs.NameText.{quoted_byte, quoted, name_text};
ghost use Rattle.lmn_instr_code.specs.Labels.{HasLabel, listed_label_text};
ghost use Rattle.lmn_instr_code.specs.Listings.{functor_text};
ghost use Rattle.lmn_base.specs.Names.{label_names};
ghost use Rattle.lmn_instr_reading.specs.Reading.{IsIn64Bits, IsLabelText, IsFunctorText, AddsNames, HasNoSlash, IsShortLabel, NumbersNames};

use arrayvec::ArrayVec;
use itoa::Buffer;
use lmn_base::limits::{LONGEST_NAME, MOST_LINKS};
use lmn_base::{Functor, Label, Names, NoMemory};
use lmn_print_labels::is_bare;
use std::str;

/// The number that a text writes, if it is the decimal text of one.
fn number_in(text: &[u8]) -> Option<u64>
    ensures { (n : ℕ) → n < 2 ^ 64 → decimal n ≡ text.now → result ≡ Some n }
{
    match str::from_utf8(text) {
        Ok(word) => word.parse::<u64>().ok(),
        Err(_) => None,
    }
}

/// The integer that a text writes, if it is the decimal text of one.
fn integer_in(text: &[u8]) -> Option<i64>
    ensures { (z : ℤ) → IsIn64Bits z → signed_decimal z ≡ text.now → result ≡ Some z }
{
    match str::from_utf8(text) {
        Ok(word) => word.parse::<i64>().ok(),
        Err(_) => None,
    }
}

/// Whether a text is that of a number.
pub fn is_decimal(text: &[u8], number: u64) -> bool
    ensures yes { result ≡ true → decimal number ≡ text.now }
    ensures no { result ≡ false → decimal number ≡ text.now → ⊥ }
{
    Buffer::new().format(number).as_bytes() == text
}

/// Whether a text is that of an integer.
fn is_signed_decimal(text: &[u8], integer: i64) -> bool
    ensures yes { result ≡ true → signed_decimal integer ≡ text.now }
    ensures no { result ≡ false → signed_decimal integer ≡ text.now → ⊥ }
{
    Buffer::new().format(integer).as_bytes() == text
}

/// The number of at most `most` of which this is the decimal text.
pub fn read_number(text: &[u8], most: u64) -> Option<u64>
    ensures some { IfSome result (λ n. (n ≤ most) × (decimal n ≡ text.now)) }
    ensures none { IfNone result ((n : ℕ) → n ≤ most → decimal n ≡ text.now → ⊥) }
{
    match number_in(text) {
        Some(number) => {
            if number <= most && is_decimal(text, number) {
                Some(number)
            } else {
                None
            }
        }
        None => None,
    }
}

/// The integer of which this is the decimal text.
pub fn read_integer(text: &[u8]) -> Option<i64>
    ensures some { IfSome result (λ z. signed_decimal z ≡ text.now) }
    ensures none { IfNone result ((z : ℤ) → IsIn64Bits z → signed_decimal z ≡ text.now → ⊥) }
{
    match integer_in(text) {
        Some(integer) => {
            if is_signed_decimal(text, integer) {
                Some(integer)
            } else {
                None
            }
        }
        None => None,
    }
}

/// How many bytes between quotes the byte of a name takes that stands at a place, if one stands there. A quote is written twice.
fn width_at(inside: &[u8], at: usize) -> Option<usize>
    requires { at < length inside.now }
    ensures some { IfSome result (λ width. (drop at inside.now ≡ quoted_byte (slice_index inside.now at) ++ drop (at + width) inside.now) × (at < at + width) × (at + width ≤ length inside.now)) }
    ensures none { IfNone result ((name : List ℕ) → flat_map quoted_byte name ≡ drop at inside.now → ⊥) }
{
    if inside[at] != b'\'' {
        return Some(1);
    }
    if at + 1 < inside.len() && inside[at + 1] == b'\'' {
        return Some(2);
    }
    None
}

/// The name of at most 255 bytes that stands between quotes.
fn undoubled(inside: &[u8]) -> Option<ArrayVec<u8, LONGEST_NAME>>
    ensures some { IfSome result (λ name. (flat_map quoted_byte name.items ≡ inside.now) × (length name.items ≤ longest_name)) }
    ensures only { (name : List ℕ) → length name ≤ longest_name → flat_map quoted_byte name ≡ inside.now → IsSomeAnd result (λ found. found.items ≡ name) }
{
    let mut name = ArrayVec::new();
    let mut at = 0;
    while at < inside.len() {
        let byte = inside[at];
        let width = match width_at(inside, at) {
            Some(width) => width,
            None => return None,
        };
        if name.try_push(byte).is_err() {
            return None;
        }
        at += width;
    }
    Some(name)
}

/// The name of at most 255 bytes that is written in quotes.
fn unquoted(text: &[u8]) -> Option<ArrayVec<u8, LONGEST_NAME>>
    ensures some { IfSome result (λ name. (quoted name.items ≡ text.now) × (length name.items ≤ longest_name)) }
    ensures only { (name : List ℕ) → length name ≤ longest_name → quoted name ≡ text.now → IsSomeAnd result (λ found. found.items ≡ name) }
{
    match text.strip_prefix(b"'".as_slice()) {
        Some(behind) => match behind.strip_suffix(b"'".as_slice()) {
            Some(inside) => undoubled(inside),
            None => None,
        },
        None => None,
    }
}

/// The label of a name.
fn put_name(name: &[u8], names: &mut Names) -> Result<Label, NoMemory>
    requires short { length name.now ≤ longest_name }
    requires room { length names.old < 2 ^ 32 }
    ensures label { IfOk result (λ label. HasLabel names.new label × (listed_label_text names.new label ≡ name_text name.now)) }
    ensures short { IfOk result (λ label. IsShortLabel names.new label) }
    ensures order { IfOk result (λ label. NumbersNames names.old (label_names label) names.new) }
    ensures names { AddsNames 1 names.old names.new }
    ensures err { OnErr result (names.new ≡ names.old) }
{
    Ok(Label::Name(names.put(name)?))
}

/// The label of the name of which this is the text.
fn read_name(text: &[u8], names: &mut Names) -> Result<Option<Label>, NoMemory>
    requires { length names.old < 2 ^ 32 }
    ensures some { IfOk result (λ found. IfSome found (λ label. HasLabel names.new label × (listed_label_text names.new label ≡ text.now))) }
    ensures short { IfOk result (λ found. IfSome found (λ label. IsShortLabel names.new label)) }
    ensures order { IfOk result (λ found. IfSome found (λ label. NumbersNames names.old (label_names label) names.new)) }
    ensures kept { IfOk result (λ found. IfNone found (names.new ≡ names.old)) }
    ensures none { IfOk result (λ found. IfNone found ((name : List ℕ) → length name ≤ longest_name → name_text name ≡ text.now → ⊥)) }
    ensures names { AddsNames 1 names.old names.new }
    ensures err { OnErr result (names.new ≡ names.old) }
{
    if is_bare(text) {
        if text.len() > LONGEST_NAME {
            return Ok(None);
        }
        return Ok(Some(put_name(text, names)?));
    }
    match unquoted(text) {
        Some(name) => {
            if is_bare(name.as_slice()) {
                return Ok(None);
            }
            Ok(Some(put_name(name.as_slice(), names)?))
        }
        None => Ok(None),
    }
}

/// The label of which this is the text.
fn read_label(text: &[u8], names: &mut Names) -> Result<Option<Label>, NoMemory>
    requires { length names.old < 2 ^ 32 }
    ensures some { IfOk result (λ found. IfSome found (λ label. HasLabel names.new label × (listed_label_text names.new label ≡ text.now))) }
    ensures short { IfOk result (λ found. IfSome found (λ label. IsShortLabel names.new label)) }
    ensures order { IfOk result (λ found. IfSome found (λ label. NumbersNames names.old (label_names label) names.new)) }
    ensures kept { IfOk result (λ found. IfNone found (names.new ≡ names.old)) }
    ensures none { IfOk result (λ found. IfNone found (IsLabelText text.now → ⊥)) }
    ensures names { AddsNames 1 names.old names.new }
    ensures err { OnErr result (names.new ≡ names.old) }
{
    match read_integer(text) {
        Some(integer) => Ok(Some(Label::Int(integer))),
        None => read_name(text, names),
    }
}

/// The place of the last `/` of a text.
fn last_slash(text: &[u8]) -> Option<usize>
    ensures some { IfSome result (λ at. (at < length text.now) × (slice_index text.now at ≡ 47) × HasNoSlash (drop (at + 1) text.now)) }
    ensures none { IfNone result (HasNoSlash text.now) }
{
    let mut at = text.len();
    while at > 0 {
        at -= 1;
        if text[at] == b'/' {
            return Some(at);
        }
    }
    None
}

/// The functor of which this is the text in a listing: its label, a `/` and its arity. A name that is new is put, which has
/// the next number then, and at most one is; where the text is that of no functor, none is.
///
/// # Errors
///
/// `NoMemory` at want of memory.
pub fn read_functor(text: &[u8], names: &mut Names) -> Result<Option<Functor>, NoMemory>
    requires { length names.old < 2 ^ 32 }
    ensures some { IfOk result (λ found. IfSome found (λ functor. HasLabel names.new functor.label × (functor_text names.new functor ≡ text.now))) }
    ensures short { IfOk result (λ found. IfSome found (λ functor. IsShortLabel names.new functor.label)) }
    ensures order { IfOk result (λ found. IfSome found (λ functor. NumbersNames names.old (label_names functor.label) names.new)) }
    ensures kept { IfOk result (λ found. IfNone found (names.new ≡ names.old)) }
    ensures none { IfOk result (λ found. IfNone found (IsFunctorText text.now → ⊥)) }
    ensures names { AddsNames 1 names.old names.new }
    ensures err { OnErr result (names.new ≡ names.old) }
{
    let at = match last_slash(text) {
        Some(at) => at,
        None => return Ok(None),
    };
    let (label, rest) = text.split_at(at);
    match read_number(&rest[1..], MOST_LINKS) {
        Some(arity) => match read_label(label, names)? {
            Some(label) => Ok(Some(Functor {
                label,
                arity: arity as u8,
            })),
            None => Ok(None),
        },
        None => Ok(None),
    }
}
