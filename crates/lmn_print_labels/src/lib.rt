//! Adds names and numbers to a line.
//!
//! The text of a name is defined in `lmn_lexer` (`NameText`), since it says how a name is spelled. A label has two texts, both
//! of it: one in the trees of the calculus, and one of a label that has the number of its name.
#![tactic(auto)]

ghost use Rattle.std.specs.Prelude.{◌≡◌};
ghost use Rattle.std.specs.Fmt.{decimal, signed_decimal};
ghost use Rattle.std.specs.List.{list_all};
ghost use Rattle.lmn_io.specs.Gathering.{Adds, output};
ghost use Rattle.lmn_lexer.specs.NameText.{name_text, quoted, quoted_byte};
ghost use Rattle.lmn_lexer.specs.Spelling.{is_bare_name, goes_on};

use itoa::Buffer;
use lmn_io::{LineBuffer, Sink};
use std::slice;

/// Adds an integer in decimal.
pub fn add_integer<O: Sink>(buffer: &mut LineBuffer, out: &mut O, value: i64)
    ensures { Adds (signed_decimal value) (output buffer.old (O.told out.old) (O.faults out.old)) (output buffer.new (O.told out.new) (O.faults out.new)) }
{
    buffer.add(out, Buffer::new().format(value).as_bytes());
}

/// Adds a number in decimal.
pub fn add_number<O: Sink>(buffer: &mut LineBuffer, out: &mut O, number: u64)
    ensures { Adds (decimal number) (output buffer.old (O.told out.old) (O.faults out.old)) (output buffer.new (O.told out.new) (O.faults out.new)) }
{
    buffer.add(out, Buffer::new().format(number).as_bytes());
}

/// Adds a name, bare or in quotes.
pub fn add_name<O: Sink>(buffer: &mut LineBuffer, out: &mut O, name: &[u8])
    ensures { Adds (name_text name.now) (output buffer.old (O.told out.old) (O.faults out.old)) (output buffer.new (O.told out.new) (O.faults out.new)) }
{
    if is_bare(name) {
        buffer.add(out, name);
    } else {
        add_quoted(buffer, out, name);
    }
}

/// Adds a name in quotes, each quote in it twice.
fn add_quoted<O: Sink>(buffer: &mut LineBuffer, out: &mut O, name: &[u8])
    ensures { Adds (quoted name.now) (output buffer.old (O.told out.old) (O.faults out.old)) (output buffer.new (O.told out.new) (O.faults out.new)) }
{
    buffer.add(out, b"'");
    for byte in name {
        buffer.add(out, quoted_byte(byte));
    }
    buffer.add(out, b"'");
}

/// A byte as it stands between quotes.
fn quoted_byte(byte: &u8) -> &[u8]
    ensures { result.now ≡ quoted_byte byte.now }
{
    if *byte == b'\'' {
        b"''"
    } else {
        slice::from_ref(byte)
    }
}

/// Whether a name is written without quotes.
pub fn is_bare(name: &[u8]) -> bool
    ensures { result ≡ is_bare_name name.now }
{
    match name {
        [] => false,
        [first, more @ ..] => first.is_ascii_lowercase() && are_name_bytes(more),
    }
}

/// Whether each byte is a letter, a digit or `_`.
fn are_name_bytes(bytes: &[u8]) -> bool
    ensures { result ≡ list_all goes_on bytes.now }
{
    bytes.iter().all(|byte| is_name_byte(*byte))
}

/// Whether a byte is a letter, a digit or `_`.
fn is_name_byte(byte: u8) -> bool
    ensures { result ≡ goes_on byte }
{
    byte.is_ascii_alphanumeric() || byte == b'_'
}
