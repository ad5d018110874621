//! Finds the ends of lines and reads small numbers.
ghost use Rattle.std.specs.Prelude.{List, ◌≡◌, ◌≤◌, ◌<◌, ◌+◌, ◌-◌, length, take, drop, slice_index, IfSome, IfNone};
ghost use Rattle.std.specs.List.{list_all};
ghost use Rattle.std.specs.Char.{is_ascii_digit};
ghost use Rattle.lmn_instr_reading.specs.Lines.{HasNoSpace, IsOneLine, are_digits, number_written, small_value};

/// The greatest small number.
const MOST: u64 = 1_000_000;

/// The most digits of a small number.
const MOST_DIGITS: usize = 7;

/// The number that digits write, where it is small.
fn small_value(digits: &[u8]) -> Option<u64>
    ensures { result ≡ small_value digits.now }
{
    let mut value: u64 = 0;
    for digit in digits {
        value = value * 10 + u64::from(digit.saturating_sub(b'0'));
        if value > MOST {
            return None;
        }
    }
    Some(value)
}

/// Whether each byte is a digit.
fn all_digits(bytes: &[u8]) -> bool
    ensures { result ≡ list_all is_ascii_digit bytes.now }
{
    bytes.iter().all(|byte| byte.is_ascii_digit())
}

/// Whether these are 1 to 7 digits.
fn are_digits(bytes: &[u8]) -> bool
    ensures { result ≡ are_digits bytes.now }
{
    1 <= bytes.len() && bytes.len() <= MOST_DIGITS && all_digits(bytes)
}

/// The number that 1 to 7 digits write, where it is at most 1,000,000. Zeros may stand in front.
pub fn number_written(bytes: &[u8]) -> Option<u64>
    ensures { result ≡ number_written bytes.now }
{
    if are_digits(bytes) {
        small_value(bytes)
    } else {
        None
    }
}

/// The place of the last space of a line.
pub fn last_space(line: &[u8]) -> Option<usize>
    ensures some { IfSome result (λ at. (at < length line.now) × (slice_index line.now at ≡ 32) × HasNoSpace (drop (at + 1) line.now)) }
    ensures none { IfNone result (HasNoSpace line.now) }
{
    let mut at = line.len();
    while at > 0 {
        at -= 1;
        if line[at] == b' ' {
            return Some(at);
        }
    }
    None
}

/// The place of the first line feed from a place on.
pub fn next_feed(text: &[u8], at: usize) -> Option<usize>
    requires { at ≤ length text.now }
    ensures some { IfSome result (λ end. (at ≤ end) × (end < length text.now) × (slice_index text.now end ≡ 10) × IsOneLine (take (end - at) (drop at text.now))) }
    ensures none { IfNone result (IsOneLine (drop at text.now)) }
{
    let mut end = at;
    while end < text.len() {
        if text[end] == b'\n' {
            return Some(end);
        }
        end += 1;
    }
    None
}
