//! Line feeds in names.
ghost use Rattle.std.specs.Prelude.{◌≡◌, IsTrue};
ghost use Rattle.lmn_receipt_search.specs.Feeds.{NamesWithout, has_feed};

use lmn_base::Names;

/// Whether a line feed is among bytes.
fn has_feed(bytes: &[u8]) -> bool
    ensures { result ≡ has_feed bytes.now }
{
    for byte in bytes {
        if *byte == b'\n' {
            return true;
        }
    }
    false
}

/// Whether no name has a line feed. A text can write no such name.
pub(crate) fn are_without(names: &Names) -> bool
    ensures { IsTrue result → NamesWithout names.now }
{
    let count = names.len();
    if count > u32::MAX as usize {
        return false;
    }
    for number in 0..count {
        if has_feed(names.text(number as u32)) {
            return false;
        }
    }
    true
}
