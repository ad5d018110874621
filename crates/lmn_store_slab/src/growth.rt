//! Room in the lists for one more number, and for the lists of one more membrane.
ghost use Rattle.std.specs.Prelude.{◌≡◌, ◌<◌, ◌≤◌, ◌+◌, ◌^◌, length, OnOk};
ghost use Rattle.lmn_store_slab.specs.Lines.{list_at};

use crate::Lists;
use lmn_base::NoMemory;

/// There is a number.
pub fn cover(lists: &mut Lists, x: usize) -> Result<(), NoMemory>
    ensures same { list_at lists.new ≡ list_at lists.old }
    ensures count { length lists.new.lists ≡ length lists.old.lists }
    ensures grows { lists.old.size ≤ lists.new.size }
    ensures ok { OnOk result (x < lists.new.size) }
{
    while lists.size() <= x {
        lists.add_number()?;
    }
    Ok(())
}

/// There is the list of a membrane.
pub fn cover_list(lists: &mut Lists, m: usize) -> Result<(), NoMemory>
    requires base { 2 ≤ length lists.old.lists }
    ensures same { list_at lists.new ≡ list_at lists.old }
    ensures size { lists.new.size ≡ lists.old.size }
    ensures grows { length lists.old.lists ≤ length lists.new.lists }
    ensures small { length lists.old.lists < 2 ^ 63 → length lists.new.lists < 2 ^ 63 }
    ensures ok { OnOk result (m + 2 < length lists.new.lists) }
{
    while lists.list_count() - 2 <= m {
        lists.add_list()?;
    }
    Ok(())
}
