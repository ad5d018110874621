ghost use Rattle.std.specs.Prelude.{◌≡◌, ◌≤◌, drop, length, take, IfOk};

use lmn_base::Rows;
use std::alloc::{AllocError, Global};

/// What stands in bytes from a place on, at most `most` of them.
fn part_of(bytes: &[u8], from: u64, most: u64) -> &[u8]
    ensures { result.now ≡ take most (drop from bytes.now) }
{
    let rest = &bytes[from.min(bytes.len() as u64) as usize..];
    &rest[..most.min(rest.len() as u64) as usize]
}

/// A copy of it.
pub(crate) fn copy_of_part(
    alloc: Global,
    bytes: &[u8],
    from: u64,
    most: u64,
) -> Result<Rows<u8>, AllocError>
    ensures { IfOk result (λ part. (length part ≤ most) × (part ≡ take most (drop from bytes.now))) }
{
    Ok(Rows::from_vec(Vec::from_slice(alloc, part_of(bytes, from, most))?))
}
