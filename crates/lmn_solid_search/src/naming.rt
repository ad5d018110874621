//! What the names of typed contexts stand for.
ghost use Rattle.std.specs.Prelude.{◌≡◌, ℕ, IfOk, Some, length, slice_get};
ghost use Rattle.lmn_store_heap.specs.Heap.{IsAtom};
ghost use Rattle.lmn_solid_tables.specs.Flats.{heap_of};
ghost use Rattle.lmn_solid_search.specs.Knowing.{KnowsIntegers, part_named};
ghost use Rattle.lmn_solid_search.specs.Parting.{first_named};
ghost use Rattle.lmn_solid_search.specs.declared.parts.Part.{Part as PartOf};

use crate::head::TypedItem;
use crate::known::Known;
use crate::parts::Part;
use lmn_base::NoMemory;
use lmn_solid_tables::Flat;
use std::alloc::Global;

/// What the names of typed contexts stand for.
pub(crate) fn known_of(
    alloc: Global,
    flat: &Flat,
    typed: &[TypedItem],
    parts: &[Part],
) -> Result<Known, NoMemory>
    requires all { length parts.now ≡ length typed.now }
    requires entries { (n : ℕ) (part : PartOf) → slice_get parts.now n ≡ Some part → IsAtom (heap_of flat.now) part.entry.atom }
    ensures parts { IfOk result (λ known. (x : ℕ) → part_named known.parts x ≡ first_named typed.now parts.now x) }
    ensures integers { IfOk result (KnowsIntegers (heap_of flat.now)) }
{
    let mut known = Known::new(alloc);
    for number in 0..typed.len() {
        known.add(flat, typed[number].name, parts[number].entry)?;
    }
    Ok(known)
}
