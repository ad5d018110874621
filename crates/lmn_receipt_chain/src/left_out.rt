//! Membranes that are left out where a line is compared: a firing in one of them leaves as it was what stands behind it in the line.
ghost use Rattle.std.specs.Prelude.{◌≡◌, ◌<◌, ◌≤◌, ◌⊎◌, ℕ, false, IfOk, IfSome, IsTrue, None, Some, get_or, length};
ghost use Rattle.lmn_base.specs.declared.solid.Solid.{Solid};
ghost use Rattle.lmn_receipt_chain.specs.Alike.{EndsBefore};
ghost use Rattle.lmn_receipt_chain.specs.Bytes.{IsFirstLine};
ghost use Rattle.lmn_receipt_chain.specs.Chains.{line_of_solid};
ghost use Rattle.lmn_receipt_chain.specs.Found.{AreLeftOut};

use crate::alike::closed_alike;
use crate::next::NextSolids;
use lmn_base::NoMemory;
use std::alloc::Global;

/// Whether a membrane as deep as this ends before one of which the depth is known.
fn ends_before(behind: Option<u64>, depth: u64) -> bool
    ensures { IsTrue result → (d : ℕ) × (behind ≡ Some d) × (d ≤ depth) }
{
    match behind {
        Some(other) => other <= depth,
        None => false,
    }
}

/// The lesser of two depths. That of a membrane counts only where more begin with it than may be closed behind another one.
fn least_behind(behind: Option<u64>, depth: u64, closed: u64, begun: u64) -> Option<u64>
    ensures { IfSome result (λ d. (behind ≡ Some d) ⊎ ((closed < begun) × (d ≡ depth))) }
{
    if begun <= closed {
        return behind;
    }
    match behind {
        Some(other) => { if other < depth { behind } else { Some(depth) } }
        None => Some(depth),
    }
}

/// So many marks, none of them set.
fn unmarked(alloc: Global, count: usize) -> Result<Vec<bool>, NoMemory>
    ensures { IfOk result (λ marks. length marks.items ≡ count) }
{
    let mut marks = Vec::new(alloc);
    for _ in 0..count {
        marks.push(false)?;
    }
    Ok(marks)
}

/// The membranes behind whose end more stand than may be closed there, by the depths of all in preorder.
fn ending_before(alloc: Global, depths: &[u64], closed: u64) -> Result<Vec<bool>, NoMemory>
    ensures { IfOk result (λ out. (m : ℕ) → IsTrue (get_or out.items m false) → EndsBefore depths.now closed m) }
{
    let count = depths.len();
    let mut out = unmarked(alloc, count)?;
    let mut behind: Option<u64> = None;
    for membrane in (0..count).rev() {
        let depth = depths[membrane];
        out[membrane] = ends_before(behind, depth);
        behind = least_behind(behind, depth, closed, (count - membrane) as u64);
    }
    Ok(out)
}

/// The membranes of a solid in which no firing leaves a line with which a text begins, since each leaves more as it was than the ends of
/// the two lines have alike.
///
/// # Errors
///
/// `NoMemory` at want of memory.
pub(crate) fn left_out<N: NextSolids>(
    alloc: Global,
    solids: &N,
    tables: &N::Tables,
    own: &[u8],
    text: &[u8],
    line: &[u8],
) -> Result<Vec<bool>, NoMemory>
    requires line { IsFirstLine text.now line.now }
    requires asked { (solid : Solid) × N.fits solids.now solid × N.are_of solids.now solid tables.now }
    ensures { (solid : Solid) → N.fits solids.now solid → N.are_of solids.now solid tables.now → own.now ≡ line_of_solid (N.region solids.now solid) →
        IfOk result (λ out. AreLeftOut (N.region solids.now solid) text.now out.items) }
{
    let depths = solids.depths(alloc, tables)?;
    let closed = closed_alike(alloc, own, line)?;
    ending_before(alloc, depths.as_slice(), closed)
}
