//! How deep membranes stand.
ghost use Rattle.std.specs.Prelude.{◌≡◌, ◌+◌, ℕ, List, Some, None, IfOk, get_or, length, map};
ghost use Rattle.lmn_base.specs.declared.rule.RuleTree.{RuleTree};
ghost use Rattle.lmn_base.specs.declared.solid.Solid.{Solid};
ghost use Rattle.lmn_congruence.specs.Rules.{Name};
ghost use Rattle.lmn_congruence.specs.Translation.{region_of};
ghost use Rattle.lmn_adequacy.specs.Choice.{paths};
ghost use Rattle.lmn_solid_tables.specs.Flats.{IsFlatOf};

use lmn_base::NoMemory;
use lmn_solid_tables::Flat;
use std::alloc::Global;

/// The depth of what stands in a membrane, by the depths of membranes so far, and of the root.
fn depth_in(depths: &[u64], outer: Option<usize>) -> Result<u64, NoMemory>
    ensures root { outer ≡ None → IfOk result (λ depth. depth ≡ 0) }
    ensures inside { (m : ℕ) → outer ≡ Some m → IfOk result (λ depth. depth ≡ get_or depths.now m 0 + 1) }
{
    let Some(membrane) = outer else {
        return Ok(0);
    };
    let around = match depths.get(membrane) {
        Some(depth) => *depth,
        None => 0,
    };
    match around.checked_add(1) {
        Some(depth) => Ok(depth),
        None => Err(NoMemory),
    }
}

/// How deep each membrane of a solid stands, in preorder: the root at 0.
///
/// # Errors
///
/// `NoMemory` at want of memory.
pub(crate) fn depths_of(alloc: Global, flat: &Flat) -> Result<Vec<u64>, NoMemory>
    requires { (s : Solid) × IsFlatOf s flat.now }
    ensures { (names : List Name) (table : List RuleTree) (s : Solid) → IsFlatOf s flat.now →
        IfOk result (λ depths. depths.items ≡ map length (paths (region_of names table s))) }
{
    let count = flat.membrane_count();
    let mut depths = Vec::new(alloc);
    for membrane in 0..count {
        let depth = depth_in(depths.as_slice(), flat.parent(membrane))?;
        depths.push(depth)?;
    }
    Ok(depths)
}
