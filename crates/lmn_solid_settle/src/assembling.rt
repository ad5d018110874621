ghost use Rattle.std.specs.Prelude.{◌≡◌, map, IfOk};
ghost use Rattle.lmn_solid_settle.specs.Raw.{RawRegion, laid, settled};
ghost use Rattle.lmn_solid_settle.specs.Tables.{empty_part, whole};

use crate::settling::RawMembrane;
use lmn_base::{NoMemory, Region, Rows, Solid, SolidAtom};
use std::alloc::Global;

/// A membrane that is put together: its membranes come from the last to the first.
#[derive(Drop)]
pub(crate) struct Part {
    around: usize,
    atoms: Rows<SolidAtom>,
    membranes: Rows<Region>,
    rules: Rows<u32>,
}

/// Puts membranes into those around them. For want of memory what was put together is let go, however deep it is.
pub(crate) fn assemble(alloc: Global, membranes: Vec<RawMembrane>) -> Result<Solid, NoMemory>
    requires { (r : RawRegion) × (membranes.items ≡ laid 0 0 r) }
    ensures { (r : RawRegion) → membranes.items ≡ laid 0 0 r → IfOk result (λ s. s.root ≡ settled (λ x. x) r) }
{
    let mut parts = parts_of(alloc, membranes)?;
    while let Some(part) = parts.pop() {
        let around = part.around;
        let region = whole(part);
        if parts.is_empty() {
            return Ok(Solid { root: region });
        }
        if let Err(failed) = parts[around].membranes.offer(region) {
            failed.value.dismantle();
            let_go(parts);
            return Err(NoMemory);
        }
    }
    Err(NoMemory)
}

/// The membranes, without any in them yet.
fn parts_of(alloc: Global, membranes: Vec<RawMembrane>) -> Result<Vec<Part>, NoMemory>
    ensures { IfOk result (λ parts. parts.items ≡ map empty_part membranes.items) }
{
    let mut parts = Vec::new(alloc);
    for membrane in membranes {
        let RawMembrane {
            around,
            atoms,
            rules,
        } = membrane;
        parts.push(Part {
            around,
            atoms,
            membranes: Rows::new(alloc),
            rules,
        })?;
    }
    Ok(parts)
}

/// The region of a membrane that has got all that are in it.
fn whole(part: Part) -> Region
    ensures { result ≡ whole part }
{
    let Part {
        atoms,
        membranes,
        rules,
        ..
    } = part;
    let mut inner = membranes.into_vec();
    inner.reverse();
    Region {
        atoms,
        membranes: Rows::from_vec(inner),
        rules,
    }
}

/// Lets parts go however deep their membranes are.
fn let_go(parts: Vec<Part>) {
    for part in parts {
        for region in part.membranes.into_vec() {
            region.dismantle();
        }
    }
}
