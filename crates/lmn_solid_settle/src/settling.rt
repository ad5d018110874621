ghost use Rattle.std.specs.Prelude.{◌≡◌, List, IfOk};
ghost use Rattle.lmn_solid_settle.specs.Raw.{CanSettle, IsSettled, RawRegion, laid};

use crate::assembling::assemble;
use crate::numbers::Numbers;
use lmn_base::{NoMemory, Rows, Solid, SolidAtom};
use std::alloc::Global;

/// A membrane of a process that is settled, or what stands outside every membrane. Membranes stand in preorder in a table, and the first
/// is the outermost.
#[derive(Drop)]
pub struct RawMembrane {
    /// The number of the membrane around it. The outermost one has 0.
    pub around: usize,
    /// The atoms, in their order. Links have any numbers.
    pub atoms: Rows<SolidAtom>,
    /// The rules, by their numbers, in their order.
    pub rules: Rows<u32>,
}

/// The solid of a process: connectors, by their two links, are fused, and links are numbered in printed order. `links` is greater than
/// each number of a link. It takes no more stack for deeper membranes.
///
/// # Errors
///
/// `NoMemory` at want of memory.
pub fn settle(
    alloc: Global,
    membranes: Vec<RawMembrane>,
    connectors: &[(u32, u32)],
    links: u32,
) -> Result<Solid, NoMemory>
    requires { (r : RawRegion) × (membranes.items ≡ laid 0 0 r) × CanSettle r connectors.now links }
    ensures { (r : RawRegion) → membranes.items ≡ laid 0 0 r → CanSettle r connectors.now links → IfOk result (IsSettled r connectors.now) }
{
    let mut membranes = membranes;
    let mut numbers = Numbers::new(alloc, connectors, links)?;
    numbers.number_all(alloc, membranes.as_mut_slice());
    assemble(alloc, membranes)
}
