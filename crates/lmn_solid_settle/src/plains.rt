ghost use Rattle.std.specs.Prelude.{◌≡◌, ◌++◌, map, OnOk, IfOk, length};
ghost use Rattle.lmn_base.specs.Levels.{leaves_of, links_of};
ghost use Rattle.lmn_base.specs.Links.{EachTwice};
ghost use Rattle.lmn_base.specs.WellMade.{IsWellMade};
ghost use Rattle.lmn_congruence.specs.SolidsOfPlains.{IsSolidOf};
ghost use Rattle.lmn_congruence.specs.SolidsOfPlains as solids;
ghost use Rattle.lmn_schedule_loading.specs.Joining.{connectors_of_leaves, leaf_pairs};
ghost use Rattle.lmn_solid_settle.specs.Raw.{laid};
ghost use Rattle.lmn_solid_settle.specs.Levels.{raw_of_level};

use crate::settling::{RawMembrane, settle};
use lmn_base::{Leaf, Level, NoMemory, Occ, Plain, Rows, Solid, SolidAtom};
use lmn_schedule_loading::add_pair;
use std::alloc::Global;

/// The solid of the top of a plain.
///
/// # Errors
///
/// `NoMemory` at want of memory, and where the top has 2^32 links or more.
pub fn solid_of(alloc: Global, plain: &Plain) -> Result<Solid, NoMemory>
    requires made { IsWellMade plain.now }
    requires closed { EachTwice (links_of plain.now.top) }
    ensures { IfOk result (IsSolidOf plain.now) }
{
    let Ok(links) = u32::try_from(plain.links.len()) else {
        return Err(NoMemory);
    };
    let mut membranes = Vec::new(alloc);
    let mut connectors = Rows::new(alloc);
    add_level(alloc, &plain.top, 0, &mut membranes, &mut connectors)?;
    settle(alloc, membranes, connectors.as_slice(), links)
}

/// Adds what stands in a level, and then what stands in each of its membranes.
fn add_level(
    alloc: Global,
    level: &Level,
    around: usize,
    membranes: &mut Vec<RawMembrane>,
    connectors: &mut Rows<(u32, u32)>,
) -> Result<(), NoMemory>
    ensures membranes { OnOk result (membranes.new.items ≡ membranes.old.items ++ laid around (length membranes.old.items) (raw_of_level level.now)) }
    ensures connectors { OnOk result (connectors.new ≡ connectors.old ++ connectors_of_leaves (leaves_of level.now)) }
{
    let number = membranes.len();
    let mut atoms = Rows::new(alloc);
    for leaf in level.leaves.as_slice() {
        add_leaf(alloc, leaf, &mut atoms, connectors)?;
    }
    let rules = Rows::copied(alloc, level.rules.as_slice())?;
    membranes.push(RawMembrane {
        around,
        atoms,
        rules,
    })?;
    for inner in level.membranes.as_slice() {
        add_level(alloc, inner, number, membranes, connectors)?;
    }
    Ok(())
}

/// Adds a leaf: an atom, or a connector by its two links.
fn add_leaf(
    alloc: Global,
    leaf: &Leaf,
    atoms: &mut Rows<SolidAtom>,
    connectors: &mut Rows<(u32, u32)>,
) -> Result<(), NoMemory>
    ensures atoms { OnOk result (atoms.new ≡ atoms.old ++ solids.fused_leaf (λ x. x) leaf.now) }
    ensures connectors { OnOk result (connectors.new ≡ connectors.old ++ leaf_pairs leaf.now) }
{
    match leaf {
        Leaf::Atom { functor, links, .. } => {
            if functor.is_connector() {
                add_pair(connectors, links.as_slice())
            } else {
                atoms.push(SolidAtom {
                    functor: *functor,
                    links: links_at(alloc, links.as_slice())?,
                })
            }
        }
        Leaf::Typed { .. } => Ok(()),
    }
}

/// The numbers of the links of an atom.
fn links_at(alloc: Global, links: &[Occ]) -> Result<Rows<u64>, NoMemory>
    ensures { IfOk result (λ numbers. numbers ≡ map (λ o. o.link) links.now) }
{
    let mut numbers = Rows::new(alloc);
    for occurrence in links {
        numbers.push(u64::from(occurrence.link))?;
    }
    Ok(numbers)
}
