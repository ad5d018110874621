//! What a plain says of its items and connectors.
ghost use Rattle.std.specs.Prelude.{◌≡◌, ◌-◌, ◌++◌, ◌^◌, min, OnOk};
ghost use Rattle.lmn_base.specs.Levels.{leaves_of};
ghost use Rattle.lmn_schedule_loading.specs.Joining.{pair_of, leaf_pairs, connectors_of_leaves};
ghost use Rattle.lmn_schedule_loading.specs.Loaded.{atoms_among, loaded_items, one_if_atom};

use lmn_base::{Leaf, Level, NoMemory, Occ, Rows};

/// 1 for an atom that is no connector, and else 0.
fn one_if_atom(leaf: &Leaf) -> u64
    ensures { result ≡ one_if_atom leaf.now }
{
    match leaf {
        Leaf::Atom { functor, .. } => { if functor.is_connector() { 0 } else { 1 } }
        Leaf::Typed { .. } => 0,
    }
}

/// How many of the leaves are atoms and no connectors, or 2^64 - 1 where there are more.
fn number_of_atoms(leaves: &[Leaf]) -> u64
    ensures { result ≡ min (atoms_among leaves.now) (2 ^ 64 - 1) }
{
    let mut number = 0u64;
    for leaf in leaves {
        number = number.saturating_add(one_if_atom(leaf));
    }
    number
}

/// How many items the process of a level has, without its connectors, or 2^64 - 1 where it has more.
pub fn number_of_items(level: &Level) -> u64
    ensures { result ≡ min (loaded_items level.now) (2 ^ 64 - 1) }
{
    let mut number = number_of_atoms(level.leaves.as_slice())
        .saturating_add(level.membranes.len() as u64)
        .saturating_add(level.rules.len() as u64);
    for inner in level.membranes.as_slice() {
        number = number.saturating_add(number_of_items(inner));
    }
    number
}

/// Adds the two links of a connector.
pub fn add_pair(pairs: &mut Rows<(u32, u32)>, links: &[Occ]) -> Result<(), NoMemory>
    ensures { OnOk result (pairs.new ≡ pairs.old ++ pair_of links.now) }
{
    match links {
        [left, right, ..] => pairs.push((left.link, right.link)),
        _ => Ok(()),
    }
}

/// Adds a leaf, if it is a connector.
fn add_connector(pairs: &mut Rows<(u32, u32)>, leaf: &Leaf) -> Result<(), NoMemory>
    ensures { OnOk result (pairs.new ≡ pairs.old ++ leaf_pairs leaf.now) }
{
    match leaf {
        Leaf::Atom { functor, links, .. } => {
            if functor.is_connector() {
                add_pair(pairs, links.as_slice())
            } else {
                Ok(())
            }
        }
        Leaf::Typed { .. } => Ok(()),
    }
}

/// Adds the connectors of a level, and then those in each of its membranes.
pub fn add_connectors(pairs: &mut Rows<(u32, u32)>, level: &Level) -> Result<(), NoMemory>
    ensures { OnOk result (pairs.new ≡ pairs.old ++ connectors_of_leaves (leaves_of level.now)) }
{
    for leaf in level.leaves.as_slice() {
        add_connector(pairs, leaf)?;
    }
    for inner in level.membranes.as_slice() {
        add_connectors(pairs, inner)?;
    }
    Ok(())
}
