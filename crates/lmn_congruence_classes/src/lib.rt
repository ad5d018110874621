//! The classes into which connectors join links.
#![tactic(auto)]

ghost use Rattle.std.specs.Prelude.{◌≡◌, ◌<◌, ◌≤◌, ℕ, length, IfOk};
ghost use Rattle.lmn_congruence_splice.specs.Classes.{with_joined, class_of};
ghost use Rattle.lmn_congruence_classes.specs.Tables.{IsForest, Represents, PairsBelow};

use lmn_base::{NoMemory, Rows};
use std::alloc::Global;

/// The least link of the class of a link, by a table in which each link has a lesser one of its class, and the least one
/// itself. The way that was gone is made shorter.
pub fn find(table: &mut Rows<usize>, link: usize) -> usize
    requires below { link < length table.old }
    requires forest { IsForest table.old }
    ensures length { length table.new ≡ length table.old }
    ensures forest { IsForest table.new }
    ensures below { result ≤ link }
    ensures class { (m : ℕ → ℕ) → Represents table.old m → Represents table.new m × (result ≡ m link) × (m result ≡ result) }
{
    let mut at = link;
    loop {
        let up = *table.at(at);
        if up == at {
            return at;
        }
        let over = *table.at(up);
        table.set(at, over);
        at = over;
    }
}

/// Joins the classes of two links.
fn join(table: &mut Rows<usize>, left: usize, right: usize)
    requires left { left < length table.old }
    requires right { right < length table.old }
    requires forest { IsForest table.old }
    ensures length { length table.new ≡ length table.old }
    ensures forest { IsForest table.new }
    ensures class { (m : ℕ → ℕ) → Represents table.old m → Represents table.new (with_joined m left right) }
{
    let a = find(table, left);
    let b = find(table, right);
    if a < b {
        table.set(b, a);
    } else {
        table.set(a, b);
    }
}

/// A table of the links themselves.
fn alone(alloc: Global, links: usize) -> Result<Rows<usize>, NoMemory>
    ensures { IfOk result (λ table. (length table ≡ links) × IsForest table × Represents table (λ z. z)) }
{
    let mut table = Rows::new(alloc);
    for link in 0..links {
        table.push(link)?;
    }
    Ok(table)
}

/// A table of the classes into which connectors join links, which are below `links`.
///
/// # Errors
///
/// `NoMemory` where there is no memory for the table.
pub fn classes_of(
    alloc: Global,
    connectors: &[(u32, u32)],
    links: usize,
) -> Result<Rows<usize>, NoMemory>
    requires { PairsBelow links connectors.now }
    ensures { IfOk result (λ table. (length table ≡ links) × IsForest table × Represents table (class_of connectors.now)) }
{
    let mut table = alone(alloc, links)?;
    for connector in connectors {
        let (left, right) = *connector;
        join(&mut table, left as usize, right as usize);
    }
    Ok(table)
}
