ghost use Rattle.std.specs.Prelude.{◌<◌, ◌++◌, All, IfOk};
ghost use Rattle.lmn_base.specs.Levels.{links_of};
ghost use Rattle.lmn_flatten_numbers.specs.Scopes.{NumbersLevel, NumbersRule};

use crate::numbering::Numbering;
use crate::table::{table_alone, table_of};
use crate::tally::tallies_of;
use lmn_base::{Level, LinkUse, NoMemory, Rows};
use std::alloc::Global;

/// Numbers the links of a level by first occurrence in the order in which they are printed, and answers the table of
/// its links. Before, each link has a key below `keys`, and different links have different keys.
///
/// # Errors
///
/// `NoMemory` where there is no memory for the numbers or the table; nothing is said of the level then.
pub fn number_level(alloc: Global, level: &mut Level, keys: u32) -> Result<Rows<LinkUse>, NoMemory>
    requires { All (λ key. key < keys) (links_of level.old) }
    ensures { IfOk result (NumbersLevel level.old level.new) }
{
    let mut numbering = Numbering::new(alloc, keys)?;
    numbering.number_level(alloc, level);
    let count = numbering.count();
    let tallies = tallies_of(alloc, level, count)?;
    table_alone(alloc, &tallies)
}

/// Numbers the links of a rule by first occurrence in its head and then its body, each in the order in which it is printed,
/// and answers the table of its links. Before, each link has a key below `keys`, and different links have
/// different keys.
///
/// # Errors
///
/// `NoMemory` where there is no memory for the numbers or the table; nothing is said of head and body then.
pub fn number_rule(
    alloc: Global,
    head: &mut Level,
    body: &mut Level,
    keys: u32,
) -> Result<Rows<LinkUse>, NoMemory>
    requires { All (λ key. key < keys) (links_of head.old ++ links_of body.old) }
    ensures { IfOk result (NumbersRule head.old body.old head.new body.new) }
{
    let mut numbering = Numbering::new(alloc, keys)?;
    numbering.number_level(alloc, head);
    numbering.number_level(alloc, body);
    let count = numbering.count();
    let in_head = tallies_of(alloc, head, count)?;
    let in_body = tallies_of(alloc, body, count)?;
    table_of(alloc, &in_head, &in_body)
}
