ghost use Rattle.std.specs.Prelude.{◌≡◌, length, IfOk};
ghost use Rattle.std.specs.Option.{IsSome};
ghost use Rattle.lmn_flatten_numbers.specs.Tallies.{Occurs, EachOccurs, EachOccursAlone, IsOwnTally, AreAlone, IsJoinedEntry, IsJoinedTable};

use crate::packed::PackedTally;
use crate::tally::Tally;
use lmn_base::{LinkUse, NoMemory, Rows};
use std::alloc::Global;

/// The table of links by what was counted in two levels, of which the places in the first come first.
pub(crate) fn table_of(
    alloc: Global,
    head: &Rows<PackedTally>,
    body: &Rows<PackedTally>,
) -> Result<Rows<LinkUse>, NoMemory>
    requires lengths { length head.now ≡ length body.now }
    requires occur { EachOccurs head.now body.now }
    ensures { IfOk result (IsJoinedTable head.now body.now) }
{
    let mut table = Rows::new(alloc);
    for i in 0..head.len() {
        let links = joined(head.at(i).tally(), body.at(i).tally())?;
        table.push(links)?;
    }
    Ok(table)
}

/// What is said of a link that occurs in one of two levels at least.
fn joined(head: Tally, body: Tally) -> Result<LinkUse, NoMemory>
    requires { Occurs head body }
    ensures { IfOk result (IsJoinedEntry head body) }
{
    let places = head.places.followed_by(body.places);
    let first = places.first.unwrap();
    match head.count.checked_add(body.count) {
        None => Err(NoMemory),
        Some(count) => Ok(LinkUse {
            count,
            first,
            third: places.third.unwrap_or(first),
        }),
    }
}

/// The table of links by what was counted in one level.
pub(crate) fn table_alone(
    alloc: Global,
    tallies: &Rows<PackedTally>,
) -> Result<Rows<LinkUse>, NoMemory>
    requires { EachOccursAlone tallies.now }
    ensures { IfOk result (AreAlone tallies.now) }
{
    let mut table = Rows::new(alloc);
    for i in 0..tallies.len() {
        table.push(alone(tallies.at(i).tally()))?;
    }
    Ok(table)
}

/// What is said of a link that occurs in a level.
fn alone(tally: Tally) -> LinkUse
    requires { IsSome tally.places.first }
    ensures { IsOwnTally tally result }
{
    let first = tally.places.first.unwrap();
    let third = tally.places.third.unwrap_or(first);
    LinkUse {
        count: tally.count,
        first,
        third,
    }
}
