ghost use Rattle.std.specs.Prelude.{◌≡◌, [], None, IfOk};
ghost use Rattle.lmn_flatten_numbers.specs.Tallies.{IsTally};

use crate::tally::{FirstPlaces, Tally};
use lmn_base::{NoMemory, Pos};
use std::marker::Model;

/// A place, or none, in 8 bytes. None is told by the line 0.
#[derive(Drop)]
struct PackedPlace {
    line: u32,
    column: u32,
}

impl Model for PackedPlace {
    ghost use Rattle.std.specs.Prelude.{◌==◌, if◌then◌else◌, Option, Some, None};
    ghost use Rattle.lmn_base.specs.declared.refusal.Pos.{Pos};

    ghost Value = { Option Pos };

    ghost view = { λ p. if p.line == 0 then None else Some (record { line = p.line; column = p.column }) };
}

impl PackedPlace {
    /// No place.
    fn none() -> PackedPlace
        ensures { result ≡ None }
    {
        PackedPlace { line: 0, column: 0 }
    }

    /// The place, or none.
    fn place(&self) -> Option<Pos>
        ensures { result ≡ self.now }
    {
        if self.line == 0 {
            None
        } else {
            Some(Pos {
                line: u64::from(self.line),
                column: u64::from(self.column),
            })
        }
    }
}

/// A place, or none, by numbers of 32 bits. Where these aren't enough, the answer is as for want of memory.
fn packed_place(place: Option<Pos>) -> Result<PackedPlace, NoMemory>
    ensures { IfOk result (λ packed. packed ≡ place) }
{
    match place {
        None => Ok(PackedPlace::none()),
        Some(pos) => match (u32::try_from(pos.line), u32::try_from(pos.column)) {
            (Ok(line), Ok(column)) => {
                if line == 0 {
                    return Err(NoMemory);
                }
                Ok(PackedPlace { line, column })
            }
            _ => Err(NoMemory),
        },
    }
}

/// A tally in 28 bytes. Contracts see the tally.
#[derive(Drop)]
pub(crate) struct PackedTally {
    count: u32,
    first: PackedPlace,
    second: PackedPlace,
    third: PackedPlace,
}

impl Model for PackedTally {
    ghost use Rattle.lmn_flatten_numbers.specs.declared.tally.Tally.{Tally};

    ghost Value = { Tally };

    ghost view = { λ t. record { count = t.count; places = record { first = t.first; second = t.second; third = t.third } } };
}

impl PackedTally {
    /// That of a link that doesn't occur.
    pub(crate) fn none() -> PackedTally
        ensures { IsTally [] result }
    {
        PackedTally {
            count: 0,
            first: PackedPlace::none(),
            second: PackedPlace::none(),
            third: PackedPlace::none(),
        }
    }

    /// The tally.
    pub(crate) fn tally(&self) -> Tally
        ensures { result ≡ self.now }
    {
        Tally {
            count: u64::from(self.count),
            places: FirstPlaces {
                first: self.first.place(),
                second: self.second.place(),
                third: self.third.place(),
            },
        }
    }
}

/// A tally by numbers of 32 bits. Where these aren't enough, the answer is as for want of memory.
pub(crate) fn packed(tally: Tally) -> Result<PackedTally, NoMemory>
    ensures { IfOk result (λ packed. packed ≡ tally) }
{
    let Tally { count, places } = tally;
    let Ok(count) = u32::try_from(count) else {
        return Err(NoMemory);
    };
    let first = packed_place(places.first)?;
    let second = packed_place(places.second)?;
    let third = packed_place(places.third)?;
    Ok(PackedTally {
        count,
        first,
        second,
        third,
    })
}
