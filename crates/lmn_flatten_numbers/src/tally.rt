ghost use Rattle.std.specs.Prelude.{◌≡◌, ◌<◌, ◌∷◌, ◌++◌, [], List, length, All, IfOk, OnOk};
ghost use Rattle.std.specs.Option.{option_or};
ghost use Rattle.lmn_base.specs.declared.refusal.Pos.{Pos};
ghost use Rattle.lmn_base.specs.Levels.{occurrences_of_leaf, occurrences_of, links_of, link_numbers};
ghost use Rattle.lmn_flatten_numbers.specs.Tallies.{AreFirstThree, AreFirst, IsTally, AreTallies, CountsOccurrences, comes_before};

use crate::packed::{PackedTally, packed};
use lmn_base::{Leaf, Level, NoMemory, Occ, Pos, Rows};
use std::alloc::Global;

/// The first three of some places, by rising place, and fewer where there are fewer.
#[derive(Clone, Copy)]
pub(crate) struct FirstPlaces {
    pub(crate) first: Option<Pos>,
    pub(crate) second: Option<Pos>,
    pub(crate) third: Option<Pos>,
}

impl FirstPlaces {
    /// The same with one place more.
    fn with(self, pos: Pos) -> FirstPlaces
        ensures { (ps : List Pos) → AreFirst ps self → AreFirst (ps ++ pos ∷ []) result }
    {
        let FirstPlaces {
            first,
            second,
            third,
        } = self;
        if comes_before(pos, first) {
            FirstPlaces {
                first: Some(pos),
                second: first,
                third: second,
            }
        } else if comes_before(pos, second) {
            FirstPlaces {
                first,
                second: Some(pos),
                third: second,
            }
        } else if comes_before(pos, third) {
            FirstPlaces {
                first,
                second,
                third: Some(pos),
            }
        } else {
            self
        }
    }

    /// Those of a list that goes on with another one, by those of each.
    pub(crate) fn followed_by(self, more: FirstPlaces) -> FirstPlaces
        ensures places { (ps qs : List Pos) → AreFirstThree ps self → AreFirstThree qs more → AreFirstThree (ps ++ qs) result }
        ensures first { result.first ≡ option_or self.first more.first }
    {
        if self.first.is_none() {
            more
        } else if self.second.is_none() {
            FirstPlaces {
                first: self.first,
                second: more.first,
                third: more.second,
            }
        } else if self.third.is_none() {
            FirstPlaces {
                first: self.first,
                second: self.second,
                third: more.first,
            }
        } else {
            self
        }
    }
}

/// Whether a place is not after another one, or there is no other.
fn comes_before(pos: Pos, other: Option<Pos>) -> bool
    ensures { result ≡ comes_before pos other }
{
    match other {
        None => true,
        Some(other) => pos.is_not_after(other),
    }
}

/// How often a link occurs in a level, and the first places where it does.
#[derive(Clone, Copy)]
pub(crate) struct Tally {
    /// The number of its occurrences.
    pub(crate) count: u64,
    /// The first of their places.
    pub(crate) places: FirstPlaces,
}

impl Tally {
    /// The same with one occurrence more. No memory holds so many that their number needs more than 64 bits.
    fn with(self, pos: Pos) -> Result<Tally, NoMemory>
        ensures { IfOk result (λ more. (ps : List Pos) → IsTally ps self → IsTally (ps ++ pos ∷ []) more) }
    {
        match self.count.checked_add(1) {
            None => Err(NoMemory),
            Some(count) => Ok(Tally {
                count,
                places: self.places.with(pos),
            }),
        }
    }
}

/// The tallies of a level, one for each of `count` links, by its number.
pub(crate) fn tallies_of(
    alloc: Global,
    level: &Level,
    count: u32,
) -> Result<Rows<PackedTally>, NoMemory>
    requires { All (λ k. k < count) (links_of level.now) }
    ensures { IfOk result (λ tallies. (length tallies ≡ count) × AreTallies (occurrences_of level.now) tallies) }
{
    let mut tallies = no_tallies(alloc, count)?;
    count_level(&mut tallies, level)?;
    Ok(tallies)
}

/// The tallies of links that don't occur.
fn no_tallies(alloc: Global, count: u32) -> Result<Rows<PackedTally>, NoMemory>
    ensures { IfOk result (λ tallies. (length tallies ≡ count) × AreTallies [] tallies) }
{
    let mut tallies = Rows::new(alloc);
    for _ in 0..count {
        tallies.push(PackedTally::none())?;
    }
    Ok(tallies)
}

/// Counts what occurs in a level, at every depth.
fn count_level(tallies: &mut Rows<PackedTally>, level: &Level) -> Result<(), NoMemory>
    requires { All (λ k. k < length tallies.old) (links_of level.now) }
    ensures { OnOk result (CountsOccurrences (occurrences_of level.now) tallies.old tallies.new) }
{
    for leaf in level.leaves.as_slice() {
        count_leaf(tallies, leaf)?;
    }
    for inner in level.membranes.as_slice() {
        count_level(tallies, inner)?;
    }
    Ok(())
}

fn count_leaf(tallies: &mut Rows<PackedTally>, leaf: &Leaf) -> Result<(), NoMemory>
    requires { All (λ k. k < length tallies.old) (link_numbers (occurrences_of_leaf leaf.now)) }
    ensures { OnOk result (CountsOccurrences (occurrences_of_leaf leaf.now) tallies.old tallies.new) }
{
    match leaf {
        Leaf::Atom { links, .. } => count_links(tallies, links.as_slice()),
        Leaf::Typed { link, .. } => count_link(tallies, *link),
    }
}

fn count_links(tallies: &mut Rows<PackedTally>, links: &[Occ]) -> Result<(), NoMemory>
    requires { All (λ k. k < length tallies.old) (link_numbers links.now) }
    ensures { OnOk result (CountsOccurrences links.now tallies.old tallies.new) }
{
    for link in links {
        count_link(tallies, *link)?;
    }
    Ok(())
}

fn count_link(tallies: &mut Rows<PackedTally>, occurrence: Occ) -> Result<(), NoMemory>
    requires { occurrence.link < length tallies.old }
    ensures { OnOk result (CountsOccurrences (occurrence ∷ []) tallies.old tallies.new) }
{
    let i = occurrence.link as usize;
    let tally = tallies.at(i).tally().with(occurrence.pos)?;
    tallies.set(i, packed(tally)?);
    Ok(())
}
