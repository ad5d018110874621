//! The functors of WEIGHTS in an order in which one is found quickly.
ghost use Rattle.std.specs.Prelude.{◌≡◌, ◌<◌, IsTrue, [], if◌then◌else◌, length, slice_index};
ghost use Rattle.std.specs.List.Sorted.{IsPermutation};
ghost use Rattle.lmn_weight.specs.Plains.{listed_weight};
ghost use Rattle.lmn_weight.specs.Index as spec;
ghost use Rattle.lmn_weight.specs.Index.{IsIndexOf, IsRising};

use crate::weights::same_functor;
use arrayvec::ArrayVec;
use lmn_base::{Functor, Label};

/// The most functors that WEIGHTS can name: a line takes 6 bytes at least.
const MOST: usize = 10_922;

/// A functor, and its place among those of WEIGHTS. Entries are compared by the functor first.
#[derive(Clone, Copy, Default, PartialEq, Eq, PartialOrd, Ord)]
struct Entry {
    /// Whether the label is an integer.
    is_integer: bool,
    /// The integer, or the number of the name.
    number: i64,
    /// How many links it has.
    arity: u8,
    /// Where it stands.
    place: u16,
}

/// The places of the functors of WEIGHTS, by a rising order of what stands there.
/// It stands on the stack, in 22 KB, and takes no memory; by the list alone two million atoms beside 8,600 lines
/// would be 18 thousand million comparisons. Places of one functor stand by themselves in rising order, so nothing is
/// asked of the list.
pub(crate) type Index = ArrayVec<u16, MOST>;

/// A functor at a place.
fn entry_of(functor: Functor, place: u16) -> Entry
    ensures { result ≡ spec.entry_of functor place }
{
    let (is_integer, number) = match functor.label {
        Label::Name(name) => (false, i64::from(name)),
        Label::Int(integer) => (true, integer),
    };
    Entry {
        is_integer,
        number,
        arity: functor.arity,
        place,
    }
}

/// What stands at a place: the integer 0 with no links where no functor does.
fn entry_at(functors: &[Functor], place: u16) -> Entry
    ensures { result ≡ spec.entry_at functors.now place }
{
    match functors.get(usize::from(place)) {
        Some(functor) => entry_of(*functor, place),
        None => entry_of(
            Functor {
                label: Label::Int(0),
                arity: 0,
            },
            place,
        ),
    }
}

/// Fills an empty index with the places of the functors, by a rising order. Answers whether it is whole: there are no more of them than
/// WEIGHTS can name. An index is filled where it stands, so that it stands once.
pub(crate) fn fill(index: &mut Index, functors: &[Functor]) -> bool
    requires { index.old.items ≡ [] }
    ensures { IsTrue result → IsIndexOf functors.now index.new.items }
{
    if functors.len() > MOST {
        return false;
    }
    for place in 0..functors.len() {
        if index.try_push(place as u16).is_err() {
            return false;
        }
    }
    sort(index.as_mut_slice(), functors);
    true
}

/// Sorts places by what stands there.
fn sort(places: &mut [u16], functors: &[Functor])
    ensures of { IsPermutation places.old places.new }
    ensures rising { IsRising functors.now places.new }
{
    places.sort_unstable_by_key(|place| entry_at(functors, *place));
}

/// Where the first place stands at which nothing is below the entries of a functor, or how many there are.
fn first_of(index: &[u16], functors: &[Functor], functor: Functor) -> usize
    requires { IsRising functors.now index.now }
    ensures { spec.IsFirstPlace functors.now index.now functor result }
{
    let wanted = entry_of(functor, 0);
    index.partition_point(|place| entry_at(functors, *place) < wanted)
}

/// The weight at a place, if it is that of a functor.
fn weight_at(functors: &[Functor], values: &[u64], place: usize, functor: Functor) -> u64
    requires place { place < length functors.now }
    requires lists { length functors.now ≡ length values.now }
    ensures { result ≡ (if spec.is_at functors.now place functor then slice_index values.now place else 0) }
{
    if same_functor(functors[place], functor) {
        return values[place];
    }
    0
}

/// The weight of a functor by the list.
pub(crate) fn indexed_weight(
    index: &[u16],
    functors: &[Functor],
    values: &[u64],
    functor: Functor,
) -> u64
    requires index { IsIndexOf functors.now index.now }
    requires lists { length functors.now ≡ length values.now }
    ensures { result ≡ listed_weight functors.now values.now functor }
{
    let at = first_of(index, functors, functor);
    if at < index.len() {
        return weight_at(functors, values, usize::from(index[at]), functor);
    }
    0
}
