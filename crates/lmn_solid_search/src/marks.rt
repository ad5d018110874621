ghost use Rattle.lmn_solid_search.specs.Marks.{never};
ghost use Rattle.std.specs.Prelude.{◌≡◌, ◌<◌, ℕ, IfOk, None, Option, Some, is_some, length, map, slice_get, slice_set};
ghost use Rattle.std.specs.Prelude.{replicate};

use lmn_base::NoMemory;
use std::alloc::Global;
use std::marker::Model;

/// A number that was given to a place, and the round in which it was.
#[derive(Clone, Copy)]
struct Mark {
    round: u64,
    number: usize,
}

/// A mark of no round.
const NEVER: Mark = Mark {
    round: 0,
    number: 0,
};

/// A number beside each of some places, for as long as it isn't cleared. Clearing is one step. Contracts see what each place has.
#[derive(Drop)]
pub(crate) struct Marks {
    /// A place has the number of its mark where this is of the round.
    marks: Vec<Mark>,
    round: u64,
}

impl Model for Marks {
    ghost use Rattle.std.specs.Prelude.{ℕ, List, Option, map};
    ghost use Rattle.lmn_solid_search.specs.Marks.{NoneLater, shown};

    ghost Value = { List (Option ℕ) };

    ghost view = { λ m. map (shown m.round) m.marks.items };

    ghost invariant = { λ m. NoneLater m.round m.marks.items };
}

impl Marks {
    /// No place has a number.
    #[tactic(auto, using(crate::proofs::MarkLemmas::never_told, crate::proofs::MarkLemmas::never_later))]
    pub(crate) fn new(alloc: Global, places: usize) -> Result<Marks, NoMemory>
        ensures { IfOk result (λ m. m ≡ replicate places None) }
    {
        let marks = vec![in alloc; NEVER; places]?;
        Ok(Marks { marks, round: 1 })
    }

    /// No place has a number any more.
    #[tactic(auto, using(crate::proofs::MarkLemmas::later_shown, crate::proofs::MarkLemmas::none_later, crate::proofs::MarkLemmas::never_shown, crate::proofs::MarkLemmas::never_later))]
    pub(crate) fn clear(&mut self)
        ensures { self.new ≡ map (λ _. None) self.old }
    {
        if self.round == u64::MAX {
            forget(self.marks.as_mut_slice());
            self.round = 1;
        } else {
            self.round += 1;
        }
    }

    /// The number of a place.
    pub(crate) fn at(&self, place: usize) -> Option<usize>
        requires { place < length self.now }
        ensures { slice_get self.now place ≡ Some result }
    {
        let mark = self.marks[place];
        if mark.round == self.round {
            Some(mark.number)
        } else {
            None
        }
    }

    /// Whether a place has a number.
    pub(crate) fn has(&self, place: usize) -> bool
        requires { place < length self.now }
        ensures { (number : Option ℕ) → slice_get self.now place ≡ Some number → result ≡ is_some number }
    {
        self.at(place).is_some()
    }

    /// Gives a place a number.
    #[tactic(auto, using(crate::proofs::MarkLemmas::set_shown))]
    pub(crate) fn set(&mut self, place: usize, number: usize)
        requires { place < length self.old }
        ensures { self.new ≡ slice_set self.old place (Some number) }
    {
        self.marks[place] = Mark {
            round: self.round,
            number,
        };
    }
}

/// Each mark is of no round.
fn forget(marks: &mut [Mark])
    ensures { marks.new ≡ replicate (length marks.old) never }
{
    for place in 0..marks.len() {
        marks[place] = NEVER;
    }
}
