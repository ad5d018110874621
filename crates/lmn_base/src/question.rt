ghost use Rattle.std.specs.Prelude.{List, [], ◌++◌, option_to_list, ◌≡◌, nat_lt, length};
ghost use Rattle.lmn_base.specs.declared.refusal.Pos.{Pos};
ghost use Rattle.lmn_base.specs.Firsts.{IsFound, earlier};
ghost use Rattle.lmn_base.specs.Uses.{is_some_place};

use crate::item::Item;
use crate::refusal::Pos;

/// A question to each item of a part of a rule: whether something holds of it, and at which place.
pub trait Question {
    ghost use Rattle.std.specs.Prelude.{List, option_to_list, ◌≡◌};
    ghost use Rattle.lmn_base.specs.declared.item.Item.{Item};
    ghost use Rattle.lmn_base.specs.declared.refusal.Pos.{Pos};

    ghost places: { Self → Item → List Pos };

    /// The place, where it holds of the item.
    fn place(&self, item: Item) -> Option<Pos>
        ensures { option_to_list result ≡ places self.now item };
}

/// What was found among some places: the first of them, and how many there are.
#[derive(Clone, Copy)]
pub struct Found {
    /// The first place in the text.
    pub first: Option<Pos>,
    /// The number of places, or 2^64 - 1 where there are more.
    pub count: u64,
}

impl Found {
    /// Nothing.
    pub fn nothing() -> Found
        ensures { IsFound [] result }
    {
        Found {
            first: None,
            count: 0,
        }
    }

    /// At most one place.
    pub fn one(place: Option<Pos>) -> Found
        ensures { IsFound (option_to_list place) result }
    {
        match place {
            Some(pos) => Found {
                first: Some(pos),
                count: 1,
            },
            None => Found::nothing(),
        }
    }

    /// Whether there is a place.
    pub fn is_somewhere(self) -> bool
        ensures { (ps : List Pos) → IsFound ps self → result ≡ is_some_place ps }
    {
        self.first.is_some()
    }

    /// Whether there is more than one place.
    pub fn is_more_than_one(self) -> bool
        ensures { (ps : List Pos) → IsFound ps self → result ≡ nat_lt 1 (length ps) }
    {
        self.count > 1
    }

    /// What was found among the places of both.
    pub fn and(self, more: Found) -> Found
        ensures { (ps qs : List Pos) → IsFound ps self → IsFound qs more → IsFound (ps ++ qs) result }
    {
        Found {
            first: earlier(self.first, more.first),
            count: self.count.saturating_add(more.count),
        }
    }
}

/// The earlier of two places, where there are two.
fn earlier(one: Option<Pos>, other: Option<Pos>) -> Option<Pos>
    ensures { result ≡ earlier one other }
{
    match one {
        None => other,
        Some(p) => match other {
            None => Some(p),
            Some(q) => Some(if p.is_not_after(q) { p } else { q }),
        },
    }
}
