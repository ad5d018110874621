//! Next solids of the rules of a plain.
use crate::depths::depths_of;
use crate::feeds::are_without;
use crate::next::embeds;
use crate::tables::SearchTables;
use lmn_base::{Names, NoMemory, Plain, Solid};
use lmn_guards::GuardPlan;
use lmn_receipt_chain::{NextSolid, NextSolids};
use lmn_receipt_line::{front, hint, membranes};
use std::alloc::Global;

/// Next solids by plain search over lists, for the rules of a plain. No store, machine or code has a part in it.
#[derive(Drop)]
pub struct PlainSearch<'p> {
    names: &'p Names,
    plain: &'p Plain,
    plans: &'p [GuardPlan],
    /// Whether no name has a line feed: then a line ends at its first one.
    without_feeds: bool,
}

impl<'p> PlainSearch<'p> {
    ghost use Rattle.std.specs.Prelude.{◌≡◌, ◌≤◌, ◌++◌, ℕ, List, false, IsTrue, get_or};
    ghost use Rattle.lmn_congruence.specs.Regions.{Region, item_count_of_region};
    ghost use Rattle.lmn_receipt_chain.specs.Bytes.{IsFirstLine};
    ghost use Rattle.lmn_receipt_chain.specs.Chains.{line_of_solid};
    ghost use Rattle.lmn_receipt_search.specs.Feeds.{IsQuiet, NamesWithout};

    /// With the plans of the rules, and names by which lines of solids are read.
    pub fn new(names: &'p Names, plain: &'p Plain, plans: &'p [GuardPlan]) -> PlainSearch<'p>
        ensures names { result.names.now ≡ names.now }
        ensures plain { result.plain.now ≡ plain.now }
        ensures plans { result.plans.now ≡ plans.now }
        ensures feeds { IsTrue result.without_feeds → NamesWithout names.now }
    {
        PlainSearch {
            names,
            plain,
            plans,
            without_feeds: are_without(names),
        }
    }

    /// How many items a solid has at most with whose line a text begins: a line has a byte for each at least. `line` is the first one of the text.
    fn most_items(&self, text: &[u8], line: &[u8]) -> u64
        requires line { IsFirstLine text.now line.now }
        requires names { IsTrue self.now.without_feeds → NamesWithout self.now.names.now }
        ensures { (S : Region) (more : List ℕ) → (NamesWithout self.now.names.now → IsQuiet S) → text.now ≡ line_of_solid S ++ more → item_count_of_region S ≤ result }
    {
        if self.without_feeds {
            line.len() as u64
        } else {
            text.len() as u64
        }
    }

    /// The membranes that are left out; none where it isn't known where a line ends.
    fn passed<'l>(&self, left_out: &'l [bool]) -> &'l [bool]
        requires { IsTrue self.now.without_feeds → NamesWithout self.now.names.now }
        ensures { (m : ℕ) → IsTrue (get_or result.now m false) → NamesWithout self.now.names.now × IsTrue (get_or left_out.now m false) }
    {
        if self.without_feeds {
            left_out
        } else {
            &left_out[..0]
        }
    }
}

impl NextSolids for PlainSearch<'_> {
    ghost use Rattle.std.specs.Prelude.{IsTrue};
    ghost use Rattle.lmn_congruence.specs.Translation.{region_of};
    ghost use Rattle.lmn_solid_next.specs.Searching.{CanSearch, IsSolidBy};
    ghost use Rattle.lmn_receipt_search.specs.Feeds.{NamesWithout};
    ghost use Rattle.lmn_receipt_search.specs.Tables.{AreSearchTables};

    type Tables = SearchTables;

    ghost fits = { λ p s. CanSearch p.names.now p.plain.now p.plans.now × IsSolidBy p.names.now p.plain.now s × (IsTrue p.without_feeds → NamesWithout p.names.now) };

    ghost region = { λ p s. region_of p.names.now p.plain.now.rules s };

    ghost are_of = { λ p s tables. AreSearchTables s tables };

    fn membranes(&self, alloc: Global, solid: &Solid) -> Result<u64, NoMemory> {
        membranes(alloc, solid)
    }

    fn tables(&self, alloc: Global, solid: &Solid) -> Result<SearchTables, NoMemory> {
        SearchTables::of(alloc, solid)
    }

    fn depths(&self, alloc: Global, tables: &SearchTables) -> Result<Vec<u64>, NoMemory> {
        depths_of(alloc, &tables.flat)
    }

    fn next_from(
        &self,
        alloc: Global,
        tables: &mut SearchTables,
        from: u64,
        text: &[u8],
        line: &[u8],
        left_out: &[bool],
    ) -> Result<Option<NextSolid>, NoMemory> {
        let limit = self.most_items(text, line);
        let passed = self.passed(left_out);
        tables.next_from(alloc, self.plain, self.plans, from, limit, passed)
    }

    fn embeds(&self, alloc: Global, solid: &Solid) -> Result<bool, NoMemory> {
        embeds(alloc, solid, self.plain, self.plans)
    }

    fn hint(&self, alloc: Global, solid: &Solid, text: &[u8]) -> Result<u64, NoMemory> {
        hint(alloc, self.names, self.plain.rules.as_slice(), solid, text)
    }

    fn front(&self, alloc: Global, solid: &Solid, text: &[u8]) -> Result<Option<usize>, NoMemory> {
        front(alloc, self.names, self.plain.rules.as_slice(), solid, text)
    }
}
