ghost use Rattle.std.specs.Prelude.{◌≡◌, ◌<◌, ◌≤◌, ◌-◌, ◌++◌, ◌∷◌, [], length, slice_index_or, OnOk, OnErr};

use lmn_base::NoMemory;
use std::alloc::Global;
use std::marker::Model;

/// The rules of a membrane, by number, and how many more may be added without memory.
#[derive(Drop)]
pub struct Rules {
    numbers: Vec<u32>,
    spare: u64,
}

impl Model for Rules {
    ghost use Rattle.std.specs.Prelude.{◌+◌, ◌≤◌, vec_len, vec_capacity};
    ghost use Rattle.lmn_store_counts.specs.RuleLists.{RuleList};

    ghost Value = { RuleList };

    ghost view = { λ r. record { numbers = r.numbers.items; spare = r.spare } };

    ghost invariant = { λ r. vec_len r.numbers + r.spare ≤ vec_capacity r.numbers };
}

impl Rules {
    /// No rules.
    pub fn new(alloc: Global) -> Rules
        ensures { result ≡ record { numbers = []; spare = 0 } }
    {
        Rules {
            numbers: Vec::new(alloc),
            spare: 0,
        }
    }

    /// The number of rules.
    pub fn len(&self) -> u64
        ensures { result ≡ length self.now.numbers }
    {
        self.numbers.len() as u64
    }

    /// How many more rules may be added without memory.
    pub fn spare(&self) -> u64
        ensures { result ≡ self.now.spare }
    {
        self.spare
    }

    /// The rule at a place.
    pub fn at(&self, i: u64) -> u32
        requires { i < length self.now.numbers }
        ensures { slice_index_or self.now.numbers i 0 ≡ result }
    {
        self.numbers[i as usize]
    }

    /// Makes room for so many more.
    pub fn reserve(&mut self, spare: u64) -> Result<(), NoMemory>
        ensures ok { OnOk result (self.new ≡ record self.old { spare = spare }) }
        ensures err { OnErr result (self.new ≡ self.old) }
    {
        self.numbers.reserve(spare as usize)?;
        self.spare = spare;
        Ok(())
    }

    /// A rule goes to the end.
    pub fn push(&mut self, k: u32)
        requires { 1 ≤ self.old.spare }
        ensures { self.new ≡ record { numbers = self.old.numbers ++ k ∷ []; spare = self.old.spare - 1 } }
    {
        self.numbers.push_reserved(k);
        self.spare -= 1;
    }
}
