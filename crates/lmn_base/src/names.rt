ghost use Rattle.std.specs.Prelude.{◌≡◌, ◌≤◌, ◌<◌, ◌^◌, ◌++◌, [], ◌∷◌, length, slice_get, Some, Contains, IfOk, OnOk, OnErr, IfSome, IfNone};
ghost use Rattle.lmn_base.specs.Limits.{longest_name};
ghost use Rattle.lmn_base.specs.Names.{first_names, IsNames};
ghost use Rattle.lmn_base.specs.HeldNames.{names_in};

use crate::functor::{CONNECTOR_NAME, GROUND_NAME, INT_NAME, UNARY_NAME};
use crate::memory::NoMemory;
use indexmap::IndexSet;
use std::alloc::Global;
use std::hash::{BuildHasher, DefaultHasher, Hasher};
use std::marker::Model;

/// Hashes a name behind a key. Which names share a place of a table hangs on all of the key: whoever can't
/// foresee it can't choose such names.
#[derive(Clone, Copy)]
struct KeyedHash {
    /// The hasher that has been fed with the key.
    keyed: DefaultHasher,
}

impl KeyedHash {
    fn new(key: &[u8]) -> KeyedHash {
        let mut keyed = DefaultHasher::new();
        keyed.write(key);
        KeyedHash { keyed }
    }
}

impl BuildHasher for KeyedHash {
    type Hasher = DefaultHasher;

    ghost build_hasher = { λ hash. hash.keyed };

    fn build_hasher(&self) -> DefaultHasher {
        self.keyed
    }
}

/// A list of names by their bytes, each with the number of its place. Contracts see this list. It begins
/// with the four fixed names, and no name stands twice in it.
/// The names after the fixed ones stand in a set in the order of insertion, so the number of a name is its place and
/// four more, and no map to numbers stands beside it.
pub struct Names {
    alloc: Global,
    /// The names after the fixed ones.
    others: IndexSet<Vec<u8>, KeyedHash>,
}

// By hand, so that no crate above proves anew how names are freed.
impl Drop for Names {
    fn drop(self) {
        let Names {
            alloc: _,
            others: _,
        } = self;
    }
}

impl Model for Names {
    ghost use Rattle.std.specs.Prelude.{List, ℕ, ◌++◌};
    ghost use Rattle.lmn_base.specs.Names.{first_names, IsNames};
    ghost use Rattle.lmn_base.specs.HeldNames.{names_in};

    ghost Value = { List (List ℕ) };

    ghost view = { λ n. first_names ++ names_in n.others };

    ghost invariant = { λ n. IsNames (first_names ++ names_in n.others) };
}

impl Names {
    /// The names `=`, `int`, `unary` and `ground`, with the numbers 0 to 3, and no memory taken.
    pub fn new(alloc: Global) -> Names
        ensures { result ≡ first_names }
    {
        Names::with_key(alloc, &[])
    }

    /// The same, where names are hashed behind a key. Names from strangers are held under a key that they
    /// can't foresee, as the digest of all that they wrote: then a look-up takes a few steps, whichever names
    /// they chose.
    pub fn with_key(alloc: Global, key: &[u8]) -> Names
        ensures { result ≡ first_names }
    {
        Names {
            alloc,
            others: IndexSet::with_hasher(alloc, KeyedHash::new(key)),
        }
    }

    /// Another list with the fixed names alone, under the key of this one.
    pub fn another(&self) -> Names
        ensures { result ≡ first_names }
    {
        Names {
            alloc: self.alloc,
            others: IndexSet::with_hasher(self.alloc, *self.others.hasher()),
        }
    }

    /// The number of names held, at least 4. It tells of any list that no name stands in it twice.
    pub fn len(&self) -> usize
        ensures len { result ≡ length self.now }
        ensures names { IsNames self.now }
    {
        self.others.len() + 4
    }

    /// The number of a name that isn't too long, where fewer than 2^32 names are held. A name that is held
    /// keeps its number, and takes no memory; a new one goes to the end of the list.
    ///
    /// # Errors
    ///
    /// `NoMemory` where there is no memory for a new name; nothing has changed.
    pub fn put(&mut self, name: &[u8]) -> Result<u32, NoMemory>
        requires short { length name.now ≤ longest_name }
        requires room { length self.old < 2 ^ 32 }
        ensures number { IfOk result (λ number. slice_get self.new number ≡ Some name.now) }
        ensures held { OnOk result (Contains self.old name.now → self.new ≡ self.old) }
        ensures new { OnOk result (¬ (Contains self.old name.now) → self.new ≡ self.old ++ name.now ∷ []) }
        ensures err { OnErr result (self.new ≡ self.old) }
        ensures err_new { OnErr result (¬ (Contains self.old name.now)) }
    {
        if let Some(number) = self.number_of(name) {
            return Ok(number);
        }
        let number = self.len();
        let text = Vec::from_slice(self.alloc, name)?;
        self.others.insert(text)?;
        Ok(number as u32)
    }

    /// The bytes of the name that has a number. It takes no memory.
    pub fn text(&self, number: u32) -> &[u8]
        requires { number < length self.now }
        ensures { slice_get self.now number ≡ Some result.now }
    {
        match number {
            CONNECTOR_NAME => b"=",
            INT_NAME => b"int",
            UNARY_NAME => b"unary",
            GROUND_NAME => b"ground",
            _ => match self.others.get_index(number as usize - 4) {
                Some(text) => text.as_slice(),
                None => unreachable!(),
            },
        }
    }

    /// The number of a name that is held.
    fn number_of(&self, name: &[u8]) -> Option<u32>
        requires { length self.now < 2 ^ 32 }
        ensures held { IfSome result (λ number. slice_get self.now number ≡ Some name.now) }
        ensures new { IfNone result (¬ (Contains self.now name.now)) }
    {
        match first_number(name) {
            Some(number) => Some(number),
            None => match place_in(&self.others, name) {
                Some(place) => Some((place + 4) as u32),
                None => None,
            },
        }
    }
}

/// The number of a fixed name.
fn first_number(name: &[u8]) -> Option<u32>
    ensures held { IfSome result (λ number. slice_get first_names number ≡ Some name.now) }
    ensures new { IfNone result (¬ (Contains first_names name.now)) }
{
    if name == b"=".as_slice() {
        return Some(CONNECTOR_NAME);
    }
    if name == b"int".as_slice() {
        return Some(INT_NAME);
    }
    if name == b"unary".as_slice() {
        return Some(UNARY_NAME);
    }
    if name == b"ground".as_slice() {
        return Some(GROUND_NAME);
    }
    None
}

/// The place of a name in a set, counted from 0.
fn place_in(names: &IndexSet<Vec<u8>, KeyedHash>, name: &[u8]) -> Option<usize>
    ensures held { IfSome result (λ place. slice_get (names_in names.now) place ≡ Some name.now) }
    ensures new { IfNone result (¬ (Contains (names_in names.now) name.now)) }
{
    names.get_index_of(name)
}
