ghost use Rattle.std.specs.Prelude.{◌≡◌, ℕ, List, []};
ghost use Rattle.std.specs.Borrow.{ftrue};
ghost use Rattle.lmn_io.specs.Texts.{Fetch, asked_once_more};

use std::marker::{Model, PhantomData};

/// The fetches that a shelf was asked for, which clauses alone read: it takes no memory, and its methods do nothing at run time.
#[derive(Drop)]
pub(crate) struct FetchList {
    marker: PhantomData<u8>,
    pub ghost all: { List Fetch },
}

impl Model for FetchList {
    ghost also_owns = { λ _. ftrue };
}

impl FetchList {
    /// No fetch.
    pub(crate) fn new() -> FetchList
        ensures { result.all ≡ [] }
    {
        FetchList {
            marker: PhantomData,
        }
    }

    /// And one behind them, of the text under a name, if it has at most so many bytes.
    pub(crate) fn note(&mut self, _name: &[u8], _most: u64)
        ensures { self.new.all ≡ asked_once_more _name.now _most self.old.all }
    {}
}
