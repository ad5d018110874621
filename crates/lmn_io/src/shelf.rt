use lmn_base::Rows;
use std::alloc::Global;
use thiserror::Error;

/// What a fetch found.
#[derive(Drop)]
pub enum Fetched {
    /// All bytes of the text.
    Whole(Rows<u8>),
    /// The text has more bytes than were asked for.
    TooLong,
}

/// How long a text is.
#[derive(Clone, Copy)]
pub enum Measured {
    /// The number of its bytes.
    Length(u64),
    /// The text has more bytes than were asked for.
    TooLong,
}

/// Why a fetch gave nothing.
#[derive(Clone, Copy, Debug, PartialEq, Eq, Error)]
pub enum FetchFault {
    /// The text isn't there or couldn't be read. The shelf has counted it.
    #[error("read failed")]
    Failed,
    /// Memory was wanting.
    #[error("out of memory")]
    NoMemory,
}

/// Texts by their names.
pub trait Shelf {
    ghost use Rattle.std.specs.Prelude.{◌≡◌, ◌≤◌, ℕ, List, Option, option_map, IfOk, IsErrOf};
    ghost use Rattle.lmn_io.specs.Counts.{Rose};
    ghost use Rattle.lmn_io.specs.Texts.{Fetch, IsFetched, IsMeasured, IsPart, asked_once_more};

    /// The bytes under each name, where the shelf tells them.
    ghost told: { Self → Option (List ℕ → Option (List ℕ)) };
    /// The count of faults of each name.
    ghost faults: { Self → List ℕ → ℕ };
    /// The fetches that the shelf was asked for, one behind the other, where it tells them.
    ghost asked: { Self → Option (List Fetch) };

    /// The text under a name, if it has at most `most` bytes.
    ///
    /// # Errors
    ///
    /// `Failed` where the text can't be had, which the count of its name shows. `NoMemory` at any time.
    fn fetch(&mut self, alloc: Global, name: &str, most: u64) -> Result<Fetched, FetchFault>
        ensures same { told self.new ≡ told self.old }
        ensures later { (other : List ℕ) → faults self.old other ≤ faults self.new other }
        ensures asked { asked self.new ≡ option_map (asked_once_more name.now most) (asked self.old) }
        ensures fetched { IfOk result (λ f. IsFetched (told self.old) name.now most f) }
        ensures rose { IsErrOf result FetchFault.Failed → Rose (faults self.old name.now) (faults self.new name.now) };

    /// The number of bytes of the text under a name, if it has at most `most`. The text counts as asked for.
    ///
    /// # Errors
    ///
    /// `Failed` where the text can't be had, which the count of its name shows. `NoMemory` at any time.
    fn measure(&mut self, alloc: Global, name: &str, most: u64) -> Result<Measured, FetchFault>
        ensures same { told self.new ≡ told self.old }
        ensures later { (other : List ℕ) → faults self.old other ≤ faults self.new other }
        ensures asked { asked self.new ≡ option_map (asked_once_more name.now most) (asked self.old) }
        ensures measured { IfOk result (λ m. IsMeasured (told self.old) name.now most m) }
        ensures rose { IsErrOf result FetchFault.Failed → Rose (faults self.old name.now) (faults self.new name.now) };

    /// What stands in the text under a name from a place on, counted from 0: as many bytes as there are, at most `most`.
    /// A part is of a text that was asked for before, by `measure` or `fetch`, and asks for nothing more.
    ///
    /// # Errors
    ///
    /// `Failed` where the part can't be had, which the count of the name shows. `NoMemory` at any time.
    fn part(
        &mut self,
        alloc: Global,
        name: &str,
        from: u64,
        most: u64,
    ) -> Result<Rows<u8>, FetchFault>
        ensures same { told self.new ≡ told self.old }
        ensures later { (other : List ℕ) → faults self.old other ≤ faults self.new other }
        ensures asked { asked self.new ≡ asked self.old }
        ensures part { IfOk result (λ bytes. IsPart (told self.old) name.now from most bytes) }
        ensures rose { IsErrOf result FetchFault.Failed → Rose (faults self.old name.now) (faults self.new name.now) };
}
