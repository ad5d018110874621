ghost use Rattle.std.specs.Prelude.{◌≡◌, ◌≤◌, ◌↔◌, ℕ, List, [], Some, None, option_map, Contains, length, IfOk, IsErrOf};
ghost use Rattle.std.specs.Option.{option_copied};
ghost use Rattle.lmn_io.specs.Counts.{Rose, one_more};
ghost use Rattle.lmn_io.specs.Texts.{text_named, IsFetched, IsMeasured, IsPart, asked_once_more};
ghost use Rattle.lmn_io.specs.Memory.{MemoryShelf, text_in, faults_in, FetchFails};

use crate::fetches::FetchList;
use crate::parts::copy_of_part;
use crate::shelf::{FetchFault, Fetched, Measured, Shelf};
use lmn_base::Rows;
use std::alloc::{AllocError, Global};
use std::marker::Model;

/// Texts in memory, of which the fetches with some numbers fail.
/// Contracts see the texts, the numbers and the counts.
/// Where a name stands twice its first place counts, so nothing asks that names are distinct.
#[derive(Drop)]
pub struct MemShelf {
    names: Rows<Rows<u8>>,
    texts: Rows<Rows<u8>>,
    failing: Rows<u64>,
    calls: u64,
    asked: FetchList,
    listed: u64,
    all: u64,
}

impl Model for MemShelf {
    ghost Value = { MemoryShelf };

    ghost view = { λ s. record { names = s.names; texts = s.texts; failing = s.failing; calls = s.calls; asked = s.asked.all; listed = s.listed; all = s.all } };

    ghost invariant = { λ s. length s.names ≡ length s.texts };
}

/// The text beside the first place of a name.
fn text_at<'a>(names: &[Rows<u8>], texts: &'a [Rows<u8>], name: &[u8]) -> Option<&'a Rows<u8>>
    requires { length names.now ≡ length texts.now }
    ensures { option_copied result ≡ text_named names.now texts.now name.now }
{
    for (i, n) in names.iter().enumerate() {
        if n.as_slice() == name {
            return Some(&texts[i]);
        }
    }
    None
}

fn copy_of(alloc: Global, bytes: &Rows<u8>) -> Result<Rows<u8>, AllocError>
    ensures { IfOk result (λ copy. copy ≡ bytes.now) }
{
    Ok(Rows::from_vec(Vec::from_slice(alloc, bytes.as_slice())?))
}

impl MemShelf {
    /// The texts beside their names; where a name stands twice, its first place counts, so nothing is asked of the names.
    /// It takes no memory: the shelf keeps what it is given.
    pub fn new(
        _alloc: Global,
        names: Rows<Rows<u8>>,
        texts: Rows<Rows<u8>>,
        failing: Rows<u64>,
    ) -> MemShelf
        requires { length names ≡ length texts }
        ensures { result ≡ record { names = names; texts = texts; failing = failing; calls = 0; asked = []; listed = 0; all = 0 } }
    {
        MemShelf {
            names,
            texts,
            failing,
            calls: 0,
            asked: FetchList::new(),
            listed: 0,
            all: 0,
        }
    }
}

impl Shelf for MemShelf {
    ghost told = { λ s. Some (text_in s) };

    ghost faults = { λ s name. faults_in s name };

    ghost asked = { λ s. Some s.asked };

    /// A fetch fails exactly where its number is listed or there is no such name.
    fn fetch(&mut self, alloc: Global, name: &str, most: u64) -> Result<Fetched, FetchFault>
        ensures same { Some (text_in self.new) ≡ Some (text_in self.old) }
        ensures later { (other : List ℕ) → faults_in self.old other ≤ faults_in self.new other }
        ensures asked { Some self.new.asked ≡ option_map (asked_once_more name.now most) (Some self.old.asked) }
        ensures fetched { IfOk result (λ f. IsFetched (Some (text_in self.old)) name.now most f) }
        ensures rose { IsErrOf result FetchFault.Failed → Rose (faults_in self.old name.now) (faults_in self.new name.now) }
        ensures fails { IsErrOf result FetchFault.Failed ↔ FetchFails self.old name.now }
        ensures met { ¬ (FetchFails self.old name.now) → self.new ≡ record self.old { calls = one_more self.old.calls; asked = asked_once_more name.now most self.old.asked } }
        ensures listed { Contains self.old.failing self.old.calls → self.new ≡ record self.old { calls = one_more self.old.calls; asked = asked_once_more name.now most self.old.asked; listed = one_more self.old.listed; all = one_more self.old.all } }
        ensures missing { ¬ (Contains self.old.failing self.old.calls) → text_in self.old name.now ≡ None → self.new ≡ record self.old { calls = one_more self.old.calls; asked = asked_once_more name.now most self.old.asked; all = one_more self.old.all } }
    {
        let call = self.calls;
        self.calls = call.saturating_add(1);
        self.asked.note(name.as_bytes(), most);
        if self.failing.as_slice().contains(&call) {
            self.listed = self.listed.saturating_add(1);
            self.all = self.all.saturating_add(1);
            return Err(FetchFault::Failed);
        }
        let names = self.names.as_slice();
        match text_at(names, self.texts.as_slice(), name.as_bytes()) {
            None => {
                self.all = self.all.saturating_add(1);
                Err(FetchFault::Failed)
            }
            Some(text) => {
                if text.len() as u64 > most {
                    return Ok(Fetched::TooLong);
                }
                match copy_of(alloc, text) {
                    Ok(copy) => Ok(Fetched::Whole(copy)),
                    Err(_) => Err(FetchFault::NoMemory),
                }
            }
        }
    }

    /// A text is measured exactly where it would be fetched.
    fn measure(&mut self, _alloc: Global, name: &str, most: u64) -> Result<Measured, FetchFault>
        ensures same { Some (text_in self.new) ≡ Some (text_in self.old) }
        ensures later { (other : List ℕ) → faults_in self.old other ≤ faults_in self.new other }
        ensures asked { Some self.new.asked ≡ option_map (asked_once_more name.now most) (Some self.old.asked) }
        ensures measured { IfOk result (λ m. IsMeasured (Some (text_in self.old)) name.now most m) }
        ensures rose { IsErrOf result FetchFault.Failed → Rose (faults_in self.old name.now) (faults_in self.new name.now) }
        ensures fails { IsErrOf result FetchFault.Failed ↔ FetchFails self.old name.now }
        ensures met { ¬ (FetchFails self.old name.now) → self.new ≡ record self.old { calls = one_more self.old.calls; asked = asked_once_more name.now most self.old.asked } }
    {
        let call = self.calls;
        self.calls = call.saturating_add(1);
        self.asked.note(name.as_bytes(), most);
        if self.failing.as_slice().contains(&call) {
            self.listed = self.listed.saturating_add(1);
            self.all = self.all.saturating_add(1);
            return Err(FetchFault::Failed);
        }
        let names = self.names.as_slice();
        match text_at(names, self.texts.as_slice(), name.as_bytes()) {
            None => {
                self.all = self.all.saturating_add(1);
                Err(FetchFault::Failed)
            }
            Some(text) => {
                let count = text.len() as u64;
                if count > most {
                    return Ok(Measured::TooLong);
                }
                Ok(Measured::Length(count))
            }
        }
    }

    /// A part fails exactly where a fetch would.
    fn part(
        &mut self,
        alloc: Global,
        name: &str,
        from: u64,
        most: u64,
    ) -> Result<Rows<u8>, FetchFault>
        ensures same { Some (text_in self.new) ≡ Some (text_in self.old) }
        ensures later { (other : List ℕ) → faults_in self.old other ≤ faults_in self.new other }
        ensures asked { Some self.new.asked ≡ Some self.old.asked }
        ensures part { IfOk result (λ bytes. IsPart (Some (text_in self.old)) name.now from most bytes) }
        ensures rose { IsErrOf result FetchFault.Failed → Rose (faults_in self.old name.now) (faults_in self.new name.now) }
        ensures fails { IsErrOf result FetchFault.Failed ↔ FetchFails self.old name.now }
        ensures met { ¬ (FetchFails self.old name.now) → self.new ≡ record self.old { calls = one_more self.old.calls } }
    {
        let call = self.calls;
        self.calls = call.saturating_add(1);
        if self.failing.as_slice().contains(&call) {
            self.listed = self.listed.saturating_add(1);
            self.all = self.all.saturating_add(1);
            return Err(FetchFault::Failed);
        }
        let names = self.names.as_slice();
        match text_at(names, self.texts.as_slice(), name.as_bytes()) {
            None => {
                self.all = self.all.saturating_add(1);
                Err(FetchFault::Failed)
            }
            Some(text) => match copy_of_part(alloc, text.as_slice(), from, most) {
                Ok(part) => Ok(part),
                Err(_) => Err(FetchFault::NoMemory),
            },
        }
    }
}
