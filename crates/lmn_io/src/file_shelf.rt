ghost use Rattle.std.specs.Prelude.{◌≡◌, ℕ, List, [], None, Some, ◌≤◌, length, take, option_map, IfOk, IfSome};
ghost use Rattle.lmn_io.specs.Texts.{IsFetched, IsMeasured, IsPart};

use crate::fetches::FetchList;
use crate::parts::copy_of_part;
use crate::shelf::{FetchFault, Fetched, Measured, Shelf};
use lmn_base::Rows;
use std::alloc::{AllocError, Global};
use std::fs::OpenFile;
use std::io::{Read, Seek, SeekFrom};
use std::rt::Files;
use std::{fs, io};

/// A text that was read whole to be measured, since its file has no length: a pipe can't be read twice.
#[derive(Drop)]
struct WholeText {
    name: Rows<u8>,
    bytes: Rows<u8>,
}

/// Files, read through the runtime that the shelf is lent. It tells no bytes. It tells what it was asked for, and its one count is
/// that of every name.
#[derive(Drop)]
pub struct FileShelf<'a, R: Files> {
    rt: &'a R,
    asked: FetchList,
    failures: u64,
    whole: Option<WholeText>,
}

impl WholeText {
    fn new(alloc: Global, name: &str, bytes: Rows<u8>) -> Result<WholeText, AllocError> {
        let name = Rows::from_vec(Vec::from_slice(alloc, name.as_bytes())?);
        Ok(WholeText { name, bytes })
    }

    fn is_of(&self, name: &str) -> bool {
        self.name.as_slice() == name.as_bytes()
    }

    fn part(&self, alloc: Global, from: u64, most: u64) -> Result<Rows<u8>, FetchFault>
        ensures { IfOk result (λ part. length part ≤ most) }
    {
        copy_of_part(alloc, self.bytes.as_slice(), from, most).map_err(no_memory)
    }
}

impl<'a, R: Files> FileShelf<'a, R> {
    /// A shelf over the files of a runtime, which was asked for nothing and has counted no fault of any name.
    pub fn new(rt: &'a R) -> FileShelf<'a, R>
        ensures asked { ⟦<FileShelf<'a, R> as Shelf>⟧.asked result ≡ Some [] }
        ensures faults { (name : List ℕ) → ⟦<FileShelf<'a, R> as Shelf>⟧.faults result name ≡ 0 }
    {
        FileShelf {
            rt,
            asked: FetchList::new(),
            failures: 0,
            whole: None,
        }
    }
}

/// What an error of the system means to a shelf. Only want of memory is told apart: a file that can't be read is a fault.
fn fault_of(error: io::Error) -> FetchFault {
    if error.kind() == io::ErrorKind::OutOfMemory {
        FetchFault::NoMemory
    } else {
        FetchFault::Failed
    }
}

fn no_memory(_error: AllocError) -> FetchFault {
    FetchFault::NoMemory
}

/// All bytes of a file that was opened, if they are at most `most`. One more than that is read at most.
fn read_all<F: Read + Drop>(file: F, alloc: Global, most: u64) -> Result<Fetched, FetchFault>
    ensures { (name : List ℕ) → IfOk result (λ f. IsFetched (option_map (λ bytes _. Some bytes) (F.remaining file)) name most f) }
{
    let mut bytes = Vec::new(alloc);
    file.take(most.saturating_add(1))
        .read_to_end(&mut bytes)
        .map_err(fault_of)?;
    if bytes.len() as u64 > most {
        return Ok(Fetched::TooLong);
    }
    Ok(Fetched::Whole(Rows::from_vec(bytes)))
}

/// The bytes of the file with a name.
fn read_file<R: Files>(rt: &R, alloc: Global, name: &str, most: u64) -> Result<Fetched, FetchFault>
    ensures { IfOk result (λ f. IsFetched None name.now most f) }
{
    let file = fs::open(rt, name).map_err(fault_of)?;
    read_all(file, alloc, most)
}

/// The length of a file that has one and can be read from any place on: of a regular one that isn't empty. The system has files
/// that it calls empty, and that give bytes all the same.
fn length_of<F: OpenFile>(file: &F) -> Option<u64> {
    match file.metadata() {
        Ok(metadata) if metadata.is_file() && metadata.len() > 0 => Some(metadata.len()),
        _ => None,
    }
}

/// What a text of a length is measured at.
fn measured(length: u64, most: u64) -> Measured
    ensures { (name : List ℕ) → IsMeasured None name most result }
{
    if length > most {
        return Measured::TooLong;
    }
    Measured::Length(length)
}

/// How long the file with a name is. What had to be read for that is put into `whole`.
fn measure_file<R: Files>(
    rt: &R,
    alloc: Global,
    name: &str,
    most: u64,
    whole: &mut Option<WholeText>,
) -> Result<Measured, FetchFault>
    ensures { IfOk result (λ m. IsMeasured None name.now most m) }
{
    let file = fs::open(rt, name).map_err(fault_of)?;
    if let Some(length) = length_of(&file) {
        return Ok(measured(length, most));
    }
    match read_all(file, alloc, most)? {
        Fetched::TooLong => Ok(Measured::TooLong),
        Fetched::Whole(bytes) => {
            let length = bytes.len() as u64;
            *whole = Some(WholeText::new(alloc, name, bytes).map_err(no_memory)?);
            Ok(measured(length, most))
        }
    }
}

/// What is ahead in a file that was opened, at most `most` bytes of it.
fn read_ahead<F: Read + Drop>(file: F, alloc: Global, most: u64) -> Result<Rows<u8>, FetchFault>
    ensures { IfOk result (λ bytes. (length bytes ≤ most) × IfSome (F.remaining file) (λ ahead. bytes ≡ take most ahead)) }
{
    let mut bytes = Vec::new(alloc);
    file.take(most).read_to_end(&mut bytes).map_err(fault_of)?;
    bytes.truncate(most as usize);
    Ok(Rows::from_vec(bytes))
}

/// What stands in the file with a name from a place on.
fn read_part<R: Files>(
    rt: &R,
    alloc: Global,
    name: &str,
    from: u64,
    most: u64,
) -> Result<Rows<u8>, FetchFault>
    ensures { IfOk result (λ bytes. IsPart None name.now from most bytes) }
{
    let mut file = fs::open(rt, name).map_err(fault_of)?;
    file.seek(SeekFrom::Start(from)).map_err(fault_of)?;
    read_ahead(file, alloc, most)
}

impl<R: Files> Shelf for FileShelf<'_, R> {
    ghost told = { λ _. None };

    ghost faults = { λ s _. s.failures };

    ghost asked = { λ s. Some s.asked.all };

    fn fetch(&mut self, alloc: Global, name: &str, most: u64) -> Result<Fetched, FetchFault> {
        self.asked.note(name.as_bytes(), most);
        let answer = read_file(self.rt, alloc, name, most);
        if let Err(FetchFault::Failed) = answer {
            self.failures = self.failures.saturating_add(1);
        }
        answer
    }

    fn measure(&mut self, alloc: Global, name: &str, most: u64) -> Result<Measured, FetchFault> {
        self.asked.note(name.as_bytes(), most);
        self.whole = None;
        let answer = measure_file(self.rt, alloc, name, most, &mut self.whole);
        if let Err(FetchFault::Failed) = answer {
            self.failures = self.failures.saturating_add(1);
        }
        answer
    }

    fn part(
        &mut self,
        alloc: Global,
        name: &str,
        from: u64,
        most: u64,
    ) -> Result<Rows<u8>, FetchFault> {
        let answer = match &self.whole {
            Some(text) if text.is_of(name) => text.part(alloc, from, most),
            _ => read_part(self.rt, alloc, name, from, most),
        };
        if let Err(FetchFault::Failed) = answer {
            self.failures = self.failures.saturating_add(1);
        }
        answer
    }
}
