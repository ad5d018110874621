//! The shelf over files and the sink over a writer, where reads and writes fail.

use lmn_base::Rows;
use lmn_io::{Failed, FetchFault, Fetched, FileShelf, OutSink, Shelf, Sink};
use std::io::{self, Write};
use std::rt::Files;
use std::test::Fail;
use std::{env, fs};

/// The bytes that a fetch brought.
fn whole(fetched: Result<Fetched, FetchFault>) -> Result<Rows<u8>, FetchFault> {
    match fetched? {
        Fetched::Whole(bytes) => Ok(bytes),
        Fetched::TooLong => Err(FetchFault::Failed),
    }
}

/// The bytes of a file, if they are so many at most.
fn bytes_of(
    rt: &(impl Files + AllocGlobal),
    name: &str,
    most: u64,
) -> Result<Rows<u8>, FetchFault> {
    let mut shelf = FileShelf::new(rt);
    whole(shelf.fetch(rt.alloc(), name, most))
}

/// Whether a file has more bytes.
fn is_too_long(rt: &(impl Files + AllocGlobal), name: &str, most: u64) -> bool {
    let mut shelf = FileShelf::new(rt);
    let found = shelf.fetch(rt.alloc(), name, most);
    matches!(found, Ok(Fetched::TooLong))
}

/// Whether nothing can be read under a name.
fn is_no_file(rt: &(impl Files + AllocGlobal), name: &str) -> bool {
    bytes_of(rt, name, 5).err() == Some(FetchFault::Failed)
}

#[test]
fn a_file_is_read_up_to_a_length(rt: HostRuntime) -> Result<(), Fail> {
    let mut path = env::temp_dir(&rt)?;
    path.push("lmn_file_shelf.txt")?;
    let name = path.to_str().ok_or("no text")?;
    fs::write(&rt, name, "a. b.")?;
    let bytes = bytes_of(&rt, name, 5)?;
    assert_eq!(rt; bytes.as_slice(), b"a. b.".as_slice());
    assert!(rt; is_too_long(&rt, name, 4));
    fs::remove_file(&rt, name)?;
    assert!(rt; is_no_file(&rt, name));
    Ok(())
}

#[test]
fn a_folder_is_no_file(rt: HostRuntime) -> Result<(), Fail> {
    let folder = env::temp_dir(&rt)?;
    let name = folder.to_str().ok_or("no text")?;
    assert!(rt; is_no_file(&rt, name));
    Ok(())
}

/// A writer with room for five bytes, which takes two bytes a call at most.
#[derive(Drop)]
struct Narrow {
    taken: [u8; 5],
    count: usize,
}

impl Write for Narrow {
    fn write(&mut self, buf: &[u8]) -> io::Result<usize> {
        if self.count >= 5 {
            return Err(io::Error::from(io::ErrorKind::BrokenPipe));
        }
        let count = buf.len().min(2).min(5 - self.count);
        let end = self.count + count;
        self.taken[self.count..end].copy_from_slice(&buf[..count]);
        self.count = end;
        Ok(count)
    }

    fn flush(&mut self) -> io::Result<()> {
        Ok(())
    }
}

/// A writer that is interrupted so often before it takes a byte.
#[derive(Drop)]
struct Interrupted {
    often: u32,
    left: u32,
    taken: usize,
}

impl Write for Interrupted {
    fn write(&mut self, buf: &[u8]) -> io::Result<usize> {
        if self.left > 0 {
            self.left -= 1;
            return Err(io::Error::from(io::ErrorKind::Interrupted));
        }
        self.left = self.often;
        self.taken = self.taken.saturating_add(1);
        Ok(buf.len().min(1))
    }

    fn flush(&mut self) -> io::Result<()> {
        Ok(())
    }
}

#[test]
fn writes_go_on_after_an_interruption(rt: HostRuntime) {
    let mut writer = Interrupted {
        often: 3,
        left: 3,
        taken: 0,
    };
    let answer = OutSink::new(&mut writer).put(b"abc");
    assert_eq!(rt; answer, Ok(()));
    assert_eq!(rt; writer.taken, 3);
    let mut never = OutSink::new(Interrupted {
        often: 1000,
        left: 1000,
        taken: 0,
    });
    assert_eq!(rt; never.put(b"abc"), Err(Failed));
}

/// What a writer answers to two puts.
fn put_twice(writer: &mut Narrow) -> (Result<(), Failed>, Result<(), Failed>) {
    let mut sink = OutSink::new(writer);
    let first = sink.put(b"abc");
    (first, sink.put(b"def"))
}

#[test]
fn a_sink_fails_with_its_writer(rt: HostRuntime) {
    let mut writer = Narrow {
        taken: [0; 5],
        count: 0,
    };
    let (first, second) = put_twice(&mut writer);
    assert_eq!(rt; first, Ok(()));
    assert_eq!(rt; second, Err(Failed));
    assert_eq!(rt; writer.taken.as_slice(), b"abcde".as_slice());
}
