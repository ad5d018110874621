//! Codes that are read of listings, line by line and whole.

use lmn_base::{Names, TextFault};
use lmn_verify_listing::{read, read_line};
use std::alloc::Global;
use std::test::Fail;

/// Texts that are no lines of a head.
const NO_LINES: &[&[u8]] = &[
    b"  FINDATOM A00 M0 a/0\n",
    b"  FINDATOM A0 M0 a/256\n",
    b"  FINDATOM A65536 M0 a/0\n",
    b"  FINDATOM A0 M0 'a'/0\n",
    b"  COMMIT",
    b"  PROCEED\n",
];

#[test]
fn other_texts_are_no_lines(rt: std::rt::HostRuntime) -> Result<(), Fail> {
    for text in NO_LINES {
        let mut names = Names::new(rt.alloc());
        let found = read_line(rt.alloc(), true, *text, &mut names)?;
        assert!(rt; found.is_none());
    }
    Ok(())
}

/// Listings of one rule, and the code and the line by which each is refused; 0 where it is read.
const LISTINGS: &[(&[u8], u8, u64)] = &[
    (
        b"rule 0\n  FINDATOM A0 M0 a/0\n  FINDATOM A1 M0 a/0\n  NEQATOM A1 A0\n  COMMIT\n  REMOVEATOM A0\n  REMOVEATOM A1\n  NEWATOM A2 M0 c/0\n  PROCEED\n",
        0,
        0,
    ),
    (
        b"rule 0\n  FINDATOM A0 M0 a/0\n  FINDATOM A1 M0 a/0\n  COMMIT\n  REMOVEATOM A0\n  REMOVEATOM A1\n  NEWATOM A2 M0 b/0\n  PROCEED\n",
        82,
        1,
    ),
    (
        b"rule 0\n  FINDATOM A0 M0 a/0\n  FINDATOM A1 M0 a/0\n  NEQATOM A1 A0\n  COMMIT\n  REMOVEATOM A0\n  NEWATOM A2 M0 b/0\n  PROCEED\n",
        82,
        1,
    ),
    (
        b"rule 0\n  FINDATOM A0 M0 a/0\n  FINDATOM A1 M0 a/0\n  NEQATOM A1 A0\n  COMMIT\n  REMOVEATOM A0\n  REMOVEATOM A1\n  NEWATOM A2 M0 b/0\n",
        81,
        9,
    ),
    (
        b"rule 0\n  ANYMEM M1 M0\n  NORULES M1\n  ISCLOSED M1\n  COMMIT\n  REMOVEMEM M1\n  NEWMEM M2 M0\n  COPYCELLS M1 M2\n  NEWMEM M3 M0\n  COPYCELLS M1 M3\n  DROPCELLS M1\n  PROCEED\n",
        0,
        0,
    ),
    (
        b"rule 0\n  ANYMEM M1 M0\n  NORULES M1\n  ISCLOSED M1\n  COMMIT\n  REMOVEMEM M1\n  PROCEED\n",
        82,
        1,
    ),
    (
        b"rule 0\n  ANYMEM M1 M0\n  COMMIT\n  REMOVEMEM M1\n  MOVECELLS M1 M0\n  PROCEED\nrule 1\n",
        81,
        7,
    ),
    (b"rule 1\n", 81, 1),
    (b"", 81, 1),
];

#[test]
fn listings_are_read_or_refused(rt: std::rt::HostRuntime) -> Result<(), Fail> {
    for (listing, code, line) in LISTINGS {
        let mut names = Names::new(rt.alloc());
        match read(rt.alloc(), *listing, 1, &mut names) {
            Ok(codes) => {
                assert!(rt; *code == 0);
                assert!(rt; codes.len() == 1);
            }
            Err(TextFault::Refused(refusal)) => {
                assert!(rt; refusal.code == *code);
                assert!(rt; refusal.pos.line == *line);
            }
            Err(TextFault::NoMemory) => {
                assert!(rt; false);
            }
        }
    }
    Ok(())
}
