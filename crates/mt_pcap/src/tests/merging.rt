//! Merges of captures as they are read, each row worked by hand from the rules.
use super::Pieces;
use crate::{Merge, Reader, can_merge, header, record_head};
use mt_io::{Call, Files, MemoryFiles};
use std::alloc::{AllocError, Global};
use std::test::*;

/// Captures in words, a comma between two of them, and what is given: for each frame its number, device,
/// time and byte, and then the end. A capture's record is its time and a byte, 17 bytes in the file; `!` is
/// a record that is cut, and `?` one that says a second and more.
const MERGES: [(&str, &str); 19] = [
    // two captures, turn by turn
    (
        "1a 4b 5c,2d 3e 6f",
        "0/1:1a 1/2:2d 2/2:3e 3/1:4b 4/1:5c 5/2:6f Done",
    ),
    // of equal times the lowest device
    ("5a,5b,5c", "0/1:5a 1/2:5b 2/3:5c Done"),
    ("5a 5b,5c 5d", "0/1:5a 1/1:5b 2/2:5c 3/2:5d Done"),
    ("7a,5b,5c", "0/2:5b 1/3:5c 2/1:7a Done"),
    // times that fall in one capture: only its first record that is left counts
    ("5a 1b 2c,3d 4e", "0/2:3d 1/2:4e 2/1:5a 3/1:1b 4/1:2c Done"),
    ("2a 9b 1c,5d 6e", "0/1:2a 1/2:5d 2/2:6e 3/1:9b 4/1:1c Done"),
    // a fault as soon as the records before it are given, though others have records left
    ("1a !,2b 3c", "0/1:1a Fault 1 Torn 41"),
    ("4a 5b,1c 2d !", "0/2:1c 1/2:2d Fault 2 Torn 58"),
    ("1a 3b,2c !", "0/1:1a 1/2:2c Fault 2 Torn 41"),
    ("1a 2b,?", "Fault 2 BadRecord 24"),
    // a fault whose capture has records left is not met yet
    ("1a,2b !", "0/1:1a 1/2:2b Fault 2 Torn 41"),
    // two faults: the one that is met first, and where both are met the lowest device's
    ("3a !,2b !", "0/2:2b Fault 2 Torn 41"),
    ("1a,?,!", "Fault 2 BadRecord 24"),
    ("!,?", "Fault 1 Torn 24"),
    ("?,!", "Fault 1 BadRecord 24"),
    // one capture alone
    ("3a 1b 2c", "0/1:3a 1/1:1b 2/1:2c Done"),
    ("3a 1b !", "0/1:3a 1/1:1b Fault 1 Torn 58"),
    // captures with no record
    ("", "Done"),
    (",1a,", "0/2:1a Done"),
];

/// The names of three files.
const NAMES: [&str; 3] = ["a", "b", "c"];

fn capture_of(alloc: Global, words: &str) -> Result<Vec<u8>, AllocError> {
    let mut bytes = Vec::new(alloc);
    bytes.extend_from_slice(&header())?;
    for word in words.split(' ') {
        match word.as_bytes() {
            [b'!'] => bytes.extend_from_slice(&[0; 5])?,
            [b'?'] => bytes.extend_from_slice(&[255; 16])?,
            [stamp @ b'0'..=b'9', byte] => {
                bytes.extend_from_slice(&record_head(u64::from(*stamp - b'0'), 1))?;
                bytes.push(*byte)?;
            }
            _ => {}
        }
    }
    Ok(bytes)
}

/// What is given of the files of captures that are opened.
fn told<F: Files>(alloc: Global, files: &mut F, readers: Vec<Reader>) -> Result<String, Fail> {
    if !can_merge(&readers) {
        return Err("captures that can be merged".into());
    }
    let mut merge = Merge::new(alloc, readers)?;
    let mut text = String::new(alloc);
    for _ in 0..100 {
        if merge.given() > 16_777_216 {
            return Err("few frames".into());
        }
        match merge.next(files) {
            Ok(Some(given)) => {
                text.push_str(&format!(in alloc;
                    "{}/{}:{}",
                    given.number, given.device, given.stamp
                )?)?;
                for byte in given.frame.bytes() {
                    text.push(char::from(*byte))?;
                }
                text.push(' ')?;
            }
            Ok(None) => {
                text.push_str("Done")?;
                return Ok(text);
            }
            Err(met) => {
                text.push_str(&format!(in alloc; "Fault {} {}", met.device, met.fault)?)?;
                return Ok(text);
            }
        }
    }
    Err("fewer than 100 frames".into())
}

/// What is given of captures in words, a read of one file failing.
fn merged(
    alloc: Global,
    captures: &str,
    most: usize,
    name: &str,
    failing: u64,
) -> Result<String, Fail> {
    let mut files = Pieces {
        files: MemoryFiles::new(alloc),
        most,
    };
    files.files.fail(name, Call::Read, failing)?;
    let mut readers = Vec::new(alloc);
    for (index, words) in captures.split(',').enumerate() {
        let name = *NAMES.get(index).ok_or("at most three captures")?;
        files.files.hold(name, &capture_of(alloc, words)?)?;
        match Reader::open(alloc, &mut files, name) {
            Ok(reader) => readers.push(reader)?,
            Err(_) => return Err("a capture".into()),
        }
    }
    told(alloc, &mut files, readers)
}

#[test]
fn captures_are_merged(rt: HostRuntime) -> Result<(), Fail> {
    for (captures, want) in MERGES {
        for most in [1, 65_536] {
            let given = merged(rt.alloc(), captures, most, "d", 1)?;
            assert_eq!(rt; given.as_str(), want, "at {captures}");
        }
    }
    // The first read of a file is that of its header, and then each record takes two.
    for (name, failing, want) in [
        ("a", 2, "Fault 1 ReadFault"),
        ("a", 3, "Fault 1 ReadFault"),
        ("b", 2, "Fault 2 ReadFault"),
        ("a", 4, "0/1:1a Fault 1 ReadFault"),
        ("b", 5, "0/1:1a 1/2:2c Fault 2 ReadFault"),
        ("a", 6, "0/1:1a 1/2:2c 2/1:3b Fault 1 ReadFault"),
        ("b", 6, "0/1:1a 1/2:2c 2/1:3b 3/2:4d Fault 2 ReadFault"),
        ("b", 7, "0/1:1a 1/2:2c 2/1:3b 3/2:4d Done"),
    ] {
        let given = merged(rt.alloc(), "1a 3b,2c 4d", 65_536, name, failing)?;
        assert_eq!(rt; given.as_str(), want, "at {name} {failing}");
    }
    Ok(())
}

/// Some captures of one record each, of the last device's first.
fn many(alloc: Global, files: &mut MemoryFiles, count: u64) -> Result<Vec<Reader>, Fail> {
    let mut readers = Vec::new(alloc);
    for device in 0..count.min(90) {
        let name = format!(in alloc; "file {device}")?;
        let mut capture = Vec::new(alloc);
        capture.extend_from_slice(&header())?;
        capture.extend_from_slice(&record_head(100 - device, 0))?;
        files.hold(&name, &capture)?;
        match Reader::open(alloc, files, &name) {
            Ok(reader) => readers.push(reader)?,
            Err(_) => return Err("a capture".into()),
        }
    }
    Ok(readers)
}

#[test]
fn as_many_devices_as_there_may_be(rt: HostRuntime) -> Result<(), Fail> {
    let mut files = MemoryFiles::new(rt.alloc());
    let readers = many(rt.alloc(), &mut files, 32)?;
    let given = told(rt.alloc(), &mut files, readers)?;
    assert!(rt; given.starts_with("0/32:69 1/31:70 2/30:71 "));
    assert!(rt; given.ends_with(" 30/2:99 31/1:100 Done"));
    // No capture at all, one too many, one that has given a record, and a file twice.
    let none = told(rt.alloc(), &mut files, Vec::new(rt.alloc()))?;
    assert_eq!(rt; none.as_str(), "Done");
    assert!(rt; !can_merge(&many(rt.alloc(), &mut files, 33)?));
    let mut readers = many(rt.alloc(), &mut files, 2)?;
    assert!(rt; can_merge(&readers));
    if let Some(first) = readers.first_mut()
        && first.given() == 0
    {
        assert!(rt; first.next(&mut files).is_ok());
    }
    assert!(rt; !can_merge(&readers));
    let mut readers = many(rt.alloc(), &mut files, 2)?;
    readers.append(&mut many(rt.alloc(), &mut files, 1)?)?;
    assert!(rt; !can_merge(&readers));
    Ok(())
}
