//! Captures read and written record by record, by calls that give and take few bytes, and that fail.
use super::reading::{CAPTURES, DATAGRAM};
use super::{Pieces, bytes_of, push_hex};
use crate::{PcapFault, Reader, WriteFault, Writer, header, record_head};
use mt_io::{Call, Files, MemoryFiles};
use mt_packet::Stamped;
use std::alloc::{AllocError, Global};
use std::test::*;

/// The one file `in` with these bytes.
fn files_of(alloc: Global, bytes: &[u8], most: usize) -> Result<Pieces, AllocError> {
    let mut files = MemoryFiles::new(alloc);
    files.hold("in", bytes)?;
    Ok(Pieces { files, most })
}

/// Whether a reader at its end gives the same answer once more.
fn ends_so<F: Files>(files: &mut F, reader: &mut Reader, end: Option<PcapFault>) -> bool {
    if reader.given() >= 1 << 32 {
        return false;
    }
    match reader.next(files) {
        Ok(None) => end.is_none(),
        Err(fault) => end == Some(fault),
        Ok(Some(_)) => false,
    }
}

/// What the file `in` is read as: each record by its time, a colon and its frame in hexadecimal, and then
/// the fault or `end`.
fn told<F: Files>(alloc: Global, files: &mut F) -> Result<String, AllocError> {
    let mut text = String::new(alloc);
    let mut reader = match Reader::open(alloc, files, "in") {
        Ok(reader) => reader,
        Err(fault) => return format!(in alloc; "{fault}"),
    };
    for _ in 0..6_000 {
        if reader.given() >= 1 << 32 {
            return Ok(text);
        }
        match reader.next(files) {
            Ok(Some((stamp, frame))) => {
                text.push_str(&format!(in alloc; "{stamp}:")?)?;
                push_hex(&mut text, alloc, frame.bytes())?;
                text.push_str("; ")?;
            }
            Ok(None) => {
                text.push_str("end")?;
                if !ends_so(files, &mut reader, None) {
                    text.push_str(", and then another")?;
                }
                return Ok(text);
            }
            Err(fault) => {
                text.push_str(&format!(in alloc; "{fault}")?)?;
                if !ends_so(files, &mut reader, Some(fault)) {
                    text.push_str(", and then another")?;
                }
                return Ok(text);
            }
        }
    }
    Ok(text)
}

#[test]
fn captures_are_read_in_pieces(rt: HostRuntime) -> Result<(), Fail> {
    for (capture, want) in CAPTURES {
        let bytes = bytes_of(rt.alloc(), capture)?;
        for most in [1, 7, 65_536] {
            let mut files = files_of(rt.alloc(), &bytes, most)?;
            assert_eq!(rt;
                told(rt.alloc(), &mut files)?.as_str(),
                want,
                "at {capture}"
            );
        }
    }
    Ok(())
}

/// Three records of 46 bytes.
fn three_datagrams(alloc: Global) -> Result<Vec<u8>, AllocError> {
    let frame = bytes_of(alloc, DATAGRAM)?;
    let mut capture = Vec::new(alloc);
    capture.extend_from_slice(&header())?;
    for stamp in 1..4 {
        capture.extend_from_slice(&record_head(stamp, 46))?;
        capture.extend_from_slice(&frame)?;
    }
    Ok(capture)
}

/// Each read of three records in its turn: that of the header, three times that of a head and of data, and
/// that which finds the end.
#[test]
fn a_read_that_fails_is_told_once_read(rt: HostRuntime) -> Result<(), Fail> {
    let capture = three_datagrams(rt.alloc())?;
    for (failing, records, end) in [
        (1, 0, "ReadFault"),
        (2, 0, "ReadFault"),
        (3, 0, "ReadFault"),
        (4, 1, "ReadFault"),
        (5, 1, "ReadFault"),
        (6, 2, "ReadFault"),
        (7, 2, "ReadFault"),
        (8, 3, "ReadFault"),
        (9, 3, "end"),
    ] {
        let mut want = String::new(rt.alloc());
        for stamp in 1..records + 1 {
            want.push_str(&format!(in rt.alloc(); "{stamp}:{DATAGRAM}; ")?)?;
        }
        want.push_str(end)?;
        let mut files = files_of(rt.alloc(), &capture, 65_536)?;
        files.files.fail("in", Call::Read, failing)?;
        assert_eq!(rt;
            told(rt.alloc(), &mut files)?.as_str(),
            want.as_str(),
            "at {failing}"
        );
    }
    // A file that is not there.
    let mut files = MemoryFiles::new(rt.alloc());
    assert_eq!(rt; told(rt.alloc(), &mut files)?.as_str(), "ReadFault");
    Ok(())
}

/// Copies the records of the file `in` to the file `out`.
fn copy<F: Files>(alloc: Global, files: &mut F) -> Result<Result<(), WriteFault>, Fail> {
    let mut reader = match Reader::open(alloc, files, "in") {
        Ok(reader) => reader,
        Err(_) => return Err("a capture".into()),
    };
    let mut writer = match Writer::open(alloc, files, "out") {
        Ok(writer) => writer,
        Err(fault) => return Ok(Err(fault)),
    };
    for number in 0..100 {
        if reader.given() >= 1 << 32 {
            return Err("few records".into());
        }
        let (stamp, frame) = match reader.next(files) {
            Ok(Some(record)) => record,
            Ok(None) => return Ok(Ok(())),
            Err(_) => return Err("a record".into()),
        };
        let stamped = Stamped {
            stamp,
            device: 1,
            number,
            frame,
        };
        match writer.put(files, &stamped) {
            Ok(()) => {}
            Err(fault) => return Ok(Err(fault)),
        }
    }
    Err("fewer than 100 records".into())
}

/// Captures, and what is written of their records: a header alone, and a record in microseconds.
const COPIES: [(&str, &str); 2] = [
    (
        "a1b2c3d40002000400000000000000000000ffff00000001",
        "4d3cb2a10200040000000000000000000000040001000000",
    ),
    (
        "a1b2c3d40002000400000000000000000000ffff0000000100000001000000020000000e0000000e0200000000020200000000010800",
        "4d3cb2a1020004000000000000000000000004000100000001000000d00700000e0000000e0000000200000000020200000000010800",
    ),
];

#[test]
fn records_are_copied(rt: HostRuntime) -> Result<(), Fail> {
    for (capture, want) in COPIES {
        let bytes = bytes_of(rt.alloc(), capture)?;
        let want = bytes_of(rt.alloc(), want)?;
        for most in [1, 65_536] {
            let mut files = files_of(rt.alloc(), &bytes, most)?;
            assert!(rt; copy(rt.alloc(), &mut files)? == Ok(()));
            assert_eq!(rt; files.files.written("out"), want.as_slice());
        }
    }
    // A write of one byte that fails: what was written before it stands.
    let bytes = bytes_of(rt.alloc(), COPIES[1].0)?;
    let want = bytes_of(rt.alloc(), COPIES[1].1)?;
    for failing in [1, 24, 25, 54] {
        let mut files = files_of(rt.alloc(), &bytes, 1)?;
        files.files.fail("out", Call::Write, failing)?;
        assert!(rt; copy(rt.alloc(), &mut files)? == Err(WriteFault::Failed));
        let front = want
            .as_slice()
            .get(..failing as usize - 1)
            .ok_or("a front")?;
        assert_eq!(rt; files.files.written("out"), front);
    }
    Ok(())
}
