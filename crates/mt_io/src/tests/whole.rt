//! Whole pieces written, and whole files read.
use crate::{Call, Failed, MemoryFiles, TextFault, read_up_to, write_all};
use std::alloc::Global;
use std::test::Fail;

// A text that takes several reads.
const LONG: [u8; 70_000] = [7; 70_000];

fn read_whole(
    alloc: Global,
    text: &[u8],
    limit: usize,
    failing: u64,
) -> Result<Vec<u8>, TextFault> {
    let mut files = MemoryFiles::new(alloc);
    files.hold("text", text)?;
    files.fail("text", Call::Read, failing)?;
    read_up_to(alloc, &mut files, "text", limit)
}

#[test]
fn a_whole_file_is_read_up_to_its_limit(rt: HostRuntime) -> Result<(), Fail> {
    let alloc = rt.alloc();
    let long = LONG.as_slice();
    let cases = [
        (b"abcdef".as_slice(), 5, 9, Err(TextFault::TooLong)),
        (b"abcdef".as_slice(), 6, 9, Ok(())),
        (b"abcdef".as_slice(), 7, 9, Ok(())),
        (b"abcdef".as_slice(), 7, 1, Err(TextFault::Failed)),
        (b"abcdef".as_slice(), 7, 2, Err(TextFault::Failed)),
        (b"".as_slice(), 0, 9, Ok(())),
        (b"a".as_slice(), 0, 9, Err(TextFault::TooLong)),
        (long, 69_999, 9, Err(TextFault::TooLong)),
        (long, 70_000, 9, Ok(())),
        (long, 70_000, 3, Err(TextFault::Failed)),
    ];
    for (text, limit, failing, want) in cases {
        let got = read_whole(alloc, text, limit, failing);
        match got {
            Ok(bytes) => {
                assert_eq!(rt; want, Ok(()), "at {limit}");
                assert_eq!(rt; bytes.as_slice(), text, "at {limit}");
            }
            Err(fault) => assert_eq!(rt; want, Err(fault), "at {limit}"),
        }
    }
    Ok(())
}

#[test]
fn a_failed_write_leaves_what_was_written(rt: HostRuntime) -> Result<(), Fail> {
    let mut files = MemoryFiles::new(rt.alloc());
    files.fail("out", Call::Write, 2)?;
    assert_eq!(rt; write_all(&mut files, "out", b"one"), Ok(()));
    assert_eq!(rt; write_all(&mut files, "out", b"two"), Err(Failed));
    assert_eq!(rt; files.written("out"), b"one".as_slice());
    assert_eq!(rt; write_all(&mut files, "out", b""), Ok(()));
    assert_eq!(rt; write_all(&mut files, "out", b"three"), Ok(()));
    assert_eq!(rt; files.written("out"), b"onethree".as_slice());
    Ok(())
}
