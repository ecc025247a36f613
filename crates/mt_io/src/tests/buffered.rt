//! Files through buffers: what the inner files get, and when.
ghost use Rattle.mt_io.specs.Memory.{held_of, written_of, read_faults_of, write_faults_of};

use crate::{Buffered, Call, Failed, Files, MemoryFiles, read_up_to, write_all};
use std::alloc::Global;
use std::test::Fail;

// Files that give and take one byte a call.
#[derive(Drop)]
struct Slow {
    files: MemoryFiles,
}

impl Files for Slow {
    ghost held = { λ slow. held_of slow.files };

    ghost written = { λ slow. written_of slow.files };

    ghost read_faults = { λ slow. read_faults_of slow.files };

    ghost write_faults = { λ slow. write_faults_of slow.files };

    fn read(&mut self, name: &str, buf: &mut [u8]) -> Result<usize, Failed> {
        let room = buf.len().min(1);
        self.files.read(name, &mut buf[..room])
    }

    fn write(&mut self, name: &str, piece: &[u8]) -> Result<usize, Failed> {
        let room = piece.len().min(1);
        self.files.write(name, &piece[..room])
    }
}

// A piece that fills a buffer but for one byte.
const LONG: [u8; 65_535] = [7; 65_535];

// The first write goes through, the others wait for `finish`. A write that fails there leaves what is
// pending to the next try, and the other file is written all the same.
#[test]
fn pending_bytes_are_written_once(rt: HostRuntime) -> Result<(), Fail> {
    let alloc = rt.alloc();
    for (failing, want) in [(9, Ok(())), (2, Err(Failed))] {
        let mut inner = MemoryFiles::new(alloc);
        inner.fail("a", Call::Write, failing)?;
        let mut files = Buffered::new(alloc, inner);
        assert_eq!(rt; write_all(&mut files, "a", b"one"), Ok(()));
        assert_eq!(rt; write_all(&mut files, "b", b"ONE"), Ok(()));
        assert_eq!(rt; write_all(&mut files, "a", b" two"), Ok(()));
        assert_eq!(rt; write_all(&mut files, "b", b" TWO"), Ok(()));
        assert_eq!(rt; write_all(&mut files, "a", b" three"), Ok(()));
        assert_eq!(rt; files.unwritten(), Some("a"));
        assert_eq!(rt; files.finish(), want);
        assert_eq!(rt; files.unwritten(), want.err().map(|_| "a"));
        assert_eq!(rt; files.finish(), Ok(()));
        let inner = files.into_inner();
        assert_eq!(rt; inner.written("a"), b"one two three".as_slice());
        assert_eq!(rt; inner.written("b"), b"ONE TWO".as_slice());
    }
    // A first write that fails leaves nothing pending.
    let mut inner = MemoryFiles::new(alloc);
    inner.fail("a", Call::Write, 1)?;
    let mut files = Buffered::new(alloc, inner);
    assert_eq!(rt; write_all(&mut files, "a", b"one"), Err(Failed));
    assert_eq!(rt; files.finish(), Ok(()));
    assert_eq!(rt; files.into_inner().written("a"), b"".as_slice());
    Ok(())
}

// A piece that finds no room has what is pending written first, and is not added where that fails.
#[test]
fn a_full_buffer_is_written_first(rt: HostRuntime) -> Result<(), Fail> {
    let alloc = rt.alloc();
    for (failing, want, len) in [(9, Ok(()), 65_541), (2, Err(Failed), 65_538)] {
        let mut inner = MemoryFiles::new(alloc);
        inner.fail("a", Call::Write, failing)?;
        let mut files = Buffered::new(alloc, inner);
        assert_eq!(rt; write_all(&mut files, "a", b"one"), Ok(()));
        assert_eq!(rt; write_all(&mut files, "a", &LONG), Ok(()));
        assert_eq!(rt; write_all(&mut files, "a", b"two"), want);
        assert_eq!(rt; files.finish(), Ok(()));
        assert_eq!(rt; files.into_inner().written("a").len(), len);
    }
    // An empty piece goes through, and so does one that is longer than a buffer, behind what is pending.
    let mut files = Buffered::new(alloc, MemoryFiles::new(alloc));
    assert_eq!(rt; write_all(&mut files, "a", b""), Ok(()));
    assert_eq!(rt; write_all(&mut files, "a", b"x"), Ok(()));
    assert_eq!(rt; write_all(&mut files, "a", &[8; 65_537]), Ok(()));
    assert_eq!(rt; files.into_inner().written("a").len(), 65_538);
    Ok(())
}

// A short read is not the end, and a failed one takes nothing.
#[test]
fn slow_files_are_read_and_written_to_the_end(rt: HostRuntime) -> Result<(), Fail> {
    let alloc = rt.alloc();
    let mut inner = MemoryFiles::new(alloc);
    inner.hold("in", b"abcdef")?;
    inner.fail("in", Call::Read, 3)?;
    inner.fail("out", Call::Write, 3)?;
    let mut files = Buffered::new(alloc, Slow { files: inner });
    let mut buf = [0; 4];
    assert_eq!(rt; files.read("in", &mut buf), Ok(1));
    assert_eq!(rt; files.read("in", &mut buf), Ok(1));
    assert_eq!(rt; buf[0], b'b');
    assert_eq!(rt; files.read("in", &mut buf), Err(Failed));
    let text = read_up_to(alloc, &mut files, "in", 9)
        .ok()
        .ok_or("not read")?;
    assert_eq!(rt; text.as_slice(), b"cdef".as_slice());

    assert_eq!(rt; write_all(&mut files, "out", b"uvw"), Ok(()));
    assert_eq!(rt; files.finish(), Err(Failed));
    assert_eq!(rt; files.finish(), Ok(()));
    assert_eq!(rt; files.into_inner().files.written("out"), b"uvw".as_slice());
    Ok(())
}
