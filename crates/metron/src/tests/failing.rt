//! Files that fail.
use super::{HEADER, STRAIGHT, UDP, WORDS, check, files, head, joined, run, words};
use crate::{Fault, FileId, Outcome, serve_command};
use mt_io::{Call, MemoryFiles};
use mt_ledger::{Pick, Policies, Policy};
use mt_text::Text;
use std::alloc::{AllocError, Global};
use std::test::Fail;

#[test]
fn a_failing_file_is_told(rt: HostRuntime) -> Result<(), Fail> {
    let capture = joined(rt.alloc(), &[&HEADER, &head(1, 46), &UDP])?;
    let cases = [
        ("chain", Call::Read, 1, 4, Fault::Read(FileId::Chain), 0),
        ("script", Call::Read, 1, 4, Fault::Read(FileId::Script), 0),
        ("in", Call::Read, 1, 4, Fault::Read(FileId::Capture(1)), 0),
        ("in", Call::Read, 2, 4, Fault::Read(FileId::Capture(1)), 24),
        ("in", Call::Read, 3, 4, Fault::Read(FileId::Capture(1)), 24),
        ("in", Call::Read, 4, 4, Fault::Read(FileId::Capture(1)), 86),
        ("out", Call::Write, 1, 6, Fault::Write(FileId::Output(2)), 0),
        (
            "out",
            Call::Write,
            2,
            6,
            Fault::Write(FileId::Output(2)),
            24,
        ),
    ];
    for (name, call, number, status, fault, len) in cases {
        let mut files = files(rt.alloc(), STRAIGHT, &capture)?;
        files.fail(name, call, number)?;
        let outcome = run(rt.alloc(), &mut files)?;
        assert_eq!(rt; outcome.fault, fault);
        assert_eq!(rt; outcome.status, status);
        let written = files.written("out");
        assert_eq!(rt; written.len(), len);
        assert!(rt; capture.starts_with(written));
    }
    Ok(())
}

fn run_buffered(alloc: Global, files: MemoryFiles) -> Result<(Outcome, MemoryFiles), AllocError> {
    let words = words(alloc, &WORDS)?;
    if words.len() > u32::MAX as usize {
        return Err(AllocError);
    }
    let low: Pick = Box::new(alloc, |_hint, _count| 0)?;
    let low = Policy::new(Text::copy_of(alloc, b"low")?, low);
    let policies = Policies::new(vec![in alloc; low]?);
    Ok(serve_command(alloc, &words, files, policies))
}

// Through buffers the header goes out at once and the record at the end.
#[test]
fn a_run_has_all_written_at_its_end(rt: HostRuntime) -> Result<(), Fail> {
    let alloc = rt.alloc();
    let capture = joined(alloc, &[&HEADER, &head(1, 46), &UDP])?;
    let failed = Fault::Write(FileId::Output(2));
    let cases: [(u64, u8, Fault, &[u32], usize); 3] = [
        (9, 0, Fault::Done, &[0], 86),
        (1, 6, failed, &[], 0),
        (2, 6, failed, &[0], 24),
    ];
    for (failing, status, fault, order, len) in cases {
        let mut inner = files(alloc, STRAIGHT, &capture)?;
        inner.fail("out", Call::Write, failing)?;
        let (outcome, inner) = run_buffered(alloc, inner)?;
        check(&rt, &outcome, status, fault, order);
        let written = inner.written("out");
        assert_eq!(rt; written.len(), len);
        assert!(rt; capture.starts_with(written));
    }
    Ok(())
}
