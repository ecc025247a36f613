//! Files in memory: which call fails, by its number.
use crate::{Call, Failed, Files, MemoryFiles};
use std::test::Fail;

// One call of a file and its answer.
#[derive(Clone, Copy)]
enum Step {
    Read(usize, Result<&'static [u8], Failed>),
    Write(&'static [u8], Result<usize, Failed>),
}

#[test]
fn calls_fail_by_their_numbers(rt: HostRuntime) -> Result<(), Fail> {
    let alloc = rt.alloc();
    let mut files = MemoryFiles::new(alloc);
    files.hold("in", b"abcdef")?;
    files.fail("in", Call::Read, 2)?;
    files.fail("out", Call::Write, 1)?;
    files.fail("out", Call::Write, 3)?;
    let steps = [
        ("in", Step::Read(4, Ok(b"abcd"))),
        ("in", Step::Read(4, Err(Failed))),
        ("in", Step::Read(4, Ok(b"ef"))),
        ("in", Step::Read(4, Ok(b""))),
        ("never held", Step::Read(1, Err(Failed))),
        ("out", Step::Write(b"lost", Err(Failed))),
        ("out", Step::Write(b"one", Ok(3))),
        ("out", Step::Write(b"lost", Err(Failed))),
        ("out", Step::Write(b"two", Ok(3))),
        ("out", Step::Read(1, Err(Failed))),
    ];
    for (name, step) in steps {
        match step {
            Step::Read(room, want) => {
                let mut buf = [0; 8];
                assert!(rt; room <= 8);
                let got = files.read(name, &mut buf[..room]);
                assert_eq!(rt; got, want.map(|bytes| bytes.len()), "reading {name}");
                if let Ok(bytes) = want {
                    assert!(rt; bytes.len() <= 8);
                    assert_eq!(rt; &buf[..bytes.len()], bytes, "reading {name}");
                }
            }
            Step::Write(piece, want) => {
                assert_eq!(rt; files.write(name, piece), want, "writing {name}");
            }
        }
    }
    assert_eq!(rt; files.written("out"), b"onetwo".as_slice());
    assert_eq!(rt; files.written("in"), b"".as_slice());
    assert_eq!(rt; files.written("never named"), b"".as_slice());
    files.hold("in", b"again")?;
    let mut buf = [0; 8];
    assert_eq!(rt; files.read("in", &mut buf), Ok(5));
    assert_eq!(rt; &buf[..5], b"again".as_slice());
    Ok(())
}
