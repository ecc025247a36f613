//! Files of the system, of which no contract speaks.
use crate::{Buffered, Failed, Files, RealFiles, read_up_to, write_all};
use std::test::Fail;
use std::{env, fs, process};

// A text that takes several reads.
const LONG: [u8; 70_000] = [7; 70_000];

#[test]
fn real_files_give_back_what_was_written(rt: HostRuntime) -> Result<(), Fail> {
    let alloc = rt.alloc();
    let folder = env::temp_dir(&rt)?;
    let id = process::id(rt.process());
    let path = folder.join(alloc, format!(in alloc; "mt_io-{id}.bytes")?.as_str())?;
    let name = path.to_str().ok_or("a path that is no text")?;

    let mut files = Buffered::new(alloc, RealFiles::new(&rt, alloc));
    for _ in 0..3 {
        assert_eq!(rt; write_all(&mut files, name, LONG.as_slice()), Ok(()));
        assert_eq!(rt; write_all(&mut files, name, b"end"), Ok(()));
    }
    assert_eq!(rt; files.finish(), Ok(()));

    let mut files = RealFiles::new(&rt, alloc);
    let text = read_up_to(alloc, &mut files, name, 1_000_000)
        .ok()
        .ok_or("not read")?;
    assert_eq!(rt; text.len(), 3 * 70_003);
    assert!(rt; text.as_slice().starts_with(LONG.as_slice()));
    assert!(rt; text.as_slice().ends_with(b"end"));
    assert_eq!(rt; files.read(name, &mut [0; 4]), Ok(0));
    assert_eq!(rt; files.read("no/such/file", &mut [0; 4]), Err(Failed));
    assert_eq!(rt; files.write("no/such/folder/out", b"x"), Err(Failed));
    assert_eq!(rt; files.write("/dev/full", b"x"), Err(Failed));

    // The first write empties a file that is there.
    let mut files = RealFiles::new(&rt, alloc);
    assert_eq!(rt; write_all(&mut files, name, b""), Ok(()));
    assert_eq!(rt; fs::read(&rt, name)?.len(), 0);
    fs::remove_file(&rt, name)?;
    Ok(())
}

// A file that was opened for reading is no output under whatever name, and no file is two outputs.
#[test]
fn no_file_is_both_read_and_written(rt: HostRuntime) -> Result<(), Fail> {
    let alloc = rt.alloc();
    let id = process::id(rt.process());
    let folder = env::temp_dir(&rt)?;
    let folder = folder.to_str().ok_or("a path that is no text")?;
    let input = format!(in alloc; "{folder}/mt_io-{id}.in")?;
    let dotted = format!(in alloc; "{folder}/./mt_io-{id}.in")?;
    let hard = format!(in alloc; "{folder}/mt_io-{id}.hard")?;
    let soft = format!(in alloc; "{folder}/mt_io-{id}.soft")?;
    let output = format!(in alloc; "{folder}/mt_io-{id}.out")?;
    let again = format!(in alloc; "{folder}/./mt_io-{id}.out")?;
    fs::write(&rt, input.as_str(), b"input")?;
    fs::hard_link(&rt, input.as_str(), hard.as_str())?;
    std::os::unix::fs::symlink(&rt, input.as_str(), soft.as_str())?;

    let mut files = RealFiles::new(&rt, alloc);
    assert_eq!(rt; files.read(input.as_str(), &mut [0; 2]), Ok(2));
    for name in [&input, &dotted, &hard, &soft] {
        assert_eq!(rt;
            files.write(name.as_str(), b"x"),
            Err(Failed),
            "writing {name}"
        );
    }
    assert_eq!(rt;
        fs::read(&rt, input.as_str())?.as_slice(),
        b"input".as_slice()
    );
    assert_eq!(rt; files.write(output.as_str(), b"out"), Ok(3));
    assert_eq!(rt; files.write(again.as_str(), b"x"), Err(Failed));
    assert_eq!(rt; files.write("/dev/null", b"x"), Ok(1));
    assert_eq!(rt; files.write("/dev/../dev/null", b"x"), Ok(1));
    assert_eq!(rt;
        fs::read(&rt, output.as_str())?.as_slice(),
        b"out".as_slice()
    );
    for name in [&input, &hard, &soft, &output] {
        fs::remove_file(&rt, name.as_str())?;
    }
    Ok(())
}
