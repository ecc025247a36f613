//! The files of the system: the trusted edge, of whose content no contract speaks. Each call is one call of
//! the system, besides the opening of a file.
ghost use Rattle.std.specs.Prelude.{◌≡◌, ◌≤◌, List, ℕ, None, length, IfOk};

use crate::{Failed, Files};
use std::alloc::Global;
use std::collections::BTreeMap;
use std::fs::{File, OpenFile, OpenOptions};
use std::io;
use std::io::{ErrorKind, Read, Write};
use std::os::unix::fs::MetadataExt;
use std::rt::Files as SystemFiles;

/// The name of the standard output.
const OUTPUT: &str = "-";

/// What tells one regular file from another, whatever paths lead to it.
#[derive(Clone, Copy, PartialEq, Eq)]
struct Identity {
    device: u64,
    inode: u64,
}

/// A file that is being read. Once its end was met the system is not asked again.
#[derive(Drop)]
struct Source<F: Read + Drop> {
    file: F,
    identity: Option<Identity>,
    is_at_end: bool,
}

/// A file that is being written.
#[derive(Drop)]
struct Sink<F: Write + Drop> {
    file: F,
    identity: Option<Identity>,
}

/// The files of the system by their paths; `-` is the standard output. A file stays open from its first
/// read or write on, and its first write creates or empties it. That write fails where the path leads to a
/// regular file that was opened for reading or that is another output, which then stays as it was.
///
/// It has no buffers: `Buffered` gives it some. It tells no content. Each failure raises one number, which
/// stands still at 2^64 - 1 and is each of the counts of every name; a call that finds no memory is a
/// failure too.
#[derive(Drop)]
pub struct RealFiles<R: SystemFiles + Print + Drop> {
    system: R,
    alloc: Global,
    sources: BTreeMap<String, Source<R::File>>,
    sinks: BTreeMap<String, Sink<R::File>>,
    failures: u64,
}

impl<R: SystemFiles + Print + Drop> RealFiles<R> {
    /// No file is open yet.
    pub fn new(system: R, alloc: Global) -> RealFiles<R>
        ensures read_faults { (name : List ℕ) → ⟦<RealFiles<R> as Files>⟧.read_faults result name ≡ 0 }
        ensures write_faults { (name : List ℕ) → ⟦<RealFiles<R> as Files>⟧.write_faults result name ≡ 0 }
    {
        RealFiles {
            system,
            alloc,
            sources: BTreeMap::new(alloc),
            sinks: BTreeMap::new(alloc),
            failures: 0,
        }
    }
}

impl<R: SystemFiles + Print + Drop> Files for RealFiles<R> {
    ghost held = { λ _ _. None };

    ghost written = { λ _ _. None };

    ghost read_faults = { λ files _. files.failures };

    ghost write_faults = { λ files _. files.failures };

    /// Reads on in a file, which the first read of its name opens.
    fn read(&mut self, name: &str, buf: &mut [u8]) -> Result<usize, Failed> {
        match read_from(&self.system, self.alloc, &mut self.sources, name, buf) {
            Ok(count) => Ok(count),
            Err(_) => {
                self.failures = self.failures.saturating_add(1);
                Err(Failed)
            }
        }
    }

    /// Writes on in a file, which the first write of its name creates or empties.
    fn write(&mut self, name: &str, piece: &[u8]) -> Result<usize, Failed> {
        let written = if name == OUTPUT {
            self.system.write_some(piece)
        } else {
            write_to(
                &self.system,
                self.alloc,
                &self.sources,
                &mut self.sinks,
                name,
                piece,
            )
        };
        match written {
            Ok(count) if count > 0 || piece.is_empty() => Ok(count),
            _ => {
                self.failures = self.failures.saturating_add(1);
                Err(Failed)
            }
        }
    }
}

fn read_from<R: SystemFiles>(
    system: &R,
    alloc: Global,
    sources: &mut BTreeMap<String, Source<R::File>>,
    name: &str,
    buf: &mut [u8],
) -> io::Result<usize>
    ensures { IfOk result (λ n. n ≤ length buf.old) }
{
    if !sources.contains_key(name) {
        let file = File::open(system, name)?;
        let source = Source {
            identity: identity_of(&file)?,
            file,
            is_at_end: false,
        };
        sources.insert(String::from_str(alloc, name)?, source)?;
    }
    match sources.get_mut(name) {
        Some(source) => source.read(buf),
        None => Err(io::Error::from(ErrorKind::NotFound)),
    }
}

impl<F: Read + Drop> Source<F> {
    fn read(&mut self, buf: &mut [u8]) -> io::Result<usize>
        ensures { IfOk result (λ n. n ≤ length buf.old) }
    {
        if self.is_at_end || buf.is_empty() {
            return Ok(0);
        }
        let count = self.file.read(buf)?;
        self.is_at_end = count == 0;
        Ok(count)
    }
}

fn write_to<R: SystemFiles>(
    system: &R,
    alloc: Global,
    sources: &BTreeMap<String, Source<R::File>>,
    sinks: &mut BTreeMap<String, Sink<R::File>>,
    name: &str,
    piece: &[u8],
) -> io::Result<usize>
    ensures { IfOk result (λ n. n ≤ length piece.now) }
{
    if !sinks.contains_key(name) {
        let file = OpenOptions::new()
            .write(true)
            .create(true)
            .open(system, name)?;
        let identity = identity_of(&file)?;
        if let Some(this) = identity {
            if is_open(sources, sinks, this) {
                return Err(io::Error::from(ErrorKind::AlreadyExists));
            }
            file.set_len(0)?;
        }
        sinks.insert(String::from_str(alloc, name)?, Sink { file, identity })?;
    }
    match sinks.get_mut(name) {
        Some(sink) => sink.file.write(piece),
        None => Err(io::Error::from(ErrorKind::NotFound)),
    }
}

/// The identity of a regular file.
fn identity_of<F: OpenFile>(file: &F) -> io::Result<Option<Identity>> {
    let metadata = file.metadata()?;
    Ok(if metadata.is_file() {
        Some(Identity {
            device: metadata.dev(),
            inode: metadata.ino(),
        })
    } else {
        None
    })
}

/// Whether a file is being read or written under some name.
fn is_open<F: Read + Write + Drop>(
    sources: &BTreeMap<String, Source<F>>,
    sinks: &BTreeMap<String, Sink<F>>,
    this: Identity,
) -> bool {
    sources.values().any(|source| source.identity == Some(this))
        || sinks.values().any(|sink| sink.identity == Some(this))
}
