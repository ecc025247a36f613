//! Bytes that are held back between files and their reader or writer, by the name of the file.
ghost use Rattle.std.specs.Prelude.{◌≡◌, ◌≤◌, ◌<◌, [], ◌++◌, ℕ, List, Some, None, true, false, take, drop, min, length, IfOk, IfSome, OnOk, OnErr, option_map};
ghost use Rattle.std.specs.Bool.{OnTrue, OnFalse};
ghost use Rattle.std.specs.Str.{bytes_eq};
ghost use Rattle.mt_io.specs.Files.{Takes, IsAtEnd, Rose, IsSame, IsSameBut, NeverFell};
ghost use Rattle.mt_io.specs.Buffers.{pending_of, first_pending, behind, StandsAt, HasNone, HasRisen};

use crate::{Failed, Files};
use std::alloc::{AllocError, Global};
use std::marker::Model;

/// How many bytes a buffer has room for.
pub(crate) const ROOM: usize = 1 << 16;

/// Bytes of one file that were read ahead, or that are still to be written. They stand in `bytes` from
/// `from` to `to`.
#[derive(Drop)]
pub(crate) struct Buffer {
    name: String,
    bytes: Vec<u8>,
    from: usize,
    to: usize,
}

impl Model for Buffer {
    ghost use Rattle.std.specs.Prelude.{◌≡◌, ◌≤◌, vec_len, slice_range};
    ghost use Rattle.std.specs.String.{string_bytes};
    ghost use Rattle.mt_io.specs.Buffers.{Pending};

    ghost Value = { Pending };

    ghost view = { λ b. record { name = string_bytes b.name; bytes = slice_range b.bytes.items b.from b.to } };

    ghost invariant = { λ b. (b.from ≤ b.to) × (b.to ≤ vec_len b.bytes) × (vec_len b.bytes ≡ 65536) };
}

impl Buffer {
    /// An empty buffer.
    fn new(alloc: Global, name: &str) -> Result<Buffer, AllocError>
        ensures { IfOk result (λ b. b ≡ record { name = name.now; bytes = [] }) }
    {
        Ok(Buffer {
            name: String::from_str(alloc, name)?,
            bytes: vec![in alloc; 0; ROOM]?,
            from: 0,
            to: 0,
        })
    }

    fn is_of(&self, name: &str) -> bool
        ensures { result ≡ bytes_eq self.now.name name.now }
    {
        self.name.as_str() == name
    }

    fn name(&self) -> &str
        ensures { result.now ≡ self.now.name }
    {
        self.name.as_str()
    }

    fn is_empty(&self) -> bool
        ensures empty { OnTrue result (self.now.bytes ≡ []) }
        ensures some { OnFalse result (0 < length self.now.bytes) }
    {
        self.from == self.to
    }

    /// Moves bytes into the front of `buf`, as many as there are or as it has room for.
    fn take(&mut self, buf: &mut [u8]) -> usize
        ensures count { result ≡ min (length buf.old) (length self.old.bytes) }
        ensures bytes { take result buf.new ≡ take result self.old.bytes }
        ensures left { self.new ≡ record { name = self.old.name; bytes = drop result self.old.bytes } }
    {
        let count = buf.len().min(self.to - self.from);
        let end = self.from + count;
        buf[..count].copy_from_slice(&self.bytes[self.from..end]);
        self.from = end;
        count
    }

    /// Adds a whole piece, or nothing where it has no room behind what is there.
    fn put(&mut self, piece: &[u8]) -> bool
        ensures put { OnTrue result (self.new.bytes ≡ self.old.bytes ++ piece.now) }
        ensures full { OnFalse result (self.new ≡ self.old) }
        ensures name { self.new.name ≡ self.old.name }
    {
        if piece.len() > self.bytes.len() - self.to {
            return false;
        }
        let end = self.to + piece.len();
        self.bytes[self.to..end].copy_from_slice(piece);
        self.to = end;
        true
    }

    /// Reads ahead into an empty buffer, by one read.
    fn fill<F: Files>(&mut self, files: &mut F, name: &str) -> Result<(), Failed>
        requires { self.old.bytes ≡ [] }
        ensures taken { OnOk result (Takes (F.held files.old name.now) self.new.bytes (F.held files.new name.now)) }
        ensures end { OnOk result (self.new.bytes ≡ [] → IsAtEnd (F.held files.old name.now)) }
        ensures failed { OnErr result (Rose (F.read_faults files.old name.now) (F.read_faults files.new name.now)) }
        ensures failed_takes_nothing { OnErr result (F.held files.new name.now ≡ F.held files.old name.now) }
        ensures failed_leaves { OnErr result (self.new.bytes ≡ []) }
        ensures name { self.new.name ≡ self.old.name }

        ensures other_files { IsSameBut name.now (F.held files.old) (F.held files.new) }
        ensures written { IsSame (F.written files.old) (F.written files.new) }
        ensures read_faults { NeverFell (F.read_faults files.old) (F.read_faults files.new) }
        ensures write_faults { NeverFell (F.write_faults files.old) (F.write_faults files.new) }
    {
        self.from = 0;
        self.to = 0;
        let count = files.read(name, self.bytes.as_mut_slice())?;
        self.to = count;
        Ok(())
    }

    /// Writes what is pending. What was written of it when a write fails is pending no more.
    fn flush<F: Files>(&mut self, files: &mut F) -> Result<(), Failed>
        ensures ok { OnOk result (self.new.bytes ≡ []) }
        ensures some_left { OnErr result (0 < length self.new.bytes) }
        ensures failed { OnErr result (Rose (F.write_faults files.old self.old.name) (F.write_faults files.new self.old.name)) }
        ensures kept { behind (F.written files.new self.old.name) self.new.bytes ≡ behind (F.written files.old self.old.name) self.old.bytes }
        ensures name { self.new.name ≡ self.old.name }

        ensures other_files { IsSameBut self.old.name (F.written files.old) (F.written files.new) }
        ensures held { IsSame (F.held files.old) (F.held files.new) }
        ensures read_faults { NeverFell (F.read_faults files.old) (F.read_faults files.new) }
        ensures write_faults { NeverFell (F.write_faults files.old) (F.write_faults files.new) }
    {
        while self.from < self.to {
            let count = files.write(self.name.as_str(), &self.bytes[self.from..self.to])?;
            self.from += count;
        }
        self.from = 0;
        self.to = 0;
        Ok(())
    }
}

/// Buffers by the names of their files. The one that was used last is at hand.
#[derive(Drop)]
pub(crate) struct Buffers {
    alloc: Global,
    list: Vec<Buffer>,
    last: usize,
}

impl Model for Buffers {
    ghost use Rattle.std.specs.Prelude.{List};
    ghost use Rattle.mt_io.specs.Buffers.{Pending, AreApart};

    ghost Value = { List Pending };

    ghost view = { λ b. b.list.items };

    ghost invariant = { λ b. AreApart b.list.items };
}

impl Buffers {
    pub(crate) fn new(alloc: Global) -> Buffers
        ensures { result ≡ [] }
    {
        Buffers {
            alloc,
            list: Vec::new(alloc),
            last: 0,
        }
    }

    /// The place of a name's buffer.
    fn find(&mut self, name: &str) -> Option<usize>
        ensures found { IfSome result (λ place. StandsAt self.old place name.now) }
        ensures none { result ≡ None → HasNone self.old name.now }
        ensures same { self.new ≡ self.old }
    {
        if let Some(buffer) = self.list.get(self.last)
            && buffer.is_of(name)
        {
            return Some(self.last);
        }
        let place = place_in(&self.list, name)?;
        self.last = place;
        Some(place)
    }

    /// Moves bytes of a name into the front of `buf`, as many as there are or as it has room for.
    pub(crate) fn take(&mut self, name: &str, buf: &mut [u8]) -> usize
        ensures count { result ≡ min (length buf.old) (length (pending_of self.old name.now)) }
        ensures bytes { take result buf.new ≡ take result (pending_of self.old name.now) }
        ensures left { pending_of self.new name.now ≡ drop result (pending_of self.old name.now) }
        ensures others { IsSameBut name.now (pending_of self.old) (pending_of self.new) }
    {
        let Some(place) = self.find(name) else {
            return 0;
        };
        let buffer = &mut self.list[place];
        buffer.take(buf)
    }

    /// Adds a whole piece behind the bytes of a name, or nothing where there is no room.
    pub(crate) fn put(&mut self, name: &str, piece: &[u8]) -> bool
        ensures put { OnTrue result (pending_of self.new name.now ≡ pending_of self.old name.now ++ piece.now) }
        ensures full { OnFalse result (self.new ≡ self.old) }
        ensures others { IsSameBut name.now (pending_of self.old) (pending_of self.new) }
    {
        let Some(place) = self.find(name) else {
            return false;
        };
        let buffer = &mut self.list[place];
        buffer.put(piece)
    }

    /// The place of a name's buffer, which is made where there is none.
    pub(crate) fn stand(&mut self, name: &str) -> Result<usize, AllocError>
        ensures stands { IfOk result (λ place. StandsAt self.new place name.now) }
        ensures same { IsSame (pending_of self.old) (pending_of self.new) }
    {
        if let Some(place) = self.find(name) {
            return Ok(place);
        }
        let place = self.list.len();
        let buffer = Buffer::new(self.alloc, name)?;
        self.list.push(buffer)?;
        self.last = place;
        Ok(place)
    }

    /// Reads ahead, by one read, in a file of which nothing is left.
    pub(crate) fn fill<F: Files>(
        &mut self,
        files: &mut F,
        place: usize,
        name: &str,
    ) -> Result<(), Failed>
        requires stands { StandsAt self.old place name.now }
        requires empty { pending_of self.old name.now ≡ [] }
        ensures taken { OnOk result (Takes (F.held files.old name.now) (pending_of self.new name.now) (F.held files.new name.now)) }
        ensures end { OnOk result (pending_of self.new name.now ≡ [] → IsAtEnd (F.held files.old name.now)) }
        ensures failed { OnErr result (Rose (F.read_faults files.old name.now) (F.read_faults files.new name.now)) }
        ensures failed_takes_nothing { OnErr result (F.held files.new name.now ≡ F.held files.old name.now) }
        ensures failed_leaves { OnErr result (pending_of self.new name.now ≡ []) }
        ensures others { IsSameBut name.now (pending_of self.old) (pending_of self.new) }

        ensures other_files { IsSameBut name.now (F.held files.old) (F.held files.new) }
        ensures written { IsSame (F.written files.old) (F.written files.new) }
        ensures read_faults { NeverFell (F.read_faults files.old) (F.read_faults files.new) }
        ensures write_faults { NeverFell (F.write_faults files.old) (F.write_faults files.new) }
    {
        let buffer = &mut self.list[place];
        buffer.fill(files, name)
    }

    /// Writes what is pending of a name.
    pub(crate) fn flush<F: Files>(&mut self, files: &mut F, name: &str) -> Result<(), Failed>
        ensures ok { OnOk result (pending_of self.new name.now ≡ []) }
        ensures failed { OnErr result (Rose (F.write_faults files.old name.now) (F.write_faults files.new name.now)) }
        ensures kept { behind (F.written files.new name.now) (pending_of self.new name.now) ≡ behind (F.written files.old name.now) (pending_of self.old name.now) }
        ensures others { IsSameBut name.now (pending_of self.old) (pending_of self.new) }

        ensures other_files { IsSameBut name.now (F.written files.old) (F.written files.new) }
        ensures held { IsSame (F.held files.old) (F.held files.new) }
        ensures read_faults { NeverFell (F.read_faults files.old) (F.read_faults files.new) }
        ensures write_faults { NeverFell (F.write_faults files.old) (F.write_faults files.new) }
    {
        let Some(place) = self.find(name) else {
            return Ok(());
        };
        let buffer = &mut self.list[place];
        buffer.flush(files)
    }

    /// Writes what is pending of every name, also after one has failed.
    pub(crate) fn flush_all<F: Files>(&mut self, files: &mut F)
        ensures kept { (name : List ℕ) → behind (F.written files.new name) (pending_of self.new name) ≡ behind (F.written files.old name) (pending_of self.old name) }
        ensures failed { HasRisen self.new (F.write_faults files.old) (F.write_faults files.new) }

        ensures held { IsSame (F.held files.old) (F.held files.new) }
        ensures read_faults { NeverFell (F.read_faults files.old) (F.read_faults files.new) }
        ensures write_faults { NeverFell (F.write_faults files.old) (F.write_faults files.new) }
    {
        for place in 0..self.list.len() {
            let buffer = &mut self.list[place];
            let _ = buffer.flush(files);
        }
    }

    /// The first name that has bytes.
    pub(crate) fn first(&self) -> Option<&str>
        ensures { option_map (λ name. name.now) result ≡ first_pending self.now }
    {
        first_in(&self.list)
    }
}

/// The first name of a buffer that has bytes.
fn first_in(list: &[Buffer]) -> Option<&str>
    ensures { option_map (λ name. name.now) result ≡ first_pending list.now }
{
    for buffer in list {
        if !buffer.is_empty() {
            return Some(buffer.name());
        }
    }
    None
}

/// The place of a name's buffer among all.
fn place_in(list: &[Buffer], name: &str) -> Option<usize>
    ensures found { IfSome result (λ place. StandsAt list.now place name.now) }
    ensures none { result ≡ None → HasNone list.now name.now }
{
    for (place, buffer) in list.iter().enumerate() {
        if buffer.is_of(name) {
            return Some(place);
        }
    }
    None
}
