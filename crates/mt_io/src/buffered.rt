//! Files that are read and written through buffers.
ghost use Rattle.std.specs.Prelude.{◌≡◌, ℕ, List, OnOk, OnErr, IsSomeAnd, option_map};
ghost use Rattle.mt_io.specs.Files.{Rose, IsSame, NeverFell};
ghost use Rattle.mt_io.specs.Buffers.{HasPending};

use crate::buffer::{Buffers, ROOM};
use crate::{Failed, Files};
use std::alloc::Global;

/// Files over others, which are read and written through a buffer of 64 KiB a name. What a name holds are
/// the bytes that were read ahead and those that the inner files hold; what was written to it is what the
/// inner files have written and what is pending.
///
/// The first write of a name goes through at once, and so does every call that finds no memory for a
/// buffer. So the inner files create or empty a file at its first write, and each failure is one of theirs.
/// What is pending is lost unless `finish` is called.
#[derive(Drop)]
pub struct Buffered<F: Files + Drop> {
    inner: F,
    held_back: Buffers,
    pending: Buffers,
}

impl<F: Files + Drop> Buffered<F> {
    ghost use Rattle.mt_io.specs.Buffered.{inner_of, unwritten_in};

    /// No byte was read ahead, and none is pending.
    pub fn new(alloc: Global, inner: F) -> Buffered<F>
        ensures inner { inner_of result ≡ inner }
        ensures held { IsSame (F.held inner) (⟦<Buffered<F> as Files>⟧.held result) }
        ensures written { IsSame (F.written inner) (⟦<Buffered<F> as Files>⟧.written result) }
        ensures read_faults { IsSame (F.read_faults inner) (⟦<Buffered<F> as Files>⟧.read_faults result) }
        ensures write_faults { IsSame (F.write_faults inner) (⟦<Buffered<F> as Files>⟧.write_faults result) }
    {
        Buffered {
            inner,
            held_back: Buffers::new(alloc),
            pending: Buffers::new(alloc),
        }
    }

    /// Writes what is pending of every name, also after one has failed. An error says that bytes of some
    /// file are still pending: `unwritten` names the first.
    pub fn finish(&mut self) -> Result<(), Failed>
        ensures ok { OnOk result (IsSame (F.written (inner_of self.new)) (⟦<Buffered<F> as Files>⟧.written self.old)) }
        ensures err { OnErr result (IsSomeAnd (unwritten_in self.new) (λ name. Rose (⟦<Buffered<F> as Files>⟧.write_faults self.old name) (⟦<Buffered<F> as Files>⟧.write_faults self.new name))) }

        ensures written { IsSame (⟦<Buffered<F> as Files>⟧.written self.old) (⟦<Buffered<F> as Files>⟧.written self.new) }
        ensures held { IsSame (⟦<Buffered<F> as Files>⟧.held self.old) (⟦<Buffered<F> as Files>⟧.held self.new) }
        ensures read_faults { NeverFell (⟦<Buffered<F> as Files>⟧.read_faults self.old) (⟦<Buffered<F> as Files>⟧.read_faults self.new) }
        ensures write_faults { NeverFell (⟦<Buffered<F> as Files>⟧.write_faults self.old) (⟦<Buffered<F> as Files>⟧.write_faults self.new) }
    {
        self.pending.flush_all(&mut self.inner);
        match self.pending.first() {
            None => Ok(()),
            Some(_) => Err(Failed),
        }
    }

    /// The first file of which bytes are pending.
    pub fn unwritten(&self) -> Option<&str>
        ensures { option_map (λ name. name.now) result ≡ unwritten_in self.now }
    {
        self.pending.first()
    }

    /// The inner files, without what is pending.
    pub fn into_inner(self) -> F
        ensures inner { result ≡ inner_of self }
        ensures written { HasPending (⟦<Buffered<F> as Files>⟧.written self) (F.written result) }
        ensures read_faults { IsSame (⟦<Buffered<F> as Files>⟧.read_faults self) (F.read_faults result) }
        ensures write_faults { IsSame (⟦<Buffered<F> as Files>⟧.write_faults self) (F.write_faults result) }
    {
        self.inner
    }
}

impl<F: Files + Drop> Files for Buffered<F> {
    ghost use Rattle.mt_io.specs.Buffers.{pending_of, ahead, behind};

    ghost held = { λ b name. ahead (pending_of b.held_back name) (F.held b.inner name) };

    ghost written = { λ b name. behind (F.written b.inner name) (pending_of b.pending name) };

    ghost read_faults = { λ b. F.read_faults b.inner };

    ghost write_faults = { λ b. F.write_faults b.inner };

    /// Gives bytes that were read ahead, or reads ahead first where there are none. A read of a whole
    /// buffer or more goes straight to the inner files.
    fn read(&mut self, name: &str, buf: &mut [u8]) -> Result<usize, Failed> {
        let count = self.held_back.take(name, buf);
        if count > 0 {
            return Ok(count);
        }
        if buf.is_empty() || buf.len() >= ROOM {
            return self.inner.read(name, buf);
        }
        match self.held_back.stand(name) {
            Ok(place) => {
                self.held_back.fill(&mut self.inner, place, name)?;
                Ok(self.held_back.take(name, buf))
            }
            Err(_) => self.inner.read(name, buf),
        }
    }

    /// Adds the piece to what is pending, which is written first where there is no room behind it.
    fn write(&mut self, name: &str, piece: &[u8]) -> Result<usize, Failed> {
        if self.pending.put(name, piece) {
            return Ok(piece.len());
        }
        self.pending.flush(&mut self.inner, name)?;
        if self.pending.put(name, piece) {
            return Ok(piece.len());
        }
        let count = self.inner.write(name, piece)?;
        let _ = self.pending.stand(name);
        Ok(count)
    }
}
