//! One file in memory.
ghost use Rattle.std.specs.Prelude.{◌≡◌, ◌≤◌, ◌++◌, Bool, true, false, length, take, drop, min, IfOk, OnOk, OnErr};

use crate::Failed;
use std::alloc::{AllocError, Global};
use std::marker::Model;

/// The calls of files that can fail.
#[derive(Clone, Copy, Debug, PartialEq, Eq)]
pub enum Call {
    Read,
    Write,
}

/// A file in memory, with its counters. The first `taken` bytes of `text` were read.
#[derive(Drop)]
pub(crate) struct Entry {
    is_held: bool,
    text: Vec<u8>,
    taken: usize,
    written: Vec<u8>,
    reads: u64,
    writes: u64,
    read_faults: u64,
    write_faults: u64,
    failing_reads: Vec<u64>,
    failing_writes: Vec<u64>,
}

impl Model for Entry {
    ghost use Rattle.std.specs.Prelude.{◌≤◌, drop, vec_len};
    ghost use Rattle.mt_io.specs.State.{FileState};

    ghost Value = { FileState };

    ghost view = { λ e. record { is_held = e.is_held; left = drop e.taken e.text.items; written = e.written.items; reads = e.reads; writes = e.writes; read_faults = e.read_faults; write_faults = e.write_faults; failing_reads = e.failing_reads.items; failing_writes = e.failing_writes.items } };

    ghost invariant = { λ e. e.taken ≤ vec_len e.text };
}

impl Entry {
    ghost use Rattle.mt_io.specs.State.{unnamed, fails_read, fails_write, after_read, after_failed_read, after_write, after_failed_write, after_hold, after_fail};

    pub(crate) fn new(alloc: Global) -> Entry
        ensures { result ≡ unnamed }
    {
        Entry {
            is_held: false,
            text: Vec::new(alloc),
            taken: 0,
            written: Vec::new(alloc),
            reads: 0,
            writes: 0,
            read_faults: 0,
            write_faults: 0,
            failing_reads: Vec::new(alloc),
            failing_writes: Vec::new(alloc),
        }
    }

    pub(crate) fn hold(&mut self, text: Vec<u8>)
        ensures { self.new ≡ after_hold text.items self.old }
    {
        self.text = text;
        self.taken = 0;
        self.is_held = true;
    }

    pub(crate) fn fail(&mut self, call: Call, number: u64) -> Result<(), AllocError>
        ensures ok { OnOk result (self.new ≡ after_fail call number self.old) }
        ensures err { OnErr result (self.new ≡ self.old) }
    {
        match call {
            Call::Read => self.failing_reads.push(number)?,
            Call::Write => self.failing_writes.push(number)?,
        }
        Ok(())
    }

    pub(crate) fn read(&mut self, buf: &mut [u8]) -> Result<usize, Failed>
        ensures passes { OnOk result (fails_read self.old ≡ false) }
        ensures count { IfOk result (λ n. n ≡ min (length buf.old) (length self.old.left)) }
        ensures bytes { IfOk result (λ n. buf.new ≡ take n self.old.left ++ drop n buf.old) }
        ensures after { IfOk result (λ n. self.new ≡ after_read n self.old) }
        ensures fails { OnErr result (fails_read self.old ≡ true) }
        ensures failed { OnErr result (self.new ≡ after_failed_read self.old) }
        ensures no_bytes { OnErr result (buf.new ≡ buf.old) }
        ensures written { self.new.written ≡ self.old.written }
        ensures read_faults { self.old.read_faults ≤ self.new.read_faults }
    {
        self.reads = self.reads.saturating_add(1);
        if !self.is_held || self.failing_reads.contains(&self.reads) {
            self.read_faults = self.read_faults.saturating_add(1);
            return Err(Failed);
        }
        let left = &self.text[self.taken..];
        let count = buf.len().min(left.len());
        buf[..count].copy_from_slice(&left[..count]);
        self.taken += count;
        Ok(count)
    }

    pub(crate) fn write(&mut self, piece: &[u8]) -> Result<usize, Failed>
        ensures passes { OnOk result (fails_write self.old ≡ false) }
        ensures count { IfOk result (λ n. n ≡ length piece.now) }
        ensures after { OnOk result (self.new ≡ after_write piece.now self.old) }
        ensures failed { OnErr result (self.new ≡ after_failed_write self.old) }
        ensures left { self.new.left ≡ self.old.left }
        ensures write_faults { self.old.write_faults ≤ self.new.write_faults }
    {
        self.writes = self.writes.saturating_add(1);
        if self.failing_writes.contains(&self.writes)
            || self.written.extend_from_slice(piece).is_err()
        {
            self.write_faults = self.write_faults.saturating_add(1);
            return Err(Failed);
        }
        Ok(piece.len())
    }

    pub(crate) fn written(&self) -> &[u8]
        ensures { result.now ≡ self.now.written }
    {
        &self.written
    }
}
