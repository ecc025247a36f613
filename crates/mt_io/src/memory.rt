//! Files in memory, that tell everything and fail where they are told to.
ghost use Rattle.std.specs.Prelude.{◌≡◌, ◌≤◌, ◌⊎◌, ◌+◌, ◌++◌, [], ℕ, List, Some, None, false, length, take, drop, min, true, IfOk, OnOk, OnErr, IsSome};
ghost use Rattle.std.specs.BTreeMap.{get_by_text};
ghost use Rattle.mt_io.specs.Files.{IsSame, IsSameBut, NeverFell};
ghost use Rattle.mt_io.specs.State.{state_in, fails_read, fails_write, after_read, after_failed_read, after_write, after_failed_write, after_hold, after_fail};

use crate::entry::Entry;
use crate::{Call, Failed, Files};
use std::alloc::{AllocError, Global};
use std::collections::BTreeMap;

/// Files in memory. Each holds the bytes that it was given, keeps what is written to it, and numbers
/// its reads and its writes, each from 1; the calls that it was told of by their numbers fail, and so
/// does every read of a name that was never held.
///
/// The counters of a name stand from its first `hold`, `fail`, read or write that found memory for
/// them. A read or write that finds none is `Failed` and has no number. Such calls of all names are
/// counted together, and this count is part of each of the others. Counts and numbers stand still at
/// 2^64 - 1.
#[derive(Drop)]
pub struct MemoryFiles {
    alloc: Global,
    entries: BTreeMap<String, Entry>,
    lost: u64,
}

impl MemoryFiles {
    ghost use Rattle.mt_io.specs.Memory.{file_of, state_of, lost_calls};

    /// No file, and nothing that is to fail.
    pub fn new(alloc: Global) -> MemoryFiles
        ensures files { (name : List ℕ) → file_of result name ≡ None }
        ensures none_lost { lost_calls result ≡ 0 }
        ensures held { (name : List ℕ) → ⟦<MemoryFiles as Files>⟧.held result name ≡ Some [] }
        ensures written { (name : List ℕ) → ⟦<MemoryFiles as Files>⟧.written result name ≡ Some [] }
    {
        MemoryFiles {
            alloc,
            entries: BTreeMap::new(alloc),
            lost: 0,
        }
    }

    /// Sets the bytes of a name that are still to be read.
    pub fn hold(&mut self, name: &str, bytes: &[u8]) -> Result<(), AllocError>
        ensures ok { OnOk result (file_of self.new name.now ≡ Some (after_hold bytes.now (state_of self.old name.now))) }
        ensures held { OnOk result (⟦<MemoryFiles as Files>⟧.held self.new name.now ≡ Some bytes.now) }
        ensures err { OnErr result (IsSame (file_of self.old) (file_of self.new)) }
        ensures other_files { IsSameBut name.now (file_of self.old) (file_of self.new) }
        ensures none_lost { lost_calls self.new ≡ lost_calls self.old }
    {
        let text = bytes.to_vec(self.alloc)?;
        stand(self.alloc, &mut self.entries, name)?;
        hold_entry(&mut self.entries, name, text);
        Ok(())
    }

    /// Has the call of this number of a name fail, its number among the reads or the writes of the
    /// name from 1.
    pub fn fail(&mut self, name: &str, call: Call, number: u64) -> Result<(), AllocError>
        ensures ok { OnOk result (file_of self.new name.now ≡ Some (after_fail call number (state_of self.old name.now))) }
        ensures err { OnErr result (IsSame (file_of self.old) (file_of self.new)) }
        ensures other_files { IsSameBut name.now (file_of self.old) (file_of self.new) }
        ensures none_lost { lost_calls self.new ≡ lost_calls self.old }
    {
        fail_entry(self.alloc, &mut self.entries, name, call, number)
    }

    /// The bytes that were written to a name, none if nothing was.
    pub fn written(&self, name: &str) -> &[u8]
        ensures bytes { result.now ≡ (state_of self.now name.now).written }
        ensures told { ⟦<MemoryFiles as Files>⟧.written self.now name.now ≡ Some result.now }
    {
        match self.entries.get(name) {
            Some(entry) => entry.written(),
            None => &[],
        }
    }
}

// Has the counters of a name stand.
fn stand(alloc: Global, entries: &mut BTreeMap<String, Entry>, name: &str) -> Result<(), AllocError>
    ensures ok { OnOk result (get_by_text entries.new name.now ≡ Some (state_in entries.old name.now)) }
    ensures first { OnErr result (get_by_text entries.old name.now ≡ None) }
    ensures err { OnErr result (IsSame (get_by_text entries.old) (get_by_text entries.new)) }
    ensures state { state_in entries.new name.now ≡ state_in entries.old name.now }
    ensures others { IsSameBut name.now (get_by_text entries.old) (get_by_text entries.new) }
{
    if !entries.contains_key(name) {
        let key = String::from_str(alloc, name)?;
        entries.insert(key, Entry::new(alloc))?;
    }
    Ok(())
}

fn hold_entry(entries: &mut BTreeMap<String, Entry>, name: &str, text: Vec<u8>)
    requires { IsSome (get_by_text entries.old name.now) }
    ensures after { get_by_text entries.new name.now ≡ Some (after_hold text.items (state_in entries.old name.now)) }
    ensures others { IsSameBut name.now (get_by_text entries.old) (get_by_text entries.new) }
{
    if let Some(entry) = entries.get_mut(name) {
        entry.hold(text);
    }
}

fn fail_entry(
    alloc: Global,
    entries: &mut BTreeMap<String, Entry>,
    name: &str,
    call: Call,
    number: u64,
) -> Result<(), AllocError>
    ensures ok { OnOk result (get_by_text entries.new name.now ≡ Some (after_fail call number (state_in entries.old name.now))) }
    ensures err { OnErr result (IsSame (get_by_text entries.old) (get_by_text entries.new)) }
    ensures others { IsSameBut name.now (get_by_text entries.old) (get_by_text entries.new) }
{
    if let Some(entry) = entries.get_mut(name) {
        return entry.fail(call, number);
    }
    let mut entry = Entry::new(alloc);
    entry.fail(call, number)?;
    let key = String::from_str(alloc, name)?;
    entries.insert(key, entry)?;
    Ok(())
}

fn read_entry(
    entries: &mut BTreeMap<String, Entry>,
    name: &str,
    buf: &mut [u8],
) -> Result<usize, Failed>
    requires { IsSome (get_by_text entries.old name.now) }
    ensures passes { OnOk result (fails_read (state_in entries.old name.now) ≡ false) }
    ensures count { IfOk result (λ n. n ≡ min (length buf.old) (length (state_in entries.old name.now).left)) }
    ensures bytes { IfOk result (λ n. buf.new ≡ take n (state_in entries.old name.now).left ++ drop n buf.old) }
    ensures after { IfOk result (λ n. get_by_text entries.new name.now ≡ Some (after_read n (state_in entries.old name.now))) }
    ensures fails { OnErr result (fails_read (state_in entries.old name.now) ≡ true) }
    ensures failed { OnErr result (get_by_text entries.new name.now ≡ Some (after_failed_read (state_in entries.old name.now))) }
    ensures no_bytes { OnErr result (buf.new ≡ buf.old) }
    ensures written { (state_in entries.new name.now).written ≡ (state_in entries.old name.now).written }
    ensures read_faults { (state_in entries.old name.now).read_faults ≤ (state_in entries.new name.now).read_faults }
    ensures others { IsSameBut name.now (get_by_text entries.old) (get_by_text entries.new) }
{
    match entries.get_mut(name) {
        Some(entry) => entry.read(buf),
        None => unreachable!(),
    }
}

fn write_entry(
    entries: &mut BTreeMap<String, Entry>,
    name: &str,
    piece: &[u8],
) -> Result<usize, Failed>
    requires { IsSome (get_by_text entries.old name.now) }
    ensures passes { OnOk result (fails_write (state_in entries.old name.now) ≡ false) }
    ensures count { IfOk result (λ n. n ≡ length piece.now) }
    ensures after { OnOk result (get_by_text entries.new name.now ≡ Some (after_write piece.now (state_in entries.old name.now))) }
    ensures failed { OnErr result (get_by_text entries.new name.now ≡ Some (after_failed_write (state_in entries.old name.now))) }
    ensures left { (state_in entries.new name.now).left ≡ (state_in entries.old name.now).left }
    ensures write_faults { (state_in entries.old name.now).write_faults ≤ (state_in entries.new name.now).write_faults }
    ensures others { IsSameBut name.now (get_by_text entries.old) (get_by_text entries.new) }
{
    match entries.get_mut(name) {
        Some(entry) => entry.write(piece),
        None => unreachable!(),
    }
}

impl Files for MemoryFiles {
    ghost use Rattle.mt_io.specs.Memory.{file_of, state_of, lost_calls, held_of, written_of, read_faults_of, write_faults_of, HasFailedRead, HasFailedWrite, IsLost};

    ghost held = { held_of };

    ghost written = { written_of };

    ghost read_faults = { read_faults_of };

    ghost write_faults = { write_faults_of };

    /// Reads all bytes that `buf` has room for, or all that are left.
    fn read(&mut self, name: &str, buf: &mut [u8]) -> Result<usize, Failed>
        ensures passes { OnOk result (fails_read (state_of self.old name.now) ≡ false) }
        ensures count { IfOk result (λ n. n ≡ min (length buf.old) (length (state_of self.old name.now).left)) }
        ensures bytes { IfOk result (λ n. buf.new ≡ take n (state_of self.old name.now).left ++ drop n buf.old) }
        ensures after { IfOk result (λ n. file_of self.new name.now ≡ Some (after_read n (state_of self.old name.now))) }
        ensures none_lost { OnOk result (lost_calls self.new ≡ lost_calls self.old) }
        ensures fails { OnErr result (HasFailedRead self.old self.new name.now ⊎ IsLost self.old self.new name.now) }
        ensures no_bytes { OnErr result (buf.new ≡ buf.old) }
        ensures other_names { IsSameBut name.now (file_of self.old) (file_of self.new) }

        ensures written { IsSame (written_of self.old) (written_of self.new) }
        ensures read_faults { NeverFell (read_faults_of self.old) (read_faults_of self.new) }
        ensures write_faults { NeverFell (write_faults_of self.old) (write_faults_of self.new) }
    {
        if stand(self.alloc, &mut self.entries, name).is_err() {
            self.lost = self.lost.saturating_add(1);
            return Err(Failed);
        }
        read_entry(&mut self.entries, name, buf)
    }

    /// Writes the whole piece. A write with no memory for it fails, and is the one that may fail
    /// without its number in the list.
    fn write(&mut self, name: &str, piece: &[u8]) -> Result<usize, Failed>
        ensures passes { OnOk result (fails_write (state_of self.old name.now) ≡ false) }
        ensures count { IfOk result (λ n. n ≡ length piece.now) }
        ensures after { OnOk result (file_of self.new name.now ≡ Some (after_write piece.now (state_of self.old name.now))) }
        ensures none_lost { OnOk result (lost_calls self.new ≡ lost_calls self.old) }
        ensures fails { OnErr result (HasFailedWrite self.old self.new name.now ⊎ IsLost self.old self.new name.now) }
        ensures other_names { IsSameBut name.now (file_of self.old) (file_of self.new) }

        ensures held { IsSame (held_of self.old) (held_of self.new) }
        ensures read_faults { NeverFell (read_faults_of self.old) (read_faults_of self.new) }
        ensures write_faults { NeverFell (write_faults_of self.old) (write_faults_of self.new) }
    {
        if stand(self.alloc, &mut self.entries, name).is_err() {
            self.lost = self.lost.saturating_add(1);
            return Err(Failed);
        }
        write_entry(&mut self.entries, name, piece)
    }
}
