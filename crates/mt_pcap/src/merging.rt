//! Merging captures as they are read: the frames of several devices one by one, by the time of their
//! capture.
ghost use Rattle.std.specs.Prelude.{◌≡◌, ◌≢◌, false, ℕ, ◌<◌, ◌≤◌, ◌+◌, ◌/◌, ◌^◌, ◌⊎◌, [], ◌∷◌, length, map, slice_get, slice_set, Option, Some, None, MatchOption, MatchResult, IfOk, IfErr, IfSome, IsErrOf, OnOk, IsSome, ◌==◌, nat_le, if◌then◌else◌, option_map};
ghost use Rattle.std.specs.Bool.{OnTrue, OnFalse};
ghost use Rattle.std.specs.List.{list_any, list_all};
ghost use Rattle.std.specs.Str.{bytes_eq};
ghost use Rattle.mt_io.specs.Files.{Rose, IsSame, IsSameBut, NeverFell};
ghost use Rattle.mt_pcap.specs.declared.fault.PcapFault.{PcapFault};
ghost use Rattle.mt_pcap.specs.Capture.{IsOfBytes, is_header_fault, ended};
ghost use Rattle.mt_pcap.specs.Stream.{ReaderState, over, TakesSo, HasNoRecord, IsLeft};
ghost use Rattle.mt_pcap.specs.Merge.{next_index, Done, Fault};
ghost use Rattle.mt_pcap.specs.Sources.{Source, MergeState, begun, names_of, AreApart, IsSameBeside, left_in, all_left, EndsSo, GivesSo, HasFailed};
ghost use Rattle.mt_pcap.specs.Merged.{IsUnended, HasGiven, HaveGiven, AreUnbroken, AreReadyBut, HasBroken};
ghost use Rattle.mt_pcap.specs.Filling.{IsReady, AreReady, IsBalanced, AreBalanced, stamp_of, heads_of, HasTaken, IsOfMerge};

use crate::fault::PcapFault;
use crate::reader::Reader;
use mt_io::Files;
use mt_packet::{Frame, Stamped};
use std::alloc::{AllocError, Global};
use std::marker::Model;

/// The most captures that are merged.
const MOST_DEVICES: usize = 32;

/// The fault of a device's capture.
#[derive(Clone, Copy, Debug, PartialEq, Eq)]
pub struct MergeFault {
    /// From 1.
    pub device: u32,
    pub fault: PcapFault,
}

/// A capture that is merged, with the record that was read of it and is not given yet.
#[derive(Drop)]
struct Queue {
    reader: Reader,
    head: Option<(u64, Frame)>,
}

impl Model for Queue {
    ghost use Rattle.std.specs.Prelude.{ℕ, List, IfSome};
    ghost use Rattle.mt_pcap.specs.Laws.{IsWritable};
    ghost use Rattle.mt_pcap.specs.Sources.{Source};

    ghost Value = { Source };

    ghost view = { λ q. record { reader = q.reader; head = q.head } };

    ghost invariant = { λ q. IfSome q.head IsWritable };
}

impl Queue {
    /// A capture of which nothing was read.
    fn new(reader: Reader) -> Queue
        ensures { result ≡ record { reader = reader; head = None } }
    {
        Queue { reader, head: None }
    }

    /// The time of the record that was read.
    fn first_stamp(&self) -> Option<u64>
        ensures { result ≡ stamp_of self.now }
    {
        match &self.head {
            Some((stamp, _)) => Some(*stamp),
            None => None,
        }
    }

    /// Takes the record that was read.
    fn take(&mut self) -> Option<(u64, Frame)>
        ensures head { result ≡ self.old.head }
        ensures left { self.new ≡ record { reader = self.old.reader; head = None } }
        ensures seconds_fit { IfSome result (λ r. r.0 / 1000000000 < 2 ^ 32) }
        ensures lengths { IfSome result (λ r. length r.1 ≤ 262144) }
    {
        self.head.take()
    }

    /// Reads the next record where it was not read yet.
    fn fill<F: Files>(&mut self, files: &mut F) -> Result<(), PcapFault>
        requires { self.old.reader.given < 2 ^ 32 }
        ensures ready { OnOk result (IsReady self.new) }
        ensures left { MatchResult result (λ _. left_in (F.held files.new) self.new ≡ left_in (F.held files.old) self.old) (λ fault. fault ≢ PcapFault.ReadFault → left_in (F.held files.new) self.new ≡ left_in (F.held files.old) self.old) }
        ensures fault { IfErr result (λ fault. IsOfBytes (Some fault) → IsLeft (left_in (F.held files.old) self.old) (ended (Some fault))) }
        ensures read_fault { IsErrOf result PcapFault.ReadFault → (self.old.reader.standing ≡ over (Some PcapFault.ReadFault)) ⊎ Rose (F.read_faults files.old self.old.reader.name) (F.read_faults files.new self.old.reader.name) }
        ensures goes_on { OnOk result (TakesSo (F.held files.old self.old.reader.name) (F.held files.new self.old.reader.name) (λ bytes. HasGiven [] self.old bytes self.new)) }
        ensures unbroken { OnOk result ((fault : PcapFault) → self.new.reader.standing ≡ over (Some fault) → self.old.reader.standing ≡ over (Some fault)) }
        ensures cut { IfErr result (λ fault. fault ≡ PcapFault.ReadFault → (self.old.head ≡ None) × IsUnended self.old × TakesSo (F.held files.old self.old.reader.name) (F.held files.new self.old.reader.name) (HasNoRecord self.old.reader.standing)) }
        ensures past_header { IfErr result (λ fault. ((other : PcapFault) → self.old.reader.standing ≢ over (Some other)) → is_header_fault (Some fault) ≡ false) }
        ensures name { self.new.reader.name ≡ self.old.reader.name }
        ensures balanced { IsBalanced self.old self.new }

        ensures other_files { IsSameBut self.old.reader.name (F.held files.old) (F.held files.new) }
        ensures written { IsSame (F.written files.old) (F.written files.new) }
        ensures read_faults { NeverFell (F.read_faults files.old) (F.read_faults files.new) }
        ensures write_faults { NeverFell (F.write_faults files.old) (F.write_faults files.new) }
    {
        if self.head.is_some() {
            return Ok(());
        }
        match self.reader.next(files) {
            Ok(next) => {
                self.head = next;
                Ok(())
            }
            Err(fault) => Err(fault),
        }
    }
}

/// The best index so far and its time, or this index and time where there is none or it is earlier.
fn sooner(best: Option<(usize, u64)>, index: usize, stamp: u64) -> (usize, u64)
    ensures { MatchOption best
        (result ≡ (index, stamp))
        (λ b. result ≡ (if nat_le b.1 stamp then b else (index, stamp))) }
{
    match best {
        Some((earlier, least)) if least <= stamp => (earlier, least),
        _ => (index, stamp),
    }
}

/// The index of the capture whose record comes next: the one of least time, and of equal times the one of
/// the lowest device.
fn next_index(queues: &[Queue]) -> Option<usize>
    ensures least { result ≡ next_index (heads_of queues.now) }
    ensures there { IfSome result (λ index. (s : Source) × (slice_get queues.now index ≡ Some s) × IsSome s.head) }
{
    let mut best = None;
    for (index, queue) in queues.iter().enumerate() {
        if let Some(stamp) = queue.first_stamp() {
            best = Some(sooner(best, index, stamp));
        }
    }
    match best {
        Some((index, _)) => Some(index),
        None => None,
    }
}

/// Takes the record that comes next, with its device.
fn take_next(queues: &mut [Queue]) -> Option<(u32, u64, Frame)>
    requires { length queues.old ≤ 32 }
    ensures none { result ≡ None → next_index (heads_of queues.old) ≡ None }
    ensures kept { result ≡ None → queues.new ≡ queues.old }
    ensures taken { IfSome result (λ x. HasTaken queues.old x.0 (x.1, x.2) queues.new) }
    ensures seconds_fit { IfSome result (λ x. x.1 / 1000000000 < 2 ^ 32) }
    ensures lengths { IfSome result (λ x. length x.2 ≤ 262144) }
{
    let index = next_index(queues)?;
    let queue = &mut queues[index];
    let (stamp, frame) = queue.take()?;
    Some((index as u32 + 1, stamp, frame))
}

/// Reads the records that were not read yet, in the order of the devices.
fn fill_all<F: Files>(queues: &mut [Queue], files: &mut F) -> Result<(), MergeFault>
    requires few { length queues.old ≤ 32 }
    requires apart { AreApart (names_of queues.old) }
    requires given { (k : ℕ) (s : Source) → slice_get queues.old k ≡ Some s → s.reader.given < 2 ^ 32 }
    ensures ready { OnOk result (AreReady queues.new) }
    ensures left { MatchResult result (λ _. all_left (F.held files.new) queues.new ≡ all_left (F.held files.old) queues.old) (λ f. f.fault ≢ PcapFault.ReadFault → all_left (F.held files.new) queues.new ≡ all_left (F.held files.old) queues.old) }
    ensures fault { IfErr result (λ f. IsOfBytes (Some f.fault) → EndsSo (all_left (F.held files.old) queues.old) (Fault f.device f.fault)) }
    ensures read_fault { IfErr result (λ f. f.fault ≡ PcapFault.ReadFault → HasFailed queues.old f.device f.fault (F.read_faults files.old) (F.read_faults files.new)) }
    ensures goes_on { OnOk result (HaveGiven [] queues.old queues.new (F.held files.old) (F.held files.new)) }
    ensures unbroken { OnOk result (AreUnbroken queues.old → AreUnbroken queues.new) }
    ensures broken { IfErr result (λ f. f.fault ≡ PcapFault.ReadFault → HasBroken queues.old f.device (F.held files.old) (F.held files.new)) }
    ensures device { IfErr result (λ f. (1 ≤ f.device) × (f.device ≤ length queues.old)) }
    ensures past_header { IfErr result (λ f. AreUnbroken queues.old → is_header_fault (Some f.fault) ≡ false) }
    ensures names { names_of queues.new ≡ names_of queues.old }
    ensures balanced { AreBalanced queues.old queues.new }

    ensures other_files { IsSameBeside (names_of queues.old) (F.held files.old) (F.held files.new) }
    ensures written { IsSame (F.written files.old) (F.written files.new) }
    ensures read_faults { NeverFell (F.read_faults files.old) (F.read_faults files.new) }
    ensures write_faults { NeverFell (F.write_faults files.old) (F.write_faults files.new) }
{
    for index in 0..queues.len() {
        let queue = &mut queues[index];
        match queue.fill(files) {
            Ok(()) => {}
            Err(fault) => {
                return Err(MergeFault {
                    device: index as u32 + 1,
                    fault,
                });
            }
        }
    }
    Ok(())
}

/// The next frame of a merge that has given so many.
fn next_of<F: Files>(
    queues: &mut [Queue],
    given: u32,
    files: &mut F,
) -> Result<Option<Stamped>, MergeFault>
    requires merge { IsOfMerge queues.old given }
    requires given { given < 16777217 }
    ensures gives { IfOk result (λ next. IfSome next (λ frame. GivesSo given (all_left (F.held files.old) queues.old) frame (all_left (F.held files.new) queues.new))) }
    ensures ends { IfOk result (λ next. next ≡ None → EndsSo (all_left (F.held files.old) queues.old) Done) }
    ensures fault { IfErr result (λ f. IsOfBytes (Some f.fault) → EndsSo (all_left (F.held files.old) queues.old) (Fault f.device f.fault)) }
    ensures read_fault { IfErr result (λ f. f.fault ≡ PcapFault.ReadFault → HasFailed queues.old f.device f.fault (F.read_faults files.old) (F.read_faults files.new)) }
    ensures left { MatchResult result
        (λ next. next ≡ None → all_left (F.held files.new) queues.new ≡ all_left (F.held files.old) queues.old)
        (λ f. f.fault ≢ PcapFault.ReadFault → all_left (F.held files.new) queues.new ≡ all_left (F.held files.old) queues.old) }
    ensures each_gives { IfOk result (λ next. IfSome next (λ frame. HaveGiven (frame ∷ []) queues.old queues.new (F.held files.old) (F.held files.new))) }
    ensures ready { IfOk result (λ next. IfSome next (λ frame. AreReadyBut frame.device queues.new)) }
    ensures unbroken { IfOk result (λ next. IfSome next (λ _. AreUnbroken queues.old → AreUnbroken queues.new)) }
    ensures broken { IfErr result (λ f. f.fault ≡ PcapFault.ReadFault → HasBroken queues.old f.device (F.held files.old) (F.held files.new)) }
    ensures past_header { IfErr result (λ f. AreUnbroken queues.old → is_header_fault (Some f.fault) ≡ false) }
    ensures number { IfOk result (λ next. IfSome next (λ frame. frame.number ≡ given)) }
    ensures device { MatchResult result
        (λ next. IfSome next (λ frame. (1 ≤ frame.device) × (frame.device ≤ length queues.old)))
        (λ f. (1 ≤ f.device) × (f.device ≤ length queues.old)) }
    ensures seconds_fit { IfOk result (λ next. IfSome next (λ frame. frame.stamp / 1000000000 < 2 ^ 32)) }
    ensures lengths { IfOk result (λ next. IfSome next (λ frame. length frame.frame ≤ 262144)) }
    ensures names { names_of queues.new ≡ names_of queues.old }
    ensures merge { MatchResult result (λ next. MatchOption next (IsOfMerge queues.new given) (λ _. IsOfMerge queues.new (given + 1))) (λ _. IsOfMerge queues.new given) }

    ensures other_files { IsSameBeside (names_of queues.old) (F.held files.old) (F.held files.new) }
    ensures written { IsSame (F.written files.old) (F.written files.new) }
    ensures read_faults { NeverFell (F.read_faults files.old) (F.read_faults files.new) }
    ensures write_faults { NeverFell (F.write_faults files.old) (F.write_faults files.new) }
{
    match fill_all(queues, files) {
        Ok(()) => {}
        Err(fault) => return Err(fault),
    }
    match take_next(queues) {
        None => Ok(None),
        Some((device, stamp, frame)) => Ok(Some(Stamped {
            stamp,
            device,
            number: given,
            frame,
        })),
    }
}

/// A merge of captures as they are read: one record of each is in memory at a time. A contract sees its
/// captures, the first of them that of device 1, each with the record that was read of it, and how many
/// frames were given.
#[derive(Drop)]
pub struct Merge {
    queues: Vec<Queue>,
    given: u32,
}

impl Model for Merge {
    ghost use Rattle.mt_pcap.specs.Sources.{MergeState};
    ghost use Rattle.mt_pcap.specs.Filling.{IsOfMerge};

    ghost Value = { MergeState };

    ghost view = { λ m. record { sources = m.queues.items; given = m.given } };

    ghost invariant = { λ m. IsOfMerge m.queues.items m.given };
}

/// Whether readers can be merged: at most 32, of files with different names, that have given no record.
pub fn can_merge(readers: &[Reader]) -> bool
    ensures few { OnTrue result (length readers.now ≤ 32) }
    ensures apart { OnTrue result (AreApart (map (λ r. r.name) readers.now)) }
    ensures none_given { OnTrue result ((k : ℕ) (r : ReaderState) → slice_get readers.now k ≡ Some r → r.given ≡ 0) }
    ensures cause { OnFalse result (length readers.now ≤ 32 → AreApart (map (λ r. r.name) readers.now) → ((k : ℕ) (r : ReaderState) → slice_get readers.now k ≡ Some r → r.given ≡ 0) → ⊥) }
{
    readers.len() <= MOST_DEVICES && are_apart(readers) && have_given_none(readers)
}

/// Whether no two of the files have one name.
fn are_apart(readers: &[Reader]) -> bool
    ensures apart { OnTrue result (AreApart (map (λ r. r.name) readers.now)) }
    ensures cause { OnFalse result (AreApart (map (λ r. r.name) readers.now) → ⊥) }
{
    for (index, reader) in readers.iter().enumerate() {
        if has_name(&readers[index + 1..], reader.name()) {
            return false;
        }
    }
    true
}

fn has_name(readers: &[Reader], name: &str) -> bool
    ensures { result ≡ list_any (λ r. bytes_eq r.name name.now) readers.now }
{
    readers.iter().any(|reader| reader.name() == name)
}

fn have_given_none(readers: &[Reader]) -> bool
    ensures { result ≡ list_all (λ r. r.given == 0) readers.now }
{
    readers.iter().all(|reader| reader.given() == 0)
}

impl Merge {
    /// A merge of captures that were opened. The first is that of device 1, the second that of device 2,
    /// and so on.
    pub fn new(alloc: Global, readers: Vec<Reader>) -> Result<Merge, AllocError>
        requires few { length readers.items ≤ 32 }
        requires apart { AreApart (map (λ r. r.name) readers.items) }
        requires none_given { (k : ℕ) (r : ReaderState) → slice_get readers.items k ≡ Some r → r.given ≡ 0 }
        ensures sources { IfOk result (λ merge. merge.sources ≡ begun readers.items) }
        ensures given { IfOk result (λ merge. merge.given ≡ 0) }
    {
        Ok(Merge {
            queues: queues_of(alloc, readers)?,
            given: 0,
        })
    }

    /// How many frames were given.
    pub fn given(&self) -> u32
        ensures { result ≡ self.now.given }
    {
        self.given
    }

    /// The next frame. The records that come next and were not read yet are read in the order of the
    /// devices; the first fault of these is the answer. Else the record of least time is given, of equal
    /// times that of the lowest device. So in one capture the records stay in their order, even where
    /// their times fall, and a fault is answered as soon as all records before it are given, whatever is
    /// left of other captures. Frames are numbered from 0. None is the end of every capture. After want of
    /// memory the merge goes on with the records that it has. No frame is copied.
    pub fn next<F: Files>(&mut self, files: &mut F) -> Result<Option<Stamped>, MergeFault>
        requires { self.old.given < 16777217 }
        ensures gives { IfOk result (λ next. IfSome next (λ frame. GivesSo self.old.given (all_left (F.held files.old) self.old.sources) frame (all_left (F.held files.new) self.new.sources))) }
        ensures ends { IfOk result (λ next. next ≡ None → EndsSo (all_left (F.held files.old) self.old.sources) Done) }
        ensures fault { IfErr result (λ f. IsOfBytes (Some f.fault) → EndsSo (all_left (F.held files.old) self.old.sources) (Fault f.device f.fault)) }
        ensures read_fault { IfErr result (λ f. f.fault ≡ PcapFault.ReadFault → HasFailed self.old.sources f.device f.fault (F.read_faults files.old) (F.read_faults files.new)) }
        ensures left { MatchResult result
            (λ next. next ≡ None → all_left (F.held files.new) self.new.sources ≡ all_left (F.held files.old) self.old.sources)
            (λ f. f.fault ≢ PcapFault.ReadFault → all_left (F.held files.new) self.new.sources ≡ all_left (F.held files.old) self.old.sources) }
        ensures each_gives { IfOk result (λ next. IfSome next (λ frame. HaveGiven (frame ∷ []) self.old.sources self.new.sources (F.held files.old) (F.held files.new))) }
        ensures ready { IfOk result (λ next. IfSome next (λ frame. AreReadyBut frame.device self.new.sources)) }
        ensures unbroken { IfOk result (λ next. IfSome next (λ _. AreUnbroken self.old.sources → AreUnbroken self.new.sources)) }
        ensures broken { IfErr result (λ f. f.fault ≡ PcapFault.ReadFault → HasBroken self.old.sources f.device (F.held files.old) (F.held files.new)) }
        ensures past_header { IfErr result (λ f. AreUnbroken self.old.sources → is_header_fault (Some f.fault) ≡ false) }
        ensures number { IfOk result (λ next. IfSome next (λ frame. frame.number ≡ self.old.given)) }
        ensures device { MatchResult result
            (λ next. IfSome next (λ frame. (1 ≤ frame.device) × (frame.device ≤ length self.old.sources)))
            (λ f. (1 ≤ f.device) × (f.device ≤ length self.old.sources)) }
        ensures seconds_fit { IfOk result (λ next. IfSome next (λ frame. frame.stamp / 1000000000 < 2 ^ 32)) }
        ensures lengths { IfOk result (λ next. IfSome next (λ frame. length frame.frame ≤ 262144)) }
        ensures given { MatchResult result (λ next. MatchOption next (self.new.given ≡ self.old.given) (λ _. self.new.given ≡ self.old.given + 1)) (λ _. self.new.given ≡ self.old.given) }
        ensures names { names_of self.new.sources ≡ names_of self.old.sources }

        ensures other_files { IsSameBeside (names_of self.old.sources) (F.held files.old) (F.held files.new) }
        ensures written { IsSame (F.written files.old) (F.written files.new) }
        ensures read_faults { NeverFell (F.read_faults files.old) (F.read_faults files.new) }
        ensures write_faults { NeverFell (F.write_faults files.old) (F.write_faults files.new) }
    {
        match next_of(&mut self.queues, self.given, files) {
            Ok(Some(frame)) => {
                self.given += 1;
                Ok(Some(frame))
            }
            Ok(None) => Ok(None),
            Err(fault) => Err(fault),
        }
    }
}

/// The readers as queues.
fn queues_of(alloc: Global, readers: Vec<Reader>) -> Result<Vec<Queue>, AllocError>
    ensures { IfOk result (λ queues. queues.items ≡ begun readers.items) }
{
    let mut queues = Vec::with_capacity(alloc, readers.len())?;
    for reader in readers {
        queues.push(Queue::new(reader))?;
    }
    Ok(queues)
}
