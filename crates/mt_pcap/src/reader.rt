//! Reading a capture record by record.
ghost use Rattle.std.specs.Prelude.{◌≡◌, ◌≢◌, true, false, ℕ, ◌<◌, ◌≤◌, ◌+◌, ◌*◌, ◌/◌, ◌^◌, ◌⊎◌, [], ◌++◌, length, Option, Some, None, take, option_map, IfOk, IfErr, IfSome, IsErrOf, OnErr, MatchResult, MatchOption};
ghost use Rattle.mt_io.specs.Files.{Takes, IsAtEnd, Rose, IsSame, IsSameBut, NeverFell};
ghost use Rattle.mt_io.specs.Copy.{TakesAtMost};
ghost use Rattle.mt_pcap.specs.Capture.{IsOfBytes, is_header_fault, ended, capture_of};
ghost use Rattle.mt_pcap.specs.Stream.{ReaderState, within, over, left_at, left_of, in_front, TakesSo, HasBegun, HasRead, HasGoneOn, HasNoRecord, IsLeft, IsCut, HasLength, HasHead, at_end};

use crate::fault::PcapFault;
use crate::form::{Form, SECOND};
use crate::reading::{HEAD_LENGTH, HEADER_LENGTH, head_of, header_of};
use mt_io::{Failed, Files};
use mt_packet::Frame;
use std::alloc::Global;
use std::marker::Model;

/// Where a reader stands in its capture.
#[derive(Clone, Copy)]
enum Progress {
    /// Before a record.
    Record,
    /// Behind the head of a record.
    Data([u8; HEAD_LENGTH]),
    /// At the end, which may be a fault.
    Over(Option<PcapFault>),
}

/// A capture that is read record by record: one record is in memory at a time. A contract sees the name
/// of its file, how many records it has given, and where it stands.
#[derive(Drop)]
pub struct Reader {
    alloc: Global,
    name: String,
    form: Form,
    /// Of the record that comes next, or whose head was taken.
    offset: u64,
    given: u64,
    progress: Progress,
}

impl Model for Reader {
    ghost use Rattle.std.specs.Prelude.{ℕ, ◌≤◌, ◌+◌, ◌*◌};
    ghost use Rattle.std.specs.String.{string_bytes};
    ghost use Rattle.mt_pcap.specs.Stream.{ReaderState};

    ghost Value = { ReaderState };

    ghost use Rattle.mt_pcap.specs.Standings.{standing_of};

    ghost view = { λ r. record { name = string_bytes r.name; given = r.given; standing = standing_of r.form r.offset r.progress } };

    ghost invariant = { λ r. r.offset ≤ 24 + r.given * 262160 };
}

impl Reader {
    /// Reads the header of a capture, of 24 bytes. A reader is given only if it is one of a capture of
    /// Ethernet frames.
    pub fn open<F: Files>(alloc: Global, files: &mut F, name: &str) -> Result<Reader, PcapFault>
        ensures opened { IfOk result (λ reader. left_of reader (F.held files.new) ≡ option_map capture_of (F.held files.old name.now)) }
        ensures begins { IfOk result (λ reader. IfSome (left_of reader (F.held files.new)) (λ c. is_header_fault c.end ≡ false)) }
        ensures reads { IfOk result (λ reader. TakesSo (F.held files.old name.now) (F.held files.new name.now) (λ bytes. HasBegun bytes reader.standing)) }
        ensures name { IfOk result (λ reader. reader.name ≡ name.now) }
        ensures none_given { IfOk result (λ reader. reader.given ≡ 0) }
        ensures fault { IfErr result (λ fault. IsOfBytes (Some fault) → IsLeft (option_map capture_of (F.held files.old name.now)) (ended (Some fault))) }
        ensures read_fault { IsErrOf result PcapFault.ReadFault → Rose (F.read_faults files.old name.now) (F.read_faults files.new name.now) }
        ensures no_memory { IsErrOf result PcapFault.NoMemory → files.new ≡ files.old }
        ensures header { IfErr result (λ fault. IsOfBytes (Some fault) → is_header_fault (Some fault) ≡ true) }
        ensures taken { TakesAtMost 24 (F.held files.old name.now) (F.held files.new name.now) }

        ensures other_files { IsSameBut name.now (F.held files.old) (F.held files.new) }
        ensures written { IsSame (F.written files.old) (F.written files.new) }
        ensures read_faults { NeverFell (F.read_faults files.old) (F.read_faults files.new) }
        ensures write_faults { NeverFell (F.write_faults files.old) (F.write_faults files.new) }
    {
        let text = match String::from_str(alloc, name) {
            Ok(text) => text,
            Err(_) => return Err(PcapFault::NoMemory),
        };
        match take_header(files, name) {
            Ok(form) => Ok(Reader {
                alloc,
                name: text,
                form,
                offset: HEADER_LENGTH as u64,
                given: 0,
                progress: Progress::Record,
            }),
            Err(fault) => Err(fault),
        }
    }

    /// The name of the file.
    pub fn name(&self) -> &str
        ensures { result.now ≡ self.now.name }
    {
        &self.name
    }

    /// How many records were given.
    pub fn given(&self) -> u64
        ensures { result ≡ self.now.given }
    {
        self.given
    }

    /// The next record: the time at which the frame was captured, in nanoseconds since 1970-01-01 UTC,
    /// and the frame. None is the end of the capture. After it, and after a fault other than want of
    /// memory, the answer stays the same and nothing is read. After want of memory the reader goes on
    /// with the record whose head it has taken. No memory is taken for a record, and no byte behind its
    /// head is read, before its head is tested.
    pub fn next<F: Files>(&mut self, files: &mut F) -> Result<Option<(u64, Frame)>, PcapFault>
        requires { self.old.given < 2 ^ 32 }
        ensures gives { IfOk result (λ next. IfSome next (λ r. left_of self.old (F.held files.old) ≡ option_map (in_front r) (left_of self.new (F.held files.new)))) }
        ensures end { IfOk result (λ next. next ≡ None → IsLeft (left_of self.old (F.held files.old)) (ended None)) }
        ensures fault { IfErr result (λ fault. IsOfBytes (Some fault) → IsLeft (left_of self.old (F.held files.old)) (ended (Some fault))) }
        ensures read_fault { IsErrOf result PcapFault.ReadFault → (self.old.standing ≡ over (Some PcapFault.ReadFault)) ⊎ Rose (F.read_faults files.old self.old.name) (F.read_faults files.new self.old.name) }
        ensures no_memory { IsErrOf result PcapFault.NoMemory → left_of self.new (F.held files.new) ≡ left_of self.old (F.held files.old) }
        ensures over { MatchResult result (λ next. next ≡ None → self.new.standing ≡ over None) (λ fault. fault ≢ PcapFault.NoMemory → self.new.standing ≡ over (Some fault)) }
        ensures again { (end : Option PcapFault) → self.old.standing ≡ over end → (result ≡ at_end end) × (self.new ≡ self.old) × (files.new ≡ files.old) }
        ensures past_header { IfErr result (λ fault. ((other : PcapFault) → self.old.standing ≢ over (Some other)) → is_header_fault (Some fault) ≡ false) }
        ensures seconds_fit { IfOk result (λ next. IfSome next (λ r. r.0 / 1000000000 < 2 ^ 32)) }
        ensures lengths { IfOk result (λ next. IfSome next (λ r. length r.1 ≤ 262144)) }
        ensures reads { IfOk result (λ next. IfSome next (λ r. TakesSo (F.held files.old self.old.name) (F.held files.new self.old.name) (λ bytes. HasRead self.old.standing bytes r self.new.standing))) }
        ensures end_takes_nothing { IfOk result (λ next. next ≡ None → (F.held files.new self.old.name ≡ F.held files.old self.old.name) × (left_at self.old.standing [] ≡ ended None)) }
        ensures cut { IfErr result (λ fault. fault ≢ PcapFault.NoMemory → TakesSo (F.held files.old self.old.name) (F.held files.new self.old.name) (HasNoRecord self.old.standing)) }
        ensures goes_on { IsErrOf result PcapFault.NoMemory → TakesSo (F.held files.old self.old.name) (F.held files.new self.old.name) (λ bytes. HasGoneOn self.old.standing bytes self.new.standing) }
        ensures name { self.new.name ≡ self.old.name }
        ensures given { MatchResult result (λ next. MatchOption next (self.new.given ≡ self.old.given) (λ _. self.new.given ≡ self.old.given + 1)) (λ _. self.new.given ≡ self.old.given) }
        ensures taken { TakesAtMost 262160 (F.held files.old self.old.name) (F.held files.new self.old.name) }
        ensures head_only { IfErr result (λ fault. (offset : ℕ) → fault ≡ PcapFault.BadRecord offset → TakesAtMost 16 (F.held files.old self.old.name) (F.held files.new self.old.name)) }

        ensures other_files { IsSameBut self.old.name (F.held files.old) (F.held files.new) }
        ensures written { IsSame (F.written files.old) (F.written files.new) }
        ensures read_faults { NeverFell (F.read_faults files.old) (F.read_faults files.new) }
        ensures write_faults { NeverFell (F.write_faults files.old) (F.write_faults files.new) }
    {
        let head = match self.head(files) {
            Ok(Some(head)) => head,
            Ok(None) => return Ok(None),
            Err(fault) => return Err(fault),
        };
        match take_data(self.alloc, files, &self.name, self.form, self.offset, &head) {
            Ok((stamp, frame)) => {
                self.offset += (HEAD_LENGTH + frame.bytes().len()) as u64;
                self.given += 1;
                self.progress = Progress::Record;
                Ok(Some((stamp, frame)))
            }
            Err(PcapFault::NoMemory) => Err(PcapFault::NoMemory),
            Err(fault) => {
                self.progress = Progress::Over(Some(fault));
                Err(fault)
            }
        }
    }

    /// The head of the record under way, which is read where it was not taken yet.
    #[tactic(auto, using(crate::proofs::Streams::none_left, crate::proofs::Streams::head_cut))]
    fn head<F: Files>(&mut self, files: &mut F) -> Result<Option<[u8; HEAD_LENGTH]>, PcapFault>
        ensures head { IfOk result (λ next. IfSome next (λ head. HasHead self.new.standing head)) }
        ensures goes_on { IfOk result (λ next. IfSome next (λ _. TakesSo (F.held files.old self.old.name) (F.held files.new self.old.name) (λ bytes. HasGoneOn self.old.standing bytes self.new.standing))) }
        ensures end_takes_nothing { IfOk result (λ next. next ≡ None → (F.held files.new self.old.name ≡ F.held files.old self.old.name) × (left_at self.old.standing [] ≡ ended None)) }
        ensures goes_on_later { IsErrOf result PcapFault.NoMemory → TakesSo (F.held files.old self.old.name) (F.held files.new self.old.name) (λ bytes. HasGoneOn self.old.standing bytes self.new.standing) }
        ensures cut { IfErr result (λ _. TakesSo (F.held files.old self.old.name) (F.held files.new self.old.name) (HasNoRecord self.old.standing)) }
        ensures kept { IfOk result (λ next. IfSome next (λ _. left_of self.new (F.held files.new) ≡ left_of self.old (F.held files.old))) }
        ensures end { IfOk result (λ next. next ≡ None → IsLeft (left_of self.old (F.held files.old)) (ended None)) }
        ensures fault { IfErr result (λ fault. IsOfBytes (Some fault) → IsLeft (left_of self.old (F.held files.old)) (ended (Some fault))) }
        ensures read_fault { IsErrOf result PcapFault.ReadFault → (self.old.standing ≡ over (Some PcapFault.ReadFault)) ⊎ Rose (F.read_faults files.old self.old.name) (F.read_faults files.new self.old.name) }
        ensures no_memory { IsErrOf result PcapFault.NoMemory → left_of self.new (F.held files.new) ≡ left_of self.old (F.held files.old) }
        ensures over { MatchResult result (λ next. next ≡ None → self.new.standing ≡ over None) (λ fault. self.new.standing ≡ over (Some fault)) }
        ensures again { (end : Option PcapFault) → self.old.standing ≡ over end → (result ≡ at_end end) × (self.new ≡ self.old) × (files.new ≡ files.old) }
        ensures past_header { IfErr result (λ fault. ((other : PcapFault) → self.old.standing ≢ over (Some other)) → is_header_fault (Some fault) ≡ false) }
        ensures name { self.new.name ≡ self.old.name }
        ensures given { self.new.given ≡ self.old.given }
        ensures taken { TakesAtMost 16 (F.held files.old self.old.name) (F.held files.new self.old.name) }

        ensures other_files { IsSameBut self.old.name (F.held files.old) (F.held files.new) }
        ensures written { IsSame (F.written files.old) (F.written files.new) }
        ensures read_faults { NeverFell (F.read_faults files.old) (F.read_faults files.new) }
        ensures write_faults { NeverFell (F.write_faults files.old) (F.write_faults files.new) }
    {
        match self.progress {
            Progress::Over(None) => Ok(None),
            Progress::Over(Some(fault)) => Err(fault),
            Progress::Data(head) => Ok(Some(head)),
            Progress::Record => match take_head(files, &self.name, self.offset) {
                Ok(Some(head)) => {
                    self.progress = Progress::Data(head);
                    Ok(Some(head))
                }
                Ok(None) => {
                    self.progress = Progress::Over(None);
                    Ok(None)
                }
                Err(fault) => {
                    self.progress = Progress::Over(Some(fault));
                    Err(fault)
                }
            },
        }
    }
}

/// Reads the header of a capture.
fn take_header<F: Files>(files: &mut F, name: &str) -> Result<Form, PcapFault>
    ensures form { IfOk result (λ form. option_map (left_at (within form 24 [])) (F.held files.new name.now) ≡ option_map capture_of (F.held files.old name.now)) }
    ensures reads { IfOk result (λ form. TakesSo (F.held files.old name.now) (F.held files.new name.now) (λ bytes. HasBegun bytes (within form 24 []))) }
    ensures fault { IfErr result (λ fault. IsOfBytes (Some fault) → IsLeft (option_map capture_of (F.held files.old name.now)) (ended (Some fault))) }
    ensures read_fault { IsErrOf result PcapFault.ReadFault → Rose (F.read_faults files.old name.now) (F.read_faults files.new name.now) }
    ensures memory { IfErr result (λ fault. fault ≢ PcapFault.NoMemory) }
    ensures header { IfErr result (λ fault. IsOfBytes (Some fault) → is_header_fault (Some fault) ≡ true) }
    ensures taken { TakesAtMost 24 (F.held files.old name.now) (F.held files.new name.now) }

    ensures other_files { IsSameBut name.now (F.held files.old) (F.held files.new) }
    ensures written { IsSame (F.written files.old) (F.written files.new) }
    ensures read_faults { NeverFell (F.read_faults files.old) (F.read_faults files.new) }
    ensures write_faults { NeverFell (F.write_faults files.old) (F.write_faults files.new) }
{
    let mut header = [0; HEADER_LENGTH];
    match fill(files, name, &mut header) {
        Ok(count) => header_of(&header[..count]),
        Err(_) => Err(PcapFault::ReadFault),
    }
}

/// Reads the head of the record at an offset, or finds the end of the file.
fn take_head<F: Files>(
    files: &mut F,
    name: &str,
    offset: u64,
) -> Result<Option<[u8; HEAD_LENGTH]>, PcapFault>
    ensures head { IfOk result (λ next. IfSome next (λ head. Takes (F.held files.old name.now) head (F.held files.new name.now))) }
    ensures end { IfOk result (λ next. next ≡ None → IsAtEnd (F.held files.old name.now)) }
    ensures end_takes_nothing { IfOk result (λ next. next ≡ None → F.held files.new name.now ≡ F.held files.old name.now) }
    ensures cut { IfErr result (λ _. TakesSo (F.held files.old name.now) (F.held files.new name.now) (λ bytes. length bytes < 16)) }
    ensures fault { IfErr result (λ fault. (fault ≡ PcapFault.ReadFault) ⊎ ((fault ≡ PcapFault.Torn offset) × IsCut (F.held files.old name.now))) }
    ensures read_fault { IsErrOf result PcapFault.ReadFault → Rose (F.read_faults files.old name.now) (F.read_faults files.new name.now) }
    ensures taken { TakesAtMost 16 (F.held files.old name.now) (F.held files.new name.now) }

    ensures other_files { IsSameBut name.now (F.held files.old) (F.held files.new) }
    ensures written { IsSame (F.written files.old) (F.written files.new) }
    ensures read_faults { NeverFell (F.read_faults files.old) (F.read_faults files.new) }
    ensures write_faults { NeverFell (F.write_faults files.old) (F.write_faults files.new) }
{
    let mut head = [0; HEAD_LENGTH];
    match fill(files, name, &mut head) {
        Ok(0) => Ok(None),
        Ok(HEAD_LENGTH) => Ok(Some(head)),
        Ok(_) => Err(PcapFault::Torn(offset)),
        Err(_) => Err(PcapFault::ReadFault),
    }
}

/// Reads the data of the record at an offset, whose head was read: its time in nanoseconds, and the frame.
fn take_data<F: Files>(
    alloc: Global,
    files: &mut F,
    name: &str,
    form: Form,
    offset: u64,
    head: &[u8; HEAD_LENGTH],
) -> Result<(u64, Frame), PcapFault>
    ensures gives { IfOk result (λ r. option_map (left_at (within form offset head.now)) (F.held files.old name.now) ≡ option_map (in_front r) (option_map (left_at (within form (offset + (16 + length r.1)) [])) (F.held files.new name.now))) }
    ensures reads { IfOk result (λ r. TakesSo (F.held files.old name.now) (F.held files.new name.now) (λ bytes. HasRead (within form offset head.now) bytes r (within form (offset + (16 + length r.1)) []))) }
    ensures cut { IfErr result (λ fault. fault ≢ PcapFault.NoMemory → TakesSo (F.held files.old name.now) (F.held files.new name.now) (HasNoRecord (within form offset head.now))) }
    ensures fault { IfErr result (λ fault. IsOfBytes (Some fault) → IsLeft (option_map (left_at (within form offset head.now)) (F.held files.old name.now)) (ended (Some fault))) }
    ensures read_fault { IsErrOf result PcapFault.ReadFault → Rose (F.read_faults files.old name.now) (F.read_faults files.new name.now) }
    ensures no_memory { IsErrOf result PcapFault.NoMemory → files.new ≡ files.old }
    ensures past_header { IfErr result (λ fault. is_header_fault (Some fault) ≡ false) }
    ensures head_only { IfErr result (λ fault. (at : ℕ) → fault ≡ PcapFault.BadRecord at → files.new ≡ files.old) }
    ensures seconds_fit { IfOk result (λ r. r.0 / 1000000000 < 2 ^ 32) }
    ensures lengths { IfOk result (λ r. length r.1 ≤ 262144) }
    ensures taken { TakesAtMost 262144 (F.held files.old name.now) (F.held files.new name.now) }

    ensures other_files { IsSameBut name.now (F.held files.old) (F.held files.new) }
    ensures written { IsSame (F.written files.old) (F.written files.new) }
    ensures read_faults { NeverFell (F.read_faults files.old) (F.read_faults files.new) }
    ensures write_faults { NeverFell (F.write_faults files.old) (F.write_faults files.new) }
{
    let told = head_of(form, head);
    if told.is_improper() {
        return Err(PcapFault::BadRecord(offset));
    }
    let captured = told.captured as usize;
    let mut data = match vec![in alloc; 0; captured] {
        Ok(data) => data,
        Err(_) => return Err(PcapFault::NoMemory),
    };
    match fill(files, name, &mut data) {
        Ok(count) if count < captured => Err(PcapFault::Torn(offset)),
        Ok(_) => {
            let stamp = u64::from(told.seconds) * SECOND + told.fraction;
            Ok((stamp, Frame::new(data)))
        }
        Err(_) => Err(PcapFault::ReadFault),
    }
}

/// Reads until `buf` is full or the file is at its end, and answers how many bytes were read.
fn fill<F: Files>(files: &mut F, name: &str, buf: &mut [u8]) -> Result<usize, Failed>
    ensures within { IfOk result (λ n. n ≤ length buf.old) }
    ensures taken { IfOk result (λ n. Takes (F.held files.old name.now) (take n buf.new) (F.held files.new name.now)) }
    ensures short { IfOk result (λ n. n < length buf.old → HasLength n (F.held files.old name.now)) }
    ensures failed { OnErr result (Rose (F.read_faults files.old name.now) (F.read_faults files.new name.now)) }
    ensures cut { OnErr result (TakesSo (F.held files.old name.now) (F.held files.new name.now) (λ bytes. length bytes < length buf.old)) }
    ensures at_most { TakesAtMost (length buf.old) (F.held files.old name.now) (F.held files.new name.now) }

    ensures other_files { IsSameBut name.now (F.held files.old) (F.held files.new) }
    ensures written { IsSame (F.written files.old) (F.written files.new) }
    ensures read_faults { NeverFell (F.read_faults files.old) (F.read_faults files.new) }
    ensures write_faults { NeverFell (F.write_faults files.old) (F.write_faults files.new) }
{
    let mut count = 0;
    while count < buf.len() {
        let more = match files.read(name, &mut buf[count..]) {
            Ok(more) => more,
            Err(fault) => return Err(fault),
        };
        if more == 0 {
            return Ok(count);
        }
        count += more;
    }
    Ok(count)
}
