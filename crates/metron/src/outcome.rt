//! How a run ended.
ghost use Rattle.std.specs.Prelude.{◌≡◌, ◌∷◌, ◌++◌, ◌<◌, [], OnErr, OnOk, vec_capacity, vec_len};
ghost use Rattle.metron.specs.Outcome.{account_of, nothing_served, status_of, text_status, told_of};

use mt_click::ClickFault;
use mt_elements::ChainFault;
use mt_pcap::PcapFault;
use mt_script::ScriptFault;
use std::alloc::{AllocError, Global};
use thiserror::Error;

/// A file that the words name. Devices are numbered from 1.
#[derive(Clone, Copy, Debug, PartialEq, Eq, Error)]
pub enum FileId {
    #[error("chain")]
    Chain,
    #[error("script")]
    Script,
    /// The capture of an input device.
    #[error("capture {0}")]
    Capture(u32),
    /// The capture that is written for an output device.
    #[error("output {0}")]
    Output(u32),
}

impl FileId {
    /// The status of a text that is refused for its form.
    fn text_status(&self) -> u8
        ensures { result ≡ text_status self.now }
    {
        match self {
            FileId::Chain => 2,
            _ => 3,
        }
    }
}

/// Why a run ended as it did. Its text is the line that the program prints.
#[derive(Clone, Copy, Debug, PartialEq, Eq, Error)]
pub enum Fault {
    /// Every frame was served.
    #[error("metron: done")]
    Done,
    /// The words are not a command; the number is that of the first word at fault, from 0, or the number of
    /// words where one is missing.
    #[error("metron: usage at word {0}")]
    UsageWord(u32),
    /// The device of that number has no file.
    #[error("metron: device {0} is not bound")]
    Unbound(u32),
    /// The file has a form that can't be run yet.
    #[error("metron: not built yet: {0}")]
    Unbuilt(FileId),
    /// A byte follows the file's limit of 1,048,576 bytes.
    #[error("metron: too long: {0}")]
    TooLong(FileId),
    /// The chain's text is no configuration.
    #[error("metron: chain text line {} column {}: {}", .0.line, .0.column, .0.why)]
    Click(ClickFault),
    /// The configuration is no chain that is accepted.
    #[error("metron: chain element {} line {}: {}", .0.element, .0.line, .0.why)]
    Chain(ChainFault),
    /// The chain has so many classes or more, where numbers are given to one less.
    #[error("metron: {0} classes")]
    Classes(u32),
    /// The script is refused.
    #[error("metron: script line {}: {}", .0.line, .0.why)]
    Script(ScriptFault),
    /// The capture of a device does not begin with a header, or is broken off.
    #[error("metron: capture {0}: {1}")]
    Capture(u32, PcapFault),
    /// A read of the file failed.
    #[error("metron: read failed: {0}")]
    Read(FileId),
    /// A write to the file failed.
    #[error("metron: write failed: {0}")]
    Write(FileId),
    /// There was no memory.
    #[error("metron: no memory")]
    Memory,
    /// So many frames came, and may not be served: one more than 16,777,216.
    #[error("metron: {0} frames")]
    Frames(u32),
}

impl Fault {
    /// The status with which the program ends.
    pub fn status(&self) -> u8
        ensures { result ≡ status_of self.now }
    {
        match self {
            Fault::Done => 0,
            Fault::UsageWord(_) | Fault::Unbound(_) => 1,
            Fault::Unbuilt(file) | Fault::TooLong(file) => file.text_status(),
            Fault::Click(_) | Fault::Chain(_) | Fault::Classes(_) => 2,
            Fault::Script(_) => 3,
            Fault::Read(_) => 4,
            Fault::Capture(_, _) => 5,
            Fault::Write(_) => 6,
            Fault::Memory => 7,
            Fault::Frames(_) => 8,
        }
    }
}

/// One number more, for which there is room.
fn push_within(numbers: &mut Vec<u32>, number: u32)
    requires { vec_len numbers.old < vec_capacity numbers.old }
    ensures { numbers.new.items ≡ numbers.old.items ++ number ∷ [] }
{
    let _ = numbers.push(number);
}

/// What is told of the frames that were served so far.
#[derive(Drop)]
pub(crate) struct Tally {
    /// The numbers of the frames, in the order in which they were served.
    pub order: Vec<u32>,
    /// The ports that were picked for them, in that order.
    pub picks: Vec<u16>,
    /// The number of classes of the chain; 0 before the outputs are begun.
    pub classes: u32,
    /// How many fields were written.
    pub writes: u64,
}

impl Tally {
    /// Of no frame.
    pub(crate) fn new(alloc: Global) -> Tally
        ensures { account_of result ≡ nothing_served }
    {
        Tally {
            order: Vec::new(alloc),
            picks: Vec::new(alloc),
            classes: 0,
            writes: 0,
        }
    }

    /// Notes one frame more: its number, the ports that were picked for it, and how many fields were written so far.
    pub(crate) fn note(&mut self, number: u32, picks: &[u16], writes: u64) -> Result<(), AllocError>
        ensures noted { OnOk result (account_of self.new ≡ record { order = self.old.order.items ++ number ∷ []; picks = self.old.picks.items ++ picks.now; classes = self.old.classes; writes = writes }) }
        ensures unchanged { OnErr result (account_of self.new ≡ account_of self.old) }
        ensures classes { self.new.classes ≡ self.old.classes }
        ensures writes { OnOk result (self.new.writes ≡ writes) }
    {
        self.order.try_reserve(1)?;
        self.picks.extend_from_slice(picks)?;
        push_within(&mut self.order, number);
        self.writes = writes;
        Ok(())
    }
}

/// How a run ended, and what became of the frames. Frames are numbered from 0, over all devices.
#[derive(Drop)]
pub struct Outcome {
    /// 0 where every frame was served, else the kind of the fault.
    pub status: u8,
    /// Why the run ended.
    pub fault: Fault,
    /// The number of traffic classes of the chain; 0 where the run did not come so far as to serve.
    pub classes: u32,
    /// The number of rules of the switch's table; 0 as long as there is no table.
    pub rules: u32,
    order: Vec<u32>,
    picks: Vec<u16>,
    writes: u64,
    per_server: Vec<u32>,
}

impl Outcome {
    pub(crate) fn new(alloc: Global, fault: Fault, tally: Tally) -> Outcome
        ensures status { result.status ≡ status_of result.fault }
        ensures fault { result.fault ≡ fault }
        ensures told { told_of result ≡ account_of tally }
    {
        let Tally {
            order,
            picks,
            classes,
            writes,
        } = tally;
        Outcome {
            status: fault.status(),
            fault,
            classes,
            rules: 0,
            order,
            picks,
            writes,
            per_server: Vec::new(alloc),
        }
    }

    /// The numbers of the frames that were served, in the order in which they were.
    pub fn order(&self) -> &[u32]
        ensures { result.now ≡ (told_of self.now).order }
    {
        &self.order
    }

    /// The ports that were picked for the frames that were served, in that order.
    pub fn picks(&self) -> &[u16]
        ensures { result.now ≡ (told_of self.now).picks }
    {
        &self.picks
    }

    /// How many frames the switch's table served; 0 as long as there is no table.
    pub fn in_switch(&self) -> u32 {
        0
    }

    /// How many frames each server served; empty as long as the share of each is not told.
    pub fn per_server(&self) -> &[u32]
        ensures { result.now ≡ self.now.per_server.items }
    {
        &self.per_server
    }

    /// How many fields were written in the frames that were served, one for each field that a leaf of a tree writes.
    pub fn writes(&self) -> u64
        ensures { result ≡ (told_of self.now).writes }
    {
        self.writes
    }
}
