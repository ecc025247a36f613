//! Serving the frames of a merge, one after the other, and writing those that are sent.
ghost use Rattle.std.specs.Prelude.{◌≡◌, ◌<◌, ◌≤◌, ◌+◌, ◌/◌, ◌^◌, ℕ, List, [], length, OnOk, OnErr, IfErr};
ghost use Rattle.mt_io.specs.Files.{IsSame, NeverFell};
ghost use Rattle.mt_pcap.specs.Merged.{HasMerged};
ghost use Rattle.mt_pcap.specs.Sources.{IsSameBeside, names_of};
ghost use Rattle.mt_elements.specs.ChainState.{ChainState};
ghost use Rattle.mt_chain.specs.declared.run.Fate.TheVariants as fates;
ghost use Rattle.mt_chain.specs.Fates.{fate_text};
ghost use Rattle.metron.specs.Outcome.{account_of, nothing_served};
ghost use Rattle.metron.specs.Serving.{Held, AreFilesApart, AllGain, AllGainFront, IsSameElsewhere, OutputFault, IsServing, IsWritable, HasServedOne, HasNotServedOne, MergeCause};
ghost use Rattle.metron.specs.Standing.{IsAtRest, IsBegun, tables_at};

use crate::outcome::Tally;
use crate::worker::Worker;
use crate::{Fault, FileId};
use mt_chain::Fate;
use mt_chain::laws::{fates_come_from_packets, one_packet_behind_others};
use mt_io::Files;
use mt_packet::Stamped;
use mt_pcap::laws::merges_all;
use mt_pcap::{Merge, MergeFault, PcapFault, WriteFault, Writer};
use mt_pipeline::Context;
use std::alloc::Global;

/// The most frames that are served in a run.
const MOST_FRAMES: u32 = 16_777_216;

/// Serves the frames of a merge in their order, until it ends, and writes for each device on which frames are sent the
/// records of those. What is told of them is noted in `tally`.
pub(crate) fn serve<F: Files>(
    alloc: Global,
    files: &mut F,
    context: &Context,
    worker: &mut Worker,
    merge: &mut Merge,
    writers: &mut [Option<Writer>],
    tally: &mut Tally,
) -> Fault
    requires begins { merge.old.given ≡ 0 }
    requires apart { AreFilesApart writers.old }
    requires none_served { account_of tally.old ≡ record nothing_served { classes = tally.old.classes } }
    requires begun { (chain : ChainState) × IsBegun chain context.now.rewriters context.now.classes context.now.index worker.old × (length merge.old.sources ≤ chain.entries) }
    ensures serving { (chain : ChainState) → IsBegun chain context.now.rewriters context.now.classes context.now.index worker.old → length merge.old.sources ≤ chain.entries
        → (names : List (List ℕ)) (first : Held) → HasMerged names first (F.held files.old) [] merge.old
        → IsServing chain names writers.old first (F.held files.new)
        (F.written files.old) (F.written files.new)
        (F.read_faults files.old) (F.read_faults files.new)
        (F.write_faults files.old) (F.write_faults files.new)
        (account_of tally.new) result }
    ensures classes { tally.new.classes ≡ tally.old.classes }

    ensures other_held { IsSameBeside (names_of merge.old.sources) (F.held files.old) (F.held files.new) }
    ensures other_written { IsSameElsewhere writers.old (F.written files.old) (F.written files.new) }
    ensures read_faults { NeverFell (F.read_faults files.old) (F.read_faults files.new) }
    ensures write_faults { NeverFell (F.write_faults files.old) (F.write_faults files.new) }
{
    one_packet_behind_others();
    merges_all();
    while merge.given() < MOST_FRAMES {
        let frame = match merge.next(files) {
            Ok(Some(frame)) => frame,
            Ok(None) => return Fault::Done,
            Err(fault) => return merge_fault(fault),
        };
        match serve_one(alloc, files, context, worker, writers, frame, tally) {
            Ok(()) => {}
            Err(fault) => return fault,
        }
    }
    match merge.next(files) {
        Ok(Some(_)) => Fault::Frames(MOST_FRAMES + 1),
        Ok(None) => Fault::Done,
        Err(fault) => merge_fault(fault),
    }
}

/// Why the frames of a merge end early.
fn merge_fault(fault: MergeFault) -> Fault
    ensures { MergeCause fault.device fault.fault result }
{
    match fault.fault {
        PcapFault::ReadFault => Fault::Read(FileId::Capture(fault.device)),
        PcapFault::NoMemory => Fault::Memory,
        why => Fault::Capture(fault.device, why),
    }
}

/// Serves one frame, notes what is told of it, and writes what it sends.
fn serve_one<F: Files>(
    alloc: Global,
    files: &mut F,
    context: &Context,
    worker: &mut Worker,
    writers: &mut [Option<Writer>],
    frame: Stamped,
    tally: &mut Tally,
) -> Result<(), Fault>
    requires rest { (chain : ChainState) × IsAtRest chain context.now.rewriters context.now.classes context.now.index worker.old × (frame.device ≤ chain.entries) }
    requires arrived { 0 < frame.device }
    requires room { worker.old.writes < 2 ^ 62 }
    requires same_count { worker.old.writes ≡ tally.old.writes }
    requires seconds_fit { frame.stamp / 1000000000 < 2 ^ 32 }
    requires length { length frame.frame ≤ 262144 }
    requires apart { AreFilesApart writers.old }
    ensures ok { OnOk result ((chain : ChainState) → IsAtRest chain context.now.rewriters context.now.classes context.now.index worker.old → frame.device ≤ chain.entries → HasServedOne AllGain chain writers.old (tables_at worker.old) (tables_at worker.new) frame
        (F.written files.old) (F.written files.new) (account_of tally.old) (account_of tally.new)) }
    ensures err { OnErr result ((chain : ChainState) → IsAtRest chain context.now.rewriters context.now.classes context.now.index worker.old → frame.device ≤ chain.entries → HasNotServedOne chain writers.old (tables_at worker.old) frame
        (F.written files.old) (F.written files.new) (account_of tally.old) (account_of tally.new)) }
    ensures rest { OnOk result ((chain : ChainState) → IsAtRest chain context.now.rewriters context.now.classes context.now.index worker.old → frame.device ≤ chain.entries → IsAtRest chain context.now.rewriters context.now.classes context.now.index worker.new) }
    ensures same_count { OnOk result (worker.new.writes ≡ tally.new.writes) }
    ensures few { worker.new.writes ≤ worker.old.writes + 24 }
    ensures classes { tally.new.classes ≡ tally.old.classes }
    ensures cause { IfErr result (OutputFault writers.old (F.write_faults files.old) (F.write_faults files.new)) }
    ensures names { writers.new ≡ writers.old }

    ensures other_written { IsSameElsewhere writers.old (F.written files.old) (F.written files.new) }
    ensures held { IsSame (F.held files.old) (F.held files.new) }
    ensures read_faults { NeverFell (F.read_faults files.old) (F.read_faults files.new) }
    ensures write_faults { NeverFell (F.write_faults files.old) (F.write_faults files.new) }
{
    fates_come_from_packets();
    let service = match worker.serve(alloc, context, frame) {
        Ok(service) => service,
        Err(_) => return Err(Fault::Memory),
    };
    match tally.note(service.number(), service.picks(), worker.writes.count()) {
        Ok(()) => write_fate(files, writers, service.fate()),
        Err(_) => Err(Fault::Memory),
    }
}

/// Writes what a packet sends to the file of its device, if it has one.
fn write_fate<F: Files>(
    files: &mut F,
    writers: &mut [Option<Writer>],
    fate: &Fate,
) -> Result<(), Fault>
    requires writable { IsWritable fate.now }
    requires apart { AreFilesApart writers.old }
    ensures ok { OnOk result (AllGain writers.old (F.written files.old) (F.written files.new) (λ device. fate_text device fate.now)) }
    ensures err { OnErr result (AllGainFront writers.old (F.written files.old) (F.written files.new) (λ device. fate_text device fate.now)) }
    ensures cause { IfErr result (OutputFault writers.old (F.write_faults files.old) (F.write_faults files.new)) }
    ensures names { writers.new ≡ writers.old }

    ensures other_written { IsSameElsewhere writers.old (F.written files.old) (F.written files.new) }
    ensures held { IsSame (F.held files.old) (F.held files.new) }
    ensures read_faults { NeverFell (F.read_faults files.old) (F.read_faults files.new) }
    ensures write_faults { NeverFell (F.write_faults files.old) (F.write_faults files.new) }
{
    match fate {
        Fate::Dropped(_) => Ok(()),
        Fate::Sent(device, frame) => write_frame(files, writers, *device, frame),
    }
}

/// Writes the record of a frame to the file of a device, if it has one.
fn write_frame<F: Files>(
    files: &mut F,
    writers: &mut [Option<Writer>],
    device: u32,
    frame: &Stamped,
) -> Result<(), Fault>
    requires seconds_fit { frame.now.stamp / 1000000000 < 2 ^ 32 }
    requires length { length frame.now.frame < 2 ^ 32 }
    requires apart { AreFilesApart writers.old }
    ensures ok { OnOk result (AllGain writers.old (F.written files.old) (F.written files.new) (λ on. fate_text on (fates.Sent device frame.now))) }
    ensures err { OnErr result (AllGainFront writers.old (F.written files.old) (F.written files.new) (λ on. fate_text on (fates.Sent device frame.now))) }
    ensures cause { IfErr result (OutputFault writers.old (F.write_faults files.old) (F.write_faults files.new)) }
    ensures names { writers.new ≡ writers.old }

    ensures other_written { IsSameElsewhere writers.old (F.written files.old) (F.written files.new) }
    ensures held { IsSame (F.held files.old) (F.held files.new) }
    ensures read_faults { NeverFell (F.read_faults files.old) (F.read_faults files.new) }
    ensures write_faults { NeverFell (F.write_faults files.old) (F.write_faults files.new) }
{
    if device == 0 || device as usize > writers.len() {
        return Ok(());
    }
    match &mut writers[device as usize - 1] {
        None => Ok(()),
        Some(writer) => match writer.put(files, frame) {
            Ok(()) => Ok(()),
            Err(WriteFault::Failed) => Err(Fault::Write(FileId::Output(device))),
            Err(WriteFault::NoMemory) => Err(Fault::Memory),
        },
    }
}
