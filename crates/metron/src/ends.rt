//! The captures at both ends of a chain: those that are read, opened, and those that are written, begun.
ghost use Rattle.std.specs.Prelude.{◌≡◌, ◌≢◌, ◌<◌, ◌≤◌, ◌^◌, ℕ, List, length, map, take, Some, option_map, IfOk, OnOk, OnErr, IfErr};
ghost use Rattle.mt_io.specs.Files.{IsSame, IsSameBut, NeverFell};
ghost use Rattle.mt_pcap.specs.Sources.{AreApart};
ghost use Rattle.mt_pcap.specs.Opened.{capture_in, IsOpened, AreOpened};
ghost use Rattle.mt_pcap.specs.Text.{header_text};
ghost use Rattle.mt_command.specs.Parts.{bound_view};
ghost use Rattle.metron.specs.Inputs.{or_empty, outputs_of, CaptureFault, OpenFault};
ghost use Rattle.metron.specs.Serving.{AllGain, AllGainFront, IsSameElsewhere, AreFilesApart, OutputFault, Begins, BeginsFront, BeginFault};

use crate::{Fault, FileId};
use mt_command::Bound;
use mt_io::Files;
use mt_pcap::laws::opens_all;
use mt_pcap::{PcapFault, Reader, WriteFault, Writer};
use std::alloc::{AllocError, Global};

/// The files of the captures: those of the first devices, as many as the entries.
pub(crate) fn input_files<'a>(
    alloc: Global,
    bound: &[Bound<'a>],
    entries: u32,
) -> Result<Vec<&'a str>, AllocError>
    ensures { IfOk result (λ inputs. map (λ f. f.now) inputs.items ≡ map (λ b. or_empty b.input) (take entries (map bound_view bound.now))) }
{
    let mut inputs = Vec::new(alloc);
    let mut rest = &bound[..bound.len().min(entries as usize)];
    while let [files, after @ ..] = rest {
        inputs.push(files.input.unwrap_or(""))?;
        rest = after;
    }
    Ok(inputs)
}

/// Opens the captures, in the order of the devices.
pub(crate) fn open_captures<F: Files>(
    alloc: Global,
    files: &mut F,
    inputs: &[&str],
) -> Result<Vec<Reader>, Fault>
    requires apart { AreApart (map (λ f. f.now) inputs.now) }
    requires few { length inputs.now < 2 ^ 32 }
    ensures opened { IfOk result (λ readers. AreOpened (map (λ f. f.now) inputs.now) (F.held files.old) (F.held files.new) readers.items) }
    ensures err { IfErr result (CaptureFault (F.held files.old) (map (λ f. f.now) inputs.now) (F.read_faults files.old) (F.read_faults files.new)) }

    ensures written { IsSame (F.written files.old) (F.written files.new) }
    ensures read_faults { NeverFell (F.read_faults files.old) (F.read_faults files.new) }
    ensures write_faults { NeverFell (F.write_faults files.old) (F.write_faults files.new) }
{
    opens_all();
    let mut readers = Vec::new(alloc);
    for index in 0..inputs.len() {
        let reader = match open(alloc, files, inputs[index], index as u32 + 1) {
            Ok(reader) => reader,
            Err(fault) => return Err(fault),
        };
        match readers.push(reader) {
            Ok(()) => {}
            Err(_) => return Err(Fault::Memory),
        }
    }
    Ok(readers)
}

/// Opens the capture of a device.
fn open<F: Files>(alloc: Global, files: &mut F, name: &str, device: u32) -> Result<Reader, Fault>
    ensures opened { IfOk result (IsOpened name.now (F.held files.old) (F.held files.new)) }
    ensures err { IfErr result (OpenFault device (capture_in (F.held files.old) name.now) (F.read_faults files.old name.now) (F.read_faults files.new name.now)) }

    ensures other_files { IsSameBut name.now (F.held files.old) (F.held files.new) }
    ensures written { IsSame (F.written files.old) (F.written files.new) }
    ensures read_faults { NeverFell (F.read_faults files.old) (F.read_faults files.new) }
    ensures write_faults { NeverFell (F.write_faults files.old) (F.write_faults files.new) }
{
    match Reader::open(alloc, files, name) {
        Ok(reader) => Ok(reader),
        Err(PcapFault::ReadFault) => Err(Fault::Read(FileId::Capture(device))),
        Err(PcapFault::NoMemory) => Err(Fault::Memory),
        Err(why) => Err(Fault::Capture(device, why)),
    }
}

/// Begins the capture of each device on which frames are sent, in the order of the devices.
pub(crate) fn open_outputs<F: Files>(
    alloc: Global,
    files: &mut F,
    bound: &[Bound<'_>],
) -> Result<Vec<Option<Writer>>, Fault>
    requires few { length bound.now ≤ 32 }
    requires apart { AreFilesApart (outputs_of (map bound_view bound.now)) }
    ensures names { IfOk result (λ writers. writers.items ≡ outputs_of (map bound_view bound.now)) }
    ensures ok { OnOk result (AllGain (outputs_of (map bound_view bound.now)) (F.written files.old) (F.written files.new) (λ device. header_text)) }
    ensures err { OnErr result (AllGainFront (outputs_of (map bound_view bound.now)) (F.written files.old) (F.written files.new) (λ device. header_text)) }
    ensures cause { IfErr result (OutputFault (outputs_of (map bound_view bound.now)) (F.write_faults files.old) (F.write_faults files.new)) }

    ensures other_written { IsSameElsewhere (outputs_of (map bound_view bound.now)) (F.written files.old) (F.written files.new) }
    ensures held { IsSame (F.held files.old) (F.held files.new) }
    ensures read_faults { NeverFell (F.read_faults files.old) (F.read_faults files.new) }
    ensures write_faults { NeverFell (F.write_faults files.old) (F.write_faults files.new) }
{
    let mut writers = Vec::new(alloc);
    let mut number = 1u32;
    let mut rest = bound;
    while let [device, after @ ..] = rest {
        let writer = match begin(alloc, files, device.output, number) {
            Ok(writer) => writer,
            Err(fault) => return Err(fault),
        };
        match writers.push(writer) {
            Ok(()) => {}
            Err(_) => return Err(Fault::Memory),
        }
        number += 1;
        rest = after;
    }
    Ok(writers)
}

/// Begins the capture of a device, if it has one.
fn begin<F: Files>(
    alloc: Global,
    files: &mut F,
    output: Option<&str>,
    device: u32,
) -> Result<Option<Writer>, Fault>
    ensures name { IfOk result (λ writer. writer ≡ option_map (λ f. f.now) output.entry) }
    ensures ok { OnOk result (Begins (option_map (λ f. f.now) output.entry) (F.written files.old) (F.written files.new)) }
    ensures err { OnErr result (BeginsFront (option_map (λ f. f.now) output.entry) (F.written files.old) (F.written files.new)) }
    ensures cause { IfErr result (BeginFault device (option_map (λ f. f.now) output.entry) (F.write_faults files.old) (F.write_faults files.new)) }

    ensures other_written { (other : List ℕ) → option_map (λ f. f.now) output.entry ≢ Some other → F.written files.new other ≡ F.written files.old other }
    ensures held { IsSame (F.held files.old) (F.held files.new) }
    ensures read_faults { NeverFell (F.read_faults files.old) (F.read_faults files.new) }
    ensures write_faults { NeverFell (F.write_faults files.old) (F.write_faults files.new) }
{
    let Some(name) = output else {
        return Ok(None);
    };
    match Writer::open(alloc, files, name) {
        Ok(writer) => Ok(Some(writer)),
        Err(WriteFault::Failed) => Err(Fault::Write(FileId::Output(device))),
        Err(WriteFault::NoMemory) => Err(Fault::Memory),
    }
}
