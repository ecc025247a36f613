//! Writing a capture record by record.
ghost use Rattle.std.specs.Prelude.{◌≡◌, ◌<◌, ◌/◌, ◌^◌, length, IfOk, OnOk, IsErrOf};
ghost use Rattle.mt_io.specs.Files.{Gains, Rose, IsSame, IsSameBut, NeverFell};
ghost use Rattle.mt_io.specs.Copy.{GainsFront};
ghost use Rattle.mt_pcap.specs.Text.{header_text, record_text};

use crate::writing::{header, record_head};
use mt_io::{Files, write_all};
use mt_packet::Stamped;
use std::alloc::{AllocError, Global};
use std::marker::Model;
use thiserror::Error;

/// Why a header or a record was not written.
#[derive(Clone, Copy, Debug, PartialEq, Eq, Error)]
pub enum WriteFault {
    /// A write of the file failed.
    #[error("Failed")]
    Failed,
    /// Memory ran out.
    #[error("NoMemory")]
    NoMemory,
}

/// A capture that is written record by record: little-endian, in nanoseconds. A contract sees the name of
/// its file.
#[derive(Drop)]
pub struct Writer {
    name: String,
    /// Room for the text of a record.
    piece: Vec<u8>,
}

impl Model for Writer {
    ghost use Rattle.std.specs.Prelude.{List, ℕ};
    ghost use Rattle.std.specs.String.{string_bytes};

    ghost Value = { List ℕ };

    ghost view = { λ w. string_bytes w.name };
}

impl Writer {
    /// Writes the header of a capture. After a failed write some front of it is written; after want of
    /// memory nothing is.
    pub fn open<F: Files>(alloc: Global, files: &mut F, name: &str) -> Result<Writer, WriteFault>
        ensures ok { OnOk result (Gains (F.written files.old name.now) header_text (F.written files.new name.now)) }
        ensures name { IfOk result (λ writer. writer ≡ name.now) }
        ensures failed { IsErrOf result WriteFault.Failed → Rose (F.write_faults files.old name.now) (F.write_faults files.new name.now) }
        ensures prefix { IsErrOf result WriteFault.Failed → GainsFront (F.written files.old name.now) header_text (F.written files.new name.now) }
        ensures no_memory { IsErrOf result WriteFault.NoMemory → files.new ≡ files.old }

        ensures other_files { IsSameBut name.now (F.written files.old) (F.written files.new) }
        ensures held { IsSame (F.held files.old) (F.held files.new) }
        ensures read_faults { NeverFell (F.read_faults files.old) (F.read_faults files.new) }
        ensures write_faults { NeverFell (F.write_faults files.old) (F.write_faults files.new) }
    {
        let text = match String::from_str(alloc, name) {
            Ok(text) => text,
            Err(_) => return Err(WriteFault::NoMemory),
        };
        match write_all(files, name, &header()) {
            Ok(()) => Ok(Writer {
                name: text,
                piece: Vec::new(alloc),
            }),
            Err(_) => Err(WriteFault::Failed),
        }
    }

    /// Writes the record of a frame behind what was written, in one piece. After a failed write some
    /// front of it is written; after want of memory nothing is. No byte of the frame is left out, also
    /// of one that is longer than the 262,144 bytes that are read again.
    pub fn put<F: Files>(&mut self, files: &mut F, stamped: &Stamped) -> Result<(), WriteFault>
        requires seconds_fit { stamped.now.stamp / 1000000000 < 2 ^ 32 }
        requires length { length stamped.now.frame < 2 ^ 32 }
        ensures ok { OnOk result (Gains (F.written files.old self.old) (record_text (stamped.now.stamp, stamped.now.frame)) (F.written files.new self.old)) }
        ensures failed { IsErrOf result WriteFault.Failed → Rose (F.write_faults files.old self.old) (F.write_faults files.new self.old) }
        ensures prefix { IsErrOf result WriteFault.Failed → GainsFront (F.written files.old self.old) (record_text (stamped.now.stamp, stamped.now.frame)) (F.written files.new self.old) }
        ensures no_memory { IsErrOf result WriteFault.NoMemory → files.new ≡ files.old }
        ensures name { self.new ≡ self.old }

        ensures other_files { IsSameBut self.old (F.written files.old) (F.written files.new) }
        ensures held { IsSame (F.held files.old) (F.held files.new) }
        ensures read_faults { NeverFell (F.read_faults files.old) (F.read_faults files.new) }
        ensures write_faults { NeverFell (F.write_faults files.old) (F.write_faults files.new) }
    {
        match fill_record(&mut self.piece, stamped) {
            Ok(()) => {}
            Err(_) => return Err(WriteFault::NoMemory),
        }
        match write_all(files, &self.name, &self.piece) {
            Ok(()) => Ok(()),
            Err(_) => Err(WriteFault::Failed),
        }
    }
}

/// Puts the text of a frame's record into a piece.
fn fill_record(piece: &mut Vec<u8>, stamped: &Stamped) -> Result<(), AllocError>
    requires seconds_fit { stamped.now.stamp / 1000000000 < 2 ^ 32 }
    requires length { length stamped.now.frame < 2 ^ 32 }
    ensures { OnOk result (piece.new.items ≡ record_text (stamped.now.stamp, stamped.now.frame)) }
{
    let bytes = stamped.frame.bytes();
    piece.clear();
    piece.extend_from_slice(&record_head(stamped.stamp, bytes.len() as u32))?;
    piece.extend_from_slice(bytes)?;
    Ok(())
}
