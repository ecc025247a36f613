//! Reading a whole file.
ghost use Rattle.std.specs.Prelude.{◌≡◌, ◌≤◌, ◌+◌, IfOk, OnErr, IsErrOf, length};
ghost use Rattle.mt_io.specs.Files.{Rose, IsSame, IsSameBut, NeverFell};
ghost use Rattle.mt_io.specs.Copy.{TakesAtMost, IsWhole, IsLongerThan};
ghost use Rattle.mt_io.specs.declared.whole.TextFault.TheVariants.{Failed as FailedRead, NoMemory as WantOfMemory};

use crate::{Failed, Files};
use std::alloc::{AllocError, Global};

/// The most bytes that one read asks for.
const PIECE: usize = 1 << 16;

/// Why a file was not read as a whole.
#[derive(Clone, Copy, Debug, PartialEq, Eq)]
pub enum TextFault {
    /// A read of the file failed.
    Failed,
    /// The file has a byte behind the limit.
    TooLong,
    /// There was no memory for the text.
    NoMemory,
}

impl From<Failed> for TextFault {
    ghost from_gives = { λ _ fault. fault ≡ FailedRead };

    fn from(_: Failed) -> Self {
        TextFault::Failed
    }
}

impl From<AllocError> for TextFault {
    ghost from_gives = { λ _ fault. fault ≡ WantOfMemory };

    fn from(_: AllocError) -> Self {
        TextFault::NoMemory
    }
}

/// Reads a file from where it stands to its end. A file with a byte behind `limit` is refused as soon as
/// that byte was read; no byte behind it is taken.
pub fn read_up_to<F: Files>(
    alloc: Global,
    files: &mut F,
    name: &str,
    limit: usize,
) -> Result<Vec<u8>, TextFault>
    ensures whole { IfOk result (λ text. IsWhole (F.held files.old name.now) text.items (F.held files.new name.now)) }
    ensures within { IfOk result (λ text. length text.items ≤ limit) }
    ensures too_long { IsErrOf result TextFault.TooLong → IsLongerThan limit (F.held files.old name.now) }
    ensures failed { IsErrOf result TextFault.Failed → Rose (F.read_faults files.old name.now) (F.read_faults files.new name.now) }
    ensures taken_before_error { OnErr result (TakesAtMost (limit + 1) (F.held files.old name.now) (F.held files.new name.now)) }

    ensures other_files { IsSameBut name.now (F.held files.old) (F.held files.new) }
    ensures written { IsSame (F.written files.old) (F.written files.new) }
    ensures read_faults { NeverFell (F.read_faults files.old) (F.read_faults files.new) }
    ensures write_faults { NeverFell (F.write_faults files.old) (F.write_faults files.new) }
{
    let mut text = Vec::new(alloc);
    let mut piece = [0; PIECE];
    loop {
        let left = limit - text.len();
        let room = left.saturating_add(1).min(PIECE);
        let count = files.read(name, &mut piece[..room])?;
        if count == 0 {
            return Ok(text);
        }
        if count > left {
            return Err(TextFault::TooLong);
        }
        text.extend_from_slice(&piece[..count])?;
    }
}
