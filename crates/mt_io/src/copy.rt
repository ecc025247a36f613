//! Writing a whole piece.
ghost use Rattle.std.specs.Prelude.{OnOk, OnErr};
ghost use Rattle.mt_io.specs.Files.{Gains, Rose, IsSame, IsSameBut, NeverFell};
ghost use Rattle.mt_io.specs.Copy.{GainsFront};

use crate::{Failed, Files};

/// Writes all of `piece` behind what was written to a file, by as many writes as it takes, and by one
/// at least: an empty piece creates or empties a file that was not written before. It takes no
/// memory. After a failed write some front of the piece is written.
pub fn write_all<F: Files>(files: &mut F, name: &str, piece: &[u8]) -> Result<(), Failed>
    ensures ok { OnOk result (Gains (F.written files.old name.now) piece.now (F.written files.new name.now)) }
    ensures prefix { OnErr result (GainsFront (F.written files.old name.now) piece.now (F.written files.new name.now)) }
    ensures failed { OnErr result (Rose (F.write_faults files.old name.now) (F.write_faults files.new name.now)) }

    ensures other_files { IsSameBut name.now (F.written files.old) (F.written files.new) }
    ensures held { IsSame (F.held files.old) (F.held files.new) }
    ensures read_faults { NeverFell (F.read_faults files.old) (F.read_faults files.new) }
    ensures write_faults { NeverFell (F.write_faults files.old) (F.write_faults files.new) }
{
    let mut rest = piece;
    loop {
        let count = files.write(name, rest)?;
        rest = &rest[count..];
        if rest.is_empty() {
            return Ok(());
        }
    }
}
