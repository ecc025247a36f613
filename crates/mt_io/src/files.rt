//! Named files, with what a call may do to them and how often they have failed.
ghost use Rattle.std.specs.Prelude.{◌≡◌, ◌<◌, ◌≤◌, List, ℕ, Option, length, take, IfOk, OnErr};
ghost use Rattle.mt_io.specs.Files.{Takes, IsAtEnd, Gains, Rose, IsSame, IsSameBut, NeverFell};

/// A read or a write failed.
#[derive(Clone, Copy, Debug, PartialEq, Eq)]
pub struct Failed;

/// Files by name. A file is opened by the first read or write of its name, so a missing file is a
/// read that fails. The name `-` is the report.
///
/// An implementation tells what a file holds and what was written to it, or nothing of either; what
/// is told stays told. The two counts of a name say how often reads and writes of it have failed. They
/// never fall.
pub trait Files {
    /// The bytes of a name that are still to be read, where they are told.
    ghost held: { Self → List ℕ → Option (List ℕ) };

    /// The bytes written to a name, where they are told.
    ghost written: { Self → List ℕ → Option (List ℕ) };

    /// How many reads of a name have failed.
    ghost read_faults: { Self → List ℕ → ℕ };

    /// How many writes to a name have failed.
    ghost write_faults: { Self → List ℕ → ℕ };

    /// Reads the next bytes of a file into the front of `buf`, and answers how many. None at a `buf`
    /// that has room is the end of the file.
    fn read(&mut self, name: &str, buf: &mut [u8]) -> Result<usize, Failed>
        ensures within { IfOk result (λ n. n ≤ length buf.old) }
        ensures taken { IfOk result (λ n. Takes (held self.old name.now) (take n buf.new) (held self.new name.now)) }
        ensures end { IfOk result (λ n. n ≡ 0 → 0 < length buf.old → IsAtEnd (held self.old name.now)) }
        ensures failed { OnErr result (Rose (read_faults self.old name.now) (read_faults self.new name.now)) }
        ensures failed_takes_nothing { OnErr result (held self.new name.now ≡ held self.old name.now) }

        ensures other_files { IsSameBut name.now (held self.old) (held self.new) }
        ensures written { IsSame (written self.old) (written self.new) }
        ensures read_faults { NeverFell (read_faults self.old) (read_faults self.new) }
        ensures write_faults { NeverFell (write_faults self.old) (write_faults self.new) };

    /// Writes a front of `piece` behind what was written to a file, and answers how long it is: not
    /// empty, unless the piece is.
    fn write(&mut self, name: &str, piece: &[u8]) -> Result<usize, Failed>
        ensures within { IfOk result (λ n. n ≤ length piece.now) }
        ensures gained { IfOk result (λ n. Gains (written self.old name.now) (take n piece.now) (written self.new name.now)) }
        ensures progress { IfOk result (λ n. 0 < length piece.now → 0 < n) }
        ensures failed { OnErr result (Rose (write_faults self.old name.now) (write_faults self.new name.now)) }
        ensures failed_adds_nothing { OnErr result (written self.new name.now ≡ written self.old name.now) }

        ensures other_files { IsSameBut name.now (written self.old) (written self.new) }
        ensures held { IsSame (held self.old) (held self.new) }
        ensures read_faults { NeverFell (read_faults self.old) (read_faults self.new) }
        ensures write_faults { NeverFell (write_faults self.old) (write_faults self.new) };
}
