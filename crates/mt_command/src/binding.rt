//! The words that bind a file to one side of a device.
ghost use Rattle.std.specs.Prelude.{◌≡◌};
ghost use Rattle.std.specs.Option.{option_map};
ghost use Rattle.mt_command.specs.Bindings.{binding_of};
ghost use Rattle.mt_command.specs.Parts.{binding_view};

/// A side of a device: frames arrive on its input, and are sent on its output.
#[derive(Clone, Copy, Debug, PartialEq, Eq)]
pub enum Side {
    In,
    Out,
}

/// A file for one side of a device. Neither the device's name nor the file is looked at: each may be
/// empty, and the file may have further `=`.
#[derive(Clone, Copy, Debug)]
pub struct Binding<'a> {
    pub side: Side,
    pub device: &'a [u8],
    pub file: &'a str,
    /// The number of its word among all words, from 0.
    pub word: u32,
}

/// The binding that the word of this number is, None where it is none.
#[tactic(auto, unfolding(crate::specs::Bindings::binding_of, crate::specs::Bindings::binds_on))]
pub(crate) fn binding_in<'a>(number: u32, word: &'a str) -> Option<Binding<'a>>
    ensures { option_map binding_view result ≡ binding_of number word.now }
{
    let (before, file) = word.split_once('=')?;
    let before = before.as_bytes();
    if before.starts_with(b"in:") {
        return Some(Binding {
            side: Side::In,
            device: &before[3..],
            file,
            word: number,
        });
    }
    if before.starts_with(b"out:") {
        return Some(Binding {
            side: Side::Out,
            device: &before[4..],
            file,
            word: number,
        });
    }
    None
}
