//! Values come from the formats, from other programs, or from sums by hand. Hexadecimal text stands for bytes.
ghost use Rattle.std.specs.Prelude.{◌≡◌, ◌≤◌};

mod checks;
mod frames;
mod headers;
mod sums;
mod writes;

use crate::{Frame, Layer, Packet, Stamped};
use std::alloc::{AllocError, Global};

/// The value of a hexadecimal digit.
fn digit(letter: u8) -> u8
    ensures { result ≤ 15 }
{
    match letter {
        b'0'..=b'9' => letter - b'0',
        b'a'..=b'f' => letter - b'a' + 10,
        _ => 0,
    }
}

/// The bytes of hexadecimal text, in which spaces count for nothing.
fn bytes(alloc: Global, text: &str) -> Result<Vec<u8>, AllocError> {
    let mut bytes = Vec::new(alloc);
    let mut high: Option<u8> = None;
    for letter in text.as_bytes() {
        if *letter == b' ' {
            continue;
        }
        match high {
            None => high = Some(digit(*letter)),
            Some(sixteens) => {
                bytes.push(sixteens % 16 * 16 + digit(*letter))?;
                high = None;
            }
        }
    }
    Ok(bytes)
}

fn frame(alloc: Global, text: &str) -> Option<Frame> {
    Some(Frame::new(bytes(alloc, text).ok()?))
}

fn arrived(frame: Frame, device: u32) -> Packet
    ensures { result.layer ≡ Layer.Frame }
{
    Packet::new(Stamped {
        stamp: 7,
        device,
        number: 3,
        frame,
    })
}
