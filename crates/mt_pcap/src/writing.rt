//! What is written of a capture: little-endian, in nanoseconds.
ghost use Rattle.std.specs.Prelude.{◌≡◌, ◌<◌, ◌/◌, ◌^◌};
ghost use Rattle.mt_pcap.specs.Text.{header_text, record_head_text};

use crate::form::{LONGEST, NANOSECONDS_MAGIC, SECOND};
use byteorder::{ByteOrder, LittleEndian};

/// The header of a capture: version 2.4, little-endian, times in nanoseconds, zone 0, sigfigs 0,
/// snaplen 262,144, link type 1, Ethernet.
pub fn header() -> [u8; 24]
    ensures { result ≡ header_text }
{
    let mut text = [0; 24];
    LittleEndian::write_u32(&mut text, NANOSECONDS_MAGIC);
    LittleEndian::write_u16(&mut text[4..], 2);
    LittleEndian::write_u16(&mut text[6..], 4);
    LittleEndian::write_u32(&mut text[16..], LONGEST);
    LittleEndian::write_u32(&mut text[20..], 1);
    text
}

/// The head of a record, which stands before the bytes of its frame. `stamp` is the time in
/// nanoseconds since 1970, and `length` that of the frame, which is both the captured and the
/// original length.
pub fn record_head(stamp: u64, length: u32) -> [u8; 16]
    requires { stamp / 1000000000 < 2 ^ 32 }
    ensures { result ≡ record_head_text stamp length }
{
    let mut text = [0; 16];
    LittleEndian::write_u32(&mut text, (stamp / SECOND) as u32);
    LittleEndian::write_u32(&mut text[4..], (stamp % SECOND) as u32);
    LittleEndian::write_u32(&mut text[8..], length);
    LittleEndian::write_u32(&mut text[12..], length);
    text
}
