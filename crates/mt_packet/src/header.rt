//! The header of a frame.
ghost use Rattle.std.specs.Prelude.{◌≡◌, ◌≤◌, length};
ghost use Rattle.mt_packet.specs.Header.{header_of, fields_of, field_of, greatest_of, InRanges};

use crate::datagram::Datagram;
use crate::ethernet;
use crate::field::{Field, HEADER_FIELDS};
use crate::frame::Frame;
use std::marker::Model;

/// A header: a value for each field, each in its field's range, whether or not some frame has it. A
/// contract sees the list of the numbers by field number.
#[derive(Drop)]
pub struct Header {
    values: [u64; HEADER_FIELDS],
}

impl Model for Header {
    ghost use Rattle.std.specs.Prelude.{List, ℕ};
    ghost use Rattle.mt_packet.specs.Header.{InRanges};

    ghost Value = { List ℕ };

    ghost view = { λ h. h.values };

    ghost invariant = { λ h. InRanges h.values };
}

impl Header {
    /// The header with these values, by field number.
    pub fn new(values: [u64; HEADER_FIELDS]) -> Header
        requires { InRanges values }
        ensures { result ≡ values }
    {
        Header { values }
    }

    /// The header of a frame that arrives on a device: its paint and its annotation are 0. Its bytes are
    /// looked at once.
    #[tactic(auto, unfolding(crate::specs::Header::header_of))]
    pub fn of(device: u32, frame: &Frame) -> Header
        ensures header { result ≡ header_of device frame.now }
        ensures ranges { InRanges result }
    {
        let bytes = frame.bytes();
        Header::read(device, bytes, ethernet::behind_header(bytes), 0, 0)
    }

    /// The fields of the bytes in which the Ethernet header stands, of the data behind it, of a paint and
    /// of an annotation.
    pub(crate) fn read(
        device: u32,
        frame: &[u8],
        datagram: &[u8],
        paint: u8,
        annotation: u32,
    ) -> Header
        ensures header { result ≡ fields_of device frame.now datagram.now paint annotation }
        ensures ranges { InRanges result }
    {
        Header {
            values: values_of(device, frame, datagram, paint, annotation),
        }
    }

    /// All values, by field number.
    pub fn values(&self) -> &[u64; HEADER_FIELDS]
        ensures values { result.now ≡ self.now }
        ensures whole { length self.now ≡ HEADER_FIELDS }
        ensures ranges { InRanges self.now }
    {
        &self.values
    }

    /// The value of a field.
    pub fn get(&self, field: Field) -> u64
        ensures value { result ≡ field_of self.now field }
        ensures range { result ≤ greatest_of field }
    {
        self.values[field.number()]
    }
}

/// The values of a header, by field number.
fn values_of(
    device: u32,
    frame: &[u8],
    datagram: &[u8],
    paint: u8,
    annotation: u32,
) -> [u64; HEADER_FIELDS]
    ensures header { result ≡ fields_of device frame.now datagram.now paint annotation }
    ensures ranges { InRanges result }
{
    let ip = Datagram::new(datagram);
    [
        u64::from(device),
        ethernet::ether_type(frame),
        ethernet::destination(frame),
        ethernet::source(frame),
        ethernet::arp_operation(frame),
        u64::from(ip.protocol()),
        u64::from(ip.source()),
        u64::from(ip.destination()),
        u64::from(ip.code_point()),
        u64::from(ip.congestion()),
        ip.source_port(),
        ip.destination_port(),
        u64::from(ip.icmp_type()),
        ip.validity(),
        ip.ports(),
        u64::from(ip.more_fragments()),
        u64::from(ip.fragment_offset()),
        u64::from(ip.time_to_live()),
        u64::from(ip.syn()),
        u64::from(ip.ack()),
        u64::from(ip.fin()),
        u64::from(ip.rst()),
        u64::from(paint),
        u64::from(annotation),
    ]
}
