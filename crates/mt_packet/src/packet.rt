//! A packet on its way through a chain.
ghost use Rattle.std.specs.Prelude.{◌≡◌, ◌⊎◌, ◌+◌, ◌^◌, ◌<◌, ◌≤◌, ◌↔◌, ◌++◌, length, take, drop, slice_set, true, IsTrue, if◌then◌else◌};
ghost use Rattle.mt_packet.specs.Flow.{packet_flow};
ghost use Rattle.mt_packet.specs.Header.{AreBytes, field_of, fields_of, greatest_of, InRanges};
ghost use Rattle.mt_packet.specs.Ipv4.{IsValidIpv4, header_length, dst_of, has_ports};
ghost use Rattle.mt_packet.specs.Packet.{PacketState, has_ethernet, frame_of, datagram_of, packet_header, header_after, arrived, stripped, encapsulated, ethernet_header, checked, checked_datagram, layer_checked, with_field, CanWrite, IsChecked, HasEthernet, HasWrittenSums};
ghost use Rattle.std.specs.Bool.{OnTrue};
ghost use Rattle.mt_packet.specs.Write.{with_address, with_dscp, with_ttl, with_port, with_header_zero, with_tcp_zero};

mod write;

use crate::bytes::{two_bytes, write_six, write_two};
use crate::datagram::{Datagram, header_bytes, valid};
use crate::ethernet;
use crate::field::Field;
use crate::flow::Flow;
use crate::frame::{Frame, Stamped};
use crate::header::Header;
use crate::layer::Layer;
use crate::writes::Writes;
use std::marker::Model;

/// A packet: its present bytes, its layer, its paint, its destination annotation, and what came with
/// its frame. No call takes memory: the bytes of an Ethernet header that was taken away stay in
/// front, unseen, and a new one is written over them.
#[derive(Drop)]
pub struct Packet {
    bytes: Vec<u8>,
    layer: Layer,
    paint: u8,
    annotation: u32,
    stamp: u64,
    device: u32,
    number: u32,
}

impl Model for Packet {
    ghost use Rattle.std.specs.Prelude.{◌≡◌, ◌≤◌, drop, length, false, if◌then◌else◌};
    ghost use Rattle.mt_packet.specs.Packet.{PacketState, has_ethernet};

    ghost Value = { PacketState };

    ghost view = { λ p. record {
      bytes = if has_ethernet p.layer then p.bytes.items else drop 14 p.bytes.items;
      layer = p.layer;
      paint = p.paint;
      annotation = p.annotation;
      stamp = p.stamp;
      device = p.device;
      number = p.number;
    } };

    ghost invariant = { λ p. has_ethernet p.layer ≡ false → 14 ≤ length p.bytes.items };
}

impl Packet {
    /// The packet as its frame arrives: at layer `Frame`, with paint 0 and annotation 0.
    pub fn new(stamped: Stamped) -> Packet
        ensures { result ≡ arrived stamped.frame stamped.stamp stamped.device stamped.number }
    {
        Packet {
            bytes: stamped.frame.into_bytes(),
            layer: Layer::Frame,
            paint: 0,
            annotation: 0,
            stamp: stamped.stamp,
            device: stamped.device,
            number: stamped.number,
        }
    }

    /// What the present bytes are.
    pub fn layer(&self) -> Layer
        ensures { result ≡ self.now.layer }
    {
        self.layer
    }

    /// Whether a whole Ethernet header stands in front.
    pub fn has_whole_ethernet(&self) -> bool
        ensures { IsTrue result ↔ HasEthernet self.now }
    {
        match self.layer {
            Layer::Frame | Layer::Framed => self.bytes.len() >= ethernet::HEADER,
            Layer::Bare | Layer::Ip => false,
        }
    }

    /// Whether the ports are visible: no later fragment, and a TCP header of 20 bytes or a UDP header of
    /// 8 bytes within the total length.
    pub fn has_ports(&self) -> bool
        ensures { result ≡ has_ports (datagram_of self.now) }
    {
        Datagram::new(ethernet::behind_header(&self.bytes)).has_ports()
    }

    /// The header, read at the present bytes in one walk, with the packet's paint and annotation. Where the
    /// Ethernet header was taken away, the fields of Ethernet and ARP are absent, and those of IPv4 are read
    /// from the first byte on.
    pub fn header(&self) -> Header
        ensures header { result ≡ packet_header self.now }
        ensures ranges { InRanges result }
    {
        let datagram = ethernet::behind_header(&self.bytes);
        Header::read(
            self.device,
            self.ethernet(),
            datagram,
            self.paint,
            self.annotation,
        )
    }

    /// A field, read at the present bytes. Where the Ethernet header was taken away, the fields of
    /// Ethernet and ARP are absent, and those of IPv4 are read from the first byte on.
    pub fn field(&self, field: Field) -> u64
        ensures value { result ≡ field_of (packet_header self.now) field }
        ensures range { result ≤ greatest_of field }
    {
        let datagram = ethernet::behind_header(&self.bytes);
        let frame = self.ethernet();
        read(
            self.device,
            frame,
            datagram,
            self.paint,
            self.annotation,
            field,
        )
    }

    /// Writes a field, mends the checksums that cover it, and counts the write. The header checksum
    /// is then the right one, from 0 to 65,534 (RFC 791). The transport checksum is changed by the
    /// difference (RFC 1624), so an error in it stays.
    pub fn write_field(&mut self, field: Field, value: u64, writes: &mut Writes)
        requires allowed { CanWrite self.old field value }
        requires room { writes.old < 2 ^ 63 }
        ensures written { self.new ≡ with_field self.old field value }
        ensures header { packet_header self.new ≡ header_after self.old field value }
        ensures still_checked { IsChecked self.old → IsChecked self.new }
        ensures still_written { HasWrittenSums self.old → HasWrittenSums self.new }
        ensures same_ports { has_ports (datagram_of self.new) ≡ has_ports (datagram_of self.old) }
        ensures counted { writes.new ≡ writes.old + 1 }
    {
        writes.add();
        self.set(field, value);
    }

    /// Whether the data are valid IPv4 (RFC 791). If so, what follows the total length is cut off, a
    /// header checksum of 65,535 is written 0, and so is a TCP checksum where ports are visible; the
    /// annotation becomes the destination, and layer `Bare` becomes `Ip`. If not, nothing changes.
    pub fn check_ip(&mut self) -> bool
        ensures valid { IsTrue result ↔ IsValidIpv4 (datagram_of self.old) }
        ensures after { self.new ≡ (if result then checked self.old else self.old) }
        ensures header { packet_header self.new
            ≡ (if result then slice_set (packet_header self.old) 23 (dst_of (datagram_of self.old))
            else packet_header self.old) }
        ensures checked { OnTrue result (IsChecked self.new) }
        ensures written { OnTrue result (HasWrittenSums self.new) }
        ensures same_ports { has_ports (datagram_of self.new) ≡ has_ports (datagram_of self.old) }
    {
        are_bytes(&self.bytes);
        self.check()
    }

    /// Takes the Ethernet header away: `Frame` becomes `Bare`, `Framed` becomes `Ip`. False where the
    /// frame has fewer than 14 bytes, and then nothing changes.
    pub fn strip(&mut self) -> bool
        requires { IsTrue (has_ethernet self.old.layer) }
        ensures long_enough { IsTrue result ↔ (14 ≤ length self.old.bytes) }
        ensures after { self.new ≡ (if result then stripped self.old else self.old) }
        ensures same_datagram { datagram_of self.new ≡ datagram_of self.old }
    {
        if self.bytes.len() < ethernet::HEADER {
            return false;
        }
        self.layer = match self.layer {
            Layer::Frame | Layer::Bare => Layer::Bare,
            Layer::Framed | Layer::Ip => Layer::Ip,
        };
        true
    }

    /// Puts an Ethernet header in front of a checked packet: the EtherType and the low 48 bits of
    /// the source and the destination address.
    pub fn encap(&mut self, ether_type: u16, src: u64, dst: u64)
        requires { self.old.layer ≡ Layer.Ip }
        ensures after { self.new ≡ encapsulated self.old ether_type src dst }
        ensures same_datagram { datagram_of self.new ≡ datagram_of self.old }
    {
        write_ethernet(&mut self.bytes, ether_type, src, dst);
        self.layer = Layer::Framed;
    }

    /// The protocol and the two ends; none exactly where no ports are visible.
    pub fn flow(&self) -> Option<Flow>
        ensures { result ≡ packet_flow self.now }
    {
        let ip = Datagram::new(ethernet::behind_header(&self.bytes));
        ip.flow()
    }

    /// The present bytes as a frame, with what came with it.
    pub fn into_stamped(self) -> Stamped
        ensures frame { result.frame ≡ self.bytes }
        ensures stamp { result.stamp ≡ self.stamp }
        ensures device { result.device ≡ self.device }
        ensures number { result.number ≡ self.number }
    {
        let mut frame = Frame::new(self.bytes);
        match self.layer {
            Layer::Bare | Layer::Ip => frame.remove(0, ethernet::HEADER),
            Layer::Frame | Layer::Framed => {}
        }
        Stamped {
            stamp: self.stamp,
            device: self.device,
            number: self.number,
            frame,
        }
    }

    /// Sets a field and mends the checksums.
    fn set(&mut self, field: Field, value: u64)
        requires { CanWrite self.old field value }
        ensures { self.new ≡ with_field self.old field value }
    {
        match field {
            Field::EthType => write_two(&mut self.bytes, 12, value as u16),
            Field::EthDst => write_six(&mut self.bytes, 0, value),
            Field::EthSrc => write_six(&mut self.bytes, 6, value),
            Field::Paint => self.paint = value as u8,
            Field::Annotation => self.annotation = value as u32,
            Field::Src => write_address(&mut self.bytes, 12, value as u32),
            Field::Dst => write_address(&mut self.bytes, 16, value as u32),
            Field::Dscp => write_code_point(&mut self.bytes, value as u8),
            Field::Ttl => write_time_to_live(&mut self.bytes, value as u8),
            Field::Sport => write_port(&mut self.bytes, 0, value as u16),
            Field::Dport => write_port(&mut self.bytes, 2, value as u16),
            _ => {}
        }
    }

    /// Trims a valid packet and sets its annotation and its layer.
    fn check(&mut self) -> bool
        ensures valid { IsTrue result ↔ IsValidIpv4 (datagram_of self.old) }
        ensures after { self.new ≡ (if result then checked self.old else self.old) }
    {
        let datagram = ethernet::behind_header(&self.bytes);
        if !valid(datagram) {
            return false;
        }
        self.annotation = Datagram::new(datagram).destination();
        trim(&mut self.bytes);
        self.layer = checked_layer(self.layer);
        true
    }

    /// The bytes in which the Ethernet header stands; none where it was taken away.
    fn ethernet(&self) -> &[u8]
        ensures { result.now ≡ frame_of self.now }
    {
        match self.layer {
            Layer::Frame | Layer::Framed => &self.bytes,
            Layer::Bare | Layer::Ip => &[],
        }
    }
}

/// A field of the bytes in which the Ethernet header stands and of the data behind it.
fn read(device: u32, frame: &[u8], datagram: &[u8], paint: u8, annotation: u32, field: Field) -> u64
    ensures value { result ≡ field_of (fields_of device frame.now datagram.now paint annotation) field }
    ensures range { result ≤ greatest_of field }
{
    value_of(device, frame, datagram, paint, annotation, field)
}

/// The same, each field at its own offset.
fn value_of(
    device: u32,
    frame: &[u8],
    datagram: &[u8],
    paint: u8,
    annotation: u32,
    field: Field,
) -> u64
    ensures { result ≡ field_of (fields_of device frame.now datagram.now paint annotation) field }
{
    let ip = Datagram::new(datagram);
    match field {
        Field::Device => u64::from(device),
        Field::EthType => ethernet::ether_type(frame),
        Field::EthDst => ethernet::destination(frame),
        Field::EthSrc => ethernet::source(frame),
        Field::ArpOp => ethernet::arp_operation(frame),
        Field::Proto => u64::from(ip.protocol()),
        Field::Src => u64::from(ip.source()),
        Field::Dst => u64::from(ip.destination()),
        Field::Dscp => u64::from(ip.code_point()),
        Field::Ecn => u64::from(ip.congestion()),
        Field::Sport => ip.source_port(),
        Field::Dport => ip.destination_port(),
        Field::IcmpType => u64::from(ip.icmp_type()),
        Field::IpOk => ip.validity(),
        Field::Ports => ip.ports(),
        Field::Mf => u64::from(ip.more_fragments()),
        Field::FragOff => u64::from(ip.fragment_offset()),
        Field::Ttl => u64::from(ip.time_to_live()),
        Field::Syn => u64::from(ip.syn()),
        Field::Ack => u64::from(ip.ack()),
        Field::Fin => u64::from(ip.fin()),
        Field::Rst => u64::from(ip.rst()),
        Field::Paint => u64::from(paint),
        Field::Annotation => u64::from(annotation),
    }
}

/// Writes an Ethernet header over the first bytes.
#[tactic(auto, using(crate::proofs::Frames::encapsulated_bytes))]
fn write_ethernet(bytes: &mut [u8], ether_type: u16, src: u64, dst: u64)
    requires { 14 ≤ length bytes.old }
    ensures { bytes.new ≡ ethernet_header ether_type src dst ++ drop 14 bytes.old }
{
    write_six(bytes, 0, dst);
    write_six(bytes, 6, src);
    write_two(bytes, 12, ether_type);
}

/// Bytes are numbers below 256: a fact for proofs, with nothing to run.
fn are_bytes(bytes: &[u8])
    ensures { AreBytes bytes.now }
{
    let _ = bytes;
}

/// The layer of a packet that has been found to be IPv4.
fn checked_layer(layer: Layer) -> Layer
    ensures { result ≡ layer_checked layer }
{
    match layer {
        Layer::Frame => Layer::Frame,
        Layer::Bare | Layer::Ip => Layer::Ip,
        Layer::Framed => Layer::Framed,
    }
}

/// Cuts off what follows the IPv4 packet behind the Ethernet header, and gives its checksums of 65,535
/// their written form.
#[tactic(auto, using(std::proofs::lemmas::Grind::common_steps, crate::proofs::Frames::trimmed, crate::proofs::Frames::valid_behind), unfolding(crate::specs::Packet::checked_datagram))]
fn trim(bytes: &mut Vec<u8>)
    requires { IsValidIpv4 (drop 14 bytes.old.items) }
    ensures { bytes.new.items ≡ take 14 bytes.old.items ++ checked_datagram (drop 14 bytes.old.items) }
{
    let total = usize::from(two_bytes(ethernet::behind_header(bytes), 2));
    bytes.truncate(ethernet::HEADER + total);
    write_zeros(bytes);
}

/// Writes an address of the IPv4 header behind the Ethernet header.
fn write_address(bytes: &mut [u8], offset: usize, value: u32)
    requires valid { IsValidIpv4 (drop 14 bytes.old) }
    requires address { (offset ≡ 12) ⊎ (offset ≡ 16) }
    ensures { bytes.new ≡ take 14 bytes.old ++ with_address (drop 14 bytes.old) offset value }
{
    write::address(&mut bytes[ethernet::HEADER..], offset, value);
}

/// Writes the code point of the IPv4 header behind the Ethernet header.
fn write_code_point(bytes: &mut [u8], value: u8)
    requires valid { IsValidIpv4 (drop 14 bytes.old) }
    requires range { value ≤ 63 }
    ensures { bytes.new ≡ take 14 bytes.old ++ with_dscp (drop 14 bytes.old) value }
{
    write::code_point(&mut bytes[ethernet::HEADER..], value);
}

/// Writes the time to live of the IPv4 header behind the Ethernet header.
fn write_time_to_live(bytes: &mut [u8], value: u8)
    requires { IsValidIpv4 (drop 14 bytes.old) }
    ensures { bytes.new ≡ take 14 bytes.old ++ with_ttl (drop 14 bytes.old) value }
{
    write::time_to_live(&mut bytes[ethernet::HEADER..], value);
}

/// Writes a port, the source's at 0 and the destination's at 2 of the transport header.
#[tactic(auto, using(crate::proofs::Frames::ports_behind))]
fn write_port(bytes: &mut [u8], at: usize, value: u16)
    requires ports { has_ports (drop 14 bytes.old) ≡ true }
    requires within { at ≤ 2 }
    ensures { let datagram = drop 14 bytes.old
        in bytes.new ≡ take 14 bytes.old ++ with_port datagram (header_length datagram + at) value }
{
    let datagram = &mut bytes[ethernet::HEADER..];
    let offset = header_bytes(datagram) + at;
    write::port(datagram, offset, value);
}

/// Gives the checksums of 65,535 their written form.
fn write_zeros(bytes: &mut [u8])
    requires { 34 ≤ length bytes.old }
    ensures { bytes.new ≡ take 14 bytes.old ++ with_tcp_zero (with_header_zero (drop 14 bytes.old)) }
{
    let datagram = &mut bytes[ethernet::HEADER..];
    write::write_header_zero(datagram);
    write::write_tcp_zero(datagram);
}
