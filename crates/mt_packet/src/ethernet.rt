//! The Ethernet header of a frame (IEEE 802.3).
ghost use Rattle.std.specs.Prelude.{◌≡◌, ◌+◌, ◌<◌, drop};
ghost use Rattle.mt_packet.specs.Field.{eth_type_of, eth_dst_of, eth_src_of, arp_op_of};

use crate::Frame;
use crate::bytes::{six_bytes, two_bytes};

/// The length of an Ethernet header without tags, in bytes.
pub const HEADER: usize = 14;

/// The EtherType of an ARP packet.
const ARP: u64 = 0x0806;

/// The EtherType of a frame (IEEE 802.3): bytes 12 and 13, in network order. It is read there also
/// where they are the tag protocol identifier of a VLAN tag. A frame below 14 bytes has none, which
/// is told as 65,536.
pub fn eth_type(frame: &Frame) -> u64
    ensures { result ≡ eth_type_of frame.now }
{
    ether_type(frame.bytes())
}

/// The EtherType of the bytes of a frame.
pub(crate) fn ether_type(bytes: &[u8]) -> u64
    ensures { result ≡ eth_type_of bytes.now }
{
    if bytes.len() < HEADER {
        return 65_536;
    }
    u64::from(two_bytes(bytes, 12))
}

/// The destination address.
#[tactic(auto, unfolding(crate::specs::Field::eth_dst_of))]
pub(crate) fn destination(bytes: &[u8]) -> u64
    ensures { result ≡ eth_dst_of bytes.now }
{
    if bytes.len() < HEADER {
        return 0;
    }
    six_bytes(bytes, 0)
}

/// The source address.
#[tactic(auto, unfolding(crate::specs::Field::eth_src_of))]
pub(crate) fn source(bytes: &[u8]) -> u64
    ensures { result ≡ eth_src_of bytes.now }
{
    if bytes.len() < HEADER {
        return 0;
    }
    six_bytes(bytes, 6)
}

/// The operation of an ARP packet (RFC 826): bytes 20 and 21 of the frame.
#[tactic(auto, unfolding(crate::specs::Field::arp_op_of))]
pub(crate) fn arp_operation(bytes: &[u8]) -> u64
    ensures { result ≡ arp_op_of bytes.now }
{
    if bytes.len() < 22 {
        return 65_536;
    }
    if ether_type(bytes) == ARP {
        u64::from(two_bytes(bytes, 20))
    } else {
        65_536
    }
}

/// What follows the Ethernet header; nothing where the header is not whole.
pub(crate) fn behind_header(bytes: &[u8]) -> &[u8]
    ensures { result.now ≡ drop 14 bytes.now }
{
    if bytes.len() < HEADER {
        return &[];
    }
    &bytes[HEADER..]
}
