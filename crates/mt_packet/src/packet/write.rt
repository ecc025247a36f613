//! Writing the fields of an IPv4 packet, with its checksums.
ghost use Rattle.std.specs.Prelude.{◌≡◌, ◌⊎◌, ◌+◌, ◌%◌, ◌<◌, ◌≤◌, length, true};
ghost use Rattle.mt_packet.specs.Checksum.{negative_of};
ghost use Rattle.mt_packet.specs.Field.{two_bytes_at};
ghost use Rattle.mt_packet.specs.Ipv4.{IsValidIpv4};
ghost use Rattle.mt_packet.specs.Write.{put_two, with_transport_checksum, with_address, with_port, with_dscp, with_ttl, with_header_zero, with_tcp_zero};

use crate::bytes::{two_bytes, write_four, write_two};
use crate::checksum::{header_delta, transport_delta};
use crate::datagram::{Datagram, TCP};

/// Writes the time to live.
#[tactic(auto, unfolding(crate::specs::Write::with_ttl))]
pub fn time_to_live(datagram: &mut [u8], value: u8)
    requires { IsValidIpv4 datagram.old }
    ensures { datagram.new ≡ with_ttl datagram.old value }
{
    let old = two_bytes(datagram, 8);
    datagram[8] = value;
    let new = two_bytes(datagram, 8);
    mend_header_checksum(datagram, u32::from(old), u32::from(new));
}

/// Writes the code point, which has at most six bits; the two bits beside it stay.
#[tactic(auto, unfolding(crate::specs::Write::with_dscp))]
pub fn code_point(datagram: &mut [u8], value: u8)
    requires valid { IsValidIpv4 datagram.old }
    requires range { value ≤ 63 }
    ensures { datagram.new ≡ with_dscp datagram.old value }
{
    let old = two_bytes(datagram, 0);
    datagram[1] = value * 4 + datagram[1] % 4;
    let new = two_bytes(datagram, 0);
    mend_header_checksum(datagram, u32::from(old), u32::from(new));
}

/// Writes an address of the header.
#[tactic(auto, unfolding(crate::specs::Write::with_address))]
pub fn address(datagram: &mut [u8], offset: usize, value: u32)
    requires valid { IsValidIpv4 datagram.old }
    requires address { (offset ≡ 12) ⊎ (offset ≡ 16) }
    ensures { datagram.new ≡ with_address datagram.old offset value }
{
    let old = [two_bytes(datagram, offset), two_bytes(datagram, offset + 2)];
    let new = [(value / 65_536) as u16, (value % 65_536) as u16];
    write_four(datagram, offset, value);
    mend_header_checksum(
        datagram,
        u32::from(old[0]) + u32::from(old[1]),
        u32::from(new[0]) + u32::from(new[1]),
    );
    mend_transport_checksum(datagram, &old, &new);
}

/// Writes a port of the transport header.
#[tactic(auto, unfolding(crate::specs::Write::with_port))]
pub fn port(datagram: &mut [u8], offset: usize, value: u16)
    requires { offset + 1 < length datagram.old }
    ensures { datagram.new ≡ with_port datagram.old offset value }
{
    let old = [two_bytes(datagram, offset)];
    write_two(datagram, offset, value);
    mend_transport_checksum(datagram, &old, &[value]);
}

/// Changes the header checksum by the difference of the words that were replaced (RFC 1624), which are
/// told by their sums.
fn mend_header_checksum(datagram: &mut [u8], old: u32, new: u32)
    requires long { 20 ≤ length datagram.old }
    requires old_words { old ≤ 131070 }
    requires new_words { new ≤ 131070 }
    ensures { datagram.new ≡ put_two datagram.old 10 ((two_bytes_at datagram.old 10 + old + negative_of new) % 65535) }
{
    let mended = header_delta(two_bytes(datagram, 10), old, new);
    write_two(datagram, 10, mended);
}

/// Changes the transport checksum by the words that were replaced.
#[tactic(auto, unfolding(crate::specs::Write::with_transport_checksum))]
fn mend_transport_checksum(datagram: &mut [u8], old: &[u16], new: &[u16])
    ensures { datagram.new ≡ with_transport_checksum datagram.old old.now new.now }
{
    let ip = Datagram::new(datagram);
    if !ip.has_ports() {
        return;
    }
    let offset = ip.checksum_offset();
    let mended = transport_delta(ip.protocol(), two_bytes(datagram, offset), old, new);
    write_two(datagram, offset, mended);
}

/// Writes a header checksum of 65,535 as 0.
#[tactic(auto, unfolding(crate::specs::Write::with_header_zero))]
pub fn write_header_zero(datagram: &mut [u8])
    requires { 20 ≤ length datagram.old }
    ensures { datagram.new ≡ with_header_zero datagram.old }
{
    if two_bytes(datagram, 10) == 0xFFFF {
        write_two(datagram, 10, 0);
    }
}

/// Writes a TCP checksum of 65,535 as 0, where ports are visible.
#[tactic(auto, unfolding(crate::specs::Write::with_tcp_zero))]
pub fn write_tcp_zero(datagram: &mut [u8])
    ensures { datagram.new ≡ with_tcp_zero datagram.old }
{
    let ip = Datagram::new(datagram);
    if !ip.has_ports() || ip.protocol() != TCP {
        return;
    }
    let offset = ip.checksum_offset();
    if two_bytes(datagram, offset) == 0xFFFF {
        write_two(datagram, offset, 0);
    }
}
