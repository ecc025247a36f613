//! The fields of an IPv4 packet and of the TCP, UDP or ICMP header in it.
ghost use Rattle.std.specs.Prelude.{◌≡◌, ◌+◌, ◌<◌, ◌≤◌, length, ◌↔◌, true, IsTrue, Option, Some, None, if◌then◌else◌};
ghost use Rattle.mt_packet.specs.Flow.{datagram_flow};
ghost use Rattle.mt_packet.specs.Write.{checksum_offset};
ghost use Rattle.mt_packet.specs.Ipv4.{is_readable, header_length, proto_of, src_of, dst_of, dscp_of, ecn_of, mf_of, frag_off_of, ttl_of, has_message, has_ports, sport_of, dport_of, icmp_type_of, tcp_flags_of, is_valid_ipv4, IsValidIpv4, ports_of, ip_ok_of, fin_of, syn_of, rst_of, ack_of};

use crate::bytes::{four_bytes, two_bytes};
use crate::checksum::ip_sum;
use crate::flow::Flow;

/// The protocol number of ICMP.
pub const ICMP: u8 = 1;

/// The protocol number of TCP.
pub const TCP: u8 = 6;

/// The protocol number of UDP.
pub const UDP: u8 = 17;

/// What a port is told as where no port is visible.
const NO_PORT: u64 = 65_536;

/// The data behind an Ethernet header, read as IPv4, with the tests on which the fields depend.
#[derive(Clone, Copy)]
pub struct Datagram<'a> {
    datagram: &'a [u8],
    readable: bool,
    tcp: bool,
    udp: bool,
    ghost readable_is: { readable ≡ is_readable datagram.now },
    ghost tcp_is: { tcp ≡ has_message datagram.now 6 20 },
    ghost udp_is: { udp ≡ has_message datagram.now 17 8 },
}

impl<'a> Datagram<'a> {
    /// Reads the data.
    pub fn new(datagram: &'a [u8]) -> Datagram<'a>
        ensures { result.datagram.now ≡ datagram.now }
    {
        let readable = readable(datagram);
        let tcp = carries(datagram, TCP, 20);
        let udp = carries(datagram, UDP, 8);
        Datagram {
            datagram,
            readable,
            tcp,
            udp,
        }
    }

    /// The protocol.
    #[tactic(auto, using(crate::proofs::Readable::readable_long), unfolding(crate::specs::Ipv4::proto_of))]
    pub fn protocol(&self) -> u8
        ensures { result ≡ proto_of self.now.datagram.now }
    {
        if self.readable { self.datagram[9] } else { 0 }
    }

    /// The source address.
    #[tactic(auto, using(crate::proofs::Readable::readable_long), unfolding(crate::specs::Ipv4::src_of))]
    pub fn source(&self) -> u32
        ensures { result ≡ src_of self.now.datagram.now }
    {
        if self.readable {
            four_bytes(self.datagram, 12)
        } else {
            0
        }
    }

    /// The destination address.
    #[tactic(auto, using(crate::proofs::Readable::readable_long), unfolding(crate::specs::Ipv4::dst_of))]
    pub fn destination(&self) -> u32
        ensures { result ≡ dst_of self.now.datagram.now }
    {
        if self.readable {
            four_bytes(self.datagram, 16)
        } else {
            0
        }
    }

    /// The differentiated services code point.
    #[tactic(auto, using(crate::proofs::Readable::readable_long), unfolding(crate::specs::Ipv4::dscp_of))]
    pub fn code_point(&self) -> u8
        ensures { result ≡ dscp_of self.now.datagram.now }
    {
        if self.readable {
            self.datagram[1] / 4
        } else {
            0
        }
    }

    /// The explicit congestion notification.
    #[tactic(auto, using(crate::proofs::Readable::readable_long), unfolding(crate::specs::Ipv4::ecn_of))]
    pub fn congestion(&self) -> u8
        ensures { result ≡ ecn_of self.now.datagram.now }
    {
        if self.readable {
            self.datagram[1] % 4
        } else {
            0
        }
    }

    /// The bit "more fragments".
    #[tactic(auto, using(crate::proofs::Readable::readable_long), unfolding(crate::specs::Ipv4::mf_of))]
    pub fn more_fragments(&self) -> u8
        ensures { result ≡ mf_of self.now.datagram.now }
    {
        if self.readable {
            self.datagram[6] / 32 % 2
        } else {
            0
        }
    }

    /// The fragment offset.
    #[tactic(auto, using(crate::proofs::Readable::readable_long), unfolding(crate::specs::Ipv4::frag_off_of))]
    pub fn fragment_offset(&self) -> u16
        ensures { result ≡ frag_off_of self.now.datagram.now }
    {
        if self.readable {
            two_bytes(self.datagram, 6) % 8_192
        } else {
            0
        }
    }

    /// The time to live.
    #[tactic(auto, using(crate::proofs::Readable::readable_long), unfolding(crate::specs::Ipv4::ttl_of))]
    pub fn time_to_live(&self) -> u8
        ensures { result ≡ ttl_of self.now.datagram.now }
    {
        if self.readable { self.datagram[8] } else { 0 }
    }

    /// Whether the ports are visible.
    #[tactic(auto, unfolding(crate::specs::Ipv4::has_ports))]
    pub fn has_ports(&self) -> bool
        ensures { result ≡ has_ports self.now.datagram.now }
    {
        self.tcp || self.udp
    }

    /// The offset of the transport checksum.
    #[tactic(auto, using(crate::proofs::Puts::checksum_within))]
    pub fn checksum_offset(&self) -> usize
        requires { has_ports self.now.datagram.now ≡ true }
        ensures offset { result ≡ checksum_offset self.now.datagram.now }
        ensures within { result + 1 < length self.now.datagram.now }
    {
        let header = header_bytes(self.datagram);
        if self.protocol() == UDP {
            header + 6
        } else {
            header + 16
        }
    }

    /// The source port, and 65,536 where no port is visible.
    #[tactic(auto, using(crate::proofs::Readable::ports_long), unfolding(crate::specs::Ipv4::sport_of))]
    pub fn source_port(&self) -> u64
        ensures { result ≡ sport_of self.now.datagram.now }
    {
        if self.has_ports() {
            u64::from(two_bytes(self.datagram, header_bytes(self.datagram)))
        } else {
            NO_PORT
        }
    }

    /// The destination port, and 65,536 where no port is visible.
    #[tactic(auto, using(crate::proofs::Readable::ports_long), unfolding(crate::specs::Ipv4::dport_of))]
    pub fn destination_port(&self) -> u64
        ensures { result ≡ dport_of self.now.datagram.now }
    {
        if self.has_ports() {
            u64::from(two_bytes(self.datagram, header_bytes(self.datagram) + 2))
        } else {
            NO_PORT
        }
    }

    /// The protocol and the two ends, where the ports are visible.
    #[tactic(auto, using(crate::proofs::Readable::ports_long), unfolding(crate::specs::Flow::datagram_flow, crate::specs::Ipv4::sport_of, crate::specs::Ipv4::dport_of))]
    pub fn flow(&self) -> Option<Flow>
        ensures { result ≡ datagram_flow self.now.datagram.now }
    {
        if !self.has_ports() {
            return None;
        }
        let offset = header_bytes(self.datagram);
        Some(Flow {
            proto: self.protocol(),
            sa: self.source(),
            sp: two_bytes(self.datagram, offset),
            da: self.destination(),
            dp: two_bytes(self.datagram, offset + 2),
        })
    }

    /// The type of an ICMP message.
    #[tactic(auto, using(crate::proofs::Readable::icmp_long), unfolding(crate::specs::Ipv4::icmp_type_of))]
    pub fn icmp_type(&self) -> u16
        ensures { result ≡ icmp_type_of self.now.datagram.now }
    {
        if carries(self.datagram, ICMP, 8) {
            u16::from(self.datagram[header_bytes(self.datagram)])
        } else {
            256
        }
    }

    /// The byte of the TCP flags.
    #[tactic(auto, using(crate::proofs::Readable::tcp_long), unfolding(crate::specs::Ipv4::tcp_flags_of))]
    pub fn tcp_flags(&self) -> u8
        ensures { result ≡ tcp_flags_of self.now.datagram.now }
    {
        if self.tcp {
            self.datagram[header_bytes(self.datagram) + 13]
        } else {
            0
        }
    }

    /// 1 where the ports are visible, and 0 elsewhere.
    #[tactic(auto, unfolding(crate::specs::Ipv4::ports_of))]
    pub fn ports(&self) -> u64
        ensures { result ≡ ports_of self.now.datagram.now }
    {
        if self.has_ports() { 1 } else { 0 }
    }

    /// 1 where the datagram is valid IPv4, and 0 elsewhere.
    #[tactic(auto, unfolding(crate::specs::Ipv4::ip_ok_of))]
    pub fn validity(&self) -> u64
        ensures { result ≡ ip_ok_of self.now.datagram.now }
    {
        if valid(self.datagram) { 1 } else { 0 }
    }

    /// The flag FIN.
    #[tactic(auto, unfolding(crate::specs::Ipv4::fin_of))]
    pub fn fin(&self) -> u8
        ensures { result ≡ fin_of self.now.datagram.now }
    {
        self.tcp_flags() % 2
    }

    /// The flag SYN.
    #[tactic(auto, unfolding(crate::specs::Ipv4::syn_of))]
    pub fn syn(&self) -> u8
        ensures { result ≡ syn_of self.now.datagram.now }
    {
        self.tcp_flags() / 2 % 2
    }

    /// The flag RST.
    #[tactic(auto, unfolding(crate::specs::Ipv4::rst_of))]
    pub fn rst(&self) -> u8
        ensures { result ≡ rst_of self.now.datagram.now }
    {
        self.tcp_flags() / 4 % 2
    }

    /// The flag ACK.
    #[tactic(auto, unfolding(crate::specs::Ipv4::ack_of))]
    pub fn ack(&self) -> u8
        ensures { result ≡ ack_of self.now.datagram.now }
    {
        self.tcp_flags() / 16 % 2
    }
}

/// Whether the fixed part of a header is there, of version 4.
#[tactic(auto, unfolding(crate::specs::Ipv4::is_readable))]
pub fn readable(datagram: &[u8]) -> bool
    ensures { result ≡ is_readable datagram.now }
{
    datagram.len() >= 20 && datagram[0] / 16 == 4
}

/// The length of the header in bytes, as its first byte tells it.
pub fn header_bytes(datagram: &[u8]) -> usize
    requires { 0 < length datagram.now }
    ensures { result ≡ header_length datagram.now }
{
    usize::from(datagram[0] % 16) * 4
}

/// Whether the packet is no later fragment and carries a message of that protocol, of at least so many
/// bytes.
#[tactic(auto, using(crate::proofs::Readable::readable_long), unfolding(crate::specs::Ipv4::has_message, crate::specs::Ipv4::proto_of, crate::specs::Ipv4::frag_off_of))]
fn carries(datagram: &[u8], protocol: u8, least: usize) -> bool
    requires { least < 256 }
    ensures { result ≡ has_message datagram.now protocol least }
{
    if !readable(datagram) {
        return false;
    }
    let header = header_bytes(datagram);
    let carried = usize::from(two_bytes(datagram, 2)).min(datagram.len());
    header >= 20
        && two_bytes(datagram, 6) % 8_192 == 0
        && datagram[9] == protocol
        && header + least <= carried
}

/// Whether the data begin with a valid IPv4 packet (RFC 791).
pub fn valid(datagram: &[u8]) -> bool
    ensures test { result ≡ is_valid_ipv4 datagram.now }
    ensures valid { IsTrue result ↔ IsValidIpv4 datagram.now }
{
    passes(datagram)
}

/// Whether the lengths, the version and the sum of a header are right.
#[tactic(auto, using(crate::proofs::Readable::readable_long), unfolding(crate::specs::Ipv4::is_valid_ipv4))]
fn passes(datagram: &[u8]) -> bool
    ensures { result ≡ is_valid_ipv4 datagram.now }
{
    if !readable(datagram) {
        return false;
    }
    let header = header_bytes(datagram);
    let total = usize::from(two_bytes(datagram, 2));
    header >= 20
        && header <= total
        && total <= datagram.len()
        && ip_sum(&datagram[..header]) == 0xFFFF
}
