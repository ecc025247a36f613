//! The fields of a header.
ghost use Rattle.std.specs.Prelude.{◌≡◌, ◌<◌, ◌↔◌, IsTrue};
ghost use Rattle.mt_packet.specs.Header.{number_of, greatest_of, is_field, visible_index, IsVisible};
ghost use Rattle.std.specs.List.{position_or_len};

/// The number of fields of a header.
pub const HEADER_FIELDS: usize = 24;

/// The number of fields that a switch sees.
pub const VISIBLE_FIELDS: usize = 13;

/// All fields by their numbers.
pub const FIELDS: [Field; HEADER_FIELDS] = [
    Field::Device,
    Field::EthType,
    Field::EthDst,
    Field::EthSrc,
    Field::ArpOp,
    Field::Proto,
    Field::Src,
    Field::Dst,
    Field::Dscp,
    Field::Ecn,
    Field::Sport,
    Field::Dport,
    Field::IcmpType,
    Field::IpOk,
    Field::Ports,
    Field::Mf,
    Field::FragOff,
    Field::Ttl,
    Field::Syn,
    Field::Ack,
    Field::Fin,
    Field::Rst,
    Field::Paint,
    Field::Annotation,
];

/// The fields that a switch sees, in the order in which a visible header has them.
pub(crate) const VISIBLE: [Field; VISIBLE_FIELDS] = [
    Field::Device,
    Field::EthType,
    Field::EthDst,
    Field::EthSrc,
    Field::ArpOp,
    Field::Proto,
    Field::Src,
    Field::Dst,
    Field::Dscp,
    Field::Ecn,
    Field::Sport,
    Field::Dport,
    Field::IcmpType,
];

/// A field of a header, in the order of their numbers. Addresses and ports are numbers in network
/// order. Where a frame does not have a field, the field has the value that is named last.
#[derive(Clone, Copy, Debug, PartialEq, Eq, PartialOrd, Ord)]
pub enum Field {
    /// The device of arrival, from 1; never absent.
    Device,
    /// Bytes 12 and 13 of the frame, also where they announce a VLAN tag; 65,536.
    EthType,
    /// The Ethernet destination, 48 bits; 0.
    EthDst,
    /// The Ethernet source, 48 bits; 0.
    EthSrc,
    /// The operation of an ARP packet (RFC 826); 65,536.
    ArpOp,
    /// The protocol of IPv4 (RFC 791); 0.
    Proto,
    /// The IPv4 source address; 0.
    Src,
    /// The IPv4 destination address; 0.
    Dst,
    /// The differentiated services code point (RFC 2474), 6 bits; 0.
    Dscp,
    /// The explicit congestion notification (RFC 3168), 2 bits; 0.
    Ecn,
    /// The source port of TCP or UDP (RFC 9293, RFC 768); 65,536.
    Sport,
    /// The destination port of TCP or UDP; 65,536.
    Dport,
    /// The type of an ICMP message (RFC 792); 256.
    IcmpType,
    /// 1 where the bytes past the Ethernet header are valid IPv4; 0.
    IpOk,
    /// 1 where the ports are visible; 0.
    Ports,
    /// The bit "more fragments" of IPv4; 0.
    Mf,
    /// The fragment offset of IPv4 in units of eight bytes, 13 bits; 0.
    FragOff,
    /// The time to live of IPv4; 0.
    Ttl,
    /// The TCP flag SYN; 0.
    Syn,
    /// The TCP flag ACK; 0.
    Ack,
    /// The TCP flag FIN; 0.
    Fin,
    /// The TCP flag RST; 0.
    Rst,
    /// The paint that an element gave the packet, 8 bits; 0 on arrival.
    Paint,
    /// The destination annotation that elements keep, 32 bits; 0 on arrival.
    Annotation,
}

impl Field {
    /// The field's number, its index in a header.
    pub fn number(self) -> usize
        ensures number { result ≡ number_of self }
        ensures below { result < HEADER_FIELDS }
    {
        match self {
            Field::Device => 0,
            Field::EthType => 1,
            Field::EthDst => 2,
            Field::EthSrc => 3,
            Field::ArpOp => 4,
            Field::Proto => 5,
            Field::Src => 6,
            Field::Dst => 7,
            Field::Dscp => 8,
            Field::Ecn => 9,
            Field::Sport => 10,
            Field::Dport => 11,
            Field::IcmpType => 12,
            Field::IpOk => 13,
            Field::Ports => 14,
            Field::Mf => 15,
            Field::FragOff => 16,
            Field::Ttl => 17,
            Field::Syn => 18,
            Field::Ack => 19,
            Field::Fin => 20,
            Field::Rst => 21,
            Field::Paint => 22,
            Field::Annotation => 23,
        }
    }

    /// The greatest value of the field; its values are the numbers from 0 to it.
    pub fn greatest(self) -> u64
        ensures { result ≡ greatest_of self }
    {
        match self {
            Field::Device | Field::Src | Field::Dst | Field::Annotation => 4_294_967_295,
            Field::EthType | Field::ArpOp | Field::Sport | Field::Dport => 65_536,
            Field::EthDst | Field::EthSrc => 281_474_976_710_655,
            Field::Proto | Field::Ttl | Field::Paint => 255,
            Field::Dscp => 63,
            Field::Ecn => 3,
            Field::IcmpType => 256,
            Field::FragOff => 8_191,
            Field::IpOk
            | Field::Ports
            | Field::Mf
            | Field::Syn
            | Field::Ack
            | Field::Fin
            | Field::Rst => 1,
        }
    }

    /// Whether a switch sees the field.
    pub fn is_visible(self) -> bool
        ensures { IsTrue result ↔ IsVisible self }
    {
        self.visible_index() < VISIBLE_FIELDS
    }

    /// The field's index in a visible header, and `VISIBLE_FIELDS` where a switch does not see it.
    pub(crate) fn visible_index(self) -> usize
        ensures { result ≡ visible_index self }
    {
        index_of(self, &VISIBLE)
    }
}

/// The first index at which a field stands among fields, or their number.
fn index_of(field: Field, fields: &[Field]) -> usize
    ensures { result ≡ position_or_len (is_field field) fields.now }
{
    for (index, other) in fields.iter().enumerate() {
        if other.number() == field.number() {
            return index;
        }
    }
    fields.len()
}
