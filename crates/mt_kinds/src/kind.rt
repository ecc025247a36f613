//! What an element is, with its arguments read.
ghost use Rattle.std.specs.Prelude.{◌≡◌, ◌<◌, ◌^◌, length, map, slice_get, Some};

use crate::hop::Hops;
use crate::rewriter::{Specs, Templates};
use crate::rule::{IPPatterns, Rules};
use std::marker::Model;

/// A clause of a `Classifier` pattern. It holds where that field of the frame has that value.
#[derive(Clone, Copy, Debug, PartialEq, Eq)]
pub enum Clause {
    /// Bytes 12 and 13 of the frame, the EtherType, in network order.
    EthType(u16),
    /// The first six bytes of the frame, the destination address, 48 bits in network order.
    EthDst(u64),
    /// Bytes 6 to 11 of the frame, the source address, 48 bits in network order.
    EthSrc(u64),
    /// The operation of an ARP packet (RFC 826).
    ArpOp(u16),
}

/// One of the two ends of an IPv4 packet.
#[derive(Clone, Copy, Debug, PartialEq, Eq)]
pub enum End {
    /// Where it comes from.
    Src,
    /// Where it goes to.
    Dst,
}

/// The patterns of a `Classifier` in their order. A pattern is its clauses; one with no clause, written
/// `-`, holds on every frame. A contract sees the list of these lists.
#[derive(Drop)]
pub struct Patterns {
    list: Vec<Vec<Clause>>,
}

impl Model for Patterns {
    ghost use Rattle.std.specs.Prelude.{List, map, length, ◌<◌, ◌^◌};
    ghost use Rattle.mt_kinds.specs.declared.kind.Clause.{Clause};

    ghost Value = { List (List Clause) };

    ghost view = { λ p. map (λ v. v.items) p.list.items };

    ghost invariant = { λ p. length p.list.items < 2 ^ 32 };
}

impl Patterns {
    /// The patterns with these clauses.
    pub fn new(list: Vec<Vec<Clause>>) -> Patterns
        requires { length list.items < 2 ^ 32 }
        ensures { result ≡ map (λ v. v.items) list.items }
    {
        Patterns { list }
    }

    /// How many patterns there are.
    pub fn count(&self) -> u32
        ensures { result ≡ length self.now }
    {
        self.list.len() as u32
    }

    /// The clauses of a pattern, from 0.
    pub fn clauses(&self, number: u32) -> &[Clause]
        requires { number < length self.now }
        ensures { slice_get self.now number ≡ Some result.now }
    {
        &self.list[number as usize]
    }
}

/// The class of an element, with what its arguments say. Devices are numbered from 1.
#[derive(Drop)]
pub enum Kind {
    /// Frames that arrive on a device leave it by output 0.
    FromDevice(u32),
    /// Sends frames on a device. It has no output.
    ToDevice(u32),
    /// Sends a frame to the output with the number of the first pattern that holds, and drops it where
    /// none does.
    Classifier(Patterns),
    /// Drops every frame. It has no output.
    Discard,
    /// Sends every packet on by output 0, as it is.
    Null,
    /// Sends every packet on by output 0, as it is.
    Counter,
    /// Sends every packet on by output 0, as it is.
    Queue,
    /// Gives the packet this paint.
    Paint(u8),
    /// Sends a packet to the output with the number of its paint.
    PaintSwitch,
    /// Swaps the Ethernet addresses.
    EtherMirror,
    /// Takes the Ethernet header away.
    Strip,
    /// Looks whether the packet is valid IPv4, and sends it to output 0 if so, else to output 1.
    CheckIPHeader,
    /// Puts an Ethernet header in front: the EtherType, the source and the destination address, each
    /// address as 48 bits in network order.
    EtherEncap(u16, u64, u64),
    /// Lowers the time to live by one and sends the packet to output 0; one whose time has run out goes
    /// unchanged to output 1.
    DecIPTTL,
    /// Writes the differentiated services code point, 0 to 63.
    SetIPDSCP(u8),
    /// Writes the address of one end, in network order.
    StoreIPAddress(u32, End),
    /// Sets the annotation to the destination address.
    GetIPAddress,
    /// Swaps the two ends: the addresses, and the ports where they are visible.
    IPMirror,
    /// Does with a packet what the first rule says whose pattern holds, and drops it where none does.
    IPFilter(Rules),
    /// Sends a packet to the output with the number of the first pattern that holds, and drops it where
    /// none does.
    IPClassifier(IPPatterns),
    /// Sends a packet to the output of the longest prefix that its annotation is in, with the gateway as
    /// its annotation where there is one, and drops it where no prefix has it.
    Route(Hops),
    /// Rewrites the packets of flows that have a mapping, at each input; what becomes of the others is said for
    /// each of its inputs.
    IPRewriter(Specs),
    /// Gives rewriters the template for the next mapping, one after the other. No packet comes to it.
    RoundRobinIPMapper(Templates),
}
