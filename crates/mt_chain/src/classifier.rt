//! The patterns of a `Classifier`.
ghost use Rattle.std.specs.Prelude.{◌≡◌, position};
ghost use Rattle.std.specs.Bool.{OnTrue};
ghost use Rattle.mt_packet.specs.Packet.{HasEthernet};
ghost use Rattle.mt_chain.specs.Classifier.{is_whole, has_value, clause_holds, pattern_holds, value_of};

use mt_kinds::{Clause, Patterns};
use mt_packet::{Field, Packet};

/// Whether the packet has an Ethernet header of 14 bytes.
pub(crate) fn is_whole(packet: &Packet) -> bool
    ensures value { result ≡ is_whole packet.now }
    ensures there { OnTrue result (HasEthernet packet.now) }
{
    packet.has_whole_ethernet()
}

/// Whether the field of a clause has its value.
fn has_value(clause: Clause, packet: &Packet) -> bool
    ensures { result ≡ has_value packet.now clause }
{
    match clause {
        Clause::EthType(value) => packet.field(Field::EthType) == u64::from(value),
        Clause::EthDst(value) => packet.field(Field::EthDst) == value,
        Clause::EthSrc(value) => packet.field(Field::EthSrc) == value,
        Clause::ArpOp(value) => packet.field(Field::ArpOp) == u64::from(value),
    }
}

/// Whether a clause holds on a packet: on none below 14 bytes.
fn clause_holds(clause: Clause, packet: &Packet) -> bool
    ensures { result ≡ clause_holds packet.now clause }
{
    is_whole(packet) && has_value(clause, packet)
}

/// Whether all clauses of a pattern hold.
fn pattern_holds(clauses: &[Clause], packet: &Packet) -> bool
    ensures { result ≡ pattern_holds packet.now clauses.now }
{
    clauses.iter().all(|clause| clause_holds(*clause, packet))
}

/// The number of the first pattern that holds.
pub(crate) fn first_pattern(patterns: &Patterns, packet: &Packet) -> Option<u32>
    ensures { result ≡ position (pattern_holds packet.now) patterns.now }
{
    for number in 0..patterns.count() {
        if pattern_holds(patterns.clauses(number), packet) {
            return Some(number);
        }
    }
    None
}
