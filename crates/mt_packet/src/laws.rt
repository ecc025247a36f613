//! Laws of writes and of checksums. The contract of each function is the law.
ghost use Rattle.std.specs.Prelude.{◌≡◌, ◌↔◌, ◌+◌, ◌%◌, ◌<◌, ◌++◌, List, ℕ, true};
ghost use Rattle.mt_packet.specs.Ipv4.{is_valid_ipv4, IsValidIpv4};
ghost use Rattle.mt_packet.specs.Checksum.{ones_complement, checksum_after_write, transport_after_write};
ghost use Rattle.mt_packet.specs.WriteLaws.{WritesStayAllowed, LastWriteWins, WritesCommute, SameWriteKeeps, WrittenSumsSettle, CheckSettles, WriteSettles};

use crate::checksum::{l4_delta, transport_delta, with_carry};

/// A field that can be written can be written after every other write.
pub fn writes_stay_allowed()
    ensures { WritesStayAllowed }
{}

/// The last write of a field wins.
pub fn last_write_wins()
    ensures { LastWriteWins }
{}

/// Writes of two fields give the same packet in either order.
pub fn writes_commute()
    ensures { WritesCommute }
{}

/// A write of the value that the field has changes nothing, exactly where the checksums that it mends have
/// their written form.
pub fn same_write_keeps()
    ensures { SameWriteKeeps }
{}

/// Checksums in their written form are so for every field.
pub fn written_sums_settle()
    ensures { WrittenSumsSettle }
{}

/// A check gives checksums their written form, at every layer.
pub fn check_settles()
    ensures { CheckSettles }
{}

/// Every write keeps the written form of checksums.
pub fn write_settles()
    ensures { WriteSettles }
{}

/// The test of valid IPv4 answers true exactly on what is valid.
pub fn valid_where_tested()
    ensures { (datagram : List ℕ) → (is_valid_ipv4 datagram ≡ true) ↔ IsValidIpv4 datagram }
{}

/// Two writes, one after the other, leave the checksum that one write of both leaves, in TCP and in
/// UDP.
pub fn after_two_writes(
    protocol: u8,
    field: u16,
    first_old: &[u16],
    first_new: &[u16],
    second_old: &[u16],
    second_new: &[u16],
) -> u16
    ensures { result
        ≡ transport_after_write protocol field (first_old.now ++ second_old.now)
        (first_new.now ++ second_new.now) }
{
    let between = transport_delta(protocol, field, first_old, first_new);
    transport_delta(protocol, between, second_old, second_new)
}

/// An error in a TCP checksum stays the same error through a write.
pub fn with_error(field: u16, error: u16, old: &[u16], new: &[u16]) -> u16
    ensures { result ≡ (checksum_after_write field old.now new.now + error) % 65535 }
{
    let wrong = (u32::from(field) + u32::from(error)) % 65_535;
    l4_delta(wrong as u16, old, new)
}

/// An error in a UDP checksum stays the same error through a write, where there is a checksum. Both are
/// written 1 to 65,535.
#[tactic(auto, using(crate::proofs::Sums::udp_error))]
pub fn with_udp_error(field: u16, error: u16, old: &[u16], new: &[u16]) -> u16
    requires { 0 < field }
    ensures { result ≡ ones_complement (transport_after_write 17 field old.now new.now + error) }
{
    let wrong = with_carry(field, error);
    transport_delta(17, wrong, old, new)
}
