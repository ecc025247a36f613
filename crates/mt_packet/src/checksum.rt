//! The checksums of IPv4, TCP and UDP (RFC 1071, RFC 1624).
ghost use Rattle.std.specs.Prelude.{◌≡◌, ◌+◌, ◌%◌, ◌≤◌};
ghost use Rattle.mt_packet.specs.Checksum.{words_of, negative_of, ones_complement, ones_complement_sum, checksum_after_write, transport_after_write};

/// The ones' complement sum of the 16-bit words of the bytes, in network order (RFC 1071). A last
/// odd byte counts as the high byte of a word. The sum of a header with its checksum in it is
/// 0xFFFF where the checksum is right.
pub fn ip_sum(bytes: &[u8]) -> u16
    ensures { result ≡ ones_complement_sum (words_of bytes.now) }
{
    let mut total: u16 = 0;
    let mut offset = 0;
    while offset + 1 < bytes.len() {
        let word = u16::from(bytes[offset]) * 256 + u16::from(bytes[offset + 1]);
        total = with_carry(total, word);
        offset += 2;
    }
    if offset < bytes.len() {
        return with_carry(total, u16::from(bytes[offset]) * 256);
    }
    total
}

/// The sum of two words, with what is past 16 bits carried round to the low end.
#[tactic(auto, using(std::proofs::lemmas::Bool::Decides::nat_tests))]
pub(crate) fn with_carry(total: u16, word: u16) -> u16
    ensures { result ≡ ones_complement (total + word) }
{
    let plain = u32::from(total) + u32::from(word);
    if plain > 0xFFFF {
        (plain - 0xFFFF) as u16
    } else {
        plain as u16
    }
}

/// A checksum in which words have been replaced: the field, with the old words added and the new words
/// taken away, modulo 65,535 (RFC 1624), from 0 to 65,534.
pub fn l4_delta(field: u16, old: &[u16], new: &[u16]) -> u16
    ensures { result ≡ checksum_after_write field old.now new.now }
{
    let mut total = u64::from(field) % 65_535;
    for word in old {
        total = (total + u64::from(*word)) % 65_535;
    }
    for word in new {
        total = (total + 65_535 - u64::from(*word) % 65_535) % 65_535;
    }
    total as u16
}

/// The same for a header checksum, where at most two words have been replaced: by the sums of these words.
pub(crate) fn header_delta(field: u16, old: u32, new: u32) -> u16
    requires old_words { old ≤ 131070 }
    requires new_words { new ≤ 131070 }
    ensures { result ≡ (field + old + negative_of new) % 65535 }
{
    ((u32::from(field) + old + 131_070 - new) % 65_535) as u16
}

/// The transport checksum in which words have been replaced. In UDP a field of 0 means that there is
/// no checksum and stays; a result of 0 is written 65,535 (RFC 768).
pub(crate) fn transport_delta(protocol: u8, field: u16, old: &[u16], new: &[u16]) -> u16
    ensures { result ≡ transport_after_write protocol field old.now new.now }
{
    let after = l4_delta(field, old, new);
    if protocol != 17 {
        return after;
    }
    if field == 0 {
        0
    } else if after == 0 {
        0xFFFF
    } else {
        after
    }
}
