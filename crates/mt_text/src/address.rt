//! Addresses in words.
ghost use Rattle.std.specs.Prelude.{◌≡◌, ◌<◌, length, IfSome};
ghost use Rattle.mt_lists.specs.Cuts.{index_of};
ghost use Rattle.mt_text.specs.Address.{ipv4_address_of, is_colon, pairs_of, ethernet_address_of};

use crate::number::{decimal_up_to, hexadecimal_of_length};

/// Where a byte stands first in a word, from 0.
pub fn index_of(byte: u8, word: &[u8]) -> Option<usize>
    ensures index { result ≡ index_of byte word.now }
    ensures within { IfSome result (λ n. n < length word.now) }
{
    word.iter().position(|other| *other == byte)
}

/// An IPv4 address in dotted decimal, 32 bits in network order: four decimal numbers up to 255, joined by
/// dots.
#[tactic(auto, unfolding(crate::specs::Address::ipv4_address_of))]
pub fn ipv4_address(word: &[u8]) -> Option<u64>
    ensures value { result ≡ ipv4_address_of word.now }
    ensures range { IfSome result (λ n. n < 4294967296) }
{
    let first_dot = index_of(b'.', word)?;
    let first = decimal_up_to(255, &word[..first_dot])?;
    let word = &word[first_dot + 1..];
    let second_dot = index_of(b'.', word)?;
    let second = decimal_up_to(255, &word[..second_dot])?;
    let word = &word[second_dot + 1..];
    let third_dot = index_of(b'.', word)?;
    let third = decimal_up_to(255, &word[..third_dot])?;
    let fourth = decimal_up_to(255, &word[third_dot + 1..])?;
    Some(first * 16_777_216 + second * 65_536 + third * 256 + fourth)
}

fn is_colon(word: &[u8], at: usize) -> bool
    requires { at < length word.now }
    ensures { result ≡ is_colon word.now at }
{
    word[at] == b':'
}

/// The digits of six pairs, with one byte between two pairs.
fn pairs_of(word: &[u8]) -> [u8; 12]
    requires { length word.now ≡ 17 }
    ensures { result ≡ pairs_of word.now }
{
    [
        word[0], word[1], word[3], word[4], word[6], word[7], word[9], word[10], word[12],
        word[13], word[15], word[16],
    ]
}

/// An Ethernet address, 48 bits in network order: six pairs of hexadecimal digits joined by colons.
#[tactic(auto, unfolding(crate::specs::Address::ethernet_address_of))]
pub fn ethernet_address(word: &[u8]) -> Option<u64>
    ensures { result ≡ ethernet_address_of word.now }
{
    if word.len() == 17
        && is_colon(word, 2)
        && is_colon(word, 5)
        && is_colon(word, 8)
        && is_colon(word, 11)
        && is_colon(word, 14)
    {
        hexadecimal_of_length(12, &pairs_of(word))
    } else {
        None
    }
}
