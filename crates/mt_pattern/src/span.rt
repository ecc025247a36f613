//! Prefixes of addresses and ranges of ports in words.
ghost use Rattle.std.specs.Prelude.{◌≡◌, ◌<◌, ◌≤◌};
ghost use Rattle.mt_pattern.specs.Span.{prefix_span, prefix_at, prefix_of, ports_at, ports_of};

use mt_packet::Span;
use mt_text::{decimal_up_to, index_of, ipv4_address, number_up_to};

/// The addresses that agree with this one in its first `length` bits.
#[tactic(auto, unfolding(crate::specs::Span::prefix_span))]
fn prefix_span(address: u64, length: u64) -> Span
    requires address { address < 4294967296 }
    requires length { length ≤ 32 }
    ensures { result ≡ prefix_span address length }
{
    let size = 2u64.pow((32 - length) as u32);
    let lo = address - address % size;
    Span {
        lo,
        hi: lo + (size - 1),
    }
}

/// The addresses of a prefix: an address, `/` and 0 to 32, where bits past the length do not count, or
/// an address alone.
#[tactic(auto, unfolding(crate::specs::Span::prefix_at))]
pub fn prefix(word: &[u8]) -> Option<Span>
    ensures { result ≡ prefix_of word.now }
{
    match index_of(b'/', word) {
        None => {
            let address = ipv4_address(word)?;
            Some(Span {
                lo: address,
                hi: address,
            })
        }
        Some(slash) => {
            let address = ipv4_address(&word[..slash])?;
            let length = decimal_up_to(32, &word[slash + 1..])?;
            Some(prefix_span(address, length))
        }
    }
}

/// A port, or a first and a last port joined by `-`, the first no greater than the last.
#[tactic(auto, unfolding(crate::specs::Span::ports_at))]
pub(crate) fn ports(word: &[u8]) -> Option<Span>
    ensures { result ≡ ports_of word.now }
{
    match index_of(b'-', word) {
        None => {
            let port = number_up_to(65_535, word)?;
            Some(Span { lo: port, hi: port })
        }
        Some(dash) => {
            let lo = number_up_to(65_535, &word[..dash])?;
            let hi = number_up_to(65_535, &word[dash + 1..])?;
            (lo <= hi).then_some(Span { lo, hi })
        }
    }
}
