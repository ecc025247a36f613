//! The arguments of a route table.
ghost use Rattle.std.specs.Prelude.{◌≡◌, ◌<◌, ◌≤◌, length, map, IfOk, IfSome, option_map};
ghost use Rattle.std.specs.List.{All};
ghost use Rattle.mt_lists.specs.Options.{each};
ghost use Rattle.mt_kinds.specs.Outputs.{HopInRange};
ghost use Rattle.mt_kinds.specs.Routes.{network_of, net_at, net_of, hop_in, hop_of, hops_of};

use crate::argument::{GREATEST_OUTPUT, words};
use crate::hop::{Hop, Hops};
use mt_text::{Text, decimal_up_to, index_of, ipv4_address, number_up_to};
use std::alloc::{AllocError, Global};

/// The address with 0 in the bits past a length.
fn network_of(address: u64, length: u64) -> u64
    requires { length ≤ 32 }
    ensures { result ≡ network_of address length }
{
    address - address % 2u64.pow((32 - length) as u32)
}

/// A prefix, as its address and its length: an address, `/` and 0 to 32, where the bits of the address past
/// the length are taken as 0, or an address alone.
#[tactic(auto, unfolding(crate::specs::Routes::net_at))]
fn net(word: &[u8]) -> Option<(u64, u64)>
    ensures value { result ≡ net_of word.now }
    ensures address { IfSome result (λ n. n.0 < 4294967296) }
    ensures size { IfSome result (λ n. n.1 ≤ 32) }
{
    match index_of(b'/', word) {
        None => {
            let address = ipv4_address(word)?;
            Some((address, 32))
        }
        Some(slash) => {
            let address = ipv4_address(&word[..slash])?;
            let length = decimal_up_to(32, &word[slash + 1..])?;
            Some((network_of(address, length), length))
        }
    }
}

/// An entry of a route table by its words: a prefix, perhaps a gateway, and an output.
#[tactic(auto, unfolding(crate::specs::Routes::hop_in))]
fn hop_in(words: &[&[u8]]) -> Option<Hop>
    ensures value { result ≡ hop_in (map (λ x. x.now) words.now) }
    ensures range { IfSome result HopInRange }
{
    match words {
        [prefix, last] => {
            let (address, length) = net(prefix)?;
            let out = number_up_to(GREATEST_OUTPUT, last)?;
            Some(Hop {
                address: address as u32,
                length: length as u8,
                gateway: None,
                out: out as u32,
            })
        }
        [prefix, second, last] => {
            let (prefix, length) = net(prefix)?;
            let gateway = ipv4_address(second)?;
            let out = number_up_to(GREATEST_OUTPUT, last)?;
            Some(Hop {
                address: prefix as u32,
                length: length as u8,
                gateway: Some(gateway as u32),
                out: out as u32,
            })
        }
        _ => None,
    }
}

/// An entry of a route table.
fn hop(alloc: Global, argument: &[u8]) -> Result<Option<Hop>, AllocError>
    ensures value { IfOk result (λ found. found ≡ hop_of argument.now) }
    ensures range { IfOk result (λ found. IfSome found HopInRange) }
{
    let words = words(alloc, argument)?;
    Ok(hop_in(&words))
}

/// The entries that arguments are, None where one is none.
fn each_hop(alloc: Global, arguments: &[Text]) -> Result<Option<Vec<Hop>>, AllocError>
    ensures hops { IfOk result (λ found. option_map (λ v. v.items) found ≡ each hop_of arguments.now) }
    ensures range { IfOk result (λ found. IfSome found (λ v. All HopInRange v.items)) }
{
    let mut hops = Vec::new(alloc);
    for argument in arguments {
        match hop(alloc, argument.bytes())? {
            Some(found) => hops.push(found)?,
            None => return Ok(None),
        }
    }
    Ok(Some(hops))
}

/// The entries that a route table has by its arguments. None where an argument is no entry, or there is none.
#[tactic(auto, unfolding(crate::specs::Routes::hops_of))]
pub(crate) fn hops_of(alloc: Global, arguments: &[Text]) -> Result<Option<Hops>, AllocError>
    ensures { IfOk result (λ found. found ≡ hops_of arguments.now) }
{
    if arguments.is_empty() {
        return Ok(None);
    }
    match each_hop(alloc, arguments)? {
        Some(hops) => Ok(Some(Hops::new(hops))),
        None => Ok(None),
    }
}
