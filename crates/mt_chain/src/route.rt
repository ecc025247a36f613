//! The entry of a route table for an address.
ghost use Rattle.std.specs.Prelude.{◌≡◌, ◌≤◌};
ghost use Rattle.mt_chain.specs.Route.{is_in, is_longer, better, route_of, IsRoute};

use mt_kinds::Hop;

/// Whether an address is in the prefix of an entry.
#[tactic(auto, unfolding(crate::specs::Route::is_in, mt_pattern::specs::Span::prefix_span))]
fn is_in(address: u64, hop: &Hop) -> bool
    ensures { result ≡ is_in address hop.now }
{
    let size = 2u64.pow(32u32.saturating_sub(u32::from(hop.length)));
    let lo = u64::from(hop.address) - u64::from(hop.address) % size;
    lo <= address && address <= lo + (size - 1)
}

/// Whether the prefix of an entry is longer than that of the entry found so far.
fn is_longer(hop: &Hop, found: &Option<Hop>) -> bool
    ensures { result ≡ is_longer hop.now found.now }
{
    match found {
        Some(found) => found.length < hop.length,
        None => true,
    }
}

/// The entry that is found with one more.
#[tactic(auto, unfolding(crate::specs::Route::better))]
fn better(address: u64, found: Option<Hop>, hop: &Hop) -> Option<Hop>
    ensures { result ≡ better address found hop.now }
{
    if is_in(address, hop) && is_longer(hop, &found) {
        Some(*hop)
    } else {
        found
    }
}

/// The entry of the longest prefix that an address is in, the first of equal ones.
#[tactic(auto, unfolding(crate::specs::Route::route_of))]
fn found(hops: &[Hop], address: u64) -> Option<Hop>
    ensures { result ≡ route_of address hops.now }
{
    let mut found = None;
    let mut rest = hops;
    while let [hop, after @ ..] = rest {
        found = better(address, found, hop);
        rest = after;
    }
    found
}

/// The entry of a route table for an address.
#[tactic(auto, using(crate::proofs::Longest::is_route))]
pub(crate) fn route(hops: &[Hop], address: u64) -> Option<Hop>
    ensures value { result ≡ route_of address hops.now }
    ensures longest { IsRoute address hops.now result }
{
    found(hops, address)
}
