//! Pools of one port and of all ports, shares that are filled and emptied, ports that are given back, turns
//! that go round, and the policies of the program.
use crate::ledger::Ledger;
use crate::policy::{Pick, Policies, Policy};
use crate::pool::PortRange;
use crate::shares::Shares;

/// Takes all ports of the first share, the lowest first: how many there were, and the last of them.
fn take_all(shares: &mut Shares) -> (u32, u16)
    requires { 0 < length shares.old }
    ensures empty { ports_at shares.new 0 ≡ [] }
    ensures pools { ranges shares.new ≡ ranges shares.old }
{
    let count = shares.count(0);
    let mut last = 0;
    while let Some(token) = shares.take(0, 0) {
        last = token.port();
    }
    (count, last)
}

/// Refills and takes all ports of the first pool: how many refills brought ports, how many came in all, and
/// the last of them.
fn take_pool(ledger: &mut Ledger, shares: &mut Shares) -> (u32, u32, u16)
    requires pool { 0 < length ledger.old.stocks }
    requires pools { ranges shares.old ≡ ranges ledger.old.stocks }
    requires empty { ports_at shares.old 0 ≡ [] }
{
    let mut all = (0, 0, 0);
    for refills in 0..3000u32 {
        let brought = ledger.refill(0, shares);
        if brought == 0 {
            return all;
        }
        let (count, last) = take_all(shares);
        all = (refills + 1, count.saturating_add(all.1), last);
    }
    all
}

/// Takes the port at a place of the first share, which is the only one, and gives it back.
fn take_and_give_back(shares: &mut Shares, range: PortRange, place: u32) -> u16
    requires there { ranges shares.old ≡ (range.lo, range.hi) ∷ [] }
    requires apart { NoneTwice (ports_at shares.old 0) }
    ensures there { ranges shares.new ≡ (range.lo, range.hi) ∷ [] }
    ensures no_more { (port : ℕ) → times port (ports_at shares.new 0) ≤ times port (ports_at shares.old 0) }
{
    if place >= shares.count(0) {
        return 0;
    }
    match shares.take(0, place) {
        Some(token) => {
            let port = token.port();
            if range.lo <= port && port <= range.hi {
                shares.give_back(token);
            }
            port
        }
        None => 0,
    }
}

/// What recalling an empty share tells, what a refill tells, the port that stands at a place before and after
/// it is taken and given back, and what recalling that share tells, and recalling it once more.
fn there_and_back(
    ledger: &mut Ledger,
    shares: &mut Shares,
    range: PortRange,
    place: u32,
) -> (u32, u32, u16, u16, u32, u32)
    requires stocks { ranges ledger.old.stocks ≡ (range.lo, range.hi) ∷ [] }
    requires shares { ranges shares.old ≡ (range.lo, range.hi) ∷ [] }
    requires empty { ports_at shares.old 0 ≡ [] }
    requires apart { NoneTwice (ports_at ledger.old.stocks 0) }
    ensures stocks { ranges ledger.new.stocks ≡ (range.lo, range.hi) ∷ [] }
    ensures shares { ranges shares.new ≡ (range.lo, range.hi) ∷ [] }
    ensures empty { ports_at shares.new 0 ≡ [] }
{
    let from_empty = ledger.recall(0, shares);
    let brought = ledger.refill(0, shares);
    let taken = take_and_give_back(shares, range, place);
    let again = take_and_give_back(shares, range, place);
    let from_full = ledger.recall(0, shares);
    let once_more = ledger.recall(0, shares);
    (from_empty, brought, taken, again, from_full, once_more)
}

#[test]
fn pools_are_given_out_from_the_lowest_port_on(rt: HostRuntime) -> Result<(), AllocError> {
    let alloc = rt.alloc();
    let pools = [
        (7, 7, 0, (0, 1, 7, 7, 1, 0), (1, 1, 7)),
        (
            65_535,
            65_535,
            0,
            (0, 1, 65_535, 65_535, 1, 0),
            (1, 1, 65_535),
        ),
        (1, 100, 0, (0, 32, 1, 1, 32, 0), (4, 100, 100)),
        (1000, 2055, 5, (0, 32, 1005, 1005, 32, 0), (33, 1056, 2055)),
        (
            0,
            65_535,
            31,
            (0, 32, 31, 31, 32, 0),
            (2048, 65_536, 65_535),
        ),
        (9, 8, 0, (0, 0, 0, 0, 0, 0), (0, 0, 0)),
    ];
    for (lo, hi, place, told, given) in pools {
        let range = PortRange { lo, hi };
        let (mut ledger, mut all) = Ledger::open(alloc, &[range], 1, &[])?;
        match all.pop() {
            Some(mut shares) => {
                assert_eq!(rt;
                    there_and_back(&mut ledger, &mut shares, range, place),
                    told
                );
                assert_eq!(rt; take_pool(&mut ledger, &mut shares), given);
            }
            None => assert!(rt; false),
        }
    }
    Ok(())
}

/// The turns of a mapper after each of four steps on, or back.
fn turns_of(ledger: &mut Ledger, mapper: u32, on: bool) -> [u32; 4]
    requires { mapper < length ledger.old.turns }
    ensures { length ledger.new.turns ≡ length ledger.old.turns }
{
    let mut turns = [0; 4];
    for step in 0..4usize {
        if on {
            ledger.advance(mapper);
        } else {
            ledger.retreat(mapper);
        }
        turns[step] = ledger.turn(mapper);
    }
    turns
}

#[test]
fn turns_go_round(rt: HostRuntime) -> Result<(), AllocError> {
    let alloc = rt.alloc();
    let (mut ledger, _shares) = Ledger::open(alloc, &[], 0, &[1, 3])?;
    assert_eq!(rt; [ledger.turn(0), ledger.turn(1)], [0, 0]);
    let ways = [
        (0, true, [0, 0, 0, 0]),
        (0, false, [0, 0, 0, 0]),
        (1, true, [1, 2, 0, 1]),
        (1, false, [0, 2, 1, 0]),
    ];
    for (mapper, on, turns) in ways {
        if mapper < 2 {
            assert_eq!(rt; turns_of(&mut ledger, mapper, on), turns);
        } else {
            assert!(rt; false);
        }
    }
    Ok(())
}

ghost use Rattle.std.specs.Prelude.{◌≡◌, ◌<◌, ◌≤◌, ◌∷◌, [], ℕ, length};
ghost use Rattle.mt_ledger.specs.Ledger.{LedgerState};
ghost use Rattle.mt_ledger.specs.Pools.{ports_at, ranges};
ghost use Rattle.mt_ledger.specs.Ports.{NoneTwice, times};

use mt_text::Text;
use std::alloc::AllocError;

#[test]
fn policies_pick_places(rt: HostRuntime) -> Result<(), AllocError> {
    let alloc = rt.alloc();
    let low: Pick = Box::new(alloc, |_hint, _count| 0)?;
    let high: Pick = Box::new(alloc, |_hint, count: u32| {
        if count == 0 { 0 } else { count - 1 }
    })?;
    let spread: Pick = Box::new(alloc, |hint: u32, count: u32| {
        if count == 0 { 0 } else { hint % count }
    })?;
    let low = Policy::new(Text::copy_of(alloc, b"low")?, low);
    let high = Policy::new(Text::copy_of(alloc, b"high")?, high);
    let spread = Policy::new(Text::copy_of(alloc, b"spread")?, spread);
    let mut policies = Policies::new(vec![in alloc; low, high, spread]?);
    let places = [
        (40_000, 1, 0, 0, 0),
        (40_001, 32, 0, 31, 1),
        (7, 3, 0, 2, 1),
    ];
    for (hint, count, low, high, spread) in places {
        let named: [(&[u8], u32); 3] = [(b"low", low), (b"high", high), (b"spread", spread)];
        for (name, place) in named {
            match policies.find(name) {
                Some(policy) if count > 0 => assert_eq!(rt; policy.pick(hint, count), place),
                _ => assert!(rt; false),
            }
        }
    }
    assert!(rt; policies.find(b"lowest").is_none());
    assert!(rt; policies.take(b"high").is_some());
    assert!(rt; policies.take(b"high").is_none());
    assert!(rt; policies.find(b"spread").is_some());
    Ok(())
}
