//! Filters, classifiers of IP packets, and route tables.
ghost use Rattle.std.specs.Prelude.{◌≡◌};

use super::{UDP, bring, comes_out, packet};
use crate::step::{Ending, Exit, pass};
use mt_kinds::{End, Kind, kind_of};
use mt_packet::{Cause, Field, Layer};
use mt_text::Text;
use std::alloc::Global;

/// What a class stands for with these arguments.
fn made(alloc: Global, class: &str, texts: &[&str]) -> Option<Kind> {
    let mut arguments = Vec::new(alloc);
    for text in texts {
        arguments
            .push(Text::copy_of(alloc, text.as_bytes()).ok()?)
            .ok()?;
    }
    if arguments.len() > 100 {
        return None;
    }
    kind_of(alloc, class.as_bytes(), &arguments).ok()?
}

fn filter(alloc: Global, rules: &[&str]) -> Option<Kind> {
    made(alloc, "IPFilter", rules)
}

fn ip_classifier(alloc: Global, patterns: &[&str]) -> Option<Kind> {
    made(alloc, "IPClassifier", patterns)
}

/// Whether the UDP packet comes out of an element at layer Ip so, as it is.
fn lets(alloc: Global, kind: Option<Kind>, wanted: Exit) -> bool {
    let bare = "45000020 00010000 4011468b 0a000005 c6336409 13880035 000cf310 61626364";
    match kind {
        Some(kind) => comes_out(alloc, UDP, Layer::Ip, kind, Some(wanted), bare),
        None => false,
    }
}

/// The way of a UDP packet to a destination at a route table, and its annotation behind it.
#[tactic(auto, using(crate::proofs::Sound::at_frame))]
fn routed(alloc: Global, hops: &[&str], destination: u32) -> Option<(Exit, u64)> {
    let mut packet = packet(alloc, UDP)?;
    bring(&mut packet, Layer::Ip);
    pass(&Kind::StoreIPAddress(destination, End::Dst), &mut packet);
    pass(&Kind::GetIPAddress, &mut packet);
    let table = made(alloc, "LookupIPRoute", hops)?;
    let exit = pass(&table, &mut packet)?;
    Some((exit, packet.field(Field::Annotation)))
}

#[test]
fn filters_and_route_tables(rt: HostRuntime) {
    let alloc = rt.alloc();
    let filtered = Exit::Stops(Ending::Dropped(Cause::Filtered));
    let first = filter(alloc, &["3 udp port 53", "0 udp"]);
    assert!(rt; lets(alloc, first, Exit::Leaves(3)));
    let denied = filter(alloc, &["deny udp", "0 all"]);
    assert!(rt; lets(alloc, denied, filtered));
    let allowed = filter(
        alloc,
        &["drop dst host 10.0.0.5", "allow src host 10.0.0.5"],
    );
    assert!(rt; lets(alloc, allowed, Exit::Leaves(0)));
    let unmatched = filter(alloc, &["0 tcp", "1 dst port 54"]);
    assert!(rt; lets(alloc, unmatched, filtered));
    let greatest = filter(alloc, &["511 -"]);
    assert!(rt; lets(alloc, greatest, Exit::Leaves(511)));
    assert!(rt;
        lets(
            alloc,
            ip_classifier(alloc, &["tcp", "udp port 53"]),
            Exit::Leaves(1)
        )
    );
    assert!(rt;
        lets(
            alloc,
            ip_classifier(alloc, &["udp", "udp port 53"]),
            Exit::Leaves(0)
        )
    );
    assert!(rt; lets(alloc, ip_classifier(alloc, &["tcp", "icmp"]), filtered));
    // What is not checked is not taken.
    if let Some(kind) = filter(alloc, &["0 all"]) {
        assert!(rt; comes_out(alloc, UDP, Layer::Frame, kind, None, UDP));
    }
    // 192.0.2.1
    let gateway: u32 = 0xc000_0201;
    let everything = "0.0.0.0/0 192.0.2.1 0";
    let network = "10.0.0.0/8 1";
    let host = "10.0.0.5/32 2";
    let ways: [(u32, u32); 7] = [
        (0x09ff_ffff, 0),
        (0x0a00_0000, 1),
        (0x0a00_0004, 1),
        (0x0a00_0005, 2),
        (0x0a00_0006, 1),
        (0x0aff_ffff, 1),
        (0x0b00_0000, 0),
    ];
    for (destination, out) in ways {
        let annotation = if out == 0 { gateway } else { destination };
        let wanted = Some((Exit::Leaves(out), u64::from(annotation)));
        assert!(rt; routed(alloc, &[everything, network, host], destination) == wanted);
        assert!(rt; routed(alloc, &[host, everything, network], destination) == wanted);
    }
    let lost = Some((Exit::Stops(Ending::Dropped(Cause::NoRoute)), 0x0b00_0000));
    assert!(rt; routed(alloc, &[network, host], 0x0b00_0000) == lost);
    // Bits of the address past the length do not count, and the first of equal prefixes is taken.
    let same = "10.9.9.9/8 192.0.2.1 4";
    let first = Some((Exit::Leaves(4), u64::from(gateway)));
    assert!(rt; routed(alloc, &[same, network], 0x0a00_0006) == first);
    let first = Some((Exit::Leaves(1), 0x0a00_0006));
    assert!(rt; routed(alloc, &[network, same], 0x0a00_0006) == first);
}
