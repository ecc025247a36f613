//! What comes out of one element: its exit, and the bytes.

use super::{ARP, FRAGMENT, PADDED, UDP, comes_out, notes_behind};
use crate::step::{Ending, Exit};
use mt_kinds::{Clause, End, Kind, Patterns};
use mt_packet::{Cause, Layer};
use std::alloc::{AllocError, Global};

/// The patterns `12/0806 20/0001` and `0/020000000002`.
fn two_patterns(alloc: Global) -> Result<Patterns, AllocError> {
    let request = vec![in alloc; Clause::EthType(0x0806), Clause::ArpOp(1)]?;
    let address = vec![in alloc; Clause::EthDst(0x0200_0000_0002)]?;
    Ok(Patterns::new(vec![in alloc; request, address]?))
}

fn classified(alloc: Global, text: &str, wanted: Option<Exit>) -> bool {
    match two_patterns(alloc) {
        Ok(patterns) => comes_out(
            alloc,
            text,
            Layer::Frame,
            Kind::Classifier(patterns),
            wanted,
            text,
        ),
        Err(_) => false,
    }
}

#[test]
fn elements_at_ethernet(rt: HostRuntime) {
    let alloc = rt.alloc();
    let on = Some(Exit::Leaves(0));
    let short = Some(Exit::Stops(Ending::Dropped(Cause::Short)));
    let mirrored = "020000000001 020000000002 0800
        45000020 00010000 4011468b 0a000005 c6336409 13880035 000cf310 61626364";
    let bare = "45000020 00010000 4011468b 0a000005 c6336409 13880035 000cf310 61626364";
    assert!(rt; comes_out(alloc, UDP, Layer::Frame, Kind::Null, on, UDP));
    assert!(rt; comes_out(alloc, UDP, Layer::Frame, Kind::Counter, on, UDP));
    assert!(rt; comes_out(alloc, UDP, Layer::Frame, Kind::Queue, on, UDP));
    assert!(rt; comes_out(alloc, UDP, Layer::Frame, Kind::Paint(255), on, UDP));
    assert!(rt; comes_out(alloc, UDP, Layer::Frame, Kind::PaintSwitch, on, UDP));
    assert!(rt;
        comes_out(
            alloc,
            UDP,
            Layer::Frame,
            Kind::Discard,
            Some(Exit::Stops(Ending::Dropped(Cause::Discarded))),
            UDP
        )
    );
    assert!(rt;
        comes_out(
            alloc,
            UDP,
            Layer::Frame,
            Kind::ToDevice(2),
            Some(Exit::Stops(Ending::Sent(2))),
            UDP
        )
    );
    assert!(rt; comes_out(alloc, UDP, Layer::Bare, Kind::ToDevice(2), None, bare));
    assert!(rt; comes_out(alloc, UDP, Layer::Frame, Kind::EtherMirror, on, mirrored));
    assert!(rt;
        comes_out(
            alloc,
            "02000000000202000000000108",
            Layer::Frame,
            Kind::EtherMirror,
            short,
            "02000000000202000000000108"
        )
    );
    assert!(rt; comes_out(alloc, UDP, Layer::Frame, Kind::Strip, on, bare));
    assert!(rt; comes_out(alloc, UDP, Layer::Framed, Kind::Strip, on, bare));
    assert!(rt;
        comes_out(
            alloc,
            "02000000000202000000000108",
            Layer::Frame,
            Kind::Strip,
            short,
            "02000000000202000000000108"
        )
    );
    assert!(rt; classified(alloc, ARP, Some(Exit::Leaves(0))));
    assert!(rt; classified(alloc, UDP, Some(Exit::Leaves(1))));
    assert!(rt;
        classified(
            alloc,
            "020000000003 020000000001 0800",
            Some(Exit::Stops(Ending::Dropped(Cause::Classified)))
        )
    );
    // No clause holds on a frame below 14 bytes.
    assert!(rt;
        classified(
            alloc,
            "02000000000202000000000108",
            Some(Exit::Stops(Ending::Dropped(Cause::Classified)))
        )
    );
}

#[test]
fn elements_at_ip(rt: HostRuntime) {
    let alloc = rt.alloc();
    let on = Some(Exit::Leaves(0));
    let off = Some(Exit::Leaves(1));
    let encap = Kind::EtherEncap(0x0800, 0x0200_0000_000a, 0x0200_0000_000b);
    assert!(rt; comes_out(alloc, UDP, Layer::Frame, Kind::CheckIPHeader, None, UDP));
    // What follows the packet is cut off.
    assert!(rt;
        comes_out(
            alloc,
            PADDED,
            Layer::Bare,
            Kind::CheckIPHeader,
            on,
            "45000028 00020000 4006468d 0a000005 c6336409 13880050 00000001 00000000 50022000 12340000"
        )
    );
    assert!(rt;
        comes_out(
            alloc,
            ARP,
            Layer::Bare,
            Kind::CheckIPHeader,
            off,
            "00010800 06040001 020000000001 0a000005 000000000000 0a000001"
        )
    );
    assert!(rt;
        comes_out(
            alloc,
            PADDED,
            Layer::Ip,
            encap,
            on,
            "02000000000b 02000000000a 0800 45000028 00020000 4006468d 0a000005 c6336409 13880050 00000001 00000000 50022000 12340000"
        )
    );
    // The time to live is 2, 1 and 0.
    assert!(rt;
        comes_out(
            alloc,
            "020000000002 020000000001 0800 45000020 00010000 0211848b 0a000005 c6336409 13880035 000cf310 61626364",
            Layer::Ip,
            Kind::DecIPTTL,
            on,
            "45000020 00010000 0111858b 0a000005 c6336409 13880035 000cf310 61626364"
        )
    );
    assert!(rt;
        comes_out(
            alloc,
            "020000000002 020000000001 0800 45000020 00010000 0111858b 0a000005 c6336409 13880035 000cf310 61626364",
            Layer::Ip,
            Kind::DecIPTTL,
            off,
            "45000020 00010000 0111858b 0a000005 c6336409 13880035 000cf310 61626364"
        )
    );
    assert!(rt;
        comes_out(
            alloc,
            "020000000002 020000000001 0800 45000020 00010000 0011868b 0a000005 c6336409 13880035 000cf310 61626364",
            Layer::Ip,
            Kind::DecIPTTL,
            off,
            "45000020 00010000 0011868b 0a000005 c6336409 13880035 000cf310 61626364"
        )
    );
    assert!(rt;
        comes_out(
            alloc,
            UDP,
            Layer::Ip,
            Kind::SetIPDSCP(46),
            on,
            "45b80020 00010000 401145d3 0a000005 c6336409 13880035 000cf310 61626364"
        )
    );
    assert!(rt;
        comes_out(
            alloc,
            UDP,
            Layer::Ip,
            Kind::StoreIPAddress(0xc633_640a, End::Dst),
            on,
            "45000020 00010000 4011468a 0a000005 c633640a 13880035 000cf30f 61626364"
        )
    );
    assert!(rt;
        comes_out(
            alloc,
            UDP,
            Layer::Ip,
            Kind::IPMirror,
            on,
            "45000020 00010000 4011468b c6336409 0a000005 00351388 000cf310 61626364"
        )
    );
    // The ports of a later fragment are not there.
    assert!(rt;
        comes_out(
            alloc,
            FRAGMENT,
            Layer::Ip,
            Kind::IPMirror,
            on,
            "45000020 00010001 4011468a c6336409 0a000005 13880035 000cf310 61626364"
        )
    );
    assert_eq!(rt; notes_behind(alloc, Kind::GetIPAddress), (0xc633_6409, 0));
    assert_eq!(rt; notes_behind(alloc, Kind::Paint(255)), (0xc633_6409, 255));
    // The annotation stays where an address is written.
    assert_eq!(rt;
        notes_behind(alloc, Kind::StoreIPAddress(1, End::Dst)),
        (0xc633_6409, 0)
    );
    assert_eq!(rt; notes_behind(alloc, Kind::IPMirror), (0xc633_6409, 0));
}
