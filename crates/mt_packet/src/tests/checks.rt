//! Packets on their way: stripped, checked, looked at.
use super::{arrived, bytes, frame};
use crate::{Field, Flow, Frame, Layer};
use std::alloc::Global;

/// The datagram of a packet after the check, where it is valid.
fn checked(alloc: Global, text: &str) -> Option<Frame> {
    let mut packet = arrived(frame(alloc, text)?, 1);
    if !packet.strip() || !packet.check_ip() {
        return None;
    }
    Some(packet.into_stamped().frame)
}

#[test]
fn packets_are_checked(rt: HostRuntime) {
    let rows = [
        // A header checksum of 65,535 is written 0, and one of 0 stays.
        (
            "020000000002 020000000001 0800 45000020 468c0000 4011ffff 0a000005 c6336409 13880035 000cffff 61626364",
            "45000020 468c0000 40110000 0a000005 c6336409 13880035 000cffff 61626364",
        ),
        (
            "020000000002 020000000001 0800 45000020 468c0000 40110000 0a000005 c6336409 13880035 000c0000 61626364",
            "45000020 468c0000 40110000 0a000005 c6336409 13880035 000c0000 61626364",
        ),
        // So is a TCP checksum, but not in a later fragment.
        (
            "020000000002 020000000001 0800 45000028 00020000 4006468d 0a000005 c6336409 13880050 00000001 00000000 50022000 ffff0000",
            "45000028 00020000 4006468d 0a000005 c6336409 13880050 00000001 00000000 50022000 00000000",
        ),
        (
            "020000000002 020000000001 0800 45000028 00020001 4006468c 0a000005 c6336409 13880050 00000001 00000000 50022000 ffff0000",
            "45000028 00020001 4006468c 0a000005 c6336409 13880050 00000001 00000000 50022000 ffff0000",
        ),
    ];
    for (text, want) in rows {
        let want = bytes(rt.alloc(), want).expect(&rt, "memory");
        let frame = checked(rt.alloc(), text).expect(&rt, "a checked packet");
        assert_eq!(rt; frame.bytes(), want.as_slice(), "{text}");
    }
    let wrong =
        "020000000002 020000000001 0800 45000020 00010000 4011468c 0a000005 c6336409 13880035 000cf310 61626364";
    assert_eq!(rt; checked(rt.alloc(), wrong).is_some(), false);
    assert_eq!(rt;
        checked(rt.alloc(), "020000000002 020000000001 08").is_some(),
        false
    );
    // A packet on its way.
    let text =
        "020000000002 020000000001 0800 45000020 00010000 4011468b 0a000005 c6336409 13880035 000cf310 61626364";
    let mut packet = arrived(frame(rt.alloc(), text).expect(&rt, "memory"), 2);
    assert_eq!(rt; packet.has_whole_ethernet(), true);
    if !packet.strip() {
        return;
    }
    assert_eq!(rt; packet.layer(), Layer::Bare);
    assert_eq!(rt; packet.field(Field::EthType), 65_536);
    assert_eq!(rt; packet.field(Field::EthDst), 0);
    assert_eq!(rt; packet.field(Field::Sport), 5000);
    assert_eq!(rt; packet.field(Field::Annotation), 0);
    assert_eq!(rt; packet.check_ip(), true);
    assert_eq!(rt; packet.layer(), Layer::Ip);
    assert_eq!(rt; packet.field(Field::Annotation), 0xc633_6409);
    let flow = Flow {
        proto: 17,
        sa: 0x0a00_0005,
        sp: 5000,
        da: 0xc633_6409,
        dp: 53,
    };
    assert_eq!(rt; packet.flow(), Some(flow));
    let stamped = packet.into_stamped();
    assert_eq!(rt; (stamped.stamp, stamped.device, stamped.number), (7, 2, 3));
    assert_eq!(rt; stamped.frame.bytes().len(), 32);
}
