//! Sums, and checksums after writes.
use crate::laws::{after_two_writes, with_error, with_udp_error};
use crate::{ip_sum, l4_delta};

#[test]
fn sums(rt: HostRuntime) {
    // The example of RFC 1071, section 3; an odd byte; headers that are right.
    assert_eq!(rt;
        ip_sum(&[0x00, 0x01, 0xf2, 0x03, 0xf4, 0xf5, 0xf6, 0xf7]),
        0xddf2
    );
    assert_eq!(rt; ip_sum(&[]), 0);
    assert_eq!(rt; ip_sum(&[0x12]), 0x1200);
    assert_eq!(rt; ip_sum(&[0xff, 0xff, 0xff, 0xff]), 0xffff);
    let header = [
        0x45, 0, 0, 0x20, 0, 1, 0, 0, 0x40, 0x11, 0x46, 0x8b, 10, 0, 0, 5, 198, 51, 100, 9,
    ];
    assert_eq!(rt; ip_sum(&header), 0xffff);
    // The example of RFC 1624, section 4.
    assert_eq!(rt; l4_delta(0xdd2f, &[0x5555], &[0x3285]), 0);
    assert_eq!(rt; l4_delta(0xffff, &[], &[]), 0);
    assert_eq!(rt;
        l4_delta(0xf310, &[0x0a00, 0x0005, 0x1388], &[0xcb00, 0x7101, 0x0400]),
        0xd09b
    );
    assert_eq!(rt;
        after_two_writes(
            6,
            0x1234,
            &[0xc633, 0x6409],
            &[0xc633, 0x640a],
            &[0x0a00, 0x0005, 0x1388],
            &[0xc000, 0x0207, 0x07d0]
        ),
        0x65e8
    );
    assert_eq!(rt; after_two_writes(17, 0, &[1], &[2], &[3], &[4]), 0);
    assert_eq!(rt; with_error(0xd09b, 1, &[], &[]), 0xd09c);
    // An error of 1 in UDP, also where the checksum or the result is 65,535.
    assert_eq!(rt; with_udp_error(0xd09b, 1, &[], &[]), 0xd09c);
    assert_eq!(rt; with_udp_error(0xffff, 1, &[], &[]), 1);
    assert_eq!(rt; with_udp_error(0xfffe, 1, &[], &[]), 0xffff);
}
