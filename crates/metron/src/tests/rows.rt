//! Chains that one server serves by their classes: what is written, and what is told of ports, classes and writes.
//! Frames, checksums and counts were worked out beside the program (RFC 791, 768, 9293, 1624).
use super::rewriters::bytes;
use super::{HEADER, check, head, run_words};
use crate::Fault;
use mt_io::MemoryFiles;
use std::alloc::{AllocError, Global};
use std::process::Abort;
use std::test::Fail;

// Frames with their times, in nanoseconds.
type Frames<'a> = &'a [(u8, &'a str)];

// A row: its chain, the words behind the script, what arrives by file, what is written by file, and what is told.
#[derive(Drop)]
struct Row<'a> {
    chain: &'a str,
    words: &'a [&'a str],
    arrives: &'a [(&'a str, Frames<'a>)],
    written: &'a [(&'a str, Frames<'a>)],
    order: &'a [u32],
    picks: &'a [u16],
    classes: u32,
    writes: u64,
}

fn capture_of(alloc: Global, frames: Frames<'_>) -> Result<Vec<u8>, AllocError> {
    let mut capture = Vec::new(alloc);
    capture.extend_from_slice(&HEADER)?;
    for (time, text) in frames {
        let frame = bytes(alloc, text)?;
        capture.extend_from_slice(&head(*time, u8::try_from(frame.len()).unwrap_or(u8::MAX)))?;
        capture.extend_from_slice(&frame)?;
    }
    Ok(capture)
}

fn check_row(alloc: Global, rt: &impl Abort, row: &Row<'_>) -> Result<(), Fail> {
    let mut files = MemoryFiles::new(alloc);
    files.hold("chain", row.chain.as_bytes())?;
    files.hold("script", b"")?;
    for (name, frames) in row.arrives {
        files.hold(name, &capture_of(alloc, frames)?)?;
    }
    let mut words = Vec::new(alloc);
    words.extend_from_slice(&["run", "chain", "script"])?;
    words.extend_from_slice(row.words)?;
    let outcome = run_words(alloc, &words, &mut files)?;
    check(rt, &outcome, 0, Fault::Done, row.order);
    assert!(rt; outcome.picks() == row.picks);
    assert_eq!(rt; outcome.classes, row.classes);
    assert_eq!(rt; outcome.writes(), row.writes);
    for (name, frames) in row.written {
        let wanted = capture_of(alloc, frames)?;
        assert!(rt; files.written(name) == wanted.as_slice());
    }
    Ok(())
}

// A router that takes one from the time to live.
const HOP: &str = "FromDevice(a) -> Strip(14) -> CheckIPHeader -> d :: DecIPTTL
  -> EtherEncap(0x0800, 02:00:00:00:00:0a, 02:00:00:00:00:0b) -> ToDevice(b);
d[1] -> Discard;";

// A filter of one port.
const FILTER: &str = "FromDevice(a) -> Classifier(12/0800) -> Strip(14) -> CheckIPHeader
  -> IPFilter(deny dst port 22, allow all)
  -> EtherEncap(0x0800, 02:00:00:00:00:0a, 02:00:00:00:00:0b) -> ToDevice(b);";

const STRAIGHT_WORDS: [&str; 2] = ["in:a=x", "out:b=y"];

#[test]
fn headers_are_served_without_ports(rt: HostRuntime) -> Result<(), Fail> {
    let hop = Row {
        chain: HOP,
        words: &STRAIGHT_WORDS,
        arrives: &[(
            "x",
            &[
                (
                    1,
                    "020000000002020000000001080045000020000100000211848b0a000005c633640913880035000cf31061626364",
                ),
                (
                    2,
                    "020000000002020000000001080045000020000100000111858b0a000005c633640913880035000cf31061626364",
                ),
                (
                    3,
                    "020000000002020000000001080045000020000100000011868b0a000005c633640913880035000cf31061626364",
                ),
            ],
        )],
        written: &[(
            "y",
            &[(
                1,
                "02000000000b02000000000a080045000020000100000111858b0a000005c633640913880035000cf31061626364",
            )],
        )],
        order: &[0, 1, 2],
        picks: &[],
        classes: 4,
        writes: 4,
    };
    check_row(rt.alloc(), &rt, &hop)?;

    // A fragment that is not the first has no port, so the filter lets it through.
    let filter = Row {
        chain: FILTER,
        words: &STRAIGHT_WORDS,
        arrives: &[(
            "x",
            &[
                (
                    1,
                    "020000000002020000000001080045000020000100014011468a0a000005c633640913880016000cf31061626364",
                ),
                (
                    2,
                    "020000000002020000000001080045000020000100004011468b0a000005c633640913880016000cf32f61626364",
                ),
            ],
        )],
        written: &[(
            "y",
            &[(
                1,
                "02000000000b02000000000a080045000020000100014011468a0a000005c633640913880016000cf31061626364",
            )],
        )],
        order: &[0, 1],
        picks: &[],
        classes: 4,
        writes: 3,
    };
    check_row(rt.alloc(), &rt, &filter)
}

const TRANSLATION_WORDS: [&str; 4] = ["in:lan=x", "in:wan=y", "out:wan=p", "out:lan=q"];

// Both directions of a translation with this pool.
const TWO_PORTS: &str = "rw :: IPRewriter(pattern 203.0.113.1 1024-1025 - - 0 1, drop);
elementclass In {
  input -> c :: Classifier(12/0800, -);
  c[0] -> Strip(14) -> CheckIPHeader -> output;
  c[1] -> Discard;
}
FromDevice(lan) -> In -> [0] rw;
FromDevice(wan) -> In -> [1] rw;
rw[0] -> EtherEncap(0x0800, 02:00:00:00:00:0a, 02:00:00:00:00:0b) -> ToDevice(wan);
rw[1] -> EtherEncap(0x0800, 02:00:00:00:00:0c, 02:00:00:00:00:0d) -> ToDevice(lan);";

const THREE_PORTS: &str = "rw :: IPRewriter(pattern 203.0.113.1 1024-1026 - - 0 1, drop);
elementclass In {
  input -> c :: Classifier(12/0800, -);
  c[0] -> Strip(14) -> CheckIPHeader -> output;
  c[1] -> Discard;
}
FromDevice(lan) -> In -> [0] rw;
FromDevice(wan) -> In -> [1] rw;
rw[0] -> EtherEncap(0x0800, 02:00:00:00:00:0a, 02:00:00:00:00:0b) -> ToDevice(wan);
rw[1] -> EtherEncap(0x0800, 02:00:00:00:00:0c, 02:00:00:00:00:0d) -> ToDevice(lan);";

// A filter behind a translation looks at the new port.
const FILTERED: &str = "rw :: IPRewriter(pattern 203.0.113.1 1024-1025 - - 0 1, drop);
elementclass In {
  input -> c :: Classifier(12/0800, -);
  c[0] -> Strip(14) -> CheckIPHeader -> output;
  c[1] -> Discard;
}
FromDevice(lan) -> In -> [0] rw;
FromDevice(wan) -> In -> [1] rw;
rw[0] -> IPFilter(deny src port 1025, allow all)
  -> EtherEncap(0x0800, 02:00:00:00:00:0a, 02:00:00:00:00:0b) -> ToDevice(wan);
rw[1] -> EtherEncap(0x0800, 02:00:00:00:00:0c, 02:00:00:00:00:0d) -> ToDevice(lan);";

// Ports of a pool of which the lowest is taken: a UDP checksum stays 0, and one that becomes 0 is sent as ffff.
#[test]
fn the_lowest_port_is_taken(rt: HostRuntime) -> Result<(), Fail> {
    let translated = Row {
        chain: TWO_PORTS,
        words: &TRANSLATION_WORDS,
        arrives: &[
            (
                "x",
                &[
                    (
                        1,
                        "020000000002020000000001080045000020000100004011468b0a000005c633640913880035000c000061626364",
                    ),
                    (
                        2,
                        "020000000002020000000001080045000020000100004011468b0a000005c633640913880035000c227561626364",
                    ),
                    (
                        3,
                        "020000000002020000000001080045000020000100004011468b0a000005c633640913880035000cf31061626364",
                    ),
                ],
            ),
            ("y", &[]),
        ],
        written: &[
            (
                "p",
                &[
                    (
                        1,
                        "02000000000b02000000000a080045000020000100004011148ecb007101c633640904000035000c000061626364",
                    ),
                    (
                        2,
                        "02000000000b02000000000a080045000020000100004011148ecb007101c633640904000035000cffff61626364",
                    ),
                    (
                        3,
                        "02000000000b02000000000a080045000020000100004011148ecb007101c633640904000035000cd09b61626364",
                    ),
                ],
            ),
            ("q", &[]),
        ],
        order: &[0, 1, 2],
        picks: &[1024],
        classes: 5,
        writes: 15,
    };
    check_row(rt.alloc(), &rt, &translated)?;
    let filtered = Row {
        chain: FILTERED,
        words: &TRANSLATION_WORDS,
        arrives: &[
            (
                "x",
                &[
                    (
                        1,
                        "020000000002020000000001080045000020000100004011468b0a000005c633640913880035000cf31061626364",
                    ),
                    (
                        2,
                        "020000000002020000000001080045000020000100004011468b0a000005c633640913890035000cf30f61626364",
                    ),
                    (
                        3,
                        "020000000002020000000001080045000020000100004011468b0a000005c633640913890035000cf30f61626364",
                    ),
                ],
            ),
            ("y", &[]),
        ],
        written: &[
            (
                "p",
                &[(
                    1,
                    "02000000000b02000000000a080045000020000100004011148ecb007101c633640904000035000cd09b61626364",
                )],
            ),
            ("q", &[]),
        ],
        order: &[0, 1, 2],
        picks: &[1024, 1025],
        classes: 5,
        writes: 5,
    };
    check_row(rt.alloc(), &rt, &filtered)
}

// A packet passes two rewriters; its wrong TCP checksum stays as wrong as it was.
const TWO_REWRITERS: &str = "FromDevice(a) -> Strip(14) -> CheckIPHeader
  -> StoreIPAddress(198.51.100.10, dst)
  -> IPRewriter(pattern 203.0.113.1 1024-1025 - - 0 0)
  -> IPRewriter(pattern 192.0.2.7 2000-2001 - - 0 0)
  -> EtherEncap(0x0800, 02:00:00:00:00:0a, 02:00:00:00:00:0b) -> ToDevice(b);";

// A pool of one port, and an input that keeps flows as they are.
const KEPT: &str = "rw :: IPRewriter(pattern 203.0.113.1 1024-1024 - - 0 1, keep 0 1);
FromDevice(l) -> Strip(14) -> CheckIPHeader -> [0] rw;
FromDevice(k) -> Strip(14) -> CheckIPHeader -> [1] rw;
rw[0] -> EtherEncap(0x0800, 02:00:00:00:00:0a, 02:00:00:00:00:0b) -> ToDevice(w);
rw[1] -> Discard;";

const KEPT_WORDS: [&str; 3] = ["in:l=x", "in:k=y", "out:w=p"];

#[test]
fn rewriters_follow_each_other_and_clash(rt: HostRuntime) -> Result<(), Fail> {
    let two = Row {
        chain: TWO_REWRITERS,
        words: &STRAIGHT_WORDS,
        arrives: &[(
            "x",
            &[(
                1,
                "020000000002020000000001080045000028000200004006468d0a000005c63364091388005000000001000000005002200012340000",
            )],
        )],
        written: &[(
            "y",
            &[(
                1,
                "02000000000b02000000000a0800450000280002000040068e89c0000207c633640a07d0005000000001000000005002200065e80000",
            )],
        )],
        order: &[0],
        picks: &[1024, 2000],
        classes: 4,
        writes: 6,
    };
    check_row(rt.alloc(), &rt, &two)?;
    // The second packet takes the pool's one port, clashes with the first, and gives the port back.
    let clash = Row {
        chain: KEPT,
        words: &KEPT_WORDS,
        arrives: &[
            (
                "x",
                &[(
                    2,
                    "020000000002020000000001080045000020000100004011468b0a000005c633640913880035000cf31061626364",
                )],
            ),
            (
                "y",
                &[(
                    1,
                    "020000000002020000000001080045000020000100004011148ecb007101c633640904000035000cd09b61626364",
                )],
            ),
        ],
        written: &[(
            "p",
            &[(
                1,
                "02000000000b02000000000a080045000020000100004011148ecb007101c633640904000035000cd09b61626364",
            )],
        )],
        order: &[0, 1],
        picks: &[1024],
        classes: 5,
        writes: 3,
    };
    check_row(rt.alloc(), &rt, &clash)
}

// A router with a filter, a route table and a translation, and replies.
const ROUTER: &str = "elementclass In {
  input -> c :: Classifier(12/0806, 12/0800, -);
  c[0] -> Discard;
  c[1] -> Strip(14) -> CheckIPHeader -> output;
  c[2] -> Discard;
}
elementclass Edge { $mac, $peer |
  input -> EtherEncap(0x0800, $mac, $peer) -> Queue(200) -> output;
}
rw :: IPRewriter(pattern 203.0.113.1 1024-65535 - - 0 1, drop);
lan :: FromDevice(lan0, PROMISC true);
wan :: FromDevice(wan0, PROMISC true);
lan -> In
  -> IPFilter(deny dst port 22, deny dst net 192.168.0.0/16, allow all)
  -> DecIPTTL -> [0] rw;
wan -> In -> DecIPTTL -> [1] rw;
rw[0] -> LookupIPRoute(0.0.0.0/0 203.0.113.254 0)
  -> Edge(02:00:00:00:00:0a, 02:00:00:00:00:0b) -> ToDevice(wan0);
rw[1] -> Edge(02:00:00:00:00:0c, 02:00:00:00:00:0d) -> ToDevice(lan0);";

const ROUTER_WORDS: [&str; 4] = ["in:lan0=x", "in:wan0=y", "out:wan0=p", "out:lan0=q"];

#[test]
fn a_router_serves_both_directions(rt: HostRuntime) -> Result<(), Fail> {
    let router = Row {
        chain: ROUTER,
        words: &ROUTER_WORDS,
        arrives: &[
            (
                "x",
                &[
                    (
                        1,
                        "ffffffffffff020000000001080600010800060400010200000000010a0000050000000000000a000001",
                    ),
                    (
                        2,
                        "020000000002020000000001080045000020000100004011468b0a000005c633640913880035000cf31061626364",
                    ),
                    (
                        3,
                        "020000000002020000000001080045000028000200004006468d0a000005c633640913880016000000010000000050022000126e0000",
                    ),
                ],
            ),
            (
                "y",
                &[
                    (
                        4,
                        "020000000002020000000001080045000020000100004011148ec6336409cb00710100350400000cd09b61626364",
                    ),
                    (
                        5,
                        "020000000002020000000001080045000020000100004011148ec6336409cb007101003507d0000ccccb61626364",
                    ),
                ],
            ),
        ],
        written: &[
            (
                "p",
                &[(
                    2,
                    "02000000000b02000000000a080045000020000100003f11158ecb007101c633640904000035000cd09b61626364",
                )],
            ),
            (
                "q",
                &[(
                    4,
                    "02000000000d02000000000c080045000020000100003f11478bc63364090a00000500351388000cf31061626364",
                )],
            ),
        ],
        order: &[0, 1, 2, 3, 4],
        picks: &[1024],
        classes: 7,
        writes: 12,
    };
    check_row(rt.alloc(), &rt, &router)
}

const HIGH_WORDS: [&str; 6] = [
    "in:lan=x",
    "in:wan=y",
    "out:wan=p",
    "out:lan=q",
    "--ports",
    "high",
];

const SPREAD_WORDS: [&str; 5] = [
    "--ports=spread",
    "in:lan=x",
    "in:wan=y",
    "out:wan=p",
    "out:lan=q",
];

// The policy picks the last port.
#[test]
fn the_policy_high_picks_the_last_port(rt: HostRuntime) -> Result<(), Fail> {
    let high = Row {
        chain: TWO_PORTS,
        words: &HIGH_WORDS,
        arrives: &[
            (
                "x",
                &[(
                    1,
                    "020000000002020000000001080045000020000100004011468b0a000005c633640913880035000cf31061626364",
                )],
            ),
            ("y", &[]),
        ],
        written: &[(
            "p",
            &[(
                1,
                "02000000000b02000000000a080045000020000100004011148ecb007101c633640904010035000cd09a61626364",
            )],
        )],
        order: &[0],
        picks: &[1025],
        classes: 5,
        writes: 5,
    };
    check_row(rt.alloc(), &rt, &high)
}

// The policy picks the port at the place of the source port of the flow.
#[test]
fn the_policy_spread_picks_by_the_source_port(rt: HostRuntime) -> Result<(), Fail> {
    let spread = Row {
        chain: THREE_PORTS,
        words: &SPREAD_WORDS,
        arrives: &[
            (
                "x",
                &[
                    (
                        1,
                        "020000000002020000000001080045000020000100004011468b0a000005c6336409138a0035000cf30e61626364",
                    ),
                    (
                        2,
                        "020000000002020000000001080045000020000100004011468b0a000005c633640913880035000cf31061626364",
                    ),
                ],
            ),
            ("y", &[]),
        ],
        written: &[(
            "p",
            &[
                (
                    1,
                    "02000000000b02000000000a080045000020000100004011148ecb007101c633640904010035000cd09a61626364",
                ),
                (
                    2,
                    "02000000000b02000000000a080045000020000100004011148ecb007101c633640904000035000cd09b61626364",
                ),
            ],
        )],
        order: &[0, 1],
        picks: &[1025, 1024],
        classes: 5,
        writes: 10,
    };
    check_row(rt.alloc(), &rt, &spread)
}

#[test]
fn a_policy_that_is_not_known_is_told(rt: HostRuntime) -> Result<(), Fail> {
    let mut files = MemoryFiles::new(rt.alloc());
    let words = [
        "run", "chain", "script", "in:a=x", "out:b=y", "--ports", "none",
    ];
    let outcome = run_words(rt.alloc(), &words, &mut files)?;
    check(&rt, &outcome, 1, Fault::UsageWord(6), &[]);
    Ok(())
}

// More frames than the queue of a server has room for.
#[test]
fn many_frames_are_served_in_their_order(rt: HostRuntime) -> Result<(), Fail> {
    let alloc = rt.alloc();
    let frame = bytes(
        alloc,
        "020000000002020000000001080045000020000100004011468b0a000005c633640913880035000cf31061626364",
    )?;
    let mut capture = Vec::new(alloc);
    capture.extend_from_slice(&HEADER)?;
    for _ in 0..1025 {
        capture.extend_from_slice(&head(1, 46))?;
        capture.extend_from_slice(&frame)?;
    }
    let mut files = MemoryFiles::new(alloc);
    files.hold("chain", HOP.as_bytes())?;
    files.hold("script", b"")?;
    files.hold("x", &capture)?;
    let words = ["run", "chain", "script", "in:a=x", "out:b=y"];
    let outcome = run_words(alloc, &words, &mut files)?;
    assert!(rt; outcome.fault == Fault::Done);
    assert_eq!(rt; outcome.order().len(), 1025);
    for (place, number) in outcome.order().iter().enumerate() {
        assert_eq!(rt; *number as usize, place);
    }
    assert_eq!(rt; outcome.writes(), 4100);
    assert_eq!(rt; files.written("y").len(), capture.len());
    Ok(())
}
