//! What is written of the frames of a capture.
use super::{ARP, HEADER, STRAIGHT, UDP, check, files, head, joined, run};
use crate::Fault;
use mt_pcap::PcapFault;
use std::process::Abort;
use std::test::Fail;

const IPV4: &str =
    "FromDevice(a) -> c :: Classifier(12/0800, -); c[0] -> ToDevice(b); c[1] -> Discard;";

// The packet of each frame behind another Ethernet header.
const FORWARD: &str = "FromDevice(a) -> Strip(14) -> CheckIPHeader
    -> EtherEncap(0x0800, 02:00:00:00:00:0a, 02:00:00:00:00:0b) -> ToDevice(b);";

// The same with one hop less to live.
const ROUTER: &str = "FromDevice(a) -> Strip(14) -> CheckIPHeader -> DecIPTTL
    -> EtherEncap(0x0800, 02:00:00:00:00:0a, 02:00:00:00:00:0b) -> ToDevice(b);";

// The router made of compound classes, with its wires in another order than its elements.
const COMPOUND: &str = "
    elementclass In {
      input -> c :: Classifier(12/0800, -);
      c[0] -> Strip(14) -> CheckIPHeader -> output;
      c[1] -> Discard;
    }
    encap :: EtherEncap(0x0800, 02:00:00:00:00:0a, 02:00:00:00:00:0b) -> ToDevice(b);
    hop :: DecIPTTL -> encap; // an open output 1
    FromDevice(a) -> In -> hop;";

// Packets to port 22 are denied.
const FILTER: &str = "FromDevice(a) -> Classifier(12/0800) -> Strip(14) -> CheckIPHeader
    -> IPFilter(deny dst port 22, allow all)
    -> EtherEncap(0x0800, 02:00:00:00:00:0a, 02:00:00:00:00:0b) -> ToDevice(b);";

// A TCP packet from 10.0.0.5:5000 to 198.51.100.9:80 with the wrong checksum 1234, and 6 bytes of zero
// behind it.
const PADDED: [u8; 60] = [
    0x02, 0x00, 0x00, 0x00, 0x00, 0x02, 0x02, 0x00, 0x00, 0x00, 0x00, 0x01, 0x08, 0x00, 0x45, 0x00,
    0x00, 0x28, 0x00, 0x02, 0x00, 0x00, 0x40, 0x06, 0x46, 0x8d, 0x0a, 0x00, 0x00, 0x05, 0xc6, 0x33,
    0x64, 0x09, 0x13, 0x88, 0x00, 0x50, 0x00, 0x00, 0x00, 0x01, 0x00, 0x00, 0x00, 0x00, 0x50, 0x02,
    0x20, 0x00, 0x12, 0x34, 0x00, 0x00, 0, 0, 0, 0, 0, 0,
];

// The Ethernet header that `FORWARD` and `ROUTER` put in front.
const ETHERNET: [u8; 14] = [
    0x02, 0x00, 0x00, 0x00, 0x00, 0x0b, 0x02, 0x00, 0x00, 0x00, 0x00, 0x0a, 0x08, 0x00,
];

// A big-endian capture in microseconds with the MAC addresses and the EtherType of a frame.
const MICROSECONDS: [u8; 54] = [
    0xa1, 0xb2, 0xc3, 0xd4, 0x00, 0x02, 0x00, 0x04, 0, 0, 0, 0, 0, 0, 0, 0, 0x00, 0x00, 0xff, 0xff,
    0x00, 0x00, 0x00, 0x01, 0x00, 0x00, 0x00, 0x01, 0x00, 0x00, 0x00, 0x02, 0x00, 0x00, 0x00, 0x0e,
    0x00, 0x00, 0x00, 0x0e, 0x02, 0x00, 0x00, 0x00, 0x00, 0x02, 0x02, 0x00, 0x00, 0x00, 0x00, 0x01,
    0x08, 0x00,
];

// The record of that frame as it is written.
const REWRITTEN: [u8; 30] = [
    0x01, 0x00, 0x00, 0x00, 0xd0, 0x07, 0x00, 0x00, 0x0e, 0x00, 0x00, 0x00, 0x0e, 0x00, 0x00, 0x00,
    0x02, 0x00, 0x00, 0x00, 0x00, 0x02, 0x02, 0x00, 0x00, 0x00, 0x00, 0x01, 0x08, 0x00,
];

// The UDP packet with that time to live and the first byte of its header checksum.
fn with_time_to_live(time_to_live: u8, checksum: u8) -> [u8; 46] {
    let mut frame = UDP;
    frame[22] = time_to_live;
    frame[24] = checksum;
    frame
}

// Runs a chain over a capture, and compares what is written.
fn sends(
    rt: &(impl Abort + AllocGlobal),
    chain: &str,
    capture: &[&[u8]],
    fault: Fault,
    order: &[u32],
    wanted: &[&[u8]],
) -> Result<(), Fail> {
    let alloc = rt.alloc();
    let capture = joined(alloc, capture)?;
    let mut files = files(alloc, chain, &capture)?;
    let outcome = run(alloc, &mut files)?;
    let status = if fault == Fault::Done { 0 } else { 5 };
    check(rt, &outcome, status, fault, order);
    let wanted = joined(alloc, wanted)?;
    assert_eq!(rt; files.written("out"), wanted.as_slice());
    Ok(())
}

#[test]
fn frames_are_written_as_the_chain_sends_them(rt: HostRuntime) -> Result<(), Fail> {
    let done = Fault::Done;
    // A capture with no record gives a header.
    sends(&rt, STRAIGHT, &[&HEADER], done, &[], &[&HEADER])?;

    // A classifier keeps one frame of two.
    sends(
        &rt,
        IPV4,
        &[&HEADER, &head(1, 46), &UDP, &head(2, 42), &ARP],
        done,
        &[0, 1],
        &[&HEADER, &head(1, 46), &UDP],
    )?;

    // What follows a packet is cut off.
    sends(
        &rt,
        FORWARD,
        &[&HEADER, &head(1, 60), &PADDED],
        done,
        &[0],
        &[&HEADER, &head(1, 54), &ETHERNET, &PADDED[14..54]],
    )?;

    // A router drops packets at their last hop.
    let two_hops = with_time_to_live(2, 0x84);
    let one_hop = with_time_to_live(1, 0x85);
    let no_hop = with_time_to_live(0, 0x86);
    sends(
        &rt,
        ROUTER,
        &[
            &HEADER,
            &head(1, 46),
            &two_hops,
            &head(2, 46),
            &one_hop,
            &head(3, 46),
            &no_hop,
        ],
        done,
        &[0, 1, 2],
        &[&HEADER, &head(1, 46), &ETHERNET, &one_hop[14..]],
    )?;

    sends(
        &rt,
        COMPOUND,
        &[&HEADER, &head(1, 46), &two_hops, &head(2, 42), &ARP],
        done,
        &[0, 1],
        &[&HEADER, &head(1, 46), &ETHERNET, &one_hop[14..]],
    )?;

    // A filter looks at no port of a later fragment.
    let mut to_port_22 = UDP;
    to_port_22[36] = 0;
    to_port_22[37] = 22;
    let mut fragment = to_port_22;
    fragment[21] = 1;
    fragment[25] = 0x8a;
    sends(
        &rt,
        FILTER,
        &[&HEADER, &head(1, 46), &fragment, &head(2, 46), &to_port_22],
        done,
        &[0, 1],
        &[&HEADER, &head(1, 46), &ETHERNET, &fragment[14..]],
    )?;

    // Frames stay in their order, whatever their times.
    let frames = [HEADER.as_slice(), &head(9, 46), &UDP, &head(2, 42), &ARP];
    sends(&rt, STRAIGHT, &frames, done, &[0, 1], &frames)?;

    // Microseconds are written as nanoseconds.
    sends(
        &rt,
        STRAIGHT,
        &[&MICROSECONDS],
        done,
        &[0],
        &[&HEADER, &REWRITTEN],
    )?;

    // A torn capture, of 148 bytes and a part of a third record, keeps its whole records.
    sends(
        &rt,
        STRAIGHT,
        &[
            &HEADER,
            &head(1, 46),
            &UDP,
            &head(2, 46),
            &UDP,
            &head(3, 46)[..12],
        ],
        Fault::Capture(1, PcapFault::Torn(148)),
        &[0, 1],
        &[&HEADER, &head(1, 46), &UDP, &head(2, 46), &UDP],
    )
}
