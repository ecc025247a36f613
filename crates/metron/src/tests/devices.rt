//! Chains of several devices.
use super::{ARP, HEADER, UDP, check, head, joined, run_words};
use crate::{Fault, FileId};
use mt_io::{Call, MemoryFiles};
use mt_pcap::PcapFault;
use std::alloc::{AllocError, Global};
use std::test::Fail;

// Frames of two devices come to one.
const JOINED: &str = "FromDevice(a) -> c :: ToDevice(o); FromDevice(b) -> c;";

// ARP requests go to b, other ARP packets nowhere, and IPv4 to c.
const PARTED: &str = "FromDevice(a) -> c :: Classifier(12/0806 20/0001, 12/0800, -);
    c[0] -> ToDevice(b); c[1] -> ToDevice(c); c[2] -> Discard;";

// Frames of a are sent on b, and those of b on a.
const CROSSED: &str = "FromDevice(a) -> ToDevice(b); FromDevice(b) -> ToDevice(a);";

fn with(alloc: Global, chain: &str, captures: &[(&str, &[u8])]) -> Result<MemoryFiles, AllocError> {
    let mut files = MemoryFiles::new(alloc);
    files.hold("chain", chain.as_bytes())?;
    files.hold("script", b"")?;
    for (name, capture) in captures {
        files.hold(name, capture)?;
    }
    Ok(files)
}

#[test]
fn frames_are_merged_by_time_and_sent_by_device(rt: HostRuntime) -> Result<(), Fail> {
    let alloc = rt.alloc();
    // Of equal times the frame of the lower device comes first.
    let first = joined(alloc, &[&HEADER, &head(5, 46), &UDP])?;
    let second = joined(alloc, &[&HEADER, &head(5, 42), &ARP])?;
    let mut files = with(alloc, JOINED, &[("x", &first), ("y", &second)])?;
    let list = ["run", "chain", "script", "out:o=z", "in:b=y", "in:a=x"];
    let outcome = run_words(alloc, &list, &mut files)?;
    check(&rt, &outcome, 0, Fault::Done, &[0, 1]);
    let wanted = joined(alloc, &[&HEADER, &head(5, 46), &UDP, &head(5, 42), &ARP])?;
    assert_eq!(rt; files.written("z"), wanted.as_slice());

    // Earlier frames come first, whatever their device; each output has those of its device.
    let first = joined(alloc, &[&HEADER, &head(3, 46), &UDP, &head(9, 42), &ARP])?;
    let second = joined(alloc, &[&HEADER, &head(2, 42), &ARP, &head(4, 46), &UDP])?;
    let mut files = with(alloc, CROSSED, &[("x", &first), ("y", &second)])?;
    let list = [
        "run", "chain", "script", "in:a=x", "in:b=y", "out:a=p", "out:b=q",
    ];
    let outcome = run_words(alloc, &list, &mut files)?;
    check(&rt, &outcome, 0, Fault::Done, &[0, 1, 2, 3]);
    assert_eq!(rt; files.written("p"), second.as_slice());
    assert_eq!(rt; files.written("q"), first.as_slice());

    // A classifier parts frames to devices.
    let both = joined(alloc, &[&HEADER, &head(1, 42), &ARP, &head(2, 46), &UDP])?;
    let mut files = with(alloc, PARTED, &[("x", &both)])?;
    let list = ["run", "chain", "script", "in:a=x", "out:b=p", "out:c=q"];
    let outcome = run_words(alloc, &list, &mut files)?;
    check(&rt, &outcome, 0, Fault::Done, &[0, 1]);
    let requests = joined(alloc, &[&HEADER, &head(1, 42), &ARP])?;
    let packets = joined(alloc, &[&HEADER, &head(2, 46), &UDP])?;
    assert_eq!(rt; files.written("p"), requests.as_slice());
    assert_eq!(rt; files.written("q"), packets.as_slice());
    assert_eq!(rt; outcome.picks(), [].as_slice());
    Ok(())
}

#[test]
fn a_torn_capture_ends_the_merge(rt: HostRuntime) -> Result<(), Fail> {
    let alloc = rt.alloc();
    // The frame of b at time 9 is not reached, since that of a behind time 3 is torn.
    let first = joined(alloc, &[&HEADER, &head(3, 46), &UDP, &head(4, 46)[..15]])?;
    let second = joined(alloc, &[&HEADER, &head(2, 42), &ARP, &head(9, 46), &UDP])?;
    let mut files = with(alloc, CROSSED, &[("x", &first), ("y", &second)])?;
    let list = [
        "run", "chain", "script", "in:a=x", "in:b=y", "out:a=p", "out:b=q",
    ];
    let outcome = run_words(alloc, &list, &mut files)?;
    check(
        &rt,
        &outcome,
        5,
        Fault::Capture(1, PcapFault::Torn(86)),
        &[0, 1],
    );
    let (p, q) = (files.written("p"), files.written("q"));
    assert!(rt; p.len() == 82 && second.starts_with(p));
    assert!(rt; q.len() == 86 && first.starts_with(q));

    // Without a header nothing is begun; the first such device is told.
    let mut files = with(alloc, CROSSED, &[("x", &first), ("y", &HEADER[..23])])?;
    let outcome = run_words(alloc, &list, &mut files)?;
    check(&rt, &outcome, 5, Fault::Capture(2, PcapFault::NotPcap), &[]);
    assert_eq!(rt; files.written("p"), [].as_slice());
    assert_eq!(rt; files.written("q"), [].as_slice());
    Ok(())
}

#[test]
fn each_failing_file_is_told(rt: HostRuntime) -> Result<(), Fail> {
    let alloc = rt.alloc();
    let first = joined(alloc, &[&HEADER, &head(3, 46), &UDP])?;
    let second = joined(alloc, &[&HEADER, &head(2, 42), &ARP])?;
    let list = [
        "run", "chain", "script", "in:a=x", "in:b=y", "out:a=p", "out:b=q",
    ];
    let read = [
        Fault::Read(FileId::Capture(1)),
        Fault::Read(FileId::Capture(2)),
    ];
    let write = [
        Fault::Write(FileId::Output(1)),
        Fault::Write(FileId::Output(2)),
    ];
    // The name, the call, the fault, and how many bytes p and q then have. The frame of y comes first.
    let cases: [(&str, Call, u64, Fault, usize, usize); 11] = [
        ("x", Call::Read, 1, read[0], 0, 0),
        ("y", Call::Read, 1, read[1], 0, 0),
        ("x", Call::Read, 2, read[0], 24, 24),
        ("y", Call::Read, 2, read[1], 24, 24),
        ("y", Call::Read, 4, read[1], 82, 24),
        ("x", Call::Read, 4, read[0], 82, 86),
        ("p", Call::Write, 1, write[0], 0, 0),
        ("q", Call::Write, 1, write[1], 24, 0),
        ("p", Call::Write, 2, write[0], 24, 24),
        ("q", Call::Write, 2, write[1], 82, 24),
        ("p", Call::Write, 3, Fault::Done, 82, 86),
    ];
    for (name, call, number, fault, p, q) in cases {
        let mut files = with(alloc, CROSSED, &[("x", &first), ("y", &second)])?;
        files.fail(name, call, number)?;
        let outcome = run_words(alloc, &list, &mut files)?;
        assert_eq!(rt; outcome.fault, fault);
        let (to_a, to_b) = (files.written("p"), files.written("q"));
        assert!(rt; to_a.len() == p && second.starts_with(to_a));
        assert!(rt; to_b.len() == q && first.starts_with(to_b));
    }
    Ok(())
}
