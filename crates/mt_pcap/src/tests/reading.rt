//! What captures are read as.
use super::{bytes_of, push_hex};
use crate::{PcapFault, header, record_head, whole};
use std::alloc::{AllocError, Global};
use std::test::*;

/// A UDP datagram in an Ethernet frame.
pub(super) const DATAGRAM: &str =
    "020000000002020000000001080045000020000100004011468b0a000005c633640913880035000cf31061626364";

/// Captures, and what they are read as: first the limits of the format, and then what another
/// reader made of captures.
pub(super) const CAPTURES: [(&str, &str); 35] = [
    // a header alone
    ("4d3cb2a10200040000000000000000000000040001000000", "end"),
    // microseconds, big-endian
    (
        "a1b2c3d40002000400000000000000000000ffff0000000100000001000000020000000e0000000e0200000000020200000000010800",
        "1000002000:0200000000020200000000010800; end",
    ),
    // 262,145 captured bytes, told before their want
    (
        "4d3cb2a1020004000000000000000000000004000100000001000000d00700000100040001000400",
        "BadRecord 24",
    ),
    // 262,144 are not too many
    (
        "4d3cb2a1020004000000000000000000000004000100000001000000d00700000000040000000400ab",
        "Torn 24",
    ),
    // 23 bytes
    ("4d3cb2a102000400000000000000000000000400010000", "NotPcap"),
    // other links
    (
        "4d3cb2a10200040000000000000000000000040071000000",
        "WrongLink 113",
    ),
    (
        "4d3cb2a10200040000000000000000000000040000000100",
        "WrongLink 0",
    ),
    // the high bits of the link type
    ("4d3cb2a1020004000000000000000000000004000100ffff", "end"),
    // the last nanosecond, and a second
    (
        "4d3cb2a10200040000000000000000000000040001000000ffffffffffc99a3b0000000000000000",
        "4294967295999999999:; end",
    ),
    (
        "4d3cb2a102000400000000000000000000000400010000000000000000ca9a3b0000000000000000",
        "BadRecord 24",
    ),
    // the last microsecond, and a second
    (
        "a1b2c3d40002000400000000000000000000ffff0000000100000000000f423f0000000000000000",
        "999999000:; end",
    ),
    (
        "a1b2c3d40002000400000000000000000000ffff0000000100000000000f42400000000000000000",
        "BadRecord 24",
    ),
    // a head that is cut, of a second
    (
        "a1b2c3d40002000400000000000000000000ffff0000000100000000000f424000000000000000",
        "Torn 24",
    ),
    // the original length is not looked at
    (
        "4d3cb2a1020004000000000000000000000004000100000000000000000000000100000000000000ab000000000000000001000000ffffffffcd",
        "0:ab; 0:cd; end",
    ),
    // nor are version, zone, sigfigs and snaplen
    ("4d3cb2a1ffffffffffffffffffffffffffffffff01000000", "end"),
    // read by another reader
    (
        "4d3cb2a1020004000000000000000000000000000100000000000000ffc99a3b1600000016000000ffffffffffff02000000000908060001080006040008",
        "999999999:ffffffffffff02000000000908060001080006040008; end",
    ),
    (
        "a1b23c4d0002000400000000000000000000ffff000000016553f100000000000000000f000005dc463dd61b9e29bdd9752643d76ebfbb",
        "1700000000000000000:463dd61b9e29bdd9752643d76ebfbb; end",
    ),
    (
        "d4c3b2a10200040000000000000000000000040001000000000000003f420f002d0000002d00000002000000000202000000000108004504001f00010000400145990a000105c63364080000000000000000706179",
        "999999000:02000000000202000000000108004504001f00010000400145990a000105c63364080000000000000000706179; end",
    ),
    (
        "a1b2c3d40002000400000000000000000004000000000001ffffffff000000000000002c0000002c020000000002020000000001ffff06207ec713f823596ec26925bdb2daf4996e1f4c0aee87abfebd4cca8ac7",
        "4294967295000000000:020000000002020000000001ffff06207ec713f823596ec26925bdb2daf4996e1f4c0aee87abfebd4cca8ac7; end",
    ),
    (
        "4d3cb2a10200040000000000000000000000000001000000ffffffff000000000d000000000000006c0081873676be62062c98b1b9010000000100000035000000dc050000020000000002020000000001080047040027",
        "4294967295000000000:6c0081873676be62062c98b1b9; Torn 53",
    ),
    (
        "a1b2c3d40002000400000000000000000000ffff00000001ffffffff000f423f0000002e000005dcffffffffffff020000000001080045040020ffff0001401146860a000006c633640904000050000c00006162636400",
        "4294967295999999000:ffffffffffff020000000001080045040020ffff0001401146860a000006c633640904000050000c000061626364; Torn 86",
    ),
    (
        "d4c3b2a1020004000000000000000000000004000100000000f153653f420f0016000000000000000200000000020200000000010806000108000604000200f153653f420f0037000000dc050000020000000002020000",
        "1700000000999999000:02000000000202000000000108060001080006040002; Torn 62",
    ),
    (
        "a1b23c4d00020004000000000000000000040000000000010000000000",
        "Torn 24",
    ),
    (
        "4d3cb2a1120004000000000000000000000000000100000000000000ffffffff000004000000040002000000000202000000000108004503002200010000402f46670a000007c63364080401005000000000000000000000",
        "BadRecord 24",
    ),
    (
        "a1b2c3d400020004000000000000000000000000000000016553f100ffffffff000000300000000002000000000202000000000108004600002200020000ff2f85510a000105c63364210000000004010050000000000000",
        "BadRecord 24",
    ),
    (
        "a1b2c3d40002000400000000000000000000000000000001ffffffff000f4240000000300000000000000000000002000000000108004528002200020000022fcc45c6336409c00002010035005000000000000000000000",
        "BadRecord 24",
    ),
    (
        "d4c3b2a1020004000000000000000000000000000100000000000000010000002d0000000000000002000000000202000000000108004500001fffff00004001f6d8c0000202c000020300000000000000007061790000000001000000ffffffff00000000020000000002020000000001080045000022ffff0000402f1457c6336421cb0071010050041000000000000000000000",
        "1000:02000000000202000000000108004500001fffff00004001f6d8c0000202c00002030000000000000000706179; BadRecord 85",
    ),
    (
        "4d3cb2a10200040000000000000000000040040000000000",
        "WrongLink 0",
    ),
    (
        "d4c3b2a10200040000000000000000000000000000000000",
        "WrongLink 0",
    ),
    (
        "a1b23c4d00020004000000000000000000000000000000710000000000000000",
        "WrongLink 113",
    ),
    (
        "4d3cb2a1020004000000000000000000ffff00007120000001000000ffc99a3b3600000000000000ffffffffffff02000000000108004504002800022001000666860a000006c633640a1389003500000000000000005001200012340000",
        "WrongLink 8305",
    ),
    ("a1b23c4d00020004", "NotPcap"),
    ("a1b2c3d4", "NotPcap"),
    (
        "a1b2c3d60002000400000000000000000004000000000000",
        "NotPcap",
    ),
    ("d4c3b2a102000400", "NotPcap"),
];

/// What a capture is read as: each record by its time, a colon and its frame in hexadecimal, and
/// then the fault or `end`.
fn told(alloc: Global, capture: &[u8]) -> Result<String, AllocError> {
    let whole = whole(alloc, capture)?;
    let mut text = String::new(alloc);
    for (stamp, frame) in &whole.records {
        text.push_str(&format!(in alloc; "{stamp}:")?)?;
        push_hex(&mut text, alloc, frame.bytes())?;
        text.push_str("; ")?;
    }
    match whole.end {
        None => text.push_str("end")?,
        Some(fault) => text.push_str(&format!(in alloc; "{fault}")?)?,
    }
    Ok(text)
}

#[test]
fn captures_are_read(rt: HostRuntime) -> Result<(), Fail> {
    for (capture, want) in CAPTURES {
        let bytes = bytes_of(rt.alloc(), capture)?;
        assert_eq!(rt; told(rt.alloc(), &bytes)?.as_str(), want, "at {capture}");
    }
    // Two records, of two bytes and of one: whole at 24, 42 and 59 bytes, and torn elsewhere.
    let bytes = bytes_of(
        rt.alloc(),
        "d4c3b2a1020004000000000000000000000004000100000001000000020000000200000002000000abcd03000000040000000100000001000000ef",
    )?;
    for cut in 0..bytes.len() + 1 {
        let want = match cut {
            0..=23 => "NotPcap",
            24 => "end",
            25..=41 => "Torn 24",
            42 => "1000002000:abcd; end",
            43..=58 => "1000002000:abcd; Torn 42",
            _ => "1000002000:abcd; 3000004000:ef; end",
        };
        assert_eq!(rt; told(rt.alloc(), &bytes[..cut])?.as_str(), want, "at {cut}");
    }
    Ok(())
}

/// Datagrams that are written and cut, a frame of the greatest length, and some thousand records.
#[test]
fn long_captures_are_read(rt: HostRuntime) -> Result<(), Fail> {
    let frame = bytes_of(rt.alloc(), DATAGRAM)?;
    let mut capture = Vec::new(rt.alloc());
    capture.extend_from_slice(&header())?;
    for stamp in 1..4 {
        capture.extend_from_slice(&record_head(stamp, 46))?;
        capture.extend_from_slice(&frame)?;
    }
    let want = format!(in rt.alloc(); "1:{DATAGRAM}; 2:{DATAGRAM}; Torn 148")?;
    let cut = capture
        .as_slice()
        .get(..160)
        .ok_or("the capture is long enough")?;
    assert_eq!(rt; told(rt.alloc(), cut)?.as_str(), want.as_str());
    let want = format!(in rt.alloc(); "1:{DATAGRAM}; 2:{DATAGRAM}; 3:{DATAGRAM}; end")?;
    assert_eq!(rt; told(rt.alloc(), &capture)?.as_str(), want.as_str());
    the_longest_frame(rt.alloc())?;
    many_records(rt.alloc())
}

/// A frame of 262,144 bytes.
fn the_longest_frame(alloc: Global) -> Result<(), Fail> {
    let mut capture = Vec::new(alloc);
    capture.extend_from_slice(&header())?;
    capture.extend_from_slice(&record_head(7, 262_144))?;
    capture.extend_from_slice(&vec![in alloc; 9u8; 262_144]?)?;
    let whole = whole(alloc, &capture)?;
    let [(stamp, frame)] = whole.records.as_slice() else {
        return Err("one record".into());
    };
    if *stamp != 7 || frame.bytes().len() != 262_144 || whole.end.is_some() {
        return Err("the longest frame".into());
    }
    Ok(())
}

/// 5,000 records, each with its own time and a byte, and one that is torn.
fn many_records(alloc: Global) -> Result<(), Fail> {
    let mut capture = Vec::new(alloc);
    capture.extend_from_slice(&header())?;
    for number in 0..5_000u64 {
        capture.extend_from_slice(&record_head(number * 1_000_000_007, 1))?;
        capture.push((number % 251) as u8)?;
    }
    capture.push(0)?;
    let whole = whole(alloc, &capture)?;
    if whole.records.len() != 5_000 || whole.end != Some(PcapFault::Torn(85_024)) {
        return Err("5,000 records, and one that is torn".into());
    }
    for (number, (stamp, frame)) in whole.records.iter().enumerate() {
        let byte = (number % 251) as u8;
        if *stamp != number as u64 * 1_000_000_007 || frame.bytes() != [byte].as_slice() {
            return Err("each record in its turn".into());
        }
    }
    Ok(())
}
