//! Headers for which a pattern holds, and for which it does not.

use crate::{Pattern, holds};
use mt_packet::{Frame, Header};
use mt_text::hexadecimal_of_length;
use std::alloc::{AllocError, Global};

/// The bytes that are written in hexadecimal.
fn octets(alloc: Global, text: &str) -> Result<Vec<u8>, AllocError> {
    let mut bytes = Vec::new(alloc);
    for pair in text.as_bytes().chunks(2) {
        if let Some(byte) = hexadecimal_of_length(2, pair) {
            bytes.push(byte as u8)?;
        }
    }
    Ok(bytes)
}

/// The header of the frame with these bytes in hexadecimal.
fn header(alloc: Global, text: &str) -> Result<Header, AllocError> {
    Ok(Header::of(1, &Frame::new(octets(alloc, text)?)))
}

/// The header of a frame in which other bytes stand from an offset on.
fn changed(alloc: Global, frame: &str, at: u8, change: &str) -> Result<Header, AllocError> {
    let mut bytes = octets(alloc, frame)?;
    let mut offset = usize::from(at);
    for byte in octets(alloc, change)?.iter() {
        if offset < bytes.len() {
            bytes[offset] = *byte;
            offset += 1;
        }
    }
    Ok(Header::of(1, &Frame::new(bytes)))
}

/// Whether the text's pattern holds for the frame.
fn met(alloc: Global, text: &str, frame: &str) -> Option<bool> {
    let pattern = Pattern::parse(alloc, text.as_bytes()).ok()?;
    Some(holds(&pattern, &header(alloc, frame).ok()?))
}

/// Whether the text's pattern holds for the frame in which other bytes stand from an offset on.
fn met_once_changed(alloc: Global, text: &str, frame: &str, at: u8, change: &str) -> Option<bool> {
    let pattern = Pattern::parse(alloc, text.as_bytes()).ok()?;
    Some(holds(&pattern, &changed(alloc, frame, at, change).ok()?))
}

/// Whether the text's pattern holds for the frame wherever one of these stands from an offset on.
fn met_by_all(alloc: Global, text: &str, frame: &str, at: u8, changes: &str) -> bool {
    for change in changes.split_ascii_whitespace() {
        if met_once_changed(alloc, text, frame, at, change) != Some(true) {
            return false;
        }
    }
    true
}

/// Whether it holds for none of them.
fn met_by_none(alloc: Global, text: &str, frame: &str, at: u8, changes: &str) -> bool {
    for change in changes.split_ascii_whitespace() {
        if met_once_changed(alloc, text, frame, at, change) != Some(false) {
            return false;
        }
    }
    true
}

/// Whether what a row says is so.
fn is_told_apart(alloc: Global, row: &str) -> Option<bool> {
    let (text, row) = row.split_once("; ")?;
    let (frame, row) = row.split_once("; ")?;
    let (at, row) = row.split_once("; ")?;
    let (met, missed) = row.split_once("; ")?;
    let at = at.parse().ok()?;
    let frame = match frame {
        "tcp" => TCP,
        "udp" => UDP,
        _ => ICMP,
    };
    Some(met_by_all(alloc, text, frame, at, met) && met_by_none(alloc, text, frame, at, missed))
}

/// A TCP segment of 10.0.0.5:5000 to 198.51.100.9:53.
const TCP: &str =
    "02000000000202000000000108004500002800010000400600000a000005c63364091388003500000000000000005000200000000000";

/// A UDP datagram, and an ICMP message, between the same addresses.
const UDP: &str =
    "02000000000202000000000108004500001c00010000401100000a000005c63364091388003500080000";

const ICMP: &str =
    "02000000000202000000000108004500001c00010000400100000a000005c63364090800000000000000";

/// In each row a pattern, a frame, an offset, what stands there in frames that it holds for, and in frames
/// that it does not hold for.
const ROWS: &str = "src host 10.0.0.5; tcp; 26; 0a000005; 0a000004 0a000006\n\
dst host 198.51.100.9; tcp; 30; c6336409; c6336408 c633640a\n\
host 10.0.0.5; tcp; 26; 0a0000050a000006 0a0000060a000005; 0a0000060a000006\n\
src net 10.0.0.4/31; tcp; 26; 0a000004 0a000005; 0a000003 0a000006\n\
dst net 198.51.100.9/30; tcp; 30; c6336408 c633640b; c6336407 c633640c\n\
net 10.0.0.0/8; tcp; 26; 0a000000 0affffff 0b0000000a000000; 09ffffff 0b000000 0b00000009ffffff\n\
src net 10.0.0.5/0; tcp; 26; 00000000 ffffffff; \n\
src port 1024-1025; tcp; 34; 0400 0401; 03ff 0402\n\
dst port 53; tcp; 36; 0035; 0034 0036\n\
port 80; tcp; 34; 00500051 00510050; 00510051 004f004f\n\
port > 80; tcp; 34; 00510050 00500051 ffff0000; 00500050\n\
port < 80; tcp; 34; 004f0050 0050004f ffff0000; 00500050\n\
port >= 80; tcp; 34; 00500000 ffff0000; 004f004f\n\
port <= 80; tcp; 34; ffff0050 0000ffff; 00510051\n\
port > 65535; tcp; 34; ; ffffffff\n\
port < 0; tcp; 34; ; 00000000\n\
port 0-65535; tcp; 20; 0000; 0001\n\
not port 0-65535; tcp; 20; 0001; 0000\n\
src tcp port 5000; tcp; 34; 1388; 1387\n\
src tcp port 5000; udp; 34; ; 1388\n\
tcp port 53; tcp; 36; 0035; 0036\n\
dst udp port 53; udp; 36; 0035; 0036\n\
udp port 5000; udp; 34; 1388 13871388; 13871387\n\
udp port 5000; tcp; 34; ; 1388\n\
tcp; tcp; 23; 06; 05 07 11\n\
udp; tcp; 23; 11; 10 12 06\n\
icmp; tcp; 23; 01; 00 02\n\
icmp type 8; icmp; 34; 08; 07 09\n\
icmp type 255; icmp; 34; ff; fe\n\
icmp type 8; udp; 34; ; 08\n\
ip proto 0; tcp; 23; 00; 01\n\
ip proto 255; tcp; 23; ff; fe\n\
ip dscp 63; tcp; 15; fc ff; fb\n\
ip dscp 0; tcp; 15; 00 03; 04\n\
ip ttl 64; tcp; 22; 40; 3f 41\n\
ip ttl > 64; tcp; 22; 41 ff; 40\n\
ip ttl < 64; tcp; 22; 3f 00; 40\n\
ip ttl >= 64; tcp; 22; 40 ff; 3f\n\
ip ttl <= 64; tcp; 22; 40 00; 41\n\
ip ttl > 255; tcp; 22; ; ff\n\
ip ttl < 0; tcp; 22; ; 00\n\
ip frag; tcp; 20; 2000 0001 1fff; 0000 4000\n\
ip unfrag; tcp; 20; 0000 4000; 2000 0001 1fff\n\
tcp opt syn; tcp; 47; 02 ff; fd\n\
tcp opt ack; tcp; 47; 10 ff; ef\n\
tcp opt fin; tcp; 47; 01 ff; fe\n\
tcp opt rst; tcp; 47; 04 ff; fb\n\
tcp opt fin; udp; 34; ; 1388";

#[test]
fn patterns_hold_for_the_headers_that_meet_them(rt: HostRuntime) {
    let rows = [
        (
            "tcp port > 53",
            "ffffffffffff02000000000108060001080006040000",
            false,
        ),
        (
            "udp or tcp opt fin || ! true",
            "020000000002020000000001080045000020ffff0000401146720a000006c633642113880016000cffff61626364",
            true,
        ),
        (
            "src udp port 5001-5017",
            "00000000000002000000000108004500001f000200000001859b0a000105c63364090000000000000000706179",
            false,
        ),
        (
            "-",
            "000000000000020000000001080600010800060400000000000000000000000000000000000000000000",
            true,
        ),
        (
            "dst net 198.51.100.33/32",
            "00000000000002000000000108004500002000010001ff1186890a000105c633640904010050000c6e8061626364",
            false,
        ),
        (
            "dst net 198.51.100.33/32",
            "ffffffffffff02000000000108004503001900020000401145760a000105c63364210050138800",
            true,
        ),
        (
            "ip frag and dst net 10.0.0.5/8 or icmp type 0",
            "02000000000202000000000108004600002600021fff012f326acb007102c6336408000000000401005000000000000000000000",
            false,
        ),
        (
            "ip frag and dst net 10.0.0.5/8 or icmp type 0",
            "02000000000202000000000908004500001f00010000400146830a000006c63364210000000000000000706179",
            true,
        ),
        (
            "! (tcp opt fin)",
            "ffffffffffff02000000000108004503002000010000401145700a000105c633642104001388000cffff61626364",
            true,
        ),
        (
            "icmp type 0",
            "02000000000202000000000108004500001f000200000101859b0a000005c63364090000000000000000706179",
            true,
        ),
        (
            "icmp type 0",
            "ffffffffffff020000000001080045000026ffff0000010685900a000005c633640a0401005000000000000000005012200000000000",
            false,
        ),
        ("dst udp port 0x1389", "30c6c73163c085af201a8d7e719e", false),
        (
            "! (ip ttl <=64)",
            "000000000000020000000009080045040020468500004011ffff0a000007c633640a13880035000c227561626364",
            false,
        ),
        (
            "udp",
            "000000000000020000000001080045280020000200000111cd47c6336421c000020707d00400000c000061626364",
            true,
        ),
        ("udp", "", false),
        (
            "(ip dscp 63)",
            "ffffffffffff02000000000108004500002800020000030683740a000006c63364210400003500000000000000005002200000010000",
            false,
        ),
        (
            "(ip dscp 63)",
            "ffffffffffff020000000001080045ff0022436b4000022f00000a000007c63364090401005000000000000000000000",
            true,
        ),
        (
            "!(ip dscp 63)",
            "000000000000020000000009080045ff002200010000002fbba8c0000203cb0071010035040300000000000000000000",
            false,
        ),
        (
            "!(ip dscp 63)",
            "02000000000202000000000108004504001f00020000ff015598c633640acb0071010300000000000000706179",
            true,
        ),
        (
            "src port 1027",
            "ffffffffffff0200000000010800450300206e72200140110000c6336421c000020200160403000cf31061626364",
            false,
        ),
        ("tcp opt ack", "00000000000002000000000186dd", false),
        (
            "ip dscp 0",
            "0200000000020200000000010800470000280001000003114f85cb007102c6336409000000000000000004000050000cf31061626364",
            true,
        ),
        (
            "ip dscp 0",
            "ffffffffffff020000000009080045ff00200001000040118d76c6336421c000020200350401000c000061626364",
            false,
        ),
        (
            "src tcp port 0 or dst tcp port 80",
            "0200000000020200000000010800450000200002200140116e8bc6336409c000020200500401000c9d7861626364",
            false,
        ),
        (
            "host 192.0.2.1",
            "02000000000202000000000108004503001f00022000010165810a000004c63364210b00000000000000706179",
            false,
        ),
        (
            "(all or udp)",
            "ffffffffffff020000000001080045000020ffff00000011858d0a000105c633640804010050000caf7561626364",
            true,
        ),
        (
            "net 198.51.100.10/16",
            "000000000000020000000001080045000020148f000040110000cb007101c633640904010050000cffff61626364000000000000",
            true,
        ),
        (
            "host 192.0.2.1",
            "02000000000202000000000108004500001f0001000040018e9fc6336409c00002010300000000000000706179",
            true,
        ),
        (
            "all",
            "02000000000202000000000108004500001f000120010201ac9dc6336409c00002020b00000000000000706179",
            true,
        ),
        (
            "not ip dscp 0",
            "ffffffffffff02000000000108004500002200012000ff2f356cc6336409cb0071020035041000000000000000000000",
            false,
        ),
        (
            "not ip dscp 0",
            "020000000002020000000001080045ff001f000200000301829c0a000004c633640a0000000000000000706179",
            true,
        ),
        (
            "dst host 198.51.100.8 || ip ttl >= 64 && ip ttl 64",
            "02000000000202000000000108004500001fffff20010101659b0a000006c63364090b00000000000000706179",
            false,
        ),
        (
            "dst host 198.51.100.8 || ip ttl >= 64 && ip ttl 64",
            "00000000000002000000000108004500002200010000402f466a0a000005c633640a138a005000000000000000000000",
            true,
        ),
        (
            "src port 1024",
            "02000000000202000000000108004728002800020000401144580a000007c6336409000000000000000004000035000c299861626364",
            true,
        ),
        (
            "!dst net 192.0.2.7/30",
            "020000000002020000000009080047000028ffff2001031197c0c0000201cb007102000000000000000000160050000c000061626364",
            true,
        ),
        (
            "!dst net 192.0.2.7/30",
            "020000000002020000000009080045280020000120014011d699c0000202c000020700160050000cf31061626364",
            false,
        ),
    ];
    for (text, frame, wanted) in &rows {
        assert!(rt; met(rt.alloc(), text, frame) == Some(*wanted));
    }
    for row in ROWS.lines() {
        assert!(rt; is_told_apart(rt.alloc(), row) == Some(true));
    }
    assert!(rt; ROWS.lines().count() == 48);
}
