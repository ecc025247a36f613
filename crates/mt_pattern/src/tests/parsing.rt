//! Texts and what they are read as: the pattern of the grammar, or the offset of the fault.

use crate::{Pattern, PatternFault};
use mt_packet::Field;
use std::alloc::{AllocError, Global};

/// The name of a field that patterns look at.
fn name(field: Field) -> &'static str {
    match field {
        Field::Proto => "proto",
        Field::Src => "src",
        Field::Dst => "dst",
        Field::Dscp => "dscp",
        Field::Sport => "sport",
        Field::Dport => "dport",
        Field::IcmpType => "icmp_type",
        Field::Mf => "mf",
        Field::FragOff => "frag_off",
        Field::Ttl => "ttl",
        Field::Syn => "syn",
        Field::Ack => "ack",
        Field::Fin => "fin",
        Field::Rst => "rst",
        _ => "another field",
    }
}

/// A pattern as text, outermost part first.
fn shown(alloc: Global, pattern: &Pattern) -> Result<String, AllocError> {
    match pattern {
        Pattern::True => String::from_str(alloc, "True"),
        Pattern::Within(field, span) => {
            let name = name(*field);
            format!(in alloc; "Within({name}, {}, {})", span.lo, span.hi)
        }
        Pattern::Not(inner) => {
            let inner = shown(alloc, inner.get())?;
            format!(in alloc; "Not({inner})")
        }
        Pattern::And(left, right) => {
            let left = shown(alloc, left.get())?;
            let right = shown(alloc, right.get())?;
            format!(in alloc; "And({left}, {right})")
        }
        Pattern::Or(left, right) => {
            let left = shown(alloc, left.get())?;
            let right = shown(alloc, right.get())?;
            format!(in alloc; "Or({left}, {right})")
        }
    }
}

/// What a text is: its pattern, or the offset of its fault.
fn read(alloc: Global, text: &str) -> Result<String, AllocError> {
    match Pattern::parse(alloc, text.as_bytes()) {
        Ok(pattern) => shown(alloc, &pattern),
        Err(PatternFault::Bad(at)) => format!(in alloc; "bad {at}"),
        Err(PatternFault::NoMemory) => Err(AllocError),
    }
}

/// The number of the first row that is read otherwise than wanted, or how many rows there are.
fn agreeing(alloc: Global, rows: &[(&str, &str)]) -> Option<usize> {
    for (number, (text, wanted)) in rows.iter().enumerate() {
        if read(alloc, text).ok()?.as_str() != *wanted {
            return Some(number);
        }
    }
    Some(rows.len())
}

#[test]
fn texts_are_read_as_their_patterns_or_faults(rt: HostRuntime) {
    let patterns = [
        ("-", "True"),
        ("true", "True"),
        ("all", "True"),
        ("src host 10.0.0.5", "Within(src, 167772165, 167772165)"),
        ("dst host 192.0.2.7", "Within(dst, 3221225991, 3221225991)"),
        (
            "host 192.0.2.1",
            "Or(Within(src, 3221225985, 3221225985), Within(dst, 3221225985, 3221225985))",
        ),
        ("src net 10.0.0.5/8", "Within(src, 167772160, 184549375)"),
        ("dst net 10.0.0.6/31", "Within(dst, 167772166, 167772167)"),
        (
            "net 0.0.0.0/0",
            "Or(Within(src, 0, 4294967295), Within(dst, 0, 4294967295))",
        ),
        ("src net 255.255.255.255/0", "Within(src, 0, 4294967295)"),
        ("dst net 10.0.0.7", "Within(dst, 167772167, 167772167)"),
        ("src port 22", "Within(sport, 22, 22)"),
        ("dst port 1024-1025", "Within(dport, 1024, 1025)"),
        (
            "port 0-65535",
            "Or(Within(sport, 0, 65535), Within(dport, 0, 65535))",
        ),
        (
            "port > 65534",
            "Or(Within(sport, 65535, 65535), Within(dport, 65535, 65535))",
        ),
        (
            "tcp port > 53",
            "And(Within(proto, 6, 6), Or(Within(sport, 54, 65535), Within(dport, 54, 65535)))",
        ),
        (
            "src udp port 5001-5017",
            "And(Within(proto, 17, 17), Within(sport, 5001, 5017))",
        ),
        (
            "dst udp port 0x1389",
            "And(Within(proto, 17, 17), Within(dport, 5001, 5001))",
        ),
        (
            "dst tcp port <= 65535",
            "And(Within(proto, 6, 6), Within(dport, 0, 65535))",
        ),
        (
            "udp port >=22",
            "And(Within(proto, 17, 17), Or(Within(sport, 22, 65535), Within(dport, 22, 65535)))",
        ),
        ("src tcp port > 65535", "Not(True)"),
        ("port < 0", "Not(True)"),
        ("dst port <22", "Within(dport, 0, 21)"),
        (
            "port 000000080",
            "Or(Within(sport, 80, 80), Within(dport, 80, 80))",
        ),
        (
            "port 0x0000FFff",
            "Or(Within(sport, 65535, 65535), Within(dport, 65535, 65535))",
        ),
        ("tcp", "Within(proto, 6, 6)"),
        ("udp", "Within(proto, 17, 17)"),
        ("icmp", "Within(proto, 1, 1)"),
        ("ip proto 47", "Within(proto, 47, 47)"),
        ("ip dscp 63", "Within(dscp, 63, 63)"),
        ("ip ttl 64", "Within(ttl, 64, 64)"),
        ("ip ttl >= 0", "Within(ttl, 0, 255)"),
        ("ip ttl > 254", "Within(ttl, 255, 255)"),
        ("ip ttl > 255", "Not(True)"),
        ("ip ttl <0", "Not(True)"),
        ("ip frag", "Or(Within(mf, 1, 1), Within(frag_off, 1, 8191))"),
        (
            "ip unfrag",
            "Not(Or(Within(mf, 1, 1), Within(frag_off, 1, 8191)))",
        ),
        ("tcp opt syn", "Within(syn, 1, 1)"),
        ("tcp opt ack", "Within(ack, 1, 1)"),
        ("tcp opt fin", "Within(fin, 1, 1)"),
        ("tcp opt rst", "Within(rst, 1, 1)"),
        ("icmp type 8", "Within(icmp_type, 8, 8)"),
        (
            "udp or tcp opt fin || ! true",
            "Or(Or(Within(proto, 17, 17), Within(fin, 1, 1)), Not(True))",
        ),
        (
            "tcp or udp and icmp",
            "Or(Within(proto, 6, 6), And(Within(proto, 17, 17), Within(proto, 1, 1)))",
        ),
        (
            "tcp && udp && icmp",
            "And(And(Within(proto, 6, 6), Within(proto, 17, 17)), Within(proto, 1, 1))",
        ),
        (
            "(tcp or udp)and(icmp)",
            "And(Or(Within(proto, 6, 6), Within(proto, 17, 17)), Within(proto, 1, 1))",
        ),
        (
            "!ip proto 17 and tcp opt fin",
            "And(Not(Within(proto, 17, 17)), Within(fin, 1, 1))",
        ),
        ("not not ((-))", "Not(Not(True))"),
        ("\t tcp\n||\r-  ", "Or(Within(proto, 6, 6), True)"),
    ];
    assert!(rt; agreeing(rt.alloc(), &patterns) == Some(49));
    let faults = [
        ("", "bad 0"),
        (" ", "bad 1"),
        ("host", "bad 4"),
        ("port 80-", "bad 5"),
        ("port 90-80", "bad 5"),
        ("port 65536", "bad 5"),
        ("port 80- 90", "bad 5"),
        ("port 0x", "bad 5"),
        ("port 0x123456789", "bad 5"),
        ("port 1234567890", "bad 5"),
        ("port > 65536", "bad 7"),
        ("ip dscp 64", "bad 8"),
        ("ip ttl 256", "bad 7"),
        ("ip proto 256", "bad 9"),
        ("icmp type 256", "bad 10"),
        ("net 10.0.0.0/33", "bad 4"),
        ("host 256.1.1.1", "bad 5"),
        ("host 1.2.3", "bad 5"),
        ("host 1.2.3.4.5", "bad 5"),
        ("host 10.0.0.0/8", "bad 5"),
        ("tcp udp", "bad 4"),
        ("tcp and", "bad 7"),
        ("- -", "bad 2"),
        ("(tcp", "bad 4"),
        ("tcp)", "bad 3"),
        ("()", "bad 1"),
        ("not", "bad 3"),
        ("tcp opt", "bad 7"),
        ("icmp typ", "bad 5"),
        ("src - ", "bad 4"),
        ("ip unrag", "bad 3"),
        ("tcp |", "bad 4"),
        ("tcp & udp", "bad 4"),
        ("not not 10.0.0.1 icmp || -", "bad 8"),
        ("dst udp port <= 53 || true or ip", "bad 32"),
        ("not ((src port 22)", "bad 18"),
        ("tcp && src port 2001-2017 and( icmp", "bad 35"),
        ("dst host 10.0opt.0.5", "bad 9"),
        ("dst udp port 80-8<=1 && src tcp port >5001", "bad 13"),
    ];
    assert!(rt; agreeing(rt.alloc(), &faults) == Some(39));
}
