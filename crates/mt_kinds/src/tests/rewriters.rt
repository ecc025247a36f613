//! Arguments of rewriters, mappers and devices: which are taken, and what they say.

use super::texts;
use crate::{
    Description, Kind, Misread, WrittenPort, WrittenSpec, WrittenTemplate, description_of,
};
use std::alloc::{AllocError, Global};
use std::test::Fail;

/// What an element says, with its arguments separated by `, `.
fn told(
    alloc: Global,
    class: &str,
    inner: &str,
) -> Result<Result<Description, Misread>, AllocError> {
    let arguments = texts(alloc, inner)?;
    if arguments.len() > 100 {
        return Ok(Err(Misread::BadArgs));
    }
    description_of(alloc, class.as_bytes(), &arguments)
}

// Classes with arguments that they take (true), and with those that they do not: one text in each line.
const ARGUMENTS: [(&str, bool, &str); 13] = [
    (
        "IPRewriter",
        true,
        "drop\n\
         pass 0\n\
         pass 511\n\
         pass 0x1fF\n\
         keep 0 1\n\
         keep 511 0\n\
         m\n\
         _m@1\n\
         drop1\n\
         pass\n\
         keep\n\
         pattern\n\
         pattern - - - - 0 1\n\
         pattern 192.0.2.1 - - - 0 1\n\
         pattern - 0 - 65535 0 1\n\
         pattern 192.0.2.1 1024 198.51.100.9 0x50 511 511\n\
         pattern 192.0.2.1 1024-65535 - - 0 1\n\
         pattern 192.0.2.1 1024-1024 - - 0 1\n\
         pattern 192.0.2.1 0x400-2047 - - 0 1\n\
         drop, pass 1, keep 0 1, pattern - - - - 0 1, m, m",
    ),
    (
        "IPRewriter",
        false,
        "\n\
         drop 0\n\
         Drop all\n\
         pass 512\n\
         pass 0x200\n\
         pass -\n\
         pass 0 1\n\
         pass  0\n\
         keep 0\n\
         keep 0 512\n\
         keep 512 0\n\
         keep 0 1 2\n\
         m n\n\
         1m\n\
         a:b\n\
         - - - - 0 1\n\
         pattern - - - - 0\n\
         pattern - - - - 0 1 2\n\
         pattern - - - - 512 0\n\
         pattern - - - - 0 512\n\
         pattern - 1024-2047 - - 0 1\n\
         pattern 192.0.2.1 2047-1024 - - 0 1\n\
         pattern 192.0.2.1 1024-65536 - - 0 1\n\
         pattern 192.0.2.1 65536 - - 0 1\n\
         pattern 192.0.2.1 1024- - - 0 1\n\
         pattern 192.0.2.1 -1024 - - 0 1\n\
         pattern 192.0.2.1 1-2-3 - - 0 1\n\
         pattern 192.0.2.1 -- - - 0 1\n\
         pattern 192.0.2.256 - - - 0 1\n\
         pattern - - 192.0.2 - 0 1\n\
         pattern - - 192.0.2.1 1024-2047 0 1\n\
         pattern pattern - - - - 0 1\n\
         drop, \n\
         drop, drop 0",
    ),
    (
        "RoundRobinIPMapper",
        true,
        "- - - - 0 1\n\
         pattern - - - - 0 1\n\
         192.0.2.1 1024-2047 - - 0 1, pattern 192.0.2.2 1024-2047 - - 2 3",
    ),
    (
        "RoundRobinIPMapper",
        false,
        "\n\
         drop\n\
         m\n\
         pattern\n\
         keep 0 1\n\
         pattern pattern - - - - 0 1\n\
         - - - - 0\n\
         - - - - 0 1 2\n\
         - - - - 512 0\n\
         - 1024-2047 - - 0 1\n\
         - - - - 0 1, drop",
    ),
    (
        "FromDevice",
        true,
        "eth0\n\
         _a@b\n\
         SNIFFER\n\
         eth0, SNIFFER false\n\
         eth0, PROMISC true, METHOD_2, X",
    ),
    (
        "FromDevice",
        false,
        "\n\
         0eth\n\
         eth-0\n\
         SNIFFER false\n\
         eth0, eth1\n\
         eth0, sniffer false\n\
         eth0, SNIFFer false\n\
         eth0, SNIFFER false, false\n\
         eth0, ",
    ),
    ("ToDevice", true, "eth0\neth0, BURST 8"),
    ("ToDevice", false, "\neth0, burst 8\neth0 eth1"),
    ("Discard", true, ""),
    ("Discard", false, "0\nACTIVE true"),
    ("Null", false, "0"),
    ("Counter", true, "\nCOUNT_CALL 10 h"),
    ("IPFilter", false, "accept all"),
];

#[test]
fn descriptions_are_of_their_arguments(rt: HostRuntime) -> Result<(), Fail> {
    for (class, taken, lines) in ARGUMENTS {
        for inner in lines.split('\n') {
            match told(rt.alloc(), class, inner)? {
                Ok(_) => assert!(rt; taken, "{class}({inner})"),
                Err(Misread::BadArgs) => assert!(rt; !taken, "{class}({inner})"),
                Err(Misread::UnknownClass) => return Err("a class is not known")?,
            }
        }
    }
    for class in [
        "",
        "iprewriter",
        "IPRewriter2",
        "IPRewrite",
        "UDPRewriter",
        "Tee",
    ] {
        for inner in ["", "drop", "nonsense of no class"] {
            assert!(rt;
                matches!(told(rt.alloc(), class, inner)?, Err(Misread::UnknownClass)),
                "{class}({inner})"
            );
        }
    }
    Ok(())
}

#[test]
fn descriptions_say_what_is_written(rt: HostRuntime) -> Result<(), Fail> {
    let alloc = rt.alloc();
    let text = "drop, pass 7, keep 2 3, pattern 192.0.2.1 1024-2047 - 80 0 1, mapper";
    let Ok(Description::Rewriter(specs)) = told(alloc, "IPRewriter", text)? else {
        return Err("no rewriter")?;
    };
    let template = WrittenTemplate {
        sa: Some(0xc000_0201),
        sp: WrittenPort::Range(1024, 2047),
        da: None,
        dp: Some(80),
        fout: 0,
        rout: 1,
    };
    let [drop, pass, keep, pattern, mapper] = specs.as_slice() else {
        return Err("not five specifications")?;
    };
    assert!(rt; matches!(drop, WrittenSpec::Drop));
    assert!(rt; matches!(pass, WrittenSpec::Pass(7)));
    assert!(rt; matches!(keep, WrittenSpec::Keep(2, 3)));
    match pattern {
        WrittenSpec::Pattern(made) => assert!(rt; *made == template),
        _ => return Err("no pattern")?,
    }
    match mapper {
        WrittenSpec::Mapper(name) => assert_eq!(rt; name.bytes(), b"mapper".as_slice()),
        _ => return Err("no mapper")?,
    }
    let text = "pattern - 9 192.0.2.1 - 4 5, - - - - 6 7";
    let Ok(Description::Mapper(templates)) = told(alloc, "RoundRobinIPMapper", text)? else {
        return Err("no mapper")?;
    };
    let [first, second] = templates.as_slice() else {
        return Err("not two templates")?;
    };
    let one = WrittenTemplate {
        sa: None,
        sp: WrittenPort::One(9),
        da: Some(0xc000_0201),
        dp: None,
        fout: 4,
        rout: 5,
    };
    assert!(rt; *first == one);
    assert!(rt; second.sp == WrittenPort::Same);
    let Ok(Description::ToDevice(name)) = told(alloc, "ToDevice", "eth0, BURST 8")? else {
        return Err("no device")?;
    };
    assert_eq!(rt; name.bytes(), b"eth0".as_slice());
    assert!(rt;
        matches!(
            told(alloc, "FromDevice", "a")?,
            Ok(Description::FromDevice(_))
        )
    );
    assert!(rt;
        matches!(
            told(alloc, "Discard", "")?,
            Ok(Description::Settled(Kind::Discard))
        )
    );
    Ok(())
}
