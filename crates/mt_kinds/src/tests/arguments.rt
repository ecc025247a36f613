//! Arguments of the classes: which each takes, and what they say.

use super::texts;
use crate::{Clause, Kind, kind_of, patterns_of};
use mt_text::Text;
use std::alloc::{AllocError, Global};
use std::test::Fail;

/// What a class stands for with the arguments in a text, separated by `, `.
fn made(alloc: Global, class: &str, inner: &str) -> Result<Option<Kind>, AllocError> {
    let arguments = texts(alloc, inner)?;
    if arguments.len() > 100 {
        return Ok(None);
    }
    kind_of(alloc, class.as_bytes(), &arguments)
}

// Classes with arguments that they take (true), and with those that they do not: one text in each line.
const ARGUMENTS: [(&str, bool, &str); 14] = [
    (
        "IPFilter",
        true,
        "allow all\n\
         deny -\n\
         drop tcp\n\
         0 all\n\
         511 udp port 53\n\
         0x1fF icmp\n\
         000000511 all\n\
         allow (tcp or udp) and not ip frag\n\
         deny src host 10.0.0.5, allow all",
    ),
    (
        "IPFilter",
        false,
        "\n\
         allow\n\
         deny\n\
         7\n\
         512 all\n\
         0x200 all\n\
         0x all\n\
         -1 all\n\
         0000000511 all\n\
         accept all\n\
         ALLOW all\n\
         all allow\n\
         allow nonsense\n\
         allow tcp udp\n\
         allow (all\n\
         allow,all\n\
         allow all,\n\
         allow all, deny",
    ),
    (
        "IPClassifier",
        true,
        "-\n\
         all\n\
         tcp, udp, -\n\
         src host 10.0.0.5 and dst port 53, !(icmp)",
    ),
    (
        "IPClassifier",
        false,
        "\n\
         allow all\n\
         tcp,\n\
         tcp, , udp\n\
         tcp port 70000\n\
         12/0800\n\
         - -",
    ),
    (
        "LookupIPRoute",
        true,
        "0.0.0.0/0 192.0.2.1 0\n\
         10.0.0.0/8 1\n\
         10.255.255.255/8 0\n\
         10.0.0.5/32 2\n\
         10.0.0.5 511\n\
         10.0.0.5 192.0.2.1 0x1FF\n\
         255.255.255.255/32 255.255.255.255 0, 0.0.0.0/0 1",
    ),
    (
        "LookupIPRoute",
        false,
        "\n\
         10.0.0.0/33 1\n\
         10.0.0.0/8\n\
         10.0.0.0/8 512\n\
         10.0.0.0/8 0x200\n\
         10.0.0.0/8 192.0.2.1\n\
         10.0.0.0/8 192.0.2.1 1 2\n\
         10.0.0.0/8 192.0.2.1/32 1\n\
         10.0.0.0/8 - 1\n\
         10.0.0.0/ 1\n\
         10.0.0.0/8/8 1\n\
         10.0.0.0/0x8 1\n\
         10.0.0.0 /8 1\n\
         10.0.0/8 1\n\
         256.0.0.0/8 1\n\
         1 10.0.0.0/8\n\
         10.0.0.0/8 1, 10.0.0.0/8",
    ),
    ("StaticIPLookup", true, "10.0.0.0/8 1"),
    ("LinearIPLookup", true, "10.0.0.0/8 1"),
    ("RadixIPLookup", true, "10.0.0.0/8 1"),
    ("DirectIPLookup", false, "10.0.0.0/8 1"),
    ("ipfilter", false, "allow all"),
    ("Classifier", true, "12/0800, -"),
    ("Classifier", false, ""),
    ("Null", true, ""),
];

#[test]
fn classes_take_their_arguments(rt: HostRuntime) -> Result<(), Fail> {
    for (class, wanted, lines) in ARGUMENTS {
        for inner in lines.split('\n') {
            assert_eq!(rt;
                made(rt.alloc(), class, inner)?.is_some(),
                wanted,
                "{class}({inner})"
            );
        }
    }
    let first = Text::new(b"12/0806 20/0002".to_vec(rt.alloc())?);
    let second = Text::new(b"12/0800".to_vec(rt.alloc())?);
    let third = Text::new(b"-".to_vec(rt.alloc())?);
    let patterns = patterns_of(rt.alloc(), &[first, second, third])?.ok_or("no patterns")?;
    assert_eq!(rt; patterns.count(), 3);
    assert_eq!(rt;
        patterns.clauses(0),
        [Clause::EthType(0x0806), Clause::ArpOp(2)].as_slice()
    );
    assert!(rt; patterns_of(rt.alloc(), &[])?.is_none());
    Ok(())
}
