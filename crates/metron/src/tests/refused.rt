//! What is refused before anything is written.
use super::{HEADER, STRAIGHT, check, files, run, run_words};
use crate::{Fault, FileId};
use mt_click::{ClickFault, ClickWhy};
use mt_elements::{ChainFault, ChainWhy};
use mt_pcap::PcapFault;
use mt_script::{ScriptFault, ScriptWhy};
use std::test::Fail;

#[test]
fn a_refused_input_leaves_nothing_written(rt: HostRuntime) -> Result<(), Fail> {
    let other_link = [
        0xa1, 0xb2, 0xc3, 0xd4, 0, 2, 0, 4, 0, 0, 0, 0, 0, 0, 0, 0, 0, 0, 0xff, 0xff, 0, 0, 0, 113,
    ];
    let cases: [(&str, &[u8], u8, Fault); 5] = [
        (
            "FromDevice(lan) -> ToDevice(b);",
            &HEADER,
            1,
            Fault::UsageWord(3),
        ),
        (
            "FromDevice(a) -> ToDevice(a);",
            &HEADER,
            1,
            Fault::UsageWord(4),
        ),
        (
            "FromDevice(a) -> ToDevice(b); FromDevice(c) -> Discard;",
            &HEADER,
            1,
            Fault::Unbound(2),
        ),
        (
            STRAIGHT,
            &HEADER[..23],
            5,
            Fault::Capture(1, PcapFault::NotPcap),
        ),
        (
            STRAIGHT,
            &other_link,
            5,
            Fault::Capture(1, PcapFault::WrongLink(113)),
        ),
    ];
    for (chain, capture, status, fault) in cases {
        let mut files = files(rt.alloc(), chain, capture)?;
        let outcome = run(rt.alloc(), &mut files)?;
        check(&rt, &outcome, status, fault, &[]);
        assert_eq!(rt; files.written("out"), [].as_slice());
    }
    Ok(())
}

#[test]
fn a_refused_script_leaves_nothing_written(rt: HostRuntime) -> Result<(), Fail> {
    let cases: [(&str, Fault); 6] = [
        ("go", script(ScriptWhy::Unknown, 1)),
        ("feed x", script(ScriptWhy::BadNumber, 1)),
        ("\n# split\nsplit 1 0", script(ScriptWhy::Missing, 3)),
        ("drain 1\n", script(ScriptWhy::Extra, 1)),
        ("drain\n", Fault::Unbuilt(FileId::Script)),
        ("# nothing\n\n \t\r\n", Fault::Done),
    ];
    for (text, fault) in cases {
        let mut files = files(rt.alloc(), STRAIGHT, &HEADER)?;
        files.hold("script", text.as_bytes())?;
        let outcome = run(rt.alloc(), &mut files)?;
        let status = if fault == Fault::Done { 0 } else { 3 };
        check(&rt, &outcome, status, fault, &[]);
        assert_eq!(rt;
            files.written("out").len(),
            if status == 0 { 24 } else { 0 }
        );
    }
    Ok(())
}

/// A fault of a script, at a line.
fn script(why: ScriptWhy, line: u32) -> Fault {
    Fault::Script(ScriptFault { line, why })
}

/// A fault of a chain, at an element and a line.
fn chain(why: ChainWhy, element: u32, line: u32) -> Fault {
    Fault::Chain(ChainFault { why, element, line })
}

#[test]
fn a_refused_configuration_leaves_nothing_written(rt: HostRuntime) -> Result<(), Fail> {
    let cases: [(&str, Fault); 15] = [
        (
            "FromDevice(a) -> Foo -> ToDevice(b);",
            chain(ChainWhy::UnknownClass, 1, 1),
        ),
        (
            "FromDevice(a)\n -> Null\n -> Foo -> Discard;",
            chain(ChainWhy::UnknownClass, 2, 3),
        ),
        (
            "FromDevice(a) -> Discard;\nFromDevice(a) -> Discard;",
            chain(ChainWhy::BadArgs, 2, 2),
        ),
        (
            "FromDevice(a) -> Null\n -> [1] Discard;",
            chain(ChainWhy::NoSuchPort, 2, 2),
        ),
        (
            "FromDevice(a) -> c :: Classifier(-, -);\nc[0] -> Discard;\nc[0] -> Discard;",
            chain(ChainWhy::TwiceWired, 1, 3),
        ),
        (
            "FromDevice(a) -> Classifier(12/0800, -) -> ToDevice(b);",
            chain(ChainWhy::Unwired, 1, 1),
        ),
        (
            "FromDevice(a) -> Strip(14) -> CheckIPHeader\n -> r :: IPRewriter(pass 1);\nr[1] -> Discard;",
            chain(ChainWhy::Unwired, 3, 2),
        ),
        (
            "FromDevice(a) -> n :: Null -> n;",
            chain(ChainWhy::Cycle, 1, 1),
        ),
        (
            "FromDevice(a) -> Discard;\nn :: Null -> n;",
            chain(ChainWhy::Cycle, 2, 2),
        ),
        (
            "FromDevice(a) -> DecIPTTL -> ToDevice(b);",
            chain(ChainWhy::LayerClash, 1, 1),
        ),
        (
            "FromDevice(a) -> Strip(14)\n -> ToDevice(b);",
            chain(ChainWhy::LayerClash, 2, 2),
        ),
        (
            "FromDevice(a) -> Discard;\nRoundRobinIPMapper(1.2.3.4 7-9 - - 0 1, 1.2.3.4 9-10 - - 0 1);",
            chain(ChainWhy::PoolOverlap, 2, 2),
        ),
        ("", chain(ChainWhy::NoDevice, 0, 1)),
        ("n :: Null;\nn -> Discard;", chain(ChainWhy::NoDevice, 0, 1)),
        (
            "FromDevice(a) -> ToDevice(b",
            Fault::Click(ClickFault {
                why: ClickWhy::Lex,
                line: 1,
                column: 26,
            }),
        ),
    ];
    for (chain, fault) in cases {
        let mut files = files(rt.alloc(), chain, &HEADER)?;
        let outcome = run(rt.alloc(), &mut files)?;
        check(&rt, &outcome, 2, fault, &[]);
        assert_eq!(rt; files.written("out"), [].as_slice());
    }
    Ok(())
}

#[test]
fn other_words_are_no_command(rt: HostRuntime) -> Result<(), Fail> {
    let lists: [(&[&str], u32); 8] = [
        (&[], 0),
        (&["gen", "chain", "script", "in:a=in", "out:b=out"], 0),
        (&["run", "chain"], 2),
        (
            &[
                "run",
                "--servers=2",
                "chain",
                "script",
                "in:a=in",
                "out:b=out",
            ],
            1,
        ),
        (&["run", "chain", "script", "in:a", "out:b=out"], 3),
        (&["run", "chain", "chain", "in:a=in", "out:b=out"], 2),
        (&["run", "chain", "script", "in:a=-", "out:b=out"], 3),
        (&["run", "chain", "script", "in:a=in", "out:b=in"], 4),
    ];
    for (list, word) in lists {
        let mut files = files(rt.alloc(), STRAIGHT, &HEADER)?;
        let outcome = run_words(rt.alloc(), list, &mut files)?;
        check(&rt, &outcome, 1, Fault::UsageWord(word), &[]);
        assert_eq!(rt; files.written("out"), [].as_slice());
    }
    // A device without a file is told by its number.
    let mut files = files(rt.alloc(), STRAIGHT, &HEADER)?;
    let list = ["run", "chain", "script", "in:a=in"];
    let outcome = run_words(rt.alloc(), &list, &mut files)?;
    check(&rt, &outcome, 1, Fault::Unbound(2), &[]);
    Ok(())
}
