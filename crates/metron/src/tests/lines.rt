//! The lines that the program prints.
use crate::{Fault, FileId};
use mt_click::{ClickFault, ClickWhy};
use mt_elements::{ChainFault, ChainWhy};
use mt_pcap::PcapFault;
use mt_script::{ScriptFault, ScriptWhy};
use std::test::Fail;

#[test]
fn each_fault_has_its_line(rt: HostRuntime) -> Result<(), Fail> {
    let click = ClickFault {
        why: ClickWhy::Lex,
        line: 2,
        column: 7,
    };
    let chain = ChainFault {
        why: ChainWhy::LayerClash,
        element: 3,
        line: 4,
    };
    let script = ScriptFault {
        line: 9,
        why: ScriptWhy::BadNumber,
    };
    let lines: [(Fault, &str); 15] = [
        (Fault::UsageWord(3), "metron: usage at word 3"),
        (Fault::Unbound(2), "metron: device 2 is not bound"),
        (
            Fault::Unbuilt(FileId::Chain),
            "metron: not built yet: chain",
        ),
        (Fault::TooLong(FileId::Script), "metron: too long: script"),
        (
            Fault::Click(click),
            "metron: chain text line 2 column 7: Lex",
        ),
        (
            Fault::Chain(chain),
            "metron: chain element 3 line 4: LayerClash",
        ),
        (Fault::Script(script), "metron: script line 9: BadNumber"),
        (
            Fault::Read(FileId::Capture(12)),
            "metron: read failed: capture 12",
        ),
        (
            Fault::Write(FileId::Output(1)),
            "metron: write failed: output 1",
        ),
        (
            Fault::Capture(1, PcapFault::NotPcap),
            "metron: capture 1: NotPcap",
        ),
        (
            Fault::Capture(2, PcapFault::WrongLink(113)),
            "metron: capture 2: WrongLink 113",
        ),
        (
            Fault::Capture(3, PcapFault::BadRecord(24)),
            "metron: capture 3: BadRecord 24",
        ),
        (
            Fault::Capture(4, PcapFault::Torn(148)),
            "metron: capture 4: Torn 148",
        ),
        (Fault::Memory, "metron: no memory"),
        (Fault::Frames(16_777_217), "metron: 16777217 frames"),
    ];
    for (fault, line) in lines {
        let text = format!(in rt.alloc(); "{fault}")?;
        assert_eq!(rt; text.as_str(), line);
    }
    Ok(())
}
