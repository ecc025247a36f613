//! What is written of captures, and faults in words.
use super::push_hex;
use crate::{PcapFault, header, record_head};
use std::test::*;

#[test]
fn headers_and_faults_are_written(rt: HostRuntime) -> Result<(), Fail> {
    let mut text = String::new(rt.alloc());
    push_hex(&mut text, rt.alloc(), &header())?;
    assert_eq!(rt;
        text.as_str(),
        "4d3cb2a10200040000000000000000000000040001000000"
    );
    for (stamp, length, want) in [
        (1_000_002_000, 14, "01000000d00700000e0000000e000000"),
        (0, 262_144, "00000000000000000000040000000400"),
        (
            4_294_967_295_999_999_999,
            1,
            "ffffffffffc99a3b0100000001000000",
        ),
    ] {
        let mut text = String::new(rt.alloc());
        push_hex(&mut text, rt.alloc(), &record_head(stamp, length))?;
        assert_eq!(rt; text.as_str(), want);
    }
    for (fault, want) in [
        (PcapFault::ReadFault, "ReadFault"),
        (PcapFault::NotPcap, "NotPcap"),
        (PcapFault::WrongLink(113), "WrongLink 113"),
        (PcapFault::BadRecord(24), "BadRecord 24"),
        (PcapFault::Torn(148), "Torn 148"),
        (PcapFault::NoMemory, "NoMemory"),
    ] {
        assert_eq!(rt; format!(in rt.alloc(); "{fault}")?.as_str(), want);
    }
    Ok(())
}
