//! Scripts with the commands that they are, and with their first faults.
use crate::{ScriptWhy, parse};
use std::test::Fail;

#[test]
fn scripts_are_read_command_by_command(rt: HostRuntime) -> Result<(), Fail> {
    let rows: [(&str, &str); 13] = [
        ("", "[]"),
        (
            "feed 40\nturn 1 40\nfeed 2\nsplit 1 1 0\nstep 1\nstep 1\ndrain",
            "[Feed(40), Turn(1, 40), Feed(2), Split(1, 1, 0), Step(1), Step(1), Drain]",
        ),
        ("merge 0 2 1\nstats\n", "[Merge(0, 2, 1), Stats]"),
        ("# x\n\n\t \nfeed 1\r\nturn 0 2", "[Feed(1), Turn(0, 2)]"),
        ("#", "[]"),
        (" #feed\n#go", "[]"),
        ("turn 0 1", "[Turn(0, 1)]"),
        ("\tfeed \t 000000001 \n", "[Feed(1)]"),
        ("feed 999999999", "[Feed(999999999)]"),
        ("drain\r\n", "[Drain]"),
        ("\r\n\n\r\n", "[]"),
        ("split 0 0 0", "[Split(0, 0, 0)]"),
        ("step 1 \r\nstats", "[Step(1), Stats]"),
    ];
    for row in rows {
        let commands = parse(rt.alloc(), row.0.as_bytes()).ok().expect(&rt, row.0);
        let shown = format!(in rt.alloc(); "{commands:?}")?;
        assert_eq!(rt; shown.as_str(), row.1, "{}", row.0);
    }
    Ok(())
}

#[test]
fn the_first_fault_is_told_with_its_line(rt: HostRuntime) -> Result<(), Fail> {
    let rows: [(&str, ScriptWhy, u32); 22] = [
        ("go", ScriptWhy::Unknown, 1),
        ("Feed 1", ScriptWhy::Unknown, 1),
        ("feeds 1", ScriptWhy::Unknown, 1),
        ("drain\r", ScriptWhy::Unknown, 1),
        ("\r", ScriptWhy::Unknown, 1),
        ("drain\r\r\n", ScriptWhy::Unknown, 1),
        ("feed\r1", ScriptWhy::Unknown, 1),
        ("split 1 0", ScriptWhy::Missing, 1),
        ("split x 1", ScriptWhy::Missing, 1),
        ("feed", ScriptWhy::Missing, 1),
        ("drain 1", ScriptWhy::Extra, 1),
        ("feed 1 x", ScriptWhy::Extra, 1),
        ("feed 0 0", ScriptWhy::Extra, 1),
        ("feed x", ScriptWhy::BadNumber, 1),
        ("feed #1", ScriptWhy::BadNumber, 1),
        ("feed 0", ScriptWhy::BadNumber, 1),
        ("feed +1", ScriptWhy::BadNumber, 1),
        ("turn 0 0", ScriptWhy::BadNumber, 1),
        ("feed 1000000000", ScriptWhy::BadNumber, 1),
        ("feed 1\r", ScriptWhy::BadNumber, 1),
        ("# x\n\nstep\nfeed 1\nstep 0", ScriptWhy::Missing, 3),
        (
            "feed 1\r\nstats\r\n\r\nstep 0\r\ngo",
            ScriptWhy::BadNumber,
            4,
        ),
    ];
    for row in rows {
        let fault = parse(rt.alloc(), row.0.as_bytes()).expect_err(&rt, row.0);
        assert_eq!(rt; fault.why, row.1, "{}", row.0);
        assert_eq!(rt; fault.line, row.2, "{}", row.0);
    }
    for (why, text) in [
        (ScriptWhy::Unknown, "Unknown"),
        (ScriptWhy::BadNumber, "BadNumber"),
        (ScriptWhy::Missing, "Missing"),
        (ScriptWhy::Extra, "Extra"),
        (ScriptWhy::NoMemory, "NoMemory"),
    ] {
        let shown = format!(in rt.alloc(); "{why}")?;
        assert_eq!(rt; shown.as_str(), text);
    }
    Ok(())
}
