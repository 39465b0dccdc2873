//! Tests: the lines of statuses.
use crate::ToolStatus;
use pcp_base::Code;
use std::test::Fail;

// Each status, its exit and its line.
static LINES: [(ToolStatus, u8, &str); 11] = [
    (ToolStatus::Done, 0, "pcp: done"),
    (ToolStatus::WordsRefused, 2, "pcp: words refused"),
    (ToolStatus::LinkFault, 5, "pcp: read failed"),
    (ToolStatus::WriteFault, 6, "pcp: write failed"),
    (ToolStatus::Memory, 8, "pcp: out of memory"),
    (ToolStatus::EntropyFault, 10, "pcp: no random word"),
    (ToolStatus::Silence, 11, "pcp: no answer"),
    (
        ToolStatus::Refused(Code::NoResources),
        12,
        "pcp: refused with code 8",
    ),
    (ToolStatus::OrderRefused, 12, "pcp: refused"),
    (ToolStatus::Turns, 13, "pcp: too many turns"),
    (ToolStatus::Stopped, 14, "pcp: stopped"),
];

#[test]
fn statuses_have_lines(rt: HostRuntime) -> Result<(), Fail> {
    for (status, exit, line) in &LINES {
        assert_eq!(rt; status.exit(), *exit);
        let told = format!(in rt.alloc(); "{status}")?;
        assert!(rt; told.as_str() == *line, "{told}");
    }
    Ok(())
}
