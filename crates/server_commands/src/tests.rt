//! Tests: words of commands and the lines of statuses.
use crate::{Command, ConfigCause, LoadPlan, Status, command_of};
use pcp_base::{Memory, Moment};
use std::alloc::Global;
use std::test::Fail;

// Words with a space between each two, and whether they are a command.
static WORDS: [(&str, bool); 12] = [
    ("play c s j 0", true),
    ("play c s j 1099511627776", false),
    ("play c s j 01", false),
    ("play c s j", false),
    ("dump c j", true),
    ("dump c j 0", false),
    ("load c j 1000 18446744073709551615 1000000", true),
    ("load c j 1000 18446744073709551616 1", false),
    ("load c j 1000 7 1000001", false),
    ("load c j 1000 +7 1", false),
    ("serve c j 5351 5400", false),
    ("Play c s j 0", false),
];

#[test]
fn words_are_commands(rt: HostRuntime) -> Result<(), Fail> {
    for (text, is) in &WORDS {
        let found = command_of(&words_of(rt.alloc(), text)?);
        assert_eq!(rt; found.is_some(), *is, "{text}");
    }
    Ok(())
}

#[test]
fn loads_are_read(rt: HostRuntime) -> Result<(), Fail> {
    let words = words_of(rt.alloc(), "load c j 1000 7 20000")?;
    let start = Moment::of(1_000).ok_or("no moment")?;
    let plan = LoadPlan {
        start,
        number: 7,
        count: 20_000,
    };
    assert!(rt; command_of(&words) == Some(Command::Load(plan)));
    Ok(())
}

// The words of a text.
fn words_of(alloc: Global, text: &str) -> Result<Vec<String>, Memory> {
    let mut words = Vec::new(alloc);
    for word in text.split(' ') {
        words.push(String::from_str(alloc, word)?)?;
    }
    Ok(words)
}

// Each status, its exit and its line.
static LINES: [(Status, u8, &str); 10] = [
    (Status::Done, 0, "pcp: done"),
    (Status::WordsRefused, 2, "pcp: words refused"),
    (
        Status::ConfigRefused(ConfigCause::TooLong),
        3,
        "pcp: configuration refused: too long",
    ),
    (
        Status::ConfigRefused(ConfigCause::NotToml),
        3,
        "pcp: configuration refused: not toml",
    ),
    (
        Status::ConfigRefused(ConfigCause::NotConfig),
        3,
        "pcp: configuration refused: not a configuration",
    ),
    (Status::ScriptRefused(3), 4, "pcp: script refused at line 3"),
    (Status::ReadFault, 5, "pcp: read failed"),
    (Status::WriteFault, 6, "pcp: write failed"),
    (Status::DiskFault(15), 7, "pcp: disk of shard 15 failed"),
    (Status::Memory, 8, "pcp: out of memory"),
];

#[test]
fn statuses_have_lines(rt: HostRuntime) -> Result<(), Fail> {
    for (status, exit, line) in &LINES {
        assert_eq!(rt; status.exit(), *exit);
        let told = format!(in rt.alloc(); "{status}")?;
        assert!(rt; told.as_str() == *line, "{told}");
    }
    Ok(())
}
