//! Tests: what sources in memory are read as, and how their reads fail.
use crate::{ConfigFault, config_of};
use pcp_base::Memory;
use pcp_config::LONGEST_CONFIG;
use pcp_io::MemorySource;
use server_commands::ConfigCause;
use std::alloc::Global;
use std::test::Fail;

// How a source was read.
#[derive(Clone, Copy, Debug, PartialEq, Eq)]
enum Shown {
    // the quota
    Config(u32),
    TooLong,
    NotToml,
    NotConfig,
    Read,
    Memory,
}

fn shown_of(alloc: Global, source: &mut MemorySource) -> Shown {
    match config_of(alloc, source) {
        Ok(config) => Shown::Config(config.quota),
        Err(ConfigFault::Refused(ConfigCause::TooLong)) => Shown::TooLong,
        Err(ConfigFault::Refused(ConfigCause::NotToml)) => Shown::NotToml,
        Err(ConfigFault::Refused(ConfigCause::NotConfig)) => Shown::NotConfig,
        Err(ConfigFault::Read) => Shown::Read,
        Err(ConfigFault::Memory) => Shown::Memory,
    }
}

// A text, the number of the read that fails, and how it is read. The read that finds the end is the
// second one.
static SOURCES: [(&str, u64, Shown); 9] = [
    (
        "quota = 7\n[[external]]\naddress = \"192.0.2.1\"\nlow = 1024\nhigh = 65535\n",
        9,
        Shown::Config(7),
    ),
    ("quota = 0", 9, Shown::NotConfig),
    ("", 9, Shown::NotConfig),
    ("quota =", 9, Shown::NotToml),
    ("quota =", 0, Shown::Read),
    ("quota =", 1, Shown::Read),
    ("quota =", 2, Shown::NotToml),
    ("", 0, Shown::Read),
    ("quota = 64", 1, Shown::Read),
];

fn read_failing(alloc: Global, text: &str, failing: u64) -> Result<Shown, Memory> {
    let mut source = MemorySource::new(alloc, text.as_bytes().to_vec(alloc)?)?;
    source.fail_at(alloc, failing)?;
    Ok(shown_of(alloc, &mut source))
}

// A source of so many octets, whose read 257 fails: the one behind the longest configuration.
fn read_filled(alloc: Global, length: usize) -> Result<Shown, Memory> {
    let mut text = Vec::new(alloc);
    text.resize(length, b'#')?;
    let mut source = MemorySource::new(alloc, text)?;
    source.fail_at(alloc, 257)?;
    Ok(shown_of(alloc, &mut source))
}

#[test]
fn sources_are_read_to_their_end(rt: HostRuntime) -> Result<(), Fail> {
    for (text, failing, expected) in &SOURCES {
        let Ok(read) = read_failing(rt.alloc(), text, *failing) else {
            return Err("no memory".into());
        };
        assert!(rt; read == *expected, "{text} {failing}");
    }
    Ok(())
}

#[test]
fn sources_are_left_past_the_limit(rt: HostRuntime) -> Result<(), Fail> {
    let Ok(longest) = read_filled(rt.alloc(), LONGEST_CONFIG) else {
        return Err("no memory".into());
    };
    assert!(rt; longest == Shown::NotConfig);
    let Ok(longer) = read_filled(rt.alloc(), LONGEST_CONFIG + 1) else {
        return Err("no memory".into());
    };
    assert!(rt; longer == Shown::TooLong);
    Ok(())
}
