//! Datagrams that are judged and replied to, beside a loop that copies their octets. The words are
//! names, of `plain`, `options` and `copies`, and a count of datagrams. A line tells each name, the
//! count and a checksum of the octets written.

use crate::judging::{REQUEST, served};
use anyhow::{Context, bail};
use pcp_base::{Address, Answer, Config};
use pcp_options::{Verdict, judge, write_reply};
use std::alloc::Global;

/// PREFER_FAILURE, FILTER 198.51.100.7 with prefix 128 and port 53, PORT_SET of 8 ports from 5000 on.
static OPTIONS: [u8; 40] = [
    2, 0, 0, 0, 3, 0, 0, 20, 0, 128, 0, 53, 0, 0, 0, 0, 0, 0, 0, 0, 0, 0, 0xff, 0xff, 198, 51, 100,
    7, 130, 0, 0, 5, 0, 8, 0x13, 0x88, 0, 0, 0, 0,
];

/// Judges the request and puts its reply into `out`; leaves `out` as it is where it isn't asked.
fn answer(
    alloc: Global,
    config: &Config,
    message: &[u8],
    epoch: u32,
    out: &mut Vec<u8>,
) -> anyhow::Result<()> {
    if message.len() < 2 {
        return Ok(());
    }
    let source = Address::v4(10, 0, 0, 5);
    let Verdict::Asked { ask, items, .. } = judge(alloc, config, &source, message)? else {
        return Ok(());
    };
    let answer = Answer::Mapped {
        lifetime: 3600,
        external: 1024,
        address: Address::v4(192, 0, 2, 1),
        set: None,
    };
    Ok(write_reply(alloc, out, message, &ask, &items, &answer, epoch)?)
}

/// Octet 11, the last of a reply's epoch, and the length.
fn told(out: &[u8]) -> u64 {
    let last = out.get(11).copied().unwrap_or(0);
    u64::from(last).wrapping_add(out.len() as u64)
}

/// Adds up what so many replies tell.
fn sum_of_replies(
    alloc: Global,
    config: &Config,
    message: &[u8],
    count: u32,
    out: &mut Vec<u8>,
) -> anyhow::Result<u64> {
    let mut sum = 0u64;
    for epoch in 0..count {
        out.clear();
        answer(alloc, config, message, epoch, out)?;
        sum = sum.wrapping_add(told(out));
    }
    Ok(sum)
}

/// The same over copies of the request.
fn sum_of_copies(count: u32, out: &mut Vec<u8>) -> anyhow::Result<u64> {
    let mut sum = 0u64;
    for _ in 0..count {
        out.clear();
        out.extend_from_slice(&REQUEST)?;
        sum = sum.wrapping_add(told(out));
    }
    Ok(sum)
}

/// The request with these options.
fn message_of(alloc: Global, options: &[u8]) -> anyhow::Result<Vec<u8>> {
    let mut message = REQUEST.to_vec(alloc)?;
    message.extend_from_slice(options)?;
    Ok(message)
}

/// Judges the request with these options, and replies to it.
fn replies(alloc: Global, options: &[u8], count: u32) -> anyhow::Result<u64> {
    let message = message_of(alloc, options)?;
    let config = served(alloc)?;
    sum_of_replies(alloc, &config, &message, count, &mut Vec::new(alloc))
}

/// Does what a name stands for.
fn sum_of(alloc: Global, name: &str, count: u32) -> anyhow::Result<u64> {
    match name {
        "plain" => replies(alloc, &[], count),
        "options" => replies(alloc, &OPTIONS, count),
        "copies" => sum_of_copies(count, &mut Vec::new(alloc)),
        _ => bail!("{name:?} is not one of the names"),
    }
}

/// Goes through the names.
pub(crate) fn run(rt: &HostRuntime, words: &[String]) -> anyhow::Result<()> {
    let (last, names) = words.split_last().context("a count is missing")?;
    let count = last.parse::<u32>().context("reading the count")?;
    for name in names {
        println!(rt; "{name} {count} {}", sum_of(rt.alloc(), name, count)?)?;
    }
    Ok(())
}
