//! The links of a run in memory.
ghost use Rattle.std.specs.Prelude.{◌<◌, All, IfOk};
ghost use Rattle.pcp_io.specs.declared.clocks.TheConstants.{END_OF_TIME_MS};

use client_runs::{ToolStatus, run_client};
use keep_runs::run_keep;
use pcp_base::{Address, Datagram, Memory, Octets};
use pcp_io::{Clock, Inbox, InboxItem, MemoryInbox, MemoryOutbox, MemorySink, StepClock};
use random_words::ListEntropy;
use std::alloc::Global;
use std::sync::Wait;

/// What comes in a turn.
#[derive(Clone, Copy)]
pub enum Came {
    /// Nothing.
    Quiet,
    /// These octets, from this address.
    Packet(Address, &'static [u8]),
    /// These octets, from this address, but with this epoch.
    At(Address, &'static [u8], u32),
}

/// The number of the take, the word, the send and the write that fail, from 0; a large one for none.
#[derive(Clone, Copy)]
pub struct Failing {
    pub take: u64,
    pub word: u64,
    pub send: u64,
    pub write: u64,
}

/// Nothing fails.
pub const SOUND: Failing = Failing {
    take: u64::MAX,
    word: u64::MAX,
    send: u64::MAX,
    write: u64::MAX,
};

/// How a run ended, with what it sent and printed.
#[derive(Drop)]
pub struct Ended {
    pub status: ToolStatus,
    pub up: MemoryOutbox,
    pub out: MemorySink,
}

/// Runs a command whose words have a space between each two, from 0 milliseconds on. In each turn this comes at
/// this millisecond. The words of the nonce are those of 00 to 0b, and each later word is 1000.
pub fn run_in_memory(
    alloc: Global,
    words: &str,
    turns: &[(u32, Came)],
    failing: &Failing,
) -> Result<Ended, Memory> {
    let words = words_of(alloc, words)?;
    let mut from = inbox_of(alloc, turns, failing)?;
    let mut clock = StepClock::new(alloc, times_of(alloc, turns)?)?;
    run_over(alloc, &words, &mut from, &mut clock, failing)
}

// What a run hands out and prints is kept in memory.
fn run_over<I: Inbox, T: Clock>(
    alloc: Global,
    words: &[String],
    from: &mut I,
    clock: &mut T,
    failing: &Failing,
) -> Result<Ended, Memory> {
    let mut entropy = entropy_of(alloc, failing)?;
    let mut up = outbox_of(alloc, failing)?;
    let mut out = sink_of(alloc, failing)?;
    let status = run_client(
        alloc,
        words,
        None,
        &mut up,
        from,
        clock,
        &mut entropy,
        &mut out,
    );
    Ok(Ended { status, up, out })
}

/// Runs `keep` likewise, with the words of `keep`. The clock is read once more before the first turn.
pub fn keep_in_memory<R: Wait>(
    rt: &R,
    alloc: Global,
    words: &str,
    turns: &[(u32, Came)],
    failing: &Failing,
) -> Result<Ended, Memory> {
    let words = words_of(alloc, words)?;
    let mut from = inbox_of(alloc, turns, failing)?;
    let mut clock = StepClock::new(alloc, times_of(alloc, turns)?)?;
    keep_over(rt, alloc, &words, &mut from, &mut clock, failing)
}

fn keep_over<R: Wait, I: Inbox, T: Clock>(
    rt: &R,
    alloc: Global,
    words: &[String],
    from: &mut I,
    clock: &mut T,
    failing: &Failing,
) -> Result<Ended, Memory> {
    let mut entropy = entropy_of(alloc, failing)?;
    let mut up = outbox_of(alloc, failing)?;
    let mut out = sink_of(alloc, failing)?;
    let status = run_keep(
        rt,
        alloc,
        words,
        None,
        &mut up,
        from,
        clock,
        &mut entropy,
        &mut out,
    );
    Ok(Ended { status, up, out })
}

fn outbox_of(alloc: Global, failing: &Failing) -> Result<MemoryOutbox, Memory> {
    let mut up = MemoryOutbox::new(alloc, 65_536)?;
    up.fail_at(alloc, failing.send)?;
    Ok(up)
}

fn sink_of(alloc: Global, failing: &Failing) -> Result<MemorySink, Memory> {
    let mut out = MemorySink::new(alloc, 65_536)?;
    out.fail_at(alloc, failing.write)?;
    Ok(out)
}

fn inbox_of(
    alloc: Global,
    turns: &[(u32, Came)],
    failing: &Failing,
) -> Result<MemoryInbox, Memory> {
    let mut from = MemoryInbox::new(alloc, items_of(alloc, turns)?)?;
    from.fail_at(alloc, failing.take)?;
    Ok(from)
}

fn words_of(alloc: Global, text: &str) -> Result<Vec<String>, Memory> {
    let mut words = Vec::new(alloc);
    for word in text.split(' ') {
        words.push(String::from_str(alloc, word)?)?;
    }
    Ok(words)
}

fn entropy_of(alloc: Global, failing: &Failing) -> Result<ListEntropy, Memory> {
    let mut words = Vec::new(alloc);
    words.extend_from_slice(&[0x0001_0203, 0x0405_0607, 0x0809_0a0b, 1000])?;
    let mut entropy = ListEntropy::new(alloc, words)?;
    entropy.fail_at(alloc, failing.word)?;
    Ok(entropy)
}

fn items_of(alloc: Global, turns: &[(u32, Came)]) -> Result<Vec<InboxItem>, Memory> {
    let mut items = Vec::new(alloc);
    for (_time, came) in turns {
        items.push(item_of(alloc, came)?)?;
    }
    Ok(items)
}

fn item_of(alloc: Global, came: &Came) -> Result<InboxItem, Memory> {
    match came {
        Came::Quiet => Ok(InboxItem::Quiet),
        Came::Packet(peer, octets) => Ok(packet_of(*peer, octets.to_vec(alloc)?)),
        Came::At(peer, octets, epoch) => {
            Ok(packet_of(*peer, with_epoch(alloc, octets, *epoch)?))
        }
    }
}

fn packet_of(peer: Address, octets: Vec<u8>) -> InboxItem {
    InboxItem::Packet(Datagram {
        peer,
        port: 5351,
        door: 0,
        octets: Octets::of(octets),
    })
}

// The epoch of a response stands from octet 8 on (RFC 6887, section 7.2).
fn with_epoch(alloc: Global, octets: &[u8], epoch: u32) -> Result<Vec<u8>, Memory> {
    let mut text = Vec::new(alloc);
    for (place, octet) in octets.iter().enumerate() {
        let octet = match place {
            8..=11 => epoch.to_be_bytes()[place - 8],
            _ => *octet,
        };
        text.push(octet)?;
    }
    Ok(text)
}

// The run begins at 0.
fn times_of(alloc: Global, turns: &[(u32, Came)]) -> Result<Vec<u64>, Memory>
    ensures { IfOk result (λ times. All (λ t. t < END_OF_TIME_MS) times.items) }
{
    let mut times = Vec::new(alloc);
    times.push(0)?;
    for (time, _came) in turns {
        times.push(u64::from(*time))?;
    }
    Ok(times)
}
