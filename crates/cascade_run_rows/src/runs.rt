//! Runs over links in memory.
use crate::packets::{
    CLIENT_DOOR, CLIENT_PORT, SERVER, announcement, from_client, from_server, full_down,
    grant_down, grant_up, request, request_up,
};
use cascade_runs::{SERVER_PORT, run_cascade};
use pcp_base::{Address, Datagram, Memory, Octets};
use pcp_io::{InboxItem, MemoryInbox, MemoryOutbox, StepClock};
use std::alloc::Global;
use std::sync::Wait;
use std::test::Fail;
use tool_commands::ToolStatus;

// Without the word for the key.
static WORDS: [&str; 12] = [
    "cascade",
    "--server",
    "192.0.2.9",
    "--own",
    "198.51.100.2",
    "--inner",
    "192.168.1.1",
    "--low",
    "20000",
    "--high",
    "20001",
    "--key",
];

static KEY: &str = "0707070707070707070707070707070707070707070707070707070707070707";

// Plain words, with the key.
fn words(alloc: Global) -> Result<Vec<String>, Memory> {
    let mut words = Vec::new(alloc);
    for word in &WORDS {
        words.push(String::from_str(alloc, word)?)?;
    }
    words.push(String::from_str(alloc, KEY)?)?;
    Ok(words)
}

// Three clients ask with one nonce and one port, and the server grants what the first asked.
fn items(alloc: Global) -> Result<Vec<InboxItem>, Memory> {
    let mut items = Vec::new(alloc);
    for last in [5, 6, 7] {
        items.push(InboxItem::Packet(from_client(last, request(alloc, last)?)))?;
    }
    items.push(InboxItem::Packet(from_server(grant_up(alloc, 5)?)))?;
    Ok(items)
}

/// How a run ended, and what it sent.
#[derive(Drop)]
struct Ran {
    status: ToolStatus,
    down: MemoryOutbox,
    up: MemoryOutbox,
}

// A cascade over these links.
fn run<R: Wait>(
    rt: &R,
    alloc: Global,
    words: &[String],
    from: MemoryInbox,
    clock: StepClock,
) -> Result<Ran, Memory> {
    let (mut from, mut clock) = (from, clock);
    let mut down = MemoryOutbox::new(alloc, 10_000)?;
    let mut up = MemoryOutbox::new(alloc, 10_000)?;
    let mut dropped = 0;
    let status = run_cascade(
        rt,
        alloc,
        words,
        None,
        &mut down,
        &mut up,
        &mut from,
        &mut clock,
        &mut dropped,
    );
    Ok(Ran { status, down, up })
}

fn is_to(datagram: &Datagram, peer: Address, port: u16, door: u8, octets: &Octets) -> bool {
    datagram.peer == peer
        && datagram.port == port
        && datagram.door == door
        && datagram.octets.items() == octets.items()
}

// Whether what was sent are the cascade's requests for these clients, in order.
fn are_up(alloc: Global, sent: &[Datagram], clients: &[u8]) -> Result<bool, Memory> {
    for (datagram, client) in sent.iter().zip(clients) {
        let wanted = request_up(alloc, *client)?;
        if !is_to(datagram, SERVER, SERVER_PORT, 0, &wanted) {
            return Ok(false);
        }
    }
    Ok(sent.len() == clients.len())
}

// Whether what was sent are these replies to these clients, in order.
fn are_down(sent: &[&Datagram], clients: &[u8], replies: &[Octets]) -> bool {
    for ((datagram, client), reply) in sent.iter().zip(clients).zip(replies) {
        let peer = Address::v4(192, 168, 1, *client);
        if !is_to(datagram, peer, CLIENT_PORT, CLIENT_DOOR, reply) {
            return false;
        }
    }
    sent.len() == clients.len()
}

// Where all clients hear.
const ALL_HOSTS: Address = Address([0, 0, 0, 0, 0, 0, 0, 0, 0, 0, 0xff, 0xff, 224, 0, 0, 1]);

// What was sent to all clients, or to each of them.
fn sent_to(alloc: Global, sent: &[Datagram], all: bool) -> Result<Vec<&Datagram>, Memory> {
    let mut found = Vec::new(alloc);
    for datagram in sent {
        if (datagram.peer == ALL_HOSTS) == all {
            found.push(datagram)?;
        }
    }
    Ok(found)
}

// Whether these are announcements of these epochs, in order.
fn are_announced(alloc: Global, sent: &[&Datagram], epochs: &[u8]) -> Result<bool, Memory> {
    for (datagram, epoch) in sent.iter().zip(epochs) {
        let wanted = announcement(alloc, *epoch)?;
        if !is_to(datagram, ALL_HOSTS, 5_350, 0, &wanted) {
            return Ok(false);
        }
    }
    Ok(sent.len() == epochs.len())
}

// What clients are told of no port that is left, and of the grant.
fn told(alloc: Global) -> Result<Vec<Octets>, Memory> {
    let mut replies = Vec::new(alloc);
    replies.push(full_down(alloc)?)?;
    replies.push(grant_down(alloc)?)?;
    Ok(replies)
}

#[test]
fn ports_are_tied_to_clients(rt: HostRuntime) -> Result<(), Fail> {
    let alloc = rt.alloc();
    let from = MemoryInbox::new(alloc, items(alloc)?)?;
    let clock = StepClock::new(alloc, vec![in alloc; 0, 1_000, 1_000, 1_000, 3_000]?)?;
    let ran = run(&rt, alloc, &words(alloc)?, from, clock)?;
    assert!(rt; ran.status == ToolStatus::Done);
    assert!(rt; are_up(alloc, ran.up.sent(), &[5, 6])?);
    let down = sent_to(alloc, ran.down.sent(), false)?;
    assert!(rt; are_down(&down, &[7, 5], &told(alloc)?));
    Ok(())
}

// One announcement an item, while any is due: the ten of a beginning are over after 127750 milliseconds.
#[test]
fn a_beginning_is_announced(rt: HostRuntime) -> Result<(), Fail> {
    let alloc = rt.alloc();
    let mut items = Vec::new(alloc);
    for _ in 0..14 {
        items.push(InboxItem::Quiet)?;
    }
    let times = vec![in alloc;
        5_000, 5_000, 5_249, 5_250, 5_750, 6_750, 8_750, 12_750, 20_750, 36_750, 68_749, 68_750,
        132_749, 132_750, 999_000,
    ]?;
    let from = MemoryInbox::new(alloc, items)?;
    let ran = run(
        &rt,
        alloc,
        &words(alloc)?,
        from,
        StepClock::new(alloc, times)?,
    )?;
    let told = sent_to(alloc, ran.down.sent(), true)?;
    assert!(rt; are_announced(alloc, &told, &[0, 0, 0, 1, 3, 7, 15, 31, 63, 127])?);
    assert!(rt; ran.down.sent().len() == 10 && ran.up.sent().len() == 0);
    Ok(())
}

#[test]
fn no_words_are_refused(rt: HostRuntime) -> Result<(), Fail> {
    let alloc = rt.alloc();
    let from = MemoryInbox::new(alloc, items(alloc)?)?;
    let clock = StepClock::new(alloc, Vec::new(alloc))?;
    let ran = run(&rt, alloc, &Vec::new(alloc), from, clock)?;
    assert!(rt; ran.status == ToolStatus::WordsRefused && ran.up.sent().len() == 0);
    Ok(())
}
