//! Runs over links in memory.
use crate::packets::{
    CLIENT_DOOR, CLIENT_PORT, SERVER, from_client, from_server, grant_down, grant_up, refusal_down,
    refusal_up, request, request_up,
};
use pcp_base::{Address, Datagram, Memory, Octets};
use pcp_io::{InboxItem, MemoryInbox, MemoryOutbox, StepClock};
use proxy_runs::{SERVER_PORT, run_proxy};
use std::alloc::Global;
use std::sync::Wait;
use std::test::Fail;
use tool_commands::ToolStatus;

// Without the word for the key.
static WORDS: [&str; 8] = [
    "proxy",
    "--server",
    "192.0.2.9",
    "--own",
    "10.0.0.2",
    "--inner",
    "10.0.0.1",
    "--key",
];

static KEY: &str = "0707070707070707070707070707070707070707070707070707070707070707";

// Plain words, with the key.
fn words(alloc: Global) -> Result<Vec<String>, Memory> {
    let mut words = Vec::new(alloc);
    for word in &WORDS {
        words.push(String::from_str(alloc, word)?)?;
    }
    words.push(String::from_str(alloc, KEY)?)?;
    Ok(words)
}

// Two clients ask with one nonce and one port; each grant comes twice. Then the first one asks again, and
// the server doesn't let the relay ask for others.
fn items(alloc: Global) -> Result<Vec<InboxItem>, Memory> {
    let mut items = Vec::new(alloc);
    items.push(InboxItem::Packet(from_client(5, request(alloc, 5)?)))?;
    items.push(InboxItem::Packet(from_client(6, request(alloc, 6)?)))?;
    items.push(InboxItem::Lose(0, SERVER))?;
    items.push(InboxItem::Status(7))?;
    for last in [6, 5] {
        items.push(InboxItem::Packet(from_server(grant_up(alloc, last)?)))?;
        items.push(InboxItem::Packet(from_server(grant_up(alloc, last)?)))?;
    }
    items.push(InboxItem::Packet(from_client(5, request(alloc, 5)?)))?;
    items.push(InboxItem::Quiet)?;
    items.push(InboxItem::Packet(from_server(refusal_up(alloc, 5)?)))?;
    Ok(items)
}

/// How a run ended, and what it sent.
#[derive(Drop)]
struct Ran {
    status: ToolStatus,
    down: MemoryOutbox,
    up: MemoryOutbox,
}

// A relay over these links.
fn run<R: Wait>(
    rt: &R,
    alloc: Global,
    words: &[String],
    from: MemoryInbox,
    up: MemoryOutbox,
    clock: StepClock,
) -> Result<Ran, Memory> {
    let (mut from, mut up, mut clock) = (from, up, clock);
    let mut down = outbox(alloc)?;
    let mut dropped = 0;
    let status = run_proxy(
        rt,
        alloc,
        words,
        None,
        &mut down,
        &mut up,
        &mut from,
        &mut clock,
        &mut dropped,
    );
    Ok(Ran { status, down, up })
}

fn outbox(alloc: Global) -> Result<MemoryOutbox, Memory> {
    MemoryOutbox::new(alloc, 10_000)
}

fn is_to(datagram: &Datagram, peer: Address, port: u16, door: u8, octets: &Octets) -> bool {
    datagram.peer == peer
        && datagram.port == port
        && datagram.door == door
        && datagram.octets.items() == octets.items()
}

// Whether what was sent are the relay's requests for these clients, in order.
fn are_up(alloc: Global, sent: &[Datagram], clients: &[u8]) -> Result<bool, Memory> {
    for (datagram, client) in sent.iter().zip(clients) {
        let wanted = request_up(alloc, *client)?;
        if !is_to(datagram, SERVER, SERVER_PORT, 0, &wanted) {
            return Ok(false);
        }
    }
    Ok(sent.len() == clients.len())
}

// Whether what was sent are these replies to these clients, in order.
fn are_down(sent: &[Datagram], clients: &[u8], replies: &[Octets]) -> bool {
    for ((datagram, client), reply) in sent.iter().zip(clients).zip(replies) {
        let peer = Address::v4(10, 0, 0, *client);
        if !is_to(datagram, peer, CLIENT_PORT, CLIENT_DOOR, reply) {
            return false;
        }
    }
    sent.len() == clients.len()
}

// What clients are told of two grants and a refusal.
fn told(alloc: Global) -> Result<Vec<Octets>, Memory> {
    let mut replies = Vec::new(alloc);
    replies.push(grant_down(alloc)?)?;
    replies.push(grant_down(alloc)?)?;
    replies.push(refusal_down(alloc)?)?;
    Ok(replies)
}

#[test]
fn replies_reach_their_clients(rt: HostRuntime) -> Result<(), Fail> {
    let alloc = rt.alloc();
    let from = MemoryInbox::new(alloc, items(alloc)?)?;
    let clock = StepClock::new(alloc, vec![in alloc; 1_000, 2_000]?)?;
    let ran = run(&rt, alloc, &words(alloc)?, from, outbox(alloc)?, clock)?;
    assert!(rt; ran.status == ToolStatus::Done);
    assert!(rt; are_up(alloc, ran.up.sent(), &[5, 6, 5])?);
    assert!(rt; are_down(ran.down.sent(), &[6, 5, 5], &told(alloc)?));
    Ok(())
}

// Two requests, and then the grants of both.
fn two_grants(alloc: Global) -> Result<Vec<InboxItem>, Memory> {
    let mut items = Vec::new(alloc);
    for last in [6, 5] {
        items.push(InboxItem::Packet(from_client(last, request(alloc, last)?)))?;
    }
    for last in [6, 5] {
        items.push(InboxItem::Packet(from_server(grant_up(alloc, last)?)))?;
    }
    Ok(items)
}

// What waited for a minute is dropped before its reply is heard.
#[test]
fn requests_wait_a_minute(rt: HostRuntime) -> Result<(), Fail> {
    let alloc = rt.alloc();
    let from = MemoryInbox::new(alloc, two_grants(alloc)?)?;
    let clock = StepClock::new(alloc, vec![in alloc; 5_000, 5_000, 65_000]?)?;
    let ran = run(&rt, alloc, &words(alloc)?, from, outbox(alloc)?, clock)?;
    assert!(rt; ran.status == ToolStatus::Done);
    assert!(rt; ran.up.sent().len() == 2 && ran.down.sent().len() == 0);
    Ok(())
}

// One send up is lost, and then the inbox fails.
#[test]
fn faults_of_links(rt: HostRuntime) -> Result<(), Fail> {
    let alloc = rt.alloc();
    let mut up = outbox(alloc)?;
    up.fail_at(alloc, 0)?;
    let mut from = MemoryInbox::new(alloc, items(alloc)?)?;
    from.fail_at(alloc, 5)?;
    let clock = StepClock::new(alloc, Vec::new(alloc))?;
    let ran = run(&rt, alloc, &words(alloc)?, from, up, clock)?;
    assert!(rt; ran.status == ToolStatus::LinkFault);
    assert!(rt; are_up(alloc, ran.up.sent(), &[6])?);
    assert!(rt; are_down(ran.down.sent(), &[6], &told(alloc)?));
    Ok(())
}

#[test]
fn no_words_are_refused(rt: HostRuntime) -> Result<(), Fail> {
    let alloc = rt.alloc();
    let from = MemoryInbox::new(alloc, items(alloc)?)?;
    let clock = StepClock::new(alloc, Vec::new(alloc))?;
    let ran = run(&rt, alloc, &Vec::new(alloc), from, outbox(alloc)?, clock)?;
    assert!(rt; ran.status == ToolStatus::WordsRefused && ran.up.sent().len() == 0);
    Ok(())
}
