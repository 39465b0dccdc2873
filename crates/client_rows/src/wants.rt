//! What a client does over time: that its calls succeed with ample memory, and that they mean these times
//! and these octets.
ghost use Rattle.std.specs.Prelude.{◌≤◌, IfOk, length};
ghost use Rattle.pcp_base.specs.declared.asks.Ask.TheVariants as Asks;
ghost use Rattle.client_core.specs.Wants.{CanBeWanted};

use crate::clients::{FILTER, NONCE, NONE, OWN, REPLY, REQUEST, endpoint, joined};
use EpochFound::{Invalid, Unread, Valid};
use Step::{Announced, Ends, Forgets, Hears, Holds, IsDue, Ticks, Wants};
use What::{ErrorFor, NotMine, Taken, Told};
use client_core::{
    Client, EpochFound, EpochTest, Heard, LONGEST_WAIT_MS, WantRefused, What, next_wait,
};
use pcp_base::{Address, Ask, Code, Datagram, Filter, FilterList, MapAsk, Octets};
use std::alloc::{AllocError, Global};
use std::test::Fail;

pub(crate) const SERVER: Address = Address([
    0, 0, 0, 0, 0, 0, 0, 0, 0, 0, 0xff, 0xff, 192, 0, 2, 9,
]);

// The internal port, the lifetime, the external port, and the last octet of an external address 192.0.2.x;
// both 0 where none is suggested.
pub(crate) struct Port(
    pub(crate) u16,
    pub(crate) u32,
    pub(crate) u16,
    pub(crate) u8,
);

// What is done, and what comes of it.
enum Step {
    // It wants the internal port for an hour, under this id.
    Wants(u16, u32),
    // It is given this word, and asks for this port, where one is due.
    Ticks(u32, Option<Port>),
    // It hears a reply for this port, with a code and an epoch, and is given this word.
    Hears(u32, u8, u32, Port, EpochFound, What),
    // It is given this word, and hears this epoch announced.
    Announced(u32, u32, EpochFound),
    // The want of this id is to end, where there is one.
    Ends(u32, bool),
    // The want of this id is given up, where there is one.
    Forgets(u32, bool),
    // When a tick does something next.
    IsDue(Option<u64>),
    // Until when, in milliseconds, the want of this id holds which port of which address 192.0.2.x.
    Holds(u32, Option<(u64, u16, u8)>),
}

// What a want that prefers to fail and has a filter adds to its request.
static WISHES: [u8; 28] = [
    2, 0, 0, 0, 3, 0, 0, 20, 0, 128, 0, 53, 0, 0, 0, 0, 0, 0, 0, 0, 0, 0, 0xff, 0xff, 198, 51, 100,
    7,
];

// These are wanted with wishes.
fn has_wishes(internal: u16) -> bool {
    internal >= 6000
}

fn filters(alloc: Global, internal: u16) -> Result<Vec<Filter>, AllocError>
    ensures { IfOk result (λ filters. length filters.items ≤ 40) }
{
    if has_wishes(internal) {
        return Ok(vec![in alloc; FILTER]?);
    }
    Ok(Vec::new(alloc))
}

pub(crate) fn ask(alloc: Global, internal: u16) -> Result<MapAsk, AllocError>
    ensures { IfOk result (λ ask. CanBeWanted (Asks.Map ask)) }
{
    let mut from = endpoint(OWN);
    from.port = internal;
    Ok(MapAsk {
        endpoint: from,
        nonce: NONCE,
        lifetime: 3600,
        port: 0,
        address: NONE,
        prefer: has_wishes(internal),
        set: None,
        filters: FilterList::of(filters(alloc, internal)?),
    })
}

// The internal and the external port, as they stand in a message.
fn ports(port: &Port) -> [u8; 4] {
    let [a, b] = port.0.to_be_bytes();
    let [c, d] = port.2.to_be_bytes();
    [a, b, c, d]
}

fn external(last: u8) -> Address {
    if last == 0 {
        return NONE;
    }
    Address::v4(192, 0, 2, last)
}

// What these wishes add to a request; a deletion has none.
fn wishes(port: &Port) -> &'static [u8] {
    if has_wishes(port.0) && port.1 > 0 {
        return &WISHES;
    }
    b""
}

// The request for a port.
fn request(alloc: Global, port: &Port) -> Result<Vec<u8>, AllocError> {
    let lifetime = port.1.to_be_bytes();
    let ports = ports(port);
    let address = external(port.3);
    joined(
        alloc,
        &[
            &REQUEST[..4],
            &lifetime,
            &REQUEST[8..40],
            &ports,
            &address.0,
            wishes(port),
        ],
    )
}

// A reply for a port.
pub(crate) fn reply(
    alloc: Global,
    code: u8,
    epoch: u32,
    port: &Port,
) -> Result<Vec<u8>, AllocError> {
    let front = [2, 0x81, 0, code];
    let lifetime = port.1.to_be_bytes();
    let epoch = epoch.to_be_bytes();
    let ports = ports(port);
    let address = external(port.3);
    joined(
        alloc,
        &[
            &front,
            &lifetime,
            &epoch,
            &REPLY[12..40],
            &ports,
            &address.0,
        ],
    )
}

// An announcement.
pub(crate) fn announced(alloc: Global, epoch: u32) -> Result<Vec<u8>, AllocError> {
    let epoch = epoch.to_be_bytes();
    joined(alloc, &[&[2, 0x80, 0, 0, 0, 0, 0, 0], &epoch, &[0; 12]])
}

// Whether the request is that for the port.
fn is_request(
    alloc: Global,
    sent: Option<Octets>,
    port: &Option<Port>,
) -> Result<bool, AllocError> {
    let Some(port) = port else {
        return Ok(sent.is_none());
    };
    let Some(sent) = sent else {
        return Ok(false);
    };
    Ok(sent.items() == request(alloc, port)?.as_slice())
}

fn wants(client: &mut Client, alloc: Global, now: u32, internal: u16) -> Result<u32, Fail> {
    let map = ask(alloc, internal)?;
    Ok(client.want(alloc, None, Ask::Map(map), u64::from(now))?)
}

// What is heard of octets of this peer.
fn hears(
    client: &mut Client,
    alloc: Global,
    now: u32,
    word: u32,
    peer: Address,
    octets: Vec<u8>,
) -> Result<Heard, Fail> {
    let datagram = Datagram {
        peer,
        port: 5351,
        door: 0,
        octets: Octets::of(octets),
    };
    Ok(client.heard(alloc, &datagram, u64::from(now), word)?)
}

fn holds(client: &Client, id: u32, lease: &Option<(u64, u16, u8)>) -> bool {
    let Some(held) = client.held(id) else {
        return lease.is_none();
    };
    let Some((until, port, last)) = lease else {
        return false;
    };
    (held.until_ms, held.external, held.count) == (*until, *port, 1)
        && held.address == external(*last)
}

// Whether this comes of a step at a time in milliseconds.
fn is_so(client: &mut Client, alloc: Global, now: u32, step: &Step) -> Result<bool, Fail> {
    match step {
        Wants(internal, id) => Ok(wants(client, alloc, now, *internal)? == *id),
        Ticks(word, port) => {
            let sent = client.tick(alloc, u64::from(now), *word)?;
            Ok(is_request(alloc, sent, port)?)
        }
        Hears(word, code, epoch, port, found, what) => {
            let octets = reply(alloc, *code, *epoch, port)?;
            let heard = hears(client, alloc, now, *word, SERVER, octets)?;
            Ok(heard.epoch == *found && heard.what == *what)
        }
        Announced(word, epoch, found) => {
            let octets = announced(alloc, *epoch)?;
            let heard = hears(client, alloc, now, *word, SERVER, octets)?;
            Ok(heard.epoch == *found && heard.what == Told)
        }
        Ends(id, there) => Ok(client.end(*id, u64::from(now)) == *there),
        Forgets(id, there) => Ok(client.forget(*id) == *there),
        IsDue(time) => Ok(client.next_due() == *time),
        Holds(id, lease) => Ok(holds(client, *id, lease)),
    }
}

// The place of the first step of which something else comes.
fn first_other(alloc: Global, steps: &[(u32, Step)]) -> Result<Option<usize>, Fail> {
    let mut client = Client::new(alloc, SERVER, OWN)?;
    for (i, row) in steps.iter().enumerate() {
        if !is_so(&mut client, alloc, row.0, &row.1)? {
            return Ok(Some(i));
        }
    }
    Ok(None)
}

static WAITS: [(u32, Step); 8] = [
    (0, Wants(5000, 0)),
    (0, Ticks(1000, Some(Port(5000, 3600, 0, 0)))),
    (2_999, Ticks(1000, None)),
    (3_000, Ticks(1000, Some(Port(5000, 3600, 0, 0)))),
    (8_999, Ticks(1000, None)),
    (9_000, Ticks(1000, Some(Port(5000, 3600, 0, 0)))),
    (20_999, Ticks(1000, None)),
    (21_000, Ticks(1000, Some(Port(5000, 3600, 0, 0)))),
];

static LONGEST_WAITS: [(u32, Step); 6] = [
    (0, Wants(5000, 0)),
    (0, Ticks(2000, Some(Port(5000, 3600, 0, 0)))),
    (3_299, Ticks(2000, None)),
    (3_300, Ticks(2000, Some(Port(5000, 3600, 0, 0)))),
    (10_559, Ticks(2000, None)),
    (10_560, Ticks(2000, Some(Port(5000, 3600, 0, 0)))),
];

// What the word says of renewals 1 and 2, and what follows when all of them are lost.
static RENEWALS: [(u32, Step); 13] = [
    (0, Wants(5000, 0)),
    (0, Ticks(1000, Some(Port(5000, 3600, 0, 0)))),
    (
        0,
        Hears(32_768, 0, 10, Port(5000, 3600, 1024, 1), Valid, Taken(0)),
    ),
    (2_024_999, Ticks(0, None)),
    (2_025_000, Ticks(32_768, Some(Port(5000, 3600, 1024, 1)))),
    (2_812_499, Ticks(0, None)),
    (2_812_500, Ticks(0, Some(Port(5000, 3600, 1024, 1)))),
    (3_149_999, Ticks(0, None)),
    (3_150_000, Holds(0, Some((3_600_000, 1024, 1)))),
    (3_600_000, Ticks(1000, Some(Port(5000, 3600, 1024, 1)))),
    (3_600_000, Holds(0, None)),
    (3_602_999, Ticks(1000, None)),
    (3_603_000, Ticks(1000, Some(Port(5000, 3600, 1024, 1)))),
];

static FIRST_RENEWAL: [(u32, Step); 6] = [
    (0, Wants(5000, 0)),
    (0, Ticks(1000, Some(Port(5000, 3600, 0, 0)))),
    (
        0,
        Hears(0, 0, 10, Port(5000, 3600, 1024, 1), Valid, Taken(0)),
    ),
    (1_799_999, Ticks(0, None)),
    (1_800_000, Ticks(0, Some(Port(5000, 3600, 1024, 1)))),
    (1_800_000, Holds(0, Some((3_600_000, 1024, 1)))),
];

// Of a lease of 12 seconds renewal 2 comes 4 seconds after renewal 1, and the end before renewal 3.
static SHORT_LEASE: [(u32, Step); 9] = [
    (0, Wants(5000, 0)),
    (0, Ticks(1000, Some(Port(5000, 3600, 0, 0)))),
    (0, Hears(0, 0, 10, Port(5000, 12, 1024, 1), Valid, Taken(0))),
    (6_000, Ticks(0, Some(Port(5000, 3600, 1024, 1)))),
    (9_999, Ticks(0, None)),
    (10_000, Ticks(0, Some(Port(5000, 3600, 1024, 1)))),
    (11_999, Ticks(0, None)),
    (12_000, Ticks(0, Some(Port(5000, 3600, 1024, 1)))),
    (12_000, Holds(0, None)),
];

// An update of a renumbered address comes with an epoch that fell, and is taken.
static UPDATE: [(u32, Step); 7] = [
    (1_010_000, Wants(5000, 0)),
    (1_010_000, Ticks(1000, Some(Port(5000, 3600, 0, 0)))),
    (
        1_010_000,
        Hears(0, 0, 10, Port(5000, 3600, 1024, 1), Valid, Taken(0)),
    ),
    (1_500_000, Holds(0, Some((4_610_000, 1024, 1)))),
    (
        1_500_000,
        Hears(0, 0, 0, Port(5000, 3110, 1024, 77), Invalid, Taken(0)),
    ),
    (1_500_000, Ticks(0, None)),
    (1_500_000, Holds(0, Some((4_610_000, 1024, 77)))),
];

static FALLEN_EPOCH: [(u32, Step); 2] = [
    (1_600_000, Announced(0, 600, Valid)),
    (2_003_000, Announced(0, 3, Invalid)),
];

static LOW_EPOCH: [(u32, Step); 2] = [
    (2_000_000, Announced(0, 2, Valid)),
    (2_003_000, Announced(0, 3, Valid)),
];

// After an invalid epoch both wants are asked for at once, as they were granted.
static TWO_WANTS: [(u32, Step); 13] = [
    (0, Wants(5000, 0)),
    (0, Wants(5001, 1)),
    (0, Ticks(0, Some(Port(5000, 3600, 0, 0)))),
    (0, Ticks(0, Some(Port(5001, 3600, 0, 0)))),
    (
        0,
        Hears(0, 0, 10, Port(5000, 3600, 1024, 1), Valid, Taken(0)),
    ),
    (
        0,
        Hears(0, 0, 10, Port(5001, 3600, 1025, 1), Valid, Taken(1)),
    ),
    (100_000, Announced(0, 3, Invalid)),
    (100_000, Ticks(1000, Some(Port(5000, 3600, 1024, 1)))),
    (100_000, Ticks(1000, Some(Port(5001, 3600, 1025, 1)))),
    (100_000, Ticks(0, None)),
    (100_000, Holds(1, Some((3_600_000, 1025, 1)))),
    (102_999, Ticks(0, None)),
    (103_000, Ticks(1000, Some(Port(5000, 3600, 1024, 1)))),
];

// A want that is to end is asked for until a success has lifetime 0; its id is free then.
static ENDING: [(u32, Step); 13] = [
    (0, Wants(6000, 0)),
    (0, Ticks(1000, Some(Port(6000, 3600, 0, 0)))),
    (
        0,
        Hears(0, 0, 10, Port(6000, 3600, 1024, 1), Valid, Taken(0)),
    ),
    (10_000, Ends(0, true)),
    (10_000, Ticks(1000, Some(Port(6000, 0, 1024, 1)))),
    (
        11_000,
        Hears(0, 0, 21, Port(6000, 3600, 1024, 1), Unread, NotMine),
    ),
    (12_999, Ticks(0, None)),
    (13_000, Ticks(1000, Some(Port(6000, 0, 1024, 1)))),
    (
        14_000,
        Hears(0, 0, 24, Port(6000, 0, 1024, 1), Valid, Taken(0)),
    ),
    (14_000, Holds(0, None)),
    (14_000, Ticks(0, None)),
    (14_000, Ends(0, false)),
    (14_000, Wants(5000, 0)),
];

// Errors of 30, 5000 and 0 seconds, and a success with lifetime 0.
static ERRORS: [(u32, Step); 13] = [
    (0, Wants(5000, 0)),
    (0, Ticks(1000, Some(Port(5000, 3600, 0, 0)))),
    (
        0,
        Hears(
            0,
            8,
            10,
            Port(5000, 30, 0, 0),
            Valid,
            ErrorFor(0, Code::NoResources, 30),
        ),
    ),
    (29_999, Ticks(1000, None)),
    (30_000, Ticks(1000, Some(Port(5000, 3600, 0, 0)))),
    (
        30_000,
        Hears(
            0,
            2,
            40,
            Port(5000, 5000, 0, 0),
            Valid,
            ErrorFor(0, Code::NotAuthorized, 1800),
        ),
    ),
    (1_829_999, Ticks(1000, None)),
    (1_830_000, Ticks(1000, Some(Port(5000, 3600, 0, 0)))),
    (
        1_830_000,
        Hears(
            0,
            8,
            1840,
            Port(5000, 0, 0, 0),
            Valid,
            ErrorFor(0, Code::NoResources, 0),
        ),
    ),
    (1_833_999, Ticks(1000, None)),
    (1_834_000, Ticks(1000, Some(Port(5000, 3600, 0, 0)))),
    (
        1_834_000,
        Hears(
            0,
            0,
            1844,
            Port(5000, 0, 0, 0),
            Valid,
            ErrorFor(0, Code::Success, 30),
        ),
    ),
    (1_863_999, Ticks(1000, None)),
];

// After an invalid epoch what is wanted is due within five seconds, as the word says; another invalid one in
// this time is told and moves nothing, and behind it one moves it again.
static SPREAD: [(u32, Step); 15] = [
    (0, Wants(5000, 0)),
    (0, Ticks(0, Some(Port(5000, 3600, 0, 0)))),
    (
        0,
        Hears(0, 0, 10, Port(5000, 3600, 1024, 1), Valid, Taken(0)),
    ),
    (0, IsDue(Some(1_800_000))),
    (100_000, Announced(32_768, 3, Invalid)),
    (100_000, IsDue(Some(102_500))),
    (101_000, Announced(0, 1, Invalid)),
    (102_499, Ticks(1000, None)),
    (102_500, Ticks(1000, Some(Port(5000, 3600, 1024, 1)))),
    (102_500, IsDue(Some(105_500))),
    (104_999, Announced(0, 60, Invalid)),
    (104_999, IsDue(Some(105_500))),
    (105_000, Announced(65_535, 0, Invalid)),
    (105_000, Ticks(1000, None)),
    (105_000, IsDue(Some(109_999))),
];

// A want that is given up asks for nothing more, and its id is free.
static FORGOTTEN: [(u32, Step); 13] = [
    (0, IsDue(None)),
    (0, Wants(5000, 0)),
    (0, Wants(5001, 1)),
    (0, Ticks(1000, Some(Port(5000, 3600, 0, 0)))),
    (0, Ticks(1000, Some(Port(5001, 3600, 0, 0)))),
    (
        0,
        Hears(0, 0, 10, Port(5000, 3600, 1024, 1), Valid, Taken(0)),
    ),
    (2_000, Forgets(0, true)),
    (2_000, Holds(0, None)),
    (2_000, Forgets(0, false)),
    (2_000, IsDue(Some(3_000))),
    (3_000, Ticks(1000, Some(Port(5001, 3600, 0, 0)))),
    (3_000, Ticks(1000, None)),
    (3_000, Wants(5002, 0)),
];

// In an error's time the lease ends, and is dropped then.
static ENDS_IN_AN_ERROR: [(u32, Step); 12] = [
    (0, Wants(5000, 0)),
    (0, Ticks(0, Some(Port(5000, 3600, 0, 0)))),
    (0, Hears(0, 0, 10, Port(5000, 12, 1024, 1), Valid, Taken(0))),
    (0, IsDue(Some(6_000))),
    (6_000, Ticks(0, Some(Port(5000, 3600, 1024, 1)))),
    (
        6_000,
        Hears(
            0,
            8,
            16,
            Port(5000, 30, 0, 0),
            Valid,
            ErrorFor(0, Code::NoResources, 30),
        ),
    ),
    (6_000, IsDue(Some(12_000))),
    (11_999, Ticks(0, None)),
    (11_999, Holds(0, Some((12_000, 1024, 1)))),
    (12_000, Ticks(0, None)),
    (12_000, Holds(0, None)),
    (12_000, IsDue(Some(36_000))),
];

#[test]
fn times_that_are_told(rt: HostRuntime) -> Result<(), Fail> {
    let alloc = rt.alloc();
    let runs: [&[(u32, Step)]; 3] = [&SPREAD, &FORGOTTEN, &ENDS_IN_AN_ERROR];
    for (i, steps) in runs.iter().enumerate() {
        let other = first_other(alloc, steps)?;
        assert!(rt; other.is_none(), "run {i}, step {other:?}");
    }
    Ok(())
}

// By how many milliseconds the want of a client of its own waits behind an invalid epoch, by this word.
fn waits_behind(alloc: Global, word: u32) -> Result<u64, Fail> {
    let mut client = Client::new(alloc, SERVER, OWN)?;
    let _id = wants(&mut client, alloc, 0, 5000)?;
    for (now, epoch) in [(0, 600), (100_000, 3)] {
        let octets = announced(alloc, epoch)?;
        let _heard = hears(&mut client, alloc, now, word, SERVER, octets)?;
    }
    let due = client.next_due().ok_or("none")?;
    Ok(due.saturating_sub(100_000))
}

// How many of 1,000 clients, each with a word of its own, ask in each of the five seconds behind one.
fn spread(alloc: Global) -> Result<[u32; 5], Fail> {
    let mut counts = [0u32; 5];
    for i in 0..1000u32 {
        let wait = waits_behind(alloc, i.wrapping_mul(2_654_435_761))?;
        let second = usize::try_from(wait / 1000).unwrap_or(5);
        let count = counts.get_mut(second).ok_or("late")?;
        *count = count.wrapping_add(1);
    }
    Ok(counts)
}

#[test]
fn clients_dont_ask_at_once(rt: HostRuntime) -> Result<(), Fail> {
    let counts = spread(rt.alloc())?;
    let even = counts.iter().all(|count| (190..=210).contains(count));
    assert!(rt; even, "{counts:?}");
    Ok(())
}

// PORT_SET of five ports from 6000 on.
static FIVE: [u8; 12] = [130, 0, 0, 5, 0, 5, 0x17, 0x70, 0, 0, 0, 0];

// How many ports a want holds that was granted with these options.
fn held_with(alloc: Global, options: &[u8]) -> Result<Option<u16>, Fail> {
    let mut client = Client::new(alloc, SERVER, OWN)?;
    let id = wants(&mut client, alloc, 0, 5000)?;
    let mut octets = reply(alloc, 0, 10, &Port(5000, 3600, 1024, 1))?;
    octets.extend_from_slice(options)?;
    let _heard = hears(&mut client, alloc, 0, 0, SERVER, octets)?;
    Ok(client.held(id).map(|held| held.count))
}

#[test]
fn sets_of_ports(rt: HostRuntime) -> Result<(), Fail> {
    let alloc = rt.alloc();
    assert!(rt; held_with(alloc, &FIVE)? == Some(5) && held_with(alloc, b"")? == Some(1));
    Ok(())
}

#[test]
fn wants_over_time(rt: HostRuntime) -> Result<(), Fail> {
    let alloc = rt.alloc();
    let runs: [&[(u32, Step)]; 10] = [
        &WAITS,
        &LONGEST_WAITS,
        &RENEWALS,
        &FIRST_RENEWAL,
        &SHORT_LEASE,
        &UPDATE,
        &FALLEN_EPOCH,
        &LOW_EPOCH,
        &TWO_WANTS,
        &ENDING,
    ];
    for (i, steps) in runs.iter().enumerate() {
        let other = first_other(alloc, steps)?;
        assert!(rt; other.is_none(), "run {i}, step {other:?}");
    }
    Ok(())
}

#[test]
fn errors_of_wants(rt: HostRuntime) -> Result<(), Fail> {
    let other = first_other(rt.alloc(), &ERRORS)?;
    assert!(rt; other.is_none(), "step {other:?}");
    Ok(())
}

// Whether a reply of this peer with this first octet of the nonce says nothing.
fn is_stray(alloc: Global, peer: Address, nonce: u8) -> Result<bool, Fail> {
    let mut client = Client::new(alloc, SERVER, OWN)?;
    let _id = wants(&mut client, alloc, 0, 5000)?;
    let mut octets = reply(alloc, 0, 10, &Port(5000, 3600, 1024, 1))?;
    if let Some(octet) = octets.get_mut(24) {
        *octet = nonce;
    }
    let heard = hears(&mut client, alloc, 0, 0, peer, octets)?;
    Ok(heard.epoch == Unread && heard.what == NotMine)
}

#[test]
fn strays(rt: HostRuntime) -> Result<(), Fail> {
    let alloc = rt.alloc();
    assert!(rt; !is_stray(alloc, SERVER, 0)?);
    assert!(rt; is_stray(alloc, OWN, 0)? && is_stray(alloc, SERVER, 1)?);
    Ok(())
}

// Whether 64 wants have the ids from 0 on, and there is no room for another.
fn fills(alloc: Global) -> Result<bool, Fail> {
    let mut client = Client::new(alloc, SERVER, OWN)?;
    for id in 0..64u16 {
        if wants(&mut client, alloc, 0, 5000 + id)? != u32::from(id) {
            return Ok(false);
        }
    }
    let map = ask(alloc, 5064)?;
    Ok(matches!(
        client.want(alloc, None, Ask::Map(map), 0),
        Err(WantRefused::Full)
    ))
}

#[test]
fn most_wants(rt: HostRuntime) -> Result<(), Fail> {
    assert!(rt; fills(rt.alloc())?);
    Ok(())
}

// The wait before, a word, and the wait.
static WAITS_OF_WORDS: [(u64, u32, u64); 7] = [
    (0, 1000, 3000),
    (3000, 1000, 6000),
    (6000, 1000, 12_000),
    (0, 2000, 3300),
    (3300, 2000, 7260),
    (0, 0, 2700),
    (1_126_400, 4001, 1_126_400),
];

#[test]
fn waits(rt: HostRuntime) {
    for (previous, word, wait) in &WAITS_OF_WORDS {
        let previous = (*previous).min(LONGEST_WAIT_MS);
        assert!(rt; next_wait(previous, *word) == *wait, "after {previous}");
    }
}

// An epoch and the second at which it is heard, another one and its second, and whether that is valid.
static EPOCHS: [(u32, u64, u32, u64, bool); 8] = [
    (600, 1600, 3, 2003, false),
    (2, 2000, 3, 2003, true),
    (4, 2003, 3, 2003, true),
    (5, 2003, 3, 2003, false),
    (0, 0, 16, 13, true),
    (0, 0, 16, 12, false),
    (0, 0, 13, 16, true),
    (0, 0, 12, 16, false),
];

#[test]
fn epochs(rt: HostRuntime) {
    for (server, seconds, next, then, valid) in &EPOCHS {
        let mut test = EpochTest::new();
        let first = test.hear(*server, *seconds);
        let second = test.hear(*next, *then);
        let third = test.hear(*next, *then);
        assert!(rt; first && second == *valid && third, "{next} after {server}");
    }
}
