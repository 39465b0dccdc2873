//! That links in memory do this, and succeed with ample memory.
use pcp_base::{Address, Datagram, Endpoint, Octets, Protocol};
use pcp_io::{
    Gate, Inbox, InboxItem, Incoming, LaneAsk, LaneLink, MemoryInbox, MemoryLane, MemoryOutbox,
    NoGate, Outbox, StepClock,
};
use std::alloc::{AllocError, Global};
use std::test::Fail;

// 10.0.0.5 and 198.51.100.7.
const HOST: Address = Address([0, 0, 0, 0, 0, 0, 0, 0, 0, 0, 0xff, 0xff, 10, 0, 0, 5]);

const REMOTE: Address = Address([0, 0, 0, 0, 0, 0, 0, 0, 0, 0, 0xff, 0xff, 198, 51, 100, 7]);

// A datagram of the host with so many octets `x`.
fn packet(alloc: Global, count: usize) -> Result<InboxItem, AllocError> {
    let mut octets = Vec::new(alloc);
    octets.resize(count, b'x')?;
    Ok(InboxItem::Packet(Datagram {
        peer: HOST,
        port: 5000,
        door: 3,
        octets: Octets::of(octets),
    }))
}

fn items(alloc: Global) -> Result<Vec<InboxItem>, AllocError> {
    let mut items = Vec::new(alloc);
    items.push(packet(alloc, 3)?)?;
    items.push(packet(alloc, 2049)?)?;
    items.push(InboxItem::Lose(7, HOST))?;
    items.push(InboxItem::Status(8))?;
    items.push(InboxItem::Quiet)?;
    Ok(items)
}

// What the takes of these give where the second one is to fail.
static TAKEN: [Option<Incoming>; 8] = [
    Some(Incoming::Packet {
        peer: HOST,
        port: 5000,
        door: 3,
        length: 3,
    }),
    None,
    Some(Incoming::Packet {
        peer: HOST,
        port: 5000,
        door: 3,
        length: 2048,
    }),
    Some(Incoming::Lose(7, HOST)),
    Some(Incoming::Status(8)),
    Some(Incoming::Quiet),
    Some(Incoming::Stop),
    Some(Incoming::Stop),
];

#[test]
fn inboxes_in_memory(rt: HostRuntime) -> Result<(), Fail> {
    let alloc = rt.alloc();
    let mut inbox = MemoryInbox::new(alloc, items(alloc)?)?;
    inbox.fail_at(alloc, 1)?;
    let mut room = [b'.'; 2048];
    for (call, taken) in TAKEN.iter().enumerate() {
        assert!(rt; inbox.take(&mut room).ok() == *taken, "{call}");
        assert!(rt; call > 0 || room.starts_with(b"xxx."));
    }
    assert!(rt; inbox.starved() == 0);
    Ok(())
}

// What is sent to an outbox with a room of 8 whose third send is to fail, and whether it is taken.
static SENDS: [(u16, &[u8], bool); 4] = [
    (5000, b"abcde", true),
    (5000, b"fghi", false),
    (5000, b"f", false),
    (5001, b"fgh", true),
];

// Whether these are the datagrams that were taken.
fn are_taken(sent: &[Datagram]) -> bool {
    let [first, second] = sent else {
        return false;
    };
    first.peer == HOST
        && first.port == 5000
        && first.door == 3
        && first.octets.items() == b"abcde".as_slice()
        && second.port == 5001
        && second.octets.items() == b"fgh".as_slice()
}

#[test]
fn outboxes_in_memory(rt: HostRuntime) -> Result<(), Fail> {
    let alloc = rt.alloc();
    let mut outbox = MemoryOutbox::new(alloc, 8)?;
    outbox.fail_at(alloc, 2)?;
    for (port, octets, is_taken) in &SENDS {
        assert!(rt; outbox.send(3, HOST, *port, octets).is_ok() == *is_taken);
    }
    assert!(rt; are_taken(outbox.sent()) && outbox.starved() == 0);
    Ok(())
}

const LOOK: LaneAsk = LaneAsk::Look {
    protocol: Protocol::Udp,
    port: 1024,
    remote: REMOTE,
    remote_port: 53,
};

const OWNER: Endpoint = Endpoint {
    address: HOST,
    protocol: Protocol::Udp,
    port: 5000,
};

// The calls of a lane whose second call is to fail.
fn lane_goes(lane: &mut MemoryLane) -> bool {
    lane.ask(false).ok() == Some(LOOK)
        && lane.answer(None).is_err()
        && lane.answer(Some(OWNER)).is_ok()
        && lane.ask(false).ok() == Some(LaneAsk::Quiet)
        && lane.ask(false).ok() == Some(LaneAsk::Stop)
        && lane.answer(None).is_ok()
}

#[test]
fn lanes_in_memory(rt: HostRuntime) -> Result<(), Fail> {
    let alloc = rt.alloc();
    let mut lane = MemoryLane::new(alloc, vec![in alloc; LOOK, LaneAsk::Quiet]?)?;
    lane.fail_at(alloc, 1)?;
    assert!(rt; lane_goes(&mut lane) && lane.starved() == 0);
    assert!(rt; lane.answers() == [Some(OWNER), None].as_slice());
    Ok(())
}

#[test]
fn gate_of_nobody(_rt: HostRuntime) {
    NoGate.pause(0);
}

fn sends<T: Send>() {}

fn shares<T: Sync>() {}

// Threads may take these with them.
fn crosses_threads() {
    sends::<MemoryInbox>();
    sends::<MemoryOutbox>();
    sends::<MemoryLane>();
    sends::<StepClock>();
    shares::<NoGate>();
}
