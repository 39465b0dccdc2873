//! What a lane answers once a reply has left.

use crate::configs::config_of;
use crate::counts::{ChainedInbox, Counts, counting_outboxes};
use crate::edges::still_clock;
use crate::requests::{Ask, deletion, request};
use crate::serving::serve_blank;
use pcp_base::{Address, Endpoint, Failed, MOST_EXTERNALS, Memory, Protocol};
use pcp_io::{InboxItem, LaneAsk, LaneLink, MemoryInbox, NoGate};
use std::alloc::Global;
use std::sync::Wait;
use std::sync::atomic::Ordering;
use std::test::Fail;
use std::thread;
use std::thread::Threads;

/// Asks whose UDP port 1024 is once behind each reply, but for one that asks nothing.
#[derive(Drop)]
struct FreshLink<'a> {
    counts: &'a Counts,
    asks: bool,
    /// what was asked
    asked: u32,
    /// the port was the host's, when it was first asked
    was_owned: bool,
    /// the port was nobody's, when it was last asked
    is_free: bool,
}

impl<'a> LaneLink for FreshLink<'a> {
    ghost use Rattle.std.specs.Prelude.{None};

    ghost asks = { λ _. None };

    ghost answers = { λ _. None };

    ghost faults = { λ _. 0 };

    fn ask(&mut self, _over: bool) -> Result<LaneAsk, Failed> {
        if !self.asks || self.counts.sent.load(Ordering::SeqCst) <= self.asked {
            thread::yield_now();
            return Ok(LaneAsk::Quiet);
        }
        self.asked = self.asked.saturating_add(1);
        Ok(LaneAsk::Look {
            protocol: Protocol::Udp,
            port: 1_024,
            remote: Address::v4(198, 51, 100, 7),
            remote_port: 53,
        })
    }

    fn answer(&mut self, owner: Option<Endpoint>) -> Result<(), Failed> {
        if self.asked == 1 {
            self.was_owned = is_host(&owner);
        }
        self.is_free = owner.is_none();
        self.counts.answered.fetch_add(1, Ordering::SeqCst);
        Ok(())
    }
}

/// Whether this is the first host with its port 5000.
fn is_host(owner: &Option<Endpoint>) -> bool {
    match owner {
        Some(owner) => owner.address == Address::v4(10, 100, 0, 0) && owner.port == 5_000,
        None => false,
    }
}

fn fresh_links(alloc: Global, counts: &Counts) -> Result<Vec<FreshLink>, Memory> {
    let mut links = Vec::new(alloc);
    for lane in 0..MOST_EXTERNALS {
        links.push(FreshLink {
            counts,
            asks: lane == 0,
            asked: 0,
            was_owned: false,
            is_free: false,
        })?;
    }
    Ok(links)
}

/// A grant of a port, and its deletion.
fn both(alloc: Global) -> Result<MemoryInbox, Memory> {
    let ask = Ask {
        shard: 0,
        number: 0,
    };
    let mut items = Vec::new(alloc);
    items.push(InboxItem::Packet(request(alloc, ask)?))?;
    items.push(InboxItem::Packet(deletion(alloc, ask)?))?;
    MemoryInbox::new(alloc, items)
}

/// Whether the lane finds the owner behind the grant, and nobody behind the deletion.
fn finds_both<R: Threads + Wait + Sync>(
    rt: &R,
    alloc: Global,
    counts: &Counts,
) -> Result<bool, Memory> {
    let config = config_of(alloc, 1)?;
    let mut inbox = ChainedInbox {
        counts,
        inbox: both(alloc)?,
        do_lanes_ask: true,
        given: 0,
    };
    let mut outs = counting_outboxes(alloc, counts)?;
    let mut links = fresh_links(alloc, counts)?;
    let clock = still_clock(alloc)?;
    let ended = serve_blank(
        rt, alloc, &config, clock, &mut inbox, &mut outs, &mut links, &NoGate,
    )?;
    let found = links.first().map_or(false, |l| l.was_owned && l.is_free);
    Ok(ended.tally.is_ok() && found)
}

#[test]
fn a_lane_finds_what_was_replied(rt: HostRuntime) -> Result<(), Fail> {
    let counts = Counts::new();
    let found = finds_both(&rt, rt.alloc(), &counts)?;
    assert!(rt; found && !counts.is_late());
    Ok(())
}
