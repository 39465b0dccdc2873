//! Links that ask without an end, beside an inbox that stops.

use crate::configs::config_of;
use crate::edges::{outboxes, still_clock};
use crate::requests::{Ask, request};
use crate::serving::serve_blank;
use pcp_base::{Address, Endpoint, Failed, MOST_EXTERNALS, Memory, Protocol};
use pcp_io::{InboxItem, LaneAsk, LaneLink, MemoryInbox, NoGate};
use std::alloc::Global;
use std::sync::Wait;
use std::test::Fail;
use std::thread::Threads;

/// How many asks more it has once it was told that the work is over.
const MOST_ASKS: u32 = 64;

/// Asks for the same port again and again, never quiet, and ends so many asks after it was told that the
/// work is over.
#[derive(Drop)]
struct EndlessLink {
    asks: u32,
    late_asks: u32,
}

impl LaneLink for EndlessLink {
    ghost use Rattle.std.specs.Prelude.{None};

    ghost asks = { λ _. None };

    ghost answers = { λ _. None };

    ghost faults = { λ _. 0 };

    fn ask(&mut self, over: bool) -> Result<LaneAsk, Failed> {
        if over && self.late_asks == MOST_ASKS {
            return Ok(LaneAsk::Quiet);
        }
        if over {
            self.late_asks = self.late_asks.saturating_add(1);
        }
        self.asks = self.asks.saturating_add(1);
        Ok(LaneAsk::Look {
            protocol: Protocol::Udp,
            port: 1_024,
            remote: Address::v4(198, 51, 100, 7),
            remote_port: 53,
        })
    }

    fn answer(&mut self, _owner: Option<Endpoint>) -> Result<(), Failed> {
        Ok(())
    }
}

fn endless_links(alloc: Global) -> Result<Vec<EndlessLink>, Memory> {
    let mut links = Vec::new(alloc);
    for _ in 0..MOST_EXTERNALS {
        links.push(EndlessLink {
            asks: 0,
            late_asks: 0,
        })?;
    }
    Ok(links)
}

/// A request at each of two external addresses.
fn one_each(alloc: Global) -> Result<MemoryInbox, Memory> {
    let mut items = Vec::new(alloc);
    for shard in 0..2u8 {
        items.push(InboxItem::Packet(request(alloc, Ask { shard, number: 0 })?))?;
    }
    MemoryInbox::new(alloc, items)
}

/// Whether serving ends, with each lane told that the work is over, and those of external addresses that
/// aren't without an ask.
fn ends<R: Threads + Wait + Sync>(rt: &R, alloc: Global) -> Result<bool, Memory> {
    let config = config_of(alloc, 2)?;
    let mut inbox = one_each(alloc)?;
    let mut outs = outboxes(alloc)?;
    let mut links = endless_links(alloc)?;
    let clock = still_clock(alloc)?;
    let ended = serve_blank(
        rt, alloc, &config, clock, &mut inbox, &mut outs, &mut links, &NoGate,
    )?;
    let told = links.iter().take(2).all(|l| l.late_asks == MOST_ASKS);
    let idle = links.iter().skip(2).all(|l| l.asks == 0);
    Ok(ended.tally.is_ok() && told && idle)
}

#[test]
fn links_that_are_never_quiet_end(rt: HostRuntime) -> Result<(), Fail> {
    assert!(rt; ends(&rt, rt.alloc())?);
    Ok(())
}
