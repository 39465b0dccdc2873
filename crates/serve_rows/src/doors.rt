//! By which doors a server sends that listens at an inside address, at 127.0.0.1 and by IPv6.

use crate::edges::{NEVER, blank_pairs};
use crate::requests::{Ask, Client, push_ask_by};
use crate::serving::{Run, SERVE, Step, pairs_of, run_items, serve_at};
use lease_disk::{DiskPair, LeaseDisk};
use pcp_base::{Address, Datagram, MOST_EXTERNALS, Memory};
use pcp_io::InboxItem;
use server_commands::Status;
use std::alloc::Global;
use std::sync::Wait;
use std::test::Fail;
use std::thread::Threads;

static LISTENING: &str = "listen = [\"10.0.0.1\", \"127.0.0.1\", \"2001:db8::1\"]
[[external]]
address = \"192.0.2.1\"
low = 1024
high = 65535
[[subscriber]]
prefix = \"10.0.0.0/8\"
external = \"192.0.2.1\"
";

/// The same with another external address.
static RENUMBERED: &str = "listen = [\"10.0.0.1\", \"127.0.0.1\", \"2001:db8::1\"]
[[external]]
address = \"192.0.2.9\"
low = 1024
high = 65535
[[subscriber]]
prefix = \"10.0.0.0/8\"
external = \"192.0.2.9\"
";

/// A request by each of three doors: the order door at 127.0.0.1, that at 10.0.0.1 and that of IPv6.
fn by_each(alloc: Global) -> Result<Vec<InboxItem>, Memory> {
    let mut items = Vec::new(alloc);
    for (port, door) in [(5_000u16, 255u8), (5_001, 0), (5_002, 2)] {
        let ask = Ask {
            second: 0,
            port,
            client: Client::First,
        };
        push_ask_by(alloc, &mut items, ask, door)?;
    }
    Ok(items)
}

/// Whether three replies leave by the doors of their requests.
fn are_replies(sent: &[Datagram]) -> bool {
    match sent {
        [a, b, c] => [a.door, b.door, c.door] == [255, 0, 2],
        _ => false,
    }
}

/// Whether each announcement leaves by the door at 10.0.0.1 to 224.0.0.1, and by that of IPv6 to ff02::1.
fn are_announcements(sent: &[Datagram]) -> bool {
    let v4 = Address::v4(224, 0, 0, 1);
    let v6 = Address([0xff, 2, 0, 0, 0, 0, 0, 0, 0, 0, 0, 0, 0, 0, 0, 1]);
    match sent {
        [a, b, c, d] => {
            [a.door, b.door, c.door, d.door] == [0, 2, 0, 2]
                && [a.peer, b.peer, c.peer, d.peer] == [v4, v6, v4, v6]
        }
        _ => false,
    }
}

/// Whether three updates leave, each by both doors of IPv4.
fn are_updates(sent: &[Datagram]) -> bool {
    match sent {
        [a, b, c, d, e, f] => {
            [a.door, b.door, c.door, d.door, e.door, f.door] == [0, 255, 0, 255, 0, 255]
                && [a.peer, b.peer, c.peer] == [Address::v4(10, 0, 0, 5); 3]
                && [d.peer, e.peer, f.peer] == [Address::v4(10, 0, 0, 5); 3]
        }
        _ => false,
    }
}

/// Whether the first run was done, answered and announced by these doors.
fn is_first<D: LeaseDisk + Drop>(run: &Run<D>) -> bool {
    run.outs.len() == MOST_EXTERNALS + 1
        && run.ended.status == Status::Done
        && are_replies(run.outs[0].sent())
        && are_announcements(run.outs[MOST_EXTERNALS].sent())
}

/// Whether the second run was done, and told the clients by these doors.
fn is_renumbered<D: LeaseDisk + Drop>(run: &Run<D>) -> bool {
    run.outs.len() == MOST_EXTERNALS + 1
        && run.ended.status == Status::Done
        && are_updates(run.outs[0].sent())
}

/// Whether a run and one behind it, with another external address, send by the doors that they should.
fn go_by_doors<R: Threads + Wait + Sync, D: LeaseDisk + Drop + Send + Sync>(
    rt: &R,
    alloc: Global,
    pairs: Vec<DiskPair<D>>,
) -> Result<(bool, bool), Memory> {
    let first = Step {
        config: LISTENING,
        ..SERVE
    };
    let run = run_items(rt, alloc, &first, by_each(alloc)?, NEVER, pairs)?;
    let was_first = is_first(&run);
    let second = Step {
        config: RENUMBERED,
        ..serve_at(1_020_000)
    };
    let pairs = pairs_of(run);
    let run = run_items(rt, alloc, &second, Vec::new(alloc), NEVER, pairs)?;
    Ok((was_first, is_renumbered(&run)))
}

#[test]
fn each_datagram_has_its_door(rt: HostRuntime) -> Result<(), Fail> {
    let all = go_by_doors(&rt, rt.alloc(), blank_pairs(rt.alloc())?)?;
    assert!(rt; all == (true, true), "{all:?}");
    Ok(())
}
