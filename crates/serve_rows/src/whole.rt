//! A run to its end, and two behind it over what the journals keep.

use crate::edges::{NEVER, blank_pairs};
use crate::requests::{Ask, Client, push_ask, push_stub};
use crate::serving::{Run, SERVE, pairs_of, run_items, serve_at};
use hex::decode;
use lease_disk::{DiskPair, LeaseDisk};
use pcp_base::{Address, Datagram, MOST_EXTERNALS, Memory};
use pcp_io::{InboxItem, MemoryOutbox};
use server_commands::Status;
use std::alloc::Global;
use std::sync::Wait;
use std::test::Fail;
use std::thread::Threads;

// Grants of port 1024 of either external address at 1010 by a server that began at 1000, and the
// refusal to another client (RFC 6887, sections 7.2 and 11.3).
const FIRST_GRANT: &str = "0281000000000e100000000a000000000000000000000000\
    000102030405060708090a0b110000001388040000000000000000000000ffffc0000201";

const SECOND_GRANT: &str = "0281000000000e100000000a000000000000000000000000\
    000102030405060708090a0b110000001388040000000000000000000000ffffc0000202";

const REFUSAL: &str = "0281000200000e100000000a000000000000000000000000\
    ffffffffffffffffffffffff110000001388000000000000000000000000ffff00000000";

// The same refusal at 1030, and a grant of the external address whose leases were lost at 1020.
const LATER_REFUSAL: &str = "0281000200000dfc0000000a000000000000000000000000\
    ffffffffffffffffffffffff110000001388000000000000000000000000ffff00000000";

const LATER_GRANT: &str = "0281000000000e100000000a000000000000000000000000\
    ffffffffffffffffffffffff110000001388040000000000000000000000ffffc0000202";

// An announcement at 1010 (RFC 6887, section 14.1).
const ANNOUNCEMENT: &str = "0280000000000000\
    0000000a000000000000000000000000";

const TALLY: &str = "shard 0 taken 3 replied 2 silent 1 unsent 0 faulted 0 full 0 starved 0\n\
    shard 1 taken 1 replied 1 silent 0 unsent 0 faulted 0 full 0 starved 0\n";

const LOSS_TALLY: &str = "shard 0 taken 0 replied 0 silent 0 unsent 0 faulted 0 full 0 starved 0\n\
    shard 1 taken 1 replied 0 silent 0 unsent 0 faulted 0 full 0 starved 0\n";

fn ask(second: u8, client: Client) -> Ask {
    Ask {
        second,
        port: 5_000,
        client,
    }
}

/// A grant at each external address, a datagram that is no request, and another client.
fn first_items(alloc: Global) -> Result<Vec<InboxItem>, Memory> {
    let mut items = Vec::new(alloc);
    push_ask(alloc, &mut items, ask(0, Client::First))?;
    push_ask(alloc, &mut items, ask(128, Client::First))?;
    push_stub(alloc, &mut items)?;
    push_ask(alloc, &mut items, ask(0, Client::Second))?;
    Ok(items)
}

/// A loss of the second external address.
fn loss(alloc: Global) -> Result<Vec<InboxItem>, Memory> {
    let mut items = Vec::new(alloc);
    items.push(InboxItem::Lose(0, Address::v4(192, 0, 2, 2)))?;
    Ok(items)
}

/// Another client at each external address.
fn later_items(alloc: Global) -> Result<Vec<InboxItem>, Memory> {
    let mut items = Vec::new(alloc);
    push_ask(alloc, &mut items, ask(0, Client::Second))?;
    push_ask(alloc, &mut items, ask(128, Client::Second))?;
    Ok(items)
}

/// Whether a datagram has these octets.
fn has(alloc: Global, sent: &Datagram, octets: &str) -> Result<bool, Memory> {
    match decode(alloc, octets.as_bytes()) {
        Ok(octets) => Ok(sent.octets.items() == octets.as_slice()),
        Err(_) => Err(Memory),
    }
}

/// Whether this was sent, in order, and nothing else.
fn sent(alloc: Global, out: &MemoryOutbox, replies: &[&str]) -> Result<bool, Memory> {
    let all = out.sent();
    for (sent, octets) in all.iter().zip(replies) {
        if !has(alloc, sent, octets)? {
            return Ok(false);
        }
    }
    Ok(all.len() == replies.len())
}

/// Whether each announcement goes to port 5350 of 224.0.0.1 by door 0, and then of ff02::1 by door 1.
fn go_to_all_hosts(sent: &[Datagram]) -> bool {
    let hosts = [
        Address::v4(224, 0, 0, 1),
        Address([0xff, 2, 0, 0, 0, 0, 0, 0, 0, 0, 0, 0, 0, 0, 0, 1]),
    ];
    match sent {
        [a, b, c, d] => {
            let peers = [a.peer, b.peer, c.peer, d.peer];
            peers == [hosts[0], hosts[1], hosts[0], hosts[1]]
                && [a.port, b.port, c.port, d.port] == [5_350; 4]
                && [a.door, b.door, c.door, d.door] == [0, 1, 0, 1]
        }
        _ => false,
    }
}

/// Whether the first run was done, told its tally, and sent all this.
fn is_first<D: LeaseDisk + Drop>(alloc: Global, run: &Run<D>) -> Result<bool, Memory> {
    if run.outs.len() != MOST_EXTERNALS + 1 {
        return Ok(false);
    }
    let told = run.ended.status == Status::Done && run.ended.out.held() == TALLY.as_bytes();
    let announced = &run.outs[MOST_EXTERNALS];
    Ok(
        told && sent(alloc, &run.outs[0], &[FIRST_GRANT, REFUSAL])?
            && sent(alloc, &run.outs[1], &[SECOND_GRANT])?
            && sent(alloc, announced, &[ANNOUNCEMENT; 4])?
            && go_to_all_hosts(announced.sent()),
    )
}

/// Whether the run was done, sent no reply, and told of a loss alone.
fn is_loss<D: LeaseDisk + Drop>(run: &Run<D>) -> bool {
    let replied = run
        .outs
        .iter()
        .take(MOST_EXTERNALS)
        .any(|out| !out.sent().is_empty());
    run.ended.status == Status::Done && run.ended.out.held() == LOSS_TALLY.as_bytes() && !replied
}

/// Whether a later run finds the first lease kept and the second lost.
fn is_later<D: LeaseDisk + Drop>(alloc: Global, run: &Run<D>) -> Result<bool, Memory> {
    if run.outs.len() != MOST_EXTERNALS + 1 {
        return Ok(false);
    }
    Ok(
        run.ended.status == Status::Done
            && sent(alloc, &run.outs[0], &[LATER_REFUSAL])?
            && sent(alloc, &run.outs[1], &[LATER_GRANT])?,
    )
}

/// Whether three runs, one behind the other over the same journals, were so.
fn all_are_whole<R: Threads + Wait + Sync, D: LeaseDisk + Drop + Send + Sync>(
    rt: &R,
    alloc: Global,
    pairs: Vec<DiskPair<D>>,
) -> Result<(bool, bool, bool), Memory> {
    let first = run_items(rt, alloc, &SERVE, first_items(alloc)?, NEVER, pairs)?;
    let was_first = is_first(alloc, &first)?;
    let pairs = pairs_of(first);
    let second = run_items(rt, alloc, &serve_at(1_020_000), loss(alloc)?, NEVER, pairs)?;
    let was_loss = is_loss(&second);
    let pairs = pairs_of(second);
    let third = run_items(
        rt,
        alloc,
        &serve_at(1_030_000),
        later_items(alloc)?,
        NEVER,
        pairs,
    )?;
    Ok((was_first, was_loss, is_later(alloc, &third)?))
}

#[test]
fn a_run_and_two_behind_it(rt: HostRuntime) -> Result<(), Fail> {
    let whole = all_are_whole(&rt, rt.alloc(), blank_pairs(rt.alloc())?)?;
    assert!(rt; whole == (true, true, true), "{whole:?}");
    Ok(())
}
