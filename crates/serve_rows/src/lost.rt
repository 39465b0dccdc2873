//! Disks that fail while a house is served: which jobs are answered, what the tally counts, and how the
//! command ends.

use crate::edges::{NEVER, outboxes, silent_links};
use crate::failing_disks::{Failing, Flags, WaitingInbox, failing_pairs};
use crate::requests::{Ask, Client, is_grant, push_ask};
use crate::serving::{Ended, SERVE, Step, serve_by};
use lease_disk::LeaseDisk;
use pcp_base::Memory;
use pcp_io::{InboxItem, MemoryInbox, MemoryOutbox, NoGate};
use server_commands::Status;
use std::alloc::Global;
use std::sync::Wait;
use std::sync::atomic::Ordering;
use std::test::Fail;
use std::thread::Threads;

/// Of two external addresses how their disks fail, and which write of the sink does; how the command ends,
/// and of each external address the jobs that were taken, replies, and jobs that a disk refused.
#[derive(Clone, Copy)]
struct Row {
    failing: [Failing; 2],
    write: u64,
    status: Status,
    counts: [Counts; 2],
}

#[derive(Clone, Copy)]
struct Counts {
    taken: u64,
    replied: u64,
    faulted: u64,
}

const SERVED: Counts = Counts {
    taken: 2,
    replied: 2,
    faulted: 0,
};

/// Later jobs are answered.
const MENDED: Counts = Counts {
    taken: 3,
    replied: 2,
    faulted: 1,
};

/// No job is answered.
const LOST: Counts = Counts {
    taken: 3,
    replied: 0,
    faulted: 3,
};

const ROWS: [Row; 7] = [
    Row {
        failing: [Failing::Write, Failing::Nothing],
        write: NEVER,
        status: Status::Done,
        counts: [MENDED, SERVED],
    },
    Row {
        failing: [Failing::Sync, Failing::Nothing],
        write: NEVER,
        status: Status::DiskFault(0),
        counts: [LOST, SERVED],
    },
    Row {
        failing: [Failing::Nothing, Failing::Sync],
        write: NEVER,
        status: Status::DiskFault(1),
        counts: [SERVED, LOST],
    },
    Row {
        failing: [Failing::Sync, Failing::Sync],
        write: NEVER,
        status: Status::DiskFault(0),
        counts: [LOST, LOST],
    },
    Row {
        failing: [Failing::Write, Failing::Sync],
        write: NEVER,
        status: Status::DiskFault(1),
        counts: [MENDED, LOST],
    },
    // No job was refused by the one that says that it is lost.
    Row {
        failing: [Failing::Claimed, Failing::Nothing],
        write: NEVER,
        status: Status::Done,
        counts: [SERVED, SERVED],
    },
    // The tally isn't written.
    Row {
        failing: [Failing::Sync, Failing::Nothing],
        write: 0,
        status: Status::WriteFault,
        counts: [LOST, SERVED],
    },
];

/// Whether a call of a disk of this kind fails.
fn fails(failing: Failing) -> bool {
    failing == Failing::Write || failing == Failing::Sync
}

fn ask(place: usize, port: u16) -> Ask {
    Ask {
        second: if place == 0 { 0 } else { 128 },
        port,
        client: Client::First,
    }
}

/// A request at each external address whose disk fails, and then two at each, and how many come first.
fn waiting_inbox<'a>(
    alloc: Global,
    flags: &'a Flags,
    row: &Row,
) -> Result<WaitingInbox<'a>, Memory> {
    let mut items = Vec::new(alloc);
    let mut at_once = 0u32;
    for (place, failing) in row.failing.iter().enumerate() {
        if fails(*failing) {
            push_ask(alloc, &mut items, ask(place, 5_000))?;
            at_once = at_once.saturating_add(1);
        }
    }
    for port in 5_001..5_003u16 {
        for place in 0..2usize {
            push_ask(alloc, &mut items, ask(place, port))?;
        }
    }
    Ok(WaitingInbox {
        flags,
        inbox: MemoryInbox::new(alloc, items)?,
        at_once,
        taken: 0,
    })
}

/// Whether the outbox took so many grants, and nothing else.
fn has_grants(out: &MemoryOutbox, count: u64) -> bool {
    out.sent().len() as u64 == count && out.sent().iter().all(|d| is_grant(d.octets.items()))
}

/// The lines that tell these counts.
fn tally_of(alloc: Global, counts: &[Counts; 2]) -> Result<String, Memory> {
    let [first, second] = *counts;
    let first = line_of(alloc, 0, first)?;
    let second = line_of(alloc, 1, second)?;
    Ok(format!(in alloc; "{first}{second}")?)
}

fn line_of(alloc: Global, place: u64, counts: Counts) -> Result<String, Memory> {
    let Counts {
        taken,
        replied,
        faulted,
    } = counts;
    let done = format!(in alloc; "shard {place} taken {taken} replied {replied} silent 0")?;
    Ok(format!(in alloc; "{done} unsent 0 faulted {faulted} full 0 starved 0\n")?)
}

/// Whether the run ended as the row says.
fn is_so<D: LeaseDisk + Drop>(
    alloc: Global,
    row: &Row,
    ended: &Ended<D>,
    outs: &[MemoryOutbox],
) -> Result<bool, Memory> {
    let granted = outs
        .iter()
        .zip(row.counts.iter())
        .all(|(out, counts)| has_grants(out, counts.replied));
    let tally = tally_of(alloc, &row.counts)?;
    let told = if row.write == NEVER {
        tally.as_bytes()
    } else {
        b"".as_slice()
    };
    Ok(granted && ended.status == row.status && ended.out.held() == told)
}

/// Whether serving over such disks ends as the row says.
fn goes_so<R: Threads + Wait + Sync>(rt: &R, alloc: Global, row: &Row) -> Result<bool, Memory> {
    let flags = Flags::new();
    let pairs = failing_pairs(alloc, &flags, &row.failing)?;
    let mut inbox = waiting_inbox(alloc, &flags, row)?;
    let mut outs = outboxes(alloc)?;
    let mut links = silent_links(alloc)?;
    let step = Step {
        write: row.write,
        ..SERVE
    };
    let ended = serve_by(
        rt, alloc, &step, &mut inbox, &mut outs, &mut links, &NoGate, pairs,
    )?;
    Ok(is_so(alloc, row, &ended, &outs)? && !flags.late.load(Ordering::SeqCst))
}

#[test]
fn disks_fail_while_serving(rt: HostRuntime) -> Result<(), Fail> {
    let rows = ROWS;
    for (number, row) in rows.iter().enumerate() {
        assert!(rt; goes_so(&rt, rt.alloc(), row)?, "{number}");
    }
    Ok(())
}
