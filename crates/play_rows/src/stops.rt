//! A play is stopped, and what a crash leaves is played on.
use crate::configs::PROFILE;
use crate::faults::REQUEST;
use crate::in_memory::Ended;
use crate::runs::{NO_FAULT, Step, image, pair, pairs_behind, run, stopping};
use lease_disk::{DiskPair, LeaseDisk, MemoryDisk};
use pcp_base::Memory;
use pcp_server::Status;
use std::alloc::Global;
use std::test::Fail;

// Where the lease is kept.
static KEPT: Step = Step {
    words: "play c s j 1500",
    config: PROFILE,
    script: "packet 1500 10.0.0.5 40000 \
        020000000000000000000000000000000000ffff0a000005\n\
        owners 1500 192.0.2.1\n",
    status: Status::Done,
    output: "reply 10.0.0.5 40000 0280000000000000000001f4000000000000000000000000\n\
        own 17 1024 10.0.0.5 5000\n\
        owners 1\n",
};

// What is told where it isn't.
static LOST: &str = "reply 10.0.0.5 40000 0280000000000000000001f4000000000000000000000000\n\
        owners 0\n";

// Whether the lease is kept: of a play that is stopped so many device calls of side a before its
// end, in the image of each choice. The last four calls write a frame, sync it, write its gate, and
// sync that.
static STOPS: [(u64, [bool; 3]); 4] = [
    (3, [false, false, false]),
    (2, [false, false, false]),
    (1, [false, true, false]),
    (0, [true, true, true]),
];

// How the request ends where the device calls of side a from this number on fail.
fn stopped_at(alloc: Global, call: u64) -> Result<Ended<MemoryDisk>, Memory> {
    let a = stopping(MemoryDisk::new(alloc, 4_096), call);
    let sides = pair(a, MemoryDisk::new(alloc, 4_096));
    run(alloc, &REQUEST, pairs_behind(alloc, sides), NO_FAULT)
}

fn status_of<D: LeaseDisk + Drop>(ended: Result<Ended<D>, Memory>) -> Result<Status, Memory> {
    Ok(ended?.status)
}

// How many device calls of side a the request takes.
fn calls(alloc: Global) -> Result<u64, Fail> {
    for call in 0..200 {
        if status_of(stopped_at(alloc, call))? == Status::Done {
            return Ok(call);
        }
    }
    Err("no end".into())
}

// Whether a play over a pair put out what it does where the lease is kept, or where it isn't.
fn is_played<D: LeaseDisk + Drop>(
    ended: Result<Ended<D>, Memory>,
    kept: bool,
) -> Result<bool, Memory> {
    let ended = ended?;
    let output = if kept { KEPT.output } else { LOST };
    Ok(ended.status == Status::Done && ended.out.held() == output.as_bytes())
}

// The first choice of which a play over its image of the pair goes otherwise, if any.
fn other_of(
    alloc: Global,
    pair: &DiskPair<MemoryDisk>,
    kept: &[bool; 3],
) -> Result<Option<u8>, Memory> {
    for (choice, kept) in (0..3).zip(kept) {
        let pairs = pairs_behind(alloc, image(alloc, pair, choice));
        if !is_played(run(alloc, &KEPT, pairs, NO_FAULT), *kept)? {
            return Ok(Some(choice));
        }
    }
    Ok(None)
}

// The same of what the request leaves where the device calls of side a from this number on fail.
fn other_at(alloc: Global, stop: u64, kept: &[bool; 3]) -> Result<Option<u8>, Fail> {
    let ended = stopped_at(alloc, stop)?;
    let pair = ended.pairs.first().ok_or("no pair")?;
    Ok(other_of(alloc, pair, kept)?)
}

#[test]
fn stops(rt: HostRuntime) -> Result<(), Fail> {
    let calls = calls(rt.alloc())?;
    for (before, kept) in &STOPS {
        let stop = calls.checked_sub(*before).ok_or("too few calls")?;
        let other = other_at(rt.alloc(), stop, kept)?;
        assert!(rt; other.is_none(), "{before}: {other:?}");
    }
    Ok(())
}
