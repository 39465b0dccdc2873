//! Plays that stop at each device call, and plays of which one call fails.
use crate::configs::PROFILE;
use crate::in_memory::{Ended, Failing};
use crate::octets::{DAMAGED, FIRST_FORMAT};
use crate::runs::{
    NEVER, NO_FAULT, Step, failing, holding, image, pair, pairs_behind, run, stopping,
};
use lease_disk::{DiskPair, LeaseDisk, MemoryDisk};
use pcp_base::Memory;
use pcp_server::Status;
use std::alloc::Global;
use std::test::Fail;

/// A play, and what a dump tells before it, between two of its steps, and after it.
struct Play {
    /// side a of the first journal, in hexadecimal digits
    before: &'static str,
    step: Step,
    /// the place among the dumps of what stands once the journals are open
    opened: usize,
    dumps: &'static [&'static str],
}

static PLAYS: [Play; 3] = [
    // A grant, a renewal, another grant, a deletion and a loss, over a blank journal.
    Play {
        before: "",
        step: Step {
            words: "play c s j 1000",
            config: PROFILE,
            script: "packet 1010 10.0.0.5 40000 0201000000000e1000000000000000000000ffff0a000005\
    000102030405060708090a0b110000001388000000000000000000000000ffff00000000\n\
    packet 1020 10.0.0.5 40000 0201000000000e1000000000000000000000ffff0a000005\
    000102030405060708090a0b110000001388000000000000000000000000ffff00000000\n\
    packet 1025 10.0.0.5 40000 0201000000000e1000000000000000000000ffff0a000005\
    000102030405060708090a0b110000001389000000000000000000000000ffff00000000\n\
    packet 1030 10.0.0.5 40000 020100000000000000000000000000000000ffff0a000005\
    000102030405060708090a0b110000001388000000000000000000000000ffff00000000\n\
    lose 1040 192.0.2.1\n",
            status: Status::Done,
            output: "reply 10.0.0.5 40000 0281000000000e100000000a000000000000000000000000\
    000102030405060708090a0b110000001388040000000000000000000000ffffc0000201\n\
    reply 10.0.0.5 40000 0281000000000e1000000014000000000000000000000000\
    000102030405060708090a0b110000001388040000000000000000000000ffffc0000201\n\
    reply 10.0.0.5 40000 0281000000000e1000000019000000000000000000000000\
    000102030405060708090a0b110000001389040100000000000000000000ffffc0000201\n\
    reply 10.0.0.5 40000 02810000000000000000001e000000000000000000000000\
    000102030405060708090a0b110000001388000000000000000000000000ffff00000000\n\
    lost 1\n",
        },
        opened: 1,
        dumps: &[
            "[{\"address\":\"192.0.2.1\",\"state\":\"blank\"}]\n",
            "[{\"address\":\"192.0.2.1\",\"base\":1000,\"last\":1000,\"maps\":[\
    ],\"peers\":[\
    ],\"state\":\"recovered\"}]\n",
            "[{\"address\":\"192.0.2.1\",\"base\":1000,\"last\":1010,\"maps\":[\
    {\"address\":\"10.0.0.5\",\"count\":1,\"expiry\":4610,\"external\":1024,\"filters\":[],\
    \"granted\":1010,\"internal\":5000,\"nonce\":\"000102030405060708090a0b\",\
    \"protocol\":17}\
    ],\"peers\":[\
    ],\"state\":\"recovered\"}]\n",
            "[{\"address\":\"192.0.2.1\",\"base\":1000,\"last\":1020,\"maps\":[\
    {\"address\":\"10.0.0.5\",\"count\":1,\"expiry\":4620,\"external\":1024,\"filters\":[],\
    \"granted\":1010,\"internal\":5000,\"nonce\":\"000102030405060708090a0b\",\
    \"protocol\":17}\
    ],\"peers\":[\
    ],\"state\":\"recovered\"}]\n",
            "[{\"address\":\"192.0.2.1\",\"base\":1000,\"last\":1025,\"maps\":[\
    {\"address\":\"10.0.0.5\",\"count\":1,\"expiry\":4620,\"external\":1024,\"filters\":[],\
    \"granted\":1010,\"internal\":5000,\"nonce\":\"000102030405060708090a0b\",\
    \"protocol\":17},\
    {\"address\":\"10.0.0.5\",\"count\":1,\"expiry\":4625,\"external\":1025,\"filters\":[],\
    \"granted\":1025,\"internal\":5001,\"nonce\":\"000102030405060708090a0b\",\
    \"protocol\":17}\
    ],\"peers\":[\
    ],\"state\":\"recovered\"}]\n",
            "[{\"address\":\"192.0.2.1\",\"base\":1000,\"last\":1030,\"maps\":[\
    {\"address\":\"10.0.0.5\",\"count\":1,\"expiry\":4625,\"external\":1025,\"filters\":[],\
    \"granted\":1025,\"internal\":5001,\"nonce\":\"000102030405060708090a0b\",\
    \"protocol\":17}\
    ],\"peers\":[\
    ],\"state\":\"recovered\"}]\n",
            "[{\"address\":\"192.0.2.1\",\"base\":1040,\"last\":1040,\"maps\":[\
    ],\"peers\":[\
    ],\"state\":\"recovered\"}]\n",
        ],
    },
    // A renewal over a journal of the first format, which is compacted first.
    Play {
        before: FIRST_FORMAT,
        step: Step {
            words: "play c s j 1500",
            config: PROFILE,
            script: "packet 1510 10.0.0.5 40000 0201000000000e1000000000000000000000ffff0a000005\
    000102030405060708090a0b110000001388000000000000000000000000ffff00000000\n",
            status: Status::Done,
            output: "reply 10.0.0.5 40000 0281000000000e10000001fe000000000000000000000000\
    000102030405060708090a0b110000001388040000000000000000000000ffffc0000201\n",
        },
        opened: 1,
        dumps: &[
            "[{\"address\":\"192.0.2.1\",\"base\":1000,\"last\":1010,\"maps\":[\
    {\"address\":\"10.0.0.5\",\"count\":1,\"expiry\":4610,\"external\":1024,\"filters\":[],\
    \"granted\":1010,\"internal\":5000,\"nonce\":\"000102030405060708090a0b\",\
    \"protocol\":17}\
    ],\"peers\":[\
    ],\"state\":\"recovered\"}]\n",
            "[{\"address\":\"192.0.2.1\",\"base\":1000,\"last\":1500,\"maps\":[\
    {\"address\":\"10.0.0.5\",\"count\":1,\"expiry\":4610,\"external\":1024,\"filters\":[],\
    \"granted\":1010,\"internal\":5000,\"nonce\":\"000102030405060708090a0b\",\
    \"protocol\":17}\
    ],\"peers\":[\
    ],\"state\":\"recovered\"}]\n",
            "[{\"address\":\"192.0.2.1\",\"base\":1000,\"last\":1510,\"maps\":[\
    {\"address\":\"10.0.0.5\",\"count\":1,\"expiry\":5110,\"external\":1024,\"filters\":[],\
    \"granted\":1010,\"internal\":5000,\"nonce\":\"000102030405060708090a0b\",\
    \"protocol\":17}\
    ],\"peers\":[\
    ],\"state\":\"recovered\"}]\n",
        ],
    },
    // A grant over a damaged journal.
    Play {
        before: DAMAGED,
        step: Step {
            words: "play c s j 1500",
            config: PROFILE,
            script: "packet 1510 10.0.0.5 40000 0201000000000e1000000000000000000000ffff0a000005\
    000102030405060708090a0b110000001388000000000000000000000000ffff00000000\n",
            status: Status::Done,
            output: "reply 10.0.0.5 40000 0281000000000e100000000a000000000000000000000000\
    000102030405060708090a0b110000001388040000000000000000000000ffffc0000201\n",
        },
        opened: 2,
        dumps: &[
            "[{\"address\":\"192.0.2.1\",\"state\":\"damaged\"}]\n",
            "[{\"address\":\"192.0.2.1\",\"state\":\"blank\"}]\n",
            "[{\"address\":\"192.0.2.1\",\"base\":1500,\"last\":1500,\"maps\":[\
    ],\"peers\":[\
    ],\"state\":\"recovered\"}]\n",
            "[{\"address\":\"192.0.2.1\",\"base\":1500,\"last\":1510,\"maps\":[\
    {\"address\":\"10.0.0.5\",\"count\":1,\"expiry\":5110,\"external\":1024,\"filters\":[],\
    \"granted\":1510,\"internal\":5000,\"nonce\":\"000102030405060708090a0b\",\
    \"protocol\":17}\
    ],\"peers\":[\
    ],\"state\":\"recovered\"}]\n",
        ],
    },
];

static DUMP: Step = Step {
    words: "dump c j",
    config: PROFILE,
    script: "",
    status: Status::Done,
    output: "",
};

// The journal before the play.
fn before(alloc: Global, play: &Play) -> Result<Vec<u8>, Fail> {
    Ok(hex::decode(alloc, play.before.as_bytes())?)
}

fn disk(alloc: Global) -> Result<MemoryDisk, Memory> {
    MemoryDisk::new(alloc, 4_194_304)
}

// How the play ends where the calls from these on fail, of side a and of side b.
fn stopped_at(alloc: Global, play: &Play, calls: (u64, u64)) -> Result<Ended<MemoryDisk>, Fail> {
    let octets = before(alloc, play)?;
    let a = stopping(holding(disk(alloc), &octets), calls.0);
    let sides = pair(a, stopping(disk(alloc), calls.1));
    Ok(run(alloc, &play.step, pairs_behind(alloc, sides), NO_FAULT)?)
}

// The place among the dumps of what a dump told.
fn place_of<D: LeaseDisk + Drop>(
    play: &Play,
    ended: Result<Ended<D>, Memory>,
) -> Result<Option<usize>, Memory> {
    let ended = ended?;
    let told = ended.out.held();
    Ok(play.dumps.iter().position(|dump| dump.as_bytes() == told))
}

// The same of an image of the pair.
fn dumped(
    alloc: Global,
    play: &Play,
    pair: &DiskPair<MemoryDisk>,
    choice: u8,
) -> Result<Option<usize>, Memory> {
    let pairs = pairs_behind(alloc, image(alloc, pair, choice));
    place_of(play, run(alloc, &DUMP, pairs, NO_FAULT))
}

// Whether an image may hold what the dump at this place tells, once so many lines were told: what
// they did is in it, and of the rest the next line alone.
fn may_hold(play: &Play, place: usize, lines: usize) -> bool {
    let least = if lines > 0 {
        play.opened.saturating_add(lines)
    } else {
        0
    };
    least <= place && place <= play.opened.saturating_add(lines).saturating_add(1)
}

// An image: its choice, how many lines were told, and the place of its dump.
type Image = (u8, usize, Option<usize>);

// The first image of the pair that holds something wrong, once so many lines were told.
fn wrong_image(
    alloc: Global,
    play: &Play,
    pair: &DiskPair<MemoryDisk>,
    lines: usize,
) -> Result<Option<Image>, Memory> {
    for choice in 0..3 {
        let place = dumped(alloc, play, pair, choice)?;
        if !place.is_some_and(|place| may_hold(play, place, lines)) {
            return Ok(Some((choice, lines, place)));
        }
    }
    Ok(None)
}

// The same of a play that ended so.
fn wrong_image_of(
    alloc: Global,
    play: &Play,
    ended: &Ended<MemoryDisk>,
) -> Result<Option<Image>, Fail> {
    let told = ended.out.held();
    let lines = told.iter().filter(|octet| **octet == b'\n').count();
    let pair = ended.pairs.first().ok_or("no pair")?;
    Ok(wrong_image(alloc, play, pair, lines)?)
}

// How the play ends where the calls from these on fail, and what it leaves wrongly.
fn stop(alloc: Global, play: &Play, calls: (u64, u64)) -> Result<(Status, Option<Image>), Fail> {
    let ended = stopped_at(alloc, play, calls)?;
    let wrong = wrong_image_of(alloc, play, &ended)?;
    Ok((ended.status, wrong))
}

// A stop: its call, how the play ended, and the wrong image.
type Stop = (u64, Status, Option<Image>);

// The first stop at a call of side a, or else of side b, that leaves something wrong or is told
// wrongly, if any is. The last is past the end.
fn wrong_stop(alloc: Global, play: &Play, is_of_a: bool) -> Result<Option<Stop>, Fail> {
    for call in 0..1_000 {
        let calls = if is_of_a {
            (call, NEVER)
        } else {
            (NEVER, call)
        };
        let (status, wrong) = stop(alloc, play, calls)?;
        let is_done = status == Status::Done;
        if wrong.is_some() || !is_done && status != Status::DiskFault(0) {
            return Ok(Some((call, status, wrong)));
        }
        if is_done {
            return Ok(None);
        }
    }
    Err("no end".into())
}

#[test]
fn stops_at_each_device_call(rt: HostRuntime) -> Result<(), Fail> {
    for play in &PLAYS {
        for is_of_a in [true, false] {
            let wrong = wrong_stop(rt.alloc(), play, is_of_a)?;
            assert!(rt; wrong.is_none(), "side a: {is_of_a}, {wrong:?}");
        }
    }
    Ok(())
}

/// What fails.
#[derive(Clone, Copy, Debug)]
enum Part {
    A,
    B,
    Script,
    Output,
}

// The call of side a, of side b, and the read and the write that fail where this call of the part
// does.
fn failures(part: Part, call: u64) -> (u64, u64, Failing) {
    match part {
        Part::A => (call, NEVER, NO_FAULT),
        Part::B => (NEVER, call, NO_FAULT),
        Part::Script => (
            NEVER,
            NEVER,
            Failing {
                read: call,
                write: NEVER,
            },
        ),
        Part::Output => (
            NEVER,
            NEVER,
            Failing {
                read: NEVER,
                write: call,
            },
        ),
    }
}

// How the play ends where this call of this part fails.
fn failed_at(alloc: Global, play: &Play, part: Part, call: u64) -> Result<Ended<MemoryDisk>, Fail> {
    let octets = before(alloc, play)?;
    let (a_call, b_call, faults) = failures(part, call);
    let a = failing(alloc, holding(disk(alloc), &octets), a_call);
    let sides = pair(a, failing(alloc, disk(alloc), b_call));
    Ok(run(alloc, &play.step, pairs_behind(alloc, sides), faults)?)
}

fn status_of(part: Part) -> Status {
    match part {
        Part::A | Part::B => Status::DiskFault(0),
        Part::Script => Status::ReadFault,
        Part::Output => Status::WriteFault,
    }
}

// How a play ended; whether it put out the output, and whether a first part of it.
fn seen<D: LeaseDisk + Drop>(ended: &Ended<D>, output: &[u8]) -> (Status, bool, bool) {
    let told = ended.out.held();
    (ended.status, told == output, output.starts_with(told))
}

fn failure(
    alloc: Global,
    play: &Play,
    part: Part,
    call: u64,
) -> Result<(Status, bool, bool), Fail> {
    let ended = failed_at(alloc, play, part, call)?;
    Ok(seen(&ended, play.step.output.as_bytes()))
}

// The first failure of a call of this part by which the play ends wrongly, if any does: the call and
// how it ended. What is put out is a first part of the whole.
fn wrong_failure(alloc: Global, play: &Play, part: Part) -> Result<Option<(u64, Status)>, Fail> {
    for call in 0..1_000 {
        let (status, is_whole, is_part) = failure(alloc, play, part, call)?;
        if status == Status::Done && is_whole {
            return Ok(None);
        }
        if status != status_of(part) || !is_part {
            return Ok(Some((call, status)));
        }
    }
    Err("no end".into())
}

#[test]
fn each_call_fails(rt: HostRuntime) -> Result<(), Fail> {
    for play in &PLAYS {
        for part in [Part::A, Part::B, Part::Script, Part::Output] {
            let wrong = wrong_failure(rt.alloc(), play, part)?;
            assert!(rt; wrong.is_none(), "{part:?} {wrong:?}");
        }
    }
    Ok(())
}
