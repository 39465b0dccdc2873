//! Lookups in a lane, alone and beside a thread that publishes renewals of the lease that is looked up
//! without a pause. The words are a count of lookups and one of renewals. A line tells both, and how many
//! lookups of either kind found the owner; where the first word is `times`, the nanoseconds of the
//! processor that a lookup took, alone and beside the other thread, and those of a renewal.
ghost use Rattle.std.specs.Prelude.{◌≡◌};

use anyhow::{Context, bail};
use lane_index::{Lane, LaneWriter, lane};
use pcp_base::{
    Address, Change, External, Filters, MapLease, Moment, Nonce, Protocol, Record, Replay,
};
use plain_replay::PlainReplay;
use std::alloc::Global;
use std::io::Print;
use std::marker::Model;
use std::sync::Wait;
use std::thread::{Threads, join};
use std::time::{CpuClock, Duration};

/// A writer, and the state of all that was pushed as long as each record fitted.
struct RenewingWriter {
    replay: PlainReplay,
    writer: LaneWriter,
    in_step: bool,
}

impl Model for RenewingWriter {
    ghost use Rattle.std.specs.Prelude.{◌≡◌, ◌++◌, true};
    ghost use Rattle.logbook.specs.Pages.{Book};
    ghost use Rattle.pcp_base.specs.Apply.{apply_all};
    ghost use Rattle.pcp_base.specs.Reached.{IsReached};

    ghost Value = { Book };

    ghost view = { λ w. w.writer.index };

    ghost invariant = { λ w. w.in_step ≡ true → IsReached w.replay
        × (w.replay ≡ apply_all w.writer.opening (w.writer.published ++ w.writer.pending)) };
}

/// What lookups found, and the processor time that they took.
#[derive(Clone, Copy)]
struct Looked {
    found: u32,
    took: Duration,
}

/// What renewals were published, and the processor time that they took.
#[derive(Clone, Copy)]
struct Renewed {
    published: u32,
    took: Duration,
}

fn moment(seconds: u32) -> Moment
    ensures { result ≡ seconds }
{
    Moment::of(u64::from(seconds)).unwrap()
}

/// A lease that lasts until two seconds after this moment.
fn renewal(at: u32) -> Record {
    Record {
        moment: moment(at),
        change: Change::Map(MapLease {
            address: Address::v4(10, 0, 0, 5),
            protocol: Protocol::Udp,
            internal: 5000,
            count: 1,
            external: 1024,
            nonce: Nonce([7; 12]),
            granted: moment(0),
            expiry: u64::from(at) + 2,
            filters: Filters::none(),
        }),
    }
}

impl RenewingWriter {
    /// Pushes a record where it fits and publishes it. Whether it did.
    fn publish<R: Wait>(&mut self, rt: &R, alloc: Global, kept: &Record) -> bool {
        if !self.in_step {
            return false;
        }
        self.in_step = false;
        if let Ok(true) = self.replay.admit(alloc, kept) {
            if self.writer.push(alloc, kept).is_ok() {
                self.in_step = true;
                self.writer.publish(rt);
            }
        }
        self.in_step
    }

    fn end<R: Wait>(self, rt: &R) {
        let RenewingWriter {
            replay: _replay,
            writer,
            in_step: _,
        } = self;
        writer.end(rt);
    }
}

/// An index without leases.
fn empty_lane<R: Wait>(rt: &R, alloc: Global) -> Option<(RenewingWriter, Lane)> {
    let external = External {
        address: Address::v4(192, 0, 2, 1),
        low: 1024,
        high: 65535,
    };
    let maps = Vec::new(alloc);
    let peers = Vec::new(alloc);
    let last = moment(0);
    let Ok((writer, lane)) = lane(
        rt,
        alloc,
        &external,
        maps.as_slice(),
        peers.as_slice(),
        last,
    ) else {
        return None;
    };
    let writer = RenewingWriter {
        replay: PlainReplay::new(alloc),
        writer,
        in_step: true,
    };
    Some((writer, lane))
}

/// The processor time of this thread so far, 0 where it isn't told.
fn thread_time<C: CpuClock>(clock: &C) -> Duration {
    clock.thread_cpu_time().unwrap_or(Duration::ZERO)
}

/// Looks the lease up so often.
fn look_many<R: Wait + CpuClock>(rt: &R, mut lane: Lane, looks: u32) -> (Lane, Looked) {
    let remote = Address::v4(198, 51, 100, 7);
    let start = thread_time(rt);
    let mut found = 0u32;
    for _ in 0..looks {
        let owner = lane.look(rt, Protocol::Udp, 1024, &remote, 53, moment(0));
        if owner.is_some() {
            found = found.saturating_add(1);
        }
    }
    let took = thread_time(rt).abs_diff(start);
    (lane, Looked { found, took })
}

/// Publishes so many renewals.
fn renew_many<R: Wait + CpuClock>(
    rt: &R,
    alloc: Global,
    writer: &mut RenewingWriter,
    renewals: u32,
) -> Renewed {
    let start = thread_time(rt);
    let mut published = 0u32;
    for i in 0..renewals {
        if writer.publish(rt, alloc, &renewal(i)) {
            published = published.saturating_add(1);
        }
    }
    Renewed {
        published,
        took: thread_time(rt).abs_diff(start),
    }
}

/// Lookups alone, then as many beside renewals. None where no memory was found.
fn look_twice<R: Threads + Wait + Sync + CpuClock>(
    rt: &R,
    alloc: Global,
    looks: u32,
    renewals: u32,
) -> Option<(Looked, Looked, Renewed)> {
    let (mut own, lane) = empty_lane(rt, alloc)?;
    let start = Record {
        moment: moment(0),
        change: Change::Start,
    };
    let began = own.publish(rt, alloc, &start) && own.publish(rt, alloc, &renewal(0));
    let (lane, alone) = look_many(rt, lane, looks);
    let writer = &mut own;
    let (renewed, (_lane, beside)) = join(
        rt,
        move || -> Renewed { renew_many(rt, alloc, writer, renewals) },
        move || -> (Lane, Looked) { look_many(rt, lane, looks) },
    );
    own.end(rt);
    if began {
        Some((alone, beside, renewed))
    } else {
        None
    }
}

fn each(took: Duration, count: u32) -> u64 {
    let nanos = took.as_nanos().min(u128::from(u64::MAX)) as u64;
    nanos / u64::from(count).max(1)
}

/// Looks up and renews as the words tell.
pub(crate) fn run<R: Print + Threads + Wait + Sync + CpuClock>(
    rt: &R,
    alloc: Global,
    words: &[String],
) -> anyhow::Result<()> {
    let (times, words) = match words.split_first() {
        Some((word, rest)) if word.as_str() == "times" => (true, rest),
        _ => (false, words),
    };
    let [looks, renewals] = words else {
        bail!("a count of lookups and a count of renewals are wanted");
    };
    let looks = looks.parse::<u32>().context("reading the lookups")?;
    let renewals = renewals.parse::<u32>().context("reading the renewals")?;
    let Some((alone, beside, renewed)) = look_twice(rt, alloc, looks, renewals) else {
        bail!("no memory was found");
    };
    print!(rt;
        "{looks} {} {} {}",
        alone.found, beside.found, renewed.published
    )?;
    if times {
        let (first, second) = (each(alone.took, looks), each(beside.took, looks));
        print!(rt; " {first} {second} {}", each(renewed.took, renewals))?;
    }
    println!(rt; "")?;
    Ok(())
}
