//! Writers that push only what fits.
ghost use Rattle.std.specs.Prelude.{◌≡◌, IfSome};

use lane_index::{Lane, LaneWriter, Told, lane};
use pcp_base::{Address, Endpoint, External, Moment, Protocol, Record, Replay};
use plain_replay::PlainReplay;
use std::alloc::Global;
use std::marker::Model;
use std::sync::Wait;

pub fn moment(seconds: u32) -> Moment
    ensures { result ≡ seconds }
{
    Moment::of(u64::from(seconds)).unwrap()
}

/// An internal endpoint of UDP.
pub fn host(port: u16) -> Endpoint {
    Endpoint {
        address: Address::v4(10, 0, 0, 5),
        protocol: Protocol::Udp,
        port,
    }
}

// A writer, and the state of all that was pushed, as long as each record fitted. To contracts it is the
// name of its index.
pub struct FittingWriter {
    replay: PlainReplay,
    writer: LaneWriter,
    in_step: bool,
}

impl Model for FittingWriter {
    ghost use Rattle.std.specs.Prelude.{◌≡◌, ◌++◌, true};
    ghost use Rattle.logbook.specs.Pages.{Book};
    ghost use Rattle.pcp_base.specs.Apply.{apply_all};
    ghost use Rattle.pcp_base.specs.Reached.{IsReached};

    ghost Value = { Book };

    ghost view = { λ w. w.writer.index };

    ghost invariant = { λ w. w.in_step ≡ true → IsReached w.replay
        × (w.replay ≡ apply_all w.writer.opening (w.writer.published ++ w.writer.pending)) };
}

impl FittingWriter {
    // Pushes a record where it fits, and says whether it was.
    pub fn push(&mut self, alloc: Global, kept: &Record) -> bool
        ensures { self.new ≡ self.old }
    {
        if !self.in_step {
            return false;
        }
        self.in_step = false;
        if let Ok(true) = self.replay.admit(alloc, kept) {
            if self.writer.push(alloc, kept).is_ok() {
                self.in_step = true;
            }
        }
        self.in_step
    }

    pub fn publish<R: Wait>(&mut self, rt: &R) -> Told
        ensures index { self.new ≡ self.old }
        ensures told { result.index ≡ self.old }
    {
        self.writer.publish(rt)
    }

    // Pushes a record where it fits, and publishes it.
    pub fn publish_one<R: Wait>(&mut self, rt: &R, alloc: Global, kept: &Record) -> Option<Told>
        ensures index { self.new ≡ self.old }
        ensures told { IfSome result (λ t. t.index ≡ self.old) }
    {
        if !self.push(alloc, kept) {
            return None;
        }
        Some(self.publish(rt))
    }

    pub fn end<R: Wait>(self, rt: &R) {
        let FittingWriter {
            replay: _replay,
            writer,
            in_step: _,
        } = self;
        writer.end(rt);
    }
}

// An index without leases.
pub fn empty_lane<R: Wait>(rt: &R, alloc: Global) -> Option<(FittingWriter, Lane)>
    ensures { IfSome result (λ t. t.1.index ≡ t.0) }
{
    let external = External {
        address: Address::v4(192, 0, 2, 1),
        low: 1024,
        high: 65535,
    };
    let maps = Vec::new(alloc);
    let peers = Vec::new(alloc);
    let last = moment(0);
    let Ok((writer, lane)) = lane(
        rt,
        alloc,
        &external,
        maps.as_slice(),
        peers.as_slice(),
        last,
    ) else {
        return None;
    };
    let writer = FittingWriter {
        replay: PlainReplay::new(alloc),
        writer,
        in_step: true,
    };
    Some((writer, lane))
}
