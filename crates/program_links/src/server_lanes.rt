//! What lanes of a server are asked.
ghost use Rattle.std.specs.Prelude.{◌≡◌};
ghost use Rattle.program_links.specs.Lanes.{lane_asked};

use pcp_base::{Endpoint, Failed};
use pcp_io::{LaneAsk, LaneLink, UdpLane};
use std::marker::Model;

/// The link of a lane, which passes over a stop while the server's work isn't over, unless it takes one.
/// An operator is told where the lane ends before that.
#[derive(Drop)]
pub struct ServerLane<'a> {
    lane: UdpLane,
    rt: &'a HostRuntime,
    // the place of its external address
    place: u32,
    takes_stops: bool,
    // whether there is no end to be told any more
    is_silent: bool,
}

impl<'a> Model for ServerLane<'a> {
    ghost use Rattle.program_links.specs.Lanes.{LaneCounts};

    ghost Value = { LaneCounts };

    ghost view = { λ l. record { faults = l.lane; takes_stops = l.takes_stops } };
}

impl<'a> ServerLane<'a> {
    ghost use Rattle.std.specs.Prelude.{◌≡◌};

    /// The link of the lane of the external address at this place over another one, which has counted no
    /// fault.
    pub fn of(rt: &'a HostRuntime, lane: UdpLane, place: u32, takes_stops: bool) -> ServerLane<'a>
        ensures { result ≡ record { faults = lane; takes_stops = takes_stops } }
    {
        ServerLane {
            lane,
            rt,
            place,
            takes_stops,
            is_silent: false,
        }
    }

    /// Tells an operator that the lane has ended, unless one was told, or the work is over.
    fn tell_end(&mut self)
        ensures { self.new ≡ self.old }
    {
        if !self.is_silent {
            let _ = eprintln!(self.rt; "pcp: lane of external address {} has ended", self.place);
        }
        self.is_silent = true;
    }
}

/// What of an ask passes.
fn lane_asked(takes_stops: bool, over: bool, asked: LaneAsk) -> LaneAsk
    ensures { result ≡ lane_asked takes_stops over asked }
{
    match asked {
        LaneAsk::Stop if !takes_stops && !over => LaneAsk::Quiet,
        _ => asked,
    }
}

impl<'a> LaneLink for ServerLane<'a> {
    ghost use Rattle.std.specs.Prelude.{◌≡◌, List, Option, None, IfOk, OnErr};
    ghost use Rattle.pcp_io.specs.declared.lane_links.LaneAsk.{LaneAsk};
    ghost use Rattle.pcp_io.specs.Asks.{IsNextAsk};
    ghost use Rattle.pcp_io.specs.CallLogs.{one_more};
    ghost use Rattle.pcp_io.specs.Faults.{HasCause};
    ghost use Rattle.program_links.specs.Lanes.{lane_asked};

    ghost asks = { λ _. None };

    ghost answers = { λ _. None };

    ghost faults = { λ l. l.faults };

    fn ask(&mut self, over: bool) -> Result<LaneAsk, Failed>
        ensures asks { IfOk result (IsNextAsk None None) }
        ensures unchanged { OnErr result (◌≡◌ {A = Option (List LaneAsk)} None None) }
        ensures passes { IfOk result (λ asked. asked ≡ lane_asked self.old.takes_stops over asked) }
        ensures cause { HasCause self.old.faults self.new.faults result }
        ensures counted { OnErr result (self.new.faults ≡ one_more self.old.faults) }
    {
        self.is_silent = self.is_silent || over;
        match self.lane.ask(over) {
            Ok(asked) => {
                let asked = lane_asked(self.takes_stops, over, asked);
                if asked == LaneAsk::Stop {
                    self.tell_end();
                }
                Ok(asked)
            }
            Err(Failed) => {
                self.tell_end();
                Err(Failed)
            }
        }
    }

    fn answer(&mut self, owner: Option<Endpoint>) -> Result<(), Failed> {
        match self.lane.answer(owner) {
            Ok(()) => Ok(()),
            Err(Failed) => {
                self.tell_end();
                Err(Failed)
            }
        }
    }
}
