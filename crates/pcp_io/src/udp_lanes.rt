//! A link of a lane over a UDP socket. It tells nothing of content.
ghost use Rattle.std.specs.Prelude.{◌≡◌, IfOk};
ghost use Rattle.pcp_io.specs.declared.lane_links.LaneAsk.TheVariants.{Quiet};

use crate::lane_links::{LaneAsk, LaneLink};
use crate::lane_texts::{ROOM, read_ask, write_answer};
use crate::sockets::{Trouble, ready, receive, sender_of, sends};
use pcp_base::{Endpoint, Failed};
use std::marker::Model;
use std::net::{SocketAddr, UdpSocket};

/// Asks that come to a socket, each a text, and are answered to their senders: `look PROTOCOL PORT REMOTE
/// REMOTEPORT` asks for an owner and `stop` for the end; any other is passed over, as if none had
/// come. An ask waits for at most 100 milliseconds. Once it is told that the work is over, it asks for
/// the end after 64 more asks at the latest. Each error of the socket is a fault that it counts,
/// and nothing else is. An answer that the system doesn't take is lost and counted, and the link goes
/// on; so it does where an ask's error tells that an answer sent before is lost. A count that stands at
/// 2^64 - 1 stands still.
#[derive(Drop)]
pub struct UdpLane {
    socket: Option<UdpSocket>,
    // who asked for an owner last
    asker: Option<SocketAddr>,
    // how many asks there were since the work is over
    late: u32,
    faults: u64,
}

/// How many asks a lane still hears once the work is over.
const MOST_LATE: u32 = 64;

impl Model for UdpLane {
    ghost use Rattle.std.specs.Prelude.{ℕ};

    // How many faults it has counted.
    ghost Value = { ℕ };

    ghost view = { λ s. s.faults };
}

impl UdpLane {
    ghost use Rattle.std.specs.Prelude.{◌≡◌};

    /// A link over this socket that has counted no fault. Without one, or where it takes no waiting
    /// time, each call fails.
    pub fn of(socket: Option<UdpSocket>) -> UdpLane
        ensures { result ≡ 0 }
    {
        UdpLane {
            socket: ready(socket),
            asker: None,
            late: 0,
            faults: 0,
        }
    }
}

impl UdpLane {
    ghost use Rattle.std.specs.Prelude.{◌≡◌};

    /// Counts an ask since the work is over. Whether there were enough.
    fn is_late(&mut self) -> bool
        ensures { self.new ≡ self.old }
    {
        self.late = self.late.saturating_add(1);
        self.late > MOST_LATE
    }
}

/// Takes what is asked next, and who asks for an owner.
fn ask_by(socket: &Option<UdpSocket>, asker: &mut Option<SocketAddr>) -> Result<LaneAsk, Trouble> {
    let mut room = [0; ROOM];
    let Some(found) = receive(socket, &mut room)? else {
        return Ok(LaneAsk::Quiet);
    };
    let (length, from) = found;
    let asked = read_ask(&room[..length]);
    if matches!(asked, LaneAsk::Look { .. }) {
        *asker = Some(from);
    }
    Ok(asked)
}

/// What an ask gives after an error.
fn asked_after(trouble: Trouble) -> Result<LaneAsk, Failed>
    ensures { IfOk result (λ asked. asked ≡ Quiet) }
{
    match trouble {
        Trouble::Lost => Ok(LaneAsk::Quiet),
        Trouble::Broken => Err(Failed),
    }
}

/// Sends an answer to who asked. Whether it went out; to nobody it does.
fn answers(socket: &UdpSocket, asker: Option<SocketAddr>, owner: &Option<Endpoint>) -> bool {
    let Some(to) = asker else {
        return true;
    };
    let Some(peer) = sender_of(to.ip()) else {
        return false;
    };
    let mut room = [0; ROOM];
    match write_answer(owner, &mut room) {
        Ok(length) => sends(socket, &peer, to.port(), 0, &room[..length]),
        Err(_) => false,
    }
}

impl LaneLink for UdpLane {
    ghost use Rattle.std.specs.Prelude.{◌≡◌, ◌⊎◌, None, OnOk, OnErr, IfOk};
    ghost use Rattle.pcp_io.specs.declared.lane_links.LaneAsk.TheVariants.{Quiet};
    ghost use Rattle.pcp_io.specs.CallLogs.{one_more};
    ghost use Rattle.pcp_io.specs.Faults.{HasCause};

    ghost asks = { λ _. None };

    ghost answers = { λ _. None };

    ghost faults = { λ s. s };

    fn ask(&mut self, over: bool) -> Result<LaneAsk, Failed>
        ensures cause { HasCause self.old self.new result }
        ensures same { IfOk result (λ asked. (self.new ≡ self.old)
            ⊎ ((asked ≡ Quiet) × (self.new ≡ one_more self.old))) }
        ensures counted { OnErr result (self.new ≡ one_more self.old) }
    {
        if over && self.is_late() {
            return Ok(LaneAsk::Stop);
        }
        match ask_by(&self.socket, &mut self.asker) {
            Ok(asked) => Ok(asked),
            Err(trouble) => {
                self.faults = self.faults.saturating_add(1);
                asked_after(trouble)
            }
        }
    }

    fn answer(&mut self, owner: Option<Endpoint>) -> Result<(), Failed>
        ensures cause { HasCause self.old self.new result }
        ensures same { OnOk result
            ((self.new ≡ self.old) ⊎ (self.new ≡ one_more self.old)) }
        ensures counted { OnErr result (self.new ≡ one_more self.old) }
    {
        let Some(socket) = &self.socket else {
            self.faults = self.faults.saturating_add(1);
            return Err(Failed);
        };
        if !answers(socket, self.asker, &owner) {
            self.faults = self.faults.saturating_add(1);
        }
        Ok(())
    }
}
