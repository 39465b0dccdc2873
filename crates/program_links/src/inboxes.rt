//! What comes by several doors.
ghost use Rattle.std.specs.Prelude.{◌≡◌, ◌≤◌, None, IfOk, length};
ghost use Rattle.pcp_io.specs.Faults.{HasCause};
ghost use Rattle.pcp_io.specs.Takes.{Takes};
ghost use Rattle.pcp_io.specs.declared.inboxes.TheConstants.{LONGEST_DATAGRAM};
ghost use Rattle.program_links.specs.Ears.{all_faults};

use crate::sockets::same_socket;
use libc::net as c;
use libc::types::{pollfd, timespec};
use pcp_base::Failed;
use pcp_io::{Inbox, Incoming, LONGEST_DATAGRAM, ORDER_DOOR, UdpInbox};
use std::alloc::{AllocError, Global};
use std::net::UdpSocket;
use std::os::fd::AsRawFd;

/// How long is waited for a datagram, in milliseconds.
const WAITING_MS: i32 = 100;

/// Where the system is asked of nothing.
pub(crate) const NO_DESCRIPTOR: i32 = -1;

/// How many datagrams come by one door at most before all are looked at.
const MOST_TAKES: u32 = 16;

/// A door at which datagrams come. Its socket is held twice, so that several can be waited for at once.
#[derive(Drop)]
pub struct Ear {
    door: u8,
    inbox: UdpInbox,
    socket: Option<UdpSocket>,
}

impl Ear {
    /// The ear of this door and its socket. Without one, each take fails.
    pub fn of(door: u8, socket: Option<UdpSocket>) -> Ear {
        match same_socket(&socket) {
            Some(same) if same.set_nonblocking(true).is_ok() => Ear {
                door,
                inbox: UdpInbox::of(door, socket),
                socket: Some(same),
            },
            _ => Ear {
                door,
                inbox: UdpInbox::of(door, None),
                socket: None,
            },
        }
    }

    /// What the system is asked of it. Without a socket it is passed over.
    fn asked(&self) -> pollfd {
        match &self.socket {
            Some(socket) => asked_of(socket.as_raw_fd()),
            None => asked_of(NO_DESCRIPTOR),
        }
    }
}

/// What comes by several doors. A take waits for at most 100 milliseconds, for all of them at once. The
/// door of orders is asked first at each wait, unless it was the last one; the others come in turn. After
/// 16 datagrams of one door all are waited for. A fault of a door is one of the inbox.
#[derive(Drop)]
pub struct DoorsInbox {
    ears: Vec<Ear>,
    // what the system is asked of each ear, and of others behind them
    asked: Vec<pollfd>,
    // whether the system told at the last wait where something came
    is_told: bool,
    // the place of the ear of orders
    orders: Option<usize>,
    // the place of an ear that has no socket
    deaf: Option<usize>,
    // the place of the ear of the last take
    last: usize,
    // the place of the ear whose turn was last
    turn: usize,
    // how many datagrams may come from the last ear before all are looked at
    more: u32,
}

impl DoorsInbox {
    /// The inbox of these ears. Where one has no socket, each take fails. The one error is want of memory.
    pub fn of(alloc: Global, ears: Vec<Ear>) -> Result<DoorsInbox, AllocError> {
        DoorsInbox::beside(alloc, ears, 0)
    }

    /// The same, which may wait for so many other descriptors, too.
    pub(crate) fn beside(
        alloc: Global,
        ears: Vec<Ear>,
        others: usize,
    ) -> Result<DoorsInbox, AllocError> {
        let mut asked = Vec::new(alloc);
        for ear in &ears {
            asked.push(ear.asked())?;
        }
        for _ in 0..others {
            asked.push(asked_of(NO_DESCRIPTOR))?;
        }
        let orders = ears.iter().position(|ear| ear.door == ORDER_DOOR);
        let deaf = ears.iter().position(|ear| ear.socket.is_none());
        Ok(DoorsInbox {
            ears,
            asked,
            is_told: false,
            orders,
            deaf,
            last: 0,
            turn: 0,
            more: 0,
        })
    }

    /// The door of the last take; that of orders where there is none.
    pub(crate) fn last_door(&self) -> u8 {
        match self.ears.get(self.last) {
            Some(ear) => ear.door,
            None => ORDER_DOOR,
        }
    }

    /// Takes what is there at the last ear, unless enough came from it.
    pub(crate) fn take_more(&mut self, room: &mut [u8]) -> Result<Incoming, Failed>
        requires { LONGEST_DATAGRAM ≤ length room.old }
        ensures takes { IfOk result (Takes None None room.new) }
        ensures cause { HasCause (all_faults self.old.ears.items) (all_faults self.new.ears.items) result }
    {
        if self.more == 0 {
            return Ok(Incoming::Quiet);
        }
        self.more -= 1;
        self.take_at(self.last, room)
    }

    /// Waits until something comes, and for these descriptors too.
    pub(crate) fn wait_beside(&mut self, others: &[i32])
        ensures { self.new.ears ≡ self.old.ears }
    {
        for (asked, fd) in self
            .asked
            .iter_mut()
            .skip(self.ears.len())
            .zip(others.iter())
        {
            *asked = asked_of(*fd);
        }
        self.is_told = self.deaf.is_none() && c::poll(&mut self.asked, WAITING_MS) >= 0;
        if !self.is_told && self.deaf.is_none() {
            nap();
        }
    }

    /// Takes what came at an ear at the last wait.
    pub(crate) fn take_ready(&mut self, room: &mut [u8]) -> Result<Incoming, Failed>
        requires { LONGEST_DATAGRAM ≤ length room.old }
        ensures takes { IfOk result (Takes None None room.new) }
        ensures cause { HasCause (all_faults self.old.ears.items) (all_faults self.new.ears.items) result }
    {
        let Some(place) = self.ready() else {
            return Ok(Incoming::Quiet);
        };
        self.more = MOST_TAKES - 1;
        self.last = place;
        self.take_at(place, room)
    }

    /// The place of the ear that is to be asked; none where nothing came in the waiting time.
    fn ready(&mut self) -> Option<usize>
        ensures { self.new.ears ≡ self.old.ears }
    {
        if self.deaf.is_some() {
            return self.deaf;
        }
        if self.is_told && self.is_ordered() {
            return self.orders;
        }
        let count = self.ears.len().min(self.asked.len());
        let next = place_behind(&self.asked[..count], self.turn, !self.is_told);
        self.turn = next?;
        next
    }

    /// Whether something came at the door of orders, and not at the wait before.
    fn is_ordered(&self) -> bool {
        let Some(place) = self.orders else {
            return false;
        };
        match self.asked.get(place) {
            Some(asked) => asked.revents != 0 && self.last != place,
            None => false,
        }
    }

    /// Takes what is there at the ear of this place.
    fn take_at(&mut self, place: usize, room: &mut [u8]) -> Result<Incoming, Failed>
        requires { LONGEST_DATAGRAM ≤ length room.old }
        ensures takes { IfOk result (Takes None None room.new) }
        ensures cause { HasCause (all_faults self.old.ears.items) (all_faults self.new.ears.items) result }
    {
        match self.ears.get_mut(place) {
            Some(ear) => ear.inbox.take(room),
            None => Ok(Incoming::Quiet),
        }
    }
}

/// What the system is asked of a descriptor: whether something came.
pub(crate) fn asked_of(fd: i32) -> pollfd {
    pollfd {
        fd,
        events: c::POLLIN,
        revents: 0,
    }
}

/// Waits ten milliseconds, where the system can't be asked to wait for something.
fn nap() {
    let asked = timespec {
        tv_sec: 0,
        tv_nsec: 10_000_000,
    };
    let mut left = timespec {
        tv_sec: 0,
        tv_nsec: 0,
    };
    let _status = libc::nanosleep(&asked, &mut left);
}

/// The first place behind this one at which something came, those up to it coming last; any place where
/// the system doesn't say at which.
fn place_behind(asked: &[pollfd], place: usize, any: bool) -> Option<usize> {
    let mut first = None;
    for (at, one) in asked.iter().enumerate() {
        if one.revents == 0 && !any {
            continue;
        }
        if at > place {
            return Some(at);
        }
        if first.is_none() {
            first = Some(at);
        }
    }
    first
}

impl Inbox for DoorsInbox {
    ghost use Rattle.std.specs.Prelude.{None};
    ghost use Rattle.program_links.specs.Ears.{all_faults};

    ghost left = { λ _. None };

    ghost faults = { λ b. all_faults b.ears.items };

    fn take(&mut self, room: &mut [u8]) -> Result<Incoming, Failed> {
        let incoming = self.take_more(room)?;
        if incoming != Incoming::Quiet {
            return Ok(incoming);
        }
        self.wait_beside(&[]);
        self.take_ready(room)
    }

    // Who orders by a datagram hears nothing.
    fn answered(&mut self, _order: u32, _text: &[u8]) {}
}
