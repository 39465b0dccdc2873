//! What comes to a server: by its doors, and by the socket of orders.
ghost use Rattle.std.specs.Prelude.{◌≡◌, ◌≤◌, None, IfSome, IfOk, OnOk, OnErr, length};
ghost use Rattle.pcp_io.specs.CallLogs.{one_more};
ghost use Rattle.pcp_io.specs.Faults.{HasCause};
ghost use Rattle.pcp_io.specs.Takes.{Takes, filled};
ghost use Rattle.pcp_io.specs.declared.inboxes.TheConstants.{LONGEST_DATAGRAM};
ghost use Rattle.program_links.specs.Ears.{all_faults};

use crate::clocks::system_time;
use crate::inboxes::DoorsInbox;
use crate::order_doors::OrderDoor;
use crate::order_lines::OrderLine;
use pcp_base::{Failed, Memory};
use pcp_io::{Clock, Inbox, Incoming, LONGEST_DATAGRAM, SteadyClock};
use status_board::Board;
use std::os::unix::net::UnixStream;

/// What comes by the doors of a server, and by the socket `orders` of its folder, which is made at the
/// first take: then the journals are open. It is asked at each wait, unless an order of its was taken last
/// and a datagram waits. Where it can't be made, each take fails, which is a fault. Once a disk is lost
/// all takes are stops.
#[derive(Drop)]
pub struct ServerInbox<'a> {
    ears: DoorsInbox,
    orders: OrderDoor<'a>,
    rt: &'a HostRuntime,
    board: &'a Board,
    clock: SteadyClock,
    // whether an order of the socket was taken last
    was_ordered: bool,
    faults: u64,
}

impl<'a> ServerInbox<'a> {
    /// The inbox of these doors, of a server with this clock and the journals of this folder. The one error
    /// is want of memory.
    pub fn of(
        rt: &'a HostRuntime,
        ears: DoorsInbox,
        board: &'a Board,
        clock: SteadyClock,
        folder: &str,
    ) -> Result<ServerInbox<'a>, Memory> {
        Ok(ServerInbox {
            ears,
            orders: OrderDoor::of(rt, folder)?,
            rt,
            board,
            clock,
            was_ordered: false,
            faults: 0,
        })
    }

    /// Refuses who waits for an answer, and removes the socket. Who ordered the stop learns by the end of
    /// these connections that the server has ended.
    pub fn end(self) -> Vec<UnixStream> {
        self.orders.end()
    }

    /// Makes the socket of orders, unless it is there. An operator is told where it can't be made.
    fn open(&mut self) -> Result<(), Failed>
        ensures ears { self.new.ears ≡ self.old.ears }
        ensures same { OnOk result (self.new.faults ≡ self.old.faults) }
        ensures counted { OnErr result (self.new.faults ≡ one_more self.old.faults) }
    {
        if self.orders.is_open() {
            return Ok(());
        }
        if let Err(error) = self.orders.open() {
            self.orders.tell_fault(&error);
            self.faults = self.faults.saturating_add(1);
            return Err(Failed);
        }
        self.board.begin_serving();
        Ok(())
    }

    /// The next order of the socket.
    fn ordered(&mut self) -> Option<Incoming>
        ensures ears { self.new.ears ≡ self.old.ears }
        ensures faults { self.new.faults ≡ self.old.faults }
        ensures filled { IfSome result (λ incoming. filled incoming ≡ 0) }
    {
        let (order, line) = self.orders.take()?;
        match line {
            OrderLine::Stop => Some(Incoming::Stop),
            OrderLine::Lose(address) => Some(Incoming::Lose(order, address)),
            OrderLine::Status => {
                self.leave_offset();
                Some(Incoming::Status(order))
            }
        }
    }

    /// Leaves how far the server's clock is ahead of the system's.
    fn leave_offset(&mut self)
        ensures ears { self.new.ears ≡ self.old.ears }
        ensures faults { self.new.faults ≡ self.old.faults }
    {
        let own = (self.clock.now() / 1000) as i64;
        let system = (system_time(self.rt) / 1000) as i64;
        self.board.set_clock_offset(own.saturating_sub(system));
    }

    /// Waits, and takes what came: an order of the socket first, unless one was taken last.
    fn take_next(&mut self, room: &mut [u8]) -> Result<Incoming, Failed>
        requires { LONGEST_DATAGRAM ≤ length room.old }
        ensures takes { IfOk result (Takes None None room.new) }
        ensures faults { self.new.faults ≡ self.old.faults }
        ensures cause { HasCause (all_faults self.old.ears.ears.items) (all_faults self.new.ears.ears.items) result }
    {
        self.ears.wait_beside(&self.orders.asked());
        if !self.was_ordered {
            if let Some(incoming) = self.ordered() {
                self.was_ordered = true;
                return Ok(incoming);
            }
        }
        self.was_ordered = false;
        self.ears.take_ready(room)
    }
}

impl<'a> Inbox for ServerInbox<'a> {
    ghost use Rattle.std.specs.Prelude.{◌+◌, None};
    ghost use Rattle.program_links.specs.Ears.{all_faults};

    ghost left = { λ _. None };

    ghost faults = { λ b. all_faults b.ears.ears.items + b.faults };

    fn take(&mut self, room: &mut [u8]) -> Result<Incoming, Failed> {
        if self.board.has_lost_disk() {
            return Ok(Incoming::Stop);
        }
        self.open()?;
        let incoming = self.ears.take_more(room)?;
        if incoming != Incoming::Quiet {
            return Ok(incoming);
        }
        self.take_next(room)
    }

    fn answered(&mut self, order: u32, text: &[u8]) {
        self.orders.answer(order, text);
    }
}
