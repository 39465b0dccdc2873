//! An inbox in memory.
ghost use Rattle.std.specs.Prelude.{◌≡◌, ◌≤◌, Some, length, take};
ghost use Rattle.pcp_io.specs.declared.inboxes.TheConstants.{LONGEST_DATAGRAM};
ghost use Rattle.pcp_io.specs.Takes.{cut_item, filled, item_of};

use crate::calls::Calls;
use crate::inboxes::{Inbox, InboxItem, Incoming, LONGEST_DATAGRAM};
use pcp_base::{Datagram, Failed, Memory};
use std::alloc::Global;
use std::marker::Model;

/// An inbox that gives the items of a list, and then stops. A datagram longer than `LONGEST_DATAGRAM`
/// is cut there. A take fails, and counts that, exactly where `fail_at` named it.
#[derive(Drop)]
pub struct MemoryInbox {
    items: Vec<InboxItem>,
    // how many were given
    at: usize,
    calls: Calls,
}

impl Model for MemoryInbox {
    ghost use Rattle.std.specs.Prelude.{◌≤◌, drop, map, vec_len};
    ghost use Rattle.pcp_io.specs.Takes.{cut_item};
    ghost use Rattle.pcp_io.specs.InMemory.{InboxInMemory};

    ghost Value = { InboxInMemory };

    ghost view = { λ s. record { left = map cut_item (drop s.at s.items.items); calls = s.calls } };

    ghost invariant = { λ s. s.at ≤ vec_len s.items };
}

impl MemoryInbox {
    ghost use Rattle.std.specs.Prelude.{◌≡◌, OnOk, OnErr, IfOk};
    ghost use Rattle.pcp_io.specs.CallLogs.{with_failing};
    ghost use Rattle.pcp_io.specs.InMemory.{new_inbox};

    /// An inbox of these items, no take of which fails.
    pub fn new(alloc: Global, items: Vec<InboxItem>) -> Result<MemoryInbox, Memory>
        ensures { IfOk result (λ inbox. inbox ≡ new_inbox items.items) }
    {
        Ok(MemoryInbox {
            items,
            at: 0,
            calls: Calls::new(alloc),
        })
    }

    /// Names a take that is to fail. Takes are numbered from 0, those that fail too; all from
    /// number 2^64 - 1 on have that number.
    pub fn fail_at(&mut self, _alloc: Global, call: u64) -> Result<(), Memory>
        ensures ok { OnOk result (self.new
            ≡ record self.old { calls = with_failing self.old.calls call }) }
        ensures err { OnErr result (self.new ≡ self.old) }
    {
        self.calls.fail_at(call)
    }

    /// How many takes found no memory: none, since a take takes none.
    pub fn starved(&self) -> u64
        ensures { result ≡ self.now.calls.starved }
    {
        self.calls.starved()
    }
}

/// Puts a datagram's octets into the front of the room.
fn give_packet(datagram: &Datagram, room: &mut [u8]) -> Incoming
    requires { LONGEST_DATAGRAM ≤ length room.old }
    ensures item { item_of result room.new
        ≡ Some (cut_item (InboxItem.Packet datagram.now)) }
    ensures filled { filled result ≤ LONGEST_DATAGRAM }
{
    let octets = datagram.octets.items();
    let length = octets.len().min(LONGEST_DATAGRAM);
    room[..length].copy_from_slice(&octets[..length]);
    Incoming::Packet {
        peer: datagram.peer,
        port: datagram.port,
        door: datagram.door,
        length,
    }
}

/// Gives an item, a datagram's octets in the front of the room.
fn give(item: &InboxItem, room: &mut [u8]) -> Incoming
    requires { LONGEST_DATAGRAM ≤ length room.old }
    ensures item { item_of result room.new ≡ Some (cut_item item.now) }
    ensures filled { filled result ≤ LONGEST_DATAGRAM }
{
    match item {
        InboxItem::Packet(datagram) => give_packet(datagram, room),
        InboxItem::Lose(order, address) => Incoming::Lose(*order, *address),
        InboxItem::Status(order) => Incoming::Status(*order),
        InboxItem::Quiet => Incoming::Quiet,
    }
}

impl Inbox for MemoryInbox {
    ghost use Rattle.std.specs.Prelude.{◌≡◌, ◌↔◌, Some, IsErr, IfOk, OnOk, OnErr};
    ghost use Rattle.pcp_io.specs.CallLogs.{IsNamed, with_call, with_fault};
    ghost use Rattle.pcp_io.specs.Faults.{HasCause};
    ghost use Rattle.pcp_io.specs.Takes.{Takes};

    ghost left = { λ s. Some s.left };

    ghost faults = { λ s. s.calls.faults };

    fn take(&mut self, room: &mut [u8]) -> Result<Incoming, Failed>
        requires { LONGEST_DATAGRAM ≤ length room.old }
        ensures takes { IfOk result (Takes (Some self.old.left) (Some self.new.left) room.new) }
        ensures unchanged { OnErr result (self.new.left ≡ self.old.left) }
        ensures cause { HasCause self.old.calls.faults self.new.calls.faults result }

        // It fails where the call is named, and nowhere else.
        ensures fails { IsErr result ↔ IsNamed self.old.calls }
        ensures call { OnOk result (self.new.calls ≡ with_call self.old.calls) }
        ensures fault { OnErr result (self.new.calls ≡ with_fault self.old.calls) }
    {
        if self.calls.begin() {
            return Err(self.calls.fail());
        }
        if self.at == self.items.len() {
            return Ok(Incoming::Stop);
        }
        let incoming = give(&self.items[self.at], room);
        self.at += 1;
        Ok(incoming)
    }

    // Nobody hears it.
    fn answered(&mut self, _order: u32, _text: &[u8])
        ensures { self.new ≡ self.old }
    {}
}
