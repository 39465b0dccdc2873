//! An outbox in memory.
ghost use Rattle.std.specs.Prelude.{◌≡◌, IfOk};
ghost use Rattle.pcp_base.specs.declared.datagrams.Datagram.{Datagram};

use crate::calls::Calls;
use crate::outboxes::Outbox;
use pcp_base::{Address, Datagram, Failed, Memory, Octets};
use std::alloc::Global;
use std::marker::Model;

/// An outbox that keeps what it took. A send fails and takes nothing where `fail_at` named it, where
/// the octets of all datagrams would pass the room, or where no memory was found; each of these is
/// counted, and nothing else is.
#[derive(Drop)]
pub struct MemoryOutbox {
    alloc: Global,
    sent: Vec<Datagram>,
    room: u64,
    // the octets of what it took
    used: u64,
    calls: Calls,
}

impl Model for MemoryOutbox {
    ghost use Rattle.std.specs.Prelude.{◌≡◌, ◌≤◌};
    ghost use Rattle.pcp_io.specs.InMemory.{OutboxInMemory, octets_in};

    ghost Value = { OutboxInMemory };

    ghost view = { λ s. record { sent = s.sent.items; room = s.room; calls = s.calls } };

    ghost invariant = { λ s. (s.used ≡ octets_in s.sent.items) × (s.used ≤ s.room) };
}

impl MemoryOutbox {
    ghost use Rattle.std.specs.Prelude.{◌≡◌, OnOk, OnErr, IfOk};
    ghost use Rattle.pcp_io.specs.CallLogs.{with_failing};
    ghost use Rattle.pcp_io.specs.InMemory.{new_outbox};

    /// An outbox that may take as many octets as the room, no send of which is named to fail.
    pub fn new(alloc: Global, room: u64) -> Result<MemoryOutbox, Memory>
        ensures { IfOk result (λ outbox. outbox ≡ new_outbox room) }
    {
        Ok(MemoryOutbox {
            alloc,
            sent: Vec::new(alloc),
            room,
            used: 0,
            calls: Calls::new(alloc),
        })
    }

    /// Names a send that is to fail. Sends are numbered from 0, those that fail too; all from
    /// number 2^64 - 1 on have that number.
    pub fn fail_at(&mut self, _alloc: Global, call: u64) -> Result<(), Memory>
        ensures ok { OnOk result (self.new
            ≡ record self.old { calls = with_failing self.old.calls call }) }
        ensures err { OnErr result (self.new ≡ self.old) }
    {
        self.calls.fail_at(call)
    }

    /// The datagrams that it took, in order, each with its receiver.
    pub fn sent(&self) -> &[Datagram]
        ensures { result.now ≡ self.now.sent }
    {
        &self.sent
    }

    /// How many sends found no memory.
    pub fn starved(&self) -> u64
        ensures { result ≡ self.now.calls.starved }
    {
        self.calls.starved()
    }
}

/// A datagram by this door to this peer.
fn datagram_of(
    alloc: Global,
    door: u8,
    peer: Address,
    port: u16,
    octets: &[u8],
) -> Result<Datagram, Memory>
    ensures { IfOk result
        (λ d. d ≡ record { peer = peer; port = port; door = door; octets = octets.now }) }
{
    Ok(Datagram {
        peer,
        port,
        door,
        octets: Octets::of(octets.to_vec(alloc)?),
    })
}

impl Outbox for MemoryOutbox {
    ghost use Rattle.std.specs.Prelude.{◌≡◌, ◌⊎◌, Some, IsErr, OnOk, OnErr};
    ghost use Rattle.pcp_io.specs.CallLogs.{with_call, with_fault, with_starved};
    ghost use Rattle.pcp_io.specs.Faults.{HasCause};
    ghost use Rattle.pcp_io.specs.InMemory.{IsSendRefused};
    ghost use Rattle.pcp_io.specs.Sends.{sent_after};

    ghost sent = { λ s. Some s.sent };

    ghost faults = { λ s. s.calls.faults };

    fn send(&mut self, door: u8, peer: Address, port: u16, octets: &[u8]) -> Result<(), Failed>
        ensures sends { OnOk result
            (Some self.new.sent ≡ sent_after (Some self.old.sent) door peer port octets.now) }
        ensures unchanged { OnErr result (self.new.sent ≡ self.old.sent) }
        ensures cause { HasCause self.old.calls.faults self.new.calls.faults result }

        // It fails where the call is named and where the octets would pass the room, and else only
        // for want of memory.
        ensures refused { IsSendRefused self.old octets.now → IsErr result }
        ensures fault { IsSendRefused self.old octets.now
            → self.new.calls ≡ with_fault self.old.calls }
        ensures starved { OnErr result
            (IsSendRefused self.old octets.now ⊎ (self.new.calls ≡ with_starved self.old.calls)) }
        ensures call { OnOk result (self.new.calls ≡ with_call self.old.calls) }
        ensures room { self.new.room ≡ self.old.room }
    {
        let named = self.calls.begin();
        let free = self.room - self.used;
        if named || free < octets.len() as u64 {
            return Err(self.calls.fail());
        }
        let Ok(datagram) = datagram_of(self.alloc, door, peer, port, octets) else {
            return Err(self.calls.starve());
        };
        if self.sent.reserve(1).is_err() {
            return Err(self.calls.starve());
        }
        self.used += octets.len() as u64;
        self.sent.push_reserved(datagram);
        Ok(())
    }
}
