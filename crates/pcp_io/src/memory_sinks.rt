//! A sink in memory.
use crate::calls::Calls;
use crate::sinks::Sink;
use pcp_base::{Failed, Memory};
use std::alloc::Global;
use std::marker::Model;

/// A sink that holds what it took. A write takes its whole piece. It fails and takes nothing where
/// `fail_at` named it, where the piece would pass the room, or where no memory was found; each of
/// these is counted, and nothing else is.
#[derive(Drop)]
pub struct MemorySink {
    held: Vec<u8>,
    room: u64,
    calls: Calls,
}

impl Model for MemorySink {
    ghost use Rattle.std.specs.Prelude.{◌≤◌, vec_len};
    ghost use Rattle.pcp_io.specs.InMemory.{SinkInMemory};

    ghost Value = { SinkInMemory };

    ghost view = { λ s. record { held = s.held.items; room = s.room; calls = s.calls } };

    ghost invariant = { λ s. vec_len s.held ≤ s.room };
}

impl MemorySink {
    ghost use Rattle.std.specs.Prelude.{◌≡◌, OnOk, OnErr, IfOk};
    ghost use Rattle.pcp_io.specs.CallLogs.{with_failing};
    ghost use Rattle.pcp_io.specs.InMemory.{new_sink};

    /// A sink that may hold as many octets as the room, no write of which is named to fail.
    pub fn new(alloc: Global, room: u64) -> Result<MemorySink, Memory>
        ensures { IfOk result (λ sink. sink ≡ new_sink room) }
    {
        Ok(MemorySink {
            held: Vec::new(alloc),
            room,
            calls: Calls::new(alloc),
        })
    }

    /// Names a write that is to fail. Writes are numbered from 0, those that fail too; all from
    /// number 2^64 - 1 on have that number.
    pub fn fail_at(&mut self, _alloc: Global, call: u64) -> Result<(), Memory>
        ensures ok { OnOk result (self.new
            ≡ record self.old { calls = with_failing self.old.calls call }) }
        ensures err { OnErr result (self.new ≡ self.old) }
    {
        self.calls.fail_at(call)
    }

    /// The octets that it took, in order.
    pub fn held(&self) -> &[u8]
        ensures { result.now ≡ self.now.held }
    {
        &self.held
    }

    /// How many writes found no memory.
    pub fn starved(&self) -> u64
        ensures { result ≡ self.now.calls.starved }
    {
        self.calls.starved()
    }
}

impl Sink for MemorySink {
    ghost use Rattle.std.specs.Prelude.{◌≡◌, ◌⊎◌, Some, length, IsErr, IfOk, OnOk, OnErr};
    ghost use Rattle.pcp_io.specs.CallLogs.{with_call, with_fault, with_starved};
    ghost use Rattle.pcp_io.specs.Faults.{HasCause};
    ghost use Rattle.pcp_io.specs.InMemory.{IsWriteRefused};
    ghost use Rattle.pcp_io.specs.Writes.{Writes};

    ghost held = { λ s. Some s.held };

    ghost faults = { λ s. s.calls.faults };

    fn write(&mut self, piece: &[u8]) -> Result<usize, Failed>
        ensures writes { IfOk result (Writes (Some self.old.held) (Some self.new.held) piece.now) }
        ensures whole { IfOk result (λ n. n ≡ length piece.now) }
        ensures unchanged { OnErr result (self.new.held ≡ self.old.held) }
        ensures cause { HasCause self.old.calls.faults self.new.calls.faults result }

        // It fails where the call is named and where the piece would pass the room, and else only
        // for want of memory.
        ensures refused { IsWriteRefused self.old piece.now → IsErr result }
        ensures fault { IsWriteRefused self.old piece.now
            → self.new.calls ≡ with_fault self.old.calls }
        ensures starved { OnErr result
            (IsWriteRefused self.old piece.now ⊎ (self.new.calls ≡ with_starved self.old.calls)) }
        ensures call { OnOk result (self.new.calls ≡ with_call self.old.calls) }
        ensures room { self.new.room ≡ self.old.room }
    {
        let named = self.calls.begin();
        let free = self.room - self.held.len() as u64;
        if named || free < piece.len() as u64 {
            return Err(self.calls.fail());
        }
        match self.held.extend_from_slice(piece) {
            Ok(()) => Ok(piece.len()),
            Err(_) => Err(self.calls.starve()),
        }
    }
}
