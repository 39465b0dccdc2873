//! A source in memory.
use crate::calls::Calls;
use crate::sources::Source;
use pcp_base::{Failed, Memory};
use std::alloc::Global;
use std::marker::Model;

/// A source that gives the octets of a list. A read gives as many as fit; it fails, and counts
/// that, exactly where `fail_at` named it.
#[derive(Drop)]
pub struct MemorySource {
    octets: Vec<u8>,
    // how many were given
    at: usize,
    calls: Calls,
}

impl Model for MemorySource {
    ghost use Rattle.std.specs.Prelude.{◌≤◌, drop, vec_len};
    ghost use Rattle.pcp_io.specs.InMemory.{SourceInMemory};

    ghost Value = { SourceInMemory };

    ghost view = { λ s. record { left = drop s.at s.octets.items; calls = s.calls } };

    ghost invariant = { λ s. s.at ≤ vec_len s.octets };
}

impl MemorySource {
    ghost use Rattle.std.specs.Prelude.{◌≡◌, OnOk, OnErr, IfOk};
    ghost use Rattle.pcp_io.specs.CallLogs.{with_failing};
    ghost use Rattle.pcp_io.specs.InMemory.{new_source};

    /// A source of these octets, no read of which fails.
    pub fn new(alloc: Global, octets: Vec<u8>) -> Result<MemorySource, Memory>
        ensures { IfOk result (λ source. source ≡ new_source octets.items) }
    {
        Ok(MemorySource {
            octets,
            at: 0,
            calls: Calls::new(alloc),
        })
    }

    /// Names a read that is to fail. Reads are numbered from 0, those that fail too; all from
    /// number 2^64 - 1 on have that number.
    pub fn fail_at(&mut self, _alloc: Global, call: u64) -> Result<(), Memory>
        ensures ok { OnOk result (self.new
            ≡ record self.old { calls = with_failing self.old.calls call }) }
        ensures err { OnErr result (self.new ≡ self.old) }
    {
        self.calls.fail_at(call)
    }

    /// How many reads found no memory: none, since a read takes none.
    pub fn starved(&self) -> u64
        ensures { result ≡ self.now.calls.starved }
    {
        self.calls.starved()
    }
}

impl Source for MemorySource {
    ghost use Rattle.std.specs.Prelude.{◌≡◌, ◌↔◌, Some, min, length, IsErr, IfOk, OnOk, OnErr};
    ghost use Rattle.pcp_io.specs.CallLogs.{IsNamed, with_call, with_fault};
    ghost use Rattle.pcp_io.specs.Faults.{HasCause};
    ghost use Rattle.pcp_io.specs.Reads.{Reads};

    ghost left = { λ s. Some s.left };

    ghost faults = { λ s. s.calls.faults };

    fn read(&mut self, piece: &mut [u8]) -> Result<usize, Failed>
        ensures reads { IfOk result
            (Reads (Some self.old.left) (Some self.new.left) piece.old piece.new) }
        ensures most { IfOk result (λ n. n ≡ min (length piece.old) (length self.old.left)) }
        ensures unchanged { OnErr result (self.new.left ≡ self.old.left) }
        ensures piece { OnErr result (piece.new ≡ piece.old) }
        ensures cause { HasCause self.old.calls.faults self.new.calls.faults result }

        // It fails where the call is named, and nowhere else.
        ensures fails { IsErr result ↔ IsNamed self.old.calls }
        ensures call { OnOk result (self.new.calls ≡ with_call self.old.calls) }
        ensures fault { OnErr result (self.new.calls ≡ with_fault self.old.calls) }
    {
        if self.calls.begin() {
            return Err(self.calls.fail());
        }
        let left = &self.octets[self.at..];
        let count = left.len().min(piece.len());
        piece[..count].copy_from_slice(&left[..count]);
        self.at += count;
        Ok(count)
    }
}
