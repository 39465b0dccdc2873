//! A relay as its run sees it.
ghost use Rattle.std.specs.Prelude.{◌≡◌, ◌<◌, IfOk};
ghost use Rattle.pcp_io.specs.declared.clocks.TheConstants.{END_OF_TIME_MS};
ghost use Rattle.relay_runs.specs.Machines.{Machine};

use pcp_base::{Datagram, Memory};
use proxy_core::ProxyOut;
use std::alloc::Global;

/// A relay between clients and one upstream server. Times are in milliseconds, as a clock's are.
/// After `Memory` nothing is said of it.
pub trait RelayMachine {
    // What each call makes of it, and what the call gives.
    ghost machine: { Machine Self };

    /// What is to be sent for a datagram of a client.
    fn from_client(
        &mut self,
        alloc: Global,
        datagram: &Datagram,
        now_ms: u64,
    ) -> Result<ProxyOut, Memory>
        requires { now_ms < END_OF_TIME_MS }
        ensures { IfOk result (λ out. machine.on_client self.old datagram.now now_ms
            ≡ record { state = self.new; out = out }) };

    /// What is to be sent for a datagram from upstream.
    fn from_server(
        &mut self,
        alloc: Global,
        datagram: &Datagram,
        now_ms: u64,
    ) -> Result<ProxyOut, Memory>
        requires { now_ms < END_OF_TIME_MS }
        ensures { IfOk result (λ out. machine.on_server self.old datagram.now now_ms
            ≡ record { state = self.new; out = out }) };

    /// Drops what is over, and gives the octets that are to be announced to all clients, if any are.
    fn tick(&mut self, now_ms: u64) -> Option<[u8; 24]>
        requires { now_ms < END_OF_TIME_MS }
        ensures { machine.on_tick self.old now_ms ≡ record { state = self.new; out = result } };
}
