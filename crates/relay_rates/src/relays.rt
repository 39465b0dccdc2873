//! A relay behind its gates.
ghost use Rattle.std.specs.Prelude.{◌≡◌};
ghost use Rattle.relay_rates.specs.Rates.{is_told};

use crate::gates::RateGate;
use pcp_base::{Address, Datagram, Memory};
use proxy_core::ProxyOut;
use relay_runs::RelayMachine;
use std::alloc::Global;
use std::marker::Model;

/// A relay to which so many datagrams of clients come in a second, and which passes on so many
/// announcements of upstream in it, and no more.
#[derive(Drop)]
pub struct RatedRelay<M: RelayMachine> {
    gate: RateGate,
    told: RateGate,
    relay: M,
}

// Whether it goes to all hosts of the clients' links.
fn goes_to_all(out: &ProxyOut) -> bool
    ensures { result ≡ is_told out.now }
{
    match out {
        ProxyOut::Reply(datagram) => datagram.peer == Address::v4(224, 0, 0, 1),
        ProxyOut::Nothing | ProxyOut::Up(_) => false,
    }
}

impl<M: RelayMachine> Model for RatedRelay<M> {
    ghost use Rattle.relay_rates.specs.Rates.{Rated};

    ghost Value = { Rated M };

    ghost view = { λ r. record { gate = r.gate; told = r.told; relay = r.relay } };
}

impl<M: RelayMachine> RatedRelay<M> {
    ghost use Rattle.std.specs.Prelude.{◌≡◌};
    ghost use Rattle.relay_rates.specs.Rates.{rated_begin};

    /// The relay, to which this many datagrams of clients come in a second, and which passes on this many
    /// announcements of upstream in it.
    pub fn of(relay: M, rate: u32) -> RatedRelay<M>
        ensures { result ≡ rated_begin rate relay }
    {
        RatedRelay {
            gate: RateGate::new(rate),
            told: RateGate::new(rate),
            relay,
        }
    }

    /// How many datagrams of clients were dropped. Announcements that weren't passed on aren't counted.
    pub fn dropped(&self) -> u64
        ensures { result ≡ self.now.gate.dropped }
    {
        self.gate.dropped
    }
}

impl<M: RelayMachine> RelayMachine for RatedRelay<M> {
    ghost use Rattle.relay_rates.specs.Rates.{rated};

    ghost machine = { rated M.machine };

    fn from_client(
        &mut self,
        alloc: Global,
        datagram: &Datagram,
        now_ms: u64,
    ) -> Result<ProxyOut, Memory> {
        if self.gate.passes(now_ms) {
            self.relay.from_client(alloc, datagram, now_ms)
        } else {
            Ok(ProxyOut::Nothing)
        }
    }

    fn from_server(
        &mut self,
        alloc: Global,
        datagram: &Datagram,
        now_ms: u64,
    ) -> Result<ProxyOut, Memory> {
        let out = self.relay.from_server(alloc, datagram, now_ms)?;
        // The relay heard its epoch all the same.
        if goes_to_all(&out) && !self.told.passes(now_ms) {
            return Ok(ProxyOut::Nothing);
        }
        Ok(out)
    }

    fn tick(&mut self, now_ms: u64) -> Option<[u8; 24]> {
        self.relay.tick(now_ms)
    }
}
