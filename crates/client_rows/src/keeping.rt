//! A host that keeps a mapping for as long as it runs: the example of docs/EMBEDDING.md.
ghost use Rattle.std.specs.Prelude.{◌*◌, ◌^◌, ◌<◌};
ghost use Rattle.pcp_base.specs.declared.asks.Ask.TheVariants as Asks;
ghost use Rattle.client_core.specs.Wants.{CanBeWanted};

use client_core::{Client, EpochFound, HeldLease, What};
use pcp_base::{Address, Ask, Datagram, MapAsk, Memory, Octets};
use std::alloc::Global;

/// A mapping that is kept. Times are in milliseconds from whatever the host begins at, and don't fall.
#[derive(Drop)]
pub struct Keeper {
    client: Client,
    id: u32,
    confirmed: bool,
}

impl Keeper {
    /// Begins to want a mapping of this server.
    pub fn begin(
        alloc: Global,
        server: Address,
        own: Address,
        ask: MapAsk,
        now_ms: u64,
    ) -> Result<Keeper, Memory>
        requires wanted { CanBeWanted (Asks.Map ask) }
        requires time { now_ms < 1000 * 2 ^ 40 }
    {
        let mut client = Client::new(alloc, server, own)?;
        match client.want(alloc, None, Ask::Map(ask), now_ms) {
            Ok(id) => Ok(Keeper {
                client,
                id,
                confirmed: false,
            }),
            // One want is never one too many.
            Err(_) => Err(Memory),
        }
    }

    /// From when on `due` does something: until then a host may sleep, unless a datagram comes.
    pub fn next_due(&self) -> Option<u64> {
        self.client.next_due()
    }

    /// The request that is due, for UDP port 5351 of the server. A host asks with a random word each time.
    pub fn due(&mut self, alloc: Global, now_ms: u64, word: u32) -> Result<Option<Octets>, Memory>
        requires { now_ms < 1000 * 2 ^ 40 }
    {
        self.client.tick(alloc, now_ms, word)
    }

    /// Hears a datagram, from whomever it came; what isn't the server's says nothing. Gives what it said, also
    /// an error with its code.
    pub fn hear(
        &mut self,
        alloc: Global,
        datagram: &Datagram,
        now_ms: u64,
        word: u32,
    ) -> Result<What, Memory>
        requires { now_ms < 1000 * 2 ^ 40 }
    {
        let heard = self.client.heard(alloc, datagram, now_ms, word)?;
        // The server lost its leases (RFC 6887, section 8.5): what it granted may be another host's by now. The
        // client asks anew within five seconds.
        if heard.epoch == EpochFound::Invalid {
            self.confirmed = false;
        }
        if let What::Taken(_id) = heard.what {
            self.confirmed = true;
        }
        Ok(heard.what)
    }

    /// The external address and port for others to use; none while there is no lease, or one that the server
    /// may have lost.
    pub fn mapping(&self) -> Option<HeldLease> {
        if self.confirmed {
            self.client.held(self.id)
        } else {
            None
        }
    }
}
