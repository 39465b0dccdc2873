//! The relay as its run sees it.
ghost use Rattle.std.specs.Prelude.{◌≡◌};
ghost use Rattle.proxy_runs.specs.Proxying.{proxying, reply_of};

use pcp_base::{Datagram, Memory};
use proxy_core::{Proxy, ProxyOut};
use relay_runs::RelayMachine;
use std::alloc::Global;
use std::marker::Model;

/// A relay, seen as that.
#[derive(Drop)]
pub(crate) struct ProxyMachine {
    proxy: Proxy,
}

impl Model for ProxyMachine {
    ghost use Rattle.proxy_core.specs.Relays.{Relay};

    ghost Value = { Relay };

    ghost view = { λ m. m.proxy };
}

impl ProxyMachine {
    pub(crate) fn of(proxy: Proxy) -> ProxyMachine
        ensures { result ≡ proxy }
    {
        ProxyMachine { proxy }
    }
}

/// What is sent for a datagram from upstream: a reply, or nothing.
fn reply_of(reply: Option<Datagram>) -> ProxyOut
    ensures { result ≡ reply_of reply }
{
    match reply {
        None => ProxyOut::Nothing,
        Some(datagram) => ProxyOut::Reply(datagram),
    }
}

impl RelayMachine for ProxyMachine {
    ghost machine = { proxying };

    fn from_client(
        &mut self,
        alloc: Global,
        datagram: &Datagram,
        now_ms: u64,
    ) -> Result<ProxyOut, Memory> {
        self.proxy.from_client(alloc, datagram, now_ms)
    }

    fn from_server(
        &mut self,
        alloc: Global,
        datagram: &Datagram,
        now_ms: u64,
    ) -> Result<ProxyOut, Memory> {
        let reply = self.proxy.from_server(alloc, datagram, now_ms)?;
        Ok(reply_of(reply))
    }

    fn tick(&mut self, now_ms: u64) -> Option<[u8; 24]> {
        self.proxy.tick(now_ms);
        None
    }
}
