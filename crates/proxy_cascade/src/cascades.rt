//! The cascade.
ghost use Rattle.std.specs.Prelude.{◌≡◌, ◌≤◌, ◌<◌, ◌*◌, ◌^◌, map, IfOk, OnErr};
ghost use Rattle.proxy_cascade.specs.Cascades.{at, for_itself, new_cascade, on_tick, told_epoch};
ghost use Rattle.proxy_cascade.specs.FromClients.{on_client};
ghost use Rattle.proxy_cascade.specs.FromServers.{on_server};

use crate::asking::answer_client;
use crate::epochs::keeps_epoch;
use crate::judging::for_itself;
use crate::outs::CascadeOut;
use crate::serving::{answer_server, response_in};
use crate::terms::CascadeTerms;
use cascade_ties::{Tie, TieTable};
use pcp_base::{Address, Config, Datagram, Memory};
use pcp_options::judge;
use proxy_core::ProxyOut;
use std::alloc::Global;
use std::marker::Model;

/// A relay between clients and one upstream server, beside a translator of its own: the host has an
/// address whose ports it ties to clients' endpoints (RFC 7648 in role). Times are in milliseconds,
/// below 1000 * 2^40 as a clock's are; one that is smaller than the last counts as the last. Each
/// call first does what `tick` does; after `Memory` nothing else has changed.
#[derive(Drop)]
pub struct Cascade {
    terms: CascadeTerms,
    /// By what requests are judged.
    judging: Config,
    ties: TieTable,
}

impl Model for Cascade {
    ghost use Rattle.std.specs.Prelude.{◌≡◌};
    ghost use Rattle.cascade_ties.specs.contracts.ties.Tied as tied;
    ghost use Rattle.proxy_cascade.specs.Cascades as model;
    ghost use Rattle.proxy_cascade.specs.Kept.{IsKept, cascade_of};

    ghost Value = { model.Cascade };

    ghost coded = { model.cascade_code tied.the_row.coded };

    ghost view = { λ c. cascade_of c.terms c.ties };

    ghost invariant = { λ c. IsKept c.terms.last_ms c.ties.each × (c.judging ≡ model.for_itself) };
}

impl Cascade {
    /// A cascade with this address of its own, this upstream server, a key that no client knows, and
    /// the local ports from `low` to `high`. It has no tie, it heard no epoch, and epochs count from
    /// `now_ms`.
    pub fn new(
        alloc: Global,
        own: Address,
        server: Address,
        key: [u8; 32],
        low: u16,
        high: u16,
        now_ms: u64,
    ) -> Result<Cascade, Memory>
        requires some { 1 ≤ low }
        requires ordered { low ≤ high }
        requires time { now_ms < 1000 * 2 ^ 40 }
        ensures { IfOk result (λ cascade. cascade ≡ new_cascade own server key low high now_ms) }
    {
        Ok(Cascade {
            terms: CascadeTerms {
                own,
                server,
                key,
                base_ms: now_ms,
                heard: None,
                last_ms: now_ms,
            },
            judging: for_itself(alloc)?,
            ties: TieTable::new(alloc, low, high)?,
        })
    }

    /// What is to be sent for a datagram of a client. It is judged as a server does, but every
    /// address may ask, for itself alone (RFC 6887, section 8.2). MAP goes upstream for the local
    /// port to which its endpoint is tied; the cascade itself answers what is refused, ANNOUNCE, PEER
    /// (code 4, UNSUPP_OPCODE), a deletion of what has no tie, a nonce of another request (code 2,
    /// NOT_AUTHORIZED, with what is left of the tie), and where no tie can be made: code 8
    /// (NO_RESOURCES) at 4,096 ties or without a vacant port, code 10 (USER_EX_QUOTA) where the
    /// address has 64. `Nothing` exactly where the datagram is silent.
    pub fn from_client(
        &mut self,
        alloc: Global,
        datagram: &Datagram,
        now_ms: u64,
    ) -> Result<ProxyOut, Memory>
        requires { now_ms < 1000 * 2 ^ 40 }
        ensures ok { IfOk result (λ out. on_client self.old datagram.now now_ms
            ≡ record { cascade = self.new; out = out }) }
        ensures err { OnErr result (self.new ≡ at self.old now_ms) }
    {
        self.tick(now_ms);
        let terms = self.terms;
        let octets = datagram.octets.items();
        let verdict = judge(alloc, &self.judging, &datagram.peer, octets)?;
        answer_client(alloc, &terms, &mut self.ties, datagram, verdict)
    }

    /// What is to be sent for a datagram from upstream: the reply for the client whose request waits
    /// for it, which then waits no more, or an ANNOUNCE reply to all clients where an ANNOUNCE told
    /// an epoch that isn't valid (RFC 6887, sections 8.5 and 14.1). Where upstream the local port is
    /// leased to another nonce (code 2, NOT_AUTHORIZED), and the tie isn't granted, the request goes up
    /// once more for another local port in place of the reply, [`MOST_TRIES`](crate::MOST_TRIES) times at
    /// most. A local port rests for the lifetime that upstream told last, also behind its tie. Nothing
    /// where its peer isn't the server, it is no response, nothing waits for it, or an ANNOUNCE told a
    /// valid epoch. Every response of the server tells an epoch; from one that isn't valid on, epochs
    /// count anew.
    pub fn from_server(
        &mut self,
        alloc: Global,
        datagram: &Datagram,
        now_ms: u64,
    ) -> Result<CascadeOut, Memory>
        requires { now_ms < 1000 * 2 ^ 40 }
        ensures ok { IfOk result (λ out. on_server self.old datagram.now now_ms
            ≡ record { cascade = self.new; out = out }) }
        ensures err { OnErr result (self.new ≡ at self.old now_ms) }
    {
        self.tick(now_ms);
        let Some(response) = response_in(alloc, &self.terms.server, datagram)? else {
            return Ok(CascadeOut::Nothing);
        };
        let valid = keeps_epoch(self.terms.heard, response.epoch, self.terms.last_ms);
        let terms = self.terms.hearing(response.epoch, valid);
        let out = answer_server(alloc, &terms, &mut self.ties, &response, valid)?;
        self.terms = terms;
        Ok(out)
    }

    /// Drops the ties whose time has come, frees their local ports, and counts them.
    pub fn tick(&mut self, now_ms: u64) -> u32
        requires { now_ms < 1000 * 2 ^ 40 }
        ensures { on_tick self.old now_ms ≡ record { cascade = self.new; out = result } }
    {
        let terms = self.terms.at(now_ms);
        let dropped = self.ties.drop_over(terms.last_ms);
        self.terms = terms;
        dropped as u32
    }

    /// The epoch that it tells, in seconds, as it was after the last call with a time (RFC 6887,
    /// section 8.5).
    pub fn epoch(&self) -> u32
        ensures { result ≡ told_epoch self.now }
    {
        self.terms.epoch()
    }

    /// The ties, in the order made, as they were after the last call with a time. What comes to a local
    /// port may be handed on to the client of its tie where that is granted, and not before: until then
    /// it may be another client's.
    pub fn ties(&self, alloc: Global) -> Result<Vec<Tie>, Memory>
        ensures { IfOk result (λ list. list.items ≡ map (λ t. t.tie) self.now.ties.each) }
    {
        self.ties.list(alloc)
    }
}
