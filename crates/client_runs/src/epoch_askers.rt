//! One that asks a server for its epoch (RFC 6887, section 14.1).
ghost use Rattle.std.specs.Prelude.{◌≡◌, ◌*◌, ◌^◌, ◌<◌, bytes_eq, None, Some, IfOk};
ghost use Rattle.pcp_base.specs.declared.asks.Ask.TheVariants as Asks;
ghost use Rattle.pcp_options.specs.Requests.{request_text};
ghost use Rattle.pcp_options.specs.ReadResponses.{response_of};
ghost use Rattle.client_runs.specs.Askers.{after_asking, after_time, announced, announcing, counted_at, is_announced, is_due, new_epoch_asker};

use crate::askers::{Asker, response_of};
use client_commands::Target;
use client_core::next_wait;
use pcp_base::{Address, Ask, Datagram, Memory, Octets};
use pcp_codec::Body;
use pcp_options::{Response, write_request};
use std::alloc::Global;
use std::marker::Model;

/// One that asks a server for its epoch: at once, and then after each wait. Times are in milliseconds.
#[derive(Drop)]
pub(crate) struct EpochAsker {
    server: Address,
    own: Address,
    last_ms: u64,
    wait_ms: u64,
    due_ms: u64,
}

impl Model for EpochAsker {
    ghost use Rattle.std.specs.Prelude.{◌*◌, ◌^◌, ◌<◌, ◌≤◌};
    ghost use Rattle.client_core.specs.declared.waits.TheConstants.{LONGEST_WAIT_MS};
    ghost use Rattle.client_runs.specs.Askers as askers;

    ghost Value = { askers.EpochAsker };

    ghost view = { λ n. record {
      server = n.server;
      own = n.own;
      last = n.last_ms;
      wait = n.wait_ms;
      due = n.due_ms;
    } };

    ghost invariant = { λ n. (n.last_ms < 1000 * 2 ^ 40) × (n.wait_ms ≤ LONGEST_WAIT_MS) };
}

impl EpochAsker {
    /// It asks the server of this target.
    pub(crate) fn new(target: &Target) -> EpochAsker
        ensures { result ≡ new_epoch_asker target.now }
    {
        EpochAsker {
            server: target.server,
            own: target.own,
            last_ms: 0,
            wait_ms: 0,
            due_ms: 0,
        }
    }

    /// The time that counts where this one is handed in.
    fn counted_at(&self, now_ms: u64) -> u64
        requires { now_ms < 1000 * 2 ^ 40 }
        ensures value { result ≡ counted_at self.now now_ms }
        ensures bound { result < 1000 * 2 ^ 40 }
    {
        self.last_ms.max(now_ms)
    }

    fn is_due(&self, now_ms: u64) -> bool
        requires { now_ms < 1000 * 2 ^ 40 }
        ensures { result ≡ is_due self.now now_ms }
    {
        self.due_ms <= self.counted_at(now_ms)
    }

    fn take_time(&mut self, now_ms: u64)
        requires { now_ms < 1000 * 2 ^ 40 }
        ensures { self.new ≡ after_time self.old now_ms }
    {
        self.last_ms = self.counted_at(now_ms);
    }

    fn begin_wait(&mut self, now_ms: u64, word: u32)
        requires { now_ms < 1000 * 2 ^ 40 }
        ensures { self.new ≡ after_asking self.old now_ms word }
    {
        let at_ms = self.counted_at(now_ms);
        self.last_ms = at_ms;
        self.wait_ms = next_wait(self.wait_ms, word);
        self.due_ms = at_ms + self.wait_ms;
    }

    /// The request.
    fn request(&self, alloc: Global) -> Result<Octets, Memory>
        ensures { IfOk result (λ text. text ≡ request_text self.now.own None Asks.Announce) }
    {
        let mut text = Vec::new(alloc);
        write_request(alloc, &mut text, &self.own, None, &Ask::Announce)?;
        Ok(Octets::of(text))
    }

    fn is_from_server(&self, datagram: &Datagram) -> bool
        ensures { result ≡ bytes_eq datagram.now.peer.0 self.now.server.0 }
    {
        datagram.peer == self.server
    }
}

impl Asker for EpochAsker {
    ghost asking = { announcing };

    fn hear(
        &mut self,
        alloc: Global,
        datagram: &Datagram,
        now_ms: u64,
    ) -> Result<Option<Response>, Memory> {
        let from_server = self.is_from_server(datagram);
        self.take_time(now_ms);
        if !from_server {
            return Ok(None);
        }
        announced_in(alloc, datagram.octets.items())
    }

    fn next_request(
        &mut self,
        alloc: Global,
        now_ms: u64,
        word: u32,
    ) -> Result<Option<Octets>, Memory> {
        if !self.is_due(now_ms) {
            self.take_time(now_ms);
            return Ok(None);
        }
        let text = self.request(alloc)?;
        self.begin_wait(now_ms, word);
        Ok(Some(text))
    }
}

/// The response that octets are, where it is one for ANNOUNCE.
fn announced_in(alloc: Global, octets: &[u8]) -> Result<Option<Response>, Memory>
    ensures { IfOk result (λ r. r ≡ announced (response_of octets.now)) }
{
    match response_of(alloc, octets)? {
        Some(response) => Ok(announced(response)),
        None => Ok(None),
    }
}

fn announced(response: Response) -> Option<Response>
    ensures { result ≡ announced (Some response) }
{
    if is_announced(&response.body) {
        Some(response)
    } else {
        None
    }
}

fn is_announced(body: &Body) -> bool
    ensures { result ≡ is_announced body.now }
{
    match body {
        Body::Announce => true,
        Body::Map(_common) => false,
        Body::Peer { .. } => false,
    }
}
