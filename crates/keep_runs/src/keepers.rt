//! One that keeps a mapping.
ghost use Rattle.std.specs.Prelude.{◌≡◌, ◌++◌, ◌*◌, ◌^◌, ◌<◌, IfOk, OnOk};
ghost use Rattle.client_core.specs.Clients.{request_due};
ghost use Rattle.client_core.specs.Dues.{is_reached, next_due};
ghost use Rattle.pcp_options.specs.ReadResponses.{response_of};
ghost use Rattle.keep_runs.specs.Keeping.{after_maybe, after_packet, after_ticked, loses, maybe_lines, packet_lines, response_line};
ghost use Rattle.keep_runs.specs.News.{loss_line};

use crate::news::{Told, is_lost, push_epoch, push_loss};
use client_commands::ClientCommand;
use client_core::Client;
use client_runs::push_line;
use pcp_base::{Datagram, Memory, Octets};
use pcp_options::{Response, ResponseRefused, read_response};
use std::alloc::Global;

/// The only want of its client.
const WANT: u32 = 0;

/// One that keeps a mapping: its client, and what was told of it last.
#[derive(Drop)]
pub(crate) struct Keeper {
    /// What is kept, as `map` asks for it.
    pub(crate) command: ClientCommand,
    pub(crate) client: Client,
    pub(crate) told: Told,
}

impl Keeper {
    /// Hears a datagram, and appends what is told of it.
    fn hear(
        &mut self,
        alloc: Global,
        datagram: &Datagram,
        now_ms: u64,
        word: u32,
        lines: &mut Vec<u8>,
    ) -> Result<(), Memory>
        requires { now_ms < 1000 * 2 ^ 40 }
        ensures after { OnOk result (self.new ≡ after_packet self.old datagram.now now_ms word) }
        ensures lines { OnOk result (lines.new.items
            ≡ lines.old.items ++ packet_lines self.old datagram.now now_ms word) }
    {
        let heard = self.client.heard(alloc, datagram, now_ms, word)?;
        push_epoch(lines, heard.epoch)?;
        let told = self.told.with_epoch(heard.epoch);
        let lease = self.client.held(WANT);
        self.told = told.after(lease, heard.what);
        if !told.is_news(lease, heard.what) {
            return Ok(());
        }
        push_response(alloc, lines, &self.command, datagram.octets.items())
    }

    /// Hears the packet, if there is one.
    pub(crate) fn hear_maybe(
        &mut self,
        alloc: Global,
        packet: &Option<Datagram>,
        now_ms: u64,
        word: u32,
        lines: &mut Vec<u8>,
    ) -> Result<(), Memory>
        requires { now_ms < 1000 * 2 ^ 40 }
        ensures after { OnOk result (self.new ≡ after_maybe self.old packet.now now_ms word) }
        ensures lines { OnOk result (lines.new.items
            ≡ lines.old.items ++ maybe_lines self.old packet.now now_ms word) }
    {
        match packet {
            Some(datagram) => self.hear(alloc, datagram, now_ms, word, lines),
            None => Ok(()),
        }
    }

    /// Gives the request that is due, and appends the line of a lease that is over.
    pub(crate) fn tick(
        &mut self,
        alloc: Global,
        now_ms: u64,
        word: u32,
        lines: &mut Vec<u8>,
    ) -> Result<Option<Octets>, Memory>
        requires { now_ms < 1000 * 2 ^ 40 }
        ensures after { OnOk result (self.new ≡ after_ticked self.old now_ms word) }
        ensures request { IfOk result (λ text. text ≡ request_due self.old.client now_ms) }
        ensures lines { OnOk result (lines.new.items
            ≡ lines.old.items ++ loss_line (loses self.old now_ms word)) }
    {
        let before = self.client.held(WANT);
        let request = self.client.tick(alloc, now_ms, word)?;
        let lost = is_lost(before, self.client.held(WANT));
        push_loss(lines, lost)?;
        self.told = self.told.with_loss(lost);
        Ok(request)
    }

    /// Whether a tick does something at this time.
    pub(crate) fn is_due(&self, now_ms: u64) -> bool
        ensures { result ≡ is_reached (next_due self.now.client) now_ms }
    {
        match self.client.next_due() {
            Some(due_ms) => due_ms <= now_ms,
            None => false,
        }
    }
}

/// The response that octets are.
fn response_of(alloc: Global, octets: &[u8]) -> Result<Option<Response>, Memory>
    ensures { IfOk result (λ r. r ≡ response_of octets.now) }
{
    match read_response(alloc, octets) {
        Ok(response) => Ok(Some(response)),
        Err(ResponseRefused::NotResponse) => Ok(None),
        Err(ResponseRefused::Memory) => Err(Memory),
    }
}

/// Appends the line that `map` prints for the response that octets are.
fn push_response(
    alloc: Global,
    lines: &mut Vec<u8>,
    command: &ClientCommand,
    octets: &[u8],
) -> Result<(), Memory>
    ensures { OnOk result (lines.new.items
        ≡ lines.old.items ++ response_line command.now (response_of octets.now)) }
{
    match response_of(alloc, octets)? {
        Some(response) => push_line(alloc, lines, command, &response),
        None => Ok(()),
    }
}
