//! Who asks: a client with its want, or one that asks for the epoch alone.
ghost use Rattle.std.specs.Prelude.{◌≡◌, ◌*◌, ◌^◌, ◌<◌, IfOk, OnOk};
ghost use Rattle.pcp_options.specs.ReadResponses.{response_of};
ghost use Rattle.client_runs.specs.Askers.{answer_by, wanting};
ghost use Rattle.client_runs.specs.Runs.{Asking};

use client_core::{Client, What};
use pcp_base::{Datagram, Memory, Octets};
use pcp_options::{Response, ResponseRefused, read_response};
use std::alloc::Global;

/// Who asks a server. Times are in milliseconds, below 1000 * 2^40.
pub(crate) trait Asker {
    // What it makes of datagrams and ticks, and gives for them.
    ghost asking: { Asking Self };

    /// Takes a datagram that came; gives the response that is the answer, where it is one.
    fn hear(
        &mut self,
        alloc: Global,
        datagram: &Datagram,
        now_ms: u64,
    ) -> Result<Option<Response>, Memory>
        requires { now_ms < 1000 * 2 ^ 40 }
        ensures answer { IfOk result (λ r. r ≡ asking.answer self.old datagram.now now_ms) }
        ensures after { OnOk result (self.new ≡ asking.heard self.old datagram.now now_ms) };

    /// The request that is due, if one is. The random word decides when the next one is.
    fn next_request(
        &mut self,
        alloc: Global,
        now_ms: u64,
        word: u32,
    ) -> Result<Option<Octets>, Memory>
        requires { now_ms < 1000 * 2 ^ 40 }
        ensures answer { IfOk result (λ text. text ≡ asking.request self.old now_ms) }
        ensures after { OnOk result (self.new ≡ asking.ticked self.old now_ms word) };
}

impl Asker for Client {
    ghost asking = { wanting };

    fn hear(
        &mut self,
        alloc: Global,
        datagram: &Datagram,
        now_ms: u64,
    ) -> Result<Option<Response>, Memory> {
        // No renewal comes; and after an invalid epoch one who waits for an answer asks at once.
        let heard = self.heard(alloc, datagram, now_ms, 0)?;
        answer_by(alloc, heard.what, datagram.octets.items())
    }

    fn next_request(
        &mut self,
        alloc: Global,
        now_ms: u64,
        word: u32,
    ) -> Result<Option<Octets>, Memory> {
        self.tick(alloc, now_ms, word)
    }
}

/// The response that octets are, where it was taken for the want, or refuses it.
fn answer_by(alloc: Global, what: What, octets: &[u8]) -> Result<Option<Response>, Memory>
    ensures { IfOk result (λ r. r ≡ answer_by what (response_of octets.now)) }
{
    match what {
        What::NotMine => Ok(None),
        What::Told => Ok(None),
        What::Taken(_id) => response_of(alloc, octets),
        What::ErrorFor(_id, _code, _lifetime) => response_of(alloc, octets),
    }
}

/// The response that octets are.
pub(crate) fn response_of(alloc: Global, octets: &[u8]) -> Result<Option<Response>, Memory>
    ensures { IfOk result (λ r. r ≡ response_of octets.now) }
{
    match read_response(alloc, octets) {
        Ok(response) => Ok(Some(response)),
        Err(ResponseRefused::NotResponse) => Ok(None),
        Err(ResponseRefused::Memory) => Err(Memory),
    }
}
