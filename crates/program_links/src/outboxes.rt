//! What leaves by several doors.
ghost use Rattle.std.specs.Prelude.{◌≡◌, IfSome, IfNone, All, ◌≢◌, slice_get};
ghost use Rattle.program_links.specs.Refusals.{is_refusal};

use pcp_base::{Address, Failed};
use pcp_io::{Outbox, UdpOutbox};
use std::marker::Model;

/// The sockets by which one sends who sends by a door.
#[derive(Drop)]
pub struct Mouth {
    /// the number of the door
    pub door: u8,
    /// by which all goes but refusals
    pub speaks: UdpOutbox,
    /// by which refusals go
    pub refuses: UdpOutbox,
}

impl Mouth {
    /// Whether the datagram went out. What waits for a host that doesn't answer counts on the buffer of
    /// the socket that sent it, so refusals, which anyone can cause in another's name, have one of their
    /// own.
    pub(crate) fn goes_out(&mut self, peer: Address, port: u16, octets: &[u8]) -> bool {
        if is_refusal(octets) {
            self.refuses.send(self.door, peer, port, octets).is_ok()
        } else {
            self.speaks.send(self.door, peer, port, octets).is_ok()
        }
    }
}

/// Whether this tells an error: the result code of PCP isn't 0 (RFC 6887, section 7.2), or that of NAT-PMP
/// (RFC 6886, section 3.5).
fn is_refusal(octets: &[u8]) -> bool
    ensures { result ≡ is_refusal octets.now }
{
    match octets {
        [0, _, high, low, ..] => *high != 0 || *low != 0,
        [_, _, _, code, ..] => *code != 0,
        _ => false,
    }
}

/// Datagrams that leave each by the door that it is told. A send never waits: each that the system doesn't
/// take whole at once, or for which there is no such door, is a fault that it counts, and nothing else is.
/// A count that stands at 2^64 - 1 stands still.
#[derive(Drop)]
pub struct DoorsOutbox {
    mouths: Vec<Mouth>,
    faults: u64,
}

impl Model for DoorsOutbox {
    ghost use Rattle.std.specs.Prelude.{ℕ};

    // How many faults it has counted.
    ghost Value = { ℕ };

    ghost view = { λ b. b.faults };
}

impl DoorsOutbox {
    ghost use Rattle.std.specs.Prelude.{◌≡◌};

    /// An outbox of these mouths that has counted no fault.
    pub fn of(mouths: Vec<Mouth>) -> DoorsOutbox
        ensures { result ≡ 0 }
    {
        DoorsOutbox { mouths, faults: 0 }
    }

    /// Whether the datagram went out by this door.
    fn goes_out(&mut self, door: u8, peer: Address, port: u16, octets: &[u8]) -> bool
        ensures { self.new ≡ self.old }
    {
        let Some(place) = place_of_door(&self.mouths, door) else {
            return false;
        };
        match self.mouths.get_mut(place) {
            Some(mouth) => mouth.goes_out(peer, port, octets),
            None => false,
        }
    }
}

/// The place of the mouth of this door; none where there is no such door.
fn place_of_door(mouths: &[Mouth], door: u8) -> Option<usize>
    ensures some { IfSome result (λ place.
        IfSome (slice_get mouths.now place) (λ mouth. mouth.door ≡ door)) }
    ensures none { IfNone result (All (λ mouth. mouth.door ≢ door) mouths.now) }
{
    mouths.iter().position(|mouth| mouth.door == door)
}

impl Outbox for DoorsOutbox {
    ghost use Rattle.std.specs.Prelude.{◌≡◌, None, OnOk, OnErr};
    ghost use Rattle.pcp_io.specs.CallLogs.{one_more};
    ghost use Rattle.pcp_io.specs.Faults.{HasCause};

    ghost sent = { λ _. None };

    ghost faults = { λ b. b };

    fn send(&mut self, door: u8, peer: Address, port: u16, octets: &[u8]) -> Result<(), Failed>
        ensures cause { HasCause self.old self.new result }
        ensures same { OnOk result (self.new ≡ self.old) }
        ensures counted { OnErr result (self.new ≡ one_more self.old) }
    {
        if self.goes_out(door, peer, port, octets) {
            return Ok(());
        }
        self.faults = self.faults.saturating_add(1);
        Err(Failed)
    }
}
