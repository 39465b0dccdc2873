//! Whether a server lost its leases, by its epoch (RFC 6887, section 8.5).
ghost use Rattle.std.specs.Prelude.{◌≡◌, ◌^◌, pos, neg_ℤ, ◌-ℤ◌, ◌≤ℤ◌, Some};
ghost use Rattle.client_core.specs.EpochTests.{drifts, heard_epoch, is_valid, is_valid_after, lags};

use std::marker::Model;

/// An epoch that was told, in seconds, and the client's second at which it came.
#[derive(Clone, Copy)]
pub(crate) struct HeardEpoch {
    pub(crate) server: u32,
    pub(crate) seconds: u64,
}

/// The test of the epochs that one server tells. Contracts see the epoch that was heard last, with the
/// second at which it came.
#[derive(Drop)]
pub struct EpochTest {
    heard: Option<HeardEpoch>,
}

impl Model for EpochTest {
    ghost use Rattle.std.specs.Prelude.{Option};
    ghost use Rattle.client_core.specs.declared.epochs.HeardEpoch.{HeardEpoch};

    ghost Value = { Option HeardEpoch };

    ghost view = { λ t. t.heard };
}

impl EpochTest {
    ghost use Rattle.std.specs.Prelude.{None};

    /// A test that heard nothing.
    pub fn new() -> EpochTest
        ensures { result ≡ None }
    {
        EpochTest { heard: None }
    }

    /// Whether an epoch of `server` seconds, heard at the client's second `seconds`, is one of a server
    /// that kept its leases since the epoch heard before: it isn't smaller by more than a second, and the
    /// two clocks counted alike, but for a sixteenth and two seconds. The first is. It replaces what was
    /// heard before in every case.
    pub fn hear(&mut self, server: u32, seconds: u64) -> bool
        ensures valid { result ≡ is_valid self.old (heard_epoch server seconds) }
        ensures replaced { self.new ≡ Some (heard_epoch server seconds) }
    {
        let now = HeardEpoch { server, seconds };
        let is_valid = is_valid(self.heard, now);
        self.heard = Some(now);
        is_valid
    }
}

fn is_valid(before: Option<HeardEpoch>, now: HeardEpoch) -> bool
    ensures { result ≡ is_valid before now }
{
    match before {
        None => true,
        Some(before) => is_valid_after(before, now),
    }
}

fn is_valid_after(before: HeardEpoch, now: HeardEpoch) -> bool
    ensures { result ≡ is_valid_after before now }
{
    let server = i128::from(now.server) - i128::from(before.server);
    let client = i128::from(now.seconds) - i128::from(before.seconds);
    !(u64::from(now.server) + 1 < u64::from(before.server) || drifts(server, client))
}

/// Whether two clocks counted otherwise.
fn drifts(server: i128, client: i128) -> bool
    requires server { (neg_ℤ (pos (2 ^ 64)) ≤ℤ server) × (server ≤ℤ pos (2 ^ 64)) }
    requires client { (neg_ℤ (pos (2 ^ 64)) ≤ℤ client) × (client ≤ℤ pos (2 ^ 64)) }
    ensures { result ≡ drifts server client }
{
    lags(client, server) || lags(server, client)
}

/// Whether a time is shorter than another by more than a sixteenth of that, and 2 seconds.
fn lags(a: i128, b: i128) -> bool
    requires a { (neg_ℤ (pos (2 ^ 64)) ≤ℤ a) × (a ≤ℤ pos (2 ^ 64)) }
    requires b { (neg_ℤ (pos (2 ^ 64)) ≤ℤ b) × (b ≤ℤ pos (2 ^ 64)) }
    ensures { result ≡ lags a b }
{
    a + 2 < b - b / 16
}
