//! Whether the upstream server lost its leases, by its epoch (RFC 6887, section 8.5).
ghost use Rattle.std.specs.Prelude.{◌≡◌};
ghost use Rattle.proxy_cascade.specs.FromServers.{keeps_epoch};

use client_core::EpochTest;
use proxy_core::Heard;

/// Whether an epoch that is heard at a time in milliseconds is valid after the one before.
pub(crate) fn keeps_epoch(heard: Option<Heard>, epoch: u32, now_ms: u64) -> bool
    ensures { result ≡ keeps_epoch heard epoch now_ms }
{
    let mut test = EpochTest::new();
    if let Some(before) = heard {
        test.hear(before.epoch, before.at_ms / 1000);
    }
    test.hear(epoch, now_ms / 1000)
}
