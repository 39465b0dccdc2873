//! What is found of an epoch behind another one, and what must be.

use crate::packets::Origin;

/// An epoch that was heard at a second.
#[derive(Clone, Copy)]
pub(crate) struct Told {
    pub(crate) epoch: u32,
    pub(crate) second: u32,
    pub(crate) origin: Origin,
}

fn lags(a: i64, b: i64) -> bool {
    a.wrapping_add(2) < b.wrapping_sub(b / 16)
}

/// Whether the second epoch goes on as the hearer's seconds do (RFC 6887, section 8.5).
pub(crate) fn goes_on(before: Told, now: Told) -> bool {
    let server = i64::from(now.epoch).wrapping_sub(i64::from(before.epoch));
    let client = i64::from(now.second).wrapping_sub(i64::from(before.second));
    server >= -1 && !lags(client, server) && !lags(server, client)
}

/// Whether leases were lost between the two origins, and the first epoch was above 2 + d + gap/16.
pub(crate) fn must_be_found(before: Told, now: Told) -> bool {
    let d = before.second.saturating_sub(before.origin.second);
    let gap = now.second.saturating_sub(before.second);
    let bound = d.saturating_add(gap / 16).saturating_add(2);
    before.origin.losses < now.origin.losses && bound < before.epoch
}
