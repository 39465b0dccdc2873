//! The local port for a new tie.
ghost use Rattle.std.specs.Prelude.{◌≡◌, ◌<◌, ℕ, List};
ghost use Rattle.std.specs.FinMap.{FinMap};
ghost use Rattle.std.specs.Ordering.{nat_cmp};
ghost use Rattle.external_pool.specs.Asking.{IsPickAnswer};
ghost use Rattle.external_pool.specs.Calls.{IsAsk};
ghost use Rattle.cascade_ties.specs.declared.ties.Tied.{Tied};
ghost use Rattle.cascade_ties.specs.Kept.{AreCounted, IsTiePool, rest_in, ties_of};
ghost use Rattle.cascade_ties.specs.Ties.{local_for, vacant_for};

use external_pool::host_counts::HostCounts;
use external_pool::{PickAsk, PickRefused, Picked, Pool};
use pcp_base::Endpoint;
use std::marker::Brand;
use std::sync::ledger::{Blank, Ledger};
use step_count::Steps;
use thiserror::Error;

/// How many ties an address may have.
pub const TIE_QUOTA: u32 = 64;

/// Why an endpoint gets no local port. The first cause that applies is told.
#[derive(Clone, Copy, Debug, PartialEq, Eq, Error)]
pub enum NoLocal {
    /// Its address has [`TIE_QUOTA`] ties.
    #[error("the address has its quota of ties")]
    Quota,
    /// No port of the range is vacant.
    #[error("no port is vacant")]
    NoPort,
}

/// What a pool picks for an endpoint, for a caller that counts no steps.
fn pick<L: Ledger>(
    pool: &Pool,
    client: &Endpoint,
    ask: &PickAsk,
    blank: Blank,
) -> Result<Picked, PickRefused>
    requires name { blank.name ≡ L.name }
    requires parts { blank.parts ≡ L.parts }
    requires part { 0 < L.parts }
    requires ask { IsAsk ask.now }
    ensures { IsPickAnswer pool.now client.now.address client.now.protocol ask.now result }
{
    let mut steps = Steps::<L>::begin(blank);
    pool.pick(&client.address, client.protocol, ask, &mut steps)
}

/// The port that the pool of these ties picks for an endpoint: one port, its own where that is
/// vacant.
pub(crate) fn vacant_for(pool: &Pool, client: &Endpoint) -> Option<u16>
    ensures { (rests : FinMap nat_cmp ℕ) (ts : List Tied) → IsTiePool pool.now (rest_in rests) ts
        → result ≡ vacant_for (ties_of pool.now rests ts) client.now }
{
    let ask = PickAsk {
        internal: 1,
        suggested: client.port,
        asked: 1,
        room: 1,
        parity: None,
        must: false,
        here: true,
    };
    match pick::<Brand>(pool, client, &ask, Blank::new(1)) {
        Ok(picked) => Some(picked.start),
        Err(_refused) => None,
    }
}

/// The local port for a new tie of an endpoint, by the pool of these ties and their counts.
pub(crate) fn local_for(pool: &Pool, counts: &HostCounts, client: &Endpoint) -> Result<u16, NoLocal>
    ensures { (rests : FinMap nat_cmp ℕ) (ts : List Tied) → IsTiePool pool.now (rest_in rests) ts
        → AreCounted counts.now ts → result ≡ local_for (ties_of pool.now rests ts) client.now }
{
    if !counts.is_below(&client.address, TIE_QUOTA) {
        return Err(NoLocal::Quota);
    }
    match vacant_for(pool, client) {
        Some(local) => Ok(local),
        None => Err(NoLocal::NoPort),
    }
}
