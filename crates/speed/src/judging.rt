//! Datagrams that are judged, and no more.

use crate::timing::Timed;
use pcp_base::{
    Address, Addresses, Ask, Config, Externals, Orders, Prefix, Prefixes, Subscriber, Subscribers,
};
use pcp_options::{Verdict, judge};
use std::alloc::Global;
use std::time::CpuClock;

/// A MAP request of 10.0.0.5 for its UDP port 5000, for an hour (RFC 6887, section 11.1).
pub(crate) static REQUEST: [u8; 60] = [
    2, 1, 0, 0, 0, 0, 0x0e, 0x10, 0, 0, 0, 0, 0, 0, 0, 0, 0, 0, 0xff, 0xff, 10, 0, 0, 5, 0, 1, 2,
    3, 4, 5, 6, 7, 8, 9, 10, 11, 17, 0, 0, 0, 0x13, 0x88, 0, 0, 0, 0, 0, 0, 0, 0, 0, 0, 0, 0, 0xff,
    0xff, 0, 0, 0, 0,
];

/// 10.0.0.0/8 behind one external address.
pub(crate) fn served(alloc: Global) -> anyhow::Result<Config> {
    let hosts = Subscriber {
        prefix: Prefix {
            bits: 104,
            address: Address::v4(10, 0, 0, 0),
        },
        external: 0,
    };
    let subscribers = vec![in alloc; hosts]?;
    Ok(Config {
        quota: 64,
        lifetime_min: 120,
        lifetime_max: 86400,
        third_party: Prefixes::of(Vec::new(alloc)),
        externals: Externals::of(Vec::new(alloc)),
        subscribers: Subscribers::of(subscribers),
        listen: Addresses::of(Vec::new(alloc)),
        orders: Orders::Both,
    })
}

/// The lifetime that the request asks for, 0 where it is refused.
fn lifetime_of(alloc: Global, config: &Config, message: &[u8]) -> anyhow::Result<u32> {
    if message.len() < 2 {
        return Ok(0);
    }
    let source = Address::v4(10, 0, 0, 5);
    let Verdict::Asked { ask, .. } = judge(alloc, config, &source, message)? else {
        return Ok(0);
    };
    match &ask {
        Ask::Map(map) => Ok(map.lifetime),
        _ => Ok(0),
    }
}

/// Judges five datagrams a round, and adds up the lifetimes that they ask for.
fn sum_of(alloc: Global, config: &Config, rounds: u32) -> anyhow::Result<u64> {
    let mut sum = 0u64;
    for _ in 0..u64::from(rounds) * 5 {
        let lifetime = lifetime_of(alloc, config, &REQUEST)?;
        sum = sum.wrapping_add(u64::from(lifetime));
    }
    Ok(sum)
}

/// Times that.
pub fn judged<C: CpuClock>(clock: &C, alloc: Global, rounds: u32) -> anyhow::Result<Timed> {
    let config = served(alloc)?;
    let start = clock.process_cpu_time()?;
    let sum = sum_of(alloc, &config, rounds)?;
    Timed::since(clock, start, sum)
}
