//! What an external address has at a moment.
ghost use Rattle.std.specs.Prelude.{◌≡◌, max, IfOk, None};
ghost use Rattle.lease_store.specs.Lookups.{lease_count};

use crate::moments::later;
use crate::shards::Shard;
use lease_disk::LeaseDisk;
use pcp_base::{Address, Config, End, Memory, Moment, Owner, Protocol, REST_SECONDS};
use status_board::ShardNumbers;
use std::alloc::Global;

/// How many ports there are, port 0 among them.
const PORTS: usize = 1 << 16;

/// The ports of a protocol, by their numbers: whether each has an owner or rests.
#[derive(Drop)]
struct Taken {
    protocol: Protocol,
    marks: Vec<bool>,
}

impl Taken {
    /// None is taken yet.
    fn new(alloc: Global, protocol: Protocol) -> Result<Taken, Memory> {
        let marks = unmarked(alloc, PORTS)?;
        Ok(Taken { protocol, marks })
    }

    fn mark(&mut self, protocol: Protocol, port: u16) {
        if protocol == self.protocol
            && let Some(mark) = self.marks.get_mut(usize::from(port))
        {
            *mark = true;
        }
    }

    /// Takes the ports of these owners.
    fn mark_owned(&mut self, owners: &[Owner]) {
        for owner in owners {
            self.mark(owner.protocol, owner.external);
        }
    }

    /// Takes the ports that rest at this moment.
    fn mark_resting(&mut self, ends: &[End], m: Moment) {
        for end in ends {
            if m.get() < end.end.saturating_add(REST_SECONDS) {
                self.mark(end.endpoint.protocol, end.external);
            }
        }
    }

    /// How many ports of the range aren't taken.
    fn free(&self, range: Range) -> u32 {
        let low = usize::from(range.low);
        let high = usize::from(range.high);
        let mut count: u32 = 0;
        for (port, is_taken) in self.marks.iter().enumerate() {
            if low <= port && port <= high && !*is_taken {
                count = count.saturating_add(1);
            }
        }
        count
    }
}

/// So many ports, none of them taken.
fn unmarked(alloc: Global, count: usize) -> Result<Vec<bool>, Memory> {
    Ok(vec![in alloc; false; count]?)
}

/// The first and the last port of an external address.
#[derive(Clone, Copy)]
struct Range {
    low: u16,
    high: u16,
}

/// How many ports of the range neither are one of these owners' nor rest at this moment.
fn count_free(
    alloc: Global,
    protocol: Protocol,
    range: Range,
    owners: &[Owner],
    ends: &[End],
    m: Moment,
) -> Result<u32, Memory> {
    let mut taken = Taken::new(alloc, protocol)?;
    taken.mark_owned(owners);
    taken.mark_resting(ends, m);
    Ok(taken.free(range))
}

/// The ports of this external address. One that isn't configured has none.
fn range_of(config: &Config, address: &Address) -> Range {
    for external in config.externals.items() {
        if external.address == *address {
            return Range {
                low: external.low,
                high: external.high,
            };
        }
    }
    Range { low: 1, high: 0 }
}

impl<D: LeaseDisk + Drop> Shard<D> {
    /// What the external address has at the greater of `now` and the moment of the last entry. A port
    /// of the configured range is free where no lease that is live then owns it, and it doesn't rest.
    pub fn numbers(
        &self,
        alloc: Global,
        config: &Config,
        now: Moment,
    ) -> Result<ShardNumbers, Memory>
        requires { self.now.book.fault ≡ None }
        ensures moment { IfOk result (λ n. n.moment ≡ max now self.now.moment) }
        ensures base { IfOk result (λ n. n.base ≡ self.now.book.state.base) }
        ensures leases { IfOk result (λ n. n.leases
            ≡ lease_count self.now.book.state.table (max now self.now.moment)) }
    {
        let m = later(now, self.moment);
        let (free_tcp, free_udp) = self.free_ports(alloc, config, m)?;
        Ok(ShardNumbers {
            moment: m.get(),
            base: self.book.base().get(),
            leases: self.book.core().leases(m),
            free_tcp,
            free_udp,
        })
    }

    /// How many TCP ports are free, and how many UDP ports.
    fn free_ports(&self, alloc: Global, config: &Config, m: Moment) -> Result<(u32, u32), Memory>
        requires { self.now.book.fault ≡ None }
    {
        let core = self.book.core();
        // The port of a lease that ended is taken as long as it rests.
        let resting = m.get().saturating_sub(REST_SECONDS);
        let owners = core.owners(alloc, Moment::of(resting).unwrap_or(m))?;
        let ends = core.ends(alloc)?;
        let range = range_of(config, &self.address);
        let free_tcp = count_free(alloc, Protocol::Tcp, range, &owners, &ends, m)?;
        let free_udp = count_free(alloc, Protocol::Udp, range, &owners, &ends, m)?;
        Ok((free_tcp, free_udp))
    }
}
