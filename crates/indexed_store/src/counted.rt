//! What is looked up in a state at a moment, which isn't before the one reached. A step is a look at
//! a level of an ordered map.
ghost use Rattle.std.specs.Prelude.{◌≡◌, ◌≤◌, ◌+◌, ◌*◌, is_some, nat_lt};
ghost use Rattle.step_count.specs.Levels.{levels};
ghost use Rattle.pcp_base.specs.declared.leases.TheConstants.{MOST_LEASES};
ghost use Rattle.indexed_store.specs.Indexed.{IsKept};
ghost use Rattle.lease_store.specs.Lookups.{covering, peering, named_port, peer_count, lease_count, next_inside, up_to_next};

use crate::state::IndexedState;
use pcp_base::{Address, Endpoint, MapLease, Moment, PeerLease};
use std::sync::ledger::Ledger;
use step_count::Steps;
use step_count::laws::levels_grow;

impl IndexedState {
    /// The MAP lease that covers the endpoint.
    pub(crate) fn covering<L: Ledger>(
        &self,
        m: Moment,
        endpoint: &Endpoint,
        steps: &mut Steps<L>,
    ) -> Option<MapLease>
        requires kept { IsKept self.now }
        requires later { self.now.ports.reached ≤ m }
        ensures lease { result ≡ covering self.now.state.table m endpoint.now }
        ensures steps { steps.new ≤ steps.old + 4 * levels MOST_LEASES }
    {
        levels_grow();
        self.leases.covering_counted(m, endpoint, steps)
    }

    /// Whether a MAP lease covers the endpoint.
    pub(crate) fn is_covered<L: Ledger>(
        &self,
        m: Moment,
        endpoint: &Endpoint,
        steps: &mut Steps<L>,
    ) -> bool
        requires kept { IsKept self.now }
        requires later { self.now.ports.reached ≤ m }
        ensures covered { result ≡ is_some (covering self.now.state.table m endpoint.now) }
        ensures steps { steps.new ≤ steps.old + 3 * levels MOST_LEASES }
    {
        levels_grow();
        self.leases.is_covered_counted(m, endpoint, steps)
    }

    /// The PEER lease of this endpoint and remote.
    pub(crate) fn peering<L: Ledger>(
        &self,
        m: Moment,
        endpoint: &Endpoint,
        remote: &Address,
        remote_port: u16,
        steps: &mut Steps<L>,
    ) -> Option<PeerLease>
        requires kept { IsKept self.now }
        requires later { self.now.ports.reached ≤ m }
        ensures lease { result
            ≡ peering self.now.state.table m endpoint.now remote.now remote_port }
        ensures steps { steps.new ≤ steps.old + 2 * levels MOST_LEASES }
    {
        levels_grow();
        self.leases
            .peering_counted(m, endpoint, remote, remote_port, steps)
    }

    /// The external port of the PEER leases that name the endpoint.
    pub(crate) fn named_port<L: Ledger>(
        &self,
        m: Moment,
        endpoint: &Endpoint,
        steps: &mut Steps<L>,
    ) -> Option<u16>
        requires kept { IsKept self.now }
        requires later { self.now.ports.reached ≤ m }
        ensures port { result ≡ named_port self.now.state.table m endpoint.now }
        ensures steps { steps.new ≤ steps.old + 35 * levels MOST_LEASES }
    {
        levels_grow();
        self.leases.named_port_counted(m, endpoint, steps)
    }

    /// How many PEER leases name the endpoint.
    pub(crate) fn peer_count<L: Ledger>(
        &self,
        m: Moment,
        endpoint: &Endpoint,
        steps: &mut Steps<L>,
    ) -> u32
        requires kept { IsKept self.now }
        requires later { self.now.ports.reached ≤ m }
        ensures count { result ≡ peer_count self.now.state.table m endpoint.now }
        ensures steps { steps.new ≤ steps.old + 35 * levels MOST_LEASES }
    {
        levels_grow();
        self.leases.peer_count_counted(m, endpoint, steps)
    }

    /// The next greater internal port, of the endpoint's address and protocol, that a lease covers
    /// or names. It counts no steps.
    pub(crate) fn next_inside(&self, m: Moment, endpoint: &Endpoint) -> Option<u16>
        requires kept { IsKept self.now }
        requires later { self.now.ports.reached ≤ m }
        ensures { result ≡ next_inside self.now.state.table m endpoint.now }
    {
        self.leases.next_inside(m, endpoint)
    }

    /// How many of the `most` internal ports from the endpoint's on come before the next greater one
    /// that a lease covers or names.
    pub(crate) fn room_inside<L: Ledger>(
        &self,
        m: Moment,
        endpoint: &Endpoint,
        most: u32,
        steps: &mut Steps<L>,
    ) -> u32
        requires kept { IsKept self.now }
        requires later { self.now.ports.reached ≤ m }
        requires some { 1 ≤ most }
        requires within { endpoint.now.port + most ≤ 65536 }
        ensures room { result ≡ up_to_next (next_inside self.now.state.table m endpoint.now)
            endpoint.now.port most }
        ensures steps { steps.new ≤ steps.old + most * (35 * levels MOST_LEASES) }
    {
        levels_grow();
        self.leases.room_inside_counted(m, endpoint, most, steps)
    }

    /// Whether fewer than `MOST_LEASES` leases are live.
    pub(crate) fn has_room<L: Ledger>(&self, m: Moment, steps: &mut Steps<L>) -> bool
        requires kept { IsKept self.now }
        requires later { self.now.ports.reached ≤ m }
        ensures room { result ≡ nat_lt (lease_count self.now.state.table m) MOST_LEASES }
        ensures steps { steps.new ≤ steps.old + 2 * levels MOST_LEASES }
    {
        levels_grow();
        self.leases.has_space_counted(m, steps)
    }
}
