//! What is looked up in the leases that are live at a moment, by internal endpoint. A step is a look at a
//! level of an ordered map.
ghost use Rattle.std.specs.Prelude.{◌≡◌, ◌≤◌, ◌+◌, ◌*◌, length, find, is_some, nat_lt};
ghost use Rattle.step_count.specs.Levels.{levels};
ghost use Rattle.pcp_base.specs.declared.leases.TheConstants.{MOST_LEASES};
ghost use Rattle.pcp_base.specs.Tables.{is_map_of, live};
ghost use Rattle.indexed_store.specs.Judging.{map_with_key};
ghost use Rattle.indexed_store.specs.Tabled.{AreTabled, AreWhole};
ghost use Rattle.lease_store.specs.Lookups.{covering, peering, named_port, peer_count, lease_count, next_inside, up_to_next};

use crate::leases::Leases;
use ordered_index::lesser;
use pcp_base::{Address, Endpoint, MOST_LEASES, MapLease, Moment, PeerLease};
use std::sync::ledger::Ledger;
use step_count::Steps;
use step_count::laws::levels_grow;

/// The lease, where this is its key: its first endpoint.
pub(crate) fn with_key(found: Option<MapLease>, key: &Endpoint) -> Option<MapLease>
    ensures { result ≡ map_with_key key.now found }
{
    let Some(lease) = found else {
        return None;
    };
    if lease.first_endpoint() == *key {
        Some(lease)
    } else {
        None
    }
}

impl Leases {
    /// The MAP lease that covers the endpoint.
    pub(crate) fn covering_counted<L: Ledger>(
        &self,
        m: Moment,
        endpoint: &Endpoint,
        steps: &mut Steps<L>,
    ) -> Option<MapLease>
        requires { AreTabled self.now.found }
        ensures lease { result ≡ covering self.now.found m endpoint.now }
        ensures steps { steps.new ≤ steps.old + 4 * levels (length self.now.found.maps) }
    {
        let Some(lease) = self.maps.find(endpoint, steps) else {
            return None;
        };
        if lease.is_live(m) { Some(lease) } else { None }
    }

    /// Whether a MAP lease covers the endpoint. It looks at no filters.
    pub(crate) fn is_covered_counted<L: Ledger>(
        &self,
        m: Moment,
        endpoint: &Endpoint,
        steps: &mut Steps<L>,
    ) -> bool
        requires { AreTabled self.now.found }
        ensures covered { result ≡ is_some (covering self.now.found m endpoint.now) }
        ensures steps { steps.new ≤ steps.old + 3 * levels (length self.now.found.maps) }
    {
        self.maps.covers(endpoint, m, steps)
    }

    /// The MAP lease with this key: its first endpoint.
    pub(crate) fn map_of_counted<L: Ledger>(
        &self,
        m: Moment,
        key: &Endpoint,
        steps: &mut Steps<L>,
    ) -> Option<MapLease>
        requires { AreTabled self.now.found }
        ensures lease { result ≡ find (is_map_of key.now) (live self.now.found m).maps }
        ensures steps { steps.new ≤ steps.old + 4 * levels (length self.now.found.maps) }
    {
        with_key(self.covering_counted(m, key, steps), key)
    }

    /// The PEER lease of this endpoint and remote.
    pub(crate) fn peering_counted<L: Ledger>(
        &self,
        m: Moment,
        endpoint: &Endpoint,
        remote: &Address,
        remote_port: u16,
        steps: &mut Steps<L>,
    ) -> Option<PeerLease>
        requires { AreTabled self.now.found }
        ensures lease { result ≡ peering self.now.found m endpoint.now remote.now remote_port }
        ensures steps { steps.new ≤ steps.old + 2 * levels (length self.now.found.peers) }
    {
        let Some(lease) = self.peers.find(endpoint, remote, remote_port, steps) else {
            return None;
        };
        if lease.is_live(m) { Some(*lease) } else { None }
    }

    /// The external port of the PEER leases that name the endpoint.
    pub(crate) fn named_port_counted<L: Ledger>(
        &self,
        m: Moment,
        endpoint: &Endpoint,
        steps: &mut Steps<L>,
    ) -> Option<u16>
        requires { AreTabled self.now.found }
        ensures port { result ≡ named_port self.now.found m endpoint.now }
        ensures steps { steps.new ≤ steps.old + 35 * levels (length self.now.found.peers) }
    {
        let Some(used) = self.peers.of_endpoint(endpoint, m, steps) else {
            return None;
        };
        Some(used.external)
    }

    /// How many PEER leases name the endpoint.
    pub(crate) fn peer_count_counted<L: Ledger>(
        &self,
        m: Moment,
        endpoint: &Endpoint,
        steps: &mut Steps<L>,
    ) -> u32
        ensures count { result ≡ peer_count self.now.found m endpoint.now }
        ensures steps { steps.new ≤ steps.old + 35 * levels (length self.now.found.peers) }
    {
        let Some(used) = self.peers.of_endpoint(endpoint, m, steps) else {
            return 0;
        };
        used.count
    }

    /// Whether fewer than `MOST_LEASES` are live: fewer are looked up, or one of these has ended.
    pub(crate) fn has_space_counted<L: Ledger>(&self, m: Moment, steps: &mut Steps<L>) -> bool
        requires { AreTabled self.now.found }
        ensures space { result ≡ nat_lt (lease_count self.now.found m) MOST_LEASES }
        ensures steps { steps.new ≤ steps.old + levels (length self.now.found.maps)
            + levels (length self.now.found.peers) }
    {
        if self.maps.len() + self.peers.len() < MOST_LEASES {
            return true;
        }
        if self.maps.has_ended(m, steps) {
            return true;
        }
        self.peers.has_ended(m, steps)
    }

    /// How many leases are live, MAP and PEER together, those that have left among them. It looks
    /// at those that have ended.
    pub(crate) fn count(&self, m: Moment) -> u32
        requires { AreTabled self.now.found }
        ensures { result ≡ lease_count self.now.all m }
    {
        self.maps.tell_all();
        self.peers.tell_all();
        self.maps.live(m) + self.peers.live(m)
    }

    /// A law: what all leases tell by those that are looked up and those that have left.
    pub(crate) fn tell_all(&self)
        ensures { AreWhole self.now }
    {
        self.maps.tell_all();
        self.peers.tell_all();
    }

    /// The next greater internal port, of the endpoint's address and protocol, that a lease covers
    /// or names.
    pub(crate) fn next_inside_counted<L: Ledger>(
        &self,
        m: Moment,
        endpoint: &Endpoint,
        steps: &mut Steps<L>,
    ) -> Option<u16>
        ensures { result ≡ next_inside self.now.found m endpoint.now }
    {
        if endpoint.port == u16::MAX {
            return None;
        }
        let mapped = self.maps.next_internal(endpoint, 65536, m, steps);
        let named = self.peers.next_internal(endpoint, 65536, m, steps);
        lesser(mapped, named)
    }

    /// How many of the `most` internal ports from the endpoint's on come before the next greater one
    /// that a lease covers or names.
    pub(crate) fn room_inside_counted<L: Ledger>(
        &self,
        m: Moment,
        endpoint: &Endpoint,
        most: u32,
        steps: &mut Steps<L>,
    ) -> u32
        requires tabled { AreTabled self.now.found }
        requires some { 1 ≤ most }
        requires within { endpoint.now.port + most ≤ 65536 }
        ensures room { result
            ≡ up_to_next (next_inside self.now.found m endpoint.now) endpoint.now.port most }
        ensures steps { steps.new ≤ steps.old + most * (35 * levels MOST_LEASES) }
    {
        levels_grow();
        if most == 1 {
            return 1;
        }
        let end = u32::from(endpoint.port) + most;
        let mapped = self.maps.next_internal(endpoint, end, m, steps);
        let named = self.peers.next_internal(endpoint, end, m, steps);
        let Some(next) = lesser(mapped, named) else {
            return most;
        };
        u32::from(next - endpoint.port)
    }
}
