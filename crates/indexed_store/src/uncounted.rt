//! Look-ups of callers that count no steps.
ghost use Rattle.std.specs.Prelude.{◌≡◌, ◌<◌, nat_lt, is_some};
ghost use Rattle.pcp_base.specs.declared.leases.TheConstants.{MOST_LEASES};
ghost use Rattle.indexed_store.specs.Tabled.{AreTabled};
ghost use Rattle.lease_store.specs.Lookups.{covering, peering, named_port, peer_count, lease_count, next_inside};
ghost use Rattle.mapping_table.specs.MapLists.{map_owning};
ghost use Rattle.peer_table.specs.PeerLists.{peer_opening};

use crate::leases::Leases;
use pcp_base::{Address, Endpoint, MapLease, Moment, PeerLease, Protocol};
use std::marker::Brand;
use std::sync::ledger::{Blank, Ledger};
use step_count::Steps;

impl Leases {
    fn covering_from<L: Ledger>(
        &self,
        m: Moment,
        endpoint: &Endpoint,
        blank: Blank,
    ) -> Option<MapLease>
        requires name { blank.name ≡ L.name }
        requires parts { blank.parts ≡ L.parts }
        requires some { 0 < L.parts }
        requires tabled { AreTabled self.now.found }
        ensures { result ≡ covering self.now.found m endpoint.now }
    {
        self.covering_counted(m, endpoint, &mut Steps::<L>::begin(blank))
    }

    /// The MAP lease that covers the endpoint.
    pub(crate) fn covering(&self, m: Moment, endpoint: &Endpoint) -> Option<MapLease>
        requires { AreTabled self.now.found }
        ensures { result ≡ covering self.now.found m endpoint.now }
    {
        self.covering_from::<Brand>(m, endpoint, Blank::new(1))
    }

    fn peering_from<L: Ledger>(
        &self,
        m: Moment,
        endpoint: &Endpoint,
        remote: &Address,
        remote_port: u16,
        blank: Blank,
    ) -> Option<PeerLease>
        requires name { blank.name ≡ L.name }
        requires parts { blank.parts ≡ L.parts }
        requires some { 0 < L.parts }
        requires tabled { AreTabled self.now.found }
        ensures { result ≡ peering self.now.found m endpoint.now remote.now remote_port }
    {
        self.peering_counted(
            m,
            endpoint,
            remote,
            remote_port,
            &mut Steps::<L>::begin(blank),
        )
    }

    /// The PEER lease of this endpoint and remote.
    pub(crate) fn peering(
        &self,
        m: Moment,
        endpoint: &Endpoint,
        remote: &Address,
        remote_port: u16,
    ) -> Option<PeerLease>
        requires { AreTabled self.now.found }
        ensures { result ≡ peering self.now.found m endpoint.now remote.now remote_port }
    {
        self.peering_from::<Brand>(m, endpoint, remote, remote_port, Blank::new(1))
    }

    fn named_port_from<L: Ledger>(
        &self,
        m: Moment,
        endpoint: &Endpoint,
        blank: Blank,
    ) -> Option<u16>
        requires name { blank.name ≡ L.name }
        requires parts { blank.parts ≡ L.parts }
        requires some { 0 < L.parts }
        requires tabled { AreTabled self.now.found }
        ensures { result ≡ named_port self.now.found m endpoint.now }
    {
        self.named_port_counted(m, endpoint, &mut Steps::<L>::begin(blank))
    }

    /// The external port of the PEER leases that name the endpoint.
    pub(crate) fn named_port(&self, m: Moment, endpoint: &Endpoint) -> Option<u16>
        requires { AreTabled self.now.found }
        ensures { result ≡ named_port self.now.found m endpoint.now }
    {
        self.named_port_from::<Brand>(m, endpoint, Blank::new(1))
    }

    fn peer_count_from<L: Ledger>(&self, m: Moment, endpoint: &Endpoint, blank: Blank) -> u32
        requires name { blank.name ≡ L.name }
        requires parts { blank.parts ≡ L.parts }
        requires some { 0 < L.parts }
        ensures { result ≡ peer_count self.now.found m endpoint.now }
    {
        self.peer_count_counted(m, endpoint, &mut Steps::<L>::begin(blank))
    }

    /// How many PEER leases name the endpoint.
    pub(crate) fn peer_count(&self, m: Moment, endpoint: &Endpoint) -> u32
        ensures { result ≡ peer_count self.now.found m endpoint.now }
    {
        self.peer_count_from::<Brand>(m, endpoint, Blank::new(1))
    }

    fn next_inside_from<L: Ledger>(
        &self,
        m: Moment,
        endpoint: &Endpoint,
        blank: Blank,
    ) -> Option<u16>
        requires name { blank.name ≡ L.name }
        requires parts { blank.parts ≡ L.parts }
        requires some { 0 < L.parts }
        ensures { result ≡ next_inside self.now.found m endpoint.now }
    {
        self.next_inside_counted(m, endpoint, &mut Steps::<L>::begin(blank))
    }

    /// The next greater internal port, of the endpoint's address and protocol, that a lease covers
    /// or names.
    pub(crate) fn next_inside(&self, m: Moment, endpoint: &Endpoint) -> Option<u16>
        ensures { result ≡ next_inside self.now.found m endpoint.now }
    {
        self.next_inside_from::<Brand>(m, endpoint, Blank::new(1))
    }

    fn has_space_from<L: Ledger>(&self, m: Moment, blank: Blank) -> bool
        requires name { blank.name ≡ L.name }
        requires parts { blank.parts ≡ L.parts }
        requires some { 0 < L.parts }
        requires tabled { AreTabled self.now.found }
        ensures { result ≡ nat_lt (lease_count self.now.found m) MOST_LEASES }
    {
        self.has_space_counted(m, &mut Steps::<L>::begin(blank))
    }

    /// Whether one more lease may be live.
    pub(crate) fn has_space(&self, m: Moment) -> bool
        requires { AreTabled self.now.found }
        ensures { result ≡ nat_lt (lease_count self.now.found m) MOST_LEASES }
    {
        self.has_space_from::<Brand>(m, Blank::new(1))
    }

    fn is_covered_from<L: Ledger>(&self, m: Moment, endpoint: &Endpoint, blank: Blank) -> bool
        requires name { blank.name ≡ L.name }
        requires parts { blank.parts ≡ L.parts }
        requires some { 0 < L.parts }
        requires tabled { AreTabled self.now.found }
        ensures { result ≡ is_some (covering self.now.found m endpoint.now) }
    {
        self.maps.covers(endpoint, m, &mut Steps::<L>::begin(blank))
    }

    /// Whether a live MAP lease covers the endpoint.
    pub(crate) fn is_covered(&self, m: Moment, endpoint: &Endpoint) -> bool
        requires { AreTabled self.now.found }
        ensures { result ≡ is_some (covering self.now.found m endpoint.now) }
    {
        self.is_covered_from::<Brand>(m, endpoint, Blank::new(1))
    }

    /// Whether a MAP lease that is live at `m` covers the endpoint, those that have left among them.
    pub(crate) fn covered(&self, m: Moment, endpoint: &Endpoint) -> bool
        requires { AreTabled self.now.found }
        ensures { result ≡ is_some (covering self.now.all m endpoint.now) }
    {
        self.tell_all();
        self.is_covered(m, endpoint) || self.maps.past_covers(endpoint, m)
    }

    fn map_owning_from<L: Ledger>(
        &self,
        protocol: Protocol,
        port: u16,
        blank: Blank,
    ) -> Option<MapLease>
        requires name { blank.name ≡ L.name }
        requires parts { blank.parts ≡ L.parts }
        requires some { 0 < L.parts }
        ensures { result ≡ map_owning protocol port self.now.found.maps }
    {
        self.maps
            .by_external(protocol, port, &mut Steps::<L>::begin(blank))
    }

    /// The MAP lease that owns the port, live or not.
    pub(crate) fn map_owning(&self, protocol: Protocol, port: u16) -> Option<MapLease>
        ensures { result ≡ map_owning protocol port self.now.found.maps }
    {
        self.map_owning_from::<Brand>(protocol, port, Blank::new(1))
    }

    fn peer_opening_from<L: Ledger>(
        &self,
        protocol: Protocol,
        port: u16,
        remote: &Address,
        remote_port: u16,
        blank: Blank,
    ) -> Option<PeerLease>
        requires name { blank.name ≡ L.name }
        requires parts { blank.parts ≡ L.parts }
        requires some { 0 < L.parts }
        ensures { result ≡ peer_opening protocol port remote.now remote_port self.now.found.peers }
    {
        let mut steps = Steps::<L>::begin(blank);
        self.peers
            .by_external(protocol, port, remote, remote_port, &mut steps)
            .copied()
    }

    /// The PEER lease that owns the port and has exactly this remote, live or not.
    pub(crate) fn peer_opening(
        &self,
        protocol: Protocol,
        port: u16,
        remote: &Address,
        remote_port: u16,
    ) -> Option<PeerLease>
        ensures { result ≡ peer_opening protocol port remote.now remote_port self.now.found.peers }
    {
        self.peer_opening_from::<Brand>(protocol, port, remote, remote_port, Blank::new(1))
    }
}
