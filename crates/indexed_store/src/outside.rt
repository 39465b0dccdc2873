//! What is looked up in the leases that are live at a moment, by external port.
ghost use Rattle.std.specs.Prelude.{◌≡◌, filter, find, IsTrue};
ghost use Rattle.std.specs.Option.{option_map};
ghost use Rattle.pcp_base.specs.Tables.{HasPorts, live};
ghost use Rattle.peer_table.specs.PeerLists.{peer_opening};
ghost use Rattle.indexed_store.specs.Tabled.{AreTabled};
ghost use Rattle.pcp_base.specs.Owners.{is_port, peer_owner, owns, endpoint_behind};
ghost use Rattle.filter_rules.specs.Filters.{allows as lets};
ghost use Rattle.filter_rules.specs.Lookups.{is_with, owners_for};

use crate::leases::Leases;
use filter_rules::allows;
use pcp_base::{Address, Endpoint, MapLease, Moment, PeerLease, Protocol};

/// The endpoint to which an external port of the lease belongs.
fn endpoint_behind(lease: &MapLease, protocol: Protocol, port: u16) -> Endpoint
    requires ports { HasPorts lease.now }
    requires owned { IsTrue (owns protocol port lease.now) }
    ensures { result ≡ endpoint_behind port lease.now }
{
    Endpoint {
        address: lease.address,
        protocol: lease.protocol,
        port: lease.internal + (port - lease.external),
    }
}

impl Leases {
    /// The MAP lease that is live at `m` and owns the port, those that have left among them.
    fn live_owner(&self, m: Moment, protocol: Protocol, port: u16) -> Option<MapLease>
        requires found { AreTabled self.now.found }
        requires sound { AreTabled (live self.now.all m) }
        ensures { result ≡ find (owns protocol port) (live self.now.all m).maps }
    {
        self.tell_all();
        let Some(lease) = self.map_owning(protocol, port) else {
            return self.maps.past_owner(protocol, port, m);
        };
        if lease.is_live(m) {
            Some(lease)
        } else {
            self.maps.past_owner(protocol, port, m)
        }
    }

    /// The PEER lease that is live at `m`, owns the port and has exactly this remote, those that have
    /// left among them.
    fn live_opening(
        &self,
        m: Moment,
        protocol: Protocol,
        port: u16,
        remote: &Address,
        remote_port: u16,
    ) -> Option<PeerLease>
        requires found { AreTabled self.now.found }
        requires sound { AreTabled (live self.now.all m) }
        ensures { result ≡ peer_opening protocol port remote.now remote_port
            (live self.now.all m).peers }
    {
        self.tell_all();
        let Some(lease) = self.peer_opening(protocol, port, remote, remote_port) else {
            return self
                .peers
                .past_opening(protocol, port, remote, remote_port, m);
        };
        if lease.is_live(m) {
            Some(lease)
        } else {
            self.peers
                .past_opening(protocol, port, remote, remote_port, m)
        }
    }

    /// The MAP lease that is live at `m` and owns the port, where its filters allow the remote peer.
    fn map_through(
        &self,
        m: Moment,
        protocol: Protocol,
        port: u16,
        remote: &Address,
        remote_port: u16,
    ) -> Option<MapLease>
        requires found { AreTabled self.now.found }
        requires sound { AreTabled (live self.now.all m) }
        ensures { result ≡ find (owns protocol port)
            (filter (λ l. lets l.filters remote.now remote_port) (live self.now.all m).maps) }
    {
        let Some(lease) = self.live_owner(m, protocol, port) else {
            return None;
        };
        if allows(&lease.filters, remote, remote_port) {
            Some(lease)
        } else {
            None
        }
    }

    /// The endpoint of the MAP lease through which the remote peer may send.
    fn behind_map(
        &self,
        m: Moment,
        protocol: Protocol,
        port: u16,
        remote: &Address,
        remote_port: u16,
    ) -> Option<Endpoint>
        requires found { AreTabled self.now.found }
        requires sound { AreTabled (live self.now.all m) }
        ensures { result ≡ option_map (endpoint_behind port) (find (owns protocol port)
            (filter (λ l. lets l.filters remote.now remote_port) (live self.now.all m).maps)) }
    {
        let Some(lease) = self.map_through(m, protocol, port, remote, remote_port) else {
            return None;
        };
        Some(endpoint_behind(&lease, protocol, port))
    }

    /// The endpoint of the PEER lease through which the remote peer may send.
    fn behind_peer(
        &self,
        m: Moment,
        protocol: Protocol,
        port: u16,
        remote: &Address,
        remote_port: u16,
    ) -> Option<Endpoint>
        requires found { AreTabled self.now.found }
        requires sound { AreTabled (live self.now.all m) }
        ensures { result ≡ option_map (λ l. l.endpoint)
            (find (λ l. is_port protocol port (peer_owner l))
            (filter (is_with remote.now remote_port) (live self.now.all m).peers)) }
    {
        let Some(lease) = self.live_opening(m, protocol, port, remote, remote_port) else {
            return None;
        };
        Some(lease.endpoint)
    }

    /// The endpoint to which a remote peer may send through this port.
    pub(crate) fn look(
        &self,
        m: Moment,
        protocol: Protocol,
        port: u16,
        remote: &Address,
        remote_port: u16,
    ) -> Option<Endpoint>
        requires found { AreTabled self.now.found }
        requires sound { AreTabled (live self.now.all m) }
        ensures { result ≡ option_map (λ o. o.endpoint) (find (is_port protocol port)
            (owners_for (live self.now.all m) remote.now remote_port)) }
    {
        let Some(endpoint) = self.behind_map(m, protocol, port, remote, remote_port) else {
            return self.behind_peer(m, protocol, port, remote, remote_port);
        };
        Some(endpoint)
    }
}
