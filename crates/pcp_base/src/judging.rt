//! Which records are well formed.
ghost use Rattle.std.specs.Prelude.{◌≡◌, ◌≢◌, ◌+◌, ◌<◌, ◌≤◌, ◌↔◌, IsTrue};
ghost use Rattle.std.specs.List.{AllByRecursion};
ghost use Rattle.pcp_base.specs.Tables.{EachTwo, HasPorts, HavePrefixes, AreLeaseFilters, IsMapLease, IsPeerLease};
ghost use Rattle.pcp_base.specs.Records.{IsTermAt, IsEndAt, IsWellFormedChange, IsWellFormedRecord};

use crate::leases::{End, Filter, MOST_FILTERS, MOST_PORTS, MapLease, PeerLease, REST_SECONDS};
use crate::moments::Moment;
use crate::records::{Change, Record};

impl Record {
    /// Whether the record may stand in a journal: its fields are in their ranges, and a lease in it was
    /// granted by the record's moment and is live at it.
    pub fn is_well_formed(&self) -> bool
        ensures { IsTrue result ↔ IsWellFormedRecord self.now }
    {
        let seconds = self.moment.get();
        prove!(seconds < 1 << 40);
        is_well_formed_change(self.moment, &self.change)
    }
}

/// Whether a record of this moment may make the change.
fn is_well_formed_change(moment: Moment, change: &Change) -> bool
    ensures { IsTrue result ↔ IsWellFormedChange moment change.now }
{
    match change {
        Change::Start | Change::Lose | Change::Mark | Change::Renumber(_) => true,
        Change::Map(lease) => {
            is_map_lease(lease) && is_term_at(moment, lease.granted, lease.expiry)
        }
        Change::Peer(lease) => {
            is_peer_lease(lease) && is_term_at(moment, lease.granted, lease.expiry)
        }
        Change::DropMap(endpoint) => endpoint.port > 0,
        Change::DropPeer(endpoint, _, port) => endpoint.port > 0 && *port > 0,
        Change::Rest(endpoint, external, end) => {
            let rest = End {
                endpoint: *endpoint,
                external: *external,
                end: *end,
            };
            is_end_at(moment, &rest)
        }
    }
}

/// Whether a lease was granted by this moment, and is live at it.
fn is_term_at(moment: Moment, granted: Moment, expiry: u64) -> bool
    ensures { IsTrue result ↔ IsTermAt moment granted expiry }
{
    granted.get() <= moment.get() && moment.get() < expiry && expiry < 1 << 41
}

/// Whether an end came by this moment, and may rest at it.
fn is_end_at(moment: Moment, rest: &End) -> bool
    ensures { IsTrue result ↔ IsEndAt moment rest.now }
{
    rest.endpoint.port > 0 && rest.external > 0 && may_rest(moment, rest.end)
}

fn may_rest(moment: Moment, end: u64) -> bool
    ensures { IsTrue result ↔ ((end ≤ moment) × (moment < end + REST_SECONDS)) }
{
    end <= moment.get() && moment.get() - end < REST_SECONDS
}

fn is_map_lease(lease: &MapLease) -> bool
    ensures { IsTrue result ↔ IsMapLease lease.now }
{
    has_ports(lease) && are_lease_filters(lease.filters.items())
}

fn has_ports(lease: &MapLease) -> bool
    ensures { IsTrue result ↔ HasPorts lease.now }
{
    are_ports(lease.internal, lease.count)
        && are_ports(lease.external, lease.count)
        && (1..=MOST_PORTS).contains(&lease.count)
}

fn are_lease_filters(filters: &[Filter]) -> bool
    ensures { IsTrue result ↔ AreLeaseFilters filters.now }
{
    filters.len() <= MOST_FILTERS && are_different(filters) && have_prefixes(filters)
}

/// Whether there are `count` ports from this one on, which is at least 1.
fn are_ports(first: u16, count: u16) -> bool
    ensures { IsTrue result ↔ ((0 < first) × (first + count ≤ 65536)) }
{
    first > 0 && u32::from(first) + u32::from(count) <= 65536
}

fn is_peer_lease(lease: &PeerLease) -> bool
    ensures { IsTrue result ↔ IsPeerLease lease.now }
{
    lease.endpoint.port > 0 && lease.external > 0 && lease.remote_port > 0
}

fn are_different(filters: &[Filter]) -> bool
    ensures { IsTrue result ↔ EachTwo (λ f g. f ≢ g) filters.now }
{
    match filters {
        [] => true,
        [first, rest @ ..] => differs_from_all(first, rest) && are_different(rest),
    }
}

fn differs_from_all(filter: &Filter, others: &[Filter]) -> bool
    ensures { IsTrue result ↔ AllByRecursion (λ g. filter.now ≢ g) others.now }
{
    others.iter().all(|other| differ(filter, other))
}

fn differ(first: &Filter, second: &Filter) -> bool
    ensures { IsTrue result ↔ (first.now ≢ second.now) }
{
    first != second
}

fn have_prefixes(filters: &[Filter]) -> bool
    ensures { IsTrue result ↔ HavePrefixes filters.now }
{
    filters
        .iter()
        .all(|filter| matches!(filter.prefix, 1..=128))
}
