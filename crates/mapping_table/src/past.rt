//! Leases that have left, with the filters of those that have any.

ghost use Rattle.std.specs.Prelude.{◌≡◌, [], nat_lt, None, Ok, IfOk};
ghost use Rattle.pcp_base.specs.Owners.{owns};
ghost use Rattle.pcp_base.specs.Tables.{covers};
ghost use Rattle.std.specs.Option.{option_copied, option_map};
ghost use Rattle.mapping_table.specs.Kept.{listed, with_filters};

use crate::bare::BareLease;
use pcp_base::{Endpoint, Filters, MapLease, Moment, Protocol};
use std::alloc::{AllocError, Global};
use std::marker::Model;

/// A lease that has left. Filters that it has stand apart, as most leases have none.
#[derive(Drop)]
pub(crate) struct PastLease {
    lease: BareLease,
    filters: Option<Box<Filters>>,
}

impl Model for PastLease {
    ghost use Rattle.std.specs.Option.{option_map};
    ghost use Rattle.pcp_base.specs.declared.leases.MapLease.{MapLease};
    ghost use Rattle.mapping_table.specs.Kept.{listed, with_filters};

    ghost Value = { MapLease };

    ghost view = { λ l. with_filters (listed (option_map (λ b. b.value) l.filters)) l.lease };
}

/// Filters that stand apart, None where they are none. The one error is want of memory.
fn apart(alloc: Global, filters: Filters) -> Result<Option<Box<Filters>>, AllocError>
    ensures same { IfOk result (λ apart. listed (option_map (λ b. b.value) apart) ≡ filters) }
    ensures none { filters ≡ [] → result ≡ Ok None }
{
    if filters.items().is_empty() {
        return Ok(None);
    }
    Ok(Some(Box::new(alloc, filters)?))
}

impl PastLease {
    /// The lease with these filters. The one error is want of memory.
    pub(crate) fn of(
        alloc: Global,
        lease: &BareLease,
        filters: Filters,
    ) -> Result<PastLease, AllocError>
        ensures { IfOk result (λ past. past ≡ with_filters filters lease.now) }
    {
        Ok(PastLease {
            lease: *lease,
            filters: apart(alloc, filters)?,
        })
    }

    /// The lease with its filters.
    pub(crate) fn whole(&self) -> MapLease
        ensures { result ≡ self.now }
    {
        match &self.filters {
            Some(filters) => self.lease.with(**filters),
            None => self.lease.with(Filters::none()),
        }
    }

    /// Whether the endpoint's port is one of the internal ports.
    pub(crate) fn covers(&self, endpoint: &Endpoint) -> bool
        ensures { result ≡ covers self.now endpoint.now }
    {
        self.lease.covers(endpoint)
    }

    /// Whether it owns the external port.
    pub(crate) fn owns(&self, protocol: Protocol, port: u16) -> bool
        ensures { result ≡ owns protocol port self.now }
    {
        self.lease.owns(protocol, port)
    }

    /// Whether it is live at `m`.
    pub(crate) fn is_live(&self, m: Moment) -> bool
        ensures { result ≡ nat_lt m self.now.expiry }
    {
        self.lease.is_live(m)
    }
}

/// The lease that was found, with its filters.
pub(crate) fn whole_past(found: Option<&PastLease>) -> Option<MapLease>
    ensures { result ≡ option_copied found.entry }
{
    let Some(lease) = found else {
        return None;
    };
    Some(lease.whole())
}
