//! Records that were pushed and aren't published yet.
ghost use Rattle.std.specs.Prelude.{◌≡◌, [], unwrap_or, IfOk};
ghost use Rattle.std.specs.Arc.{arc_value};
ghost use Rattle.std.specs.Option.{option_map};
ghost use Rattle.lane_index.specs.Applying.{filters_in};

use pcp_base::{Change, Filters, Memory, Record};
use std::alloc::Global;
use std::sync::Arc;

/// A record, with the memory that the filters of its lease take.
#[derive(Drop)]
pub struct Pushed {
    pub(crate) kept: Record,
    pub(crate) filters: Option<Arc<Filters>>,
    ghost same: { unwrap_or (option_map arc_value filters) [] ≡ filters_in kept.change },
}

/// Filters in memory of their own; none where there are none.
pub(crate) fn kept_filters(alloc: Global, filters: &Filters) -> Result<Option<Arc<Filters>>, Memory>
    ensures { IfOk result (λ o. unwrap_or (option_map arc_value o) [] ≡ filters.now) }
{
    if filters.items().is_empty() {
        return Ok(None);
    }
    Ok(Some(Arc::new(alloc, *filters)?))
}

impl Pushed {
    /// A record with the memory that it takes.
    pub(crate) fn of(alloc: Global, kept: &Record) -> Result<Pushed, Memory>
        ensures { IfOk result (λ p. p.kept ≡ kept.now) }
    {
        let filters = lease_filters(alloc, &kept.change)?;
        Ok(Pushed {
            kept: *kept,
            filters,
        })
    }
}

/// The filters of the lease of a record.
fn lease_filters(alloc: Global, change: &Change) -> Result<Option<Arc<Filters>>, Memory>
    ensures { IfOk result (λ o. unwrap_or (option_map arc_value o) [] ≡ filters_in change.now) }
{
    match change {
        Change::Map(lease) => kept_filters(alloc, &lease.filters),
        _ => Ok(None),
    }
}
