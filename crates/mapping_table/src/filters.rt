//! The filters of leases, by the places of their first endpoints.

ghost use Rattle.std.specs.Prelude.{◌≡◌, ◌≤◌, ◌+◌, OnOk, OnErr};
ghost use Rattle.std.specs.Option.{option_copied, option_map};
ghost use Rattle.step_count.specs.Levels.{levels};
ghost use Rattle.mapping_table.specs.Kept.{filters_at, place_of_lease, whole, HasSameFilters, MakesRoom, HasRoomAt, WritesFilters};

use crate::bare::BareLease;
use ordered_index::Place;
use pcp_base::{Filters, MapLease};
use std::alloc::AllocError;
use std::collections::BTreeMap;
use std::sync::ledger::Ledger;
use step_count::{Steps, levels};

/// The filters of the lease. The map is asked only where it has any.
pub(crate) fn filters_of(filters: &BTreeMap<Place, Filters>, lease: &BareLease) -> Filters
    ensures { result ≡ filters_at filters.now (place_of_lease lease.now) }
{
    if filters.is_empty() {
        return Filters::none();
    }
    match filters.get(&lease.place()) {
        Some(found) => *found,
        None => Filters::none(),
    }
}

/// The lease with its filters.
pub(crate) fn whole(filters: &BTreeMap<Place, Filters>, lease: &BareLease) -> MapLease
    ensures { result ≡ whole (filters_at filters.now) lease.now }
{
    lease.with(filters_of(filters, lease))
}

/// The lease that was found, with its filters, by a look into a map that has no more entries than
/// there are leases.
pub(crate) fn whole_by_look<L: Ledger>(
    filters: &BTreeMap<Place, Filters>,
    found: Option<&BareLease>,
    leases: usize,
    steps: &mut Steps<L>,
) -> Option<MapLease>
    ensures lease { result
        ≡ option_map (whole (filters_at filters.now)) (option_copied found.entry) }
    ensures steps { steps.new ≤ steps.old + levels leases }
{
    let Some(lease) = found else {
        return None;
    };
    steps.take(levels(leases));
    Some(whole(filters, lease))
}

/// Makes room for filters at a place, which changes none. The one error is want of memory, which
/// changes nothing.
pub(crate) fn make_room(
    filters: &mut BTreeMap<Place, Filters>,
    place: Place,
    wanted: &Filters,
) -> Result<(), AllocError>
    ensures ok { OnOk result (MakesRoom filters.old place wanted.now filters.new) }
    ensures err { OnErr result (HasSameFilters filters.old filters.new) }
{
    if wanted.items().is_empty() || filters.contains_key(&place) {
        return Ok(());
    }
    filters.insert(place, Filters::none())?;
    Ok(())
}

/// Writes filters where there is room, or takes out what stands there, where they are none.
pub(crate) fn write(filters: &mut BTreeMap<Place, Filters>, place: Place, wanted: Filters)
    requires { HasRoomAt filters.old place wanted }
    ensures { WritesFilters filters.old place wanted filters.new }
{
    if wanted.items().is_empty() {
        filters.remove(&place);
        return;
    }
    if let Some(found) = filters.get_mut(&place) {
        *found = wanted;
    }
}

/// Takes out room that nothing was written to, which changes no filters.
pub(crate) fn leave_room(filters: &mut BTreeMap<Place, Filters>, place: Place)
    ensures { WritesFilters filters.old place (filters_at filters.old place) filters.new }
{
    let Some(found) = filters.get(&place) else {
        return;
    };
    if found.items().is_empty() {
        filters.remove(&place);
    }
}
