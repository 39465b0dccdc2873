//! What is copied of leases in the order granted, those that have left among them.

ghost use Rattle.std.specs.Prelude.{◌≡◌, ◌++◌, filter, length, map, take, OnOk};
ghost use Rattle.std.specs.List.{AllByRecursion};
ghost use Rattle.pcp_base.specs.Records.{IsWellFormedRecord};
ghost use Rattle.pcp_base.specs.Snapshots.{map_record};
ghost use Rattle.ordered_index.specs.Aged.{AreBoth};
ghost use Rattle.mapping_table.specs.MapLists.{is_live_map};
ghost use Rattle.mapping_table.specs.Kept.{all_maps, filters_at, lease_with, live_with};

use crate::bare::BareLease;
use crate::filters::whole;
use crate::past::{PastLease, whole_past};
use ordered_index::{Place, Slots, numbers_of_both};
use pcp_base::{Change, Filters, MapLease, Memory, Moment, Record};
use record_sink::RecordSink;
use std::alloc::AllocError;
use std::collections::BTreeMap;

/// The lease with a number: one that is looked up, with its filters, or one that has left.
fn lease_with(
    leases: &Slots<BareLease>,
    filters: &BTreeMap<Place, Filters>,
    past: &BTreeMap<u64, PastLease>,
    number: u64,
) -> Option<MapLease>
    ensures { result ≡ lease_with (filters_at filters.now) leases.now past.now number }
{
    match leases.get(&number) {
        Some(lease) => Some(whole(filters, lease)),
        None => whole_past(past.get(&number)),
    }
}

/// The same where it is live at `m`.
#[tactic(auto, unfolding(crate::specs::Kept::live_with))]
fn live_with(
    leases: &Slots<BareLease>,
    filters: &BTreeMap<Place, Filters>,
    past: &BTreeMap<u64, PastLease>,
    m: Moment,
    number: u64,
) -> Option<MapLease>
    ensures { result ≡ live_with m (filters_at filters.now) leases.now past.now number }
{
    let Some(lease) = lease_with(leases, filters, past, number) else {
        return None;
    };
    if lease.is_live(m) { Some(lease) } else { None }
}

/// Appends the leases that are live at `m`, in the order of their numbers. Where memory is wanting,
/// some of them may stand behind the old ones.
pub(crate) fn append_live(
    leases: &Slots<BareLease>,
    filters: &BTreeMap<Place, Filters>,
    past: &BTreeMap<u64, PastLease>,
    m: Moment,
    out: &mut Vec<MapLease>,
) -> Result<(), AllocError>
    requires { AreBoth leases.now past.now }
    ensures ok { OnOk result (out.new.items ≡ out.old.items ++ filter (is_live_map m)
        (all_maps (filters_at filters.now) leases.now past.now)) }
    ensures old { take (length out.old.items) out.new.items ≡ out.old.items }
{
    let numbers = numbers_of_both(leases, past)?;
    out.extend(
        numbers
            .iter()
            .filter_map(|number| live_with(leases, filters, past, m, *number)),
    )
}

/// Hands on a record at `m` for each lease that is live then, in the order of their numbers.
pub(crate) fn append_records<K: RecordSink>(
    leases: &Slots<BareLease>,
    filters: &BTreeMap<Place, Filters>,
    past: &BTreeMap<u64, PastLease>,
    m: Moment,
    out: &mut K,
) -> Result<(), Memory>
    requires both { AreBoth leases.now past.now }
    requires formed { AllByRecursion IsWellFormedRecord (map (map_record m)
        (filter (is_live_map m) (all_maps (filters_at filters.now) leases.now past.now))) }
    ensures { OnOk result (K.taken out.new ≡ K.taken out.old ++ map (map_record m)
        (filter (is_live_map m) (all_maps (filters_at filters.now) leases.now past.now))) }
{
    let numbers = numbers_of_both(leases, past)?;
    for number in &numbers {
        let Some(lease) = live_with(leases, filters, past, m, *number) else {
            continue;
        };
        out.take(&Record {
            moment: m,
            change: Change::Map(lease),
        })?;
    }
    Ok(())
}
