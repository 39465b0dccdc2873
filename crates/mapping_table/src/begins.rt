//! Leases of an address and a protocol, one after the other by their first ports.

ghost use Rattle.std.specs.Prelude.{◌≡◌, ◌≤◌, ◌<◌, ◌+◌, ◌-◌, ◌*◌, true, length, IfSome};
ghost use Rattle.std.specs.Option.{option_copied, option_map};
ghost use Rattle.std.specs.BTreeMap.{get, values};
ghost use Rattle.step_count.specs.Levels.{levels};
ghost use Rattle.ordered_index.specs.Orders.{place_cmp, IsFirst};
ghost use Rattle.mapping_table.specs.MapLists.{is_live_map};
ghost use Rattle.mapping_table.specs.Kept.{AreKeptMaps, BeginsFirst};

use crate::bare::BareLease;
use crate::looks::{lease_at, look};
use ordered_index::{Owned, Place, is_beside, place_of, port_in};
use pcp_base::{Endpoint, Moment};
use std::collections::BTreeMap;
use std::sync::ledger::Ledger;
use step_count::Steps;

/// The first key from this place on, and the number under it.
fn entry_from(keys: &BTreeMap<Place, u64>, place: Place) -> Option<(Place, u64)>
    ensures first { IsFirst place_cmp keys.now place (option_map (λ entry. entry.0) result) }
    ensures number { IfSome result (λ entry. get place_cmp keys.now entry.0 ≡ Some entry.1) }
{
    let Some((first, number)) = keys.range(place..).next() else {
        return None;
    };
    Some((*first, *number))
}

/// The lease of the endpoint's address and protocol that begins first from this port on and before
/// the end, live or not.
fn first_lease<'a, L: Ledger>(
    kept: &'a Owned<BareLease, Place>,
    endpoint: &Endpoint,
    from: u16,
    end: u32,
    steps: &mut Steps<L>,
) -> Option<&'a BareLease>
    requires { AreKeptMaps kept.now }
    ensures first { BeginsFirst (λ l. true) endpoint.now from end (values kept.now.leases)
        (option_copied result) }
    ensures steps { steps.new ≤ steps.old + 2 * levels (length (values kept.now.leases)) }
{
    look(kept, steps);
    let start = place_of(&Endpoint {
        port: from,
        ..*endpoint
    });
    let Some(entry) = entry_from(kept.keys(), start) else {
        return None;
    };
    let (place, number) = entry;
    if !is_beside(place, endpoint) || end <= u32::from(port_in(place)) {
        return None;
    }
    lease_at(kept, number, steps)
}

/// The same of the leases that are live at `m`. Each one that it passes has another first port.
pub(crate) fn first_live<'a, L: Ledger>(
    kept: &'a Owned<BareLease, Place>,
    endpoint: &Endpoint,
    from: u32,
    end: u32,
    m: Moment,
    steps: &mut Steps<L>,
) -> Option<&'a BareLease>
    requires kept { AreKeptMaps kept.now }
    requires before { from ≤ end }
    requires within { end ≤ 65536 }
    ensures first { BeginsFirst (is_live_map m) endpoint.now from end (values kept.now.leases)
        (option_copied result) }
    ensures steps { steps.new ≤ steps.old
        + 2 * (end - from) * levels (length (values kept.now.leases)) }
{
    let mut at = from;
    while at < end {
        let Some(lease) = first_lease(kept, endpoint, at as u16, end, steps) else {
            return None;
        };
        if lease.is_live(m) {
            return Some(lease);
        }
        at = u32::from(lease.internal()) + 1;
    }
    None
}
