//! Leases of a table that another one may overlap.

ghost use Rattle.std.specs.Prelude.{◌≡◌, ◌≤◌, ◌+◌, ◌*◌, length};
ghost use Rattle.std.specs.Option.{option_copied};
ghost use Rattle.std.specs.BTreeMap.{values};
ghost use Rattle.step_count.specs.Levels.{levels};
ghost use Rattle.ordered_index.specs.Orders.{place_cmp, port_at, port_cmp};
ghost use Rattle.mapping_table.specs.MapLists.{meet_inside, meet_outside, IsOverlapped};
ghost use Rattle.mapping_table.specs.Kept.{AreKeptMaps, place_of_lease, port_of_lease, overlapped_key, is_renewed, IsNearest, TellsMet};

use crate::bare::BareLease;
use crate::looks::{lease_at, lease_in, look};
use ordered_index::{External, Owned, Place};
use pcp_base::Endpoint;
use std::sync::ledger::Ledger;
use step_count::Steps;

/// The key of what was looked up, where the lease overlaps it.
pub(crate) fn overlapped_key(lease: &BareLease, found: Option<&BareLease>) -> Option<Endpoint>
    ensures { result ≡ overlapped_key lease.now (option_copied found.entry) }
{
    let Some(other) = found else {
        return None;
    };
    if lease.overlaps(other) {
        Some(other.first_endpoint())
    } else {
        None
    }
}

/// Whether what was looked up has the key of the lease and owns its first external port.
pub(crate) fn is_renewed(lease: &BareLease, found: Option<&BareLease>) -> bool
    ensures { result ≡ is_renewed lease.now (option_copied found.entry) }
{
    match found {
        Some(other) => other.has_key_of(lease) && other.owns(lease.protocol(), lease.external()),
        None => false,
    }
}

/// The lease whose first endpoint has the last place up to this one.
fn nearest_place<'a, L: Ledger>(
    kept: &'a Owned<BareLease, Place>,
    place: Place,
    steps: &mut Steps<L>,
) -> Option<&'a BareLease>
    requires { AreKeptMaps kept.now }
    ensures nearest { IsNearest place_cmp place_of_lease place (values kept.now.leases)
        (option_copied result) }
    ensures steps { steps.new ≤ steps.old + 2 * levels (length (values kept.now.leases)) }
{
    look(kept, steps);
    let Some(number) = kept.last_number(place) else {
        return None;
    };
    lease_at(kept, number, steps)
}

/// The lease whose first external port is the last one up to this one.
fn nearest_port<'a, L: Ledger>(
    kept: &'a Owned<BareLease, Place>,
    port: External,
    steps: &mut Steps<L>,
) -> Option<&'a BareLease>
    requires { AreKeptMaps kept.now }
    ensures nearest { IsNearest port_cmp port_of_lease (port_at port.0 port.1)
        (values kept.now.leases) (option_copied result) }
    ensures steps { steps.new ≤ steps.old + 2 * levels (length (values kept.now.leases)) }
{
    look(kept, steps);
    let Some(slot) = kept.last_slot(port) else {
        return None;
    };
    lease_in(kept, slot, steps)
}

/// The lease that begins last among those that begin up to the last endpoint. Where that one isn't
/// overlapped inside, no other is, as those that begin before it end before it too.
fn last_inside<'a, L: Ledger>(
    kept: &'a Owned<BareLease, Place>,
    lease: &BareLease,
    steps: &mut Steps<L>,
) -> Option<&'a BareLease>
    requires { AreKeptMaps kept.now }
    ensures met { TellsMet meet_inside lease.now (values kept.now.leases) (option_copied result) }
    ensures steps { steps.new ≤ steps.old + 2 * levels (length (values kept.now.leases)) }
{
    nearest_place(kept, lease.last_place(), steps)
}

/// The same outside, by external ports. There the lease with the same key may have other ports, so
/// that the one before it is asked for.
fn last_outside<'a, L: Ledger>(
    kept: &'a Owned<BareLease, Place>,
    lease: &BareLease,
    steps: &mut Steps<L>,
) -> Option<&'a BareLease>
    requires { AreKeptMaps kept.now }
    ensures met { TellsMet meet_outside lease.now (values kept.now.leases) (option_copied result) }
    ensures steps { steps.new ≤ steps.old + 4 * levels (length (values kept.now.leases)) }
{
    let Some(last) = nearest_port(kept, lease.last_port(), steps) else {
        return None;
    };
    if !last.has_key_of(lease) {
        return Some(last);
    }
    nearest_port(kept, last.port_before(), steps)
}

/// The first endpoint of a lease that this one overlaps, however many ports it has.
pub(crate) fn overlapping_set<L: Ledger>(
    kept: &Owned<BareLease, Place>,
    lease: &BareLease,
    steps: &mut Steps<L>,
) -> Option<Endpoint>
    requires { AreKeptMaps kept.now }
    ensures overlapped { IsOverlapped lease.now (values kept.now.leases) result }
    ensures steps { steps.new ≤ steps.old + 6 * levels (length (values kept.now.leases)) }
{
    let Some(key) = overlapped_key(lease, last_inside(kept, lease, steps)) else {
        return overlapped_key(lease, last_outside(kept, lease, steps));
    };
    Some(key)
}
