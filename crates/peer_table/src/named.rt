//! The ports that leases name behind an endpoint's.

ghost use Rattle.std.specs.Prelude.{◌≡◌, ◌≤◌, ◌+◌, ◌-◌, ◌*◌, length, filter};
ghost use Rattle.std.specs.List.{list_any};
ghost use Rattle.std.specs.BTreeMap.{values};
ghost use Rattle.step_count.specs.Levels.{levels};
ghost use Rattle.pcp_base.specs.declared.leases.TheConstants.{MOST_PEERS};
ghost use Rattle.peer_table.specs.PeerLists.{is_live_peer, is_live_of, IsNextNamed};
ghost use Rattle.peer_table.specs.Kept.{AreKeptPeers};

use crate::endpoints::first_live;
use crate::keys::{Key, Opening, bound_at, port_beside};
use crate::looks::look;
use ordered_index::{Numbered, first_from};
use pcp_base::{Endpoint, Moment, PeerLease};
use std::sync::ledger::Ledger;
use step_count::Steps;

/// The least port above the endpoint's and below `end` that a lease of its address and protocol
/// names, live or not, by one look.
fn next_named<L: Ledger>(
    kept: &Numbered<PeerLease, Key, Opening>,
    endpoint: &Endpoint,
    end: u32,
    steps: &mut Steps<L>,
) -> Option<u16>
    requires { AreKeptPeers kept.now }
    ensures next { IsNextNamed endpoint.now end (values kept.now.leases) result }
    ensures steps { steps.new ≡ steps.old + levels (length (values kept.now.leases)) }
{
    look(kept, steps);
    let Some(first) = first_from(&kept.keys, bound_at(endpoint, 2)) else {
        return None;
    };
    let Some(port) = port_beside(first, endpoint) else {
        return None;
    };
    if end <= u32::from(port) {
        return None;
    }
    Some(port)
}

/// Whether a lease of the endpoint is live at `m`. It looks at the leases of the endpoint alone.
fn has_live<L: Ledger>(
    kept: &Numbered<PeerLease, Key, Opening>,
    endpoint: &Endpoint,
    m: Moment,
    steps: &mut Steps<L>,
) -> bool
    requires { AreKeptPeers kept.now }
    ensures live { result ≡ list_any (is_live_of endpoint.now m) (values kept.now.leases) }
    ensures steps { steps.new
        ≤ steps.old + (1 + MOST_PEERS) * levels (length (values kept.now.leases)) }
{
    let from = bound_at(endpoint, 0);
    let to = bound_at(endpoint, 2);
    first_live(kept, from, to, m, steps).is_some()
}

/// The least port above the endpoint's and below `end` that a lease of its address and protocol
/// names which is live at `m`. It looks at the leases of one port after the other.
pub(crate) fn next_live<L: Ledger>(
    kept: &Numbered<PeerLease, Key, Opening>,
    endpoint: &Endpoint,
    end: u32,
    m: Moment,
    steps: &mut Steps<L>,
) -> Option<u16>
    requires { AreKeptPeers kept.now }
    ensures next { IsNextNamed endpoint.now end
        (filter (is_live_peer m) (values kept.now.leases)) result }
    ensures steps { steps.new
        ≤ steps.old + ((2 + MOST_PEERS) * (end - endpoint.now.port) + 1)
        * levels (length (values kept.now.leases)) }
{
    let mut at = *endpoint;
    while let Some(port) = next_named(kept, &at, end, steps) {
        at.port = port;
        if has_live(kept, &at, m, steps) {
            return Some(port);
        }
    }
    None
}
