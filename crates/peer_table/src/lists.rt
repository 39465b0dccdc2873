//! What is copied of leases in the order granted, those that have left among them.

ghost use Rattle.std.specs.Prelude.{◌≡◌, ◌++◌, filter, length, map, take, OnOk};
ghost use Rattle.std.specs.List.{AllByRecursion};
ghost use Rattle.pcp_base.specs.Records.{IsWellFormedRecord};
ghost use Rattle.pcp_base.specs.Snapshots.{peer_record};
ghost use Rattle.ordered_index.specs.Aged.{AreBoth, aged};
ghost use Rattle.peer_table.specs.PeerLists.{is_live_peer};
ghost use Rattle.peer_table.specs.Kept.{lease_with, live_with};

use ordered_index::{Slots, numbers_of_both};
use pcp_base::{Change, Memory, Moment, PeerLease, Record};
use record_sink::RecordSink;
use std::alloc::AllocError;
use std::collections::BTreeMap;

/// The lease with a number: one that is looked up, or one that has left.
fn lease_with(
    leases: &Slots<PeerLease>,
    past: &BTreeMap<u64, PeerLease>,
    number: u64,
) -> Option<PeerLease>
    ensures { result ≡ lease_with leases.now past.now number }
{
    match leases.get(&number) {
        Some(lease) => Some(*lease),
        None => past.get(&number).copied(),
    }
}

/// The same where it is live at `m`.
fn live_with(
    leases: &Slots<PeerLease>,
    past: &BTreeMap<u64, PeerLease>,
    m: Moment,
    number: u64,
) -> Option<PeerLease>
    ensures { result ≡ live_with m leases.now past.now number }
{
    let Some(lease) = lease_with(leases, past, number) else {
        return None;
    };
    if lease.is_live(m) { Some(lease) } else { None }
}

/// Appends the leases that are live at `m`, in the order of their numbers. Where memory is wanting,
/// some of them may stand behind the old ones.
pub(crate) fn append_live(
    leases: &Slots<PeerLease>,
    past: &BTreeMap<u64, PeerLease>,
    m: Moment,
    out: &mut Vec<PeerLease>,
) -> Result<(), AllocError>
    requires { AreBoth leases.now past.now }
    ensures ok { OnOk result (out.new.items
        ≡ out.old.items ++ filter (is_live_peer m) (aged leases.now past.now).all) }
    ensures old { take (length out.old.items) out.new.items ≡ out.old.items }
{
    out.extend(
        numbers_of_both(leases, past)?
            .iter()
            .filter_map(|number| live_with(leases, past, m, *number)),
    )
}

/// Hands on a record at `m` for each lease that is live then, in the order of their numbers.
pub(crate) fn append_records<K: RecordSink>(
    leases: &Slots<PeerLease>,
    past: &BTreeMap<u64, PeerLease>,
    m: Moment,
    out: &mut K,
) -> Result<(), Memory>
    requires both { AreBoth leases.now past.now }
    requires formed { AllByRecursion IsWellFormedRecord
        (map (peer_record m) (filter (is_live_peer m) (aged leases.now past.now).all)) }
    ensures { OnOk result (K.taken out.new ≡ K.taken out.old
        ++ map (peer_record m) (filter (is_live_peer m) (aged leases.now past.now).all)) }
{
    let numbers = numbers_of_both(leases, past)?;
    for number in &numbers {
        if let Some(lease) = live_with(leases, past, m, *number) {
            out.take(&Record {
                moment: m,
                change: Change::Peer(lease),
            })?;
        }
    }
    Ok(())
}
