//! The records of what a state holds.
ghost use Rattle.std.specs.Prelude.{◌≡◌, ◌++◌, map, OnOk};
ghost use Rattle.std.specs.List.{AllByRecursion};
ghost use Rattle.pcp_base.specs.Records.{IsWellFormedRecord};
ghost use Rattle.pcp_base.specs.Snapshots.{end_record, map_record, peer_record};

use pcp_base::{Change, End, MapLease, Memory, Moment, PeerLease, Record};
use record_sink::RecordSink;

/// Hands on a record at `m` for each end.
pub(crate) fn add_end_records<K: RecordSink>(
    ends: &[End],
    m: Moment,
    out: &mut K,
) -> Result<(), Memory>
    requires { AllByRecursion IsWellFormedRecord (map (end_record m) ends.now) }
    ensures { OnOk result (K.taken out.new ≡ K.taken out.old ++ map (end_record m) ends.now) }
{
    for end in ends {
        out.take(&Record {
            moment: m,
            change: Change::Rest(end.endpoint, end.external, end.end),
        })?;
    }
    Ok(())
}

/// Hands on a record at `m` for each MAP lease.
pub(crate) fn add_map_records<K: RecordSink>(
    maps: &[MapLease],
    m: Moment,
    out: &mut K,
) -> Result<(), Memory>
    requires { AllByRecursion IsWellFormedRecord (map (map_record m) maps.now) }
    ensures { OnOk result (K.taken out.new ≡ K.taken out.old ++ map (map_record m) maps.now) }
{
    for lease in maps {
        out.take(&Record {
            moment: m,
            change: Change::Map(*lease),
        })?;
    }
    Ok(())
}

/// Hands on a record at `m` for each PEER lease.
pub(crate) fn add_peer_records<K: RecordSink>(
    peers: &[PeerLease],
    m: Moment,
    out: &mut K,
) -> Result<(), Memory>
    requires { AllByRecursion IsWellFormedRecord (map (peer_record m) peers.now) }
    ensures { OnOk result (K.taken out.new ≡ K.taken out.old ++ map (peer_record m) peers.now) }
{
    for lease in peers {
        out.take(&Record {
            moment: m,
            change: Change::Peer(*lease),
        })?;
    }
    Ok(())
}
