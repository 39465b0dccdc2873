//! The records that stand for a state by themselves.
ghost use Rattle.std.specs.Prelude.{◌≡◌, ◌++◌, ◌∷◌, [], map, IfOk, OnOk};
ghost use Rattle.pcp_base.specs.declared.records.Change.TheVariants.{Start};
ghost use Rattle.pcp_base.specs.Snapshots.{address_records, end_record, map_record, peer_record, snapshot};

use pcp_base::{Address, Change, End, MapLease, Moment, PeerLease, Record};
use plain_replay::PlainReplay;
use std::alloc::{AllocError, Global};

/// Appends a Start at the base, and the address.
fn put_start(
    out: &mut Vec<Record>,
    base: Moment,
    address: Option<Address>,
) -> Result<(), AllocError>
    ensures { OnOk result (out.new.items ≡ out.old.items
        ++ record { moment = base; change = Start } ∷ address_records base address) }
{
    out.push(Record {
        moment: base,
        change: Change::Start,
    })?;
    if let Some(address) = address {
        out.push(Record {
            moment: base,
            change: Change::Renumber(address),
        })?;
    }
    Ok(())
}

/// Appends a Rest at `m` for each end.
fn put_ends(out: &mut Vec<Record>, m: Moment, ends: &[End]) -> Result<(), AllocError>
    ensures { OnOk result (out.new.items ≡ out.old.items ++ map (end_record m) ends.now) }
{
    for end in ends {
        out.push(Record {
            moment: m,
            change: Change::Rest(end.endpoint, end.external, end.end),
        })?;
    }
    Ok(())
}

/// Appends a record at `m` for each MAP lease.
fn put_maps(out: &mut Vec<Record>, m: Moment, leases: &[MapLease]) -> Result<(), AllocError>
    ensures { OnOk result (out.new.items ≡ out.old.items ++ map (map_record m) leases.now) }
{
    for lease in leases {
        out.push(Record {
            moment: m,
            change: Change::Map(*lease),
        })?;
    }
    Ok(())
}

/// Appends a record at `m` for each PEER lease.
fn put_peers(out: &mut Vec<Record>, m: Moment, leases: &[PeerLease]) -> Result<(), AllocError>
    ensures { OnOk result (out.new.items ≡ out.old.items ++ map (peer_record m) leases.now) }
{
    for lease in leases {
        out.push(Record {
            moment: m,
            change: Change::Peer(*lease),
        })?;
    }
    Ok(())
}

/// Appends the snapshot of the state.
fn put_all(out: &mut Vec<Record>, replay: &PlainReplay) -> Result<(), AllocError>
    requires { out.old.items ≡ [] }
    ensures { OnOk result (out.new.items ≡ snapshot replay.now) }
{
    let last = replay.last();
    put_start(out, replay.base(), replay.address())?;
    out.push(Record {
        moment: last,
        change: Change::Mark,
    })?;
    put_ends(out, last, replay.ends())?;
    put_maps(out, last, replay.maps())?;
    put_peers(out, last, replay.peers())
}

/// The snapshot of the state.
pub(crate) fn snapshot_of(alloc: Global, replay: &PlainReplay) -> Result<Vec<Record>, AllocError>
    ensures { IfOk result (λ v. v.items ≡ snapshot replay.now) }
{
    let mut records = Vec::new(alloc);
    put_all(&mut records, replay)?;
    Ok(records)
}
