//! Disks that were lost while their house was served.
ghost use Rattle.std.specs.Prelude.{◌≡◌, ◌≢◌, ◌<◌, ◌≤◌, length, zip, IfSome};
ghost use Rattle.std.specs.List.{position_from};
ghost use Rattle.pcp_base.specs.declared.configs.TheConstants.{MOST_EXTERNALS};
ghost use Rattle.server_commands.specs.declared.statuses.Status.TheVariants as Statuses;
ghost use Rattle.serve_runs.specs.Served.{first_lost, has_failed, is_lost, ended_as};

use job_workers::TallyRow;
use lease_disk::{DiskPair, LeaseDisk};
use server_commands::Status;

/// Whether a side of the pair lost a sync.
fn is_lost<D: LeaseDisk>(pair: &DiskPair<D>) -> bool
    ensures { result ≡ is_lost D.lost pair.now }
{
    pair.a.is_lost() || pair.b.is_lost()
}

/// Whether disks refused jobs of an external address, and a side of its pair is lost.
fn has_failed<D: LeaseDisk>(row: &TallyRow, pair: &DiskPair<D>) -> bool
    ensures { result ≡ has_failed D.lost (row.now, pair.now) }
{
    row.faulted > 0 && is_lost(pair)
}

/// The first external address that is so.
fn first_lost<D: LeaseDisk>(rows: &[TallyRow], pairs: &[DiskPair<D>]) -> Option<usize>
    ensures shard { result ≡ first_lost D.lost rows.now pairs.now }
    ensures bound { IfSome result (λ shard. shard < length rows.now) }
{
    rows.iter()
        .zip(pairs)
        .position(|(row, pair)| has_failed(row, pair))
}

/// The status of a house that was served to its end and whose tally is written.
pub(crate) fn ended_as<D: LeaseDisk>(rows: &[TallyRow], pairs: &[DiskPair<D>]) -> Status
    requires few { length rows.now ≤ MOST_EXTERNALS }
    ensures told { result ≡ ended_as (first_lost D.lost rows.now pairs.now) }
    ensures no_write { result ≢ Statuses.WriteFault }
{
    match first_lost(rows, pairs) {
        Some(shard) => Status::DiskFault(shard as u32),
        None => Status::Done,
    }
}
