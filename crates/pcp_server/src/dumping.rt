//! The journals of a configuration are dumped.
ghost use Rattle.std.specs.Prelude.{◌≡◌, ◌≢◌, ◌≤◌, ℕ, length};
ghost use Rattle.pcp_base.specs.Configs.{IsConfig};
ghost use Rattle.pcp_base.specs.declared.configs.TheConstants.{MOST_EXTERNALS};
ghost use Rattle.pcp_io.specs.Faults.{HasRisen};
ghost use Rattle.journal_dump.specs.Dumps.{HasPairFault};
ghost use Rattle.server_commands.specs.declared.statuses.Status.TheVariants.{DiskFault, ReadFault, WordsRefused, WriteFault};
ghost use Rattle.pcp_server.specs.Dumped.{Dumps, DumpsServed};
ghost use Rattle.pcp_server.specs.Outsides.{HaveNotFallen, disks_by};

use crate::statuses::{undumped_as, unread_as};
use config_source::config_of;
use journal_dump::dump;
use lease_disk::{DiskPair, LeaseDisk};
use pcp_base::Config;
use pcp_io::{Sink, Source};
use server_commands::Status;
use std::alloc::Global;

/// Dumps the journals of this configuration, which stand in the first pairs.
fn dump_first<W: Sink, D: LeaseDisk>(
    alloc: Global,
    config: &Config,
    out: &mut W,
    pairs: &mut [DiskPair<D>],
) -> Status
    requires config { IsConfig config.now }
    requires enough { length config.now.externals ≤ length pairs.old }
    ensures served { DumpsServed
        (disks_by D.tells D.seen D.moment D.left_since D.may_leave D.faults) config.now
        (record { out = out.old; held = W.held out.old; pairs = pairs.old })
        (record { out = out.new; held = W.held out.new; pairs = pairs.new }) result }
    ensures write_fault { result ≡ WriteFault → HasRisen (W.faults out.old) (W.faults out.new) }
    ensures disk_fault { (shard : ℕ) → result ≡ DiskFault shard →
        HasPairFault D.faults pairs.old pairs.new shard }
    ensures writes { W.faults out.old ≤ W.faults out.new }
    ensures disks { HaveNotFallen D.faults pairs.old pairs.new }
    ensures no_read { result ≢ ReadFault }
    ensures words { result ≢ WordsRefused }
{
    let externals = config.externals.items();
    let (front, _unused) = pairs.split_at_mut(externals.len());
    match dump(alloc, externals, front, out) {
        Ok(()) => Status::Done,
        Err(fault) => undumped_as(fault),
    }
}

/// Dumps the journals of this configuration.
fn dump_served<W: Sink, D: LeaseDisk + Drop>(
    alloc: Global,
    config: &Config,
    out: &mut W,
    disks: Vec<DiskPair<D>>,
) -> (Status, Vec<DiskPair<D>>)
    requires config { IsConfig config.now }
    requires enough { length config.now.externals ≤ length disks.items }
    ensures served { DumpsServed
        (disks_by D.tells D.seen D.moment D.left_since D.may_leave D.faults) config.now
        (record { out = out.old; held = W.held out.old; pairs = disks.items })
        (record { out = out.new; held = W.held out.new; pairs = result.1.items }) result.0 }

    // A fault is told only where a count of faults rose.
    ensures write_fault { result.0 ≡ WriteFault → HasRisen (W.faults out.old) (W.faults out.new) }
    ensures disk_fault { (shard : ℕ) → result.0 ≡ DiskFault shard →
        HasPairFault D.faults disks.items result.1.items shard }
    ensures writes { W.faults out.old ≤ W.faults out.new }
    ensures disks { HaveNotFallen D.faults disks.items result.1.items }
    ensures no_read { result.0 ≢ ReadFault }
    ensures words { result.0 ≢ WordsRefused }
{
    let mut disks = disks;
    let status = dump_first(alloc, config, out, &mut disks);
    (status, disks)
}

/// `dump`: writes what the journals hold. No disk is written, cut or synced.
pub(crate) fn run_dump<C: Source, W: Sink, D: LeaseDisk + Drop>(
    alloc: Global,
    config: &mut C,
    out: &mut W,
    disks: Vec<DiskPair<D>>,
) -> (Status, Vec<DiskPair<D>>)
    requires pairs { MOST_EXTERNALS ≤ length disks.items }
    ensures dumps { Dumps
        (disks_by D.tells D.seen D.moment D.left_since D.may_leave D.faults)
        (C.left config.old) (C.left config.new)
        (record { out = out.old; held = W.held out.old; pairs = disks.items })
        (record { out = out.new; held = W.held out.new; pairs = result.1.items }) result.0 }

    // A fault is told only where a count of faults rose.
    ensures read_fault { result.0 ≡ ReadFault →
        HasRisen (C.faults config.old) (C.faults config.new) }
    ensures write_fault { result.0 ≡ WriteFault → HasRisen (W.faults out.old) (W.faults out.new) }
    ensures disk_fault { (shard : ℕ) → result.0 ≡ DiskFault shard →
        HasPairFault D.faults disks.items result.1.items shard }
    ensures reads { C.faults config.old ≤ C.faults config.new }
    ensures writes { W.faults out.old ≤ W.faults out.new }
    ensures disks { HaveNotFallen D.faults disks.items result.1.items }
    ensures words { result.0 ≢ WordsRefused }
{
    match config_of(alloc, config) {
        Ok(served) => dump_served(alloc, &served, out, disks),
        Err(fault) => (unread_as(fault), disks),
    }
}
