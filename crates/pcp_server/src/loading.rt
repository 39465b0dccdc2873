//! Generated requests are served over the journals of a configuration.
ghost use Rattle.std.specs.Prelude.{◌≡◌, ◌≢◌, ◌≤◌, ℕ, length};
ghost use Rattle.pcp_base.specs.Configs.{IsConfig};
ghost use Rattle.pcp_base.specs.declared.configs.TheConstants.{MOST_EXTERNALS};
ghost use Rattle.pcp_io.specs.Faults.{HasRisen};
ghost use Rattle.journal_dump.specs.Dumps.{HasPairFault};
ghost use Rattle.server_commands.specs.declared.statuses.Status.TheVariants.{DiskFault, ReadFault, WordsRefused, WriteFault};
ghost use Rattle.pcp_server.specs.Loaded.{Loads, LoadsServed};
ghost use Rattle.pcp_server.specs.Outsides.{HaveNotFallen, disks_by};

use crate::statuses::{loaded_as, unopened_as, unread_as};
use config_source::config_of;
use house_lines::{HouseLines, lines_make_histories};
use lease_disk::{DiskPair, LeaseDisk};
use lease_histories::{calls_make_histories, histories_keep_promises};
use lease_house::SoloHouse;
use load_player::play_load;
use pcp_base::Config;
use pcp_io::{Sink, Source};
use server_commands::{LoadPlan, Status};
use std::alloc::Global;

/// Opens the journals of this configuration, and serves the requests of the plan.
fn load_served<W: Sink, D: LeaseDisk + Drop>(
    alloc: Global,
    config: &Config,
    plan: LoadPlan,
    out: &mut W,
    disks: Vec<DiskPair<D>>,
) -> (Status, Vec<DiskPair<D>>)
    requires config { IsConfig config.now }
    requires enough { length config.now.externals ≤ length disks.items }
    ensures served { LoadsServed
        (disks_by D.tells D.seen D.moment D.left_since D.may_leave D.faults) config.now plan
        (record { out = out.old; held = W.held out.old; pairs = disks.items })
        (record { out = out.new; held = W.held out.new; pairs = result.1.items }) result.0 }

    // A fault is told only where a count of faults rose.
    ensures write_fault { result.0 ≡ WriteFault → HasRisen (W.faults out.old) (W.faults out.new) }
    ensures disk_fault { (shard : ℕ) → result.0 ≡ DiskFault shard →
        HasPairFault D.faults disks.items result.1.items shard }
    ensures writes { W.faults out.old ≤ W.faults out.new }
    ensures disks { HaveNotFallen D.faults disks.items result.1.items }
    ensures no_read { result.0 ≢ ReadFault }
    ensures words { result.0 ≢ WordsRefused }
{
    let house = match SoloHouse::begin(alloc, config, disks, plan.start) {
        Ok(house) => house,
        Err(refused) => return (unopened_as(refused.fault), refused.disks),
    };
    calls_make_histories();
    lines_make_histories();
    histories_keep_promises();
    let mut lines = HouseLines::of(house);
    let status = play_load(alloc, plan, &mut lines, out);
    (loaded_as(status), lines.end())
}

/// `load`: opens the journals, serves generated requests, and writes their summary.
pub(crate) fn run_load<C: Source, W: Sink, D: LeaseDisk + Drop>(
    alloc: Global,
    plan: LoadPlan,
    config: &mut C,
    out: &mut W,
    disks: Vec<DiskPair<D>>,
) -> (Status, Vec<DiskPair<D>>)
    requires pairs { MOST_EXTERNALS ≤ length disks.items }
    ensures loads { Loads
        (disks_by D.tells D.seen D.moment D.left_since D.may_leave D.faults) plan
        (C.left config.old) (C.left config.new)
        (record { out = out.old; held = W.held out.old; pairs = disks.items })
        (record { out = out.new; held = W.held out.new; pairs = result.1.items }) result.0 }

    // A fault is told only where a count of faults rose.
    ensures read_fault { result.0 ≡ ReadFault →
        HasRisen (C.faults config.old) (C.faults config.new) }
    ensures write_fault { result.0 ≡ WriteFault → HasRisen (W.faults out.old) (W.faults out.new) }
    ensures disk_fault { (shard : ℕ) → result.0 ≡ DiskFault shard →
        HasPairFault D.faults disks.items result.1.items shard }
    ensures reads { C.faults config.old ≤ C.faults config.new }
    ensures writes { W.faults out.old ≤ W.faults out.new }
    ensures disks { HaveNotFallen D.faults disks.items result.1.items }
    ensures words { result.0 ≢ WordsRefused }
{
    match config_of(alloc, config) {
        Ok(served) => load_served(alloc, &served, plan, out, disks),
        Err(fault) => (unread_as(fault), disks),
    }
}
