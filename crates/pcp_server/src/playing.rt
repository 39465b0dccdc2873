//! A script is played over the journals of a configuration.
ghost use Rattle.std.specs.Prelude.{◌≡◌, ◌≢◌, ◌≤◌, ◌⊎◌, ℕ, length};
ghost use Rattle.pcp_base.specs.Configs.{IsConfig};
ghost use Rattle.pcp_base.specs.declared.configs.TheConstants.{MOST_EXTERNALS};
ghost use Rattle.pcp_io.specs.Faults.{HasRisen};
ghost use Rattle.journal_dump.specs.Dumps.{HasPairFault};
ghost use Rattle.server_commands.specs.declared.statuses.Status.TheVariants.{DiskFault, ReadFault, WordsRefused, WriteFault};
ghost use Rattle.pcp_server.specs.Outsides.{HaveNotFallen, disks_by};
ghost use Rattle.pcp_server.specs.Played.{Plays, PlaysServed};

use crate::statuses::{played_as, unopened_as, unread_as};
use crate::updating::tell_updates;
use config_source::config_of;
use house_lines::{HouseLines, lines_make_histories};
use lease_disk::{DiskPair, LeaseDisk};
use lease_histories::histories_keep_promises;
use lease_house::SoloHouse;
use pcp_base::{Config, Moment};
use pcp_io::{Sink, Source};
use script_player::play;
use server_commands::Status;
use std::alloc::Global;

/// Opens the journals of this configuration, tells the updates and plays the script.
fn play_served<S: Source, W: Sink, D: LeaseDisk + Drop>(
    alloc: Global,
    config: &Config,
    start: Moment,
    input: &mut S,
    out: &mut W,
    disks: Vec<DiskPair<D>>,
) -> (Status, Vec<DiskPair<D>>)
    requires config { IsConfig config.now }
    requires enough { length config.now.externals ≤ length disks.items }
    ensures served { PlaysServed
        (disks_by D.tells D.seen D.moment D.left_since D.may_leave D.faults) config.now start
        (record { source = input.old; left = S.left input.old })
        (record { source = input.new; left = S.left input.new })
        (record { out = out.old; held = W.held out.old; pairs = disks.items })
        (record { out = out.new; held = W.held out.new; pairs = result.1.items }) result.0 }

    // A fault is told only where a count of faults rose.
    ensures read_fault { result.0 ≡ ReadFault → HasRisen (S.faults input.old) (S.faults input.new) }
    ensures write_fault { result.0 ≡ WriteFault → HasRisen (W.faults out.old) (W.faults out.new) }
    ensures disk_fault { (shard : ℕ) → result.0 ≡ DiskFault shard →
        HasPairFault D.faults disks.items result.1.items shard }
    ensures reads { S.faults input.old ≤ S.faults input.new }
    ensures writes { W.faults out.old ≤ W.faults out.new }
    ensures disks { HaveNotFallen D.faults disks.items result.1.items }
    ensures words { result.0 ≢ WordsRefused }
{
    let house = match SoloHouse::begin(alloc, config, disks, start) {
        Ok(house) => house,
        Err(refused) => return (unopened_as(refused.fault), refused.disks),
    };
    if let Err(status) = tell_updates(alloc, &house, out) {
        return (status, house.end());
    }
    lines_make_histories();
    histories_keep_promises();
    let mut lines = HouseLines::of(house);
    let status = play(alloc, input, &mut lines, out);
    (played_as(status), lines.end())
}

/// `play`: opens the journals at `start`, and answers the script.
pub(crate) fn run_play<C: Source, S: Source, W: Sink, D: LeaseDisk + Drop>(
    alloc: Global,
    start: Moment,
    config: &mut C,
    input: &mut S,
    out: &mut W,
    disks: Vec<DiskPair<D>>,
) -> (Status, Vec<DiskPair<D>>)
    requires pairs { MOST_EXTERNALS ≤ length disks.items }
    ensures plays { Plays
        (disks_by D.tells D.seen D.moment D.left_since D.may_leave D.faults) start
        (C.left config.old) (C.left config.new)
        (record { source = input.old; left = S.left input.old })
        (record { source = input.new; left = S.left input.new })
        (record { out = out.old; held = W.held out.old; pairs = disks.items })
        (record { out = out.new; held = W.held out.new; pairs = result.1.items }) result.0 }

    // A fault is told only where a count of faults rose.
    ensures read_fault { result.0 ≡ ReadFault → HasRisen (C.faults config.old) (C.faults config.new)
        ⊎ HasRisen (S.faults input.old) (S.faults input.new) }
    ensures write_fault { result.0 ≡ WriteFault → HasRisen (W.faults out.old) (W.faults out.new) }
    ensures disk_fault { (shard : ℕ) → result.0 ≡ DiskFault shard →
        HasPairFault D.faults disks.items result.1.items shard }
    ensures config_reads { C.faults config.old ≤ C.faults config.new }
    ensures reads { S.faults input.old ≤ S.faults input.new }
    ensures writes { W.faults out.old ≤ W.faults out.new }
    ensures disks { HaveNotFallen D.faults disks.items result.1.items }
    ensures words { result.0 ≢ WordsRefused }
{
    match config_of(alloc, config) {
        Ok(served) => play_served(alloc, &served, start, input, out, disks),
        Err(fault) => (unread_as(fault), disks),
    }
}
