//! The call that the program makes for each of these commands.
ghost use Rattle.std.specs.Prelude.{◌≡◌, ◌≢◌, ◌↔◌, ◌≤◌, ◌⊎◌, ℕ, length, map, string_bytes};
ghost use Rattle.pcp_base.specs.declared.configs.TheConstants.{MOST_EXTERNALS};
ghost use Rattle.pcp_io.specs.Faults.{HasRisen};
ghost use Rattle.journal_dump.specs.Dumps.{HasPairFault};
ghost use Rattle.server_commands.specs.Words.{IsCommand, IsDumpWords, IsLoadWords, IsPlayWords};
ghost use Rattle.server_commands.specs.declared.commands.Command.{Command};
ghost use Rattle.server_commands.specs.declared.commands.Command.TheVariants.{Dump, Load, Play};
ghost use Rattle.server_commands.specs.declared.commands.LoadPlan.{LoadPlan};
ghost use Rattle.server_commands.specs.declared.statuses.Status.TheVariants.{DiskFault, ReadFault, WordsRefused, WriteFault};
ghost use Rattle.pcp_server.specs.Dumped.{Dumps};
ghost use Rattle.pcp_server.specs.Loaded.{Loads};
ghost use Rattle.pcp_server.specs.Outsides.{HaveNotFallen, disks_by};
ghost use Rattle.pcp_server.specs.Played.{Plays};

use crate::dumping::run_dump;
use crate::loading::run_load;
use crate::playing::run_play;
use lease_disk::{DiskPair, LeaseDisk};
use pcp_io::{Sink, Source};
use server_commands::{Command, Status, command_of};
use std::alloc::Global;

/// Does what the words say. `play CONFIG SCRIPT JOURNALS START` opens the journals at START and answers
/// the script of `input`; `dump CONFIG JOURNALS` writes what the journals hold; `load CONFIG JOURNALS
/// START NUMBER COUNT` serves generated requests and sums them up. START is in whole seconds.
///
/// First the words are read, then the configuration whole, then the journals in the order of the
/// external addresses; pair `i` of `disks` has the two sides of the journal of external address `i`.
/// In `play` a line for each update of a renumbered external address follows, then the script line by
/// line: each line's result is written before the next line is looked at. All pairs come back in the
/// same order, whatever the status.
pub fn run_once<C: Source, S: Source, W: Sink, D: LeaseDisk + Drop>(
    alloc: Global,
    words: &[String],
    config: &mut C,
    input: &mut S,
    out: &mut W,
    disks: Vec<DiskPair<D>>,
) -> (Status, Vec<DiskPair<D>>)
    requires pairs { MOST_EXTERNALS ≤ length disks.items }

    // The words are refused exactly where they are no command, and then nothing has a call.
    ensures words { (result.0 ≡ WordsRefused)
        ↔ ((command : Command) → ¬ (IsCommand (map string_bytes words.now) command)) }
    ensures no_config { result.0 ≡ WordsRefused → config.new ≡ config.old }
    ensures no_input { result.0 ≡ WordsRefused → input.new ≡ input.old }
    ensures no_output { result.0 ≡ WordsRefused → out.new ≡ out.old }
    ensures no_disks { result.0 ≡ WordsRefused → result.1.items ≡ disks.items }

    // What was read, answered and written, and what a crash may leave of the journals, by the status.
    ensures play { (start : ℕ) → IsPlayWords (map string_bytes words.now) start → Plays
        (disks_by D.tells D.seen D.moment D.left_since D.may_leave D.faults) start
        (C.left config.old) (C.left config.new)
        (record { source = input.old; left = S.left input.old })
        (record { source = input.new; left = S.left input.new })
        (record { out = out.old; held = W.held out.old; pairs = disks.items })
        (record { out = out.new; held = W.held out.new; pairs = result.1.items }) result.0 }
    ensures dump { IsDumpWords (map string_bytes words.now) → Dumps
        (disks_by D.tells D.seen D.moment D.left_since D.may_leave D.faults)
        (C.left config.old) (C.left config.new)
        (record { out = out.old; held = W.held out.old; pairs = disks.items })
        (record { out = out.new; held = W.held out.new; pairs = result.1.items }) result.0 }
    ensures load { (plan : LoadPlan) → IsLoadWords (map string_bytes words.now) plan → Loads
        (disks_by D.tells D.seen D.moment D.left_since D.may_leave D.faults) plan
        (C.left config.old) (C.left config.new)
        (record { out = out.old; held = W.held out.old; pairs = disks.items })
        (record { out = out.new; held = W.held out.new; pairs = result.1.items }) result.0 }

    // Only a play calls the script's source.
    ensures dump_input { IsDumpWords (map string_bytes words.now) → input.new ≡ input.old }
    ensures load_input { (plan : LoadPlan) → IsLoadWords (map string_bytes words.now) plan →
        input.new ≡ input.old }

    // A fault is told only where a count of faults rose in this call, of that pair where it is a disk's.
    ensures read_fault { result.0 ≡ ReadFault → HasRisen (C.faults config.old) (C.faults config.new)
        ⊎ HasRisen (S.faults input.old) (S.faults input.new) }
    ensures write_fault { result.0 ≡ WriteFault → HasRisen (W.faults out.old) (W.faults out.new) }
    ensures disk_fault { (shard : ℕ) → result.0 ≡ DiskFault shard →
        HasPairFault D.faults disks.items result.1.items shard }
    ensures config_reads { C.faults config.old ≤ C.faults config.new }
    ensures reads { S.faults input.old ≤ S.faults input.new }
    ensures writes { W.faults out.old ≤ W.faults out.new }
    ensures disks { HaveNotFallen D.faults disks.items result.1.items }
{
    match command_of(words) {
        Some(command) => run_command(alloc, command, config, input, out, disks),
        None => (Status::WordsRefused, disks),
    }
}

/// Does what the command says.
fn run_command<C: Source, S: Source, W: Sink, D: LeaseDisk + Drop>(
    alloc: Global,
    command: Command,
    config: &mut C,
    input: &mut S,
    out: &mut W,
    disks: Vec<DiskPair<D>>,
) -> (Status, Vec<DiskPair<D>>)
    requires pairs { MOST_EXTERNALS ≤ length disks.items }
    ensures play { (start : ℕ) → command ≡ Play start → Plays
        (disks_by D.tells D.seen D.moment D.left_since D.may_leave D.faults) start
        (C.left config.old) (C.left config.new)
        (record { source = input.old; left = S.left input.old })
        (record { source = input.new; left = S.left input.new })
        (record { out = out.old; held = W.held out.old; pairs = disks.items })
        (record { out = out.new; held = W.held out.new; pairs = result.1.items }) result.0 }
    ensures dump { command ≡ Dump → Dumps
        (disks_by D.tells D.seen D.moment D.left_since D.may_leave D.faults)
        (C.left config.old) (C.left config.new)
        (record { out = out.old; held = W.held out.old; pairs = disks.items })
        (record { out = out.new; held = W.held out.new; pairs = result.1.items }) result.0 }
    ensures load { (plan : LoadPlan) → command ≡ Load plan → Loads
        (disks_by D.tells D.seen D.moment D.left_since D.may_leave D.faults) plan
        (C.left config.old) (C.left config.new)
        (record { out = out.old; held = W.held out.old; pairs = disks.items })
        (record { out = out.new; held = W.held out.new; pairs = result.1.items }) result.0 }

    // Only a play calls the script's source.
    ensures dump_input { command ≡ Dump → input.new ≡ input.old }
    ensures load_input { (plan : LoadPlan) → command ≡ Load plan → input.new ≡ input.old }

    // A fault is told only where a count of faults rose.
    ensures read_fault { result.0 ≡ ReadFault → HasRisen (C.faults config.old) (C.faults config.new)
        ⊎ HasRisen (S.faults input.old) (S.faults input.new) }
    ensures write_fault { result.0 ≡ WriteFault → HasRisen (W.faults out.old) (W.faults out.new) }
    ensures disk_fault { (shard : ℕ) → result.0 ≡ DiskFault shard →
        HasPairFault D.faults disks.items result.1.items shard }
    ensures config_reads { C.faults config.old ≤ C.faults config.new }
    ensures reads { S.faults input.old ≤ S.faults input.new }
    ensures writes { W.faults out.old ≤ W.faults out.new }
    ensures disks { HaveNotFallen D.faults disks.items result.1.items }
    ensures words { result.0 ≢ WordsRefused }
{
    match command {
        Command::Play(start) => run_play(alloc, start, config, input, out, disks),
        Command::Dump => run_dump(alloc, config, out, disks),
        Command::Load(plan) => run_load(alloc, plan, config, out, disks),
    }
}
