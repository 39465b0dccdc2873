//! A command over streams in memory.
ghost use Rattle.std.specs.Prelude.{◌≡◌, ◌≤◌, ◌⊎◌, ℕ, [], length, map, string_bytes, IfOk};
ghost use Rattle.pcp_base.specs.declared.configs.Config.{Config};
ghost use Rattle.pcp_base.specs.declared.configs.TheConstants.{MOST_EXTERNALS};
ghost use Rattle.pcp_config.specs.ConfigTexts.{IsConfigText};
ghost use Rattle.pcp_io.specs.Faults.{HasRisen};
ghost use Rattle.journal_dump.specs.Dumps.{HasPairFault};
ghost use Rattle.server_commands.specs.Words.{IsPlayWords};
ghost use Rattle.play_rows.specs.Endings.{IsDoneUnless};

use lease_disk::{DiskPair, LeaseDisk};
use pcp_base::Memory;
use pcp_io::{MemorySink, MemorySource};
use pcp_server::{Status, run_once};
use std::alloc::Global;

/// The read of the script and the write that fail, numbered from 0.
#[derive(Clone, Copy)]
pub struct Failing {
    pub read: u64,
    pub write: u64,
}

/// How a command ended, what it read and put out, and the journals that it left.
#[derive(Drop)]
pub struct Ended<D: LeaseDisk + Drop> {
    pub status: Status,
    pub config: MemorySource,
    pub input: MemorySource,
    pub out: MemorySink,
    pub pairs: Vec<DiskPair<D>>,
}

/// Runs a command over streams in memory. Where it plays an empty script by a configuration it is done,
/// or memory is wanting, or a count of faults rose.
pub fn run_in_memory<D: LeaseDisk + Drop>(
    alloc: Global,
    words: &[String],
    config: Vec<u8>,
    script: Vec<u8>,
    pairs: Vec<DiskPair<D>>,
    failing: Failing,
) -> Result<Ended<D>, Memory>
    requires { MOST_EXTERNALS ≤ length pairs.items }
    ensures { IfOk result (λ ended. (start : ℕ) (c : Config) →
        IsPlayWords (map string_bytes words.now) start → IsConfigText config.items c →
        script.items ≡ [] → IsDoneUnless
        (HasRisen 0 ended.config.calls.faults ⊎ HasRisen 0 ended.input.calls.faults)
        (HasRisen 0 ended.out.calls.faults)
        (HasPairFault D.faults pairs.items ended.pairs.items) ended.status) }
{
    let mut config = MemorySource::new(alloc, config)?;
    let mut input = MemorySource::new(alloc, script)?;
    input.fail_at(alloc, failing.read)?;
    let mut out = MemorySink::new(alloc, 65_536)?;
    out.fail_at(alloc, failing.write)?;
    let (status, pairs) = run_once(alloc, words, &mut config, &mut input, &mut out, pairs);
    Ok(Ended {
        status,
        config,
        input,
        out,
        pairs,
    })
}
