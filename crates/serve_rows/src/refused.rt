//! Words and configurations that are refused.

use crate::edges::{NEVER, blank_pairs};
use crate::serving::{SERVE, Step, run_items};
use lease_disk::{DiskPair, LeaseDisk};
use pcp_base::Memory;
use server_commands::{ConfigCause, Status};
use std::alloc::Global;
use std::sync::Wait;
use std::test::Fail;
use std::thread::Threads;

static WORDS: [&str; 6] = [
    "",
    "serve c j 5351",
    "serve c j 0 5400",
    "serve c j 5351 65521",
    "serve c j 5351 5400 more",
    "play c s j 1000",
];

static CONFIGS: [(&str, ConfigCause); 2] = [
    ("quota", ConfigCause::NotToml),
    ("quota = 64\n", ConfigCause::NotConfig),
];

/// How a run to which nothing comes ends.
fn status_of<R: Threads + Wait + Sync, D: LeaseDisk + Drop + Send + Sync>(
    rt: &R,
    alloc: Global,
    step: &Step,
    pairs: Vec<DiskPair<D>>,
) -> Result<Status, Memory> {
    let run = run_items(rt, alloc, step, Vec::new(alloc), NEVER, pairs)?;
    Ok(run.ended.status)
}

#[test]
fn words_are_refused(rt: HostRuntime) -> Result<(), Fail> {
    for words in &WORDS {
        let step = Step { words, ..SERVE };
        let status = status_of(&rt, rt.alloc(), &step, blank_pairs(rt.alloc())?)?;
        assert!(rt; status == Status::WordsRefused, "{words}");
    }
    Ok(())
}

#[test]
fn configurations_are_refused(rt: HostRuntime) -> Result<(), Fail> {
    for (config, cause) in &CONFIGS {
        let step = Step { config, ..SERVE };
        let status = status_of(&rt, rt.alloc(), &step, blank_pairs(rt.alloc())?)?;
        assert!(rt; status == Status::ConfigRefused(*cause), "{config}");
    }
    Ok(())
}
