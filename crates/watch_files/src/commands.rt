//! `watch`: the leases of a server that runs, read from its journals beside it and without its lock.
ghost use Rattle.std.specs.Prelude.{◌≡◌, IfOk, length};
ghost use Rattle.pcp_base.specs.Configs.{IsConfig};

use crate::links::FileLooks;
use config_source::config_of;
use pcp_base::{Config, Memory};
use pcp_io::{FileSource, StdSink};
use pcp_server::{Status, unread_as};
use std::alloc::AllocError;
use std::io::ErrorKind;
use std::{fs, io};
use watch_runs::{WatchFault, run_watch};

/// Whether the words may be a `watch`.
pub fn may_watch(words: &[String]) -> bool {
    match words {
        [command, ..] => command.as_str() == "watch",
        [] => false,
    }
}

/// The paths of a `watch`.
#[derive(Clone, Copy)]
struct Watched<'a> {
    config: &'a str,
    journals: &'a str,
}

/// The paths of `watch CONFIG JOURNALS --once`; none where the words are no such command.
fn watched_by(words: &[String]) -> Option<Watched<'_>> {
    let [command, config, journals, once] = words else {
        return None;
    };
    if command.as_str() != "watch" || once.as_str() != "--once" {
        return None;
    }
    if config.is_empty() || journals.is_empty() {
        return None;
    }
    Some(Watched {
        config: config.as_str(),
        journals: journals.as_str(),
    })
}

/// Tells the live leases: how it ended, and, where the system told it, why a journal can't be read.
pub fn watch_over(rt: &HostRuntime, words: &[String]) -> Result<(Status, Option<String>), Memory> {
    let alloc = rt.alloc();
    let Some(watched) = watched_by(words) else {
        return Ok((Status::WordsRefused, None));
    };
    let mut source = FileSource::new(rt, String::from_str(alloc, watched.config)?);
    let config = match config_of(alloc, &mut source) {
        Ok(config) => config,
        Err(fault) => return Ok((unread_as(fault), None)),
    };
    match folder_fault(rt, watched.journals) {
        Some(error) => Ok((Status::DiskFault(0), told(rt, watched.journals, 0, &error))),
        None => watch_folder(rt, &config, watched.journals),
    }
}

/// Why the folder can't be read, if it can't.
fn folder_fault(rt: &HostRuntime, folder: &str) -> Option<io::Error> {
    match fs::metadata(rt, folder) {
        Ok(found) if found.is_dir() => None,
        Ok(_) => Some(io::Error::from(ErrorKind::NotADirectory)),
        Err(error) => Some(error),
    }
}

/// Tells what the journals in this folder hold.
fn watch_folder(
    rt: &HostRuntime,
    config: &Config,
    folder: &str,
) -> Result<(Status, Option<String>), Memory>
    requires { IsConfig config.now }
{
    let externals = config.externals.items();
    let mut links = links_of(rt, folder, externals.len())?;
    let mut out = StdSink::new(rt.stdout());
    match run_watch(rt.alloc(), externals, &mut links, &mut out) {
        Ok(()) => Ok((Status::Done, None)),
        Err(WatchFault::File(shard)) => {
            let cause = cause_of(rt, folder, shard, &links);
            Ok((Status::DiskFault(shard), cause))
        }
        Err(WatchFault::Write) => Ok((Status::WriteFault, None)),
        Err(WatchFault::Memory) => Err(Memory),
    }
}

/// A link to each journal.
fn links_of<'r>(
    rt: &'r HostRuntime,
    folder: &str,
    count: usize,
) -> Result<Vec<FileLooks<'r>>, AllocError>
    ensures { IfOk result (λ links. length links.items ≡ count) }
{
    let mut links = Vec::new(rt.alloc());
    for shard in 0..count {
        links.push(FileLooks::new(rt, folder, shard)?)?;
    }
    Ok(links)
}

/// Why the journal at this place can't be read, where the system told it.
fn cause_of(rt: &HostRuntime, folder: &str, shard: u32, links: &[FileLooks<'_>]) -> Option<String> {
    let error = links.get(shard as usize)?.cause()?;
    told(rt, folder, shard, error)
}

/// The cause as a text; none where no memory is found for it.
fn told(rt: &HostRuntime, folder: &str, shard: u32, error: &io::Error) -> Option<String> {
    format!(in rt.alloc(); "{folder}: journal {shard}: {error}").ok()
}
