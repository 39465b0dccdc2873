//! Where a command finds what it reads and writes.
ghost use Rattle.std.specs.Prelude.{◌≡◌, IfOk, codes, length, string_bytes};
ghost use Rattle.pcp_base.specs.declared.configs.TheConstants.{MOST_EXTERNALS};
ghost use Rattle.program_texts.specs.Paths.{side_path};

use lease_disk::{DiskPair, FileDisk};
use pcp_base::{MOST_EXTERNALS, Memory};
use std::alloc::Global;

/// The paths of a command; one that it doesn't have is empty.
#[derive(Clone, Copy)]
pub struct Places<'a> {
    /// of the configuration
    pub config: &'a str,
    /// of the script
    pub script: &'a str,
    /// of the folder that has the journals
    pub journals: &'a str,
}

/// The paths that the words name, where they are a command.
pub fn places_of(words: &[String]) -> Places<'_> {
    match words {
        [command, config, script, journals, ..] if command.as_str() == "play" => Places {
            config: config.as_str(),
            script: script.as_str(),
            journals: journals.as_str(),
        },
        [_, config, journals, ..] => Places {
            config: config.as_str(),
            script: "",
            journals: journals.as_str(),
        },
        _ => Places {
            config: "",
            script: "",
            journals: "",
        },
    }
}

/// The commands that open journals, and don't only read them.
const OPENING: [&str; 3] = ["serve", "play", "load"];

/// Whether the words may be a command that opens journals, and doesn't only read them.
pub fn may_open(words: &[String]) -> bool {
    match words {
        [command, ..] => OPENING.contains(&command.as_str()),
        [] => false,
    }
}

/// The path of a side, by the letter that ends its name.
fn side_path(alloc: Global, folder: &str, place: usize, side: &str) -> Result<String, Memory>
    ensures { IfOk result (λ path. string_bytes path ≡ side_path folder.now place side.now) }
{
    Ok(format!(in alloc; "{folder}/{place}{side}")?)
}

/// The paths of the two sides of a journal.
#[derive(Drop)]
struct PairPaths {
    a: String,
    b: String,
}

/// The paths of the journal of the external address at this place.
fn paths_at(alloc: Global, folder: &str, place: usize) -> Result<PairPaths, Memory>
    ensures a { IfOk result
        (λ paths. string_bytes paths.a ≡ side_path folder.now place (codes "a")) }
    ensures b { IfOk result
        (λ paths. string_bytes paths.b ≡ side_path folder.now place (codes "b")) }
{
    Ok(PairPaths {
        a: side_path(alloc, folder, place, "a")?,
        b: side_path(alloc, folder, place, "b")?,
    })
}

/// The disks of the journal of the external address at this place. Each opens its file when it is first
/// used.
pub(crate) fn pair_at<'a>(
    rt: &'a HostRuntime,
    folder: &str,
    place: usize,
) -> Result<DiskPair<FileDisk<&'a HostRuntime>>, Memory> {
    let paths = paths_at(rt.alloc(), folder, place)?;
    Ok(DiskPair {
        a: FileDisk::new(rt, paths.a),
        b: FileDisk::new(rt, paths.b),
    })
}

/// The disks of all journals in a folder. The one error is want of memory.
pub fn journals_in<'a>(
    rt: &'a HostRuntime,
    folder: &str,
) -> Result<Vec<DiskPair<FileDisk<&'a HostRuntime>>>, Memory>
    ensures { IfOk result (λ pairs. length pairs.items ≡ MOST_EXTERNALS) }
{
    let mut pairs = Vec::new(rt.alloc());
    for place in 0..MOST_EXTERNALS {
        pairs.push(pair_at(rt, folder, place)?)?;
    }
    Ok(pairs)
}
