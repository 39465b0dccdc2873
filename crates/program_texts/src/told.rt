//! What people are told who ask for more than a status.
use crate::causes::{script_cause, tell_words, unread_cause};
use crate::disk_causes::{DiskCause, pair_cause};
use crate::places::{pair_at, places_of};
use journal_dump::{Looked, looked_in};
use lease_disk::{DiskPair, LeaseDisk};
use lease_journal::Found;
use pcp_base::{Address, Config, External, Memory, Moment};
use pcp_config::{explain, read_config};
use program_links::Gap;
use serve_commands::ServePlan;
use server_commands::Status;
use std::alloc::Global;
use std::io;
use std::net::SocketAddr;

/// What so many journals of a folder are found to be before a command opens them; none of one that can't
/// be read. Where no memory is found, it tells of fewer.
pub fn look_at(rt: &HostRuntime, folder: &str, count: usize) -> Vec<Option<Looked>> {
    let mut looks = Vec::new(rt.alloc());
    for place in 0..count {
        let Ok(looked) = look_at_place(rt, folder, place) else {
            return looks;
        };
        if looks.push(looked).is_err() {
            return looks;
        }
    }
    looks
}

/// What the journal at this place is found to be; none where it can't be read. Its disks are closed
/// again, so that the command finds its own as they were.
fn look_at_place(rt: &HostRuntime, folder: &str, place: usize) -> Result<Option<Looked>, Memory> {
    let mut pair = pair_at(rt, folder, place)?;
    Ok(looked_at(rt.alloc(), &mut pair))
}

/// What a journal is found to be. Without an octet it is blank, which takes no store to tell.
fn looked_at<D: LeaseDisk>(alloc: Global, pair: &mut DiskPair<D>) -> Option<Looked> {
    match (pair.a.len(), pair.b.len()) {
        (Ok(0), Ok(0)) => Some(Looked {
            found: Found::Blank,
            last: Moment::of(0)?,
        }),
        (Ok(_), Ok(_)) => looked_in(alloc, pair).ok(),
        _ => None,
    }
}

/// The last moment of all these journals; none where none of them could be read.
pub fn last_of(looks: &[Option<Looked>]) -> Option<Moment> {
    let mut last = None;
    for looked in looks {
        last = last.max((*looked).map(|looked| looked.last));
    }
    last
}

/// Why a command ended so, where that is known, and one line for each external address of the
/// configuration whose journal was found blank or damaged. The one error is want of memory.
pub fn told_of<D: DiskCause>(
    rt: &HostRuntime,
    words: &[String],
    status: Status,
    config: Option<&[u8]>,
    looks: &[Option<Looked>],
    disks: &[DiskPair<D>],
) -> Result<Vec<String>, Memory> {
    let mut told = Vec::new(rt.alloc());
    tell_causes(rt, &mut told, words, status, config, disks)?;
    if let Some(text) = config {
        tell_found(rt.alloc(), &mut told, text, looks)?;
    }
    Ok(told)
}

/// Adds why a command ended so, where that is known.
fn tell_causes<D: DiskCause>(
    rt: &HostRuntime,
    told: &mut Vec<String>,
    words: &[String],
    status: Status,
    config: Option<&[u8]>,
    disks: &[DiskPair<D>],
) -> Result<(), Memory> {
    if status == Status::WordsRefused {
        tell_words(rt.alloc(), told, words)?;
    }
    tell_cause(told, outside_cause(rt, words, status, config)?)?;
    tell_cause(told, cause_of(rt.alloc(), status, config, disks)?)
}

/// Adds a cause, where there is one.
fn tell_cause(told: &mut Vec<String>, cause: Option<String>) -> Result<(), Memory> {
    if let Some(cause) = cause {
        told.push(cause)?;
    }
    Ok(())
}

/// Why a script is refused, or something can't be read: what the system says when it is tried again.
fn outside_cause(
    rt: &HostRuntime,
    words: &[String],
    status: Status,
    config: Option<&[u8]>,
) -> Result<Option<String>, Memory> {
    let places = places_of(words);
    match status {
        Status::ScriptRefused(line) => script_cause(rt, config, places.script, line),
        Status::ReadFault => unread_cause(rt, &places),
        _ => Ok(None),
    }
}

/// Why a configuration is refused, or a disk failed.
fn cause_of<D: DiskCause>(
    alloc: Global,
    status: Status,
    config: Option<&[u8]>,
    disks: &[DiskPair<D>],
) -> Result<Option<String>, Memory> {
    match status {
        Status::ConfigRefused(_) => match config {
            Some(text) => explain(alloc, text),
            None => Ok(None),
        },
        Status::DiskFault(place) => match disks.get(place as usize) {
            Some(pair) => pair_cause(alloc, pair),
            None => Ok(None),
        },
        _ => Ok(None),
    }
}

/// What an operator is told before a server begins: its lanes and external addresses, and which
/// journals were found blank or damaged. The one error is want of memory.
pub fn beginning_of(
    alloc: Global,
    plan: ServePlan,
    config: &Config,
    looks: &[Option<Looked>],
) -> Result<Vec<String>, Memory> {
    let mut told = Vec::new(alloc);
    tell_lanes(alloc, &mut told, plan)?;
    tell_addresses(alloc, &mut told, config.externals.items())?;
    tell_states(alloc, &mut told, config.externals.items().len(), looks)?;
    Ok(told)
}

/// Adds a line for the lanes of a server.
fn tell_lanes(alloc: Global, told: &mut Vec<String>, plan: ServePlan) -> Result<(), Memory> {
    let lane_port = plan.lane_port;
    told.push(format!(in alloc; "lanes at 127.0.0.1 from port {lane_port} on")?)?;
    Ok(())
}

/// What an operator is told once a server has its doors: the address and port of each, and why IPv6 isn't
/// served, where this host has none. The one error is want of memory.
pub fn doors_of(
    alloc: Global,
    places: &[SocketAddr],
    lacking: Option<io::Error>,
) -> Result<Vec<String>, Memory> {
    let mut told = Vec::new(alloc);
    for at in places {
        told.push(format!(in alloc; "serving at {} port {}", at.ip(), at.port())?)?;
    }
    if let Some(error) = lacking {
        told.push(format!(in alloc; "IPv6 isn't served: {error}")?)?;
    }
    Ok(told)
}

/// Adds a line for each of these external addresses.
fn tell_addresses(
    alloc: Global,
    told: &mut Vec<String>,
    externals: &[External],
) -> Result<(), Memory> {
    for external in externals {
        tell_address(alloc, told, &external.address)?;
    }
    Ok(())
}

/// Adds a line for an external address.
fn tell_address(alloc: Global, told: &mut Vec<String>, address: &Address) -> Result<(), Memory> {
    let mut text = Vec::new(alloc);
    address.write(alloc, &mut text)?;
    if let Ok(text) = str::from_utf8(&text) {
        told.push(format!(in alloc; "external address {text}")?)?;
    }
    Ok(())
}

/// Adds a line for each external address of the configuration whose journal was found blank or damaged.
fn tell_found(
    alloc: Global,
    told: &mut Vec<String>,
    config: &[u8],
    looks: &[Option<Looked>],
) -> Result<(), Memory> {
    let Ok(config) = read_config(alloc, config) else {
        return Ok(());
    };
    tell_states(alloc, told, config.externals.items().len(), looks)
}

/// Adds a line for each of so many external addresses whose journal was found blank or damaged.
fn tell_states(
    alloc: Global,
    told: &mut Vec<String>,
    count: usize,
    looks: &[Option<Looked>],
) -> Result<(), Memory> {
    for (place, looked) in looks.iter().enumerate() {
        match state_of(*looked) {
            Some(state) if place < count => {
                told.push(format!(in alloc; "journal of shard {place} was {state}")?)?;
            }
            _ => {}
        }
    }
    Ok(())
}

/// What people are told of what was found; nothing where a journal was there.
fn state_of(looked: Option<Looked>) -> Option<&'static str> {
    match looked?.found {
        Found::Blank => Some("blank"),
        Found::Damaged => Some("damaged"),
        Found::Recovered => None,
    }
}

/// What people are told of the time of the system, where it is far from the last moment of the journals.
/// The one error is want of memory.
pub fn gap_text(alloc: Global, gap: Gap) -> Result<String, Memory> {
    let (seconds, side) = match gap {
        Gap::Behind(seconds) => (seconds, "behind"),
        Gap::Ahead(seconds) => (seconds, "ahead of"),
    };
    Ok(format!(in alloc;
        "the system's time is {seconds} seconds {side} the last moment of the journals"
    )?)
}
