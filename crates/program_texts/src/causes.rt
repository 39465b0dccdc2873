//! Why words, a script or a read are at fault, for people who ask.
use crate::places::Places;
use pcp_base::{Config, Memory};
use pcp_config::read_config;
use pcp_io::{FileSource, Source};
use pcp_script::LONGEST_LINE;
use refusal_causes::{line_cause, tool_cause, words_cause};
use std::alloc::Global;
use std::fs::File;
use std::io::Read;
use std::net::{IpAddr, SocketAddr};
use std::{fs, io};

/// Why the words are no command of the server, and where commands are told.
pub(crate) fn tell_words(
    alloc: Global,
    told: &mut Vec<String>,
    words: &[String],
) -> Result<(), Memory> {
    if let Some(cause) = words_cause(alloc, words)? {
        told.push(cause)?;
    }
    told.push(String::from_str(alloc, "see pcp --help")?)?;
    Ok(())
}

/// Adds which of the words of a tool's command is none, where that is known, and where its words are told.
/// The one error is want of memory.
pub fn tell_tool_words(
    alloc: Global,
    told: &mut Vec<String>,
    words: &[String],
) -> Result<(), Memory> {
    if let Some(cause) = tool_cause(alloc, words)? {
        told.push(cause)?;
    }
    match words {
        [command, ..] => told.push(format!(in alloc; "see pcp {command} --help")?)?,
        [] => {}
    }
    Ok(())
}

/// What can't be read: the configuration or the script. Each is tried once more, but for a pipe.
pub(crate) fn unread_cause(
    rt: &HostRuntime,
    places: &Places<'_>,
) -> Result<Option<String>, Memory> {
    if let Some(cause) = file_cause(rt, places.config)? {
        return Ok(Some(cause));
    }
    if places.script.is_empty() {
        return Ok(None);
    }
    file_cause(rt, places.script)
}

/// Why a file can't be read; none where it can, or where it is none that may be read twice.
fn file_cause(rt: &HostRuntime, path: &str) -> Result<Option<String>, Memory> {
    let alloc = rt.alloc();
    if let Ok(found) = fs::metadata(rt, path) {
        if !found.is_file() && !found.is_dir() {
            return Ok(None);
        }
    }
    let mut octet = [0];
    let error = match File::open(rt, path) {
        Ok(mut file) => match file.read(&mut octet) {
            Ok(_) => return Ok(None),
            Err(error) => error,
        },
        Err(error) => error,
    };
    Ok(Some(format!(in alloc; "{path}: {error}")?))
}

/// Why a server can't be asked at this address and port. The one error is want of memory.
pub fn door_cause(alloc: Global, at: SocketAddr, error: io::Error) -> Result<String, Memory> {
    Ok(format!(in alloc; "{} port {}: {error}", at.ip(), at.port())?)
}

/// Why a client has no socket at this place, of any port where that is 0. The one error is want of memory.
pub fn socket_cause(alloc: Global, at: SocketAddr, error: io::Error) -> Result<String, Memory> {
    if at.port() == 0 {
        return Ok(format!(in alloc; "{}: {error}", at.ip())?);
    }
    door_cause(alloc, at, error)
}

/// Why nothing is heard at this port. The one error is want of memory.
pub fn port_cause(alloc: Global, port: u16, error: io::Error) -> Result<String, Memory> {
    Ok(format!(in alloc; "port {port}: {error}")?)
}

/// Why there is no server to ask. The one error is want of memory.
pub fn router_cause(alloc: Global) -> Result<String, Memory> {
    let line = "--server: not given, and this host has no default route of IPv4 by a router";
    Ok(String::from_str(alloc, line)?)
}

/// Why a client has no address towards this server. The one error is want of memory.
pub fn reach_cause(alloc: Global, server: IpAddr, error: io::Error) -> Result<String, Memory> {
    Ok(format!(in alloc; "--own: not given, and no way to {server}: {error}")?)
}

/// That a client's own address and that of its server are of two families. The one error is want of memory.
pub fn families_cause(alloc: Global, own: IpAddr, server: IpAddr) -> Result<String, Memory> {
    Ok(format!(in alloc; "--own {own} can't reach --server {server}: one is IPv4, the other IPv6")?)
}

/// Why the file of this path can't be used. The one error is want of memory.
pub fn path_cause(alloc: Global, path: &str, error: io::Error) -> Result<String, Memory> {
    Ok(format!(in alloc; "{path}: {error}")?)
}

/// That the file of this path has no nonce. The one error is want of memory.
pub fn nonce_cause(alloc: Global, path: &str) -> Result<String, Memory> {
    Ok(format!(in alloc; "{path}: expected 24 hexadecimal digits, and a line feed or nothing")?)
}

/// That the file of this path has no key. The one error is want of memory.
pub fn key_cause(alloc: Global, path: &str) -> Result<String, Memory> {
    Ok(format!(in alloc; "{path}: expected 64 hexadecimal digits, and a line feed or nothing")?)
}

/// How many datagrams of clients a relay dropped. The one error is want of memory.
pub fn dropped_text(alloc: Global, dropped: u64) -> Result<String, Memory> {
    Ok(format!(in alloc; "dropped {dropped} datagrams of clients above --rate")?)
}

/// What people are told where so many threads can't be made. The one error is want of memory.
pub fn threads_cause(alloc: Global, count: u32) -> Result<String, Memory> {
    Ok(format!(in alloc; "{count} threads can't be made")?)
}

/// Why this line of a script, numbered from 1, is none; none where the script can't be read twice.
pub(crate) fn script_cause(
    rt: &HostRuntime,
    config: Option<&[u8]>,
    path: &str,
    number: u64,
) -> Result<Option<String>, Memory> {
    let alloc = rt.alloc();
    let Some(text) = script_line(rt, path, number)? else {
        return Ok(None);
    };
    match config_in(alloc, config) {
        Some(config) => line_cause(alloc, &config, &text),
        None => Ok(None),
    }
}

/// The line of this number of a script; none where it can't be read twice.
fn script_line(rt: &HostRuntime, path: &str, number: u64) -> Result<Option<Vec<u8>>, Memory> {
    if !is_file(rt, path) {
        return Ok(None);
    }
    let mut source = FileSource::new(rt, String::from_str(rt.alloc(), path)?);
    line_at(rt.alloc(), &mut source, number)
}

/// Whether this is the path of a file, which can be read twice.
fn is_file(rt: &HostRuntime, path: &str) -> bool {
    match fs::metadata(rt, path) {
        Ok(found) => found.is_file(),
        Err(_) => false,
    }
}

/// The configuration that these octets are.
fn config_in(alloc: Global, octets: Option<&[u8]>) -> Option<Config> {
    read_config(alloc, octets?).ok()
}

/// The line of this number, from 1, without its line feed; of a longer one than a script may have, its
/// first octets, one more than that. None where the source fails.
fn line_at<S: Source>(
    alloc: Global,
    source: &mut S,
    number: u64,
) -> Result<Option<Vec<u8>>, Memory> {
    let mut line = Vec::new(alloc);
    let mut place = 1;
    let mut piece = [0; 4_096];
    for _ in 0..u64::MAX {
        let Ok(count) = source.read(&mut piece) else {
            return Ok(None);
        };
        if count == 0 || place > number {
            return Ok(Some(line));
        }
        place = add_piece(&mut line, &piece[..count], place, number)?;
    }
    Ok(None)
}

/// Adds what this piece has of the line of this number, where the piece begins in the line at `place`;
/// gives the line in which it ends.
fn add_piece(line: &mut Vec<u8>, piece: &[u8], place: u64, number: u64) -> Result<u64, Memory> {
    let mut place = place;
    for octet in piece {
        if *octet == b'\n' {
            place = place.saturating_add(1);
        } else if place == number && line.len() <= LONGEST_LINE {
            line.push(*octet)?;
        }
    }
    Ok(place)
}
