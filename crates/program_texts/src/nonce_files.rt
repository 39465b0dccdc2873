//! Files that keep the nonce of a mapping, so that the same words renew it, or the key of a relay.
use std::alloc::Global;
use std::fs::{self, File, OpenOptions};
use std::io::{self, ErrorKind, Read, Write};
use std::os::unix::fs::OpenOptionsExt;
use std::path::Path;

/// The most octets that are read of a file: more than the text of a nonce or a key has.
const MOST_OCTETS: usize = 128;

/// What the file has, at most its first 128 octets.
pub fn read_short_file(rt: &HostRuntime, path: &str) -> io::Result<Vec<u8>> {
    first_octets(rt.alloc(), &mut File::open(rt, path)?)
}

/// The first octets of a file.
fn first_octets(alloc: Global, file: &mut File) -> io::Result<Vec<u8>> {
    let mut octets = Vec::new(alloc);
    let mut piece = [0; MOST_OCTETS];
    // Each read gives one octet at least, but at the end.
    for _ in 0..MOST_OCTETS {
        let count = file.read(&mut piece)?;
        if count == 0 {
            break;
        }
        octets.extend_from_slice(&piece[..count])?;
    }
    octets.truncate(MOST_OCTETS);
    Ok(octets)
}

/// Makes the file, which isn't there and which this user alone reads, of these octets, and waits until they
/// and its name are on the disk. One that is there, or comes to be meanwhile, stays as it is, and is an
/// error. Where the octets can't be written the file is removed again.
pub fn make_nonce_file(rt: &HostRuntime, path: &str, octets: &[u8]) -> io::Result<()> {
    let mut file = OpenOptions::new()
        .write(true)
        .create_new(true)
        .mode(0o600)
        .open(rt, path)?;
    if let Err(error) = write_synced(&mut file, octets) {
        let _ = fs::remove_file(rt, path);
        return Err(error);
    }
    File::open(rt, folder_of(path))?.sync_all()
}

fn write_synced(file: &mut File, octets: &[u8]) -> io::Result<()> {
    file.write_all(octets)?;
    file.sync_all()
}

/// The folder that a path names its file in.
fn folder_of(path: &str) -> &str {
    match Path::new(path).parent().and_then(|folder| folder.to_str()) {
        Some("") | None => ".",
        Some(folder) => folder,
    }
}
