//! Why disks failed, for people.
use lease_disk::{DiskPair, FileDisk};
use pcp_base::Memory;
use std::alloc::Global;
use std::io;
use std::io::ErrorKind;
use std::rt::Files;

/// A disk that can say why its last call that failed did.
pub trait DiskCause {
    /// Its path, and why, where a call failed. The one error is want of memory.
    fn cause(&self, alloc: Global) -> Result<Option<String>, Memory>;
}

impl<F: Files + Drop> DiskCause for FileDisk<F> {
    fn cause(&self, alloc: Global) -> Result<Option<String>, Memory> {
        let Some(error) = self.last_error() else {
            return Ok(None);
        };
        let path = self.path();
        match reason_of(error) {
            Some(reason) => Ok(Some(format!(in alloc; "{path}: {reason}")?)),
            None => Ok(Some(format!(in alloc; "{path}: {error}")?)),
        }
    }
}

/// Why one of two disks failed. The one error is want of memory.
pub fn pair_cause<D: DiskCause>(
    alloc: Global,
    pair: &DiskPair<D>,
) -> Result<Option<String>, Memory> {
    match pair.a.cause(alloc)? {
        Some(cause) => Ok(Some(cause)),
        None => pair.b.cause(alloc),
    }
}

/// Why a disk failed where it isn't the system that says so.
fn reason_of(error: &io::Error) -> Option<&'static str> {
    if error.raw_os_error().is_some() {
        return None;
    }
    match error.kind() {
        ErrorKind::WouldBlock => Some("another program has it"),
        ErrorKind::InvalidInput => Some("not a regular file with one name"),
        ErrorKind::AlreadyExists => Some("another program made it"),
        ErrorKind::FileTooLarge => Some("more than 2^62 octets"),
        ErrorKind::Other => Some("a sync failed before"),
        _ => None,
    }
}
