//! The nonce that a client's command keeps in a file.
use client_runs::nonce_by;
use client_words::{nonce_file_of, read_nonce, write_nonce};
use pcp_base::{Memory, Nonce};
use pcp_io::FileSource;
use program_texts::{make_nonce_file, nonce_cause, path_cause, read_short_file};
use random_words::{FileEntropy, SourceEntropy};
use std::alloc::Global;
use std::io::{self, ErrorKind};
use tool_commands::ToolStatus;

/// The text of some nonce, by which words are tried before a file is made for them.
pub(crate) const ANY_NONCE: &[u8] = b"000000000000000000000000";

/// Where the system has random octets.
const RANDOM: &str = "/dev/urandom";

/// Random words of the system.
pub(crate) fn system_words(rt: &HostRuntime) -> Result<FileEntropy<&HostRuntime>, Memory> {
    let path = String::from_str(rt.alloc(), RANDOM)?;
    Ok(SourceEntropy::of(FileSource::new(rt, path)))
}

/// What the file has that the words name for a nonce; none where they name none. One that isn't there is
/// made with a new nonce, unless the words delete what it is of. Else how the command ends.
pub(crate) fn filed_nonce(
    rt: &HostRuntime,
    words: &[String],
    causes: &mut Vec<String>,
) -> Result<Result<Option<Vec<u8>>, ToolStatus>, Memory> {
    let alloc = rt.alloc();
    let Some(path) = nonce_file_of(alloc, words)? else {
        return Ok(Ok(None));
    };
    match read_short_file(rt, path) {
        Ok(octets) => Ok(Ok(Some(octets))),
        Err(error) if error.kind() == ErrorKind::NotFound && !may_delete(words) => {
            new_nonce(rt, path, causes)
        }
        Err(error) => unread(rt, path, error, causes),
    }
}

/// Whether the words may be those of the command that deletes.
fn may_delete(words: &[String]) -> bool {
    match words {
        [command, ..] => command.as_str() == "unmap",
        [] => false,
    }
}

/// The command ends since the file can't be read.
fn unread(
    rt: &HostRuntime,
    path: &str,
    error: io::Error,
    causes: &mut Vec<String>,
) -> Result<Result<Option<Vec<u8>>, ToolStatus>, Memory> {
    causes.push(path_cause(rt.alloc(), path, error)?)?;
    Ok(Err(ToolStatus::LinkFault))
}

/// Makes the file with a new nonce, or reads it, where it came to be meanwhile.
fn new_nonce(
    rt: &HostRuntime,
    path: &str,
    causes: &mut Vec<String>,
) -> Result<Result<Option<Vec<u8>>, ToolStatus>, Memory> {
    let alloc = rt.alloc();
    let Some(nonce) = drawn_nonce(rt)? else {
        return Ok(Err(ToolStatus::EntropyFault));
    };
    let text = write_nonce(alloc, &nonce)?;
    match make_nonce_file(rt, path, &text) {
        Ok(()) => Ok(Ok(Some(text))),
        Err(error) if error.kind() == ErrorKind::AlreadyExists => match read_short_file(rt, path) {
            Ok(octets) => Ok(Ok(Some(octets))),
            Err(error) => unread(rt, path, error, causes),
        },
        Err(error) => {
            causes.push(path_cause(alloc, path, error)?)?;
            Ok(Err(ToolStatus::WriteFault))
        }
    }
}

/// Adds that the file which the words name has no nonce, where that is so.
pub(crate) fn tell_file(
    alloc: Global,
    words: &[String],
    filed: Option<&[u8]>,
    causes: &mut Vec<String>,
) -> Result<(), Memory> {
    let (Some(path), Some(text)) = (nonce_file_of(alloc, words)?, filed) else {
        return Ok(());
    };
    if read_nonce(text).is_none() {
        causes.push(nonce_cause(alloc, path)?)?;
    }
    Ok(())
}

/// A nonce of three random words; none where there is no such word.
fn drawn_nonce(rt: &HostRuntime) -> Result<Option<Nonce>, Memory> {
    let mut words = system_words(rt)?;
    Ok(nonce_by(None, &mut words).ok())
}
