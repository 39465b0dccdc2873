//! The files of both sides of a journal.
ghost use Rattle.std.specs.Prelude.{◌≤◌, IfOk, length};

use pcp_base::{Memory, Octets};
use std::alloc::{AllocError, AllocFailed, Global};
use std::fs::{OpenFile, OpenOptions};
use std::io;
use std::io::ErrorKind;
use std::os::unix::fs::{FileExt, MetadataExt};
use std::rt::Files;
use watch_readings::{Front, SideLook};

/// How many octets name a life of a side: its head, its first gate and length, and its Start.
const FRONT: usize = 28;

/// How many octets are read at most in one call.
const PIECE: usize = 65536;

/// How often a side is read at most for one copy.
const MOST_READS: u64 = 1 << 62;

/// Why the files aren't read.
#[derive(Drop)]
pub(crate) enum FileFault {
    /// A file that is there can't be opened or read, or isn't a regular one; or the folder is missing.
    File(io::Error),
    /// No memory was found.
    Memory,
}

impl From<io::Error> for FileFault {
    fn from(error: io::Error) -> FileFault {
        FileFault::File(error)
    }
}

impl From<AllocError> for FileFault {
    fn from(_starved: AllocError) -> FileFault {
        FileFault::Memory
    }
}

impl<T: Drop> From<AllocFailed<T>> for FileFault {
    fn from(_starved: AllocFailed<T>) -> FileFault {
        FileFault::Memory
    }
}

impl From<Memory> for FileFault {
    fn from(_starved: Memory) -> FileFault {
        FileFault::Memory
    }
}

/// Both sides of a journal, by their paths, which are looked up anew at each look.
#[derive(Drop)]
pub(crate) struct JournalReader<F: Files + Drop> {
    files: F,
    a: String,
    b: String,
}

impl<F: Files + Drop> JournalReader<F>
where
    F::File: FileExt,
{
    /// The journal whose sides have these paths.
    pub fn new(files: F, a: String, b: String) -> JournalReader<F> {
        JournalReader { files, a, b }
    }

    /// Looks at both sides, `a` first. A file that is missing is an empty side.
    pub fn look(&self, alloc: Global) -> Result<(SideLook, SideLook), FileFault> {
        let file_a = opened(&self.files, self.a.as_str())?;
        let file_b = opened(&self.files, self.b.as_str())?;
        let before_a = front_of(alloc, &file_a)?;
        let before_b = front_of(alloc, &file_b)?;
        let first_a = copy_of(alloc, &file_a)?;
        let second_a = copy_of(alloc, &file_a)?;
        let first_b = copy_of(alloc, &file_b)?;
        let second_b = copy_of(alloc, &file_b)?;
        let a = SideLook {
            before: before_a,
            first: first_a,
            second: second_a,
            behind: front_at(alloc, &self.files, self.a.as_str())?,
        };
        let b = SideLook {
            before: before_b,
            first: first_b,
            second: second_b,
            behind: front_at(alloc, &self.files, self.b.as_str())?,
        };
        Ok((a, b))
    }
}

/// The file of this path, opened to be read; none where there is none. What isn't a regular file is an
/// error, and isn't opened.
fn opened<F: Files>(files: &F, path: &str) -> io::Result<Option<F::File>> {
    match files.symlink_metadata(path) {
        Ok(found) if found.is_file() => opened_now(files, path),
        Ok(_) => Err(io::Error::from(ErrorKind::InvalidInput)),
        Err(error) if error.kind() == ErrorKind::NotFound => Ok(None),
        Err(error) => Err(error),
    }
}

/// The same of a file that was there.
fn opened_now<F: Files>(files: &F, path: &str) -> io::Result<Option<F::File>> {
    match OpenOptions::new().read(true).open(files, path) {
        Ok(file) => Ok(Some(file)),
        Err(error) if error.kind() == ErrorKind::NotFound => Ok(None),
        Err(error) => Err(error),
    }
}

/// What stands in front of the file of this path.
fn front_at<F: Files>(alloc: Global, files: &F, path: &str) -> Result<Front, FileFault>
where
    F::File: FileExt,
{
    let file = opened(files, path)?;
    front_of(alloc, &file)
}

/// What stands in front of a file.
fn front_of<R: FileExt + OpenFile>(alloc: Global, file: &Option<R>) -> Result<Front, FileFault> {
    let Some(file) = file else {
        return Ok(Front {
            device: 0,
            inode: 0,
            octets: Octets::of(Vec::new(alloc)),
        });
    };
    let found = file.metadata()?;
    let mut piece = [0; FRONT];
    let count = read_uninterrupted(file, 0, &mut piece)?;
    Ok(Front {
        device: found.dev(),
        inode: found.ino(),
        octets: Octets::of(piece[..count].to_vec(alloc)?),
    })
}

/// All octets of a file, one piece behind the other.
fn copy_of<R: FileExt>(alloc: Global, file: &Option<R>) -> Result<Octets, FileFault> {
    let mut octets = Vec::new(alloc);
    let Some(file) = file else {
        return Ok(Octets::of(octets));
    };
    let mut piece = vec![in alloc; 0; PIECE]?;
    for _ in 0..MOST_READS {
        let count = read_uninterrupted(file, octets.len() as u64, &mut piece)?;
        if count == 0 {
            return Ok(Octets::of(octets));
        }
        octets.extend_from_slice(&piece[..count])?;
    }
    Err(FileFault::File(io::Error::from(ErrorKind::FileTooLarge)))
}

/// One read from a place on, which is made again where a signal interrupts it.
fn read_uninterrupted<R: FileExt>(file: &R, place: u64, piece: &mut [u8]) -> io::Result<usize>
    ensures bound { IfOk result (λ n. n ≤ length piece.new) }
{
    for _ in 0..u64::MAX {
        match file.read_at(piece, place) {
            Err(error) if error.kind() == ErrorKind::Interrupted => {}
            done => return done,
        }
    }
    Err(io::Error::from(ErrorKind::Interrupted))
}
