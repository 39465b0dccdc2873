//! A file system for tests: its files take two octets a write, an interrupted call comes before each
//! read, and syncs, reads and lengths fail where they are told to.
ghost use Rattle.std.specs.Prelude.{IsErr};

use lease_disk::Keepable;
use std::alloc::{Allocator, Global};
use std::cell::{Cell, RefCell};
use std::fs::{Metadata, OpenFile, OpenOptions};
use std::io;
use std::io::{ErrorKind, Read, Seek, SeekFrom, Write};
use std::os::unix::fs::FileExt;
use std::rt::Files;

/// A read from this place on gives how many syncs of the file were called.
pub(crate) const SYNCS_AT: u64 = 1000;

/// The file system. It has nothing until a file is opened.
#[derive(Drop)]
pub(crate) struct FakeFiles {
    pub(crate) alloc: Global,
    /// the number of the sync of the file that fails, from 1 on, or 0 for none
    pub(crate) failing_sync: u8,
    /// the number of the opening of the folder whose sync fails, from 1 on, or 0 for none
    pub(crate) failing_folder: u8,
    /// how often the folder was opened
    pub(crate) folders: Cell<u8>,
    /// whether reads fail, and questions for the length of a file that has octets
    pub(crate) fails_reads: bool,
    /// whether another program keeps each file
    pub(crate) is_kept: bool,
}

/// An opened file, or the folder.
#[derive(Drop)]
pub(crate) struct FakeFile {
    octets: RefCell<Vec<u8>>,
    interrupted: Cell<bool>,
    syncs: Cell<u8>,
    failing_sync: u8,
    fails_reads: bool,
    is_kept: bool,
}

/// Writes the piece over the octets at this place, with zeros before it where they are fewer.
fn put(octets: &mut Vec<u8>, place: usize, piece: &[u8]) -> io::Result<()> {
    let end = place.saturating_add(piece.len());
    if octets.len() < end {
        octets.resize(end, 0)?;
    }
    for (octet, new) in octets.iter_mut().skip(place).zip(piece) {
        *octet = *new;
    }
    Ok(())
}

fn refused<T>() -> io::Result<T>
    ensures { IsErr result }
{
    Err(io::Error::from(ErrorKind::Unsupported))
}

impl FileExt for FakeFile {
    fn read_at(&self, buf: &mut [u8], offset: u64) -> io::Result<usize> {
        self.interrupted.set(!self.interrupted.get());
        if self.interrupted.get() {
            return Err(io::Error::from(ErrorKind::Interrupted));
        }
        if self.fails_reads {
            return refused();
        }
        if offset >= SYNCS_AT && !buf.is_empty() {
            buf[0] = self.syncs.get();
            return Ok(1);
        }
        let octets = self.octets.try_borrow().or(refused())?;
        let start = octets.len().min(offset as usize);
        let count = buf.len().min(octets.len() - start);
        buf[..count].copy_from_slice(&octets[start..start + count]);
        Ok(count)
    }

    fn write_at(&self, buf: &[u8], offset: u64) -> io::Result<usize> {
        let mut octets = self.octets.try_borrow_mut().or(refused())?;
        let count = buf.len().min(2);
        put(&mut octets, offset as usize, &buf[..count])?;
        Ok(count)
    }
}

impl Keepable for FakeFile {
    fn keep(&self) -> io::Result<()> {
        if self.is_kept {
            return Err(io::Error::from(ErrorKind::WouldBlock));
        }
        Ok(())
    }
}

impl Read for FakeFile {
    fn read(&mut self, _buf: &mut [u8]) -> io::Result<usize> {
        refused()
    }
}

impl Write for FakeFile {
    fn write(&mut self, _buf: &[u8]) -> io::Result<usize> {
        refused()
    }

    fn flush(&mut self) -> io::Result<()> {
        Ok(())
    }
}

impl Seek for FakeFile {
    fn seek(&mut self, _to: SeekFrom) -> io::Result<u64> {
        refused()
    }
}

impl OpenFile for FakeFile {
    fn metadata(&self) -> io::Result<Metadata> {
        let octets = self.octets.try_borrow().or(refused())?;
        if self.fails_reads && octets.len() > 0 {
            return refused();
        }
        Ok(Metadata::of_file(octets.len() as u64))
    }

    fn set_len(&self, _size: u64) -> io::Result<()> {
        refused()
    }

    fn sync_all(&self) -> io::Result<()> {
        self.syncs.set(self.syncs.get().wrapping_add(1));
        if self.syncs.get() == self.failing_sync {
            return Err(io::Error::from(ErrorKind::Other));
        }
        Ok(())
    }

    fn sync_data(&self) -> io::Result<()> {
        self.sync_all()
    }
}

impl Files for FakeFiles {
    type File = FakeFile;

    type Dir = FakeFile;

    fn open_file(&self, how: &OpenOptions, path: &str) -> io::Result<FakeFile> {
        how.check()?;
        if path == "folder" {
            self.folders.set(self.folders.get().wrapping_add(1));
        }
        let fails_folder = self.folders.get() == self.failing_folder;
        Ok(FakeFile {
            fails_reads: self.fails_reads,
            is_kept: self.is_kept,
            octets: RefCell::new(Vec::new(self.alloc)),
            interrupted: Cell::new(false),
            syncs: Cell::new(0),
            failing_sync: if path == "folder" {
                u8::from(fails_folder)
            } else {
                self.failing_sync
            },
        })
    }

    fn symlink_metadata(&self, _path: &str) -> io::Result<Metadata> {
        Err(io::Error::from(ErrorKind::NotFound))
    }

    fn open_dir(&self, _path: &str) -> io::Result<FakeFile> {
        refused()
    }

    fn metadata(&self, _path: &str) -> io::Result<Metadata> {
        refused()
    }

    fn copy(&self, _from: &str, _to: &str) -> io::Result<u64> {
        refused()
    }

    fn rename(&self, _from: &str, _to: &str) -> io::Result<()> {
        refused()
    }

    fn remove_file(&self, _path: &str) -> io::Result<()> {
        refused()
    }

    fn create_dir(&self, _path: &str) -> io::Result<()> {
        refused()
    }

    fn remove_dir(&self, _path: &str) -> io::Result<()> {
        refused()
    }

    fn remove_dir_all<B: Allocator>(&self, _alloc: B, _path: &str) -> io::Result<()> {
        refused()
    }
}
