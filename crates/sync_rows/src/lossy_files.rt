//! A file system for tests, one of whose syncs fails. As on Linux the pages that it was to write are
//! clean then: later syncs succeed, and leave them as they were until they are written again.
ghost use Rattle.std.specs.Prelude.{IsErr};

use lease_disk::Keepable;
use std::alloc::{AllocError, Allocator, Global};
use std::cell::{Cell, RefCell};
use std::fs::{Metadata, OpenFile, OpenOptions};
use std::io;
use std::io::{ErrorKind, Read, Seek, SeekFrom, Write};
use std::os::unix::fs::FileExt;
use std::rc::Rc;
use std::rt::Files;

/// How many octets a page has, which is written as a whole.
const PAGE: usize = 16;

/// How many pages a file may have.
const PAGES: usize = 256;

/// The octets of a file.
#[derive(Drop)]
struct Octets {
    /// what is read
    seen: Vec<u8>,
    /// what a power loss leaves
    kept: Vec<u8>,
    /// which pages the next sync writes
    pages: Vec<bool>,
    /// whether it writes any, or a new length
    is_changed: bool,
}

/// Writes the piece over the octets at this place, with zeros before it where they are fewer.
fn put(octets: &mut Vec<u8>, place: usize, piece: &[u8]) -> io::Result<()> {
    let end = place.saturating_add(piece.len());
    if octets.len() < end {
        octets.resize(end, 0)?;
    }
    for (octet, new) in octets.iter_mut().skip(place).zip(piece) {
        *octet = *new;
    }
    Ok(())
}

/// Marks these pages.
fn mark(pages: &mut [bool], first: usize, last: usize) {
    for (number, page) in pages.iter_mut().enumerate() {
        if first <= number && number <= last {
            *page = true;
        }
    }
}

/// Copies the marked pages.
fn copy_marked(pages: &[bool], from: &[u8], to: &mut [u8]) {
    for (place, (octet, new)) in to.iter_mut().zip(from).enumerate() {
        if pages.get(place / PAGE) == Some(&true) {
            *octet = *new;
        }
    }
}

/// Marks no page.
fn unmark(pages: &mut [bool]) {
    for page in pages.iter_mut() {
        *page = false;
    }
}

impl Octets {
    fn write(&mut self, place: usize, piece: &[u8]) -> io::Result<()> {
        let end = place.saturating_add(piece.len());
        if end > PAGES * PAGE {
            return refused();
        }
        put(&mut self.seen, place, piece)?;
        mark(&mut self.pages, place / PAGE, end.saturating_sub(1) / PAGE);
        self.is_changed = true;
        Ok(())
    }

    fn cut(&mut self, size: usize) {
        self.seen.truncate(size);
        self.is_changed = true;
    }

    fn sync(&mut self, fails: bool) -> io::Result<()> {
        if !fails && self.is_changed {
            self.kept.resize(self.seen.len(), 0)?;
            copy_marked(&self.pages, &self.seen, &mut self.kept);
        }
        unmark(&mut self.pages);
        self.is_changed = false;
        if fails { refused() } else { Ok(()) }
    }
}

/// A file of a folder that outlasts programs.
#[derive(Drop)]
pub(crate) struct Stored {
    is_there: Cell<bool>,
    octets: RefCell<Octets>,
}

impl Stored {
    /// A file with these octets, which were synced. Without octets it isn't there.
    pub(crate) fn of(alloc: Global, octets: &[u8]) -> Result<Rc<Stored>, AllocError> {
        let stored = Stored {
            is_there: Cell::new(!octets.is_empty()),
            octets: RefCell::new(Octets {
                seen: octets.to_vec(alloc)?,
                kept: octets.to_vec(alloc)?,
                pages: vec![in alloc; false; PAGES]?,
                is_changed: false,
            }),
        };
        Ok(Rc::new(alloc, stored)?)
    }

    /// What a power loss leaves of the file.
    pub(crate) fn left(&self, alloc: Global) -> io::Result<Rc<Stored>> {
        let octets = self.octets.try_borrow().or(refused())?;
        Ok(Stored::of(alloc, &octets.kept)?)
    }
}

/// The syncs of a program.
#[derive(Drop)]
pub(crate) struct Syncs {
    count: Cell<u16>,
    failing: u16,
}

impl Syncs {
    /// The one of this number fails, from 1 on.
    pub(crate) fn failing(alloc: Global, number: u16) -> Result<Rc<Syncs>, AllocError> {
        let syncs = Syncs {
            count: Cell::new(0),
            failing: number,
        };
        Ok(Rc::new(alloc, syncs)?)
    }

    /// Counts one, and says whether it fails.
    fn fails(&self) -> bool {
        self.count.set(self.count.get().saturating_add(1));
        self.count.get() == self.failing
    }
}

/// The file system, as a program sees it that uses one file.
#[derive(Drop)]
pub(crate) struct LossyFiles {
    pub(crate) stored: Rc<Stored>,
    pub(crate) syncs: Rc<Syncs>,
}

/// An opened file, or the folder, whose failed sync loses nothing.
#[derive(Drop)]
pub(crate) struct LossyFile {
    stored: Rc<Stored>,
    syncs: Rc<Syncs>,
    is_folder: bool,
}

fn refused<T>() -> io::Result<T>
    ensures { IsErr result }
{
    Err(io::Error::from(ErrorKind::Unsupported))
}

impl FileExt for LossyFile {
    fn read_at(&self, buf: &mut [u8], offset: u64) -> io::Result<usize> {
        let octets = self.stored.octets.try_borrow().or(refused())?;
        let start = octets.seen.len().min(offset as usize);
        let count = buf.len().min(octets.seen.len() - start);
        buf[..count].copy_from_slice(&octets.seen[start..start + count]);
        Ok(count)
    }

    fn write_at(&self, buf: &[u8], offset: u64) -> io::Result<usize> {
        let mut octets = self.stored.octets.try_borrow_mut().or(refused())?;
        octets.write(offset as usize, buf)?;
        Ok(buf.len())
    }
}

impl Keepable for LossyFile {
    fn keep(&self) -> io::Result<()> {
        Ok(())
    }
}

impl Read for LossyFile {
    fn read(&mut self, _buf: &mut [u8]) -> io::Result<usize> {
        refused()
    }
}

impl Write for LossyFile {
    fn write(&mut self, _buf: &[u8]) -> io::Result<usize> {
        refused()
    }

    fn flush(&mut self) -> io::Result<()> {
        Ok(())
    }
}

impl Seek for LossyFile {
    fn seek(&mut self, _to: SeekFrom) -> io::Result<u64> {
        refused()
    }
}

impl OpenFile for LossyFile {
    fn metadata(&self) -> io::Result<Metadata> {
        let octets = self.stored.octets.try_borrow().or(refused())?;
        Ok(Metadata::of_file(octets.seen.len() as u64))
    }

    fn set_len(&self, size: u64) -> io::Result<()> {
        let mut octets = self.stored.octets.try_borrow_mut().or(refused())?;
        octets.cut(size as usize);
        Ok(())
    }

    fn sync_all(&self) -> io::Result<()> {
        let fails = self.syncs.fails();
        if self.is_folder {
            return if fails { refused() } else { Ok(()) };
        }
        let mut octets = self.stored.octets.try_borrow_mut().or(refused())?;
        octets.sync(fails)
    }

    fn sync_data(&self) -> io::Result<()> {
        self.sync_all()
    }
}

impl Files for LossyFiles {
    type File = LossyFile;

    type Dir = LossyFile;

    fn open_file(&self, how: &OpenOptions, path: &str) -> io::Result<LossyFile> {
        how.check()?;
        let is_folder = path == "folder";
        if !is_folder {
            self.stored.is_there.set(true);
        }
        Ok(LossyFile {
            stored: self.stored.clone()?,
            syncs: self.syncs.clone()?,
            is_folder,
        })
    }

    fn symlink_metadata(&self, _path: &str) -> io::Result<Metadata> {
        if !self.stored.is_there.get() {
            return Err(io::Error::from(ErrorKind::NotFound));
        }
        let octets = self.stored.octets.try_borrow().or(refused())?;
        Ok(Metadata::of_file(octets.seen.len() as u64))
    }

    fn open_dir(&self, _path: &str) -> io::Result<LossyFile> {
        refused()
    }

    fn metadata(&self, _path: &str) -> io::Result<Metadata> {
        refused()
    }

    fn copy(&self, _from: &str, _to: &str) -> io::Result<u64> {
        refused()
    }

    fn rename(&self, _from: &str, _to: &str) -> io::Result<()> {
        refused()
    }

    fn remove_file(&self, _path: &str) -> io::Result<()> {
        refused()
    }

    fn create_dir(&self, _path: &str) -> io::Result<()> {
        refused()
    }

    fn remove_dir(&self, _path: &str) -> io::Result<()> {
        refused()
    }

    fn remove_dir_all<B: Allocator>(&self, _alloc: B, _path: &str) -> io::Result<()> {
        refused()
    }
}
