//! A disk over a file. It tells nothing of its octets.
ghost use Rattle.std.specs.Prelude.{◌≡◌, ◌+◌, ◌^◌, ◌≤◌, true, false, IfOk, IsOk, IsErr, OnOk, OnErr, length};

use crate::disks::LeaseDisk;
use crate::memory::MOST_OCTETS;
use pcp_base::Failed;
use std::fs::{File, OpenFile, OpenOptions};
use std::io;
use std::io::ErrorKind;
use std::marker::Model;
use std::os::unix::fs::{FileExt, MetadataExt, OpenOptionsExt};
use std::path::Path;
use std::rt::Files;

/// A disk over a regular file, which only its owner may read and write, and which it keeps for this
/// process alone from the first call that opens it until it is dropped. The file is made at the first
/// write, cut or sync; until then a file that is missing in a folder that is there is read as an empty
/// one. Each error of the file or of its folder is a fault that it counts, and so are another process
/// that keeps the file, a link or a device in its place, a file that has another name, a length above
/// 2^62, a write past that, and each write, cut and sync after a sync that failed; nothing else is. A
/// count that stands at 2^64 - 1 stands still.
#[derive(Drop)]
pub struct FileDisk<F: Files + Drop> {
    side: SideFile<F>,
    // whether a sync failed
    lost: bool,
    faults: u64,
}

impl<F: Files + Drop> Model for FileDisk<F> {
    ghost use Rattle.lease_disk.specs.FileCounts.{FileCounts};

    ghost Value = { FileCounts };

    ghost view = { λ d. record { faults = d.faults; lost = d.lost } };
}

impl<F: Files + Drop> FileDisk<F> {
    ghost use Rattle.std.specs.Prelude.{◌≡◌, true, false};
    ghost use Rattle.pcp_io.specs.CallLogs.{one_more};

    /// A disk over the file of this path that has counted no fault. While the file can't be opened
    /// or made, each call tries again and fails.
    pub fn new(files: F, path: String) -> FileDisk<F>
        ensures { result ≡ record { faults = 0; lost = false } }
    {
        FileDisk {
            side: SideFile {
                files,
                path,
                kept: None,
                written: None,
                was_missing: false,
                sync_failed: false,
                last: None,
            },
            lost: false,
            faults: 0,
        }
    }

    /// The path of the file.
    pub fn path(&self) -> &str {
        self.side.path.as_str()
    }

    /// Why the last call that failed did, if one failed.
    pub fn last_error(&self) -> Option<&io::Error> {
        self.side.last.as_ref()
    }

    /// Counts a fault, and keeps why.
    fn fail(&mut self, error: io::Error) -> Failed
        ensures counted { self.new.faults ≡ one_more self.old.faults }
        ensures lost { self.old.lost ≡ true → self.new.lost ≡ true }
    {
        self.lost = self.lost || self.side.sync_failed;
        self.faults = self.faults.saturating_add(1);
        self.side.last = Some(error);
        Failed
    }
}

impl<F: Files + Drop> LeaseDisk for FileDisk<F>
where
    F::File: FileExt + Keepable,
{
    ghost use Rattle.std.specs.Prelude.{[], OnOk};
    ghost use Rattle.lease_disk.specs.FileCounts.{StaysLost};
    ghost use Rattle.pcp_io.specs.CallLogs.{one_more};

    ghost tells = { ⊥ };

    ghost lost = { λ d. d.lost };

    ghost seen = { λ _. [] };

    ghost may_leave = { λ _ _. ⊥ };

    ghost moment = { λ _. 0 };

    ghost left_since = { λ _ _ _. ⊥ };

    ghost faults = { λ d. d.faults };

    ghost seen_now = { λ _ told. told };

    ghost counts_now = { λ _ _ _ _ now. now };

    ghost since_earlier = { λ _ _ _ _ _ was. was };

    ghost only_now = { λ _ _ was. was };

    fn len(&mut self) -> Result<u64, Failed>
        ensures most { IfOk result (λ size. size ≤ 2 ^ 62) }
        ensures same { OnOk result (self.new ≡ self.old) }
        ensures counted { OnErr result (self.new.faults ≡ one_more self.old.faults) }
    {
        match self.side.len() {
            Ok(size) => Ok(size),
            Err(error) => Err(self.fail(error)),
        }
    }

    fn read_at(&mut self, place: u64, piece: &mut [u8]) -> Result<usize, Failed>
        ensures bound { IfOk result (λ n. n ≤ length piece.new) }
        ensures same { OnOk result (self.new ≡ self.old) }
        ensures counted { OnErr result (self.new.faults ≡ one_more self.old.faults) }
    {
        match self.side.read_at(place, piece) {
            Ok(count) => Ok(count),
            Err(error) => Err(self.fail(error)),
        }
    }

    fn write_at(&mut self, place: u64, piece: &[u8]) -> Result<(), Failed>
        ensures most { OnOk result (place + length piece.now ≤ 2 ^ 62) }
        ensures stays_lost { StaysLost self.old self.new result }
        ensures same { OnOk result (self.new ≡ self.old) }
        ensures counted { OnErr result (self.new.faults ≡ one_more self.old.faults) }
    {
        if self.lost {
            return Err(self.fail(io::Error::from(ErrorKind::Other)));
        }
        match self.side.write_at(place, piece) {
            Ok(()) => Ok(()),
            Err(error) => Err(self.fail(error)),
        }
    }

    fn cut(&mut self, length: u64) -> Result<(), Failed>
        ensures stays_lost { StaysLost self.old self.new result }
        ensures same { OnOk result (self.new ≡ self.old) }
        ensures counted { OnErr result (self.new.faults ≡ one_more self.old.faults) }
    {
        if self.lost {
            return Err(self.fail(io::Error::from(ErrorKind::Other)));
        }
        match self.side.cut(length) {
            Ok(()) => Ok(()),
            Err(error) => Err(self.fail(error)),
        }
    }

    fn sync(&mut self) -> Result<(), Failed>
        ensures same { OnOk result (self.new ≡ self.old) }
        ensures counted { OnErr result (self.new.faults ≡ one_more self.old.faults) }
        ensures stays_lost { StaysLost self.old self.new result }
    {
        if self.lost {
            return Err(self.fail(io::Error::from(ErrorKind::Other)));
        }
        match self.side.sync() {
            Ok(()) => Ok(()),
            Err(error) => Err(self.fail(error)),
        }
    }

    fn is_lost(&self) -> bool {
        self.lost
    }
}

/// A file that one process at a time may keep. The system gives it back when the file is closed,
/// also where its process ends without that.
pub trait Keepable {
    /// Keeps the file for this process alone, and fails at once where another one keeps it.
    fn keep(&self) -> io::Result<()>;
}

impl Keepable for File {
    fn keep(&self) -> io::Result<()> {
        Ok(self.try_lock()?)
    }
}

/// A file that is opened for reading at the first call, where it is there, and opened for writing, or
/// made, at the first write, cut or sync.
#[derive(Drop)]
struct SideFile<F: Files + Drop> {
    files: F,
    path: String,
    // the file as it was first opened for reading, which keeps it
    kept: Option<F::File>,
    // the file as it was opened for writing, or made
    written: Option<F::File>,
    // Whether a reading call found no file. One that is there later was made by somebody else.
    was_missing: bool,
    // Whether a sync of the file or of its folder failed. The system may then have lost what was
    // written before it, and reports success for the next sync all the same.
    sync_failed: bool,
    // why the last call that failed did
    last: Option<io::Error>,
}

impl<F: Files + Drop> SideFile<F>
where
    F::File: FileExt + Keepable,
{
    /// The file as it is read, if there is one.
    fn reader(&mut self) -> io::Result<Option<&F::File>> {
        if self.written.is_some() {
            return Ok(self.written.as_ref());
        }
        if self.kept.is_none() {
            self.kept = open_to_read(&self.files, self.path.as_str(), self.was_missing)?;
            self.was_missing = self.kept.is_none();
        }
        Ok(self.kept.as_ref())
    }

    /// The file as it is written.
    fn writer(&mut self) -> io::Result<&mut F::File> {
        let file = match self.written.take() {
            Some(file) => file,
            None => self.open_to_write()?,
        };
        Ok(self.written.insert(file))
    }

    /// Opens the file for writing, or makes it, and makes its entry in the folder durable.
    fn open_to_write(&mut self) -> io::Result<F::File> {
        let is_there = self.reader()?.is_some();
        let file = open_to_write(&self.files, self.path.as_str(), is_there)?;
        let done = sync_folder(&self.files, self.path.as_str());
        self.sync_failed = done.is_err();
        done?;
        Ok(file)
    }

    fn len(&mut self) -> io::Result<u64>
        ensures most { IfOk result (λ size. size ≤ 2 ^ 62) }
    {
        let Some(file) = self.reader()? else {
            return Ok(0);
        };
        let size = file.metadata()?.len();
        if size > MOST_OCTETS {
            return Err(io::Error::from(ErrorKind::FileTooLarge));
        }
        Ok(size)
    }

    fn read_at(&mut self, place: u64, piece: &mut [u8]) -> io::Result<usize>
        ensures bound { IfOk result (λ n. n ≤ length piece.new) }
    {
        match self.reader()? {
            Some(file) => read_uninterrupted(file, place, piece),
            None => Ok(0),
        }
    }

    fn write_at(&mut self, place: u64, piece: &[u8]) -> io::Result<()>
        ensures most { OnOk result (place + length piece.now ≤ 2 ^ 62) }
    {
        if place > MOST_OCTETS || piece.len() as u64 > MOST_OCTETS - place {
            return Err(io::Error::from(ErrorKind::FileTooLarge));
        }
        self.writer()?.write_all_at(piece, place)
    }

    fn cut(&mut self, length: u64) -> io::Result<()> {
        let size = self.writer()?.metadata()?.len();
        if size > length {
            self.writer()?.set_len(length)?;
        }
        Ok(())
    }

    fn sync(&mut self) -> io::Result<()> {
        let done = self.writer()?.sync_all();
        self.sync_failed = done.is_err();
        done
    }
}

/// One read from a place on, which is made again where a signal interrupts it.
fn read_uninterrupted<R: FileExt>(file: &R, place: u64, piece: &mut [u8]) -> io::Result<usize>
    ensures bound { IfOk result (λ n. n ≤ length piece.new) }
{
    for _ in 0..u64::MAX {
        match file.read_at(piece, place) {
            Err(error) if error.kind() == ErrorKind::Interrupted => {}
            done => return done,
        }
    }
    Err(io::Error::from(ErrorKind::Interrupted))
}

/// Opens the file for reading, and keeps it, where it is there; a file that was missing before is
/// refused. A missing folder is an error.
fn open_to_read<F: Files>(files: &F, path: &str, was_missing: bool) -> io::Result<Option<F::File>>
where
    F::File: Keepable,
{
    if !is_there(files, path)? {
        File::open(files, folder_of(path))?;
        return Ok(None);
    }
    if was_missing {
        return Err(io::Error::from(ErrorKind::AlreadyExists));
    }
    let file = OpenOptions::new().read(true).open(files, path)?;
    keep(&file)?;
    Ok(Some(file))
}

/// Opens a file for writing that is kept already, or makes one that isn't there, and keeps it.
fn open_to_write<F: Files>(files: &F, path: &str, is_there: bool) -> io::Result<F::File>
where
    F::File: Keepable,
{
    if is_there {
        return OpenOptions::new().read(true).write(true).open(files, path);
    }
    let file = OpenOptions::new()
        .read(true)
        .write(true)
        .create_new(true)
        .mode(0o600)
        .open(files, path)?;
    keep(&file)?;
    Ok(file)
}

/// Keeps a file that was opened, unless it isn't a regular one or has another name.
fn keep<K: OpenFile + Keepable>(file: &K) -> io::Result<()> {
    let found = file.metadata()?;
    if !found.is_file() || found.nlink() > 1 {
        return Err(io::Error::from(ErrorKind::InvalidInput));
    }
    file.keep()
}

/// Makes the entry of a file in its folder durable.
fn sync_folder<F: Files>(files: &F, path: &str) -> io::Result<()> {
    File::open(files, folder_of(path))?.sync_all()
}

/// Whether the path names a file. What isn't a regular one, as a link, a folder or a device, is an
/// error.
fn is_there<F: Files>(files: &F, path: &str) -> io::Result<bool> {
    match files.symlink_metadata(path) {
        Ok(found) if found.is_file() => Ok(true),
        Ok(_) => Err(io::Error::from(ErrorKind::InvalidInput)),
        Err(error) if error.kind() == ErrorKind::NotFound => Ok(false),
        Err(error) => Err(error),
    }
}

/// The folder that a path names its file in.
fn folder_of(path: &str) -> &str {
    match Path::new(path).parent().and_then(|folder| folder.to_str()) {
        Some("") | None => ".",
        Some(folder) => folder,
    }
}
