//! Sources over files and standard input. They tell nothing of what they read.
ghost use Rattle.std.specs.Prelude.{◌≡◌, ◌≤◌, IfOk, OnErr, drop, length};

use crate::sources::Source;
use pcp_base::Failed;
use std::fs::File;
use std::io;
use std::io::{Read, Stdin};
use std::marker::Model;
use std::rt::Files;

/// The octets of a reader, at most 4,096 a read. Each error of the reader is a fault that it
/// counts, and nothing else is. A count that stands at 2^64 - 1 stands still.
#[derive(Drop)]
pub struct ReadSource<R: Read> {
    reader: R,
    faults: u64,
}

/// The octets of standard input.
pub type StdSource = ReadSource<Stdin>;

/// The octets of a file.
pub type FileSource<F> = ReadSource<LazyFile<F>>;

impl<R: Read> Model for ReadSource<R> {
    ghost use Rattle.std.specs.Prelude.{ℕ};

    // How many faults it has counted.
    ghost Value = { ℕ };

    ghost view = { λ s. s.faults };
}

impl<R: Read> ReadSource<R> {
    /// A source that gives what the reader gives, and has counted no fault.
    pub fn of(reader: R) -> ReadSource<R>
        ensures { result ≡ 0 }
    {
        ReadSource { reader, faults: 0 }
    }
}

impl ReadSource<Stdin> {
    /// A source of standard input that has counted no fault.
    pub fn new(stdin: Stdin) -> StdSource
        ensures { result ≡ 0 }
    {
        ReadSource::of(stdin)
    }
}

impl<F: Files + Drop> ReadSource<LazyFile<F>> {
    /// A source of the file of this path that has counted no fault. The file is opened at the first
    /// read; while it can't be opened, each read tries again and fails.
    pub fn new(files: F, path: String) -> FileSource<F>
        ensures { result ≡ 0 }
    {
        ReadSource::of(LazyFile {
            files,
            path,
            opened: None,
        })
    }
}

impl<R: Read> Source for ReadSource<R> {
    ghost use Rattle.std.specs.Prelude.{OnOk, None};
    ghost use Rattle.pcp_io.specs.CallLogs.{one_more};
    ghost use Rattle.pcp_io.specs.Faults.{HasCause};
    ghost use Rattle.pcp_io.specs.Reads.{Reads};

    ghost left = { λ _. None };

    ghost faults = { λ s. s };

    fn read(&mut self, piece: &mut [u8]) -> Result<usize, Failed>
        ensures reads { IfOk result (Reads None None piece.old piece.new) }
        ensures piece { OnErr result (piece.new ≡ piece.old) }
        ensures cause { HasCause self.old self.new result }
        ensures same { OnOk result (self.new ≡ self.old) }
        ensures counted { OnErr result (self.new ≡ one_more self.old) }
    {
        match read_front(&mut self.reader, piece) {
            Ok(count) => Ok(count),
            Err(_) => {
                self.faults = self.faults.saturating_add(1);
                Err(Failed)
            }
        }
    }
}

/// How many octets are read at most in one call.
const PIECE: usize = 4096;

/// One read, which leaves the rest of the piece as it is, and all of it where it fails.
fn read_front<R: Read>(reader: &mut R, piece: &mut [u8]) -> io::Result<usize>
    ensures bound { IfOk result (λ n. n ≤ length piece.new) }
    ensures rest { IfOk result (λ n. drop n piece.new ≡ drop n piece.old) }
    ensures err { OnErr result (piece.new ≡ piece.old) }
{
    let mut room = [0; PIECE];
    let most = piece.len().min(room.len());
    let count = reader.read(&mut room[..most])?;
    piece[..count].copy_from_slice(&room[..count]);
    Ok(count)
}

/// A file that is opened when it is read first.
#[derive(Drop)]
pub struct LazyFile<F: Files + Drop> {
    files: F,
    path: String,
    opened: Option<F::File>,
}

impl<F: Files + Drop> Read for LazyFile<F> {
    fn read(&mut self, buf: &mut [u8]) -> io::Result<usize> {
        if let Some(file) = &mut self.opened {
            return file.read(buf);
        }
        let file = File::open(&self.files, self.path.as_str())?;
        self.opened.insert(file).read(buf)
    }
}
