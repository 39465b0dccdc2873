//! Random words out of the octets of a source. Nothing is told of the words that will come.
ghost use Rattle.std.specs.Prelude.{◌≡◌};

use crate::entropies::Entropy;
use pcp_base::Failed;
use pcp_io::{FileSource, Source};
use std::marker::Model;
use std::rt::Files;

/// Random words out of the octets of a source, four a word. Each fault of the source, and each end of
/// it inside a word or before one, is a fault that it counts, and nothing else is; the octets that came
/// of that word are lost. A count that stands at 2^64 - 1 stands still.
#[derive(Drop)]
pub struct SourceEntropy<S: Source + Drop> {
    source: S,
    faults: u64,
}

/// Random words out of a file, such as `/dev/urandom`.
pub type FileEntropy<F> = SourceEntropy<FileSource<F>>;

impl<S: Source + Drop> Model for SourceEntropy<S> {
    ghost use Rattle.std.specs.Prelude.{ℕ};

    // How many faults it has counted.
    ghost Value = { ℕ };

    ghost view = { λ s. s.faults };
}

impl<S: Source + Drop> SourceEntropy<S> {
    /// Words out of this source; no fault is counted.
    pub fn of(source: S) -> SourceEntropy<S>
        ensures { result ≡ 0 }
    {
        SourceEntropy { source, faults: 0 }
    }
}

impl<F: Files + Drop> SourceEntropy<FileSource<F>> {
    /// Words out of the file of this path, which is opened at the first word; while it can't be opened,
    /// each word tries again and fails. No fault is counted.
    pub fn new(files: F, path: String) -> FileEntropy<F>
        ensures { result ≡ 0 }
    {
        SourceEntropy::of(FileSource::new(files, path))
    }
}

/// The next four octets of a source.
fn four_of<S: Source>(source: &mut S) -> Result<[u8; 4], Failed> {
    let mut octets = [0; 4];
    let mut read = 0;
    while read < octets.len() {
        let count = source.read(&mut octets[read..])?;
        if count == 0 {
            return Err(Failed);
        }
        read += count;
    }
    Ok(octets)
}

impl<S: Source + Drop> Entropy for SourceEntropy<S> {
    ghost use Rattle.std.specs.Prelude.{None, OnOk, OnErr};
    ghost use Rattle.pcp_io.specs.CallLogs.{one_more};
    ghost use Rattle.pcp_io.specs.Faults.{HasCause};

    ghost words = { λ _. None };

    ghost faults = { λ s. s };

    fn word(&mut self) -> Result<u32, Failed>
        ensures cause { HasCause self.old self.new result }
        ensures same { OnOk result (self.new ≡ self.old) }
        ensures counted { OnErr result (self.new ≡ one_more self.old) }
    {
        match four_of(&mut self.source) {
            Ok(octets) => Ok(u32::from_be_bytes(octets)),
            Err(_) => {
                self.faults = self.faults.saturating_add(1);
                Err(Failed)
            }
        }
    }
}
