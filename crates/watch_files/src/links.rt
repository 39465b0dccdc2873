//! A journal that is looked at by its files.
use crate::files::{FileFault, JournalReader};
use lane_loops::moment_of;
use program_links::system_time;
use std::alloc::{AllocError, Global};
use std::time::Duration;
use std::{io, thread};
use watch_runs::{JournalLooks, Look, LookFault};

/// How long a pause between two looks is, in milliseconds.
const PAUSE_MS: u64 = 20;

/// Looks at the files of a journal.
#[derive(Drop)]
pub(crate) struct FileLooks<'r> {
    rt: &'r HostRuntime,
    reader: JournalReader<&'r HostRuntime>,
    /// Why the last look failed, where the system told it.
    cause: Option<io::Error>,
}

impl<'r> FileLooks<'r> {
    /// The journal of the external address with this index, in this folder.
    pub(crate) fn new(
        rt: &'r HostRuntime,
        folder: &str,
        shard: usize,
    ) -> Result<FileLooks<'r>, AllocError> {
        let a = format!(in rt.alloc(); "{folder}/{shard}a")?;
        let b = format!(in rt.alloc(); "{folder}/{shard}b")?;
        Ok(FileLooks {
            rt,
            reader: JournalReader::new(rt, a, b),
            cause: None,
        })
    }

    /// Why the last look failed, where the system told it.
    pub(crate) fn cause(&self) -> Option<&io::Error> {
        self.cause.as_ref()
    }
}

impl<'r> JournalLooks for FileLooks<'r> {
    ghost use Rattle.std.specs.Prelude.{None};

    ghost left = { λ _. None };

    fn look(&mut self, alloc: Global) -> Result<Look, LookFault> {
        let time = moment_of(system_time(self.rt));
        match self.reader.look(alloc) {
            Ok((a, b)) => Ok(Look { time, a, b }),
            Err(FileFault::File(error)) => {
                self.cause = Some(error);
                Err(LookFault::File)
            }
            Err(FileFault::Memory) => Err(LookFault::Memory),
        }
    }

    fn pause(&mut self) {
        thread::sleep(self.rt, Duration::from_millis(PAUSE_MS));
    }
}
