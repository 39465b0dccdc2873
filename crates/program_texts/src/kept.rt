//! A source whose octets are kept.
use pcp_base::Failed;
use pcp_io::Source;

/// A source that gives what another one gives, and keeps it to be looked at again.
#[derive(Drop)]
pub struct KeptSource<S: Source> {
    source: S,
    // what it gave; none where nothing is kept, or no memory was found for it
    kept: Option<Vec<u8>>,
}

impl<S: Source> KeptSource<S> {
    ghost use Rattle.std.specs.Prelude.{◌≡◌};

    /// What this source gives is kept behind these octets; nothing is kept where there are none.
    pub fn of(source: S, kept: Option<Vec<u8>>) -> KeptSource<S>
        ensures { result.source ≡ source }
    {
        KeptSource { source, kept }
    }

    /// What was kept.
    pub fn kept(&self) -> Option<&[u8]> {
        match &self.kept {
            Some(kept) => Some(kept.as_slice()),
            None => None,
        }
    }

    /// Keeps what was read.
    fn keep(&mut self, piece: &[u8])
        ensures { self.new.source ≡ self.old.source }
    {
        let Some(mut kept) = self.kept.take() else {
            return;
        };
        if kept.extend_from_slice(piece).is_ok() {
            self.kept = Some(kept);
        }
    }
}

impl<S: Source> Source for KeptSource<S> {
    ghost left = { λ kept. S.left kept.source };

    ghost faults = { λ kept. S.faults kept.source };

    fn read(&mut self, piece: &mut [u8]) -> Result<usize, Failed> {
        let count = self.source.read(piece)?;
        self.keep(&piece[..count]);
        Ok(count)
    }
}
