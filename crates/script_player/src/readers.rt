//! The lines of a source, read through a bounded buffer.
ghost use Rattle.std.specs.Prelude.{◌≡◌, ◌≢◌, ◌+◌, ◌<◌, ◌≤◌, [], drop, length, slice_get, Err, IfOk, IfNone, IfErr, OnErr};
ghost use Rattle.std.specs.Io.KnownBytes.{IsAtEnd};
ghost use Rattle.pcp_io.specs.Faults.{HasCause, HasRisen};
ghost use Rattle.script_player.specs.Reading.{Reading, rest_of, Ends, Stops};
ghost use Rattle.script_player.specs.declared.faults.LineFault.TheVariants.{Read};
ghost use Rattle.script_player.specs.declared.readers.TheConstants.{PIECE};

use crate::faults::LineFault;
use pcp_base::Failed;
use pcp_io::Source;
use std::marker::Model;

/// How many octets are read at a time.
pub(crate) const PIECE: usize = 4_096;

/// How many octets a line may have, without its line feed, and how many all lines together.
#[derive(Clone, Copy)]
pub(crate) struct Limits {
    pub(crate) longest: usize,
    pub(crate) most: u64,
}

/// How a line ended.
#[derive(Clone, Copy, Debug, PartialEq, Eq)]
pub(crate) enum Ending {
    /// By its line feed.
    Feed,
    /// By the end of the source.
    Last,
    /// There was no further line.
    End,
}

/// Reads a source in pieces of 4,096 octets, and gives its lines.
#[derive(Drop)]
pub(crate) struct LineReader {
    buffer: [u8; PIECE],
    // where the octets begin that were read but not used, and where they end
    start: usize,
    end: usize,
    // how many octets were used
    used: u64,
    limits: Limits,
}

impl Model for LineReader {
    ghost use Rattle.std.specs.Prelude.{drop, take};
    ghost use Rattle.script_player.specs.Reading.{HasBounds, Reading};

    ghost Value = { Reading };

    ghost view = { λ r. record {
      pending = drop r.start (take r.end r.buffer);
      used = r.used;
      limits = r.limits;
    } };

    ghost invariant = { λ r. HasBounds r.start r.end r.used r.limits };
}

impl LineReader {
    /// A reader of which nothing was read.
    pub(crate) fn new(limits: Limits) -> LineReader
        ensures { result ≡ record { pending = []; used = 0; limits = limits } }
    {
        LineReader {
            buffer: [0; PIECE],
            start: 0,
            end: 0,
            used: 0,
            limits,
        }
    }

    /// Reads the next line into `text`, without its line feed; `NotLine` where it is too long, or
    /// all lines are by its end. No octet is read before all that were read are used, and none is
    /// used behind a line that is refused.
    pub(crate) fn next_line<S: Source>(
        &mut self,
        input: &mut S,
        text: &mut Vec<u8>,
    ) -> Result<Ending, LineFault>
        ensures ends { IfOk result
            (Ends self.old.limits self.old self.new (S.left input.old) (S.left input.new)
            text.new.items) }
        ensures stops { IfErr result
            (Stops self.old.limits self.old self.new (S.left input.old) (S.left input.new)
            text.new.items) }
        ensures limits { self.new.limits ≡ self.old.limits }
        ensures cause { result ≡ Err Read → HasRisen (S.faults input.old) (S.faults input.new) }
        ensures later { S.faults input.old ≤ S.faults input.new }
    {
        text.clear();
        loop {
            let Ok(next) = self.peek(input) else {
                return Err(LineFault::Read);
            };
            let Some(octet) = next else {
                return Ok(if text.is_empty() {
                    Ending::End
                } else {
                    Ending::Last
                });
            };
            if self.used == self.limits.most {
                return Err(LineFault::NotLine);
            }
            if octet == b'\n' {
                self.advance();
                return Ok(Ending::Feed);
            }
            text.push(octet)?;
            self.advance();
            if text.len() > self.limits.longest {
                return Err(LineFault::NotLine);
            }
        }
    }

    // The next octet, which stays where it is; none at the end of the source.
    fn peek<S: Source>(&mut self, input: &mut S) -> Result<Option<u8>, Failed>
        ensures octet { IfOk result (λ octet. octet ≡ slice_get self.new.pending 0) }
        ensures at_end { IfOk result (λ octet. IfNone octet (IsAtEnd (S.left input.new))) }
        ensures unchanged { rest_of self.new (S.left input.new)
            ≡ rest_of self.old (S.left input.old) }
        ensures piece { length self.new.pending ≤ PIECE }
        ensures used { self.new.used ≡ self.old.used }
        ensures limits { self.new.limits ≡ self.old.limits }
        ensures few { self.new.used ≤ self.new.limits.most }
        ensures empty { OnErr result (self.new.pending ≡ []) }
        ensures cause { HasCause (S.faults input.old) (S.faults input.new) result }
    {
        if self.start == self.end {
            let count = input.read(&mut self.buffer)?;
            self.start = 0;
            self.end = count;
        }
        Ok(if self.start < self.end {
            Some(self.buffer[self.start])
        } else {
            None
        })
    }

    // Uses the next octet.
    fn advance(&mut self)
        requires some { self.old.pending ≢ [] }
        requires room { self.old.used < self.old.limits.most }
        ensures pending { self.new.pending ≡ drop 1 self.old.pending }
        ensures piece { length self.new.pending ≤ PIECE }
        ensures used { self.new.used ≡ self.old.used + 1 }
        ensures limits { self.new.limits ≡ self.old.limits }
    {
        self.start += 1;
        self.used += 1;
    }
}
