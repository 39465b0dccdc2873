//! A sink over standard output. It tells nothing of what it took.
use crate::sinks::Sink;
use pcp_base::Failed;
use std::io::{Stdout, Write};
use std::marker::Model;

/// A sink that hands octets to a writer, unbuffered. Each error of the writer, and each write of 0
/// octets of a piece that isn't empty, is a fault that it counts, and nothing else is. A count that
/// stands at 2^64 - 1 stands still.
#[derive(Drop)]
pub struct WriteSink<W: Write> {
    writer: W,
    faults: u64,
}

/// Octets to standard output.
pub type StdSink = WriteSink<Stdout>;

impl<W: Write> Model for WriteSink<W> {
    ghost use Rattle.std.specs.Prelude.{ℕ};

    // How many faults it has counted.
    ghost Value = { ℕ };

    ghost view = { λ s. s.faults };
}

impl<W: Write> WriteSink<W> {
    ghost use Rattle.std.specs.Prelude.{◌≡◌};

    /// A sink over this writer that has counted no fault.
    pub fn of(writer: W) -> WriteSink<W>
        ensures { result ≡ 0 }
    {
        WriteSink { writer, faults: 0 }
    }
}

impl WriteSink<Stdout> {
    ghost use Rattle.std.specs.Prelude.{◌≡◌};

    /// A sink to standard output that has counted no fault.
    pub fn new(stdout: Stdout) -> StdSink
        ensures { result ≡ 0 }
    {
        WriteSink::of(stdout)
    }
}

impl<W: Write> Sink for WriteSink<W> {
    ghost use Rattle.std.specs.Prelude.{◌≡◌, IfOk, OnOk, OnErr, None};
    ghost use Rattle.pcp_io.specs.CallLogs.{one_more};
    ghost use Rattle.pcp_io.specs.Faults.{HasCause};
    ghost use Rattle.pcp_io.specs.Writes.{Writes};

    ghost held = { λ _. None };

    ghost faults = { λ s. s };

    fn write(&mut self, piece: &[u8]) -> Result<usize, Failed>
        ensures writes { IfOk result (Writes None None piece.now) }
        ensures cause { HasCause self.old self.new result }
        ensures same { OnOk result (self.new ≡ self.old) }
        ensures counted { OnErr result (self.new ≡ one_more self.old) }
    {
        match self.writer.write(piece) {
            Ok(count) if count > 0 || piece.is_empty() => Ok(count),
            _ => {
                self.faults = self.faults.saturating_add(1);
                Err(Failed)
            }
        }
    }
}
