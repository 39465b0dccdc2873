//! Where octets go.
ghost use Rattle.std.specs.Prelude.{◌≡◌, ℕ, List, Option, IfOk, OnOk, OnErr};
ghost use Rattle.std.specs.Io.KnownBytes.{append_known};
ghost use Rattle.pcp_io.specs.Faults.{HasCause};
ghost use Rattle.pcp_io.specs.Writes.{Writes, WritesPart};

use pcp_base::Failed;

/// Takes octets to the outside, in order.
pub trait Sink {
    // The octets that it took, where the sink tells them.
    ghost held: { Self → Option (List ℕ) };

    // How many faults it has counted.
    ghost faults: { Self → ℕ };

    /// Takes first octets of the piece and says how many, at least one of a piece that isn't empty.
    /// After `Failed` nothing was taken, and a fault was counted.
    fn write(&mut self, piece: &[u8]) -> Result<usize, Failed>
        ensures writes { IfOk result (Writes (held self.old) (held self.new) piece.now) }
        ensures unchanged { OnErr result (held self.new ≡ held self.old) }
        ensures cause { HasCause (faults self.old) (faults self.new) result };
}

/// Writes all the octets, in at most as many writes as there are octets. After `Failed` some first
/// ones were taken, not all, and a fault was counted.
pub fn write_all<W: Sink>(sink: &mut W, octets: &[u8]) -> Result<(), Failed>
    ensures all { OnOk result (W.held sink.new ≡ append_known (W.held sink.old) octets.now) }
    ensures part { OnErr result (WritesPart (W.held sink.old) (W.held sink.new) octets.now) }
    ensures cause { HasCause (W.faults sink.old) (W.faults sink.new) result }
{
    let mut taken = 0;
    while taken < octets.len() {
        taken += sink.write(&octets[taken..])?;
    }
    Ok(())
}
