//! Where octets come from.
ghost use Rattle.std.specs.Prelude.{◌≡◌, ℕ, List, Option, IfOk, OnErr};
ghost use Rattle.pcp_io.specs.Faults.{HasCause};
ghost use Rattle.pcp_io.specs.Reads.{Reads};

use pcp_base::Failed;

/// Octets that come from outside, in order.
pub trait Source {
    // The octets that reads will give from here on, where the source tells them.
    ghost left: { Self → Option (List ℕ) };

    // How many faults it has counted.
    ghost faults: { Self → ℕ };

    /// Reads the next octets into the front of the piece and says how many, 0 for a piece that
    /// isn't empty exactly at the end. The rest of the piece stays as it is. After `Failed` nothing
    /// was read, the piece is as before, and a fault was counted.
    fn read(&mut self, piece: &mut [u8]) -> Result<usize, Failed>
        ensures reads { IfOk result (Reads (left self.old) (left self.new) piece.old piece.new) }
        ensures unchanged { OnErr result (left self.new ≡ left self.old) }
        ensures piece { OnErr result (piece.new ≡ piece.old) }
        ensures cause { HasCause (faults self.old) (faults self.new) result };
}
