//! Where random words come from.
ghost use Rattle.std.specs.Prelude.{◌≡◌, ℕ, Option, IfOk, OnErr};
ghost use Rattle.pcp_io.specs.Faults.{HasCause};
ghost use Rattle.random_words.specs.RandomWords.{IsNextWord, RandomWords};

use pcp_base::Failed;

/// Random words of the outside.
pub trait Entropy {
    // The words that it will give, where it tells them.
    ghost words: { Self → Option RandomWords };

    // How many faults it has counted.
    ghost faults: { Self → ℕ };

    /// Gives the next word. After `Failed` none was taken of those that it tells, and a fault was
    /// counted.
    fn word(&mut self) -> Result<u32, Failed>
        ensures gives { IfOk result (IsNextWord (words self.old) (words self.new)) }
        ensures unchanged { OnErr result (words self.new ≡ words self.old) }
        ensures cause { HasCause (faults self.old) (faults self.new) result };
}
