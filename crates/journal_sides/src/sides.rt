//! The two sides of a journal.

/// One of the sides of a pair of disks.
#[derive(Clone, Copy, Debug, PartialEq, Eq)]
pub enum Side {
    /// has even generations
    A,
    /// has odd generations
    B,
}

impl Side {
    ghost use Rattle.std.specs.Prelude.{◌≡◌};
    ghost use Rattle.journal_sides.specs.Writes.{other, side_parity};

    /// The other side.
    pub fn other(self) -> Side
        ensures { result ≡ other self }
    {
        match self {
            Side::A => Side::B,
            Side::B => Side::A,
        }
    }

    /// The remainder by 2 of the generations of this side.
    pub fn parity(self) -> u64
        ensures { result ≡ side_parity self }
    {
        match self {
            Side::A => 0,
            Side::B => 1,
        }
    }
}
