//! What a list of records stands for, as a value that takes them one by one.
ghost use Rattle.std.specs.Prelude.{◌≡◌, Ok, true, false, OnOk};
ghost use Rattle.pcp_base.specs.States.{State, empty_state};
ghost use Rattle.pcp_base.specs.Apply.{apply, apply_first};
ghost use Rattle.pcp_base.specs.Fits.{Fits, FitsFirst};

use crate::errors::Memory;
use crate::records::Record;
use std::alloc::Global;

/// A value that stands for the state that records have made. Between two calls of `clear` it takes
/// records of one format alone, by `admit` or by `admit_first`.
pub trait Replay {
    /// The table, the ends, the base, the address, the last moment, and whether a Start came.
    ghost state: { Self → State };

    /// It is new or was cleared, and nothing but `admit` changed it since.
    ghost replaying: { Self → Type 0 };

    /// It is new or was cleared, and nothing but `admit_first` changed it since.
    ghost replaying_first: { Self → Type 0 };

    /// What it is made with, and no call changes.
    ghost Lasting: { Type 0 };

    /// What it is made with, and no call changes.
    ghost lasting: { Self → Lasting };

    /// Begins anew, without a record.
    fn clear(&mut self)
        ensures empty { state self.new ≡ empty_state }
        ensures lasting { lasting self.new ≡ lasting self.old }
        ensures ready { replaying self.new }
        ensures ready_first { replaying_first self.new };

    /// Applies a record that fits; false, and nothing changes, exactly where it doesn't fit. After
    /// `Memory` it is to be cleared.
    fn admit(&mut self, alloc: Global, kept: &Record) -> Result<bool, Memory>
        requires { replaying self.old }
        ensures fits { result ≡ Ok true → Fits (state self.old) kept.now }
        ensures applied { result ≡ Ok true
            → state self.new ≡ apply (state self.old) kept.now }
        ensures refused { result ≡ Ok false → ¬ (Fits (state self.old) kept.now) }
        ensures unchanged { result ≡ Ok false → state self.new ≡ state self.old }
        ensures lasting { lasting self.new ≡ lasting self.old }
        ensures ready { OnOk result (replaying self.new) };

    /// `admit` by the rules of the first format, which knows no ends and no address.
    fn admit_first(&mut self, alloc: Global, kept: &Record) -> Result<bool, Memory>
        requires { replaying_first self.old }
        ensures fits { result ≡ Ok true → FitsFirst (state self.old) kept.now }
        ensures applied { result ≡ Ok true
            → state self.new ≡ apply_first (state self.old) kept.now }
        ensures refused { result ≡ Ok false → ¬ (FitsFirst (state self.old) kept.now) }
        ensures unchanged { result ≡ Ok false → state self.new ≡ state self.old }
        ensures lasting { lasting self.new ≡ lasting self.old }
        ensures ready { OnOk result (replaying_first self.new) };
}
