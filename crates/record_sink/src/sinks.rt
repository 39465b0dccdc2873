//! The trait of what takes records.
ghost use Rattle.std.specs.Prelude.{◌≡◌, List, [], ◌∷◌, ◌++◌, OnOk};
ghost use Rattle.pcp_base.specs.declared.records.Record.{Record};
ghost use Rattle.pcp_base.specs.Records.{IsWellFormedRecord};

use pcp_base::{Memory, Record};
use std::slice;

/// A value that takes well formed records, one behind the other.
pub trait RecordSink {
    /// The records that it took, in order.
    ghost taken: { Self → List Record };

    /// Takes a record. The one error is want of memory.
    fn take(&mut self, kept: &Record) -> Result<(), Memory>
        requires { IsWellFormedRecord kept.now }
        ensures { OnOk result (taken self.new ≡ taken self.old ++ kept.now ∷ []) };
}

impl RecordSink for Vec<Record> {
    ghost taken = { λ records. records.items };

    fn take(&mut self, kept: &Record) -> Result<(), Memory> {
        self.extend_from_slice(slice::from_ref(kept))?;
        Ok(())
    }
}
