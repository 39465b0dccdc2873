//! What holds of a run. A proof that needs a law calls its function.
ghost use Rattle.request_workers.specs.Counts.{RowsCount};
ghost use Rattle.request_workers.specs.Passes.{PassesStay};

use job_workers::JobHouse;

/// The row of an external address counts the jobs that were put for it, what its calls did with
/// them, and what was dropped.
pub fn rows_count<P, H: JobHouse<P>>(house: &H)
    ensures { RowsCount (H.calls house.now) }
{}

/// The passes that come back are those of the house still, in order.
pub fn passes_stay<P, H: JobHouse<P>>(house: &H)
    ensures { PassesStay (H.calls house.now) }
{}
