//! The dispatcher's own pass of the house.
ghost use Rattle.std.specs.Prelude.{◌≡◌, ◌<◌, length, IfOk, OnErr};
ghost use Rattle.request_workers.specs.Passes.{SplitsFirst};
ghost use Rattle.request_workers.specs.Seats.{ArePasses};

use job_workers::JobHouse;
use pcp_base::Memory;
use std::alloc::Global;

/// Another pass of the first external address, for the dispatcher. The one error is want of memory.
pub fn split_first<P, H: JobHouse<P>>(
    house: &H,
    alloc: Global,
    passes: &mut Vec<P>,
) -> Result<P, Memory>
    requires passes { ArePasses (H.calls house.now) 0 passes.old.items }
    requires some { 0 < length passes.old.items }
    ensures other { IfOk result
        (SplitsFirst (H.calls house.now) passes.old.items passes.new.items) }
    ensures unchanged { OnErr result (passes.new.items ≡ passes.old.items) }
{
    house.split(alloc, &mut passes[0])
}
