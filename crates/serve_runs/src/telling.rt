//! How serving ended is told.
ghost use Rattle.std.specs.Prelude.{◌≡◌, ◌≤◌, length, IfOk, Ok, Err};
ghost use Rattle.pcp_base.specs.declared.configs.TheConstants.{MOST_EXTERNALS};
ghost use Rattle.pcp_io.specs.Faults.{HasRisen};
ghost use Rattle.server_commands.specs.declared.statuses.Status.TheVariants as Statuses;
ghost use Rattle.serve_runs.specs.Served.{IsToldTo};

use crate::lost::ended_as;
use crate::tally_texts::tally_text;
use job_workers::{Tally, TallyRow};
use lease_disk::{DiskPair, LeaseDisk};
use pcp_io::{Sink, write_all};
use request_workers::ServeFault;
use server_commands::Status;
use std::alloc::Global;

/// Writes the lines of a tally, and tells the first disk that was lost.
fn tell_rows<W: Sink, D: LeaseDisk>(
    alloc: Global,
    rows: &[TallyRow],
    pairs: &[DiskPair<D>],
    out: &mut W,
) -> Status
    requires few { length rows.now ≤ MOST_EXTERNALS }
    ensures told { IsToldTo D.lost (Ok rows.now) pairs.now out.old out.new (W.held out.old) (W.held out.new) result }
    ensures write_fault { result ≡ Statuses.WriteFault →
        HasRisen (W.faults out.old) (W.faults out.new) }
    ensures writes { W.faults out.old ≤ W.faults out.new }
{
    let Ok(text) = tally_text(alloc, rows) else {
        return Status::Memory;
    };
    match write_all(out, &text) {
        Ok(()) => ended_as(rows, pairs),
        Err(_) => Status::WriteFault,
    }
}

/// Writes the lines of the tally, where serving ended by a stop, and tells the first disk that was lost.
pub(crate) fn tell_tally<W: Sink, D: LeaseDisk>(
    alloc: Global,
    tally: Result<Tally, ServeFault>,
    pairs: &[DiskPair<D>],
    out: &mut W,
) -> Status
    requires few { IfOk tally (λ rows. length rows ≤ MOST_EXTERNALS) }
    ensures told { IsToldTo D.lost tally pairs.now out.old out.new (W.held out.old) (W.held out.new) result }
    ensures write_fault { result ≡ Statuses.WriteFault →
        HasRisen (W.faults out.old) (W.faults out.new) }
    ensures writes { W.faults out.old ≤ W.faults out.new }
{
    match tally {
        Ok(rows) => tell_rows(alloc, rows.items(), pairs, out),
        Err(ServeFault::Read) => Status::ReadFault,
        Err(ServeFault::Memory) => Status::Memory,
        Err(ServeFault::Threads) => Status::Memory,
    }
}
