//! What holds of the run of an external address. A proof that needs a law calls its function.
ghost use Rattle.house_workers.specs.Laws.{AcknowledgedEntriesAreKept, BasesAreMoments, CrashesAreAlongHistories, CrashesAreRecovered, FaultedRowsHaveCauses, FaultsAreCounted, FullQueuesWereFilled, HousesRaiseBases, JobsAreCounted, OwnEntriesAreInOrder, OwnEntriesAreNoted, PromisesAreKept, RaisedMomentsAreBases, RepliesAreOfOwnEntries, UnsentAreCounted};

use lease_disk::LeaseDisk;
use lease_house::crashes_are_found;

/// The entries of a worker stand in the history that its pass has seen, in order and each once, behind
/// what it had seen before. That history is legal, and begins the one that `House::end` finds.
pub fn own_entries_are_noted<D: LeaseDisk>()
    ensures { OwnEntriesAreNoted D D.tells D.seen D.moment D.left_since D.may_leave D.faults }
{}

/// The entries of a worker, less the faults of disks, stand in the order of the jobs that it took: one
/// for each packet that isn't silent, and one with a Lose for each loss. Jobs whose call a disk
/// refused have none, nor have those whose call lacked memory and noted nothing.
pub fn own_entries_are_in_order<D: LeaseDisk>()
    ensures { OwnEntriesAreInOrder D D.tells D.seen D.moment D.left_since D.may_leave D.faults }
{}

/// The outbox of a worker was handed the replies of its own entries, in order and each once, but for
/// those of batches whose call was refused.
pub fn replies_are_of_own_entries<D: LeaseDisk>()
    ensures { RepliesAreOfOwnEntries D D.tells D.seen D.moment D.left_since D.may_leave D.faults }
{}

/// The jobs that count as faulted are at most `MOST_BATCH` times as many as the counts of the pair
/// have risen since the opening.
pub fn faults_are_counted<D: LeaseDisk>()
    ensures { FaultsAreCounted D D.tells D.seen D.moment D.left_since D.may_leave D.faults }
{}

/// A row of the tally counts jobs as faulted only where a count of the pair of its external address has
/// risen since the call's start, by its opening or by what was served.
pub fn faulted_rows_have_causes<D: LeaseDisk>()
    ensures { FaultedRowsHaveCauses D D.tells D.seen D.moment D.left_since D.may_leave D.faults }
{}

/// The row of an external address counts the jobs that were put for it, what its calls did with
/// them, and what was dropped.
pub fn jobs_are_counted<D: LeaseDisk>()
    ensures { JobsAreCounted D D.tells D.seen D.moment D.left_since D.may_leave D.faults }
{}

/// The replies that count as unsent are at most as many as the count of the outbox rose.
pub fn unsent_are_counted<D: LeaseDisk>()
    ensures { UnsentAreCounted D D.tells D.seen D.moment D.left_since D.may_leave D.faults }
{}

/// Jobs of an external address are dropped at a full queue only where at least `MOST_JOBS` of them were
/// put: of each row of the tally `taken` is at least that where `full` is above 0.
pub fn full_queues_were_filled<D: LeaseDisk>()
    ensures { FullQueuesWereFilled D D.tells D.seen D.moment D.left_since D.may_leave D.faults }
{}

/// At the end each entry of a batch that was answered stands in the history of its external address, and
/// a crash leaves the state to which that leads, or that with all that is in doubt.
pub fn acknowledged_entries_are_kept<D: LeaseDisk>()
    ensures { AcknowledgedEntriesAreKept D D.tells D.seen D.moment D.left_since D.may_leave D.faults }
{}

/// A crash at any moment of the call leaves what the opening leaves, or the state after some first
/// entries of the history that the end finds, or, right behind a fault, that with what was in doubt.
pub fn crashes_are_along_histories<D: LeaseDisk>()
    ensures { CrashesAreAlongHistories D D.tells D.seen D.moment D.left_since D.may_leave D.faults }
{}

/// What is promised of a server's answers holds of each external address, from the call's start to its end and
/// whatever it answers: its journal was opened, and one history that keeps the promises was served from the
/// state that was found there; a crash at any moment leaves the state after some first entries of it, or, right
/// behind a fault, that with what was in doubt: where a disk refused a call, what this was asked for; and the
/// outbox was handed replies of entries that stand in it, all of which the journal has at the end or, right
/// behind a fault, with what was in doubt.
pub fn promises_are_kept<D: LeaseDisk>()
    ensures { PromisesAreKept D D.tells D.seen D.moment D.left_since D.may_leave D.faults }
{}

/// What an opening finds of sides that a crash has left along a history: the state after some first
/// entries, or that with what was in doubt behind them, and then perhaps a Renumber.
pub fn crashes_are_recovered<D: LeaseDisk>()
    ensures { CrashesAreRecovered D D.tells D.seen D.moment D.left_since D.may_leave D.faults }
{
    crashes_are_found::<D>();
}

/// The epoch word is raised to bases and to no other moment. What a worker raised by its calls is the base of its
/// history after some first entries (`raised`); so the pass of each external address has raised, at the end, the
/// greatest base that the openings found, or a base of its own history (`houses`). Each base is the one with
/// which the records began, or the moment of one of them, of a Start, of a Lose, or of a Renumber to another
/// address (`bases`).
pub fn raised_moments_are_bases<D: LeaseDisk>()
    ensures raised { RaisedMomentsAreBases D D.tells D.seen D.moment D.left_since D.may_leave D.faults }
    ensures houses { HousesRaiseBases D D.tells D.seen D.moment D.left_since D.may_leave D.faults }
    ensures bases { BasesAreMoments }
{}
