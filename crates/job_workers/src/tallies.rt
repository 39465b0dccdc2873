//! What is counted of a shard's jobs.
ghost use Rattle.std.specs.Prelude.{◌≡◌, length};
ghost use Rattle.job_workers.specs.Tallies.{joined_rows, more, row_full, row_lost, row_replied, row_refused, row_starved};

use lease_house::HouseFault;
use pcp_base::Listed;
use status_board::JobCounts;

/// What became of the jobs of a shard. A count that stands at 2^64 - 1 stands still.
#[derive(Clone, Copy, Debug, PartialEq, Eq, Drop)]
pub struct TallyRow {
    /// jobs that the worker took
    pub taken: u64,
    /// replies that the outbox took
    pub replied: u64,
    /// silent datagrams of answered batches
    pub silent: u64,
    /// replies whose send failed
    pub unsent: u64,
    /// jobs of calls that answered a fault of a disk
    pub faulted: u64,
    /// datagrams that were dropped at a full queue
    pub full: u64,
    /// those that were dropped, and jobs of calls that were refused, for want of memory
    pub starved: u64,
}

/// One row for each shard, in order.
pub type Tally = Listed<TallyRow>;

/// How many sends were Ok, and how many failed.
#[derive(Clone, Copy, Debug)]
pub struct Sends {
    pub sent: u64,
    pub failed: u64,
}

/// A count after so many more.
fn more(count: u64, n: u64) -> u64
    ensures { result ≡ more count n }
{
    count.saturating_add(n)
}

impl TallyRow {
    ghost use Rattle.job_workers.specs.Tallies.{no_jobs};

    /// Nothing was counted.
    pub fn new() -> TallyRow
        ensures { result ≡ no_jobs }
    {
        TallyRow {
            taken: 0,
            replied: 0,
            silent: 0,
            unsent: 0,
            faulted: 0,
            full: 0,
            starved: 0,
        }
    }

    /// A batch of so many datagrams was answered, so many of them silent.
    pub fn count_replied(&mut self, jobs: u64, silent: u64, sends: Sends)
        ensures { self.new ≡ row_replied self.old jobs silent sends.sent sends.failed }
    {
        self.taken = more(self.taken, jobs);
        self.replied = more(self.replied, sends.sent);
        self.silent = more(self.silent, silent);
        self.unsent = more(self.unsent, sends.failed);
    }

    /// All leases were lost.
    pub fn count_lost(&mut self)
        ensures { self.new ≡ row_lost self.old }
    {
        self.taken = more(self.taken, 1);
    }

    /// A call for so many jobs was refused.
    pub fn count_refused(&mut self, jobs: u64, fault: HouseFault)
        ensures { self.new ≡ row_refused self.old jobs fault }
    {
        self.taken = more(self.taken, jobs);
        match fault {
            HouseFault::Disk(_) => self.faulted = more(self.faulted, jobs),
            HouseFault::Memory => self.starved = more(self.starved, jobs),
        }
    }

    /// A datagram was dropped at a full queue.
    pub fn count_full(&mut self)
        ensures { self.new ≡ row_full self.old }
    {
        self.full = more(self.full, 1);
    }

    /// A job was dropped for want of memory.
    pub fn count_starved(&mut self)
        ensures { self.new ≡ row_starved self.old }
    {
        self.starved = more(self.starved, 1);
    }

    /// The counts of a worker, for the board.
    pub fn counts(&self) -> JobCounts
        ensures { result ≡ record {
          taken = self.now.taken;
          replied = self.now.replied;
          silent = self.now.silent;
          unsent = self.now.unsent;
          faulted = self.now.faulted;
          starved = self.now.starved;
        } }
    {
        JobCounts {
            taken: self.taken,
            replied: self.replied,
            silent: self.silent,
            unsent: self.unsent,
            faulted: self.faulted,
            starved: self.starved,
        }
    }

    /// The counts of a worker, and those of the dispatcher for its shard.
    pub fn joined(&self, dispatched: &TallyRow) -> TallyRow
        ensures { result ≡ joined_rows self.now dispatched.now }
    {
        TallyRow {
            full: dispatched.full,
            starved: more(self.starved, dispatched.starved),
            ..*self
        }
    }
}
