//! Which of the jobs that were put last are noise.
ghost use Rattle.std.specs.Prelude.{◌≡◌, ◌++◌, ◌∷◌, [], count_by, IfOk};
ghost use Rattle.job_queue.specs.Queues.{last_of};
ghost use Rattle.job_queue.specs.declared.jobs.TheConstants.{MOST_JOBS};

use crate::jobs::MOST_JOBS;
use pcp_base::Memory;
use std::alloc::Global;
use std::collections::VecDeque;
use std::marker::Model;

/// A mark for each of the last `MOST_JOBS`, or of all.
#[derive(Drop)]
pub(crate) struct Marks {
    list: VecDeque<bool>,
}

impl Model for Marks {
    ghost use Rattle.std.specs.Prelude.{◌≤◌, List, Bool};
    ghost use Rattle.std.specs.VecDeque.{deque_capacity, deque_len};
    ghost use Rattle.job_queue.specs.declared.jobs.TheConstants.{MOST_JOBS};

    ghost Value = { List Bool };

    ghost view = { λ m. m.list.items };

    ghost invariant = { λ m. (MOST_JOBS ≤ deque_capacity m.list) × (deque_len m.list ≤ MOST_JOBS) };
}

impl Marks {
    /// None.
    pub(crate) fn new(alloc: Global) -> Result<Marks, Memory>
        ensures { IfOk result (λ marks. marks ≡ []) }
    {
        let list = VecDeque::with_capacity(alloc, MOST_JOBS)?;
        Ok(Marks { list })
    }

    /// One more. The first gives way where there are `MOST_JOBS`.
    pub(crate) fn push(&mut self, mark: bool)
        ensures { self.new ≡ last_of MOST_JOBS (self.old ++ mark ∷ []) }
    {
        if self.list.len() == MOST_JOBS {
            let _first = self.list.pop_front();
        }
        self.list.push_back_reserved(mark);
    }

    /// How many of the last so many are set.
    pub(crate) fn count_last(&self, count: usize) -> usize
        ensures { result ≡ count_by (λ mark. mark) (last_of count self.now) }
    {
        let others = self.list.len().saturating_sub(count);
        self.list.range(others..).filter(|mark| **mark).count()
    }
}
