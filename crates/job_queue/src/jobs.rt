//! The jobs of a worker, and the queue through which it gets them.
ghost use Rattle.std.specs.Prelude.{◌≡◌, ◌++◌, ◌∷◌, [], true, false, length, IfOk, IfErr, IfSome, IfNone, OnOk, Some};
ghost use Rattle.crossbeam_queue.specs.Passes.{view, IsPassOf};
ghost use Rattle.job_queue.specs.Queues.{WasFull, jobs_view};

use crate::marks::Marks;
use crossbeam_queue::protocol::{Join, Lesson, Outcome, Protocol, Split};
use crossbeam_queue::{Pass, RuledArrayQueue};
use pcp_base::{Config, Datagram, Memory};
use std::alloc::Global;
use std::collections::LinkedList;
use std::marker::{Brand, Model, PhantomData};
use std::sync::Wait;

/// How many jobs a queue holds at most.
pub const MOST_JOBS: usize = 1024;

/// What a worker is to do for its external address.
#[derive(Debug, Drop)]
pub enum Job {
    /// To answer a datagram.
    Packet(Datagram),
    /// To lose all leases.
    Lose,
}

/// The external address of a configuration for which jobs are. No value of it is made.
pub struct JobsRoute {
    pub config: Config,
    pub shard: u32,
}

/// What a pass of a queue knows. No value of it is made.
pub struct JobsView {
    /// It may put jobs, and knows all that were put.
    pub puts: bool,
    /// It may take jobs, and knows all that were taken.
    pub takes: bool,
    pub route: Option<JobsRoute>,
    pub put: LinkedList<Job>,
    pub taken: LinkedList<Job>,
    /// What it was told of what others put: a first part of it.
    pub told_put: LinkedList<Job>,
    /// What it was told of what others took: a first part of it.
    pub told_taken: LinkedList<Job>,
}

/// The rule of a queue: what was put is what was taken and then what the queue holds.
pub struct InOrder;

impl Protocol<Job, JobsView> for InOrder {
    ghost use Rattle.std.specs.Prelude.{true, [], None};
    ghost use Rattle.job_queue.specs.Queues.{AreInOrder, jobs_view};

    ghost holds = { AreInOrder };

    ghost first = { jobs_view true true None [] [] };
}

// Names the external address of a queue, which no step can tell. Each call picks it.
trait Routing {
    ghost use Rattle.std.specs.Prelude.{Option};
    ghost use Rattle.job_queue.specs.declared.jobs.JobsRoute.{JobsRoute};

    ghost route: { Option JobsRoute };
}

impl Routing for Brand {
    ghost use Rattle.std.specs.Prelude.{None};

    ghost route = { None };
}

// One end puts, the other takes, for this external address.
struct Ends<N> {
    of: PhantomData<N>,
}

impl<N: Routing> Split<JobsView> for Ends<N> {
    ghost use Rattle.std.specs.Prelude.{true, false, []};
    ghost use Rattle.job_queue.specs.Queues.{jobs_view};

    ghost left = { λ v. jobs_view true false N.route v.put [] };

    ghost right = { λ v. jobs_view false true N.route [] v.taken };
}

// Both ends are one again.
struct Meets;

impl Join<JobsView> for Meets {
    ghost use Rattle.std.specs.Prelude.{true, false, [], None};
    ghost use Rattle.job_queue.specs.Queues.{jobs_view};

    ghost both = { λ v w. jobs_view true true v.route v.put w.taken };

    ghost spent = { jobs_view false false None [] [] };
}

// Another pass is told what was put, by the one that puts.
struct TellsPut;

impl Split<JobsView> for TellsPut {
    ghost use Rattle.std.specs.Prelude.{[]};
    ghost use Rattle.job_queue.specs.Queues.{told_view};

    ghost left = { λ v. v };

    ghost right = { λ v. told_view v.put [] };
}

// Another pass is told what was taken, by the one that takes.
struct TellsTaken;

impl Split<JobsView> for TellsTaken {
    ghost use Rattle.std.specs.Prelude.{[]};
    ghost use Rattle.job_queue.specs.Queues.{told_view};

    ghost left = { λ v. v };

    ghost right = { λ v. told_view [] v.taken };
}

// What another pass was told is told to this one.
struct Hears;

impl Join<JobsView> for Hears {
    ghost use Rattle.std.specs.Prelude.{[]};
    ghost use Rattle.job_queue.specs.Queues.{hearing, told_view};

    ghost both = { λ v w. hearing v w.told_put w.told_taken };

    ghost spent = { told_view [] [] };
}

// A job is put behind the others; where it isn't, the queue is full.
struct Puts;

impl Outcome<Job, JobsView> for Puts {
    ghost then = { λ v x w. w ≡ record v { put = v.put ++ x ∷ [] } };
}

impl Lesson<Job, JobsView> for Puts {
    ghost use Rattle.job_queue.specs.Queues.{IsLastOf};

    ghost fact = { λ v items. IsLastOf v.told_taken items v.put };
}

// The first job is taken; where none is, the queue holds none.
struct Takes;

impl Outcome<Job, JobsView> for Takes {
    ghost use Rattle.job_queue.specs.Queues.{IsJobFor};

    ghost then = { λ v x w.
        (w ≡ record v { taken = v.taken ++ x ∷ [] }) × IsJobFor v.route x };
}

impl Lesson<Job, JobsView> for Takes {
    ghost use Rattle.job_queue.specs.Queues.{IsRestOf};

    ghost fact = { λ v items. IsRestOf v items };
}

/// A queue of jobs, of which one thread puts and one takes. To contracts it is a name.
#[derive(Drop)]
pub struct JobQueue {
    queue: RuledArrayQueue<Job, JobsView, InOrder>,
}

impl Model for JobQueue {
    ghost use Rattle.std.specs.Prelude.{◌≡◌};
    ghost use Rattle.atomic_table.specs.Seated.{TableId, table_id_coded};
    ghost use Rattle.crossbeam_queue.specs.Passes.{ruled_capacity};
    ghost use Rattle.job_queue.specs.declared.jobs.TheConstants.{MOST_JOBS};

    ghost Value = { TableId };

    ghost coded = { table_id_coded };

    ghost view = { λ q. q.queue.table.shared.table_id };

    ghost invariant = { λ q. ruled_capacity q.queue ≡ MOST_JOBS };
}

/// The end that puts jobs.
#[derive(Drop)]
pub struct Putter {
    pass: Pass<Job, JobsView>,
    // which of the last jobs are noise
    marks: Marks,
}

impl Model for Putter {
    ghost use Rattle.std.specs.Prelude.{◌≡◌, true, []};
    ghost use Rattle.job_queue.specs.Queues.{PutterKnowledge, noise_marks};

    ghost Value = { PutterKnowledge };

    ghost view = { λ p. record {
      queue = p.pass.table_id;
      route = p.pass.me.0.client.route;
      put = p.pass.me.0.client.put;
    } };

    ghost invariant = { λ p. (p.pass.me.1 ≡ []) × (p.pass.me.0.client.puts ≡ true)
        × (p.marks ≡ noise_marks p.pass.me.0.client.route p.pass.me.0.client.put) };
}

/// The end that takes jobs. Once it has met the other end it knows all that were put.
#[derive(Drop)]
pub struct Taker {
    pass: Pass<Job, JobsView>,
}

impl Model for Taker {
    ghost use Rattle.std.specs.Prelude.{◌≡◌, true, []};
    ghost use Rattle.job_queue.specs.Queues.{TakerKnowledge};

    ghost Value = { TakerKnowledge };

    ghost view = { λ t. record {
      queue = t.pass.table_id;
      route = t.pass.me.0.client.route;
      knows_put = t.pass.me.0.client.puts;
      put = t.pass.me.0.client.put;
      taken = t.pass.me.0.client.taken;
    } };

    ghost invariant = { λ t. (t.pass.me.1 ≡ []) × (t.pass.me.0.client.takes ≡ true) };
}

/// What was put into a queue and taken out of it at moments that have passed: first parts of what is by
/// now. It has no octets; it ties what a call answers to what happened before that call.
#[derive(Drop)]
pub struct News {
    pass: Pass<Job, JobsView>,
}

impl Model for News {
    ghost use Rattle.std.specs.Prelude.{◌≡◌, []};
    ghost use Rattle.job_queue.specs.Queues.{QueueNews};

    ghost Value = { QueueNews };

    ghost view = { λ n. record {
      queue = n.pass.table_id;
      put = n.pass.me.0.client.told_put;
      taken = n.pass.me.0.client.told_taken;
    } };

    ghost invariant = { λ n. n.pass.me.1 ≡ [] };
}

impl JobQueue {
    ghost use Rattle.job_queue.specs.Queues.{AreEnds, HasMet, HeldNoise, IsJobFor, MayBeEmpty, WasFull, is_noise_job};
    ghost use mathlib.Core.List.{IsPrefix};

    /// An empty queue of jobs for this external address, and its two ends.
    pub fn new(
        alloc: Global,
        config: &Config,
        shard: u32,
    ) -> Result<(JobQueue, Putter, Taker), Memory>
        ensures { IfOk result (λ made. AreEnds (record { config = config.now; shard = shard })
            made.0 made.1 made.2) }
    {
        JobQueue::new_for::<Brand>(alloc, config, shard)
    }

    // It doesn't read the configuration, which names the external address.
    fn new_for<N: Routing>(
        alloc: Global,
        config: &Config,
        shard: u32,
    ) -> Result<(JobQueue, Putter, Taker), Memory>
        requires { N.route ≡ Some (record { config = config.now; shard = shard }) }
        ensures { IfOk result (λ made. AreEnds (record { config = config.now; shard = shard })
            made.0 made.1 made.2) }
    {
        let (queue, mut pass) = RuledArrayQueue::<Job, JobsView, InOrder>::ruled(alloc, MOST_JOBS)?;
        let marks = Marks::new(alloc)?;
        let taking = queue.another::<Ends<N>>(&mut pass);
        Ok((
            JobQueue { queue },
            Putter { pass, marks },
            Taker { pass: taking },
        ))
    }

    /// News of all that was put by now.
    pub fn news_of_put(&self, putter: &mut Putter) -> News
        requires { putter.old.queue ≡ self.now }
        ensures news { result ≡ record { queue = self.now; put = putter.old.put; taken = [] } }
        ensures unchanged { putter.new ≡ putter.old }
    {
        let pass = self.queue.another::<TellsPut>(&mut putter.pass);
        News { pass }
    }

    /// News of all that was taken by now.
    pub fn news_of_taken(&self, taker: &mut Taker) -> News
        requires { taker.old.queue ≡ self.now }
        ensures news { result ≡ record { queue = self.now; put = []; taken = taker.old.taken } }
        ensures unchanged { taker.new ≡ taker.old }
    {
        let pass = self.queue.another::<TellsTaken>(&mut taker.pass);
        News { pass }
    }

    /// Puts a job behind the others, and notes whether it is noise. It comes back only where the queue
    /// held `MOST_JOBS` at a moment of this call, which came after these news.
    pub fn put<R: Wait>(
        &self,
        rt: &R,
        putter: &mut Putter,
        news: News,
        job: Job,
        is_noise: bool,
    ) -> Result<(), Job>
        requires queue { putter.old.queue ≡ self.now }
        requires news { news.queue ≡ self.now }
        requires job { IsJobFor putter.old.route job }
        requires noise { is_noise ≡ is_noise_job putter.old.route job }
        ensures put { OnOk result
            (putter.new ≡ record putter.old { put = putter.old.put ++ job ∷ [] }) }
        ensures full { IfErr result (λ back. (back ≡ job) × (putter.new ≡ putter.old)
            × WasFull news.taken putter.old.put) }
    {
        self.queue.absorb::<Hears>(&mut putter.pass, news.pass);
        self.queue.push_as::<Puts, R>(rt, &mut putter.pass, job)?;
        putter.marks.push(is_noise);
        Ok(())
    }

    /// How many of the jobs that the queue held at a moment of this call are noise. That moment came
    /// after these news.
    pub fn noise_held<R: Wait>(&self, rt: &R, putter: &mut Putter, news: News) -> usize
        requires queue { putter.old.queue ≡ self.now }
        requires news { news.queue ≡ self.now }
        ensures held { HeldNoise news.taken putter.old.route putter.old.put result }
        ensures unchanged { putter.new ≡ putter.old }
    {
        self.queue.absorb::<Hears>(&mut putter.pass, news.pass);
        let held = self.queue.len_as::<Puts, R>(rt, &mut putter.pass);
        putter.marks.count_last(held)
    }

    /// Takes the first job. There is none only where the queue was empty at a moment of this call, which
    /// came after these news: then all that they say was put had been taken.
    pub fn take<R: Wait>(&self, rt: &R, taker: &mut Taker, news: News) -> Option<Job>
        requires queue { taker.old.queue ≡ self.now }
        requires news { news.queue ≡ self.now }
        ensures taken { IfSome result (λ job.
            (taker.new ≡ record taker.old { taken = taker.old.taken ++ job ∷ [] })
            × IsJobFor taker.old.route job) }
        ensures none { IfNone result ((taker.new ≡ taker.old) × MayBeEmpty taker.old
            × IsPrefix news.put taker.old.taken) }
    {
        self.queue.absorb::<Hears>(&mut taker.pass, news.pass);
        self.queue.pop_as::<Takes, R>(rt, &mut taker.pass)
    }

    /// Puts both ends together. What was taken begins what was put.
    pub fn meet(&self, putter: Putter, taker: Taker) -> Taker
        requires putter { putter.queue ≡ self.now }
        requires taker { taker.queue ≡ self.now }
        ensures { HasMet putter taker result }
    {
        let mut both = putter.pass;
        self.queue.absorb::<Meets>(&mut both, taker.pass);
        self.queue.learn_as::<Takes>(&mut both);
        Taker { pass: both }
    }
}
