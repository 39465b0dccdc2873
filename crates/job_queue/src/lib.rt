//! The jobs of the worker of an external address, and the queue through which it gets them: what was
//! taken is at all times a prefix of what was put, in order and each once.
#![tactic(auto)]

mod batches;
mod jobs;
mod marks;

pub use batches::{Batch, MOST_BATCH};
pub use jobs::{Job, JobQueue, JobsRoute, JobsView, MOST_JOBS, News, Putter, Taker};
