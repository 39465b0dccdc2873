//! The datagrams of one call of the house.
ghost use Rattle.std.specs.Prelude.{◌≡◌, ◌<◌, ◌≤◌, ◌++◌, ◌∷◌, [], length, IfOk};
ghost use Rattle.job_queue.specs.declared.batches.TheConstants.{MOST_BATCH};

use pcp_base::{Datagram, Memory};
use std::alloc::Global;
use std::marker::Model;

/// How many datagrams the house is handed in one call, at most.
pub const MOST_BATCH: usize = 16;

/// Datagrams, with room for `MOST_BATCH`.
#[derive(Drop)]
pub struct Batch {
    list: Vec<Datagram>,
}

impl Model for Batch {
    ghost use Rattle.std.specs.Prelude.{◌≤◌, List, vec_capacity, vec_len};
    ghost use Rattle.pcp_base.specs.declared.datagrams.Datagram.{Datagram};
    ghost use Rattle.job_queue.specs.declared.batches.TheConstants.{MOST_BATCH};

    ghost Value = { List Datagram };

    ghost view = { λ b. b.list.items };

    ghost invariant = { λ b. (MOST_BATCH ≤ vec_capacity b.list) × (vec_len b.list ≤ MOST_BATCH) };
}

impl Batch {
    /// An empty batch.
    pub fn new(alloc: Global) -> Result<Batch, Memory>
        ensures { IfOk result (λ batch. batch ≡ []) }
    {
        let list = Vec::with_capacity(alloc, MOST_BATCH)?;
        Ok(Batch { list })
    }

    /// How many there are, at most `MOST_BATCH`.
    pub fn len(&self) -> usize
        ensures value { result ≡ length self.now }
        ensures most { length self.now ≤ MOST_BATCH }
    {
        self.list.len()
    }

    /// One more.
    pub fn push(&mut self, datagram: Datagram)
        requires { length self.old < MOST_BATCH }
        ensures { self.new ≡ self.old ++ datagram ∷ [] }
    {
        self.list.push_reserved(datagram);
    }

    /// None is left.
    pub fn clear(&mut self)
        ensures { self.new ≡ [] }
    {
        self.list.clear();
    }

    /// The datagrams, in order.
    pub fn items(&self) -> &[Datagram]
        ensures value { result.now ≡ self.now }
        ensures most { length result.now ≤ MOST_BATCH }
    {
        &self.list
    }
}
