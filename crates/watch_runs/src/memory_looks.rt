//! A journal that is looked at in memory.
use crate::links::{JournalLooks, Look, LookFault};
use std::alloc::Global;
use std::collections::VecDeque;
use std::marker::Model;

/// A journal whose looks are those of a list; behind these it can't be read.
#[derive(Drop)]
pub struct MemoryLooks {
    looks: VecDeque<Result<Look, LookFault>>,
}

impl Model for MemoryLooks {
    ghost use Rattle.watch_runs.specs.InMemory.{LooksInMemory};

    ghost Value = { LooksInMemory };

    ghost view = { λ s. record { left = s.looks.items } };
}

impl MemoryLooks {
    ghost use Rattle.std.specs.Prelude.{◌≡◌};
    ghost use Rattle.watch_runs.specs.InMemory.{new_looks};

    /// A journal that will be seen so.
    pub fn new(looks: Vec<Result<Look, LookFault>>) -> MemoryLooks
        ensures { result ≡ new_looks looks.items }
    {
        MemoryLooks {
            looks: VecDeque::from(looks),
        }
    }
}

impl JournalLooks for MemoryLooks {
    ghost use Rattle.std.specs.Prelude.{◌≡◌, Some};
    ghost use Rattle.watch_runs.specs.Looks.{GivesLook};

    ghost left = { λ s. Some s.left };

    fn look(&mut self, _alloc: Global) -> Result<Look, LookFault>
        ensures { GivesLook (Some self.old.left) (Some self.new.left) result }
    {
        match self.looks.pop_front() {
            Some(look) => look,
            None => Err(LookFault::File),
        }
    }

    fn pause(&mut self)
        ensures { self.new ≡ self.old }
    {}
}
