//! How a journal is looked at beside whoever writes it.
ghost use Rattle.std.specs.Prelude.{◌≡◌, List, Option, Result};
ghost use Rattle.watch_runs.specs.Looks.{GivesLook};
ghost use Rattle.watch_runs.specs.declared.links.Look.{Look};
ghost use Rattle.watch_runs.specs.declared.links.LookFault.{LookFault};

use pcp_base::Moment;
use std::alloc::Global;
use watch_readings::SideLook;

/// A look at both sides of a journal.
#[derive(Drop)]
pub struct Look {
    /// The clock's time before anything was read.
    pub time: Moment,
    pub a: SideLook,
    pub b: SideLook,
}

/// Why there is no look.
#[derive(Clone, Copy, Debug, PartialEq, Eq)]
pub enum LookFault {
    /// A file that is there can't be opened or read, or isn't a regular one.
    File,
    /// No memory was found.
    Memory,
}

/// Looks at a journal.
pub trait JournalLooks {
    // What it will give from here on, a look or a fault each, where the link tells it.
    ghost left: { Self → Option (List (Result Look LookFault)) };

    /// Looks at both sides. Where nothing is left it can't read. After `Memory` what is left may stay.
    fn look(&mut self, alloc: Global) -> Result<Look, LookFault>
        ensures { GivesLook (left self.old) (left self.new) result };

    /// Lets the writer go on for a while.
    fn pause(&mut self)
        ensures { left self.new ≡ left self.old };
}
