//! What is told of one journal behind looks at it.
ghost use Rattle.std.specs.Prelude.{◌≡◌, Err, IfOk};
ghost use Rattle.watch_runs.specs.Looks.{FailsFrom, IsNextLook, IsToldFrom, IsToldNext};
ghost use Rattle.watch_runs.specs.declared.links.LookFault.TheVariants.{File};
ghost use Rattle.watch_runs.specs.declared.tellings.TheConstants.{MOST_LOOKS};

use crate::links::{JournalLooks, LookFault};
use pcp_base::External;
use std::alloc::Global;
use watch_readings::{Place, Told, told_of};

/// How often a journal is looked at until it isn't in doubt.
pub(crate) const MOST_LOOKS: u64 = 50;

/// What is told at one look.
fn told_once<L: JournalLooks>(
    alloc: Global,
    external: &External,
    shard: u32,
    link: &mut L,
) -> Result<Told, LookFault>
    ensures told { IfOk result (IsToldNext external.now shard (L.left link.old) (L.left link.new)) }
    ensures file { result ≡ Err File → IsNextLook (L.left link.old) (L.left link.new) (Err File) }
{
    let seen = link.look(alloc)?;
    let place = Place {
        external: *external,
        shard,
        time: seen.time,
    };
    match told_of(alloc, &place, &seen.a, &seen.b) {
        Ok(told) => Ok(told),
        Err(_) => Err(LookFault::Memory),
    }
}

/// What is told of a journal: by the first of [`MOST_LOOKS`] looks that isn't in doubt, or else by the
/// last one. Between two looks the link pauses.
pub(crate) fn told_behind<L: JournalLooks>(
    alloc: Global,
    external: &External,
    shard: u32,
    link: &mut L,
) -> Result<Told, LookFault>
    ensures told { IfOk result
        (IsToldFrom MOST_LOOKS external.now shard (L.left link.old) (L.left link.new)) }
    ensures file { result ≡ Err File →
        FailsFrom MOST_LOOKS (L.left link.old) (L.left link.new) }
{
    let mut told = told_once(alloc, external, shard, link)?;
    for _look in 1..MOST_LOOKS {
        if told.doubt.is_none() {
            return Ok(told);
        }
        link.pause();
        told = told_once(alloc, external, shard, link)?;
    }
    Ok(told)
}
