//! Scripts and loads over the journals of a house whose disk has too little room. What they put out
//! where nothing fails is said by rows of whole commands.
ghost use Rattle.std.specs.Prelude.{IfOk, IfSome};
ghost use Rattle.house_lines.specs.Rests.{IsAtRest};

use crate::configs::{begun, moment};
use crate::disks::{NEVER, blank, one, pair};
use house_lines::HouseLines;
use lease_disk::{LeaseDisk, MemoryDisk};
use load_player::{LoadAnswerer, LoadStatus, play_load};
use pcp_base::Memory;
use pcp_io::{MemorySink, MemorySource};
use script_player::{LineAnswerer, PlayStatus, play};
use server_commands::LoadPlan;
use std::alloc::Global;

// A request over one journal that begins at 1000.
static SCRIPT: &str = "packet 1010 10.0.0.5 40000 \
    0201000000000e1000000000000000000000ffff0a000005\
    000102030405060708090a0b110000001388000000000000000000000000ffff00000000\n";

// A house over one journal that begins at 1000, of which side a may hold so many octets; none where a
// disk failed.
fn opened(alloc: Global, room: u64) -> Result<Option<HouseLines<MemoryDisk>>, Memory>
    ensures { IfOk result (λ lines. IfSome lines (IsAtRest ⟦<MemoryDisk as LeaseDisk>⟧.tells
        ⟦<MemoryDisk as LeaseDisk>⟧.seen ⟦<MemoryDisk as LeaseDisk>⟧.may_leave)) }
{
    let sides = pair(blank(alloc, room, NEVER), blank(alloc, 4_096, NEVER));
    let Some(house) = begun(alloc, one(alloc, sides)?)? else {
        return Ok(None);
    };
    Ok(Some(HouseLines::of(house)))
}

// Whether a script ends so and puts nothing out; no status where no lines are answered.
fn is_played<A: LineAnswerer + Drop>(
    alloc: Global,
    lines: Result<Option<A>, Memory>,
    want: Option<PlayStatus>,
) -> Result<bool, Memory>
    requires { IfOk lines (λ lines. IfSome lines (λ a. A.rests a)) }
{
    let Some(mut lines) = lines? else {
        return Ok(want.is_none());
    };
    let mut input = MemorySource::new(alloc, SCRIPT.as_bytes().to_vec(alloc)?)?;
    let mut out = MemorySink::new(alloc, 4_096)?;
    let status = play(alloc, &mut input, &mut lines, &mut out);
    Ok(Some(status) == want && out.held().is_empty())
}

// How much room side a has, and how the script is then played.
static RUNS: [(u64, Option<PlayStatus>); 3] = [
    (28, None),
    (40, None),
    (70, Some(PlayStatus::DiskFault(0))),
];

#[test]
fn scripts(rt: HostRuntime) -> Result<(), Memory> {
    for (room, want) in &RUNS {
        let so = is_played(rt.alloc(), opened(rt.alloc(), *room), *want)?;
        assert!(rt; so, "{room}");
    }
    Ok(())
}

// Whether a load of number 7 from 1000 on ends by a fault of the disk, and puts nothing out.
fn is_refused<A: LoadAnswerer + Drop>(
    alloc: Global,
    lines: Result<Option<A>, Memory>,
) -> Result<bool, Memory>
    requires { IfOk lines (λ lines. IfSome lines (λ a. A.rests a)) }
{
    let Some(mut lines) = lines? else {
        return Ok(false);
    };
    let plan = LoadPlan {
        start: moment(1_000),
        number: 7,
        count: 8,
    };
    let mut out = MemorySink::new(alloc, 4_096)?;
    let status = play_load(alloc, plan, &mut lines, &mut out);
    Ok(status == LoadStatus::DiskFault(0) && out.held().is_empty())
}

#[test]
fn loads(rt: HostRuntime) {
    let refused = is_refused(rt.alloc(), opened(rt.alloc(), 70));
    assert!(rt; refused == Ok(true));
}
