//! A disk in memory: what is read after each call, and what each image then holds.

use lease_disk::{LeaseDisk, MemoryDisk};
use pcp_base::Failed;
use std::alloc::Global;
use std::test::Fail;

/// A call of a disk.
#[derive(Clone, Copy)]
pub(crate) enum Call {
    Write(u64, &'static [u8]),
    Cut(u64),
    Sync,
}

/// A call, and what the images of the choices 0, 1 and 2 hold after it.
struct After(Call, [&'static [u8]; 3]);

/// Whether the octets from the first on, at most eight, are these; "!" stands for a read that fails.
pub(crate) fn reads<D: LeaseDisk>(disk: &mut D, octets: &[u8]) -> bool {
    let mut piece = [b'.'; 8];
    match disk.read_at(0, &mut piece) {
        Ok(count) => &piece[..count] == octets,
        Err(_) => octets == b"!".as_slice(),
    }
}

/// Writes these octets, and syncs them.
fn keep<D: LeaseDisk>(disk: &mut D, octets: &[u8]) -> Result<(), Failed> {
    disk.write_at(0, octets)?;
    disk.sync()
}

/// A disk of so much room that holds "abcd", synced.
fn synced_disk(alloc: Global, room: u64) -> Result<MemoryDisk, Fail> {
    let mut disk = MemoryDisk::new(alloc, room)?;
    keep(&mut disk, b"abcd")?;
    Ok(disk)
}

/// Whether the image of this choice holds these octets.
fn leaves(alloc: Global, disk: &MemoryDisk, choice: u8, octets: &[u8]) -> Result<bool, Fail> {
    Ok(reads(&mut disk.stopped(alloc, choice)?, octets))
}

/// Makes a call. Whether it went well.
pub(crate) fn is_made<D: LeaseDisk>(disk: &mut D, call: Call) -> bool {
    match call {
        Call::Write(place, octets) => disk.write_at(place, octets).is_ok(),
        Call::Cut(length) => disk.cut(length).is_ok(),
        Call::Sync => disk.sync().is_ok(),
    }
}

/// Whether the call goes well, and the images then hold what they are to; the second of them is what
/// a read gives.
fn is_left_after(alloc: Global, disk: &mut MemoryDisk, after: &After) -> Result<bool, Fail> {
    let After(call, images) = after;
    if !is_made(disk, *call) || !reads(disk, images[1]) {
        return Ok(false);
    }
    for (choice, octets) in images.iter().enumerate() {
        if !leaves(alloc, disk, choice as u8, octets)? {
            return Ok(false);
        }
    }
    Ok(true)
}

// Calls of a disk that holds "abcd", one after the other.
static CALLS: [After; 6] = [
    After(
        Call::Write(2, b"xyz"),
        [b"abcd", b"abxyz", b"ab\xff\xff\xff"],
    ),
    After(Call::Sync, [b"abxyz", b"abxyz", b"abxyz"]),
    After(Call::Cut(1), [b"abxyz", b"a", b"a"]),
    After(Call::Sync, [b"a", b"a", b"a"]),
    After(Call::Cut(9), [b"a", b"a", b"a"]),
    After(Call::Write(3, b"z"), [b"a", b"a\0\0z", b"a\0\0\xff"]),
];

/// The number of the first of the calls that goes otherwise.
fn first_other(alloc: Global, disk: &mut MemoryDisk) -> Result<Option<usize>, Fail> {
    for (number, after) in CALLS.iter().enumerate() {
        if !is_left_after(alloc, disk, after)? {
            return Ok(Some(number));
        }
    }
    Ok(None)
}

#[test]
fn images(rt: HostRuntime) -> Result<(), Fail> {
    let mut disk = synced_disk(rt.alloc(), 100)?;
    let length = disk.len();
    let other = first_other(rt.alloc(), &mut disk)?;
    assert!(rt; other == None, "{other:?}");
    assert!(rt; length.ok() == Some(4) && disk.starved() == 0);
    Ok(())
}

#[test]
fn a_write_past_the_room(rt: HostRuntime) -> Result<(), Fail> {
    let mut disk = synced_disk(rt.alloc(), 6)?;
    let past = is_made(&mut disk, Call::Write(4, b"efg"));
    assert!(rt; !past && is_made(&mut disk, Call::Write(4, b"ef")));
    Ok(())
}

/// A disk that holds "abcdef", of which the last two octets aren't synced; its next call fails, and
/// from the second one after that all do.
fn failing_disk(alloc: Global) -> Result<MemoryDisk, Fail> {
    let mut disk = synced_disk(alloc, 6)?;
    disk.write_at(4, b"ef")?;
    // the calls so far had the numbers 0 to 2
    disk.fail_at(alloc, 3)?;
    disk.stop_at(5);
    Ok(disk)
}

/// Whether a write fails, a read goes well then, and no later call does.
fn fails_and_stops<D: LeaseDisk>(disk: &mut D) -> bool {
    !is_made(disk, Call::Write(0, b"x"))
        && reads(disk, b"abcdef")
        && !is_made(disk, Call::Sync)
        && disk.len().is_err()
        && reads(disk, b"!")
}

#[test]
fn failing_calls(rt: HostRuntime) -> Result<(), Fail> {
    assert!(rt; fails_and_stops(&mut failing_disk(rt.alloc())?));
    Ok(())
}

#[test]
fn a_disk_that_stopped_leaves_its_images(rt: HostRuntime) -> Result<(), Fail> {
    let alloc = rt.alloc();
    let disk = failing_disk(alloc)?;
    let left = leaves(alloc, &disk, 0, b"abcd")? && leaves(alloc, &disk, 1, b"abcdef")?;
    assert!(rt; left);
    Ok(())
}
