//! A disk over a file: what a real file gives, and how the disk meets short writes, interrupted and
//! failing reads, failing syncs, and a file that another program keeps.

use crate::disks::{Call, is_made, reads};
use crate::fake_files::{FakeFiles, SYNCS_AT};
use lease_disk::{FileDisk, LeaseDisk};
use std::alloc::Global;
use std::cell::Cell;
use std::fs;
use std::os::unix::fs::{PermissionsExt, symlink};
use std::test::Fail;

fn real_disk<'a>(rt: &'a HostRuntime, path: &str) -> Result<FileDisk<&'a HostRuntime>, Fail> {
    Ok(FileDisk::new(rt, String::from_str(rt.alloc(), path)?))
}

/// Whether a new disk over this path is read so; "!" stands for a read that fails.
fn is_read_as(rt: &HostRuntime, path: &str, octets: &[u8]) -> Result<bool, Fail> {
    Ok(reads(&mut real_disk(rt, path)?, octets))
}

/// Whether a call for its length, and one that writes, fail.
fn refuses<D: LeaseDisk>(disk: &mut D) -> bool {
    disk.len().is_err() && !is_made(disk, Call::Write(0, b"x"))
}

#[test]
fn reading_makes_no_file(rt: HostRuntime) -> Result<(), Fail> {
    let read = is_read_as(&rt, "nowhere/side", b"!")? && is_read_as(&rt, "unmade", b"")?;
    let length = real_disk(&rt, "unmade")?.len();
    assert!(rt; read && length.ok() == Some(0));
    assert!(rt; fs::metadata(&rt, "unmade").is_err());
    Ok(())
}

// Calls of a new file: whether each goes well, and how long the file is then.
static CALLS: [(Call, bool, u64); 6] = [
    (Call::Write(0, b"abcdef"), true, 6),
    (Call::Write(2, b"xy"), true, 6),
    (Call::Cut(5), true, 5),
    (Call::Cut(9), true, 5),
    (Call::Sync, true, 5),
    (Call::Write(1 << 62, b"z"), false, 5),
];

/// The number of the first of these calls that goes otherwise.
fn first_other<D: LeaseDisk>(disk: &mut D, calls: &[(Call, bool, u64)]) -> Option<usize> {
    for (number, (call, goes_well, length)) in calls.iter().enumerate() {
        if is_made(disk, *call) != *goes_well || disk.len().ok() != Some(*length) {
            return Some(number);
        }
    }
    None
}

#[test]
fn calls_of_a_file(rt: HostRuntime) -> Result<(), Fail> {
    let other = first_other(&mut real_disk(&rt, "called")?, &CALLS);
    assert!(rt; other.is_none(), "{other:?}");
    let mode = fs::metadata(&rt, "called")?.permissions().mode();
    assert!(rt; mode % 0o1000 == 0o600);
    assert!(rt; fs::read(&rt, "called")?.as_slice() == b"abxye".as_slice());
    Ok(())
}

/// Whether a disk writes, and then another one over its file refuses.
fn keeps<D: LeaseDisk>(disk: &mut D, other: &mut D) -> bool {
    is_made(disk, Call::Write(0, b"abc")) && refuses(other)
}

// While a disk has its file another one over it has no result.
#[test]
fn a_file_is_kept_until_its_disk_is_dropped(rt: HostRuntime) -> Result<(), Fail> {
    let kept = keeps(&mut real_disk(&rt, "kept")?, &mut real_disk(&rt, "kept")?);
    assert!(rt; kept && is_read_as(&rt, "kept", b"abc")?);
    Ok(())
}

// What isn't taken: a device, links to a file and to nothing, and a file that has another name.
static NO_FILES: [&str; 4] = ["/dev/null", "link", "dangling", "second"];

fn make_no_files(rt: &HostRuntime) -> Result<(), Fail> {
    fs::write(rt, "target", "abc")?;
    symlink(rt, "target", "link")?;
    symlink(rt, "missing", "dangling")?;
    fs::hard_link(rt, "target", "second")?;
    Ok(())
}

#[test]
fn no_regular_file(rt: HostRuntime) -> Result<(), Fail> {
    make_no_files(&rt)?;
    for path in NO_FILES {
        assert!(rt; refuses(&mut real_disk(&rt, path)?), "{path}");
    }
    assert!(rt; fs::metadata(&rt, "missing").is_err());
    assert!(rt; fs::read(&rt, "target")?.as_slice() == b"abc".as_slice());
    Ok(())
}

// A file system whose sync of this number fails, as does that of its folder's opening of that one.
fn fake_files(alloc: Global, failing_sync: u8, failing_folder: u8) -> FakeFiles {
    FakeFiles {
        alloc,
        failing_sync,
        failing_folder,
        folders: Cell::new(0),
        fails_reads: false,
        is_kept: false,
    }
}

fn disk_over(alloc: Global, files: FakeFiles) -> Result<FileDisk<FakeFiles>, Fail> {
    Ok(FileDisk::new(files, String::from_str(alloc, "folder/side")?))
}

/// Whether each of these calls goes so, one after the other.
fn go<D: LeaseDisk>(disk: &mut D, calls: &[(Call, bool)]) -> bool {
    calls
        .iter()
        .all(|(call, goes_well)| is_made(disk, *call) == *goes_well)
}

/// Whether a write goes well, and reads and the length are faults then.
fn has_read_faults(disk: &mut FileDisk<FakeFiles>) -> bool {
    is_made(disk, Call::Write(0, b"abc"))
        && disk.last_error().is_none()
        && reads(disk, b"!")
        && disk.last_error().is_some()
        && disk.len().is_err()
}

#[test]
fn reads_that_fail_are_faults(rt: HostRuntime) -> Result<(), Fail> {
    let files = FakeFiles {
        fails_reads: true,
        ..fake_files(rt.alloc(), 0, 0)
    };
    assert!(rt; has_read_faults(&mut disk_over(rt.alloc(), files)?));
    Ok(())
}

#[test]
fn a_file_that_another_keeps_is_a_fault(rt: HostRuntime) -> Result<(), Fail> {
    let files = FakeFiles {
        is_kept: true,
        ..fake_files(rt.alloc(), 0, 0)
    };
    let calls = [(Call::Write(0, b"abc"), false), (Call::Sync, false)];
    assert!(rt; go(&mut disk_over(rt.alloc(), files)?, &calls));
    Ok(())
}

/// How many syncs of the file were called.
fn sync_count<D: LeaseDisk>(disk: &mut D) -> u8 {
    let mut piece = [b'.'];
    let _count = disk.read_at(SYNCS_AT, &mut piece);
    piece[0]
}

/// Whether a write and a read of six octets give them, though the file takes and gives fewer.
fn meets_short_calls<D: LeaseDisk>(disk: &mut D) -> bool {
    is_made(disk, Call::Write(0, b"abcdef")) && reads(disk, b"abcdef")
}

/// Whether two syncs are two of the file.
fn syncs_twice<D: LeaseDisk>(disk: &mut D) -> bool {
    is_made(disk, Call::Sync)
        && sync_count(disk) == 1
        && is_made(disk, Call::Sync)
        && sync_count(disk) == 2
}

#[test]
fn short_writes_and_interrupted_reads(rt: HostRuntime) -> Result<(), Fail> {
    let files = fake_files(rt.alloc(), 0, 0);
    assert!(rt; meets_short_calls(&mut disk_over(rt.alloc(), files)?));
    Ok(())
}

#[test]
fn each_sync_is_one_of_the_file(rt: HostRuntime) -> Result<(), Fail> {
    let files = fake_files(rt.alloc(), 0, 0);
    assert!(rt; syncs_twice(&mut disk_over(rt.alloc(), files)?));
    Ok(())
}

// The file's second sync fails, and then each later one of the disk.
#[test]
fn a_failed_sync_of_the_file(rt: HostRuntime) -> Result<(), Fail> {
    let files = fake_files(rt.alloc(), 2, 0);
    let calls = [(Call::Sync, true), (Call::Sync, false), (Call::Sync, false)];
    assert!(rt; go(&mut disk_over(rt.alloc(), files)?, &calls));
    Ok(())
}

// The folder is opened once to be found and once to be synced, which fails this once.
#[test]
fn a_failed_sync_of_the_folder(rt: HostRuntime) -> Result<(), Fail> {
    let files = fake_files(rt.alloc(), 0, 2);
    let calls = [(Call::Write(0, b"a"), false), (Call::Sync, false)];
    assert!(rt; go(&mut disk_over(rt.alloc(), files)?, &calls));
    Ok(())
}
