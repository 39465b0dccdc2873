//! A program whose sync fails, the next one over what reads give then, and what a power loss leaves of
//! that one.
ghost use Rattle.std.specs.Prelude.{◌≡◌, Ok, None, true, IfOk};

use crate::lossy_files::{LossyFiles, Stored, Syncs};
use crate::octets::{COMPACTED, LEASED};
use crate::opening::{config, external, moment};
use crate::requests::batch_of;
use crate::seen::{Seen, what_stands};
use lease_disk::{DiskPair, FileDisk, Keepable, LeaseDisk};
use lease_store::LeaseStore;
use shard_book::{Book, Found, LeaseBook, Unopened};
use std::alloc::Global;
use std::os::unix::fs::FileExt;
use std::rc::Rc;
use std::rt::Files;
use std::test::Fail;

/// The octets of a side, and those that stand in front of it in place of its own.
#[derive(Clone, Copy)]
struct Side(&'static [u8], &'static [u8]);

/// Both sides before the first program.
#[derive(Clone, Copy)]
struct Row(Side, Side);

/// The files of both sides.
type Sides = DiskPair<Rc<Stored>>;

fn stored(alloc: Global, side: Side) -> Result<Rc<Stored>, Fail> {
    let Side(octets, front) = side;
    let mut all = front.to_vec(alloc)?;
    all.extend_from_slice(octets.get(front.len()..).unwrap_or(&[]))?;
    Ok(Stored::of(alloc, &all)?)
}

fn files(stored: &Rc<Stored>, syncs: &Rc<Syncs>) -> Result<LossyFiles, Fail> {
    Ok(LossyFiles {
        stored: stored.clone()?,
        syncs: syncs.clone()?,
    })
}

fn disk<F: Files + Drop>(alloc: Global, files: F) -> Result<FileDisk<F>, Fail> {
    Ok(FileDisk::new(files, String::from_str(alloc, "folder/side")?))
}

/// Asks for a lease of each of these hosts at `now`, until a call is refused. Whether none was.
fn lease_all<D: LeaseDisk, S: LeaseStore + Drop>(
    alloc: Global,
    book: &mut LeaseBook<D, S>,
    now: u64,
    hosts: &[u8],
) -> Result<bool, Fail>
    requires { book.old.fault ≡ None }
    ensures { result ≡ Ok true → book.new.fault ≡ None }
{
    for host in hosts {
        let asks = batch_of(alloc, *host)?;
        if book.batch(alloc, &asks, moment(now)?, moment(0)?).is_err() {
            return Ok(false);
        }
    }
    Ok(true)
}

/// Leases to the hosts in a book, if it was opened. What stands then, if nothing was refused.
fn serve<D: LeaseDisk + Drop, S: LeaseStore + Drop>(
    alloc: Global,
    opened: Result<(LeaseBook<D, S>, Found), Unopened<D>>,
    now: u64,
    hosts: &[u8],
) -> Result<Option<Seen>, Fail>
    requires { IfOk opened (λ opened. opened.0.fault ≡ None) }
{
    let Ok((book, _found)) = opened else {
        return Ok(None);
    };
    let mut book = book;
    if !lease_all(alloc, &mut book, now, hosts)? {
        return Ok(None);
    }
    Ok(Some(what_stands(alloc, &book)?))
}

/// Opens a book at `now`, and leases to the hosts.
fn run<D: LeaseDisk + Drop>(
    alloc: Global,
    pair: DiskPair<D>,
    now: u64,
    hosts: &[u8],
) -> Result<Option<Seen>, Fail> {
    let external = external();
    let config = config(alloc, &external)?;
    let opened = Book::begin(alloc, &external, &config, pair, moment(now)?);
    serve(alloc, opened, now, hosts)
}

/// The same over two sides of a file system.
fn run_over<F: Files + Drop>(
    alloc: Global,
    a: F,
    b: F,
    now: u64,
    hosts: &[u8],
) -> Result<Option<Seen>, Fail>
where
    F::File: FileExt + Keepable,
{
    let pair = DiskPair {
        a: disk(alloc, a)?,
        b: disk(alloc, b)?,
    };
    run(alloc, pair, now, hosts)
}

/// A program over the files, which opens a book at `now` and leases to the hosts.
fn program(
    alloc: Global,
    sides: &Sides,
    syncs: &Rc<Syncs>,
    now: u64,
    hosts: &[u8],
) -> Result<Option<Seen>, Fail> {
    let a = files(&sides.a, syncs)?;
    run_over(alloc, a, files(&sides.b, syncs)?, now, hosts)
}

/// Both sides after a power loss.
fn left(alloc: Global, sides: &Sides) -> Result<Sides, Fail> {
    Ok(DiskPair {
        a: sides.a.left(alloc)?,
        b: sides.b.left(alloc)?,
    })
}

/// What came of two programs and a power loss.
#[derive(Clone, Copy, Debug, PartialEq, Eq)]
enum Came {
    /// No sync failed.
    Unharmed,
    /// All that the second program knew is found.
    Kept,
    Lost,
}

/// What a program finds after a power loss.
fn found_after(alloc: Global, sides: &Sides, syncs: &Rc<Syncs>) -> Result<Option<Seen>, Fail> {
    program(alloc, &left(alloc, sides)?, syncs, 4000, &[])
}

/// What comes of two programs, of whose syncs one may fail, and a power loss.
fn came_of(alloc: Global, sides: &Sides, syncs: &Rc<Syncs>) -> Result<Came, Fail> {
    if program(alloc, sides, syncs, 2000, &[5, 6])?.is_some() {
        return Ok(Came::Unharmed);
    }
    // no other sync fails
    let known = program(alloc, sides, syncs, 3000, &[7, 8])?;
    let found = found_after(alloc, sides, syncs)?;
    Ok(if known.is_some() && known == found {
        Came::Kept
    } else {
        Came::Lost
    })
}

fn sides_of(alloc: Global, row: Row) -> Result<Sides, Fail> {
    Ok(DiskPair {
        a: stored(alloc, row.0)?,
        b: stored(alloc, row.1)?,
    })
}

/// Lets the sync of this number fail.
fn fail(alloc: Global, row: Row, failing: u16) -> Result<Came, Fail> {
    let syncs = Syncs::failing(alloc, failing)?;
    came_of(alloc, &sides_of(alloc, row)?, &syncs)
}

/// Lets each sync fail in turn. The first one after which something is lost, or after which there is
/// no end.
fn first_lost(alloc: Global, row: Row) -> Result<Option<u16>, Fail> {
    for failing in 1..100 {
        match fail(alloc, row, failing)? {
            Came::Unharmed => return Ok(None),
            Came::Kept => {}
            Came::Lost => return Ok(Some(failing)),
        }
    }
    Ok(Some(100))
}

static NONE: Side = Side(&[], &[]);

#[test]
fn nothing_is_lost_after_a_failed_sync(rt: HostRuntime) -> Result<(), Fail> {
    let leased = Side(&LEASED, &[]);
    let compacted = Side(&COMPACTED, &[]);
    // other letters behind the gate
    let damaged_a = Side(&LEASED, b"\x01PCPK");
    let damaged_b = Side(&COMPACTED, b"\x01PCPK");
    let shut_a = Side(&LEASED, b"\0");
    let shut_b = Side(&COMPACTED, b"\0");
    let rows = [
        Row(NONE, NONE),
        Row(shut_a, shut_b),
        Row(leased, NONE),
        Row(shut_a, compacted),
        Row(leased, compacted),
        Row(damaged_a, NONE),
        Row(damaged_a, shut_b),
        Row(damaged_a, compacted),
        Row(leased, damaged_b),
        Row(shut_a, damaged_b),
    ];
    for (number, row) in rows.iter().enumerate() {
        let lost = first_lost(rt.alloc(), *row)?;
        assert!(rt; lost == None, "{number}: {lost:?}");
    }
    Ok(())
}
