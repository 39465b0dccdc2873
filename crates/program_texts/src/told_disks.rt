//! A disk whose faults people are told.
ghost use Rattle.std.specs.Prelude.{◌≡◌, ◌<◌, IfOk, length};
ghost use Rattle.pcp_base.specs.declared.configs.TheConstants.{MOST_EXTERNALS};

use crate::disk_causes::DiskCause;
use crate::places::pair_at;
use lease_disk::{DiskPair, FileDisk, LeaseDisk};
use pcp_base::{Failed, MOST_EXTERNALS, Memory};
use pcp_io::{Clock, SteadyClock};
use status_board::Board;
use std::alloc::Global;

/// A disk over a file of a running server. It leaves on the board how many octets it has, why a call failed,
/// and that it is lost. While it is served an operator is told of the first fault of each external address,
/// and then once a minute at most.
#[derive(Drop)]
pub struct ToldDisk<'a> {
    disk: FileDisk<&'a HostRuntime>,
    rt: &'a HostRuntime,
    board: &'a Board,
    clock: SteadyClock,
    // the place of its external address
    place: u32,
    // 0 of the even side, 1 of the odd one
    side: usize,
    // how many octets it has, as it knows
    size: u64,
}

impl<'a> ToldDisk<'a> {
    ghost use Rattle.std.specs.Prelude.{◌≡◌};

    /// This disk, of a side of the journal of the external address at this place: side 0 is the even one.
    pub fn of(
        rt: &'a HostRuntime,
        board: &'a Board,
        disk: FileDisk<&'a HostRuntime>,
        place: u32,
        side: usize,
    ) -> ToldDisk<'a>
        ensures { result.disk ≡ disk.entry }
    {
        ToldDisk {
            disk,
            rt,
            board,
            clock: SteadyClock::starting_at(0),
            place,
            side,
            size: 0,
        }
    }

    /// Leaves how many octets it has.
    fn resize(&mut self, size: u64)
        ensures { self.new.disk ≡ self.old.disk }
    {
        self.size = size;
        self.board.size(self.place, self.side, size);
    }

    /// Leaves why a call failed, and tells it where people are to be told.
    fn fails(&mut self) -> Failed
        ensures { self.new.disk ≡ self.old.disk }
    {
        let error = match self.disk.last_error() {
            Some(error) => error.raw_os_error(),
            None => None,
        };
        // Of both sides the one that failed last is told.
        self.board.disk_works(self.place, 1 - self.side.min(1));
        self.board.disk_failed(self.place, self.side, error);
        if self.disk.is_lost() {
            self.board.lose_disk();
        }
        if self.board.is_to_tell(self.place, self.clock.now()) {
            self.tell();
        }
        Failed
    }

    /// Tells an operator why a call failed. Without memory for it nothing is told.
    fn tell(&self) {
        if let Ok(Some(cause)) = self.disk.cause(self.rt.alloc()) {
            let place = self.place;
            let _ = eprintln!(self.rt;
                "pcp: disk of shard {place} (external address {place}): {cause}"
            );
        }
    }
}

impl<'a> DiskCause for ToldDisk<'a> {
    fn cause(&self, alloc: Global) -> Result<Option<String>, Memory> {
        self.disk.cause(alloc)
    }
}

impl<'a> LeaseDisk for ToldDisk<'a> {
    ghost use Rattle.std.specs.Prelude.{[]};

    ghost tells = { ⊥ };

    ghost lost = { λ d. d.disk.lost };

    ghost seen = { λ _. [] };

    ghost may_leave = { λ _ _. ⊥ };

    ghost moment = { λ _. 0 };

    ghost left_since = { λ _ _ _. ⊥ };

    ghost faults = { λ d. d.disk.faults };

    ghost seen_now = { λ _ told. told };

    ghost counts_now = { λ _ _ _ _ now. now };

    ghost since_earlier = { λ _ _ _ _ _ was. was };

    ghost only_now = { λ _ _ was. was };

    fn len(&mut self) -> Result<u64, Failed> {
        match self.disk.len() {
            Ok(size) => {
                self.resize(size);
                Ok(size)
            }
            Err(Failed) => Err(self.fails()),
        }
    }

    fn read_at(&mut self, place: u64, piece: &mut [u8]) -> Result<usize, Failed> {
        match self.disk.read_at(place, piece) {
            Ok(count) => Ok(count),
            Err(Failed) => Err(self.fails()),
        }
    }

    fn write_at(&mut self, place: u64, piece: &[u8]) -> Result<(), Failed> {
        match self.disk.write_at(place, piece) {
            Ok(()) => {
                let end = place.saturating_add(piece.len() as u64);
                self.resize(self.size.max(end));
                Ok(())
            }
            Err(Failed) => Err(self.fails()),
        }
    }

    fn cut(&mut self, length: u64) -> Result<(), Failed> {
        match self.disk.cut(length) {
            Ok(()) => {
                self.resize(self.size.min(length));
                Ok(())
            }
            Err(Failed) => Err(self.fails()),
        }
    }

    fn sync(&mut self) -> Result<(), Failed> {
        match self.disk.sync() {
            Ok(()) => Ok(()),
            Err(Failed) => Err(self.fails()),
        }
    }

    fn is_lost(&self) -> bool {
        self.disk.is_lost()
    }
}

/// The disks of the journal of the external address at this place.
fn told_pair<'a>(
    rt: &'a HostRuntime,
    board: &'a Board,
    folder: &str,
    place: usize,
) -> Result<DiskPair<ToldDisk<'a>>, Memory>
    requires { place < MOST_EXTERNALS }
{
    let DiskPair { a, b } = pair_at(rt, folder, place)?;
    Ok(DiskPair {
        a: ToldDisk::of(rt, board, a, place as u32, 0),
        b: ToldDisk::of(rt, board, b, place as u32, 1),
    })
}

/// The disks of all journals of a server in a folder. The one error is want of memory.
pub fn told_journals_in<'a>(
    rt: &'a HostRuntime,
    board: &'a Board,
    folder: &str,
) -> Result<Vec<DiskPair<ToldDisk<'a>>>, Memory>
    ensures { IfOk result (λ pairs. length pairs.items ≡ MOST_EXTERNALS) }
{
    let mut pairs = Vec::new(rt.alloc());
    for place in 0..MOST_EXTERNALS {
        pairs.push(told_pair(rt, board, folder, place)?)?;
    }
    Ok(pairs)
}
