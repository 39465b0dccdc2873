//! A disk in memory.
ghost use Rattle.std.specs.Prelude.{◌≡◌, ◌+◌, ◌-◌, ◌≤◌, ◌↔◌, [], ◌∷◌, drop, length, min, IfOk, IsTrue};
ghost use Rattle.lease_disk.specs.Changes.{steps_of};
ghost use Rattle.lease_disk.specs.Contents.{ReadsFrom};
ghost use Rattle.lease_disk.specs.Steps.DiskStep.{Wrote, Synced};

use crate::changes::Change;
use crate::disks::LeaseDisk;
use crate::replays::{image, put};
use pcp_base::{Failed, Memory};
use pcp_io::Calls;
use std::alloc::{AllocError, Global};
use std::marker::Model;

pub(crate) const MOST_OCTETS: u64 = 1 << 62;

/// A disk in memory, which keeps all that was done to it. A device call fails, and counts that,
/// exactly where `fail_at` or `stop_at` named it, where a write would pass the room, and where no
/// memory was found. It then changes nothing but the counts.
#[derive(Drop)]
pub struct MemoryDisk {
    alloc: Global,
    octets: Vec<u8>,
    changes: Vec<Change>,
    room: u64,
    calls: Calls,
}

impl Model for MemoryDisk {
    ghost use Rattle.lease_disk.specs.Changes.{steps_of};
    ghost use Rattle.lease_disk.specs.DiskInMemory.{DiskInMemory};
    ghost use Rattle.lease_disk.specs.Replays.{IsMadeBy};

    ghost Value = { DiskInMemory };

    ghost view = { λ d. record {
      steps = steps_of d.changes.items;
      room = d.room;
      calls = d.calls;
    } };

    ghost invariant = { λ d. IsMadeBy (steps_of d.changes.items) d.room d.octets.items };
}

impl MemoryDisk {
    ghost use Rattle.std.specs.Prelude.{◌≡◌, ◌+◌, ◌≤◌, ◌^◌, ◌∷◌, length, vec_len, OnOk, OnErr, IfOk};
    ghost use Rattle.pcp_io.specs.CallLogs.{with_failing, with_stop};
    ghost use Rattle.lease_disk.specs.DiskInMemory.{disk_with, new_disk};
    ghost use Rattle.lease_disk.specs.Images.{NoMore};
    ghost use Rattle.lease_disk.specs.Steps.{IsImage, image_by};
    ghost use Rattle.lease_disk.specs.Steps.DiskStep.{Wrote, CutTo, Synced};

    /// A disk without an octet, which may hold as many as the room, but at most 2^62. No call of it
    /// is named to fail.
    pub fn new(alloc: Global, room: u64) -> Result<MemoryDisk, Memory>
        ensures { IfOk result (λ disk. disk ≡ new_disk room) }
    {
        Ok(MemoryDisk {
            alloc,
            octets: Vec::new(alloc),
            changes: Vec::new(alloc),
            room: room.min(MOST_OCTETS),
            calls: Calls::new(alloc),
        })
    }

    /// Names a device call that is to fail. Device calls are numbered from 0, those that fail too;
    /// all from number 2^64 - 1 on have that number.
    pub fn fail_at(&mut self, _alloc: Global, call: u64) -> Result<(), Memory>
        ensures ok { OnOk result (self.new
            ≡ record self.old { calls = with_failing self.old.calls call }) }
        ensures err { OnErr result (self.new ≡ self.old) }
    {
        self.calls.fail_at(call)
    }

    /// Lets the device call of this number and all later ones fail.
    pub fn stop_at(&mut self, call: u64)
        ensures { self.new ≡ record self.old { calls = with_stop self.old.calls call } }
    {
        self.calls.stop_at(call);
    }

    /// A disk of the same room that holds one of the images now, synced: at choice 0 the octets of
    /// the last sync, at choice 1 those that a read gives, and at any other those that a read gives,
    /// with `ff` for each octet that was written since the last sync. No call of it is named to fail.
    #[tactic(auto, using(crate::proofs::ReplayLemmas::image_by_is, crate::proofs::ReplayLemmas::image_by_fits))]
    pub fn stopped(&self, alloc: Global, choice: u8) -> Result<MemoryDisk, Memory>
        ensures choice { IfOk result (λ disk. disk
            ≡ disk_with (image_by self.now.steps choice) self.now.room) }
        ensures image { IsImage self.now.steps (image_by self.now.steps choice) }
    {
        let octets = image(alloc, &self.changes, choice)?;
        Ok(MemoryDisk::with_octets(alloc, octets, self.room)?)
    }

    /// A disk of this room that holds these octets, synced.
    #[tactic(auto, using(crate::proofs::ReplayLemmas::disk_with_octets, crate::proofs::ReplayLemmas::disk_with_fits))]
    fn with_octets(alloc: Global, octets: Vec<u8>, room: u64) -> Result<MemoryDisk, AllocError>
        requires fits { vec_len octets ≤ room }
        requires most { room ≤ 2 ^ 62 }
        ensures { IfOk result (λ disk. disk ≡ disk_with octets.items room) }
    {
        let changes = changes_of(alloc, &octets)?;
        Ok(MemoryDisk {
            alloc,
            octets,
            changes,
            room,
            calls: Calls::new(alloc),
        })
    }

    /// Writes the piece at this place. After an error nothing has changed.
    fn write(&mut self, place: usize, piece: &[u8]) -> Result<(), AllocError>
        requires { place + length piece.now ≤ self.old.room }
        ensures ok { OnOk result
            (self.new ≡ record self.old { steps = Wrote place piece.now ∷ self.old.steps }) }
        ensures err { OnErr result (self.new ≡ self.old) }
    {
        self.changes.reserve(1)?;
        let kept = piece.to_vec(self.alloc)?;
        put(&mut self.octets, place, piece)?;
        self.changes
            .push_reserved(Change::Wrote { place, piece: kept });
        Ok(())
    }

    /// Cuts the octets to this length. After an error nothing has changed.
    fn shorten(&mut self, size: u64) -> Result<(), AllocError>
        ensures ok { OnOk result (self.new
            ≡ record self.old { steps = CutTo size ∷ self.old.steps }) }
        ensures err { OnErr result (self.new ≡ self.old) }
    {
        self.changes.push(Change::CutTo(size as usize))?;
        self.octets.truncate(size as usize);
        Ok(())
    }

    /// Notes a sync. After an error nothing has changed.
    fn note_sync(&mut self) -> Result<(), AllocError>
        ensures ok { OnOk result (self.new ≡ record self.old { steps = Synced ∷ self.old.steps }) }
        ensures err { OnErr result (self.new ≡ self.old) }
        ensures crash { NoMore (IsImage self.old.steps) (IsImage self.new.steps) }
    {
        self.changes.push(Change::Synced)?;
        Ok(())
    }

    /// How many device calls found no memory.
    pub fn starved(&self) -> u64
        ensures { result ≡ self.now.calls.starved }
    {
        self.calls.starved()
    }
}

impl LeaseDisk for MemoryDisk {
    ghost use Rattle.std.specs.Prelude.{◌≡◌, ◌↔◌, ◌⊎◌, ◌∷◌, ◌^◌, ◌≤◌, false, drop, length, min, IsErr, IfOk, OnOk, OnErr};
    ghost use Rattle.lease_disk.specs.Contents.{ReadsFrom};
    ghost use Rattle.pcp_io.specs.CallLogs.{IsNamed, with_call, with_fault, with_starved};
    ghost use Rattle.lease_disk.specs.DiskInMemory.{IsDiskWriteRefused};
    ghost use Rattle.lease_disk.specs.ImageLaws.{image-now, image-counts, image-earlier, image-only};
    ghost use Rattle.lease_disk.specs.Images.{NoMore};
    ghost use Rattle.lease_disk.specs.Steps.{octets_after, IsImage, WasImage};
    ghost use Rattle.lease_disk.specs.Steps.DiskStep.{Wrote, CutTo, Synced};

    ghost tells = { Unit {0} };

    ghost seen = { λ d. octets_after d.steps };

    ghost may_leave = { λ d. IsImage d.steps };

    ghost moment = { λ d. length d.steps };

    ghost left_since = { λ d. WasImage d.steps };

    ghost faults = { λ d. d.calls.faults };

    ghost seen_now = { λ d _. image-now d.steps };

    ghost counts_now = { λ d t image le now. image-counts d.steps t image now };

    ghost lost = { λ _. false };

    ghost since_earlier = { λ d. image-earlier d.steps };

    ghost only_now = { λ d. image-only d.steps };

    fn len(&mut self) -> Result<u64, Failed>
        ensures most { IfOk result (λ size. size ≤ 2 ^ 62) }
        ensures size { IfOk result (λ size. size ≡ length (octets_after self.old.steps)) }
        ensures fails { IsErr result ↔ IsNamed self.old.calls }
        ensures call { OnOk result (self.new
            ≡ record self.old { calls = with_call self.old.calls }) }
        ensures fault { OnErr result (self.new
            ≡ record self.old { calls = with_fault self.old.calls }) }
    {
        if self.calls.begin() {
            return Err(self.calls.fail());
        }
        Ok(self.octets.len() as u64)
    }

    fn read_at(&mut self, place: u64, piece: &mut [u8]) -> Result<usize, Failed>
        ensures reads { IfOk result (ReadsFrom (octets_after self.old.steps) place piece.new) }
        ensures most { IfOk result
            (λ n. n ≡ min (length piece.old) (length (octets_after self.old.steps) - place)) }
        ensures bound { IfOk result (λ n. n ≤ length piece.new) }
        ensures rest { IfOk result (λ n. drop n piece.new ≡ drop n piece.old) }
        ensures piece { OnErr result (piece.new ≡ piece.old) }
        ensures fails { IsErr result ↔ IsNamed self.old.calls }
        ensures call { OnOk result (self.new
            ≡ record self.old { calls = with_call self.old.calls }) }
        ensures fault { OnErr result (self.new
            ≡ record self.old { calls = with_fault self.old.calls }) }
    {
        if self.calls.begin() {
            return Err(self.calls.fail());
        }
        Ok(read_front(&self.octets, place, piece))
    }

    fn write_at(&mut self, place: u64, piece: &[u8]) -> Result<(), Failed>
        // It fails where the call is named and where the write would pass the room, and else only
        // for want of memory.
        ensures refused { IsDiskWriteRefused self.old place (length piece.now) → IsErr result }
        ensures fault { IsDiskWriteRefused self.old place (length piece.now)
            → self.new ≡ record self.old { calls = with_fault self.old.calls } }
        ensures starved { OnErr result
            (IsDiskWriteRefused self.old place (length piece.now)
            ⊎ (self.new ≡ record self.old { calls = with_starved self.old.calls })) }
        ensures most { OnOk result (place + length piece.now ≤ 2 ^ 62) }
        ensures wrote { OnOk result
            (self.new ≡ record self.old {
              steps = Wrote place piece.now ∷ self.old.steps;
              calls = with_call self.old.calls;
            }) }
    {
        let named = self.calls.begin();
        if named || !has_room(self.room, place, piece.len()) {
            return Err(self.calls.fail());
        }
        match self.write(place as usize, piece) {
            Ok(()) => Ok(()),
            Err(_) => Err(self.calls.starve()),
        }
    }

    fn cut(&mut self, length: u64) -> Result<(), Failed>
        ensures fault { IsNamed self.old.calls
            → self.new ≡ record self.old { calls = with_fault self.old.calls } }
        ensures refused { IsNamed self.old.calls → IsErr result }
        ensures starved { OnErr result
            (IsNamed self.old.calls
            ⊎ (self.new ≡ record self.old { calls = with_starved self.old.calls })) }
        ensures cut { OnOk result
            (self.new ≡ record self.old {
              steps = CutTo length ∷ self.old.steps;
              calls = with_call self.old.calls;
            }) }
    {
        if self.calls.begin() {
            return Err(self.calls.fail());
        }
        match self.shorten(length) {
            Ok(()) => Ok(()),
            Err(_) => Err(self.calls.starve()),
        }
    }

    fn sync(&mut self) -> Result<(), Failed>
        ensures fault { IsNamed self.old.calls
            → self.new ≡ record self.old { calls = with_fault self.old.calls } }
        ensures refused { IsNamed self.old.calls → IsErr result }
        ensures starved { OnErr result
            (IsNamed self.old.calls
            ⊎ (self.new ≡ record self.old { calls = with_starved self.old.calls })) }
        ensures crash { NoMore (IsImage self.old.steps) (IsImage self.new.steps) }
        ensures synced { OnOk result
            (self.new ≡ record self.old {
              steps = Synced ∷ self.old.steps;
              calls = with_call self.old.calls;
            }) }
    {
        if self.calls.begin() {
            return Err(self.calls.fail());
        }
        match self.note_sync() {
            Ok(()) => Ok(()),
            Err(_) => Err(self.calls.starve()),
        }
    }

    fn is_lost(&self) -> bool
        ensures { result ≡ false }
    {
        false
    }
}

/// The changes that leave these octets, synced.
fn changes_of(alloc: Global, octets: &[u8]) -> Result<Vec<Change>, AllocError>
    ensures { IfOk result (λ changes. steps_of changes.items ≡ Synced ∷ Wrote 0 octets.now ∷ []) }
{
    let mut changes = Vec::new(alloc);
    let piece = octets.to_vec(alloc)?;
    changes.push(Change::Wrote { place: 0, piece })?;
    changes.push(Change::Synced)?;
    Ok(changes)
}

/// Whether a write of so many octets at this place ends within the room.
fn has_room(room: u64, place: u64, count: usize) -> bool
    ensures { IsTrue result ↔ (place + count ≤ room) }
{
    place <= room && count as u64 <= room - place
}

/// Copies octets from this place on into the front of the piece, and says how many.
fn read_front(octets: &[u8], place: u64, piece: &mut [u8]) -> usize
    ensures reads { ReadsFrom octets.now place piece.new result }
    ensures bound { result ≤ length piece.new }
    ensures rest { drop result piece.new ≡ drop result piece.old }
    ensures most { result ≡ min (length piece.old) (length octets.now - place) }
{
    let start = place.min(octets.len() as u64) as usize;
    let left = &octets[start..];
    let count = left.len().min(piece.len());
    piece[..count].copy_from_slice(&left[..count]);
    count
}
