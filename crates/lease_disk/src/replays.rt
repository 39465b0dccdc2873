//! The octets that changes make.
ghost use Rattle.std.specs.Prelude.{◌≡◌, ◌+◌, ◌≤◌, ◌++◌, if◌then◌else◌, length, take, drop, vec_len, IfOk, OnOk, OnErr};
ghost use Rattle.lease_disk.specs.Changes.{step_of, steps_of};
ghost use Rattle.lease_disk.specs.Contents.{with_zeros, after_write};
ghost use Rattle.lease_disk.specs.Replays.{with_ff_from, synced_count};
ghost use Rattle.lease_disk.specs.Steps.{after_step, with_ff, image_by, octets_after, up_to_sync};

use crate::changes::Change;
use std::alloc::{AllocError, Global};

/// Puts zeros behind the octets, up to this length. After an error they are as before.
fn pad(octets: &mut Vec<u8>, size: usize) -> Result<(), AllocError>
    ensures ok { OnOk result (octets.new.items ≡ with_zeros octets.old.items size) }
    ensures err { OnErr result (octets.new.items ≡ octets.old.items) }
{
    if octets.len() < size {
        octets.resize(size, 0)?;
    }
    Ok(())
}

/// Writes the piece over the octets at this place.
fn overwrite(octets: &mut Vec<u8>, place: usize, piece: &[u8])
    requires { place + length piece.now ≤ vec_len octets.old }
    ensures { octets.new.items ≡ take place octets.old.items
        ++ piece.now ++ drop (place + length piece.now) octets.old.items }
{
    octets[place..place + piece.len()].copy_from_slice(piece);
}

/// Writes the piece into the octets at this place. After an error they are as before.
#[tactic(auto, using(crate::proofs::WriteLemmas::after_write_padded))]
pub(crate) fn put(octets: &mut Vec<u8>, place: usize, piece: &[u8]) -> Result<(), AllocError>
    ensures ok { OnOk result (octets.new.items ≡ after_write octets.old.items place piece.now) }
    ensures err { OnErr result (octets.new.items ≡ octets.old.items) }
{
    if piece.is_empty() {
        return Ok(());
    }
    // no memory has room for more than 2^64 - 1 octets
    let end = place.checked_add(piece.len()).ok_or(AllocError)?;
    pad(octets, end)?;
    overwrite(octets, place, piece);
    Ok(())
}

/// Makes one change of the octets, with `ff` for each octet that it wrote where it isn't plain.
fn make(alloc: Global, octets: &mut Vec<u8>, change: &Change, plain: bool) -> Result<(), AllocError>
    ensures { let step = step_of change.now in
        OnOk result
        (octets.new.items ≡ after_step (if plain then step else with_ff step) octets.old.items) }
{
    match change {
        Change::Wrote { place, piece } if plain => put(octets, *place, piece)?,
        Change::Wrote { place, piece } => {
            let with_ff = vec![in alloc; 0xff; piece.len()]?;
            put(octets, *place, &with_ff)?;
        }
        Change::CutTo(size) => octets.truncate(*size),
        Change::Synced => {}
    }
    Ok(())
}

/// The octets that the changes make, those from this number on with `ff` for each octet that was
/// written.
fn replay(alloc: Global, changes: &[Change], plain: usize) -> Result<Vec<u8>, AllocError>
    ensures { IfOk result
        (λ octets. octets.items ≡ octets_after (with_ff_from plain (steps_of changes.now))) }
{
    let mut octets = Vec::new(alloc);
    for (index, change) in changes.iter().enumerate() {
        make(alloc, &mut octets, change, index < plain)?;
    }
    Ok(octets)
}

/// How many changes end with the last sync.
fn synced_count(changes: &[Change]) -> usize
    ensures count { result ≡ synced_count (steps_of changes.now) }
    ensures bound { result ≤ length changes.now }
    ensures octets { octets_after (steps_of (take result changes.now))
        ≡ octets_after (up_to_sync (steps_of changes.now)) }
{
    let mut count = 0;
    for (index, change) in changes.iter().enumerate() {
        if let Change::Synced = change {
            count = index + 1;
        }
    }
    count
}

/// The image of this choice.
pub(crate) fn image(alloc: Global, changes: &[Change], choice: u8) -> Result<Vec<u8>, AllocError>
    ensures { IfOk result (λ octets. octets.items ≡ image_by (steps_of changes.now) choice) }
{
    let synced = synced_count(changes);
    match choice {
        0 => replay(alloc, &changes[..synced], synced),
        1 => replay(alloc, changes, changes.len()),
        _ => replay(alloc, changes, synced),
    }
}
