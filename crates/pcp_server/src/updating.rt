//! What clients of a renumbered external address are told is written, before the script is read.
ghost use Rattle.std.specs.Prelude.{◌≡◌, ◌≤◌, None, Err, IfErr, IfOk, OnOk, flat_map};
ghost use Rattle.std.specs.List.{AllByRecursion};
ghost use Rattle.std.specs.Io.KnownBytes.{append_known};
ghost use Rattle.pcp_io.specs.Faults.{HasRisen};
ghost use Rattle.pcp_script.specs.Results.{reply_line};
ghost use Rattle.pcp_server.specs.Played.{IsUntold, updates_text};
ghost use Rattle.server_commands.specs.declared.statuses.Status.TheVariants.{WriteFault};

use lease_disk::LeaseDisk;
use lease_house::SoloHouse;
use pcp_base::{Datagram, Memory, Octets};
use pcp_io::{Sink, write_all};
use pcp_script::{LineResult, write_result};
use server_commands::Status;
use std::alloc::Global;

/// The line of an update.
fn line_of(alloc: Global, update: &Datagram) -> Result<Vec<u8>, Memory>
    ensures { IfOk result (λ text. text.items ≡ reply_line update.now) }
{
    let octets = Vec::from_slice(alloc, update.octets.items())?;
    let to = Datagram {
        peer: update.peer,
        port: update.port,
        door: update.door,
        octets: Octets::of(octets),
    };
    let mut text = Vec::new(alloc);
    write_result(alloc, &mut text, &LineResult::Reply(to))?;
    Ok(text)
}

/// Writes the line of an update; where that isn't done says how the call ends.
fn tell_update<W: Sink>(alloc: Global, update: &Datagram, out: &mut W) -> Result<(), Status>
    ensures ok { OnOk result (W.held out.new
        ≡ append_known (W.held out.old) (reply_line update.now)) }
    ensures err { IfErr result
        (IsUntold (reply_line update.now) (W.held out.old) (W.held out.new)) }
    ensures cause { result ≡ Err WriteFault → HasRisen (W.faults out.old) (W.faults out.new) }
    ensures later { W.faults out.old ≤ W.faults out.new }
{
    let Ok(line) = line_of(alloc, update) else {
        return Err(Status::Memory);
    };
    match write_all(out, &line) {
        Ok(()) => Ok(()),
        Err(_) => Err(Status::WriteFault),
    }
}

/// Writes a line for each update, one after the other; where that isn't done says how it ends.
fn write_updates<W: Sink>(alloc: Global, updates: &[Datagram], out: &mut W) -> Result<(), Status>
    ensures ok { OnOk result (W.held out.new
        ≡ append_known (W.held out.old) (flat_map reply_line updates.now)) }
    ensures err { IfErr result
        (IsUntold (flat_map reply_line updates.now) (W.held out.old) (W.held out.new)) }
    ensures cause { result ≡ Err WriteFault → HasRisen (W.faults out.old) (W.faults out.new) }
    ensures later { W.faults out.old ≤ W.faults out.new }
{
    for update in updates {
        tell_update(alloc, update, out)?;
    }
    Ok(())
}

/// Writes the updates of a house that was just opened; where that isn't done says how the call ends.
pub(crate) fn tell_updates<W: Sink, D: LeaseDisk + Drop>(
    alloc: Global,
    house: &SoloHouse<D>,
    out: &mut W,
) -> Result<(), Status>
    requires settled { AllByRecursion (λ b. b.fault ≡ None) house.now.books }
    ensures ok { OnOk result (W.held out.new
        ≡ append_known (W.held out.old) (updates_text house.now)) }
    ensures err { IfErr result
        (IsUntold (updates_text house.now) (W.held out.old) (W.held out.new)) }
    ensures cause { result ≡ Err WriteFault → HasRisen (W.faults out.old) (W.faults out.new) }
    ensures later { W.faults out.old ≤ W.faults out.new }
{
    match house.updates(alloc) {
        Ok(updates) => write_updates(alloc, &updates, out),
        Err(_) => Err(Status::Memory),
    }
}
