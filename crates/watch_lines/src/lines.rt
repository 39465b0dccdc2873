//! A line for each happening.
ghost use Rattle.std.specs.Prelude.{◌≡◌, ◌++◌, IfOk, OnOk};
ghost use Rattle.serde_json.specs.View.{view};
ghost use Rattle.watch_lines.specs.Lines.{line_text, line_value, lines_text, ready_line, ready_value};

use crate::members::{begin_of, lost_of, map_line_of, named_of, peer_line_of};
use crate::settings::Setting;
use crate::texts::text_of;
use journal_watch::Happening;
use pcp_base::Memory;
use serde_json::{Map, Value, put};
use std::alloc::Global;

fn value_of(alloc: Global, setting: &Setting, happening: &Happening) -> Result<Value, Memory>
    ensures { IfOk result (λ v. view v ≡ line_value setting.now happening.now) }
{
    match happening {
        Happening::Begins(generation, gap) => begin_of(alloc, setting, *generation, *gap),
        Happening::FoundMap(lease) => map_line_of(alloc, setting, "found", lease),
        Happening::FoundPeer(lease) => peer_line_of(alloc, setting, "found", lease),
        Happening::GoneMap(lease) => map_line_of(alloc, setting, "gone", lease),
        Happening::GonePeer(lease) => peer_line_of(alloc, setting, "gone", lease),
        Happening::GrantedMap(lease) => map_line_of(alloc, setting, "granted", lease),
        Happening::GrantedPeer(lease) => peer_line_of(alloc, setting, "granted", lease),
        Happening::RenewedMap(lease) => map_line_of(alloc, setting, "renewed", lease),
        Happening::RenewedPeer(lease) => peer_line_of(alloc, setting, "renewed", lease),
        Happening::DeletedMap(lease) => map_line_of(alloc, setting, "deleted", lease),
        Happening::DeletedPeer(lease) => peer_line_of(alloc, setting, "deleted", lease),
        Happening::AreLost(leases) => lost_of(alloc, setting, *leases),
        Happening::Named(address) => named_of(alloc, setting, address),
        Happening::EndedMap(lease) => map_line_of(alloc, setting, "ended", lease),
        Happening::EndedPeer(lease) => peer_line_of(alloc, setting, "ended", lease),
    }
}

/// The line of a happening: a JSON object without spaces, its members in the order of their names, and
/// a line feed.
pub fn line_of(alloc: Global, setting: &Setting, happening: &Happening) -> Result<Vec<u8>, Memory>
    ensures { IfOk result (λ line. line.items ≡ line_text setting.now happening.now) }
{
    let value = value_of(alloc, setting, happening)?;
    text_of(alloc, value)
}

/// Appends a line to the others.
fn put_line(
    alloc: Global,
    setting: &Setting,
    happening: &Happening,
    lines: &mut Vec<u8>,
) -> Result<(), Memory>
    ensures { OnOk result (lines.new.items
        ≡ lines.old.items ++ line_text setting.now happening.now) }
{
    let line = line_of(alloc, setting, happening)?;
    Ok(lines.extend_from_slice(&line)?)
}

/// The lines of happenings, one after the other.
pub fn lines_of(
    alloc: Global,
    setting: &Setting,
    happenings: &[Happening],
) -> Result<Vec<u8>, Memory>
    ensures { IfOk result (λ lines. lines.items ≡ lines_text setting.now happenings.now) }
{
    let mut lines = Vec::new(alloc);
    for happening in happenings {
        put_line(alloc, setting, happening, &mut lines)?;
    }
    Ok(lines)
}

fn ready_value_of(alloc: Global, leases: u64) -> Result<Value, Memory>
    ensures { IfOk result (λ v. view v ≡ ready_value leases) }
{
    let mut object = Map::new(alloc);
    put(&mut object, alloc, "leases", Value::from(leases))?;
    put(
        &mut object,
        alloc,
        "what",
        Value::try_from_str(alloc, "ready")?,
    )?;
    Ok(Value::Object(object))
}

/// The line that comes once, behind the first reading of all external addresses: so many leases are
/// shown.
pub fn ready_line_of(alloc: Global, leases: u64) -> Result<Vec<u8>, Memory>
    ensures { IfOk result (λ line. line.items ≡ ready_line leases) }
{
    let value = ready_value_of(alloc, leases)?;
    text_of(alloc, value)
}
