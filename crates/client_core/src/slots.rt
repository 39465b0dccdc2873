//! The wants of a client, each in the slot of its id.
ghost use Rattle.std.specs.Prelude.{◌≡◌, ◌*◌, ◌^◌, ◌<◌, IfOk, IfSome, None, Some, is_none, is_some, length, map, option_map, position, replicate, slice_set};
ghost use Rattle.client_core.specs.Meanings.{want_at};
ghost use Rattle.client_core.specs.Clients.{after_asked, dropped_in, due_in, first_at, first_due, happened, happened_at, is_due_at, is_over_in, lease_in, least, least_due, request_in, with_notice};
ghost use Rattle.client_core.specs.Dues.{least_next, next_in};
ghost use Rattle.client_core.specs.Wants.{IsTimely};

use crate::events::{Event, HeldLease};
use crate::meanings::Notice;
use crate::wants::Want;
use pcp_base::{Address, Memory, Octets};
use std::alloc::{AllocError, Global};

/// How many wants a client keeps at most.
pub const MOST_WANTS: usize = 64;

/// Slots without a want.
pub(crate) fn empty_slots(alloc: Global, count: usize) -> Result<Vec<Option<Want>>, AllocError>
    ensures { IfOk result (λ slots. slots.items ≡ replicate count None) }
{
    let mut slots = Vec::with_capacity(alloc, count)?;
    for _ in 0..count {
        slots.push(None)?;
    }
    Ok(slots)
}

/// The first slot without a want.
pub(crate) fn free_slot(slots: &[Option<Want>]) -> Option<usize>
    ensures value { result ≡ position is_none slots.now }
    ensures there { IfSome result (λ id. id < length slots.now) }
{
    slots.iter().position(|slot| slot.is_none())
}

/// Whether there is a want of this id.
pub(crate) fn is_kept(slots: &[Option<Want>], id: usize) -> bool
    ensures { result ≡ is_some (want_at slots.now id) }
{
    match slots.get(id) {
        Some(slot) => slot.is_some(),
        None => false,
    }
}

/// What an event makes of the want in a slot.
fn happened(slot: Option<Want>, event: Event) -> Option<Want>
    requires { IsTimely event }
    ensures { result ≡ happened event slot }
{
    match slot {
        Some(want) => Some(want.after(event)),
        None => None,
    }
}

/// The event happens to the want of this id, if there is one.
pub(crate) fn happen_at(slots: &mut [Option<Want>], id: usize, event: Event)
    requires { IsTimely event }
    ensures { slots.new ≡ happened_at slots.old id event }
{
    if id >= slots.len() {
        return;
    }
    let slot = slots[id].take();
    slots[id] = happened(slot, event);
}

/// The event happens to all wants.
pub(crate) fn happen_to_all(slots: &mut [Option<Want>], event: Event)
    requires { IsTimely event }
    ensures { slots.new ≡ map (happened event) slots.old }
{
    for id in 0..slots.len() {
        happen_at(slots, id, event);
    }
}

/// Drops the lease of the want of this id where it is over.
fn drop_at(slots: &mut [Option<Want>], id: usize, at_ms: u64)
    requires { id < length slots.old }
    ensures { slots.new ≡ slice_set slots.old id (dropped_in at_ms (want_at slots.old id)) }
{
    if is_over(&slots[id], at_ms) {
        happen_at(slots, id, Event::Dropped);
    }
}

/// Drops the leases that are over.
pub(crate) fn drop_ended(slots: &mut [Option<Want>], at_ms: u64)
    ensures { slots.new ≡ map (dropped_in at_ms) slots.old }
{
    for id in 0..slots.len() {
        drop_at(slots, id, at_ms);
    }
}

/// The id of the want that is due first, at or before this time.
pub(crate) fn first_due(slots: &[Option<Want>], at_ms: u64) -> Option<usize>
    ensures value { result ≡ first_due slots.now at_ms }
    ensures there { IfSome result (λ id. id < length slots.now) }
{
    let time = least_due(slots)?;
    if time > at_ms {
        return None;
    }
    due_at(slots, time)
}

/// The first id of a want that is due at this time.
fn due_at(slots: &[Option<Want>], time_ms: u64) -> Option<usize>
    ensures value { result ≡ position (is_due_at time_ms) slots.now }
    ensures there { IfSome result (λ id. id < length slots.now) }
{
    slots.iter().position(|slot| is_due_at(slot, time_ms))
}

/// The least due time of all wants.
fn least_due(slots: &[Option<Want>]) -> Option<u64>
    ensures { result ≡ least_due slots.now }
{
    let mut time = None;
    for slot in slots {
        time = least(time, due_in(slot));
    }
    time
}

/// The least time at which a want is asked for or loses its lease.
pub(crate) fn least_next(slots: &[Option<Want>]) -> Option<u64>
    ensures { result ≡ least_next slots.now }
{
    let mut time = None;
    for slot in slots {
        time = least(time, next_in(slot));
    }
    time
}

/// When the want in a slot is asked for or loses its lease.
fn next_in(slot: &Option<Want>) -> Option<u64>
    ensures { result ≡ next_in slot.now }
{
    match slot {
        Some(want) => Some(want.next_time()),
        None => None,
    }
}

/// The lesser of two times that there may be.
fn least(a: Option<u64>, b: Option<u64>) -> Option<u64>
    ensures { result ≡ least a b }
{
    match a {
        Some(a) => match b {
            Some(b) => Some(a.min(b)),
            None => Some(a),
        },
        None => b,
    }
}

/// When the want in a slot is due.
fn due_in(slot: &Option<Want>) -> Option<u64>
    ensures { result ≡ due_in slot.now }
{
    match slot {
        Some(want) => Some(want.due()),
        None => None,
    }
}

fn is_due_at(slot: &Option<Want>, time_ms: u64) -> bool
    ensures { result ≡ is_due_at time_ms slot.now }
{
    match slot {
        Some(want) => want.due() == time_ms,
        None => false,
    }
}

/// Whether the lease of the want in a slot is over.
fn is_over(slot: &Option<Want>, at_ms: u64) -> bool
    ensures { result ≡ is_over_in at_ms slot.now }
{
    match slot {
        Some(want) => want.is_over(at_ms),
        None => false,
    }
}

/// What is said beside the epoch happens to its want.
pub(crate) fn with_notice(slots: &mut [Option<Want>], at_ms: u64, word: u32, notice: Notice)
    requires { at_ms < 1000 * 2 ^ 40 }
    ensures { slots.new ≡ with_notice slots.old at_ms word notice }
{
    match notice {
        Notice::Epoch => {}
        Notice::Grants(id, grant) => happen_at(
            slots,
            id as usize,
            Event::Taken { at_ms, word, grant },
        ),
        Notice::Refuses(id, _code, seconds) => {
            happen_at(slots, id as usize, Event::Refused { at_ms, seconds });
        }
        Notice::Removes(id) => remove_at(slots, id as usize),
    }
}

/// Removes the want of this id, if there is one.
pub(crate) fn remove_at(slots: &mut [Option<Want>], id: usize)
    ensures { slots.new ≡ slice_set slots.old id None }
{
    if id < slots.len() {
        slots[id] = None;
    }
}

/// Drops the leases that are over, and sends the request of the want in this id.
pub(crate) fn after_asked(slots: &mut [Option<Want>], at_ms: u64, word: u32, id: Option<usize>)
    requires { at_ms < 1000 * 2 ^ 40 }
    ensures { slots.new ≡ after_asked (map (dropped_in at_ms) slots.old) at_ms word id }
{
    drop_ended(slots, at_ms);
    if let Some(id) = id {
        happen_at(slots, id, Event::Sent { at_ms, word });
    }
}

/// The lease that the want of this id holds.
pub(crate) fn lease_at(slots: &[Option<Want>], id: usize) -> Option<HeldLease>
    ensures { result ≡ lease_in (want_at slots.now id) }
{
    match slots.get(id) {
        Some(Some(want)) => want.lease(),
        Some(None) => None,
        None => None,
    }
}

/// The next request of the want of this id.
pub(crate) fn request_in(
    alloc: Global,
    own: &Address,
    slots: &[Option<Want>],
    id: usize,
) -> Result<Option<Octets>, Memory>
    ensures { IfOk result (λ text. text ≡ request_in own.now (want_at slots.now id)) }
{
    match slots.get(id) {
        Some(Some(want)) => Ok(Some(want.request(alloc, own)?)),
        Some(None) => Ok(None),
        None => Ok(None),
    }
}
