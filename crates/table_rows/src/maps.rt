//! Calls of both bodies of a table of MAP leases, with answers that are worked out by hand.

ghost use Rattle.std.specs.Prelude.{◌≡◌, ◌<◌, OnOk};

use crate::making::{all_are_so, at, map_of, moment, remote};
use crate::sound_maps::are_sound_with;
use Call::{Allowed, Copied, Ended, External, Filtered, Find, Live, Next, NextAt, Put, Remove};
use mapping_table::MapTable;
use mapping_table::plain::PlainMapTable;
use pcp_base::Protocol::{Tcp, Udp};
use pcp_base::{Endpoint, Filter, Filters, MapLease, Memory, Protocol};
use std::alloc::Global;
use std::marker::Brand;
use std::sync::ledger::{Blank, Ledger};
use step_count::Steps;

/// A call, and the answer that is wanted. Leases are told by their first external ports.
#[derive(Clone, Copy)]
enum Call {
    /// Protocol, host, its first port, how many, the first external port, and the expiry.
    Put(Protocol, u8, u16, u16, u16, u32),
    /// Host, external port, and the remote port of its filter. Its one internal port is 5000.
    Filtered(u8, u16, u16),
    /// Of such a lease, the remote port of its filter.
    Allowed(u8, u16, Option<u16>),
    Find(u8, u16, Option<u16>),
    External(u16, Option<u16>),
    /// While all leases are live.
    Next(u8, u16, Option<u16>),
    /// Host, port, the end, and the moment.
    NextAt(u8, u16, u32, u32, Option<u16>),
    Remove(u8, u16, Option<u16>),
    Live(u32, u32),
    Ended(u32, bool),
    /// The moments at which the one body and the plain one copy leases, and which come.
    Copied(u32, u32, &'static [u16]),
}

static FOUND: [Call; 24] = [
    Find(5, 5000, None),
    Put(Udp, 5, 6000, 5, 1024, 4610),
    Put(Udp, 5, 5000, 1, 1029, 4610),
    Put(Udp, 6, 6000, 1, 1030, 1130),
    Find(5, 5999, None),
    Find(5, 6000, Some(1024)),
    Find(5, 6004, Some(1024)),
    Find(5, 6005, None),
    Find(6, 6000, Some(1030)),
    External(1023, None),
    External(1028, Some(1024)),
    External(1029, Some(1029)),
    External(1031, None),
    Next(5, 0, Some(5000)),
    Next(5, 5000, Some(6000)),
    Next(5, 6003, Some(6004)),
    Next(5, 6004, None),
    Next(5, 65535, None),
    Next(6, 5000, Some(6000)),
    Remove(5, 6001, None),
    Remove(5, 6000, Some(1024)),
    External(1024, None),
    Find(5, 6002, None),
    Next(5, 5000, None),
];

static RENEWED: [Call; 12] = [
    Put(Udp, 5, 5000, 1, 1024, 1130),
    Put(Udp, 6, 5000, 1, 1025, 1120),
    Put(Udp, 7, 5000, 1, 1026, 4610),
    Live(1119, 3),
    // A lease isn't live at its expiry.
    Live(1120, 2),
    Live(1130, 1),
    // Renewed: the same place, another expiry.
    Put(Udp, 5, 5000, 1, 1024, 1140),
    Put(Udp, 5, 5000, 1, 1030, 1140),
    External(1024, None),
    External(1030, Some(1030)),
    Remove(6, 5000, Some(1025)),
    Live(1139, 2),
];

// A set of 100 ports and a single one end, and others stay.
static ENDED: [Call; 23] = [
    Ended(1119, false),
    Put(Udp, 5, 5000, 100, 1024, 1120),
    Put(Udp, 5, 5500, 1, 1180, 1100),
    Put(Udp, 5, 6000, 1, 1200, 4610),
    Put(Udp, 6, 5000, 1, 1210, 4610),
    Ended(1099, false),
    Live(1099, 4),
    NextAt(5, 5000, 65536, 1099, Some(5001)),
    NextAt(5, 5200, 65536, 1099, Some(5500)),
    Ended(1120, true),
    Live(1120, 2),
    // Both are passed.
    NextAt(5, 4000, 65536, 1120, Some(6000)),
    NextAt(5, 5000, 6001, 1120, Some(6000)),
    NextAt(5, 5000, 6000, 1120, None),
    NextAt(5, 5000, 5001, 0, None),
    NextAt(5, 6000, 65536, 1120, None),
    // They are in the list still.
    Live(1099, 4),
    Find(5, 5050, Some(1024)),
    // Put anew, the set is live.
    Put(Udp, 5, 5000, 100, 1024, 1300),
    NextAt(5, 4000, 65536, 1120, Some(5000)),
    Remove(5, 5000, Some(1024)),
    Live(1120, 2),
    NextAt(5, 4000, 65536, 1120, Some(6000)),
];

// In the order granted.
static COPIED: [Call; 4] = [
    Put(Udp, 5, 5000, 1, 1025, 1130),
    Put(Tcp, 5, 5000, 1, 1024, 1131),
    Put(Udp, 4, 5000, 1, 1026, 4610),
    Copied(1130, 1131, &[1024, 1026, 1026]),
];

// Filters go with the lease that they were put with.
static FILTERED: [Call; 16] = [
    Filtered(5, 1024, 80),
    Put(Udp, 6, 5000, 1, 1025, 4610),
    Allowed(5, 1024, Some(80)),
    Allowed(6, 1025, None),
    // Renewed with another port and filter.
    Filtered(5, 1026, 443),
    Allowed(5, 1026, Some(443)),
    // And without one.
    Put(Udp, 5, 5000, 1, 1026, 4610),
    Allowed(5, 1026, None),
    Filtered(6, 1025, 22),
    Filtered(5, 1026, 25),
    Allowed(5, 1026, Some(25)),
    Remove(5, 5000, Some(1026)),
    Allowed(6, 1025, Some(22)),
    // Put anew, it has none.
    Put(Udp, 5, 5000, 1, 1026, 4610),
    Allowed(5, 1026, None),
    Allowed(6, 1025, Some(22)),
];

/// A lease that was granted at 0.
fn lease(first: &Endpoint, count: u16, external: u16, expiry: u32) -> MapLease {
    map_of(first, count, external, moment(0), u64::from(expiry))
}

/// The lease with one filter: the remote peer 198.51.100.1 with this port.
fn with_filter(lease: MapLease, port: u16) -> MapLease {
    let mut filters = Filters::none();
    filters.push(Filter {
        prefix: 128,
        port,
        remote: remote(1),
    });
    MapLease { filters, ..lease }
}

/// The remote port of the first filter.
fn allowed(lease: Option<&MapLease>) -> Option<u16> {
    Some(lease?.filters.items().first()?.port)
}

/// The first external port.
fn told(lease: Option<&MapLease>) -> Option<u16> {
    Some(lease?.external)
}

/// Puts a lease into both bodies, where the leases after it are sound.
pub(crate) fn put_both<L: Ledger>(
    alloc: Global,
    table: &mut MapTable,
    plain: &mut PlainMapTable,
    lease: &MapLease,
    steps: &mut Steps<L>,
) -> Result<bool, Memory>
    requires { table.old.found ≡ plain.old }
    ensures { OnOk result (table.new.found ≡ plain.new) }
{
    if !are_sound_with(alloc, plain.leases(), lease)? {
        return Ok(false);
    }
    table.put(alloc, *lease, steps)?;
    plain.put(alloc, *lease, steps)?;
    Ok(true)
}

/// Takes a lease out of both bodies. Whether each tells the one that is wanted.
fn is_removed<L: Ledger>(
    table: &mut MapTable,
    plain: &mut PlainMapTable,
    key: &Endpoint,
    wanted: Option<u16>,
    steps: &mut Steps<L>,
) -> bool
    requires { table.old.found ≡ plain.old }
    ensures { table.new.found ≡ plain.new }
{
    let (removed, plainly) = (table.remove(key, steps), plain.remove(key, steps));
    (told(removed.as_ref()), told(plainly.as_ref())) == (wanted, wanted)
        && allowed(removed.as_ref()) == allowed(plainly.as_ref())
}

/// Whether both bodies copy the leases of these external ports.
fn are_copied(
    alloc: Global,
    table: &MapTable,
    plain: &PlainMapTable,
    moments: (u32, u32),
    wanted: &[u16],
) -> Result<bool, Memory> {
    let mut live = Vec::new(alloc);
    table.copy_live(alloc, moment(moments.0), &mut live)?;
    plain.copy_live(alloc, moment(moments.1), &mut live)?;
    Ok(
        live.iter()
            .map(|lease| lease.external)
            .eq(wanted.iter().copied()),
    )
}

/// Whether both bodies tell this filter of the lease that covers the endpoint and owns the port.
fn are_allowed<L: Ledger>(
    table: &MapTable,
    plain: &PlainMapTable,
    endpoint: &Endpoint,
    external: u16,
    wanted: Option<u16>,
    steps: &mut Steps<L>,
) -> bool {
    let (found, plainly) = (table.find(endpoint, steps), plain.find(endpoint, steps));
    let owning = table.by_external(Udp, external, steps);
    (allowed(found.as_ref()), allowed(plainly.as_ref())) == (wanted, wanted)
        && allowed(owning.as_ref()) == wanted
}

/// Whether both bodies tell when this lease expires as when the port's owner does, whatever endpoint
/// they look at first.
fn are_held<L: Ledger>(
    table: &MapTable,
    plain: &PlainMapTable,
    port: u16,
    owner: Option<&MapLease>,
    steps: &mut Steps<L>,
) -> bool {
    let wanted = owner.map(|lease| lease.expiry);
    let own = owner.map_or(at(Udp, 1, 5000), |lease| lease.first_endpoint());
    table.owner_expiry(Udp, port, &own, steps) == wanted
        && table.owner_expiry(Udp, port, &at(Udp, 1, 5000), steps) == wanted
        && plain.owner_expiry(Udp, port, &own, steps) == wanted
}

/// Whether a lease that is live at 0 covers the endpoint, by both bodies, where one is wanted.
fn are_covered<L: Ledger>(
    table: &MapTable,
    plain: &PlainMapTable,
    endpoint: &Endpoint,
    wanted: Option<u16>,
    steps: &mut Steps<L>,
) -> bool {
    let covered = table.covers(endpoint, moment(0), steps);
    (covered, plain.covers(endpoint, moment(0), steps)) == (wanted.is_some(), wanted.is_some())
}

/// Whether both bodies tell this port as the next one before the end that is covered at a moment.
fn are_next<L: Ledger>(
    table: &MapTable,
    plain: &PlainMapTable,
    endpoint: &Endpoint,
    within: (u32, u32),
    wanted: Option<u16>,
    steps: &mut Steps<L>,
) -> bool {
    let (end, m) = within;
    if end <= u32::from(endpoint.port) || 65536 < end {
        return false;
    }
    let next = table.next_internal(endpoint, end, moment(m), steps);
    (next, plain.next_internal(endpoint, end, moment(m), steps)) == (wanted, wanted)
}

/// Whether both bodies answer so a call that changes nothing and copies nothing.
fn is_told<L: Ledger>(
    table: &MapTable,
    plain: &PlainMapTable,
    call: &Call,
    steps: &mut Steps<L>,
) -> bool {
    match *call {
        Find(host, port, wanted) => {
            let endpoint = at(Udp, host, port);
            let (found, plainly) = (table.find(&endpoint, steps), plain.find(&endpoint, steps));
            (told(found.as_ref()), told(plainly.as_ref())) == (wanted, wanted)
                && are_covered(table, plain, &endpoint, wanted, steps)
        }
        External(port, wanted) => {
            let found = table.by_external(Udp, port, steps);
            let plainly = plain.by_external(Udp, port, steps);
            (told(found.as_ref()), told(plainly.as_ref())) == (wanted, wanted)
                && are_held(table, plain, port, found.as_ref(), steps)
        }
        Allowed(host, external, wanted) => {
            are_allowed(table, plain, &at(Udp, host, 5000), external, wanted, steps)
        }
        Next(host, port, wanted) => {
            are_next(
                table,
                plain,
                &at(Udp, host, port),
                (65536, 0),
                wanted,
                steps,
            )
        }
        NextAt(host, port, end, m, wanted) => {
            are_next(table, plain, &at(Udp, host, port), (end, m), wanted, steps)
        }
        Live(m, wanted) => (table.live(moment(m)), plain.live(moment(m))) == (wanted, wanted),
        Ended(m, wanted) => {
            let ended = table.has_ended(moment(m), steps);
            (ended, plain.has_ended(moment(m), steps)) == (wanted, wanted)
        }
        _ => false,
    }
}

/// Makes a call of both bodies. Whether both give the answer that is wanted.
fn is_answered<L: Ledger>(
    alloc: Global,
    table: &mut MapTable,
    plain: &mut PlainMapTable,
    call: &Call,
    steps: &mut Steps<L>,
) -> Result<bool, Memory>
    requires { table.old.found ≡ plain.old }
    ensures { OnOk result (table.new.found ≡ plain.new) }
{
    Ok(match *call {
        Put(protocol, host, internal, count, external, expiry) => {
            let new = lease(&at(protocol, host, internal), count, external, expiry);
            put_both(alloc, table, plain, &new, steps)?
        }
        Filtered(host, external, port) => {
            let new = lease(&at(Udp, host, 5000), 1, external, 4610);
            put_both(alloc, table, plain, &with_filter(new, port), steps)?
        }
        Remove(host, port, wanted) => {
            is_removed(table, plain, &at(Udp, host, port), wanted, steps)
        }
        Copied(first, second, wanted) => {
            are_copied(alloc, table, plain, (first, second), wanted)?
        }
        _ => is_told(table, plain, call, steps),
    })
}

/// Whether the table forgets its leases.
fn forgets<L: Ledger>(table: &mut MapTable, steps: &mut Steps<L>) -> bool {
    table.clear();
    table.find(&at(Tcp, 5, 5000), steps).is_none() && table.live(moment(0)) == 0
}

/// Makes calls, one after the other, of bodies that hold the same, and clears the one then. The
/// first that is answered otherwise.
fn first_other<L: Ledger>(
    alloc: Global,
    table: &mut MapTable,
    plain: &mut PlainMapTable,
    calls: &[Call],
    steps: &mut Steps<L>,
) -> Result<Option<usize>, Memory>
    requires { table.old.found ≡ plain.old }
{
    for (number, call) in calls.iter().enumerate() {
        if !is_answered(alloc, table, plain, call, steps)? {
            return Ok(Some(number));
        }
    }
    if !forgets(table, steps) {
        return Ok(Some(calls.len()));
    }
    Ok(None)
}

/// The same of bodies without a lease.
fn first_other_of_new<L: Ledger>(
    alloc: Global,
    blank: Blank,
    calls: &[Call],
) -> Result<Option<usize>, Memory>
    requires name { blank.name ≡ L.name }
    requires parts { blank.parts ≡ L.parts }
    requires some { 0 < L.parts }
{
    let mut steps = Steps::<L>::begin(blank);
    let mut plain = PlainMapTable::new(alloc)?;
    let mut table = MapTable::new(alloc)?;
    first_other(alloc, &mut table, &mut plain, calls, &mut steps)
}

#[test]
fn leases_are_found_by_all_their_ports(rt: HostRuntime) {
    all_are_so(
        &rt,
        first_other_of_new::<Brand>(rt.alloc(), Blank::new(1), &FOUND),
    );
}

#[test]
fn a_renewal_keeps_its_place(rt: HostRuntime) {
    all_are_so(
        &rt,
        first_other_of_new::<Brand>(rt.alloc(), Blank::new(1), &RENEWED),
    );
}

#[test]
fn ended_leases_are_passed(rt: HostRuntime) {
    all_are_so(
        &rt,
        first_other_of_new::<Brand>(rt.alloc(), Blank::new(1), &ENDED),
    );
}

#[test]
fn live_leases_are_copied_in_order(rt: HostRuntime) {
    all_are_so(
        &rt,
        first_other_of_new::<Brand>(rt.alloc(), Blank::new(1), &COPIED),
    );
}

#[test]
fn filters_go_with_their_leases(rt: HostRuntime) {
    all_are_so(
        &rt,
        first_other_of_new::<Brand>(rt.alloc(), Blank::new(1), &FILTERED),
    );
}
