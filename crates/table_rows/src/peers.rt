//! Calls of both bodies of a table of PEER leases, with answers that are worked out by hand.

ghost use Rattle.std.specs.Prelude.{◌≡◌, ◌<◌, OnOk};

use crate::making::{all_are_so, at, moment, peer_of, remote};
use crate::sound_peers::are_sound_with;
use Call::{
    Copied, EndedOf, External, Find, HasEnded, Last, Live, Next, OfEndpoint, Owned, Put, Remove,
    Unsound,
};
use pcp_base::Protocol::{Tcp, Udp};
use pcp_base::{Address, Endpoint, Memory, PeerLease, Protocol};
use peer_table::plain::PlainPeerTable;
use peer_table::{PeerTable, PortUse};
use std::alloc::Global;
use std::marker::Brand;
use std::sync::ledger::{Blank, Ledger};
use step_count::Steps;

/// A call, and the answer that is wanted. Remotes are 198.51.100.0 and so on. Leases are told by
/// their expiries.
#[derive(Clone, Copy)]
enum Call {
    /// A host and its port, the external port, a remote and its port, and the expiry.
    Put(u8, u16, u16, u8, u16, u32),
    /// The same, of a lease that may not stand beside the others.
    Unsound(u8, u16, u16, u8, u16, u32),
    Find(u8, u16, u8, u16, Option<u64>),
    External(u16, u8, u16, Option<u64>),
    /// A host and its port, the end, a moment, and the next port.
    Next(u8, u16, u32, u32, Option<u16>),
    /// A host and its port, a moment, and the one lease of them that has ended.
    EndedOf(u8, u16, u32, Option<u64>),
    HasEnded(u32, bool),
    /// A host and its port, a moment, and the external port and count.
    OfEndpoint(u8, u16, u32, Option<(u16, u32)>),
    Remove(u8, u16, u8, u16, Option<u64>),
    Live(u32, u32),
    /// An external port, of which the plain body doesn't tell it.
    Last(u16, Option<u64>),
    /// A protocol, a port, and the least one from it on that is owned, which the plain body doesn't
    /// tell.
    Owned(Protocol, u16, Option<u16>),
    /// The moments at which the one body and the plain one copy leases, and how many come.
    Copied(u32, u32, usize),
}

static OPENED: [Call; 26] = [
    OfEndpoint(5, 5000, 1010, None),
    Put(5, 5000, 1024, 7, 53, 4610),
    External(1024, 7, 53, Some(4610)),
    External(1024, 7, 54, None),
    External(1024, 8, 53, None),
    External(1025, 7, 53, None),
    Find(5, 5000, 7, 53, Some(4610)),
    Find(5, 5000, 7, 54, None),
    Find(5, 5001, 7, 53, None),
    Put(5, 5000, 1024, 8, 53, 1130),
    OfEndpoint(5, 5000, 1129, Some((1024, 2))),
    OfEndpoint(5, 5000, 1130, Some((1024, 1))),
    OfEndpoint(5, 5000, 4610, None),
    Put(5, 5001, 1025, 7, 53, 1200),
    Put(6, 5000, 1026, 7, 53, 1200),
    OfEndpoint(5, 5000, 1010, Some((1024, 2))),
    Next(5, 4999, 65536, 1010, Some(5000)),
    Next(5, 5000, 65536, 1010, Some(5001)),
    Next(5, 5001, 65536, 1010, None),
    Next(5, 65535, 65536, 1010, None),
    Next(6, 0, 65536, 1010, Some(5000)),
    Remove(5, 5000, 7, 54, None),
    Remove(5, 5000, 7, 53, Some(4610)),
    External(1024, 7, 53, None),
    External(1024, 8, 53, Some(1130)),
    OfEndpoint(5, 5000, 1010, Some((1024, 1))),
];

static RENEWED: [Call; 12] = [
    Put(5, 5000, 1024, 7, 53, 1130),
    Put(6, 5000, 1025, 7, 53, 1120),
    Put(7, 5000, 1026, 7, 53, 4610),
    Live(1119, 3),
    // A lease isn't live at its expiry.
    Live(1120, 2),
    Live(1130, 1),
    // Renewed: the same place, another expiry.
    Put(5, 5000, 1024, 7, 53, 1140),
    Put(5, 5000, 1030, 7, 53, 1140),
    External(1024, 7, 53, None),
    External(1030, 7, 53, Some(1140)),
    Remove(6, 5000, 7, 53, Some(1120)),
    Live(1139, 2),
];

static ENDED: [Call; 26] = [
    HasEnded(1120, false),
    Put(5, 5000, 1024, 7, 53, 1120),
    Put(5, 5000, 1024, 8, 53, 1300),
    Put(5, 6000, 1025, 7, 53, 4610),
    HasEnded(1119, false),
    EndedOf(5, 5000, 1119, None),
    Live(1119, 3),
    // A lease that has ended stays.
    HasEnded(1120, true),
    EndedOf(5, 5000, 1120, Some(1120)),
    EndedOf(5, 6000, 1120, None),
    EndedOf(6, 5000, 1120, None),
    Live(1120, 2),
    Find(5, 5000, 7, 53, Some(1120)),
    // A port is passed over once all its leases have ended.
    Next(5, 4000, 65536, 1120, Some(5000)),
    Next(5, 4000, 65536, 1300, Some(6000)),
    Next(5, 4000, 6001, 1300, Some(6000)),
    Next(5, 4000, 6000, 1300, None),
    Next(5, 4000, 65536, 4610, None),
    // Put anew, one is live.
    Put(5, 5000, 1024, 7, 53, 1400),
    Next(5, 4000, 65536, 1300, Some(5000)),
    EndedOf(5, 5000, 1300, Some(1300)),
    Live(1300, 2),
    Remove(5, 5000, 8, 53, Some(1300)),
    EndedOf(5, 5000, 1300, None),
    HasEnded(1300, false),
    HasEnded(1400, true),
];

// An endpoint has no more leases than sixteen.
static SIXTEEN: [Call; 18] = [
    Put(5, 5000, 1024, 0, 53, 4610),
    Put(5, 5000, 1024, 1, 53, 4610),
    Put(5, 5000, 1024, 2, 53, 4610),
    Put(5, 5000, 1024, 3, 53, 4610),
    Put(5, 5000, 1024, 4, 53, 4610),
    Put(5, 5000, 1024, 5, 53, 4610),
    Put(5, 5000, 1024, 6, 53, 4610),
    Put(5, 5000, 1024, 7, 53, 4610),
    Put(5, 5000, 1024, 8, 53, 4610),
    Put(5, 5000, 1024, 9, 53, 4610),
    Put(5, 5000, 1024, 10, 53, 4610),
    Put(5, 5000, 1024, 11, 53, 4610),
    Put(5, 5000, 1024, 12, 53, 4610),
    Put(5, 5000, 1024, 13, 53, 4610),
    Put(5, 5000, 1024, 14, 53, 4610),
    Put(5, 5000, 1024, 15, 53, 4610),
    OfEndpoint(5, 5000, 4609, Some((1024, 16))),
    Unsound(5, 5000, 1024, 16, 53, 4610),
];

static COPIED: [Call; 4] = [
    Put(5, 5000, 1024, 0, 53, 4610),
    Put(5, 5000, 1024, 1, 53, 4610),
    Copied(4609, 4610, 2),
    Last(1024, Some(4610)),
];

static OWNED: [Call; 21] = [
    Owned(Udp, 0, None),
    Put(5, 5000, 1024, 7, 53, 1130),
    Put(6, 5000, 1030, 7, 53, 1120),
    Put(6, 5000, 1030, 8, 53, 4610),
    Put(7, 5000, 65535, 7, 53, 4610),
    Owned(Udp, 0, Some(1024)),
    Owned(Udp, 1024, Some(1024)),
    Owned(Udp, 1025, Some(1030)),
    Owned(Udp, 1030, Some(1030)),
    Owned(Udp, 1031, Some(65535)),
    Owned(Udp, 65535, Some(65535)),
    // None is owned over TCP.
    Owned(Tcp, 0, None),
    Owned(Tcp, 1024, None),
    // Of two leases of a port one goes.
    Remove(6, 5000, 7, 53, Some(1120)),
    Owned(Udp, 1025, Some(1030)),
    // A lease that has ended owns its port until it goes.
    Owned(Udp, 1023, Some(1024)),
    Remove(5, 5000, 7, 53, Some(1130)),
    Owned(Udp, 1023, Some(1030)),
    Remove(7, 5000, 7, 53, Some(4610)),
    Owned(Udp, 1030, Some(1030)),
    Owned(Udp, 1031, None),
];

/// A lease of the host over UDP that was granted at 0.
fn lease(host: u8, port: u16, external: u16, remote: (u8, u16), expiry: u32) -> PeerLease {
    peer_of(
        &at(Udp, host, port),
        external,
        remote,
        moment(0),
        u64::from(expiry),
    )
}

/// The expiry.
fn told(lease: Option<&PeerLease>) -> Option<u64> {
    Some(lease?.expiry)
}

fn use_told(found: Option<PortUse>) -> Option<(u16, u32)> {
    let found = found?;
    Some((found.external, found.count))
}

/// Puts a lease into both bodies, where the leases after it are sound.
pub(crate) fn put_both<L: Ledger>(
    alloc: Global,
    table: &mut PeerTable,
    plain: &mut PlainPeerTable,
    lease: &PeerLease,
    steps: &mut Steps<L>,
) -> Result<bool, Memory>
    requires { table.old.found ≡ plain.old }
    ensures { OnOk result (table.new.found ≡ plain.new) }
{
    if !are_sound_with(alloc, plain.leases(), lease)? {
        return Ok(false);
    }
    table.put(alloc, *lease, steps)?;
    plain.put(alloc, *lease, steps)?;
    Ok(true)
}

/// Takes a lease out of both bodies. Whether each tells the one that is wanted.
fn is_removed<L: Ledger>(
    table: &mut PeerTable,
    plain: &mut PlainPeerTable,
    endpoint: &Endpoint,
    remote: (&Address, u16),
    wanted: Option<u64>,
    steps: &mut Steps<L>,
) -> bool
    requires { table.old.found ≡ plain.old }
    ensures { table.new.found ≡ plain.new }
{
    let removed = table.remove(endpoint, remote.0, remote.1, steps);
    let plainly = plain.remove(endpoint, remote.0, remote.1, steps);
    (told(removed.as_ref()), told(plainly.as_ref())) == (wanted, wanted)
}

/// How many leases both bodies copy.
fn copied(
    alloc: Global,
    table: &PeerTable,
    plain: &PlainPeerTable,
    moments: (u32, u32),
) -> Result<usize, Memory> {
    let mut live = Vec::new(alloc);
    table.copy_live(alloc, moment(moments.0), &mut live)?;
    plain.copy_live(alloc, moment(moments.1), &mut live)?;
    Ok(live.len())
}

/// Whether both bodies answer so a call that changes nothing and copies nothing.
fn is_told<L: Ledger>(
    table: &PeerTable,
    plain: &PlainPeerTable,
    call: &Call,
    steps: &mut Steps<L>,
) -> bool {
    match *call {
        Find(host, port, number, remote_port, wanted) => {
            let (endpoint, remote) = (at(Udp, host, port), remote(number));
            let found = told(table.find(&endpoint, &remote, remote_port, steps));
            let plainly = told(plain.find(&endpoint, &remote, remote_port, steps));
            (found, plainly) == (wanted, wanted)
        }
        External(port, number, remote_port, wanted) => {
            let remote = remote(number);
            let found = told(table.by_external(Udp, port, &remote, remote_port, steps));
            let plainly = told(plain.by_external(Udp, port, &remote, remote_port, steps));
            (found, plainly) == (wanted, wanted)
        }
        Next(host, port, end, m, wanted) => {
            let endpoint = at(Udp, host, port);
            let next = table.next_internal(&endpoint, end, moment(m), steps);
            (next, plain.next_internal(&endpoint, end, moment(m), steps)) == (wanted, wanted)
        }
        EndedOf(host, port, m, wanted) => {
            let endpoint = at(Udp, host, port);
            let found = told(table.ended_of(&endpoint, moment(m), steps));
            let plainly = told(plain.ended_of(&endpoint, moment(m), steps));
            (found, plainly) == (wanted, wanted)
        }
        HasEnded(m, wanted) => {
            let ended = table.has_ended(moment(m), steps);
            (ended, plain.has_ended(moment(m), steps)) == (wanted, wanted)
        }
        OfEndpoint(host, port, m, wanted) => {
            let endpoint = at(Udp, host, port);
            let found = use_told(table.of_endpoint(&endpoint, moment(m), steps));
            let plainly = use_told(plain.of_endpoint(&endpoint, moment(m), steps));
            (found, plainly) == (wanted, wanted)
        }
        Live(m, wanted) => { (table.live(moment(m)), plain.live(moment(m))) == (wanted, wanted) }
        Last(port, wanted) => table.last_expiry(Udp, port, steps) == wanted,
        Owned(protocol, port, wanted) => table.next_owned(protocol, port, steps) == wanted,
        _ => false,
    }
}

/// Makes a call of both bodies. Whether both give the answer that is wanted.
fn is_answered<L: Ledger>(
    alloc: Global,
    table: &mut PeerTable,
    plain: &mut PlainPeerTable,
    call: &Call,
    steps: &mut Steps<L>,
) -> Result<bool, Memory>
    requires { table.old.found ≡ plain.old }
    ensures { OnOk result (table.new.found ≡ plain.new) }
{
    Ok(match *call {
        Put(host, port, external, number, remote_port, expiry) => {
            let new = lease(host, port, external, (number, remote_port), expiry);
            put_both(alloc, table, plain, &new, steps)?
        }
        Unsound(host, port, external, number, remote_port, expiry) => {
            let new = lease(host, port, external, (number, remote_port), expiry);
            !put_both(alloc, table, plain, &new, steps)?
        }
        Remove(host, port, number, remote_port, wanted) => {
            let remote = remote(number);
            is_removed(
                table,
                plain,
                &at(Udp, host, port),
                (&remote, remote_port),
                wanted,
                steps,
            )
        }
        Copied(first, second, count) => copied(alloc, table, plain, (first, second))? == count,
        _ => is_told(table, plain, call, steps),
    })
}

/// Whether the table forgets its leases.
fn forgets<L: Ledger>(table: &mut PeerTable, steps: &mut Steps<L>) -> bool {
    table.clear();
    table.last_expiry(Udp, 1024, steps) == None && table.live(moment(0)) == 0
}

/// Makes calls, one after the other, of bodies that hold the same, and clears the one then. The
/// first that is answered otherwise.
fn first_other<L: Ledger>(
    alloc: Global,
    table: &mut PeerTable,
    plain: &mut PlainPeerTable,
    calls: &[Call],
    steps: &mut Steps<L>,
) -> Result<Option<usize>, Memory>
    requires { table.old.found ≡ plain.old }
{
    for (number, call) in calls.iter().enumerate() {
        if !is_answered(alloc, table, plain, call, steps)? {
            return Ok(Some(number));
        }
    }
    if !forgets(table, steps) {
        return Ok(Some(calls.len()));
    }
    Ok(None)
}

/// The same of bodies without a lease.
fn first_other_from<L: Ledger>(
    alloc: Global,
    blank: Blank,
    calls: &[Call],
) -> Result<Option<usize>, Memory>
    requires name { blank.name ≡ L.name }
    requires parts { blank.parts ≡ L.parts }
    requires some { 0 < L.parts }
{
    let mut steps = Steps::<L>::begin(blank);
    let mut plain = PlainPeerTable::new(alloc)?;
    let mut table = PeerTable::new(alloc)?;
    first_other(alloc, &mut table, &mut plain, calls, &mut steps)
}

/// The same of a caller that counts no steps.
fn first_other_of_new(alloc: Global, calls: &[Call]) -> Result<Option<usize>, Memory> {
    first_other_from::<Brand>(alloc, Blank::new(1), calls)
}

#[test]
fn a_lease_opens_its_port_to_its_remote(rt: HostRuntime) {
    all_are_so(&rt, first_other_of_new(rt.alloc(), &OPENED));
}

#[test]
fn a_renewed_lease_keeps_its_place(rt: HostRuntime) {
    all_are_so(&rt, first_other_of_new(rt.alloc(), &RENEWED));
}

#[test]
fn an_endpoint_has_sixteen_leases(rt: HostRuntime) {
    all_are_so(&rt, first_other_of_new(rt.alloc(), &SIXTEEN));
}

#[test]
fn ended_leases_stay_until_they_are_taken_out(rt: HostRuntime) {
    all_are_so(&rt, first_other_of_new(rt.alloc(), &ENDED));
}

#[test]
fn owned_ports_are_told_in_order(rt: HostRuntime) {
    all_are_so(&rt, first_other_of_new(rt.alloc(), &OWNED));
}

#[test]
fn live_leases_are_copied(rt: HostRuntime) {
    all_are_so(&rt, first_other_of_new(rt.alloc(), &COPIED));
}
