//! Requests one after the other, with their answers and what remote peers find between them.
ghost use Rattle.std.specs.Prelude.{◌≡◌, ◌≤◌, IfOk, OnOk};
ghost use Rattle.lease_store.specs.LeaseTerms.{AreTerms};
ghost use Rattle.core_rows.specs.Serving.{MayServe};

use crate::making::{Profile, WIDE, indexed, plain};
use crate::requests::{Request, Told, Wish, ask_of, host, remote, told_of};
use crate::serving::{begun, moment, serve};
use Told::{Gone, Leased, LeasedSet, Refused};
use Wish::{AllOrNothing, Filters, Nothing, Peer, Set};
use lease_core::LeaseCore;
use lease_store::LeaseStore;
use pcp_base::{Endpoint, Moment, Protocol};
use std::alloc::Global;
use std::test::Fail;

/// What is done, and what comes of it.
#[derive(Clone, Copy)]
pub(crate) enum Step {
    /// A request over UDP: when, the number H of the host 10.0.0.H, its port, each octet of the nonce,
    /// the lifetime, the suggested port, what else it wishes, and the answer.
    Ask(u32, u8, u16, u8, u32, u16, Wish, Told),
    /// A packet to an external UDP port: when, the port, the remote IPv4 address and port, and the
    /// host and the port of the owner.
    Look(u32, u16, [u8; 4], u16, Option<(u8, u16)>),
}

use Step::{Ask, Look};

impl Step {
    fn at(&self) -> u32 {
        match *self {
            Ask(at, ..) => at,
            Look(at, ..) => at,
        }
    }
}

/// The ports and the quota, and the steps.
#[derive(Clone, Copy)]
struct Row(Profile, &'static [Step]);

// Another nonce is told how long the lease still lasts.
static RENEWED: [Step; 4] = [
    Ask(1010, 5, 5000, 1, 3600, 0, Nothing, Leased(3600, 1024)),
    Ask(1015, 5, 5000, 1, 3600, 0, Nothing, Leased(3600, 1024)),
    Ask(1020, 5, 5000, 2, 3600, 0, Nothing, Refused(2, 3595)),
    Ask(1020, 5, 5000, 1, 3600, 0, Nothing, Leased(3600, 1024)),
];

static LIFETIMES: [Step; 2] = [
    Ask(1010, 5, 5001, 1, 1, 0, Nothing, Leased(120, 1024)),
    Ask(
        1010,
        5,
        5002,
        1,
        4294967295,
        0,
        Nothing,
        Leased(86400, 1025),
    ),
];

// It deletes no lease either.
static OTHER_NONCE: [Step; 4] = [
    Ask(1010, 5, 5000, 1, 3600, 0, Nothing, Leased(3600, 1024)),
    Ask(1020, 5, 5000, 255, 3600, 0, Nothing, Refused(2, 3590)),
    Ask(1020, 5, 5000, 255, 0, 0, Nothing, Refused(2, 3590)),
    Ask(1020, 5, 5000, 1, 0, 0, Nothing, Gone),
];

static DELETED: [Step; 1] = [Ask(1010, 5, 5000, 1, 0, 0, Nothing, Gone)];

static LOOKED_UP: [Step; 3] = [
    Ask(1010, 5, 5000, 1, 120, 0, Nothing, Leased(120, 1024)),
    Look(1129, 1024, [198, 51, 100, 7], 9, Some((5, 5000))),
    Look(1130, 1024, [198, 51, 100, 7], 9, None),
];

static SUGGESTED: [Step; 3] = [
    Ask(1010, 5, 5000, 1, 3600, 0, Nothing, Leased(3600, 1024)),
    Ask(1011, 6, 5000, 1, 3600, 1024, Nothing, Leased(3600, 1025)),
    Ask(1011, 7, 5000, 1, 3600, 1024, AllOrNothing, Refused(11, 30)),
];

// As usual hosts ask: the suggestion is told again at the renewal and at the deletion.
static SUGGESTED_AGAIN: [Step; 3] = [
    Ask(1010, 5, 5000, 1, 7200, 8080, Nothing, Leased(7200, 8080)),
    Ask(4700, 5, 5000, 1, 7200, 8080, Nothing, Leased(7200, 8080)),
    Ask(6000, 5, 5000, 1, 0, 8080, Nothing, Gone),
];

// Prefix 0 empties the list before the next filter.
static FILTERED: [Step; 5] = [
    Ask(
        1010,
        5,
        5000,
        1,
        3600,
        0,
        Filters(&[(128, [198, 51, 100, 7], 0)]),
        Leased(3600, 1024),
    ),
    Look(1010, 1024, [198, 51, 100, 7], 9, Some((5, 5000))),
    Ask(
        1010,
        5,
        5000,
        1,
        3600,
        0,
        Filters(&[(0, [0, 0, 0, 0], 0), (120, [203, 0, 113, 0], 53)]),
        Leased(3600, 1024),
    ),
    Look(1010, 1024, [198, 51, 100, 7], 9, None),
    Look(1010, 1024, [203, 0, 113, 9], 53, Some((5, 5000))),
];

static MOST_FILTERS: [Step; 5] = [
    Ask(
        1010,
        5,
        5000,
        1,
        3600,
        0,
        Filters(&[
            (128, [198, 51, 100, 1], 1),
            (128, [198, 51, 100, 2], 1),
            (128, [198, 51, 100, 3], 1),
            (128, [198, 51, 100, 4], 1),
            (128, [198, 51, 100, 5], 1),
            (128, [198, 51, 100, 6], 1),
            (128, [198, 51, 100, 7], 1),
            (128, [198, 51, 100, 8], 1),
        ]),
        Leased(3600, 1024),
    ),
    Ask(
        1011,
        5,
        5000,
        1,
        3600,
        0,
        Filters(&[(128, [198, 51, 100, 9], 1)]),
        Refused(13, 1800),
    ),
    // the lease still ends at 4610
    Ask(1011, 5, 5000, 2, 3600, 0, Nothing, Refused(2, 3599)),
    Look(1011, 1024, [198, 51, 100, 9], 1, None),
    Ask(
        1012,
        5,
        5000,
        1,
        3600,
        0,
        Filters(&[(128, [198, 51, 100, 8], 1)]),
        Leased(3600, 1024),
    ),
];

static SETS: [Step; 3] = [
    Ask(
        1010,
        5,
        6000,
        1,
        3600,
        0,
        Set(8),
        LeasedSet(3600, 1024, 5, 6000),
    ),
    Ask(
        1010,
        5,
        6002,
        1,
        3600,
        0,
        Set(1),
        LeasedSet(3600, 1024, 5, 6000),
    ),
    // without PORT_SET the port of the endpoint itself is told
    Ask(1010, 5, 6002, 1, 3600, 0, Nothing, Leased(3600, 1026)),
];

static SET_OF_ONE: [Step; 1] = [Ask(1010, 5, 6000, 1, 3600, 0, Set(1), Leased(3600, 1024))];

static AT_QUOTA: [Step; 2] = [
    Ask(
        1010,
        5,
        5000,
        1,
        3600,
        0,
        Set(4),
        LeasedSet(3600, 1024, 4, 5000),
    ),
    Ask(1010, 5, 7000, 1, 3600, 0, Nothing, Refused(10, 30)),
];

// No port is left, but a renewal needs none.
static FULL: [Step; 3] = [
    Ask(1010, 5, 5000, 1, 3600, 0, Nothing, Leased(3600, 1024)),
    Ask(1010, 6, 5000, 1, 3600, 0, Nothing, Refused(8, 30)),
    Ask(1010, 5, 5000, 1, 3600, 0, Nothing, Leased(3600, 1024)),
];

// A MAP and a PEER lease of one endpoint share its port.
static SHARED: [Step; 6] = [
    Ask(
        1010,
        5,
        5000,
        1,
        3600,
        0,
        Peer([198, 51, 100, 7], 53),
        Leased(3600, 1024),
    ),
    Ask(1010, 5, 5000, 1, 3600, 0, Nothing, Leased(3600, 1024)),
    Look(1010, 1024, [198, 51, 100, 7], 54, Some((5, 5000))),
    Ask(1010, 5, 5000, 1, 0, 0, Nothing, Gone),
    Look(1010, 1024, [198, 51, 100, 7], 53, Some((5, 5000))),
    Look(1010, 1024, [198, 51, 100, 7], 54, None),
];

// A port rests for its last endpoint until 120 seconds after its lease.
static RESTING: [Step; 3] = [
    Ask(1010, 5, 5000, 1, 120, 0, Nothing, Leased(120, 1024)),
    Ask(1249, 6, 5000, 1, 3600, 1024, Nothing, Leased(3600, 1025)),
    Ask(1249, 5, 5000, 1, 3600, 1024, Nothing, Leased(3600, 1024)),
];

static RESTED: [Step; 2] = [
    Ask(1010, 5, 5000, 1, 120, 0, Nothing, Leased(120, 1024)),
    Ask(1250, 6, 5000, 1, 3600, 0, Nothing, Leased(3600, 1024)),
];

/// Whether the request is answered so at `m`.
pub(crate) fn is_answered<S: LeaseStore>(
    alloc: Global,
    core: &mut LeaseCore<S>,
    m: Moment,
    request: &Request,
    told: Told,
) -> Result<bool, Fail>
    requires may { MayServe (S.state core.old) (S.terms core.old) }
    requires later { S.reached core.old ≤ m }
    ensures may { OnOk result (MayServe (S.state core.new) (S.terms core.new)) }
    ensures reached { OnOk result (S.reached core.new ≤ m) }
{
    let ask = ask_of(alloc, request)?;
    let answer = serve(alloc, core, &ask, m)?;
    Ok(told_of(&answer) == told)
}

/// Whether this endpoint is found through the UDP port at `m`.
fn is_found<S: LeaseStore>(
    core: &LeaseCore<S>,
    m: Moment,
    port: u16,
    peer: ([u8; 4], u16),
    owner: Option<(u8, u16)>,
) -> bool
    requires { MayServe (S.state core.now) (S.terms core.now) }
{
    let wanted = owner.map(|(number, port)| Endpoint {
        address: host(number),
        protocol: Protocol::Udp,
        port,
    });
    core.look(Protocol::Udp, port, &remote(peer.0), peer.1, m) == wanted
}

/// Whether this comes of the step at `m`.
fn is_so<S: LeaseStore>(
    alloc: Global,
    core: &mut LeaseCore<S>,
    m: Moment,
    step: &Step,
) -> Result<bool, Fail>
    requires may { MayServe (S.state core.old) (S.terms core.old) }
    requires later { S.reached core.old ≤ m }
    ensures may { OnOk result (MayServe (S.state core.new) (S.terms core.new)) }
    ensures reached { OnOk result (S.reached core.new ≤ m) }
{
    match *step {
        Ask(_, host, port, nonce, lifetime, suggested, wish, told) => {
            let request = Request(host, port, nonce, lifetime, suggested, wish);
            is_answered(alloc, core, m, &request, told)
        }
        Look(_, port, address, remote_port, owner) => {
            Ok(is_found(core, m, port, (address, remote_port), owner))
        }
    }
}

/// The place of the first step of which something else comes, or which comes before the last one.
pub(crate) fn first_other<S: LeaseStore>(
    alloc: Global,
    core: &mut LeaseCore<S>,
    steps: &[Step],
) -> Result<Option<usize>, Fail>
    requires may { MayServe (S.state core.old) (S.terms core.old) }
    requires reached { S.reached core.old ≡ 1000 }
    ensures may { OnOk result (MayServe (S.state core.new) (S.terms core.new)) }
{
    let mut now = 1000;
    for (i, step) in steps.iter().enumerate() {
        let at = step.at();
        if at < now {
            return Ok(Some(i));
        }
        if !is_so(alloc, core, moment(at), step)? {
            return Ok(Some(i));
        }
        now = at;
    }
    Ok(None)
}

/// The same of a core that was made.
fn first_other_on<S: LeaseStore + Drop>(
    alloc: Global,
    made: Result<LeaseCore<S>, Fail>,
    steps: &[Step],
) -> Result<Option<usize>, Fail>
    requires { IfOk made (λ core. AreTerms (S.terms core)) }
{
    first_other(alloc, &mut begun(alloc, made)?, steps)
}

/// The same of the core that a server uses, and of a plain one beside it.
fn first_others(alloc: Global, row: &Row) -> Result<(Option<usize>, Option<usize>), Fail> {
    let on_indexed = first_other_on(alloc, indexed(alloc, row.0), row.1)?;
    let on_plain = first_other_on(alloc, plain(alloc, row.0), row.1)?;
    Ok((on_indexed, on_plain))
}

#[test]
fn answers_one_after_the_other(rt: HostRuntime) -> Result<(), Fail> {
    let alloc = rt.alloc();
    let rows: [Row; 16] = [
        Row(WIDE, &RENEWED),
        Row(WIDE, &LIFETIMES),
        Row(WIDE, &OTHER_NONCE),
        Row(WIDE, &DELETED),
        Row(WIDE, &LOOKED_UP),
        Row(WIDE, &SUGGESTED),
        Row(WIDE, &SUGGESTED_AGAIN),
        Row(WIDE, &FILTERED),
        Row(WIDE, &MOST_FILTERS),
        Row(Profile(1024, 1028, 64), &SETS),
        Row(Profile(1024, 1028, 64), &SET_OF_ONE),
        Row(Profile(1024, 65535, 4), &AT_QUOTA),
        Row(Profile(1024, 1024, 64), &FULL),
        Row(WIDE, &SHARED),
        Row(WIDE, &RESTING),
        Row(WIDE, &RESTED),
    ];
    for (i, row) in rows.iter().enumerate() {
        let others = first_others(alloc, row)?;
        assert!(rt; others == (None, None), "row {i}, step {others:?}");
    }
    Ok(())
}
