//! A run of a journal, and the states that it passes through.

use lease_journal::Found;
use pcp_base::{Address, Change, Endpoint, Filters, MapLease, Moment, Nonce, Protocol, Record};
use plain_replay::PlainReplay;
use std::test::Fail;

/// What is done to an opened journal.
#[derive(Clone, Copy)]
pub(crate) enum Deed {
    /// The external address 192.0.2.1 is told.
    Told,
    /// This port of 10.0.0.5 is leased, at an external port, from when on and until when.
    Leased(u16, u16, u64, u64),
    /// The lease of this port is deleted.
    Deleted(u16),
    Lost,
    Compacted,
}

/// What stands after an opening: how it began, and of the state the base, the last moment, and how
/// many leases and ends there are.
#[derive(Clone, Copy, PartialEq, Eq)]
pub(crate) struct Seen(
    pub(crate) Found,
    pub(crate) u64,
    pub(crate) u64,
    pub(crate) usize,
    pub(crate) usize,
);

/// What stands in the replay after an opening that found this.
pub(crate) fn standing(found: Found, replay: &PlainReplay) -> Seen {
    Seen(
        found,
        replay.base().get(),
        replay.last().get(),
        replay.maps().len(),
        replay.ends().len(),
    )
}

pub(crate) fn moment(seconds: u64) -> Result<Moment, Fail> {
    Ok(Moment::of(seconds).ok_or("no moment")?)
}

fn lease_of(internal: u16, external: u16, granted: u64, expiry: u64) -> Result<MapLease, Fail> {
    Ok(MapLease {
        address: Address::v4(10, 0, 0, 5),
        protocol: Protocol::Udp,
        internal,
        count: 1,
        external,
        nonce: Nonce([0, 1, 2, 3, 4, 5, 6, 7, 8, 9, 10, 11]),
        granted: moment(granted)?,
        expiry,
        filters: Filters::none(),
    })
}

/// The record of a deed at `m`; a compaction has none.
pub(crate) fn record_of(m: u64, deed: &Deed) -> Result<Option<Record>, Fail> {
    let moment = moment(m)?;
    let change = match deed {
        Deed::Told => Change::Renumber(Address::v4(192, 0, 2, 1)),
        Deed::Leased(internal, external, granted, expiry) => {
            Change::Map(lease_of(*internal, *external, *granted, *expiry)?)
        }
        Deed::Deleted(internal) => Change::DropMap(Endpoint {
            address: Address::v4(10, 0, 0, 5),
            protocol: Protocol::Udp,
            port: *internal,
        }),
        Deed::Lost => Change::Lose,
        Deed::Compacted => return Ok(None),
    };
    Ok(Some(Record { moment, change }))
}

/// What is done after a journal was opened at 1000, each with its moment.
pub(crate) static RUN: [(u64, Deed); 11] = [
    (1001, Deed::Told),
    (1010, Deed::Leased(5000, 1024, 1010, 4610)),
    (1020, Deed::Leased(5001, 1025, 1020, 4620)),
    (1030, Deed::Leased(5000, 1024, 1010, 4630)),
    (1040, Deed::Deleted(5001)),
    (1040, Deed::Compacted),
    (1050, Deed::Leased(5002, 1026, 1050, 4650)),
    (1060, Deed::Lost),
    (1060, Deed::Compacted),
    (1070, Deed::Leased(5000, 1024, 1070, 4670)),
    (1080, Deed::Leased(5001, 1025, 1080, 4680)),
];

/// What an opening at 3000 finds before the run, after its opening, and after each deed.
pub(crate) static STATES: [Seen; 13] = [
    Seen(Found::Blank, 3000, 3000, 0, 0),
    Seen(Found::Recovered, 1000, 1000, 0, 0),
    Seen(Found::Recovered, 1000, 1001, 0, 0),
    Seen(Found::Recovered, 1000, 1010, 1, 0),
    Seen(Found::Recovered, 1000, 1020, 2, 0),
    Seen(Found::Recovered, 1000, 1030, 2, 0),
    Seen(Found::Recovered, 1000, 1040, 1, 1),
    Seen(Found::Recovered, 1000, 1040, 1, 1),
    Seen(Found::Recovered, 1000, 1050, 2, 1),
    Seen(Found::Recovered, 1060, 1060, 0, 0),
    Seen(Found::Recovered, 1060, 1060, 0, 0),
    Seen(Found::Recovered, 1060, 1070, 1, 0),
    Seen(Found::Recovered, 1060, 1080, 2, 0),
];

/// Whether this is one of so many states from this number on.
pub(crate) fn is_among(states: &[Seen], number: usize, count: usize, left: &Seen) -> bool {
    states
        .iter()
        .skip(number)
        .take(count)
        .any(|state| state == left)
}

/// What an opening at 3000 finds before an opening of a damaged journal at 2000, within it, and after it.
pub(crate) static ANEW: [Seen; 3] = [
    Seen(Found::Damaged, 3000, 3000, 0, 0),
    Seen(Found::Blank, 3000, 3000, 0, 0),
    Seen(Found::Recovered, 2000, 2000, 0, 0),
];

/// What an opening finds before a lease at 1010, and after it.
pub(crate) static LEASES: [Seen; 2] = [
    Seen(Found::Recovered, 1000, 1000, 0, 0),
    Seen(Found::Recovered, 1000, 1010, 1, 0),
];
