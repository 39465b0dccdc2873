//! Reading the octets of a record.
ghost use Rattle.std.specs.Prelude.{◌≡◌, ◌≤◌, ℕ, List, ◌++◌, length, take, IfOk, OnErr};
ghost use Rattle.std.specs.Int.{w16, w64};
ghost use Rattle.pcp_base.specs.declared.records.Record.{Record};
ghost use Rattle.lease_records.specs.RecordTexts.{IsRecordText, IsReadAgain};
ghost use Rattle.pcp_base.specs.Protocols.{protocol_of};
ghost use Rattle.lease_records.specs.RecordReading.{Gives, take_octets, octet_at, number_at, moment_at, address_at, nonce_at, term_at, endpoint_at, filter_at, filters_at, all_filters_at, map_at, peer_at, drop_map_at, drop_peer_at, rest_at, renumber_at, change_at, record_at};

use crate::terms::Term;
use pcp_base::{
    Address, Change, Endpoint, Filter, Filters, MOST_FILTERS, MapLease, Moment, Nonce, PeerLease,
    Protocol, Record,
};
use thiserror::Error;

/// No front of the octets is the text of a record.
#[derive(Clone, Copy, Debug, PartialEq, Eq, Error)]
#[error("not a record")]
pub struct NotRecord;

fn octets_of<const N: usize>(octets: &[u8]) -> Result<([u8; N], &[u8]), NotRecord>
    ensures { Gives (λ x. (x.0, x.1.now)) result (take_octets N octets.now) }
{
    match octets.split_first_chunk::<N>() {
        Some((front, rest)) => Ok((*front, rest)),
        None => Err(NotRecord),
    }
}

fn octet_of(octets: &[u8]) -> Result<(u8, &[u8]), NotRecord>
    ensures { Gives (λ x. (x.0, x.1.now)) result (octet_at octets.now) }
{
    match octets {
        [] => Err(NotRecord),
        [octet, rest @ ..] => Ok((*octet, rest)),
    }
}

#[tactic(auto, unfolding(crate::specs::RecordReading::number_at))]
fn u16_of(octets: &[u8]) -> Result<(u16, &[u8]), NotRecord>
    ensures { Gives (λ x. (x.0, x.1.now)) result (number_at w16 octets.now) }
{
    let (front, rest) = octets_of::<2>(octets)?;
    Ok((u16::from_be_bytes(front), rest))
}

#[tactic(auto, unfolding(crate::specs::RecordReading::number_at))]
fn u64_of(octets: &[u8]) -> Result<(u64, &[u8]), NotRecord>
    ensures { Gives (λ x. (x.0, x.1.now)) result (number_at w64 octets.now) }
{
    let (front, rest) = octets_of::<8>(octets)?;
    Ok((u64::from_be_bytes(front), rest))
}

#[tactic(auto, unfolding(crate::specs::RecordReading::moment_at))]
fn moment_of(octets: &[u8]) -> Result<(Moment, &[u8]), NotRecord>
    ensures { Gives (λ x. (x.0, x.1.now)) result (moment_at octets.now) }
{
    let (seconds, rest) = u64_of(octets)?;
    match Moment::of(seconds) {
        Some(moment) => Ok((moment, rest)),
        None => Err(NotRecord),
    }
}

#[tactic(auto, unfolding(crate::specs::RecordReading::address_at))]
fn address_of(octets: &[u8]) -> Result<(Address, &[u8]), NotRecord>
    ensures { Gives (λ x. (x.0, x.1.now)) result (address_at octets.now) }
{
    let (address, rest) = octets_of(octets)?;
    Ok((Address(address), rest))
}

#[tactic(auto, unfolding(crate::specs::RecordReading::nonce_at))]
fn nonce_of(octets: &[u8]) -> Result<(Nonce, &[u8]), NotRecord>
    ensures { Gives (λ x. (x.0, x.1.now)) result (nonce_at octets.now) }
{
    let (nonce, rest) = octets_of(octets)?;
    Ok((Nonce(nonce), rest))
}

fn protocol_named(number: u8) -> Result<Protocol, NotRecord>
    ensures { Gives (λ p. p) result (protocol_of number) }
{
    match Protocol::of(number) {
        Some(protocol) => Ok(protocol),
        None => Err(NotRecord),
    }
}

#[tactic(auto, unfolding(crate::specs::RecordReading::endpoint_at))]
fn endpoint_of(octets: &[u8]) -> Result<(Endpoint, &[u8]), NotRecord>
    ensures { Gives (λ x. (x.0, x.1.now)) result (endpoint_at octets.now) }
{
    let (address, rest) = address_of(octets)?;
    let (number, rest) = octet_of(rest)?;
    let protocol = protocol_named(number)?;
    let (port, rest) = u16_of(rest)?;
    let endpoint = Endpoint {
        address,
        protocol,
        port,
    };
    Ok((endpoint, rest))
}

#[tactic(auto, unfolding(crate::specs::RecordReading::filter_at))]
fn filter_of(octets: &[u8]) -> Result<(Filter, &[u8]), NotRecord>
    ensures { Gives (λ x. (x.0, x.1.now)) result (filter_at octets.now) }
{
    let (prefix, rest) = octet_of(octets)?;
    let (port, rest) = u16_of(rest)?;
    let (remote, rest) = address_of(rest)?;
    let filter = Filter {
        prefix,
        port,
        remote,
    };
    Ok((filter, rest))
}

/// A number of at most [`MOST_FILTERS`], and that many filters.
#[tactic(auto, unfolding(crate::specs::RecordReading::all_filters_at))]
fn all_filters_of(octets: &[u8]) -> Result<(Filters, &[u8]), NotRecord>
    ensures { Gives (λ x. (x.0, x.1.now)) result (all_filters_at octets.now) }
{
    let (count, rest) = octet_of(octets)?;
    if usize::from(count) > MOST_FILTERS {
        return Err(NotRecord);
    }
    filters_of(count, rest)
}

fn filters_of(count: u8, octets: &[u8]) -> Result<(Filters, &[u8]), NotRecord>
    requires { count ≤ MOST_FILTERS }
    ensures { Gives (λ x. (x.0, x.1.now)) result (filters_at count octets.now) }
{
    let mut filters = Filters::none();
    let mut rest = octets;
    for _ in 0..count {
        let (filter, after) = filter_of(rest)?;
        let pushed = filters.push(filter);
        prove!(pushed);
        rest = after;
    }
    Ok((filters, rest))
}

#[tactic(auto, unfolding(crate::specs::RecordReading::term_at))]
fn term_of(octets: &[u8]) -> Result<(Term, &[u8]), NotRecord>
    ensures { Gives (λ x. (x.0, x.1.now)) result (term_at octets.now) }
{
    let (nonce, rest) = nonce_of(octets)?;
    let Ok((granted, rest)) = moment_of(rest) else {
        return Err(NotRecord);
    };
    let (expiry, rest) = u64_of(rest)?;
    let term = Term {
        nonce,
        granted,
        expiry,
    };
    Ok((term, rest))
}

#[tactic(auto, unfolding(crate::specs::RecordReading::map_at))]
fn map_of(octets: &[u8]) -> Result<(MapLease, &[u8]), NotRecord>
    ensures { Gives (λ x. (x.0, x.1.now)) result (map_at octets.now) }
{
    let (endpoint, rest) = endpoint_of(octets)?;
    let (count, rest) = u16_of(rest)?;
    let (external, rest) = u16_of(rest)?;
    let Ok((term, rest)) = term_of(rest) else {
        return Err(NotRecord);
    };
    let Ok((filters, rest)) = all_filters_of(rest) else {
        return Err(NotRecord);
    };
    let lease = MapLease {
        address: endpoint.address,
        protocol: endpoint.protocol,
        internal: endpoint.port,
        count,
        external,
        nonce: term.nonce,
        granted: term.granted,
        expiry: term.expiry,
        filters,
    };
    Ok((lease, rest))
}

#[tactic(auto, unfolding(crate::specs::RecordReading::peer_at))]
fn peer_of(octets: &[u8]) -> Result<(PeerLease, &[u8]), NotRecord>
    ensures { Gives (λ x. (x.0, x.1.now)) result (peer_at octets.now) }
{
    let (endpoint, rest) = endpoint_of(octets)?;
    let (external, rest) = u16_of(rest)?;
    let (remote, rest) = address_of(rest)?;
    let (remote_port, rest) = u16_of(rest)?;
    let Ok((term, rest)) = term_of(rest) else {
        return Err(NotRecord);
    };
    let lease = PeerLease {
        endpoint,
        external,
        remote,
        remote_port,
        nonce: term.nonce,
        granted: term.granted,
        expiry: term.expiry,
    };
    Ok((lease, rest))
}

#[tactic(auto, unfolding(crate::specs::RecordReading::drop_map_at))]
fn drop_map_of(octets: &[u8]) -> Result<(Change, &[u8]), NotRecord>
    ensures { Gives (λ x. (x.0, x.1.now)) result (drop_map_at octets.now) }
{
    let (endpoint, rest) = endpoint_of(octets)?;
    Ok((Change::DropMap(endpoint), rest))
}

#[tactic(auto, unfolding(crate::specs::RecordReading::drop_peer_at))]
fn drop_peer_of(octets: &[u8]) -> Result<(Change, &[u8]), NotRecord>
    ensures { Gives (λ x. (x.0, x.1.now)) result (drop_peer_at octets.now) }
{
    let (endpoint, rest) = endpoint_of(octets)?;
    let (remote, rest) = address_of(rest)?;
    let (port, rest) = u16_of(rest)?;
    Ok((Change::DropPeer(endpoint, remote, port), rest))
}

#[tactic(auto, unfolding(crate::specs::RecordReading::rest_at))]
fn rest_of(octets: &[u8]) -> Result<(Change, &[u8]), NotRecord>
    ensures { Gives (λ x. (x.0, x.1.now)) result (rest_at octets.now) }
{
    let (number, rest) = octet_of(octets)?;
    let protocol = protocol_named(number)?;
    let (external, rest) = u16_of(rest)?;
    let (address, rest) = address_of(rest)?;
    let (port, rest) = u16_of(rest)?;
    let (end, rest) = u64_of(rest)?;
    let endpoint = Endpoint {
        address,
        protocol,
        port,
    };
    Ok((Change::Rest(endpoint, external, end), rest))
}

#[tactic(auto, unfolding(crate::specs::RecordReading::renumber_at))]
fn renumber_of(octets: &[u8]) -> Result<(Change, &[u8]), NotRecord>
    ensures { Gives (λ x. (x.0, x.1.now)) result (renumber_at octets.now) }
{
    let (address, rest) = address_of(octets)?;
    Ok((Change::Renumber(address), rest))
}

#[tactic(auto, unfolding(crate::specs::RecordReading::change_at))]
fn change_of(kind: u8, octets: &[u8]) -> Result<(Change, &[u8]), NotRecord>
    ensures { Gives (λ x. (x.0, x.1.now)) result (change_at kind octets.now) }
{
    match kind {
        1 => Ok((Change::Start, octets)),
        2 => {
            let Ok((lease, rest)) = map_of(octets) else {
                return Err(NotRecord);
            };
            Ok((Change::Map(lease), rest))
        }
        3 => {
            let Ok((lease, rest)) = peer_of(octets) else {
                return Err(NotRecord);
            };
            Ok((Change::Peer(lease), rest))
        }
        4 => drop_map_of(octets),
        5 => drop_peer_of(octets),
        6 => Ok((Change::Lose, octets)),
        7 => Ok((Change::Mark, octets)),
        8 => rest_of(octets),
        9 => renumber_of(octets),
        _ => Err(NotRecord),
    }
}

/// A record whose fields have their types, well formed or not.
#[tactic(auto, unfolding(crate::specs::RecordReading::record_at))]
fn record_of(octets: &[u8]) -> Result<(Record, &[u8]), NotRecord>
    ensures { Gives (λ x. (x.0, x.1.now)) result (record_at octets.now) }
{
    let (kind, rest) = octet_of(octets)?;
    let Ok((moment, rest)) = moment_of(rest) else {
        return Err(NotRecord);
    };
    let Ok((change, rest)) = change_of(kind, rest) else {
        return Err(NotRecord);
    };
    Ok((Record { moment, change }, rest))
}

/// The record that the octets begin with, and how many octets its text has; others may follow it.
/// `NotRecord` where no front of the octets is the text of a well formed record.
pub fn read_record(octets: &[u8]) -> Result<(Record, usize), NotRecord>
    ensures within { IfOk result (λ found. found.1 ≤ length octets.now) }
    ensures found { IfOk result (λ found. IsRecordText (take found.1 octets.now) found.0) }
    ensures none { OnErr result ((r : Record) (n : ℕ) → ¬ (IsRecordText (take n octets.now) r)) }
    // What was written is read again, whatever follows it.
    ensures again { IsReadAgain octets.now result }
{
    let Ok((record, rest)) = record_of(octets) else {
        return Err(NotRecord);
    };
    if !record.is_well_formed() {
        return Err(NotRecord);
    }
    Ok((record, octets.len() - rest.len()))
}
