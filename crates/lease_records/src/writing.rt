//! Writing the octets of a record.
ghost use Rattle.std.specs.Prelude.{◌≡◌, ◌≤◌, ◌∷◌, ◌++◌, length, take, OnOk, OnErr};
ghost use Rattle.std.specs.List.{flat_map, AllByRecursion};
ghost use Rattle.pcp_base.specs.declared.leases.TheConstants.{MOST_FILTERS};
ghost use Rattle.pcp_base.specs.Records.{IsWellFormedRecord};
ghost use Rattle.lease_records.specs.RecordTexts.{endpoint_text, filter_text, filters_text, term_text, map_text, peer_text, rest_text, fields_text, kind_of, record_text, IsRecordText};
ghost use Rattle.lease_records.specs.Values.{IsEndpoint, IsFilter, IsTerm, IsMap, IsPeer, IsChangeValue, IsValue};

use crate::terms::Term;
use pcp_base::{Change, Endpoint, Filter, MOST_FILTERS, MapLease, Memory, PeerLease, Record};
use std::alloc::{AllocError, Global};

/// How many octets the text of a record has at most: that of a MAP lease with all its filters.
const LONGEST_TEXT: usize = 61 + 19 * MOST_FILTERS;

/// Appends the text of a well formed record. After `Memory` nothing was appended.
pub fn write_record(_alloc: Global, out: &mut Vec<u8>, kept: &Record) -> Result<(), Memory>
    requires { IsWellFormedRecord kept.now }
    ensures ok { OnOk result (out.new.items ≡ out.old.items ++ record_text kept.now) }
    ensures err { OnErr result (out.new.items ≡ out.old.items) }
    // So it is read again, whatever follows it.
    ensures text { OnOk result (IsRecordText (record_text kept.now) kept.now) }
{
    // Room for any record at once: the pieces of a text are short and many.
    out.reserve(LONGEST_TEXT)?;
    let start = out.len();
    let Err(refused) = put_record(out, kept) else {
        return Ok(());
    };
    out.truncate(start);
    Err(refused.into())
}

// As all that put: where memory is wanting, a part of the text may stand behind what was there.
fn put_record(out: &mut Vec<u8>, kept: &Record) -> Result<(), AllocError>
    ensures ok { OnOk result (out.new.items ≡ out.old.items ++ record_text kept.now) }
    ensures value { OnOk result (IsValue kept.now) }
    ensures old { take (length out.old.items) out.new.items ≡ out.old.items }
{
    out.push(kind_number(&kept.change))?;
    out.extend_from_slice(&kept.moment.get().to_be_bytes())?;
    put_fields(out, &kept.change)
}

/// The number that stands for the kind of a change.
fn kind_number(change: &Change) -> u8
    ensures { result ≡ kind_of change.now }
{
    match change {
        Change::Start => 1,
        Change::Map(_) => 2,
        Change::Peer(_) => 3,
        Change::DropMap(_) => 4,
        Change::DropPeer(..) => 5,
        Change::Lose => 6,
        Change::Mark => 7,
        Change::Rest(..) => 8,
        Change::Renumber(_) => 9,
    }
}

fn put_fields(out: &mut Vec<u8>, change: &Change) -> Result<(), AllocError>
    ensures ok { OnOk result (out.new.items ≡ out.old.items ++ fields_text change.now) }
    ensures value { OnOk result (IsChangeValue change.now) }
    ensures old { take (length out.old.items) out.new.items ≡ out.old.items }
{
    match change {
        Change::Start | Change::Lose | Change::Mark => Ok(()),
        Change::Map(lease) => put_map(out, lease),
        Change::Peer(lease) => put_peer(out, lease),
        Change::DropMap(endpoint) => put_endpoint(out, endpoint),
        Change::DropPeer(endpoint, remote, port) => {
            put_endpoint(out, endpoint)?;
            out.extend_from_slice(&remote.0)?;
            out.extend_from_slice(&port.to_be_bytes())
        }
        Change::Rest(endpoint, external, end) => put_rest(out, endpoint, *external, *end),
        Change::Renumber(address) => out.extend_from_slice(&address.0),
    }
}

fn put_endpoint(out: &mut Vec<u8>, endpoint: &Endpoint) -> Result<(), AllocError>
    ensures ok { OnOk result (out.new.items ≡ out.old.items ++ endpoint_text endpoint.now) }
    ensures value { OnOk result (IsEndpoint endpoint.now) }
    ensures old { take (length out.old.items) out.new.items ≡ out.old.items }
{
    out.extend_from_slice(&endpoint.address.0)?;
    out.push(endpoint.protocol.number())?;
    out.extend_from_slice(&endpoint.port.to_be_bytes())
}

fn put_rest(
    out: &mut Vec<u8>,
    endpoint: &Endpoint,
    external: u16,
    end: u64,
) -> Result<(), AllocError>
    ensures ok { OnOk result (out.new.items
        ≡ out.old.items ++ rest_text endpoint.now external end) }
    ensures value { OnOk result (IsEndpoint endpoint.now) }
    ensures old { take (length out.old.items) out.new.items ≡ out.old.items }
{
    out.push(endpoint.protocol.number())?;
    out.extend_from_slice(&external.to_be_bytes())?;
    out.extend_from_slice(&endpoint.address.0)?;
    out.extend_from_slice(&endpoint.port.to_be_bytes())?;
    out.extend_from_slice(&end.to_be_bytes())
}

fn put_term(out: &mut Vec<u8>, term: &Term) -> Result<(), AllocError>
    ensures ok { OnOk result (out.new.items ≡ out.old.items ++ term_text term.now) }
    ensures value { OnOk result (IsTerm term.now) }
    ensures old { take (length out.old.items) out.new.items ≡ out.old.items }
{
    out.extend_from_slice(&term.nonce.0)?;
    out.extend_from_slice(&term.granted.get().to_be_bytes())?;
    out.extend_from_slice(&term.expiry.to_be_bytes())
}

fn put_map(out: &mut Vec<u8>, lease: &MapLease) -> Result<(), AllocError>
    ensures ok { OnOk result (out.new.items ≡ out.old.items ++ map_text lease.now) }
    ensures value { OnOk result (IsMap lease.now) }
    ensures old { take (length out.old.items) out.new.items ≡ out.old.items }
{
    let endpoint = Endpoint {
        address: lease.address,
        protocol: lease.protocol,
        port: lease.internal,
    };
    put_endpoint(out, &endpoint)?;
    out.extend_from_slice(&lease.count.to_be_bytes())?;
    out.extend_from_slice(&lease.external.to_be_bytes())?;
    let term = Term {
        nonce: lease.nonce,
        granted: lease.granted,
        expiry: lease.expiry,
    };
    put_term(out, &term)?;
    put_filters(out, lease.filters.items())
}

fn put_peer(out: &mut Vec<u8>, lease: &PeerLease) -> Result<(), AllocError>
    ensures ok { OnOk result (out.new.items ≡ out.old.items ++ peer_text lease.now) }
    ensures value { OnOk result (IsPeer lease.now) }
    ensures old { take (length out.old.items) out.new.items ≡ out.old.items }
{
    put_endpoint(out, &lease.endpoint)?;
    out.extend_from_slice(&lease.external.to_be_bytes())?;
    out.extend_from_slice(&lease.remote.0)?;
    out.extend_from_slice(&lease.remote_port.to_be_bytes())?;
    let term = Term {
        nonce: lease.nonce,
        granted: lease.granted,
        expiry: lease.expiry,
    };
    put_term(out, &term)
}

fn put_filters(out: &mut Vec<u8>, filters: &[Filter]) -> Result<(), AllocError>
    requires { length filters.now ≤ MOST_FILTERS }
    ensures ok { OnOk result (out.new.items ≡ out.old.items ++ filters_text filters.now) }
    ensures value { OnOk result (AllByRecursion IsFilter filters.now) }
    ensures old { take (length out.old.items) out.new.items ≡ out.old.items }
{
    out.push(filters.len() as u8)?;
    for filter in filters {
        put_filter(out, filter)?;
    }
    Ok(())
}

fn put_filter(out: &mut Vec<u8>, filter: &Filter) -> Result<(), AllocError>
    ensures ok { OnOk result (out.new.items ≡ out.old.items ++ filter_text filter.now) }
    ensures value { OnOk result (IsFilter filter.now) }
    ensures old { take (length out.old.items) out.new.items ≡ out.old.items }
{
    out.push(filter.prefix)?;
    out.extend_from_slice(&filter.port.to_be_bytes())?;
    out.extend_from_slice(&filter.remote.0)
}
