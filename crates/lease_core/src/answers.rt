//! What decisions on MAP and PEER requests have in common.
ghost use Rattle.std.specs.Prelude.{◌≡◌, ◌≤◌, ◌+◌, ◌<◌, ◌^◌, true, is_none, if◌then◌else◌};
ghost use Rattle.pcp_base.specs.Reached.{IsReached};
ghost use Rattle.lease_store.specs.LeaseTerms.{AreTerms};
ghost use Rattle.lease_core.specs.Answers.{code_of, decision, gone, granted_lifetime, is_address_met, is_no_address, is_port_met, port_within, refused, refused_until, without_room};

use external_pool::PickRefused;
use lease_store::{LeaseStore, Terms};
use pcp_base::{Address, Answer, Change, Code, Endpoint, MapLease, Moment, Record, Refusal};
use std::sync::ledger::Ledger;
use step_count::Steps;

/// The seconds that are granted.
pub(crate) fn granted_lifetime(terms: &Terms, asked: u32) -> u32
    ensures { result ≡ granted_lifetime terms.now asked }
{
    asked.max(terms.lifetime_min).min(terms.lifetime_max)
}

/// When a lease ends that is granted or renewed at `m` for as many seconds as are granted.
pub(crate) fn expiry_of(terms: &Terms, m: Moment, asked: u32) -> u64
    ensures { result ≡ m + granted_lifetime terms.now asked }
{
    m.get() + u64::from(granted_lifetime(terms, asked))
}

/// A refusal of a request that could be read.
pub(crate) fn refused(code: Code) -> Answer
    ensures { result ≡ (refused code).answer }
{
    Answer::Refused(Refusal {
        code,
        parsed: true,
        lifetime: code.lifetime(),
    })
}

/// The refusal of a request whose nonce isn't that of the lease: it tells what the lease still has.
pub(crate) fn refused_until(m: Moment, expiry: u64) -> Answer
    ensures { result ≡ (refused_until m expiry).answer }
{
    let left = expiry.saturating_sub(m.get()).min(u64::from(u32::MAX));
    Answer::Refused(Refusal {
        code: Code::NotAuthorized,
        parsed: true,
        lifetime: left as u32,
    })
}

/// The lease is deleted. It leaves the record in `kept`.
pub(crate) fn gone(m: Moment, change: Change, kept: &mut Option<Record>) -> Answer
    ensures { decision result kept.new ≡ gone m change }
{
    *kept = Some(Record { moment: m, change });
    Answer::Gone
}

/// The external port that a lease gives an endpoint that it covers.
pub(crate) fn port_within(endpoint: &Endpoint, lease: &MapLease) -> u16
    requires { port_within endpoint.now lease.now < 2 ^ 16 }
    ensures { result ≡ port_within endpoint.now lease.now }
{
    lease.external + endpoint.port.saturating_sub(lease.internal)
}

/// The code for what a pool refuses.
pub(crate) fn code_of(refused: PickRefused) -> Code
    ensures { result ≡ code_of refused }
{
    match refused {
        PickRefused::Quota(_) => Code::UserExQuota,
        PickRefused::CannotProvide => Code::CannotProvideExternal,
        PickRefused::NoPort => Code::NoResources,
    }
}

/// Why no lease is granted where there is no room for one: the quota, where a live lease gives the
/// endpoint no port and its address owns what it may. No port is picked for that.
pub(crate) fn without_room<S: LeaseStore, L: Ledger>(
    store: &mut S,
    m: Moment,
    who: &Address,
    given: Option<u16>,
    steps: &mut Steps<L>,
) -> Code
    requires sound { IsReached (S.state store.old) }
    requires reached { S.reached store.old ≡ m }
    ensures code { result
        ≡ without_room (S.terms store.old) (S.state store.old).table m who.now given }
    ensures state { S.state store.new ≡ S.state store.old }
    ensures reached { S.reached store.new ≡ m }
    ensures terms { S.terms store.new ≡ S.terms store.old }
    ensures steps { steps.new ≤ steps.old
        + (if is_none given then S.pick_steps store.old m who.now true else 0) }
{
    if given.is_some() {
        return Code::NoResources;
    }
    if store.is_at_quota(who, steps) {
        return Code::UserExQuota;
    }
    Code::NoResources
}

/// Whether an external port is the suggested one, where one is suggested.
pub(crate) fn is_port_met(suggested: u16, port: u16) -> bool
    ensures { result ≡ is_port_met suggested port }
{
    suggested == 0 || suggested == port
}

/// Whether no address is suggested.
fn is_no_address(address: &Address) -> bool
    ensures { result ≡ is_no_address address.now }
{
    *address == Address([0; 16]) || *address == Address::v4(0, 0, 0, 0)
}

/// Whether the external address is the suggested one, where one is suggested.
pub(crate) fn is_address_met(suggested: &Address, address: &Address) -> bool
    ensures { result ≡ is_address_met suggested.now address.now }
{
    is_no_address(suggested) || suggested == address
}
