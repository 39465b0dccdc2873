//! Each call of a core, with ample memory.
ghost use Rattle.std.specs.Prelude.{◌≡◌, IfOk};
ghost use Rattle.lease_store.specs.LeaseTerms.{AreTerms};
ghost use Rattle.core_rows.specs.Serving.{MayServe};

use crate::making::{WIDE, indexed, plain};
use crate::requests::{Told, Wish, host, remote, told_of};
use crate::rows::{Step, first_other};
use crate::serving::{begun, moment, serve};
use Protocol::Udp;
use Step::Ask as Asked;
use Told::{Gone, Leased};
use Wish::{Nothing, Peer};
use lease_core::LeaseCore;
use lease_store::LeaseStore;
use pcp_base::{
    Address, Ask, Change, End, Endpoint, Filters, MapLease, Memory, Moment, Nonce, Owner,
    PeerLease, Protocol, Record, Replay,
};
use std::alloc::Global;
use std::test::Fail;

static STEPS: [Step; 4] = [
    Asked(1010, 5, 5000, 1, 3600, 0, Nothing, Leased(3600, 1024)),
    Asked(
        1010,
        5,
        5000,
        2,
        7200,
        0,
        Peer([198, 51, 100, 7], 53),
        Leased(7200, 1024),
    ),
    Asked(1010, 5, 6000, 1, 3600, 0, Nothing, Leased(3600, 1025)),
    Asked(1020, 5, 6000, 1, 0, 0, Nothing, Gone),
];

fn endpoint(port: u16) -> Endpoint {
    Endpoint {
        address: host(5),
        protocol: Udp,
        port,
    }
}

fn map_lease(granted: Moment) -> MapLease {
    MapLease {
        address: host(5),
        protocol: Udp,
        internal: 5000,
        count: 1,
        external: 1024,
        nonce: Nonce([1; 12]),
        granted,
        expiry: 4610,
        filters: Filters::none(),
    }
}

fn peer_lease(granted: Moment) -> PeerLease {
    PeerLease {
        endpoint: endpoint(5000),
        external: 1024,
        remote: remote([198, 51, 100, 7]),
        remote_port: 53,
        nonce: Nonce([2; 12]),
        granted,
        expiry: 8210,
    }
}

/// The core that was made, after the steps.
fn served<S: LeaseStore + Drop>(
    alloc: Global,
    made: Result<LeaseCore<S>, Fail>,
) -> Result<LeaseCore<S>, Fail>
    requires { IfOk made (λ core. AreTerms (S.terms core)) }
    ensures { IfOk result (λ core. MayServe (S.state core) (S.terms core)) }
{
    let mut core = begun(alloc, made)?;
    if first_other(alloc, &mut core, &STEPS)? != None {
        return Err("a step is answered otherwise".into());
    }
    Ok(core)
}

/// The core's leases after the steps are these two.
fn has_leases<S: LeaseStore>(alloc: Global, core: &LeaseCore<S>, m: Moment) -> Result<bool, Memory>
    requires { MayServe (S.state core.now) (S.terms core.now) }
{
    let granted = moment(1010);
    let maps = core.maps(alloc, m)?;
    let peers = core.peers(alloc, m)?;
    Ok(
        core.leases(m) == 2
            && maps.as_slice() == [map_lease(granted)].as_slice()
            && peers.as_slice() == [peer_lease(granted)].as_slice(),
    )
}

/// Their port is owned by the endpoint of both, and that of the deleted lease has an end.
fn has_owner_and_end<S: LeaseStore>(
    alloc: Global,
    core: &LeaseCore<S>,
    m: Moment,
) -> Result<bool, Memory>
    requires { MayServe (S.state core.now) (S.terms core.now) }
{
    let owner = Owner {
        protocol: Udp,
        external: 1024,
        endpoint: endpoint(5000),
    };
    let end = End {
        endpoint: endpoint(6000),
        external: 1025,
        end: 1020,
    };
    let owners = core.owners(alloc, m)?;
    let ends = core.ends(alloc)?;
    Ok(owners.as_slice() == [owner].as_slice() && ends.as_slice() == [end].as_slice())
}

/// The end and then both leases are kept by a record each.
fn has_records<S: LeaseStore>(alloc: Global, core: &LeaseCore<S>) -> Result<bool, Memory>
    requires { MayServe (S.state core.now) (S.terms core.now) }
{
    let granted = moment(1010);
    let kept = [
        Change::Rest(endpoint(6000), 1025, 1020),
        Change::Map(map_lease(granted)),
        Change::Peer(peer_lease(granted)),
    ];
    let mut records: Vec<Record> = Vec::new(alloc);
    core.add_records(&mut records)?;
    Ok(
        records.iter().all(|record| record.moment.get() == 1020)
            && records.iter().map(|record| record.change).eq(kept),
    )
}

/// Whether a core has these after the steps.
fn is_served<S: LeaseStore + Drop>(
    alloc: Global,
    made: Result<LeaseCore<S>, Fail>,
) -> Result<bool, Fail>
    requires { IfOk made (λ core. AreTerms (S.terms core)) }
{
    let core = served(alloc, made)?;
    let m = moment(1020);
    Ok(
        has_leases(alloc, &core, m)?
            && has_owner_and_end(alloc, &core, m)?
            && has_records(alloc, &core)?
            && core.covered(&endpoint(5000), m)
            && !core.covered(&endpoint(6000), m),
    )
}

#[test]
fn leases_and_owners(rt: HostRuntime) -> Result<(), Fail> {
    let alloc = rt.alloc();
    assert!(rt; is_served(alloc, indexed(alloc, WIDE))?);
    assert!(rt; is_served(alloc, plain(alloc, WIDE))?);
    Ok(())
}

/// Whether a core tells its base, last moment and external address after the steps, and forgets them.
fn tells_and_forgets<S: LeaseStore + Drop>(
    alloc: Global,
    made: Result<LeaseCore<S>, Fail>,
) -> Result<bool, Fail>
    requires { IfOk made (λ core. AreTerms (S.terms core)) }
{
    let mut core = served(alloc, made)?;
    let told = (core.base().get(), core.last().get());
    let address = core.address();
    core.clear();
    Ok(
        told == (1000, 1020)
            && address == Some(Address::v4(192, 0, 2, 1))
            && core.last().get() == 0
            && core.address() == None,
    )
}

#[test]
fn base_last_and_address(rt: HostRuntime) -> Result<(), Fail> {
    let alloc = rt.alloc();
    assert!(rt; tells_and_forgets(alloc, indexed(alloc, WIDE))?);
    assert!(rt; tells_and_forgets(alloc, plain(alloc, WIDE))?);
    Ok(())
}

/// Whether a core that was cleared admits a Start by the first format, and no Renumber behind it.
fn begins_in_first<S: LeaseStore + Drop>(
    alloc: Global,
    made: Result<LeaseCore<S>, Fail>,
) -> Result<bool, Fail>
    requires { IfOk made (λ core. AreTerms (S.terms core)) }
{
    let mut core = made?;
    core.clear();
    let moment = moment(1500);
    let start = Record {
        moment,
        change: Change::Start,
    };
    let told = Record {
        moment,
        change: Change::Renumber(Address::v4(192, 0, 2, 1)),
    };
    let begins = core.admit_first(alloc, &start)? && core.base().get() == 1500;
    Ok(begins && !core.admit_first(alloc, &told)?)
}

#[test]
fn the_first_format_has_no_renumber(rt: HostRuntime) -> Result<(), Fail> {
    let alloc = rt.alloc();
    assert!(rt; begins_in_first(alloc, indexed(alloc, WIDE))?);
    assert!(rt; begins_in_first(alloc, plain(alloc, WIDE))?);
    Ok(())
}

/// What is answered to an ANNOUNCE.
fn announced_by<S: LeaseStore + Drop>(
    alloc: Global,
    made: Result<LeaseCore<S>, Fail>,
) -> Result<Told, Fail>
    requires { IfOk made (λ core. AreTerms (S.terms core)) }
{
    let mut core = begun(alloc, made)?;
    let answer = serve(alloc, &mut core, &Ask::Announce, moment(1010))?;
    Ok(told_of(&answer))
}

#[test]
fn announced(rt: HostRuntime) -> Result<(), Fail> {
    let alloc = rt.alloc();
    assert!(rt; announced_by(alloc, indexed(alloc, WIDE))? == Told::Announced);
    assert!(rt; announced_by(alloc, plain(alloc, WIDE))? == Told::Announced);
    Ok(())
}
