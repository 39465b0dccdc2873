//! As many leases as an external address may have.
ghost use Rattle.std.specs.Prelude.{◌≡◌, ◌≤◌, IfOk, OnOk};
ghost use Rattle.lease_store.specs.LeaseTerms.{AreTerms};
ghost use Rattle.core_rows.specs.Serving.{MayServe};

use crate::making::{Profile, indexed};
use crate::requests::{Request, Told, Wish};
use crate::rows::is_answered;
use crate::serving::{begun, moment};
use Told::{Leased, Refused};
use Wish::Nothing;
use lease_core::LeaseCore;
use lease_store::LeaseStore;
use pcp_base::Moment;
use std::alloc::Global;
use std::test::Fail;

/// Asks for 32,768 leases of one host, of one port each. The first that isn't given the external
/// port of the same number.
fn first_ungranted<S: LeaseStore>(
    alloc: Global,
    core: &mut LeaseCore<S>,
    m: Moment,
) -> Result<Option<u16>, Fail>
    requires may { MayServe (S.state core.old) (S.terms core.old) }
    requires later { S.reached core.old ≤ m }
    ensures may { OnOk result (MayServe (S.state core.new) (S.terms core.new)) }
    ensures reached { OnOk result (S.reached core.new ≤ m) }
{
    for port in 1024..33_792 {
        let request = Request(5, port, 1, 3600, 0, Nothing);
        if !is_answered(alloc, core, m, &request, Leased(3600, port))? {
            return Ok(Some(port));
        }
    }
    Ok(None)
}

/// Whether no other host is granted a lease then, though ports are left, one more of the same host is
/// answered so, and a renewal needs no room.
fn is_full<S: LeaseStore>(
    alloc: Global,
    core: &mut LeaseCore<S>,
    m: Moment,
    more: Told,
) -> Result<bool, Fail>
    requires may { MayServe (S.state core.old) (S.terms core.old) }
    requires later { S.reached core.old ≤ m }
    ensures { OnOk result (MayServe (S.state core.new) (S.terms core.new)) }
{
    let another = Request(6, 5000, 1, 3600, 0, Nothing);
    if !is_answered(alloc, core, m, &another, Refused(8, 30))? {
        return Ok(false);
    }
    let one_more = Request(5, 40_000, 1, 3600, 0, Nothing);
    if !is_answered(alloc, core, m, &one_more, more)? {
        return Ok(false);
    }
    let again = Request(5, 20_000, 1, 3600, 0, Nothing);
    is_answered(alloc, core, m, &again, Leased(3600, 20_000))
}

/// Fills a core. Whether it is full then, and only then, and one more of the host is answered so.
fn is_filled<S: LeaseStore + Drop>(
    alloc: Global,
    made: Result<LeaseCore<S>, Fail>,
    more: Told,
) -> Result<bool, Fail>
    requires { IfOk made (λ core. AreTerms (S.terms core)) }
{
    let mut core = begun(alloc, made)?;
    let m = moment(1010);
    if first_ungranted(alloc, &mut core, m)?.is_some() {
        return Ok(false);
    }
    Ok(is_full(alloc, &mut core, m, more)? && core.leases(m) == 32_768)
}

#[test]
fn no_more_leases_than_there_may_be(rt: HostRuntime) -> Result<(), Fail> {
    let alloc = rt.alloc();
    let made = indexed(alloc, Profile(1024, 65535, 65_535));
    assert!(rt; is_filled(alloc, made, Refused(8, 30))?);
    Ok(())
}

// The quota is told before the want of room.
#[test]
fn a_quota_of_all_leases(rt: HostRuntime) -> Result<(), Fail> {
    let alloc = rt.alloc();
    let made = indexed(alloc, Profile(1024, 65535, 32_768));
    assert!(rt; is_filled(alloc, made, Refused(10, 30))?);
    Ok(())
}
